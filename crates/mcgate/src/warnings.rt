//! What is said of a configuration before it is served.

use fault_configs::lines_of_warnings;
use mcgate_notes::events::{Field, LogEvent, Subject};
use mcgate_notes::lines::Lines;

/// Says on standard error which names stand twice in an object, and which pools no route names. Where memory is refused nothing is said.
pub fn say_warnings<R: AllocGlobal + Eprint>(rt: &R, lines: &mut Lines, file: &str, text: &str) {
    if let Ok(warnings) = lines_of_warnings(rt.alloc(), file, text) {
        let fields = [Field::event("warning"), Field::text("file", file)];
        let event = LogEvent::warn(Subject::Config, &fields).with_text();
        for line in &warnings {
            lines.tell(rt, event, line.as_str());
        }
    }
}
