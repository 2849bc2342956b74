//! What is told of clients, in words and by keys.

use crate::events::{Field, LogEvent, Subject};
use crate::lines::Lines;

/// Tells how often a connection could not be accepted.
pub fn tell_unaccepted<R: Eprint>(rt: &R, lines: &mut Lines, count: u64) {
    let fields = [Field::event("unaccepted"), Field::count("count", count)];
    let line = format_args!(
        "mcgate: connections could not be accepted, as too many descriptors are open or no memory is left: {count}"
    );
    lines.tell(rt, LogEvent::error(Subject::Client, &fields), line);
}

/// Tells how many clients were turned away, as there were too many.
pub fn tell_refused<R: Eprint>(rt: &R, lines: &mut Lines, count: u64) {
    let fields = [Field::event("refused"), Field::count("count", count)];
    let line = format_args!("mcgate: clients refused as too many: {count}");
    lines.tell(rt, LogEvent::warn(Subject::Client, &fields), line);
}

/// Tells how many clients were closed, as they took too little.
pub fn tell_stalled<R: Eprint>(rt: &R, lines: &mut Lines, count: u64) {
    let fields = [Field::event("closed"), Field::count("count", count)];
    let line = format_args!("mcgate: clients closed that took too little: {count}");
    lines.tell(rt, LogEvent::warn(Subject::Client, &fields), line);
}
