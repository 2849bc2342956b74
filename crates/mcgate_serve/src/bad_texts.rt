//! What is said of a text that was to be loaded and wasn't: why it is no configuration, or what to run next.

use fault_configs::{lines_of_configuration, lines_of_over};
use mcgate_ends::details::Details;
use mcgate_ends::serve_job::ServeJob;
use mcgate_notes::events::{Field, LogEvent, Subject};
use mcgate_notes::lines::Lines;
use serve_proxy::{Beginning, Beginnings};
use std::alloc::{AllocError, Global};

// So many bytes an output takes at once where it takes any. What has more could wait.
const LONGEST: usize = 3_500;

// Says a line that isn't too long.
fn say<R: Eprint>(rt: &R, lines: &mut Lines, event: LogEvent<'_>, line: &str) {
    if line.len() <= LONGEST {
        lines.tell(rt, event.with_text(), line);
    }
}

// The flags by which servers began so.
fn flags_of(begun: Beginnings) -> &'static str {
    match (begun.opened, begun.added) {
        (Beginning::Any, Beginning::Any) => "",
        (Beginning::Own, Beginning::Any) => "--opened own ",
        (Beginning::Any, Beginning::Own) => "--new-servers empty ",
        (Beginning::Own, Beginning::Own) => "--opened own --new-servers empty ",
    }
}

// What to run next where a tree may not follow those before it.
fn plan_line(alloc: Global, job: &ServeJob<'_>) -> Result<String, AllocError> {
    let (file, flags) = (job.file, flags_of(job.begun));
    if job.fleet {
        return format!(in alloc;
            "mcgate: {file}: put the text in use back now; mcgate check --fleet --with IN-USE NEW judges a tree that leads to the new one"
        );
    }
    match job.history {
        Some(history) => format!(in alloc;
            "mcgate: {file}: put the text in use back now; mcgate check --history {history} {flags}--explain NEW tells what helps"
        ),
        None => format!(in alloc;
            "mcgate: {file}: put the text in use back now; mcgate plan {flags}IN-USE NEW tells the steps to the new one"
        ),
    }
}

// Whether this was said of a tree that may not follow those before it.
fn is_of_tree(said: &[u8]) -> bool {
    said.starts_with(b"reload refused generation=") || said.starts_with(b"reload refused: reads=")
}

// Says these lines, but for those that are too long.
fn say_all<R: Eprint>(rt: &R, lines: &mut Lines, event: LogEvent<'_>, details: &Details) {
    for line in details.lines() {
        say(rt, lines, event, line.as_str());
    }
}

/// Says why the job's file can't be read, but for lines that are too long.
pub fn say_unread<R: Eprint>(rt: &R, lines: &mut Lines, job: &ServeJob<'_>, details: &Details) {
    let fields = [Field::event("unread"), Field::text("file", job.file)];
    say_all(
        rt,
        lines,
        LogEvent::error(Subject::Config, &fields),
        details,
    );
}

// The server whose epoch is over, where this was said of a text that is a configuration.
fn over_in(said: &[u8]) -> Option<&str> {
    let said = std::str::from_utf8(said).ok()?;
    said.trim_end().strip_prefix("config: bad address ")
}

// Says why a text is no configuration, of which this was said: the lines of `mcgate check`, or where it names a server whose epoch is over.
fn say_faults<R: AllocGlobal + Eprint>(
    rt: &R,
    lines: &mut Lines,
    file: &str,
    text: &str,
    said: &[u8],
) {
    let mut details = Details::new(rt.alloc());
    details.add_all(lines_of_configuration(rt.alloc(), file, text));
    if details.lines().is_empty() {
        if let Some(server) = over_in(said) {
            details.add_all(lines_of_over(rt.alloc(), file, text, server));
        }
    }
    let fields = [Field::event("fault"), Field::text("file", file)];
    say_all(
        rt,
        lines,
        LogEvent::warn(Subject::Config, &fields),
        &details,
    );
}

/// Says more on standard error of a text of the job's file that isn't loaded, of which this was said: why it is no configuration, or which
/// command tells how its tree may follow. A line that is too long isn't said, and none where memory is refused.
pub fn say_why<R: AllocGlobal + Eprint>(
    rt: &R,
    lines: &mut Lines,
    job: &ServeJob<'_>,
    text: &str,
    said: &[u8],
) {
    if said.starts_with(b"config: ") {
        say_faults(rt, lines, job.file, text, said);
    } else if is_of_tree(said) {
        if let Ok(line) = plan_line(rt.alloc(), job) {
            let fields = [Field::event("advice"), Field::text("file", job.file)];
            let event = LogEvent::warn(Subject::Config, &fields);
            say(rt, lines, event, line.as_str());
        }
    }
}
