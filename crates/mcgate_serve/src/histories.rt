//! The files of histories that `serve` and `check` are given.

use gate_history::HistoryFile;
use mcgate_ends::details::Details;
use mcgate_ends::ends::Stop;
use mcgate_ends::histories::read_file;
use mcgate_ends::input::text_noting;
use mcgate_ends::input_text::InputFault;
use mcgate_notes::events::{Field, LogEvent, Subject};
use mcgate_notes::lines::Lines;
use mcgate_notes::special::is_special;
use std::alloc::{AllocError, Global};
use std::fs::metadata;
use std::io::{ErrorKind, Write};
use std::rt::Files;

// Whether there is no such file.
fn is_missing<R: Files>(rt: &R, path: &str) -> bool {
    match metadata(rt, path) {
        Ok(_) => false,
        Err(error) => error.kind() == ErrorKind::NotFound,
    }
}

// What is said of a file that is none.
fn special_line(alloc: Global, path: &str) -> Result<String, AllocError> {
    format!(in alloc; "mcgate: {path} is no regular file")
}

/// The text of a file. Where a device fails, a line of detail says why.
pub fn input_of<R: Files + Input + AllocGlobal>(
    rt: &R,
    path: &str,
    details: &mut Details,
) -> Result<String, InputFault> {
    let mut failure = None;
    let input = text_noting(rt, Some(path), &mut failure);
    if let Some(failure) = failure {
        details.add_failure(rt.alloc(), path, &failure);
    }
    input
}

// The history of no generation.
fn new_file(alloc: Global) -> Result<HistoryFile, Stop> {
    match HistoryFile::new(alloc) {
        Ok(file) => Ok(file),
        Err(_) => Err(Stop::Memory),
    }
}

/// The history in a file. If there is no such file it is that of no generation, of which a line tells; where the file is none, why was
/// printed.
pub fn file_at<R: Files + Input + AllocGlobal + Eprint, W: Write>(
    rt: &R,
    path: &str,
    lines: &mut Lines,
    out: &mut W,
    details: &mut Details,
) -> Result<Option<HistoryFile>, Stop> {
    if is_special(rt, path) {
        details.add(special_line(rt.alloc(), path));
        return Err(Stop::Device);
    }
    if is_missing(rt, path) {
        let line = format_args!("mcgate: {path}: no such file: what is remembered begins now");
        let fields = [Field::event("new"), Field::text("file", path)];
        lines.tell(rt, LogEvent::info(Subject::History, &fields), line);
        return Ok(Some(new_file(rt.alloc())?));
    }
    let input = input_of(rt, path, details);
    read_file(rt.alloc(), path, input, out, details)
}
