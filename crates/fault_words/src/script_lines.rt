//! The lines of detail that are said of a script on standard error.

use crate::columns::bad_part;
use crate::script::trouble::Trouble;
use crate::script::{BadLine, Wrong};
use fault_configs::config_lines::push_fault_line;
use fault_configs::place::{Source, TextPlace};
use fault_configs::scan::is_json;
use script_events::text::front::front_of;
use std::alloc::{AllocError, Global};

// Whether the second line begins as no line of a script does, but as one of a JSON.
fn goes_on_as_json(text: &str) -> bool {
    match front_of(text).rest {
        None => false,
        Some(rest) => matches!(
            rest.as_bytes().first(),
            Some(b' ' | b'\t' | b'"' | b'{' | b'}' | b'[' | b']')
        ),
    }
}

// That a script's configuration stands on its first line, where that is no JSON and the text goes on as if it were.
fn push_first_line_hint(
    alloc: Global,
    file: &str,
    text: &str,
    line: &str,
    lines: &mut Vec<String>,
) -> Result<(), AllocError> {
    if goes_on_as_json(text) && !is_json(alloc, line)? {
        let hint = format!(in alloc;
            "mcgate: {file}: a script's configuration stands on its first line; one of many lines is given by --config: mcgate replay --config {file} SCRIPT"
        )?;
        lines.push(hint)?;
    }
    Ok(())
}

/// Lines of detail on a script, whose first line is to be a configuration.
pub fn lines_of_script(alloc: Global, file: &str, text: &str) -> Result<Vec<String>, AllocError> {
    let line = front_of(text).line;
    let mut lines = Vec::new(alloc);
    push_fault_line(alloc, Source::whole(file, line), &mut lines)?;
    push_first_line_hint(alloc, file, text, line, &mut lines)?;
    Ok(lines)
}

// A part of a file that begins at a place.
fn source_at<'a>(file: &'a str, text: &'a str, begins: TextPlace) -> Source<'a> {
    Source { file, text, begins }
}

// The line of this number, counted from 1.
fn line_of(text: &str, number: usize) -> &str {
    text.split('\n').nth(number.saturating_sub(1)).unwrap_or("")
}

/// What is said of a bad line of a script: its column with what is wrong there, and of the configuration of a `reload` its fault.
pub fn lines_of_bad_line(
    alloc: Global,
    file: &str,
    text: &str,
    bad: BadLine<'_>,
) -> Result<Vec<String>, AllocError> {
    let line = line_of(text, bad.number);
    let at = bad_part(line.as_bytes(), bad.wrong);
    let begins = TextPlace {
        line: bad.number,
        column: 1,
    };
    let place = begins.within(line, at);
    let mut lines = Vec::new(alloc);
    lines.push(format!(in alloc; "mcgate: {file}:{place}: {}", bad.wrong)?)?;
    if matches!(bad.wrong, Wrong::Unread(Trouble::NoConfiguration)) {
        let source = source_at(file, line.get(at..).unwrap_or(""), place);
        push_fault_line(alloc, source, &mut lines)?;
    }
    Ok(lines)
}
