//! Whether what came of a row is as it is written.

use crate::rows::{Row, command_of};
use crate::running::Came;
use examples_tables::tellers::halves;
use std::alloc::{AllocError, Global};

// The lines of standard error, which begin with `! `, or those of standard output.
fn lines_of(alloc: Global, wanted: &str, of_errors: bool) -> Result<String, AllocError> {
    let mut lines = String::new(alloc);
    for line in wanted.lines().skip(1) {
        let (is_error, line) = match line.strip_prefix("! ") {
            Some(rest) => (true, rest),
            None => (false, line),
        };
        if is_error == of_errors {
            lines.push_str(line)?;
            lines.push('\n')?;
        }
    }
    Ok(lines)
}

// Whether a text begins with these lines and ends with those.
fn has_ends(came: &str, front: &str, back: &str) -> bool {
    match came.strip_prefix(front) {
        Some(rest) => rest.starts_with('\n') && rest.ends_with(back),
        None => false,
    }
}

// Whether lines came as they are written, where `..` stands for any lines.
fn is_as(came: &str, wanted: &str) -> bool {
    match (wanted.strip_prefix("..\n"), wanted.split_once("\n..\n")) {
        (Some(back), _) => came.ends_with(back),
        (None, Some((front, back))) => has_ends(came, front, back),
        (None, None) => came == wanted,
    }
}

// Whether all of it came so.
fn is_right(alloc: Global, wanted: &str, came: &Came) -> Result<bool, AllocError> {
    let status = came.status.to_string(alloc)?;
    let out = lines_of(alloc, wanted, false)?;
    let errors = lines_of(alloc, wanted, true)?;
    Ok(
        status.as_str() == halves(wanted, "\n").0
            && is_as(came.out.as_str(), out.as_str())
            && is_as(came.errors.as_str(), errors.as_str()),
    )
}

// What came, as a row has it.
fn written(alloc: Global, row: &Row<'_>, came: &Came) -> Result<String, AllocError> {
    let mut text = format!(in alloc; "== {}\n$ {}\n", row.name, command_of(row))?;
    write!(&mut text, "=> {}\n{}", came.status, came.out.as_str())?;
    for line in came.errors.as_str().lines() {
        writeln!(&mut text, "! {line}")?;
    }
    Ok(text)
}

/// What came of a row, as it would be written, if it isn't as it is written.
pub fn difference(alloc: Global, row: &Row<'_>, came: &Came) -> Result<Option<String>, AllocError> {
    if is_right(alloc, row.wanted, came)? {
        return Ok(None);
    }
    Ok(Some(written(alloc, row, came)?))
}
