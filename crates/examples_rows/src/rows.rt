//! The form of rows.
//!
//! ```text
//! == a fleet of two                       a name
//! $ mcgate check --fleet --with f         the words of a command, between spaces
//! {"pools": ..                            the lines of standard input, if it has some
//! -- f                                    the name of a file
//! {"pools": ..                            its lines
//! => 1                                    the exit status
//! refused: ..                             the lines of standard output
//! ! mcgate: f: ..                         the lines of standard error
//! ```
//!
//! In inputs a last line `\` says that the line before it has no end, and `«31 [»` stands for 31
//! times `[`. A line `..` or `! ..` stands for any lines. What stands before the first row, and a
//! heading without a command, are remarks.

use examples_tables::tellers::{halves, written_out};
use std::alloc::{AllocError, Global};

/// A row as it is written.
#[derive(Clone, Copy)]
pub struct Row<'a> {
    pub name: &'a str,
    /// The command, the lines of standard input, and the files.
    pub given: &'a str,
    /// The status, and what is printed.
    pub wanted: &'a str,
}

/// What stands between two headings.
#[derive(Clone, Copy)]
pub enum Block<'a> {
    Row(Row<'a>),
    Remark,
    /// It has a command and nothing that comes of it, or this alone.
    Broken,
}

/// The block of these lines, the heading's words first.
pub fn block_of(lines: &str) -> Block<'_> {
    match (lines.split_once("\n$ "), lines.contains("\n=> ")) {
        (None, false) => Block::Remark,
        (Some((name, rest)), true) => {
            let (given, wanted) = halves(rest, "\n=> ");
            Block::Row(Row {
                name,
                given,
                wanted,
            })
        }
        _ => Block::Broken,
    }
}

/// The command of a row.
pub fn command_of<'a>(row: &Row<'a>) -> &'a str {
    halves(row.given, "\n").0
}

// The line that names a file, and its lines; the command, and those of standard input, where none
// is named.
fn part_of<'a>(given: &'a str, file: Option<&str>) -> Option<&'a str> {
    for (at, part) in given.split("\n-- ").enumerate() {
        let found = match file {
            None => at == 0,
            Some(name) => at > 0 && halves(part, "\n").0 == name,
        };
        if found {
            return Some(part);
        }
    }
    None
}

fn text_of_lines(alloc: Global, lines: &str) -> Result<String, AllocError> {
    match lines.strip_suffix("\n\\") {
        Some(lines) => written_out(alloc, lines),
        None => {
            let mut text = written_out(alloc, lines)?;
            text.push('\n')?;
            Ok(text)
        }
    }
}

/// The text of a file of a row, or of standard input; none where the row has no such file.
pub fn text_in(
    alloc: Global,
    given: &str,
    file: Option<&str>,
) -> Result<Option<String>, AllocError> {
    let Some(part) = part_of(given, file) else {
        return Ok(None);
    };
    match part.split_once('\n') {
        Some((_, lines)) => Ok(Some(text_of_lines(alloc, lines)?)),
        None => Ok(Some(String::new(alloc))),
    }
}
