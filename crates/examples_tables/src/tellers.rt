//! Tables of examples. A line is an example, ` => `, and what is told of it; a line that begins with `#` is a remark.
//! In an example `«31 [»` stands for 31 times `[`, in which `#` is the number of the time, from 1 on.

use crate::tables::same;
use std::alloc::{AllocError, Global};
use std::test::Fail;

/// What stands before and after these bytes; without them, all stands before.
pub fn halves<'a>(text: &'a str, by: &str) -> (&'a str, &'a str) {
    text.split_once(by).unwrap_or((text, ""))
}

/// What tells of an example what its table should say.
pub trait Teller {
    fn told(alloc: Global, example: &str) -> Result<String, AllocError>;
}

/// The lines of the table of which something else is told, each with what is told of it.
pub fn wrong<T: Teller>(alloc: Global, table: &str) -> Result<String, AllocError> {
    let mut out = String::new(alloc);
    for line in table.lines() {
        if !line.starts_with('#') {
            let (example, want) = halves(line, " => ");
            let whole = written_out(alloc, example)?;
            let told = T::told(alloc, whole.as_str())?;
            note(&mut out, line, want, told.as_str())?;
        }
    }
    Ok(out)
}

/// That of each line of the table what it says is told.
pub fn all_told<T: Teller>(alloc: Global, table: &str) -> Result<(), Fail> {
    let lines = wrong::<T>(alloc, table)?;
    same("told otherwise", lines.as_str(), "")
}

// The line and what is told of it, unless that is what is wanted.
fn note(out: &mut String, line: &str, want: &str, told: &str) -> Result<(), AllocError> {
    if told == want {
        return Ok(());
    }
    write!(out, "{line} BUT {told}; ")
}

/// The text with these before and after it.
pub fn between(alloc: Global, front: &str, text: &str, back: &str) -> Result<String, AllocError> {
    let mut whole = String::from_str(alloc, front)?;
    whole.push_str(text)?;
    whole.push_str(back)?;
    Ok(whole)
}

/// Appends the word, after a space unless it is the first.
pub fn push_word(out: &mut String, word: &str) -> Result<(), AllocError> {
    if !out.is_empty() {
        out.push_str(" ")?;
    }
    out.push_str(word)
}

/// Appends the number as a word.
pub fn push_number(out: &mut String, number: u32) -> Result<(), AllocError> {
    if !out.is_empty() {
        out.push_str(" ")?;
    }
    write!(out, "{number}")
}

/// The number that the text says, or 9.
pub fn number_of(text: &str) -> u32 {
    text.parse::<u32>().unwrap_or(9)
}

/// The example with its repeated parts.
pub fn written_out(alloc: Global, example: &str) -> Result<String, AllocError> {
    let mut out = String::new(alloc);
    for part in example.split('«') {
        push_part(&mut out, part)?;
    }
    Ok(out)
}

// A part up to the next repeated one; it begins with a repeated one if it has its end.
fn push_part(out: &mut String, part: &str) -> Result<(), AllocError> {
    match part.split_once('»') {
        Some((repeated, rest)) => {
            push_repeated(out, repeated)?;
            out.push_str(rest)
        }
        None => out.push_str(part),
    }
}

// The number of times, a space, and the text.
fn push_repeated(out: &mut String, repeated: &str) -> Result<(), AllocError> {
    let (times, text) = halves(repeated, " ");
    for time in 0..times.parse::<u32>().unwrap_or(0) {
        push_time(out, text, time.wrapping_add(1))?;
    }
    Ok(())
}

// The text, with the number of the time for `#`.
fn push_time(out: &mut String, text: &str, time: u32) -> Result<(), AllocError> {
    match text.split_once('#') {
        Some((before, after)) => {
            out.push_str(before)?;
            write!(out, "{time}")?;
            out.push_str(after)
        }
        None => out.push_str(text),
    }
}
