//! Examples as lines of text: an event in each, and after an arrow what it gives, if it gives something.

use crate::tellers::halves;
use std::alloc::{AllocError, Global};
use std::test::Fail;

/// What the events of an example happen to.
pub trait Stage {
    /// What an event gives, where `want` is what it is to give.
    fn answer(&mut self, event: &str, want: &str) -> Result<String, Fail>;
}

/// The first word, and what comes after the space.
pub fn cut(text: &str) -> (&str, &str) {
    halves(text, " ")
}

/// A number and what comes after the space.
pub fn numbered(text: &str) -> Result<(usize, &str), Fail> {
    let (number, rest) = cut(text);
    Ok((number.parse::<usize>()?, rest))
}

/// A text with the ends of its lines, which stand as `\r\n` in an example.
pub fn plain(alloc: Global, text: &str) -> Result<String, AllocError> {
    text.replace(alloc, r"\r\n", "\r\n")
}

/// Bytes as they stand in an example.
pub fn shown(alloc: Global, bytes: &[u8]) -> Result<String, Fail> {
    if bytes.is_empty() {
        return Ok("nothing".to_string(alloc)?);
    }
    let text = std::str::from_utf8(bytes)?;
    Ok(text.replace(alloc, "\r\n", r"\r\n")?)
}

/// `yes` or `no`.
pub fn yes_or_no(is_so: bool) -> &'static str {
    if is_so { "yes" } else { "no" }
}

fn play_line<S: Stage>(stage: &mut S, name: &str, line: &str) -> Result<(), Fail> {
    let (event, want) = halves(line, " => ");
    let got = stage.answer(event, want)?;
    if got.as_str() != want {
        return Err(Fail::new(format_args!("{name}\n{event} => {got}")));
    }
    Ok(())
}

/// Plays the events of an example; a line that begins with two strokes is a remark.
pub fn play_lines<S: Stage>(stage: &mut S, name: &str, lines: &str) -> Result<(), Fail> {
    for line in lines.lines() {
        if !line.starts_with("-- ") {
            play_line(stage, name, line)?;
        }
    }
    Ok(())
}

/// The first line of an example, and the others.
pub fn first_line(text: &str) -> (&str, &str) {
    halves(text, "\n")
}
