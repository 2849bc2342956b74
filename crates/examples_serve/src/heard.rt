//! What the program's loop answers over HTTP and to words: lines of an answer, its numbers, and which of them fell.

use examples_tables::tellers::halves;
use serde_json::Value;
use std::alloc::{AllocError, Global};
use std::mem;
use std::test::Fail;

/// The last answer and the one before it, in which examples' names stand for the addresses of two servers.
#[derive(Drop)]
pub struct Heard {
    first: String,
    second: String,
    last: String,
    before: String,
}

// What follows these words on a line, if it begins with them.
fn rest_of<'a>(line: &'a str, words: &str) -> Option<&'a str> {
    let rest = line.trim_start().strip_prefix(words)?;
    if rest.is_empty() || rest.starts_with(" ") {
        return Some(rest.trim());
    }
    None
}

// The same of the first line that begins with them.
fn line_of<'a>(text: &'a str, words: &str) -> Option<&'a str> {
    for line in text.lines() {
        let rest = rest_of(line, words);
        if rest.is_some() {
            return rest;
        }
    }
    None
}

// Whether this is what a length says.
fn says_length(length: &str, bytes: usize) -> bool {
    match length.parse::<usize>() {
        Ok(length) => length == bytes,
        Err(_) => false,
    }
}

/// Whether the body of an answer over HTTP is as long as its head says.
pub fn is_whole(answer: &str) -> bool {
    let (head, body) = halves(answer, "\r\n\r\n");
    match line_of(head, "Content-Length:") {
        Some(length) => says_length(length, body.len()),
        None => false,
    }
}

// What follows the head of an answer over HTTP, or the line with the status of an answer to a word.
fn body_of(answer: &str) -> &str {
    match answer.split_once("\r\n\r\n") {
        Some((_, body)) => body,
        None => halves(answer, "\n").1,
    }
}

fn count_in(said: &Value, name: &str) -> Option<u64> {
    said.get(name)?.as_u64()
}

// Whether a number of this family never falls. (a histogram has the last three)
fn is_counter(family: &str) -> bool {
    family.ends_with("_total")
        || family.ends_with("_bucket")
        || family.ends_with("_sum")
        || family.ends_with("_count")
}

// The name and the number on a line of a page, if that never falls.
fn counter_of(line: &str) -> Option<(&str, &str)> {
    let (name, number) = line.rsplit_once(" ")?;
    if !line.starts_with("#") && is_counter(halves(name, "{").0) {
        return Some((name, number));
    }
    None
}

// A number without its point. (a counter has as many digits after it on each page)
fn digits_of(alloc: Global, number: &str) -> Result<u64, Fail> {
    let digits = number.replace(alloc, ".", "")?;
    Ok(digits.as_str().parse::<u64>()?)
}

// Whether a page has less at this name, or nothing.
fn is_less(alloc: Global, page: &str, name: &str, before: &str) -> Result<bool, Fail> {
    match line_of(page, name) {
        Some(number) => Ok(digits_of(alloc, number)? < digits_of(alloc, before)?),
        None => Ok(true),
    }
}

// Whether the counter of this line, if it has one, is lower on a page, or isn't there.
fn has_fallen(alloc: Global, line: &str, page: &str) -> Result<bool, Fail> {
    match counter_of(line) {
        Some((name, before)) => is_less(alloc, page, name, before),
        None => Ok(false),
    }
}

// The first line of a page whose counter falls to the next page; `none` if none does.
fn first_fallen(alloc: Global, before: &str, page: &str) -> Result<String, Fail> {
    for line in before.lines() {
        if has_fallen(alloc, line, page)? {
            return Ok(line.to_string(alloc)?);
        }
    }
    Ok("none".to_string(alloc)?)
}

fn has_counter(page: &str) -> bool {
    for line in page.lines() {
        if counter_of(line).is_some() {
            return true;
        }
    }
    false
}

impl Heard {
    /// Nothing yet.
    pub fn new(alloc: Global) -> Heard {
        Heard {
            first: String::new(alloc),
            second: String::new(alloc),
            last: String::new(alloc),
            before: String::new(alloc),
        }
    }

    /// These are the addresses of the two servers.
    pub fn name(&mut self, first: String, second: String) {
        self.first = first;
        self.second = second;
    }

    fn with_names(&self, alloc: Global, answer: &str) -> Result<String, AllocError> {
        let named = answer.replace(alloc, self.first.as_str(), "127.0.0.1:5001")?;
        named
            .as_str()
            .replace(alloc, self.second.as_str(), "127.0.0.1:5002")
    }

    /// This was answered.
    pub fn note(&mut self, alloc: Global, answer: &str) -> Result<(), AllocError> {
        let named = self.with_names(alloc, answer)?;
        self.before = mem::replace(&mut self.last, named);
        Ok(())
    }

    /// The first line of the last answer.
    pub fn first_line(&self) -> &str {
        halves(self.last.as_str(), "\n").0.trim_end()
    }

    /// What follows these words on the first line of the last answer that begins with them.
    pub fn line(&self, alloc: Global, words: &str) -> Result<String, AllocError> {
        line_of(self.last.as_str(), words)
            .unwrap_or("no such line")
            .to_string(alloc)
    }

    /// The count of this name in the last answer, which is in JSON.
    pub fn count(&self, alloc: Global, name: &str) -> Result<String, Fail> {
        let said = Value::from_str(alloc, body_of(self.last.as_str()))?;
        match count_in(&said, name) {
            Some(count) => Ok(count.to_string(alloc)?),
            None => Ok("no such count".to_string(alloc)?),
        }
    }

    /// The line of the first counter that fell from the answer before to the last one; `none` if there are some and none did.
    pub fn fallen(&self, alloc: Global) -> Result<String, Fail> {
        let before = self.before.as_str();
        if has_counter(before) {
            return first_fallen(alloc, before, self.last.as_str());
        }
        Ok("no counter".to_string(alloc)?)
    }
}
