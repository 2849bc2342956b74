//! Commands as they are sent, and their answers: each byte of an answer is known but the number that a value carries.

use bytes::BytesMut;
use itoa::Buffer;
use memchr::memchr;
use std::alloc::{AllocError, Global};
use text_words::number::number;

// The digits of a key's number, and of the number that a value begins with.
const DIGITS: usize = 16;

const ZEROS: &[u8] = b"0000000000000000";

// What ends the answer of a get.
const END: &[u8] = b"\r\nEND\r\n";

/// What a command does with its key.
#[derive(Clone, Copy, PartialEq, Eq)]
pub enum LoadKind {
    Get,
    Set,
    Delete,
}

/// A command.
#[derive(Clone, Copy)]
pub struct LoadCommand {
    pub kind: LoadKind,
    /// The number of its key.
    pub key: u64,
    /// Of a set the number that its value carries.
    pub value: u64,
}

/// What a command was answered.
#[derive(Clone, Copy, PartialEq, Eq)]
pub enum Answer {
    Stored,
    /// `DELETED` or `NOT_FOUND`.
    Deleted,
    Missed,
    /// The number that the value carries.
    Value(u64),
    /// One of the protocol's errors.
    Error,
    /// The bytes aren't those of any answer.
    Wrong,
}

/// Writes commands and reads answers whose values have one size.
#[derive(Drop)]
pub struct Codec {
    size: usize,
    // What stands in a value after its number.
    filling: Vec<u8>,
    // The line before the value that is looked for.
    head: BytesMut,
}

fn put_number(out: &mut BytesMut, number: u64) -> Result<(), AllocError> {
    let mut buffer = Buffer::new();
    out.extend_from_slice(buffer.format(number).as_bytes())
}

// The number in as many digits as each has.
fn put_digits(out: &mut BytesMut, number: u64) -> Result<(), AllocError> {
    let mut buffer = Buffer::new();
    let digits = buffer.format(number).as_bytes();
    out.extend_from_slice(ZEROS.get(digits.len()..).unwrap_or(b"".as_slice()))?;
    out.extend_from_slice(digits)
}

fn put_key(out: &mut BytesMut, key: u64) -> Result<(), AllocError> {
    out.extend_from_slice(b"mcload:")?;
    put_digits(out, key)
}

impl Codec {
    /// For values of so many bytes, 16 or more.
    pub fn new(alloc: Global, size: usize) -> Result<Codec, AllocError> {
        let mut filling = Vec::new(alloc);
        filling.resize(size.saturating_sub(DIGITS), b'x')?;
        Ok(Codec {
            size,
            filling,
            head: BytesMut::new(alloc),
        })
    }

    /// Appends a command.
    pub fn write(&self, out: &mut BytesMut, command: LoadCommand) -> Result<(), AllocError> {
        match command.kind {
            LoadKind::Get => out.extend_from_slice(b"get ")?,
            LoadKind::Set => out.extend_from_slice(b"set ")?,
            LoadKind::Delete => out.extend_from_slice(b"delete ")?,
        }
        put_key(out, command.key)?;
        if command.kind == LoadKind::Set {
            self.write_value(out, command.value)?;
        }
        out.extend_from_slice(b"\r\n")
    }

    // What stands in a set after its key.
    fn write_value(&self, out: &mut BytesMut, value: u64) -> Result<(), AllocError> {
        out.extend_from_slice(b" 0 0 ")?;
        put_number(out, self.size as u64)?;
        out.extend_from_slice(b"\r\n")?;
        put_digits(out, value)?;
        out.extend_from_slice(self.filling.as_slice())
    }

    // The line before the value of a key.
    fn make_head(&mut self, key: u64) -> Result<(), AllocError> {
        self.head.clear();
        self.head.extend_from_slice(b"VALUE ")?;
        put_key(&mut self.head, key)?;
        self.head.extend_from_slice(b" 0 ")?;
        put_number(&mut self.head, self.size as u64)?;
        self.head.extend_from_slice(b"\r\n")
    }

    // The number that begins a value, where the rest of it and what ends its answer are as they have to be.
    fn number_in(&self, bytes: &[u8]) -> Option<u64> {
        let (digits, rest) = bytes.split_at_checked(DIGITS)?;
        let (filling, end) = rest.split_at_checked(self.filling.len())?;
        if filling != self.filling.as_slice() || end != END {
            return None;
        }
        number(digits)
    }

    // The answer whose first line ends there, and how long it is. `None` where more of it is to come.
    fn read_value(
        &mut self,
        held: &[u8],
        line: usize,
        key: u64,
    ) -> Result<Option<(Answer, usize)>, AllocError> {
        self.make_head(key)?;
        let (head, rest) = held
            .split_at_checked(line)
            .unwrap_or((held, b"".as_slice()));
        if head != self.head.as_slice() {
            return Ok(Some((Answer::Wrong, line)));
        }
        let len = self.size.saturating_add(END.len());
        let Some(bytes) = rest.get(..len) else {
            return Ok(None);
        };
        let answer = match self.number_in(bytes) {
            Some(number) => Answer::Value(number),
            None => Answer::Wrong,
        };
        Ok(Some((answer, line.saturating_add(len))))
    }

    /// The answer to a command at the front of what is held, and how long it is. `None` where more of it is to come. The only error
    /// is running out of memory.
    pub fn read(
        &mut self,
        held: &[u8],
        command: LoadCommand,
    ) -> Result<Option<(Answer, usize)>, AllocError> {
        let Some(at) = memchr(b'\n', held) else {
            return Ok(None);
        };
        let line = at.saturating_add(1);
        let text = held.get(..line).unwrap_or(held);
        if command.kind == LoadKind::Get && text.starts_with(b"VALUE ") {
            return self.read_value(held, line, command.key);
        }
        Ok(Some((answer_of(text, command.kind), line)))
    }
}

// What an answer of one line says to a command.
fn answer_of(line: &[u8], kind: LoadKind) -> Answer {
    match (kind, line) {
        (LoadKind::Get, b"END\r\n") => Answer::Missed,
        (LoadKind::Set, b"STORED\r\n") => Answer::Stored,
        (LoadKind::Delete, b"DELETED\r\n" | b"NOT_FOUND\r\n") => Answer::Deleted,
        _ if line.starts_with(b"SERVER_ERROR") || line.starts_with(b"ERROR") => Answer::Error,
        _ => Answer::Wrong,
    }
}
