//! How the tables are read: `|` is the end of a line, CR LF, in requests and in answers.

ghost use Rattle.std.specs.Prelude.{◌≤◌, length, IfOk, IfSome};
ghost use Rattle.mc_types.specs.Asks.{IsAsk};
ghost use Rattle.mc_types.specs.KeyText.{IsKey};

use bytes::BytesMut;
use mc_types::{Answer, Ask, Key, Outcome};
use std::alloc::{AllocError, Global};
use std::test::Fail;
use text_words::number::u32_number;
use wire_stream::{Read, Received, read_request, write_answer};

/// The bytes that a text stands for.
pub fn wire(alloc: Global, text: &str) -> Result<String, AllocError> {
    text.replace(alloc, "|", "\r\n")
}

/// The text of such bytes.
pub fn text_of(alloc: Global, bytes: &[u8]) -> Result<String, AllocError> {
    str::from_utf8(bytes)
        .unwrap_or("no text")
        .replace(alloc, "\r\n", "|")
}

/// What stands before the mark, and what stands after it: nothing where the text doesn't have it.
pub fn halves<'a>(text: &'a str, mark: &str) -> (&'a str, &'a str) {
    text.split_once(mark).unwrap_or((text, ""))
}

/// A number of 32 bits; what is none fails the test.
pub fn number(text: &str) -> Result<u32, Fail> {
    match u32_number(text.as_bytes()) {
        Some(number) => Ok(number),
        None => Err(Fail::new(format_args!("no number: {text}"))),
    }
}

/// A key; what is none fails the test.
pub fn key(text: &str) -> Result<Key, Fail>
    ensures { IfOk result IsKey }
{
    match Key::read(text.as_bytes()) {
        Ok(key) => Ok(key),
        Err(_) => Err(Fail::new(format_args!("no key: {text}"))),
    }
}

/// Data of at most 100 bytes.
pub fn short(text: &str) -> Result<&[u8], Fail>
    ensures { IfOk result (λ bytes. length bytes.now ≤ 100) }
{
    if text.len() > 100 {
        return Err(Fail::new(format_args!("too long: {text}")));
    }
    Ok(text.as_bytes())
}

fn first_ask(alloc: Global, bytes: &[u8]) -> Result<Option<Ask>, AllocError>
    ensures { IfOk result (λ ask. IfSome ask IsAsk) }
{
    match read_request(bytes) {
        Read::Request(request) => request.walk().next(alloc, &Received::copied(bytes)),
        _ => Ok(None),
    }
}

/// The ask of a request.
pub fn ask(alloc: Global, request: &str) -> Result<Ask, Fail>
    ensures { IfOk result IsAsk }
{
    let bytes = wire(alloc, request)?;
    match first_ask(alloc, bytes.as_str().as_bytes())? {
        Some(ask) => Ok(ask),
        None => Err(Fail::new(format_args!("no request: {request}"))),
    }
}

/// An answer as it is written, as a text.
pub fn answer_text(alloc: Global, ask: &Ask, answer: &Answer) -> Result<String, AllocError> {
    let mut out = BytesMut::new(alloc);
    write_answer(ask, answer, &mut out)?;
    text_of(alloc, out.as_slice())
}

/// The text of an answer, or `failed`.
pub fn outcome_text(alloc: Global, ask: &Ask, outcome: &Outcome) -> Result<String, AllocError> {
    match outcome {
        Outcome::Answered(answer) => answer_text(alloc, ask, answer),
        Outcome::Failed => "failed".to_string(alloc),
    }
}

/// The text, and after it the stamp, where there is one.
pub fn with_stamp(alloc: Global, text: String, stamp: Option<u64>) -> Result<String, AllocError> {
    match stamp {
        Some(stamp) => format!(in alloc; "{text} #{stamp}"),
        None => Ok(text),
    }
}

/// That this line of the example of this name gave what it says.
pub fn same(name: &str, line: &str, got: &str, want: &str) -> Result<(), Fail> {
    if got == want {
        return Ok(());
    }
    Err(Fail::new(format_args!("{name}: {line}: {got}")))
}

// A drop that is a call keeps the proof of a caller short.
pub fn drop_ask(_ask: Ask) {}

/// Drops an answer by a call, so that its many ways to end don't stand in the caller's proof.
pub fn drop_answer(_answer: Answer) {}

/// Drops an outcome by a call, so that its many ways to end don't stand in the caller's proof.
pub fn drop_outcome(_outcome: Outcome) {}
