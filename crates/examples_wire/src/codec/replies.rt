//! What a client is shown of the answers that servers gave.

use crate::codec::OfAsks;
use crate::escapes::spelled;
use bytes::BytesMut;
use examples_tables::tables::same_bytes;
use examples_tables::tellers::all_told;
use mc_types::{Answer, Ask, Body, ErrorText, OwnText};
use std::alloc::{AllocError, Global};
use std::test::Fail;
use wire_answers::{AnswerRead, read_answer, write_end, write_value};
use wire_stream::{DEFAULT_VERSION, ProxyCommand, ends_message, write_own, write_part};

// What servers answered, one after another, and what the client of the one request is shown. `call failed` stands for an answer of the proxy's
// own, and with `...` behind them more answers are to come.
fn table() -> &'static str {
    r"replies: get k\r\n | VALUE k 5 3\r\nxyz\r\nEND\r\nEND\r\nVALUE k 5 3\r\nxyz\r\nEND\r\n => VALUE k 5 3\r\nxyz\r\nVALUE k 5 3\r\nxyz\r\nEND\r\n
values: gets k\r\n | VALUE k 1 2 3\r\nxy\r\nEND\r\nEND\r\nVALUE k 1 2 3\r\nxy\r\nEND\r\n => VALUE k 1 2 3\r\nxy\r\nVALUE k 1 2 3\r\nxy\r\nEND\r\n
# An error line stands in place of `END`, and no further key is asked.
replies: get k\r\n | VALUE k 5 3\r\nxyz\r\nEND\r\ncall failed... => VALUE k 5 3\r\nxyz\r\nSERVER_ERROR call failed\r\n
# Nothing is shown where no answer is wanted.
replies: delete k noreply\r\n | ERROR\r\n => nothing
replies: delete k noreply\r\n | DELETED\r\n => nothing
replies: delete k\r\n | NOT_FOUND\r\n => NOT_FOUND\r\n
# What `q` hides, and what it doesn't.
replies: mg a q\r\n | EN\r\n => nothing
replies: mg a q T5\r\n | EN\r\n => nothing
replies: mg a q\r\n | HD\r\n => HD\r\n
replies: mg a\r\n | EN\r\n => EN\r\n
replies: ms a 1 q\r\nx\r\n | HD\r\n => nothing
replies: ms a 1 q ME\r\nx\r\n | NS\r\n => NS\r\n
replies: ms a 1 q C1\r\nx\r\n | HD\r\n => nothing
replies: ms a 1 q C1\r\nx\r\n | EX\r\n => EX\r\n
replies: ms a 1 q C1\r\nx\r\n | NF\r\n => NF\r\n
replies: md a q\r\n | HD\r\n => nothing
replies: md a q\r\n | NF\r\n => nothing
replies: md a q C1\r\n | EX\r\n => EX\r\n
replies: md a\r\n | NF\r\n => NF\r\n
replies: ma a q\r\n | HD\r\n => nothing
replies: ma a q MD\r\n | NF\r\n => nothing
replies: ma a q\r\n | NS\r\n => NS\r\n
replies: ma a q C1\r\n | EX\r\n => EX\r\n
replies: ma a\r\n | HD\r\n => HD\r\n
replies: ma a q v\r\n | VA 1\r\n8\r\n => VA 1\r\n8\r\n
replies: md a q\r\n | ERROR\r\n => ERROR\r\n
replies: mg a q\r\n | call failed => SERVER_ERROR call failed\r\n
# Return tokens come in the order of the client's flags; `k` and `O` stand on each meta line.
replies: mg a s v f c k O7\r\n | VA 2 s2 f5 c1\r\nhi\r\n => VA 2 s2 f5 c1 ka O7\r\nhi\r\n
replies: mg b O7 s k v\r\n | EN\r\n => EN O7 kb\r\n
replies: md b k Ox\r\n | NF\r\n => NF kb Ox\r\n"
}

fn call_failed() -> Answer {
    Answer::ServerError(ErrorText::own(OwnText::CallFailed))
}

// The answer in front of these bytes.
fn next_answer(alloc: Global, ask: &Ask, bytes: &[u8]) -> Result<AnswerRead, AllocError> {
    let own = b"call failed".as_slice();
    if bytes.starts_with(own) {
        return Ok(AnswerRead::Answer(call_failed(), own.len()));
    }
    read_answer(alloc, ask, bytes)
}

fn rest_of(bytes: &[u8], used: usize) -> &[u8] {
    bytes.split_at(used.min(bytes.len())).1
}

// Writes the reply for the answer in front of these bytes, and returns what comes after it.
fn put_reply<'a>(
    alloc: Global,
    ask: &Ask,
    is_quiet: bool,
    bytes: &'a [u8],
    out: &mut BytesMut,
) -> Result<&'a [u8], AllocError> {
    match &next_answer(alloc, ask, bytes)? {
        AnswerRead::Answer(answer, used) => {
            let rest = rest_of(bytes, *used);
            write_part(is_quiet, rest.is_empty(), ask, answer, out)?;
            Ok(rest)
        }
        _ => Ok(bytes),
    }
}

pub fn replies_told(
    alloc: Global,
    ask: &Ask,
    is_quiet: bool,
    bytes: &[u8],
) -> Result<String, AllocError> {
    let mut out = BytesMut::new(alloc);
    let mut rest = bytes;
    for _ in 0..4 {
        rest = put_reply(alloc, ask, is_quiet, rest, &mut out)?;
    }
    spelled(alloc, out.as_slice())
}

// Writes the values of the answer in front of these bytes, and returns what comes after it.
fn put_values<'a>(
    alloc: Global,
    ask: &Ask,
    bytes: &'a [u8],
    out: &mut BytesMut,
) -> Result<&'a [u8], AllocError> {
    match &read_answer(alloc, ask, bytes)? {
        AnswerRead::Answer(answer, used) => {
            write_value(ask, answer, out)?;
            Ok(rest_of(bytes, *used))
        }
        _ => Ok(bytes),
    }
}

pub fn values_told(alloc: Global, ask: &Ask, bytes: &[u8]) -> Result<String, AllocError> {
    let mut out = BytesMut::new(alloc);
    let mut rest = bytes;
    for _ in 0..4 {
        rest = put_values(alloc, ask, rest, &mut out)?;
    }
    write_end(&mut out)?;
    spelled(alloc, out.as_slice())
}

#[test]
fn shown_of_answers(rt: HostRuntime) -> Result<(), Fail> {
    all_told::<OfAsks>(rt.alloc(), table())
}

fn hit(alloc: Global) -> Result<Answer, AllocError> {
    Ok(Answer::Hit {
        flags: 5,
        body: Body::from_slice(alloc, b"xyz")?,
        cas: None,
    })
}

#[test]
fn an_error_ends_a_message(rt: HostRuntime) -> Result<(), Fail> {
    let hit = hit(rt.alloc())?;
    assert!(rt; !ends_message(false, &hit) && !ends_message(false, &Answer::Miss));
    assert!(rt; ends_message(true, &hit) && ends_message(false, &call_failed()));
    Ok(())
}

#[test]
fn answers_of_its_own(rt: HostRuntime) -> Result<(), Fail> {
    let mut out = BytesMut::new(rt.alloc());
    write_own(ProxyCommand::Version, DEFAULT_VERSION, &mut out)?;
    write_own(ProxyCommand::Quit, DEFAULT_VERSION, &mut out)?;
    write_own(ProxyCommand::Noop, DEFAULT_VERSION, &mut out)?;
    same_bytes(
        "version, quit and mn",
        out.as_slice(),
        b"VERSION mcgate-1\r\nMN\r\n",
    )
}
