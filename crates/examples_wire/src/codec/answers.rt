//! Answers of both dialects.

use crate::codec::OfAsks;
use crate::escapes::spelled;
use bytes::BytesMut;
use examples_tables::playing::yes_or_no;
use examples_tables::tellers::all_told;
use mc_types::{Answer, Ask};
use std::alloc::{AllocError, Global};
use std::test::Fail;
use wire_answers::{AnswerRead, read_answer, write_answer};

// The lines of protocol.txt. `cut` at any place an answer wants more, and what comes after it isn't read.
fn classic() -> &'static str {
    r"cut: set k 0 0 1\r\nx\r\n | STORED\r\n => STORED\r\n
cut: append k 0 0 1\r\nx\r\n | NOT_STORED\r\n => NOT_STORED\r\n
cut: cas k 0 0 1 9\r\nx\r\n | STORED\r\n => STORED\r\n
cut: cas k 0 0 1 9\r\nx\r\n | EXISTS\r\n => EXISTS\r\n
cut: cas k 0 0 1 9\r\nx\r\n | NOT_FOUND\r\n => NOT_FOUND\r\n
cut: get k\r\n | END\r\n => END\r\n
cut: get k\r\n | VALUE k 5 3\r\na\r\n\r\nEND\r\n => VALUE k 5 3\r\na\r\n\r\nEND\r\n
cut: gats 60 k\r\n | VALUE k 0 0 7\r\n\r\nEND\r\n => VALUE k 0 0 7\r\n\r\nEND\r\n
cut: delete k\r\n | DELETED\r\n => DELETED\r\n
cut: delete k\r\n | NOT_FOUND\r\n => NOT_FOUND\r\n
cut: touch k 60\r\n | TOUCHED\r\n => TOUCHED\r\n
cut: touch k 60\r\n | NOT_FOUND\r\n => NOT_FOUND\r\n
cut: incr k 1\r\n | 18446744073709551615\r\n => 18446744073709551615\r\n
cut: decr k 1\r\n | NOT_FOUND\r\n => NOT_FOUND\r\n
cut: get k\r\n | ERROR\r\n => ERROR\r\n
cut: set k 0 0 1\r\nx\r\n | CLIENT_ERROR bad  data \r\n => CLIENT_ERROR bad  data \r\n
cut: incr k 1\r\n | SERVER_ERROR\r\n => SERVER_ERROR\r\n
# Other spellings.
read: set k 0 0 1\r\nx\r\n |   STORED  \n => STORED\r\n
read: incr k 1\r\n | 00042 \r\n => 42\r\n
read: get k\r\n |  VALUE  k 007  01 \nx\r\n END \n => VALUE k 7 1\r\nx\r\nEND\r\n
read: get k\r\n | VALUE k 0 1 99\r\nx\r\nEND\r\n => VALUE k 0 1\r\nx\r\nEND\r\n
read: set k 0 0 1\r\nx\r\n | SERVER_ERROR \n => SERVER_ERROR\r\n
read: set k 0 0 1\r\nx\r\n |  SERVER_ERROR  a\r\n => SERVER_ERROR  a\r\n
# No answers to such an ask.
read: get k\r\n | STORED\r\n => foreign
read: set k 0 0 1\r\nx\r\n | stored\r\n => foreign
read: set k 0 0 1\r\nx\r\n | STORED x\r\n => foreign
read: set k 0 0 1\r\nx\r\n | \r\n => foreign
read: set k 0 0 1\r\nx\r\n | VALUE k 0 1\r\n => foreign
read: get k\r\n | VALUE j 0 1\r\n => foreign
read: get k\r\n | VALUE k 0\r\n => foreign
read: get k\r\n | VALUE k 0 1 x\r\n => foreign
read: get k\r\n | VALUE k 0 1 2 3\r\n => foreign
read: gets k\r\n | VALUE k 0 1\r\n => foreign
read: get k\r\n | VALUE k 4294967296 1\r\n => foreign
read: get k\r\n | VALUE k 0 1048577\r\n => foreign
read: get k\r\n | VALUE k 0 1\r\nab => foreign
read: get k\r\n | VALUE k 0 1\r\na\r\nVALUE k 0 1\r\n => foreign
read: incr k 1\r\n | 18446744073709551616\r\n => foreign
read: incr k 1\r\n | -1\r\n => foreign
read: set k 0 0 1\r\nx\r\n | ERROR now\r\n => foreign
read: set k 0 0 1\r\nx\r\n | SERVER_ERROR a\x7fb\r\n => foreign
read: set k 0 0 1\r\nx\r\n | SERVER_ERROR a\r\r\n => foreign
# Limits.
read: get k\r\n | VALUE k 0 1048576\r\n => more
read: get k\r\n | «65535  » => more
read: get k\r\n | «65536  » => foreign
is foreign: get k\r\n | CLIENT_ERROR «1024 \xff»\r\n => no
is foreign: get k\r\n | CLIENT_ERROR «1025 \xff»\r\n => yes"
}

fn meta() -> &'static str {
    r"# A number of 0 is none where nothing was stored.
counted: ms a 1 c ME\r\nx\r\n | NS\r\n => NS\r\n, cas None, 4 used
counted: ms a 1 c ME\r\nx\r\n | NS c0\r\n => NS\r\n, cas None, 7 used
counted: ms a 1 c ME\r\nx\r\n | HD c4\r\n => HD c4\r\n, cas Some(4), 7 used
counted: ms a 1 c ME\r\nx\r\n | HD\r\n => foreign
# Tokens are read in any order and written in the ask's.
cut: ms a 1 c k O7\r\nx\r\n | HD c4 ka O7\r\n => HD c4 ka O7\r\n
cut: ms a 1 c k O7\r\nx\r\n | HD c4 O7 ka\r\n => HD c4 ka O7\r\n
cut: ms a 1 c k O7\r\nx\r\n | HD ka c4 O7\r\n => HD c4 ka O7\r\n
cut: ms a 1 c k O7\r\nx\r\n | HD ka O7 c4\r\n => HD c4 ka O7\r\n
cut: ms a 1 c k O7\r\nx\r\n | HD O7 c4 ka\r\n => HD c4 ka O7\r\n
cut: ms a 1 c k O7\r\nx\r\n | HD O7 ka c4\r\n => HD c4 ka O7\r\n
cut: ms a 1 c k O7\r\nx\r\n |   HD  c04\r\n => HD c4 ka O7\r\n
# A get with every return flag.
cut: mg a s v f t c k O7\r\n | VA 2 s2 f5 t-1 c1 ka O7\r\nhi\r\n => VA 2 s2 f5 t-1 c1 ka O7\r\nhi\r\n
read: mg a s v f t c k O7\r\n | VA 02 O7 ka c1 t-1 f5 s2 \nhi\r\nEN\r\n => VA 2 s2 f5 t-1 c1 ka O7\r\nhi\r\n
read: mg a s v f t c k O7\r\n | EN ka\r\n => EN ka O7\r\n
# No answers to such an ask.
read: mg a v\r\n | HD\r\n => foreign
read: mg a\r\n | VA 1\r\n => foreign
read: mg a v\r\n | NF\r\n => foreign
read: mg a k\r\n | HD kb\r\n => foreign
read: mg a k\r\n | HD ka ka\r\n => foreign
read: mg a O7\r\n | HD O8\r\n => foreign
read: mg a t\r\n | HD t-2\r\n => foreign
read: mg a s v\r\n | VA 1 s2\r\n => foreign
read: mg a f\r\n | HD f1 c1\r\n => foreign
read: mg a f\r\n | HD f1 f1\r\n => foreign
read: mg a v\r\n | VA 1048577\r\n => foreign
read: mg a v\r\n | VA 1\r\nab => foreign
read: ms a 1\r\nx\r\n | EN\r\n => foreign
read: md a\r\n | NS\r\n => foreign
read: ma a v\r\n | VA 1\r\nx\r\n => foreign
read: ma a\r\n | EN\r\n => foreign
read: ms a 1\r\nx\r\n | STORED\r\n => foreign
# Lines without tokens.
read: mg a\r\n | HD\r\n => HD\r\n
read: mg a T60\r\n | EN\r\n => EN\r\n
read: ms a 1\r\nx\r\n | HD\r\n => HD\r\n
read: ms a 1 MR\r\nx\r\n | NS\r\n => NS\r\n
read: ms a 1 C9\r\nx\r\n | EX\r\n => EX\r\n
read: ms a 1 C9\r\nx\r\n | NF\r\n => NF\r\n
read: md a\r\n | HD\r\n => HD\r\n
read: md a\r\n | NF\r\n => NF\r\n
read: md a\r\n | EX\r\n => EX\r\n
read: ma a\r\n | HD\r\n => HD\r\n
read: ma a MD\r\n | NF\r\n => NF\r\n
read: ma a\r\n | NS\r\n => NS\r\n
read: ma a MD\r\n | EX\r\n => EX\r\n
read: mg a\r\n | CLIENT_ERROR bad\r\n => CLIENT_ERROR bad\r\n"
}

/// Writes what was read: an answer, or a word.
pub fn put_read(ask: &Ask, read: &AnswerRead, out: &mut BytesMut) -> Result<(), AllocError> {
    match read {
        AnswerRead::More => out.extend_from_slice(b"more"),
        AnswerRead::Foreign => out.extend_from_slice(b"foreign"),
        AnswerRead::Answer(answer, _) => write_answer(ask, answer, out),
    }
}

/// What was read, as a table tells it.
pub fn told_of_read(alloc: Global, ask: &Ask, read: &AnswerRead) -> Result<String, AllocError> {
    let mut out = BytesMut::new(alloc);
    put_read(ask, read, &mut out)?;
    spelled(alloc, out.as_slice())
}

pub fn read_told(alloc: Global, ask: &Ask, bytes: &[u8]) -> Result<String, AllocError> {
    let read = read_answer(alloc, ask, bytes)?;
    told_of_read(alloc, ask, &read)
}

fn wants_more(alloc: Global, ask: &Ask, bytes: &[u8]) -> Result<bool, AllocError> {
    let read = read_answer(alloc, ask, bytes)?;
    Ok(matches!(&read, AnswerRead::More))
}

fn always_wants_more(alloc: Global, ask: &Ask, bytes: &[u8]) -> Result<bool, AllocError> {
    for end in 0..bytes.len() {
        if !wants_more(alloc, ask, &bytes[..end])? {
            return Ok(false);
        }
    }
    Ok(true)
}

/// How many bytes an answer took.
pub fn used_by(read: &AnswerRead) -> usize {
    match read {
        AnswerRead::Answer(_, used) => *used,
        _ => 0,
    }
}

// How many bytes the answer takes where more comes after it.
fn used_of_more(alloc: Global, ask: &Ask, bytes: &[u8]) -> Result<usize, AllocError> {
    let mut more = Vec::from_slice(alloc, bytes)?;
    more.extend_from_slice(b"END\r\n")?;
    let read = read_answer(alloc, ask, more.as_slice())?;
    Ok(used_by(&read))
}

pub fn cut_told(alloc: Global, ask: &Ask, bytes: &[u8]) -> Result<String, AllocError> {
    if !always_wants_more(alloc, ask, bytes)? {
        return "read early".to_string(alloc);
    }
    if used_of_more(alloc, ask, bytes)? != bytes.len() {
        return "another end".to_string(alloc);
    }
    read_told(alloc, ask, bytes)
}

fn push_count(out: &mut String, read: &AnswerRead) -> Result<(), AllocError> {
    match read {
        AnswerRead::Answer(Answer::Meta(_, fields), used) => {
            write!(out, ", cas {:?}", fields.cas)?;
            write!(out, ", {used} used")
        }
        _ => Ok(()),
    }
}

pub fn counted_told(alloc: Global, ask: &Ask, bytes: &[u8]) -> Result<String, AllocError> {
    let read = read_answer(alloc, ask, bytes)?;
    let mut out = told_of_read(alloc, ask, &read)?;
    push_count(&mut out, &read)?;
    Ok(out)
}

pub fn is_foreign_told(alloc: Global, ask: &Ask, bytes: &[u8]) -> Result<String, AllocError> {
    let read = read_answer(alloc, ask, bytes)?;
    yes_or_no(matches!(&read, AnswerRead::Foreign)).to_string(alloc)
}

#[test]
fn classic_answers(rt: HostRuntime) -> Result<(), Fail> {
    all_told::<OfAsks>(rt.alloc(), classic())
}

#[test]
fn meta_answers(rt: HostRuntime) -> Result<(), Fail> {
    all_told::<OfAsks>(rt.alloc(), meta())
}
