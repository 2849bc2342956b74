//! Answers with small data, which are copied into the memory of earlier ones that nobody holds any more.

use crate::codec::ask_of;
use bytes::BytesMut;
use mc_types::{Answer, Ask, Body, Dialect, SpareBodies};
use std::alloc::{AllocError, Global};
use std::test::Fail;
use wire_answers::{AnswerRead, Received, read_received};

// Data that were read, and what they are: so many times this byte.
#[derive(Drop)]
struct ReadData {
    body: Body,
    len: usize,
    fill: u8,
}

// Numbers of bytes, and how an answer with so many of them begins, of a classic get and of a meta one. No body with more than 8,192 is
// used again.
fn answer_heads() -> [(usize, &'static [u8], &'static [u8]); 5] {
    [
        (0, b"VALUE k 0 0\r\n".as_slice(), b"VA 0\r\n".as_slice()),
        (1, b"VALUE k 0 1\r\n".as_slice(), b"VA 1\r\n".as_slice()),
        (32, b"VALUE k 0 32\r\n".as_slice(), b"VA 32\r\n".as_slice()),
        (
            8_192,
            b"VALUE k 0 8192\r\n".as_slice(),
            b"VA 8192\r\n".as_slice(),
        ),
        (
            8_193,
            b"VALUE k 0 8193\r\n".as_slice(),
            b"VA 8193\r\n".as_slice(),
        ),
    ]
}

// An answer that begins so, with so many times this byte, and the end of both dialects.
fn answer_text(alloc: Global, head: &[u8], len: usize, fill: u8) -> Result<BytesMut, AllocError> {
    let mut out = BytesMut::new(alloc);
    out.extend_from_slice(head)?;
    out.resize(head.len().saturating_add(len), fill)?;
    out.extend_from_slice(b"\r\nEND\r\n")?;
    Ok(out)
}

fn body_of(read: &AnswerRead) -> Result<Body, AllocError> {
    match read {
        AnswerRead::Answer(Answer::Hit { body, .. }, _) => body.copy(),
        AnswerRead::Answer(Answer::Meta(_, fields), _) => match &fields.body {
            Some(body) => body.copy(),
            None => Ok(Body::empty()),
        },
        _ => Ok(Body::empty()),
    }
}

fn read_data(
    alloc: Global,
    spares: &mut SpareBodies,
    ask: &Ask,
    text: &[u8],
) -> Result<Body, AllocError> {
    let read = read_received(alloc, spares, ask, &Received::copied(text))?;
    body_of(&read)
}

// Whether the body is what was read.
fn is_kept(data: &ReadData) -> bool {
    for byte in data.body.as_slice() {
        if *byte != data.fill {
            return false;
        }
    }
    data.body.len() == data.len
}

fn are_kept(held: &Vec<ReadData>) -> bool {
    for data in held {
        if !is_kept(data) {
            return false;
        }
    }
    true
}

// Reads an answer that begins so.
fn read_one(
    alloc: Global,
    spares: &mut SpareBodies,
    ask: &Ask,
    head: &[u8],
    len: usize,
    fill: u8,
) -> Result<ReadData, AllocError> {
    let text = answer_text(alloc, head, len, fill)?;
    let body = read_data(alloc, spares, ask, text.as_slice())?;
    Ok(ReadData { body, len, fill })
}

// An answer of each length is read with this byte, and what is held is looked at after each; no more than so many are held on.
fn are_kept_as_read(
    alloc: Global,
    spares: &mut SpareBodies,
    ask: &Ask,
    fill: u8,
    most: usize,
    held: &mut Vec<ReadData>,
) -> Result<bool, AllocError> {
    for (len, classic, meta) in answer_heads() {
        let head = match ask.dialect {
            Dialect::Classic => classic,
            Dialect::Meta => meta,
        };
        held.push(read_one(alloc, spares, ask, head, len, fill)?)?;
        if !are_kept(held) {
            return Ok(false);
        }
        held.truncate(most);
    }
    Ok(true)
}

// An answer of each length is read with each of several bytes, by one store of spare bodies; no more than so many are held on.
fn stay(alloc: Global, ask: &Ask, most: usize) -> Result<bool, AllocError> {
    let mut spares = SpareBodies::new(alloc);
    let mut held = Vec::new(alloc);
    for fill in *b"abcd" {
        if !are_kept_as_read(alloc, &mut spares, ask, fill, most, &mut held)? {
            return Ok(false);
        }
    }
    Ok(true)
}

// Each is let go before the next is read, two are held on, or all are.
#[test]
fn bodies_keep_their_own_bytes(rt: HostRuntime) -> Result<(), Fail> {
    let alloc = rt.alloc();
    let get = ask_of(alloc, b"get k\r\n")?;
    let meta_get = ask_of(alloc, b"mg a v\r\n")?;
    for most in [0, 2, 20] {
        assert!(rt; stay(alloc, &get, most)?);
        assert!(rt; stay(alloc, &meta_get, most)?);
    }
    Ok(())
}
