//! Answers with large data, which share the buffer that they came in.

use crate::codec::answers::{put_read, used_by};
use crate::codec::ask_of;
use bytes::{Bytes, BytesMut};
use mc_types::{Answer, Ask, Body, Code, Fields, SpareBodies};
use std::alloc::{AllocError, Global};
use std::test::Fail;
use wire_answers::{AnswerRead, CUT_FROM, Received, SHARED_FROM, large_len, read_received};
use wire_parts::to_send::SendBuffer;
use wire_stream::{send_part, write_part};

// An answer of this head and this end, with 100,000 bytes of data, in a buffer that may be shared.
fn answer_text(alloc: Global, head: &[u8], end: &[u8]) -> Result<Bytes, AllocError> {
    let mut out = BytesMut::new(alloc);
    out.extend_from_slice(head)?;
    out.extend_from_slice(b"<")?;
    out.resize(head.len().saturating_add(99_999), b'x')?;
    out.extend_from_slice(b">")?;
    out.extend_from_slice(end)?;
    out.freeze_to(out.len())
}

// What was read, as it is written, and how many bytes spell it.
fn written(alloc: Global, ask: &Ask, received: &Received) -> Result<(BytesMut, usize), AllocError> {
    let mut out = BytesMut::new(alloc);
    let read = read_received(alloc, &mut SpareBodies::new(alloc), ask, received)?;
    put_read(ask, &read, &mut out)?;
    Ok((out, used_by(&read)))
}

// Whether the bytes are read as the answer that they spell, or as what else is named, whether the data are copied or shared.
fn is_read(alloc: Global, ask: &Ask, bytes: &Bytes, want: &[u8]) -> Result<bool, AllocError> {
    let (copied, used) = written(alloc, ask, &Received::copied(bytes.as_slice()))?;
    let (shared, used_too) = written(alloc, ask, &Received::shared(bytes))?;
    Ok(copied.as_slice() == want && shared.as_slice() == want && used == used_too)
}

// Whether an answer of this head and this end is read alike, wants more where it is cut in its head, and is as long as its head tells.
fn is_alike(alloc: Global, ask: &Ask, head: &[u8], end: &[u8]) -> Result<bool, AllocError> {
    let bytes = answer_text(alloc, head, end)?;
    for len in 0..head.len() {
        let cut = bytes.slice(0..len.min(bytes.len()))?;
        if large_len(SHARED_FROM, cut.as_slice()).is_some()
            || !is_read(alloc, ask, &cut, b"more")?
        {
            return Ok(false);
        }
    }
    Ok(
        large_len(SHARED_FROM, head) == Some(bytes.len())
            && is_read(alloc, ask, &bytes, bytes.as_slice())?,
    )
}

#[test]
fn large_data_are_shared_and_read_alike(rt: HostRuntime) -> Result<(), Fail> {
    let alloc = rt.alloc();
    let get = ask_of(alloc, b"get k\r\n")?;
    assert!(rt; is_alike(alloc, &get, b"VALUE k 5 100000\r\n", b"\r\nEND\r\n")?);
    let meta_get = ask_of(alloc, b"mg a v\r\n")?;
    assert!(rt; is_alike(alloc, &meta_get, b"VA 100000\r\n", b"\r\n")?);
    Ok(())
}

// That this line begins an answer of so many bytes, if it begins a large one.
fn same_len(from: usize, line: &[u8], wanted: Option<usize>) -> Result<(), Fail> {
    if large_len(from, line) == wanted {
        return Ok(());
    }
    Err(Fail::new(format_args!("another length: {}", line.escape_ascii())))
}

#[test]
fn small_answers_have_no_large_len(rt: HostRuntime) -> Result<(), Fail> {
    for line in [
        b"VALUE k 5 65535\r\n".as_slice(),
        b"VALUE k 5 1048577\r\n".as_slice(),
        b"VA 65535\r\n".as_slice(),
        b"HD\r\n".as_slice(),
        b"STORED\r\n".as_slice(),
    ] {
        same_len(SHARED_FROM, line, None)?;
    }
    same_len(SHARED_FROM, b"VALUE k 5 65536\r\n", Some(65_560))?;
    same_len(SHARED_FROM, b"VA 1048576 f5\r\n", Some(1_048_593))?;
    same_len(CUT_FROM, b"VA 2047 f5\r\n", None)?;
    same_len(CUT_FROM, b"VA 2048 f5\r\n", Some(2_062))
}

// So many bytes of this kind in a buffer that may be shared.
fn shared_bytes(alloc: Global, len: usize, byte: u8) -> Result<Bytes, AllocError> {
    let mut out = BytesMut::new(alloc);
    out.resize(len, byte)?;
    out.freeze_to(out.len())
}

// The data of an answer that came so, which share its buffer where they are long.
fn data_of(alloc: Global, spares: &mut SpareBodies, bytes: &Bytes) -> Result<Body, AllocError> {
    Received::shared(bytes).data(alloc, spares, bytes.len())
}

// Whether data of so many bytes stay as they are while others are read in the memory of earlier ones.
fn do_last(alloc: Global, spares: &mut SpareBodies, len: usize) -> Result<bool, AllocError> {
    let kept = shared_bytes(alloc, len, b'k')?;
    let kept_data = data_of(alloc, spares, &kept)?;
    for byte in [b'a', b'b', b'c'] {
        let bytes = shared_bytes(alloc, len, byte)?;
        let data = data_of(alloc, spares, &bytes)?;
        spares.let_go();
        if data.as_slice() != bytes.as_slice() || kept_data.as_slice() != kept.as_slice() {
            return Ok(false);
        }
    }
    Ok(true)
}

#[test]
fn data_last_while_the_memory_of_others_is_used_again(rt: HostRuntime) -> Result<(), Fail> {
    let alloc = rt.alloc();
    let mut spares = SpareBodies::new(alloc);
    for len in [0, 1, 2_047, 2_048, 5_000, 65_535, 65_536] {
        assert!(rt; do_last(alloc, &mut spares, len)?);
    }
    Ok(())
}

// Whether what is to be sent of a reply is what is written of it, with its data in a piece of their own.
fn is_sent_alike(alloc: Global, ask: &Ask, reply: &Answer, last: bool) -> Result<bool, AllocError> {
    let mut written = BytesMut::new(alloc);
    write_part(false, last, ask, reply, &mut written)?;
    let mut sent = SendBuffer::new(alloc);
    send_part(false, last, ask, reply, &mut sent)?;
    Ok(!sent.pieces.is_empty() && sent.to_vec(alloc)?.as_slice() == written.as_slice())
}

fn large_body(alloc: Global) -> Result<Body, AllocError> {
    Body::from_slice(alloc, answer_text(alloc, b"", b"")?.as_slice())
}

fn hit_of(body: Body) -> Answer {
    Answer::Hit {
        flags: 5,
        body,
        cas: None,
    }
}

fn value_of(body: Body) -> Answer {
    let mut fields = Fields::none();
    fields.body = Some(body);
    Answer::Meta(Code::Va, fields)
}

// The same of the first ask of a request.
fn is_reply_sent_alike(
    alloc: Global,
    request: &[u8],
    reply: &Answer,
    last: bool,
) -> Result<bool, Fail> {
    Ok(is_sent_alike(alloc, &ask_of(alloc, request)?, reply, last)?)
}

fn is_hit_sent_alike(alloc: Global, last: bool) -> Result<bool, Fail> {
    is_reply_sent_alike(alloc, b"get k\r\n", &hit_of(large_body(alloc)?), last)
}

fn is_value_sent_alike(alloc: Global) -> Result<bool, Fail> {
    is_reply_sent_alike(alloc, b"mg a v\r\n", &value_of(large_body(alloc)?), true)
}

#[test]
fn large_data_are_sent_as_they_are_written(rt: HostRuntime) -> Result<(), Fail> {
    let alloc = rt.alloc();
    assert!(rt; is_hit_sent_alike(alloc, true)?);
    assert!(rt; is_hit_sent_alike(alloc, false)?);
    assert!(rt; is_value_sent_alike(alloc)?);
    Ok(())
}
