//! Streams of messages, in any pieces.

use crate::escapes::{bytes_of, spelled};
use bytes::BytesMut;
use examples_tables::tables::same_bytes;
use examples_tables::tellers::{Teller, all_told, push_word};
use std::alloc::{AllocError, Global};
use std::test::Fail;
use wire_stream::{Read, RefusalReason, Request, TextStream, write_long_line, write_refusal};

// What a client sends, and what is read of it, in whatever pieces it comes: a classic or a meta request with its number of bytes, or what a
// refused message is answered.
fn table() -> &'static str {
    r"get a\r\n => c7
get a bc  d \n => c13
gets a b\r\n => c10
gat 0 a b\r\n => c11
gats -1 a\r\n => c11
set a 1 2 3\r\n\r\n\n\r\n => c18
set a 0 0 0 noreply\r\n\r\n => c23
add a 0 0 1\nx\r\n => c15
replace a 0 0 2\r\n\r\n\r\n => c21
append a 0 0 1\r\nx\r\n => c19
prepend a 0 0 1\r\nx\r\n => c20
cas a 0 0 1 9\r\nx\r\n => c18
delete a\r\n => c10
delete a 0 noreply\r\n => c20
touch a 1\r\n => c11
incr a 1\r\n => c10
decr a 1 noreply\r\n => c18
version\r\n => c9
quit\r\n => c6
mg a\r\n => m6
mg a c f k q s t v Oxy T30\r\n => m28
ms a 3 c k q C1 F2 Oz T-1 MS\r\n\r\n\n\r\n => m35
ms a 0\r\n\r\n => m10
md a q k C9 Ox\n => m15
ma a v D5 M-\r\n => m14
mn\r\n => m4
set a 5 0 3\r\nxyz\r\n => c18
set a 0 0 1\r\nxyz\r\nget a\r\n => CLIENT_ERROR bad data chunk\r\n c7
md a I\r\n => CLIENT_ERROR flag not served\r\n
# The data of a store that is too large are passed over, however long they are said to be, and the stream stays open.
set a 0 0 4294967295\r\n«100 x»\r\nget a\r\n => SERVER_ERROR object too large for cache\r\n
# A length that is no number says nothing of what follows: the next line is a message.
set a 0 0 4294967296\r\nmn\r\n => CLIENT_ERROR bad number\r\n m4
# Long keys.
get «250 \x80»\r\n => c256
get «100 \x80»\x7f«149 \x80»\r\n => CLIENT_ERROR bad key\r\n
# Nothing is read behind a line of HTTP, or of the binary protocol; but a block may hold what it likes.
POST / HTTP/1.1\r\nHost: a\r\n\r\nset a 0 0 1\r\n1\r\n => closed and more
get a\r\nno HTTP/1.0\nget a\r\n => c7 closed and more
mn\r\n\x80\n\x00\x01a\x00\x00\r\nget a\r\n => m4 closed and more
set a 0 0 11\r\nGET HTTP/1.1\r\nget / HTTP/1.1\r\n => CLIENT_ERROR bad data chunk\r\n c16
set a 0 0 12\r\nGET HTTP/1.1\r\nset a 0 0 1\r\n\x80\r\n => c28 c16
# Both dialects, with refusals and data blocks between.
get a b\r\nmg a v q\r\nms a 3 T0\r\nx\r\n\r\nmg a z\r\nset b 0 0 1 noreply\r\ny\r\nmn\r\nms a 1\r\nxyz\r\nversion\r\nmd b q\r\nquit\r\n => c9 m10 m16 CLIENT_ERROR flag not served\r\n c24 m4 CLIENT_ERROR bad data chunk\r\n c9 m8 c6"
}

fn push_request(out: &mut String, request: &Request) -> Result<(), AllocError> {
    push_word(
        out,
        match request {
            Request::Classic(_) => "c",
            Request::Meta(_) => "m",
        },
    )?;
    write!(out, "{}", request.used())
}

fn push_refusal(alloc: Global, out: &mut String, why: RefusalReason) -> Result<(), AllocError> {
    let mut line = BytesMut::new(alloc);
    write_refusal(why, &mut line)?;
    push_word(out, spelled(alloc, line.as_slice())?.as_str())
}

// Tells of the message in front, which is then done, and returns whether there is one.
fn take_one(alloc: Global, stream: &mut TextStream, out: &mut String) -> Result<bool, AllocError> {
    match stream.read() {
        Read::Request(request) if request.used() <= stream.held().len() => {
            stream.pass_request(request.used());
            push_request(out, &request)?;
            Ok(true)
        }
        Read::Refused { why, used, skip } if used <= stream.held().len() => {
            stream.pass_refused(used, skip);
            push_refusal(alloc, out, why)?;
            Ok(true)
        }
        Read::OtherProtocol => {
            stream.close();
            push_word(out, "closed")?;
            Ok(true)
        }
        _ => Ok(false),
    }
}

// Gives the stream more bytes, and tells of the messages that are whole then.
fn give(
    alloc: Global,
    stream: &mut TextStream,
    bytes: &[u8],
    out: &mut String,
) -> Result<(), AllocError> {
    stream.feed(bytes)?;
    for _ in 0..stream.held().len() {
        if !take_one(alloc, stream, out)? {
            return Ok(());
        }
    }
    Ok(())
}

fn waits(stream: &TextStream) -> bool {
    matches!(stream.read(), Read::More)
}

// Tells of a stream that isn't as a new one.
fn push_end(stream: &TextStream, out: &mut String) -> Result<(), AllocError> {
    if waits(stream) && stream.held().is_empty() && !stream.is_closed() {
        return Ok(());
    }
    out.push_str(" and more")
}

fn told_of_two(alloc: Global, first: &[u8], rest: &[u8]) -> Result<String, AllocError> {
    let mut stream = TextStream::new(alloc);
    let mut out = String::new(alloc);
    give(alloc, &mut stream, first, &mut out)?;
    give(alloc, &mut stream, rest, &mut out)?;
    push_end(&stream, &mut out)?;
    Ok(out)
}

fn told_of_each(alloc: Global, bytes: &[u8]) -> Result<String, AllocError> {
    let mut stream = TextStream::new(alloc);
    let mut out = String::new(alloc);
    for at in 0..bytes.len() {
        give(alloc, &mut stream, &bytes[at..at + 1], &mut out)?;
    }
    push_end(&stream, &mut out)?;
    Ok(out)
}

// Whether this is told of the bytes in each cut in two.
fn cuts_agree(alloc: Global, bytes: &[u8], told: &str) -> Result<bool, AllocError> {
    for at in 0..bytes.len() {
        if told_of_two(alloc, &bytes[..at], &bytes[at..])?.as_str() != told {
            return Ok(false);
        }
    }
    Ok(true)
}

fn told_of_all(alloc: Global, bytes: &[u8]) -> Result<String, AllocError> {
    let mut told = told_of_each(alloc, bytes)?;
    if !cuts_agree(alloc, bytes, told.as_str())? {
        told.push_str(" unless it is cut")?;
    }
    Ok(told)
}

struct OfStreams;

impl Teller for OfStreams {
    fn told(alloc: Global, example: &str) -> Result<String, AllocError> {
        let bytes = bytes_of(alloc, example)?;
        told_of_all(alloc, bytes.as_slice())
    }
}

#[test]
fn messages(rt: HostRuntime) -> Result<(), Fail> {
    all_told::<OfStreams>(rt.alloc(), table())
}

// A get of one key: so many bytes of value 128, this byte, and so many again.
fn get_of(alloc: Global, before: usize, byte: u8, after: usize) -> Result<BytesMut, AllocError> {
    let mut out = BytesMut::new(alloc);
    out.extend_from_slice(b"get ")?;
    for _ in 0..before {
        out.extend_from_slice(&[128])?;
    }
    out.extend_from_slice(&[byte])?;
    for _ in 0..after {
        out.extend_from_slice(&[128])?;
    }
    out.extend_from_slice(b"\r\n")?;
    Ok(out)
}

// Whether such a get is one request, or else refused for its key, as is wanted.
fn is_read_so(
    alloc: Global,
    before: usize,
    byte: u8,
    after: usize,
    is_key: bool,
) -> Result<bool, AllocError> {
    let bytes = get_of(alloc, before, byte, after)?;
    let told = told_of_two(alloc, bytes.as_slice(), b"")?;
    if is_key {
        let mut want = String::new(alloc);
        write!(want, "c{}", bytes.len())?;
        Ok(told.as_str() == want.as_str())
    } else {
        Ok(told.as_str() == r"CLIENT_ERROR bad key\r\n")
    }
}

// A long key, and each place in it where another byte may stand: the bytes of a key are tested in groups.
#[test]
fn bytes_of_a_key(rt: HostRuntime) -> Result<(), Fail> {
    for length in 0..251 {
        assert!(rt; is_read_so(rt.alloc(), length, b'~', 0, length < 250)?);
    }
    for before in 0..40 {
        for byte in [0, 9, 31, 127] {
            assert!(rt; is_read_so(rt.alloc(), before, byte, 20, false)?);
        }
        for byte in [33, 126, 128, 255] {
            assert!(rt; is_read_so(rt.alloc(), before, byte, 20, true)?);
        }
    }
    Ok(())
}

// A stream that was given so many bytes without a line's end.
fn unended(alloc: Global, len: usize) -> Result<TextStream, AllocError> {
    let mut stream = TextStream::new(alloc);
    stream.feed(vec![in alloc; b'a'; len]?.as_slice())?;
    Ok(stream)
}

#[test]
fn a_line_too_long(rt: HostRuntime) -> Result<(), Fail> {
    assert!(rt; waits(&unended(rt.alloc(), 65_535)?));
    let mut stream = unended(rt.alloc(), 65_536)?;
    assert!(rt; matches!(stream.read(), Read::TooLong));
    stream.close();
    stream.feed(b"\r\nget a\r\n")?;
    assert!(rt; waits(&stream) && stream.held().is_empty() && stream.is_closed());
    Ok(())
}

#[test]
fn the_answer_to_a_line_too_long(rt: HostRuntime) -> Result<(), Fail> {
    let mut out = BytesMut::new(rt.alloc());
    write_long_line(&mut out)?;
    same_bytes(
        "a long line",
        out.as_slice(),
        b"CLIENT_ERROR line too long\r\n",
    )
}
