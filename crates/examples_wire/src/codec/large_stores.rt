//! Stores with large data, which share the buffer that they came in.

ghost use Rattle.mc_types.specs.Asks.{IsAsk};

use bytes::BytesMut;
use mc_types::Ask;
use std::alloc::{AllocError, Global};
use std::test::Fail;
use wire_stream::{Read, Received, TextStream, read_request, write_ask};

// A request of this line, with 100,000 bytes of data.
fn request_text(alloc: Global, line: &[u8]) -> Result<BytesMut, AllocError> {
    let mut out = BytesMut::new(alloc);
    out.extend_from_slice(line)?;
    out.extend_from_slice(b"<")?;
    out.resize(line.len().saturating_add(99_999), b'x')?;
    out.extend_from_slice(b">\r\n")?;
    Ok(out)
}

// An ask as it is written to a server.
fn written(alloc: Global, ask: Ask) -> Result<BytesMut, AllocError>
    requires { IsAsk ask }
{
    let mut out = BytesMut::new(alloc);
    write_ask(&ask, &mut out)?;
    Ok(out)
}

// The first ask of the request that these bytes begin with, as it is written to a server.
fn asked(alloc: Global, received: &Received) -> Result<BytesMut, AllocError> {
    match read_request(received.bytes()) {
        Read::Request(request) => match request.walk().next(alloc, received)? {
            Some(ask) => written(alloc, ask),
            None => Ok(BytesMut::new(alloc)),
        },
        _ => Ok(BytesMut::new(alloc)),
    }
}

// How many bytes the request at the front takes, which is then done; 0 where there is none.
fn take_request(stream: &mut TextStream) -> usize {
    match stream.read() {
        Read::Request(request) if request.used() <= stream.held().len() => {
            stream.pass_request(request.used());
            request.used()
        }
        _ => 0,
    }
}

// A stream in which this store stands in front, whose data are shared, and a `get` after it.
fn shared(alloc: Global, text: &[u8]) -> Result<TextStream, AllocError> {
    let mut stream = TextStream::new(alloc);
    stream.feed(text)?;
    stream.feed(b"get k\r\n")?;
    stream.share_front(text.len());
    Ok(stream)
}

// Whether the store in front is asked as it came, and done.
fn is_asked(alloc: Global, stream: &mut TextStream, text: &[u8]) -> Result<bool, AllocError> {
    let ask = asked(alloc, &stream.received())?;
    Ok(ask.as_slice() == text && take_request(stream) == text.len())
}

// Whether a store of this line is asked as it came, and what comes after it is read on.
fn goes_on(alloc: Global, line: &[u8]) -> Result<bool, AllocError> {
    let text = request_text(alloc, line)?;
    let mut stream = shared(alloc, text.as_slice())?;
    let is_asked = is_asked(alloc, &mut stream, text.as_slice())?;
    stream.feed(b"get l\r\n")?;
    Ok(is_asked && stream.held() == b"get k\r\nget l\r\n".as_slice())
}

// Whether a store of this line is asked as it came, where more comes before it is done, and what comes after it is read on.
fn goes_on_early(alloc: Global, line: &[u8]) -> Result<bool, AllocError> {
    let text = request_text(alloc, line)?;
    let mut stream = shared(alloc, text.as_slice())?;
    stream.feed(b"get l\r\n")?;
    let is_asked = is_asked(alloc, &mut stream, text.as_slice())?;
    Ok(is_asked && stream.held() == b"get k\r\nget l\r\n".as_slice())
}

#[test]
fn large_stores_are_asked_as_they_came(rt: HostRuntime) -> Result<(), Fail> {
    for line in [
        b"set a 5 60 100000\r\n".as_slice(),
        b"cas a 5 60 100000 7\r\n".as_slice(),
        b"ms a 100000 T60 F5 MS\r\n".as_slice(),
    ] {
        assert!(rt; goes_on(rt.alloc(), line)?);
        assert!(rt; goes_on_early(rt.alloc(), line)?);
    }
    Ok(())
}
