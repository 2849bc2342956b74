//! Stores with large data, which are shared with what is to be sent to a server.

ghost use Rattle.std.specs.Prelude.{IfOk, IfSome};
ghost use Rattle.mc_types.specs.Asks.{IsAsk};

use bytes::BytesMut;
use mc_types::Ask;
use serve_links::calls::send_ask;
use std::alloc::{AllocError, Global};
use std::test::Fail;
use wire_parts::to_send::SendBuffer;
use wire_stream::{Read, Received, read_request};

// A request of this line, with 100,000 bytes of data.
fn request_text(alloc: Global, line: &[u8]) -> Result<BytesMut, AllocError> {
    let mut out = BytesMut::new(alloc);
    out.extend_from_slice(line)?;
    out.extend_from_slice(b"<")?;
    out.resize(line.len().saturating_add(99_999), b'x')?;
    out.extend_from_slice(b">\r\n")?;
    Ok(out)
}

// The first ask of a client's request.
fn first_ask(alloc: Global, bytes: &[u8]) -> Result<Option<Ask>, AllocError>
    ensures { IfOk result (λ ask. IfSome ask IsAsk) }
{
    match read_request(bytes) {
        Read::Request(request) => request.walk().next(alloc, &Received::copied(bytes)),
        _ => Ok(None),
    }
}

fn is_sent(alloc: Global, ask: Ask, text: &[u8], is_shared: bool) -> Result<bool, AllocError>
    requires { IsAsk ask }
{
    let mut sent = SendBuffer::new(alloc);
    send_ask(&ask, &mut sent)?;
    Ok(sent.pieces.is_empty() != is_shared && sent.to_vec(alloc)?.as_slice() == text)
}

// Whether a store of this line goes to the server as it came, with its data in a piece of their own, or copied.
fn goes_out(alloc: Global, line: &[u8], is_shared: bool) -> Result<bool, AllocError> {
    let text = request_text(alloc, line)?;
    match first_ask(alloc, text.as_slice())? {
        Some(ask) => is_sent(alloc, ask, text.as_slice(), is_shared),
        None => Ok(false),
    }
}

#[test]
fn large_stores_go_out_as_they_came(rt: HostRuntime) -> Result<(), Fail> {
    for line in [
        b"set a 5 60 100000\r\n".as_slice(),
        b"add a 5 0 100000\r\n".as_slice(),
        b"replace a 5 -1 100000\r\n".as_slice(),
        b"append a 0 0 100000\r\n".as_slice(),
        b"prepend a 0 0 100000\r\n".as_slice(),
        b"cas a 5 60 100000 7\r\n".as_slice(),
    ] {
        assert!(rt; goes_out(rt.alloc(), line, true)?);
    }
    assert!(rt; goes_out(rt.alloc(), b"ms a 100000 T60 F5 MS\r\n", false)?);
    Ok(())
}
