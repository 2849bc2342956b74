//! What is of another protocol than memcached's text.
ghost use Rattle.std.specs.Prelude.{◌≡◌};
ghost use Rattle.wire_stream.specs.OtherProtocol.{is_binary, ends_as_http, is_http};

use wire_parts::RefusalReason;

/// Whether the bytes begin as a message of memcached's binary protocol does: a request with the byte 128, a response with 129.
pub fn is_binary(bytes: &[u8]) -> bool
    ensures { result ≡ is_binary bytes.now }
{
    match bytes.first() {
        Some(byte) => *byte == 0x80 || *byte == 0x81,
        None => false,
    }
}

fn ends_as_http(text: &[u8]) -> bool
    ensures { result ≡ ends_as_http text.now }
{
    text.ends_with(b" HTTP/1.0".as_slice()) || text.ends_with(b" HTTP/1.1".as_slice())
}

/// Whether a line that is refused for this reason is one of HTTP: it is no command, and ends as one of HTTP does. What is a
/// command is none, so a key may be `HTTP/1.1`.
pub fn is_http(text: &[u8], why: RefusalReason) -> bool
    ensures { result ≡ is_http text.now why }
{
    match why {
        RefusalReason::Unknown => ends_as_http(text),
        _ => false,
    }
}
