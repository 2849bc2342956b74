//! Both dialects on one connection, and the lines of all refusals.

use crate::escapes::{bytes_of, spelled};
use crate::reads::refused;
use examples_tables::tellers::{Teller, all_told};
use std::alloc::{AllocError, Global};
use std::test::Fail;
use wire_parts::RefusalReason;
use wire_stream::requests::{Read, Request, read_request};

fn table() -> &'static str {
    r"get a\r\nmg a\r\n => classic
mg a v\r\nget a\r\n => meta
mn\r\n => meta
ms a 1\r\n => more
me a\r\n => ERROR
mgx a\r\n => ERROR
 \r\n => ERROR
mg a z\r\n => CLIENT_ERROR flag not served
# The binary protocol, from its first byte on, and lines of HTTP.
\x80 => another protocol
\x81\x00 => another protocol
\x80 get a\r\n => another protocol
\x7f\x80 => more
\x82 a\r\n => ERROR
GET / HTTP/1.1 => more
GET / HTTP/1.1\r => more
GET / HTTP/1.1\r\n => another protocol
POST /a HTTP/1.0\nset a 0 0 1\r\n1\r\n => another protocol
 HTTP/1.1\r\n => another protocol
mgx HTTP/1.1\r\n => another protocol
set a HTTP/1.1\r\n => another protocol
# What is a command is none.
get HTTP/1.1\r\n => classic
get / HTTP/1.0\r\n => classic
mg HTTP/1.1\r\n => meta
mg / HTTP/1.1\r\n => CLIENT_ERROR flag not served
set a 0 0 HTTP/1.1\r\n => CLIENT_ERROR bad number
# Nor is what ends otherwise.
HTTP/1.1\r\n => ERROR
GET / HTTP/1.1 \r\n => ERROR
GET / HTTP/1.1\r\r\n => ERROR
GET / HTTP/1.2\r\n => ERROR
GET /HTTP/1.1\r\n => ERROR"
}

fn read_told(alloc: Global, bytes: &[u8]) -> Result<String, AllocError> {
    match read_request(bytes) {
        Read::More => "more".to_string(alloc),
        Read::TooLong => "too long".to_string(alloc),
        Read::OtherProtocol => "another protocol".to_string(alloc),
        Read::Request(Request::Classic(_)) => "classic".to_string(alloc),
        Read::Request(Request::Meta(_)) => "meta".to_string(alloc),
        Read::Refused { why, used, skip } => refused(alloc, bytes.len(), why, used, skip),
    }
}

struct OfBoth;

impl Teller for OfBoth {
    fn told(alloc: Global, example: &str) -> Result<String, AllocError> {
        let bytes = bytes_of(alloc, example)?;
        read_told(alloc, bytes.as_slice())
    }
}

#[test]
fn dialects_mixed(rt: HostRuntime) -> Result<(), Fail> {
    all_told::<OfBoth>(rt.alloc(), table())
}
