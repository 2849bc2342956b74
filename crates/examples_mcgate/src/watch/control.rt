//! Bytes that come on a control socket, what they ask for, and answers. In tables `⏎` is a line end.

use examples_tables::tables::unfolded;
use examples_tables::tellers::{Teller, wrong};
use std::alloc::{AllocError, Global};
use std::test::Fail;
use watch_admin::control::answers::{Ruling, put_answer, read_answer};
use watch_admin::control::exchange::Exchange;
use watch_admin::control::requests::{Request, request_of};

// Bytes, and what they ask for.
fn requests() -> &'static str {
    "drain⏎ => drain
reload⏎ => reload
status⏎ => status
servers⏎ => servers
where a:b⏎ => where a:b
where  a⏎ => where  a
log debug⏎ => log debug
log ⏎ => log 
log⏎ => unknown
drain⏎reload⏎ => drain
 => more
drain => more
where a => more
⏎ => unknown
where⏎ => unknown
drain ⏎ => unknown
 drain⏎ => unknown
Drain⏎ => unknown
drains⏎ => unknown
«70000 a» => unknown"
}

fn request_word(line: &[u8]) -> &'static str {
    match request_of(line) {
        Request::Drain => "drain",
        Request::Reload => "reload",
        Request::Status => "status",
        Request::Servers => "servers",
        Request::Where(_) => "where ",
        Request::Log(_) => "log ",
        Request::Unknown => "unknown",
    }
}

// What a line asks for, and the key after `where`, or the level after `log`.
fn told_of(alloc: Global, line: &[u8]) -> Result<String, AllocError> {
    let mut told = String::from_str(alloc, request_word(line))?;
    match request_of(line) {
        Request::Where(more) | Request::Log(more) => {
            told.push_str(std::str::from_utf8(more).unwrap_or("?"))?;
        }
        _ => {}
    }
    Ok(told)
}

#[derive(Drop)]
struct OfRequests;

impl Teller for OfRequests {
    fn told(alloc: Global, example: &str) -> Result<String, AllocError> {
        let bytes = unfolded(alloc, example)?;
        let came = bytes.as_str().as_bytes().to_vec(alloc)?;
        match Exchange::of(alloc, came)? {
            Exchange::Asked(line) => told_of(alloc, line.as_slice()),
            _ => String::from_str(alloc, "more"),
        }
    }
}

#[test]
fn lines_ask(rt: HostRuntime) -> Result<(), Fail> {
    assert_eq!(rt; wrong::<OfRequests>(rt.alloc(), requests())?.as_str(), "");
    Ok(())
}

#[test]
fn answers_are_read_back(rt: HostRuntime) -> Result<(), Fail> {
    let mut bytes = Vec::new(rt.alloc());
    put_answer(Ruling::Refused, b"no\n", &mut bytes)?;
    assert_eq!(rt; bytes.as_slice(), b"1\nno\n".as_slice());
    let read = read_answer(bytes.as_slice());
    assert!(rt; matches!(read, Some((Ruling::Refused, b"no\n"))));
    assert!(rt; read_answer(b"4\nno\n").is_none());
    assert!(rt; read_answer(b"0").is_none());
    Ok(())
}
