//! What was read of a client's bytes, as tables tell it.

ghost use Rattle.std.specs.Prelude.{◌<◌, IfOk, length};
ghost use Rattle.mc_types.specs.Asks.{IsAsk};
ghost use Rattle.wire_stream.specs.Message.{IsReadFrom, message_in};
ghost use Rattle.wire_stream.specs.Asks.{asks_of};

use crate::escapes::{bytes_of, spelled};
use bytes::BytesMut;
use examples_tables::tellers::{Teller, halves};
use mc_types::SharedAsk;
use std::alloc::{AllocError, Global};
use wire_parts::{ProxyCommand, RefusalReason, Skip};
use wire_stream::{Read, Received, Request, read_request, write_ask};

// How many of the bytes were used, unless all were.
fn push_used(out: &mut String, used: usize, len: usize) -> Result<(), AllocError> {
    if used == len {
        return Ok(());
    }
    write!(out, ", {used} used")
}

fn push_skip(out: &mut String, skip: Skip) -> Result<(), AllocError> {
    match skip {
        Skip::Nothing => Ok(()),
        Skip::Bytes(count) => write!(out, ", {count} skipped"),
        Skip::ThroughNewline => out.push_str(", a line skipped"),
    }
}

/// Of a refused message of so many bytes its line, how many it used, and what is passed over then.
pub fn refused(
    alloc: Global,
    len: usize,
    why: RefusalReason,
    used: usize,
    skip: Skip,
) -> Result<String, AllocError> {
    let mut out = spelled(alloc, why.line())?;
    push_used(&mut out, used, len)?;
    push_skip(&mut out, skip)?;
    Ok(out)
}

fn word_of(own: Option<ProxyCommand>) -> &'static str {
    match own {
        None => "served",
        Some(ProxyCommand::Version) => "version",
        Some(ProxyCommand::Quit) => "quit",
        Some(ProxyCommand::Noop) => "noop",
    }
}

// Of a request in so many bytes how many it used, whether it is for servers, and whether it wants no answer.
fn served(alloc: Global, len: usize, request: &Request) -> Result<String, AllocError> {
    let mut out = word_of(request.own()).to_string(alloc)?;
    if request.quiet() {
        out.push_str(" quietly")?;
    }
    push_used(&mut out, request.used(), len)?;
    Ok(out)
}

fn read_told(alloc: Global, bytes: &[u8]) -> Result<String, AllocError> {
    match read_request(bytes) {
        Read::More => "more".to_string(alloc),
        Read::TooLong => "too long".to_string(alloc),
        Read::OtherProtocol => "another protocol".to_string(alloc),
        Read::Request(request) => served(alloc, bytes.len(), &request),
        Read::Refused { why, used, skip } => refused(alloc, bytes.len(), why, used, skip),
    }
}

fn wants_more(bytes: &[u8]) -> bool {
    matches!(read_request(bytes), Read::More)
}

fn cut_told(alloc: Global, bytes: &[u8]) -> Result<String, AllocError> {
    for end in 0..bytes.len() {
        if !wants_more(&bytes[..end]) {
            return "read early".to_string(alloc);
        }
    }
    read_told(alloc, bytes)
}

// What the asks that a walk comes to are written as.
fn walked(alloc: Global, request: &Request, bytes: &[u8]) -> Result<BytesMut, AllocError>
    requires { IsReadFrom bytes.now request.now }
{
    let mut out = BytesMut::new(alloc);
    let mut walk = request.walk();
    for _ in 0..request.asks().saturating_add(1) {
        if let Some(ask) = walk.next(alloc, &Received::copied(bytes))? {
            write_ask(&ask, &mut out)?;
        }
    }
    Ok(out)
}

fn first_ask(alloc: Global, request: &Request, bytes: &[u8]) -> Result<SharedAsk, AllocError>
    requires read { IsReadFrom bytes.now request.now }
    requires some { 0 < length (asks_of (message_in bytes.now request.now)) }
    ensures { IfOk result IsAsk }
{
    request.ask(alloc, None, &Received::copied(bytes), 0)
}

// What the first ask is written as, if there is one.
fn first(alloc: Global, request: &Request, bytes: &[u8]) -> Result<BytesMut, AllocError>
    requires { IsReadFrom bytes.now request.now }
{
    let mut out = BytesMut::new(alloc);
    if request.asks() > 0 {
        let ask = first_ask(alloc, request, bytes)?;
        write_ask(ask.get(), &mut out)?;
    }
    Ok(out)
}

// What the asks are written as. The first is made in both ways.
fn asked(alloc: Global, request: &Request, bytes: &[u8]) -> Result<String, AllocError>
    requires { IsReadFrom bytes.now request.now }
{
    let walked = walked(alloc, request, bytes)?;
    let first = first(alloc, request, bytes)?;
    if !walked.as_slice().starts_with(first.as_slice()) {
        return "two first asks".to_string(alloc);
    }
    spelled(alloc, walked.as_slice())
}

// What its ask is written as, or how many it has.
fn asked_one(alloc: Global, request: &Request, bytes: &[u8]) -> Result<String, AllocError>
    requires { IsReadFrom bytes.now request.now }
{
    let asks = request.asks();
    if asks != 1 {
        return format!(in alloc; "{asks} asks");
    }
    let out = first(alloc, request, bytes)?;
    spelled(alloc, out.as_slice())
}

fn asks_told(alloc: Global, bytes: &[u8]) -> Result<String, AllocError> {
    match read_request(bytes) {
        Read::Request(request) => asked(alloc, &request, bytes),
        _ => spelled(alloc, b""),
    }
}

fn ask_told(alloc: Global, bytes: &[u8]) -> Result<String, AllocError> {
    match read_request(bytes) {
        Read::Request(request) => asked_one(alloc, &request, bytes),
        _ => spelled(alloc, b""),
    }
}

/// Tells of bytes how they are read (`read`), which they aren't where they are `cut` at any place, and what they ask (`asks`), or what their
/// one ask is (`ask`).
pub struct OfRequests;

impl Teller for OfRequests {
    fn told(alloc: Global, example: &str) -> Result<String, AllocError> {
        let (question, text) = halves(example, ": ");
        let bytes = bytes_of(alloc, text)?;
        match question {
            "read" => read_told(alloc, bytes.as_slice()),
            "cut" => cut_told(alloc, bytes.as_slice()),
            "ask" => ask_told(alloc, bytes.as_slice()),
            _ => asks_told(alloc, bytes.as_slice()),
        }
    }
}
