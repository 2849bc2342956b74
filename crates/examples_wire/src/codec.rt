//! Worked examples of the codec: answers of both dialects, streams of messages in any pieces, and classic gets that a server is
//! asked in the meta dialect. A line of a table is a question, what a client sent, ` | ` and what came from servers, ` => ` and what is told.

ghost use Rattle.std.specs.Prelude.{IfOk, IfSome};
ghost use Rattle.mc_types.specs.Asks.{IsAsk};

mod answers;
mod large_answers;
mod large_stores;
mod meta_forms;
mod replies;
mod small_answers;
mod streams;
mod usual_hits;

use crate::escapes::bytes_of;
use examples_tables::tellers::{Teller, halves};
use mc_types::Ask;
use std::alloc::{AllocError, Global};
use std::test::Fail;
use wire_stream::{Read, Received, read_request};

fn first_ask(alloc: Global, request: &[u8]) -> Result<Option<Ask>, AllocError>
    ensures { IfOk result (λ ask. IfSome ask IsAsk) }
{
    match read_request(request) {
        Read::Request(request_read) => request_read.walk().next(alloc, &Received::copied(request)),
        _ => Ok(None),
    }
}

// The first ask of a client's request.
fn ask_of(alloc: Global, request: &[u8]) -> Result<Ask, Fail> {
    match first_ask(alloc, request)? {
        Some(ask) => Ok(ask),
        None => Err(Fail::new("no ask")),
    }
}

fn is_quiet(request: &[u8]) -> bool {
    match read_request(request) {
        Read::Request(request) => request.quiet(),
        _ => false,
    }
}

fn told_of_ask(
    alloc: Global,
    question: &str,
    ask: Ask,
    is_quiet: bool,
    bytes: &[u8],
) -> Result<String, AllocError>
    requires { IsAsk ask }
{
    match question {
        "read" => answers::read_told(alloc, &ask, bytes),
        "cut" => answers::cut_told(alloc, &ask, bytes),
        "counted" => answers::counted_told(alloc, &ask, bytes),
        "is foreign" => answers::is_foreign_told(alloc, &ask, bytes),
        "form" => meta_forms::form_told(alloc, &ask),
        "in meta" => meta_forms::in_meta_told(alloc, &ask, bytes),
        "usual hit" => usual_hits::hit_told(alloc, &ask, bytes),
        "plain get" => usual_hits::get_told(alloc, &ask),
        "values" => replies::values_told(alloc, &ask, bytes),
        _ => replies::replies_told(alloc, &ask, is_quiet, bytes),
    }
}

fn told_of_request(
    alloc: Global,
    question: &str,
    request: &[u8],
    bytes: &[u8],
) -> Result<String, AllocError> {
    match first_ask(alloc, request)? {
        Some(ask) => told_of_ask(alloc, question, ask, is_quiet(request), bytes),
        None => "no ask".to_string(alloc),
    }
}

struct OfAsks;

impl Teller for OfAsks {
    fn told(alloc: Global, example: &str) -> Result<String, AllocError> {
        let (question, texts) = halves(example, ": ");
        let (request, bytes) = halves(texts, " | ");
        let request = bytes_of(alloc, request)?;
        let bytes = bytes_of(alloc, bytes)?;
        told_of_request(alloc, question, request.as_slice(), bytes.as_slice())
    }
}
