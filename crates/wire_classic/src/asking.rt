//! What a request asks: its asks, one for each key.
ghost use Rattle.std.specs.Option.{option_map};
ghost use Rattle.std.specs.Prelude.{◌≡◌, ℕ, List, ◌<◌, ◌≤◌, IfOk, IfSome, OnErr, Some, length, take, slice_get};
ghost use Rattle.text_words.specs.Word.{text_at};
ghost use Rattle.mc_types.specs.Parts.{ask_of};
ghost use Rattle.wire_parts.specs.Places.{SpanIsIn};
ghost use Rattle.wire_classic.specs.Places.{order_in, storing_in};
ghost use Rattle.wire_classic.specs.Message.{IsClassicReadFrom, classic_message_in};
ghost use Rattle.wire_classic.specs.Asks.{classic_asks_of, classic_quiet_of, classic_own_of, bare_ask, retrieval_ask, store_ask, single_ask, first_place, IsClassicAsk, IsClassicWalk, asks_taken};

use crate::command::{ClassicCommand, ClassicRequest, Stored};
use mc_types::{Ask, AskParts, Dialect, Op, Tokens};
use std::alloc::{AllocError, Global};
use text_words::word::{Span, next_word};
use wire_parts::ProxyCommand;
use wire_parts::parts::{nth_word, text_at};
use wire_parts::received::Received;

fn bare(alloc: Global, op: Op, key: &[u8]) -> AskParts<'_>
    ensures { ask_of result ≡ bare_ask op key.now }
{
    AskParts::bare(Dialect::Classic, op, key, Tokens::new(alloc))
}

fn retrieved<'a>(alloc: Global, key: &'a [u8], exptime: Option<i64>, with_cas: bool) -> AskParts<'a>
    ensures { ask_of result ≡ retrieval_ask exptime with_cas key.now }
{
    let op = match exptime {
        None => Op::Get,
        Some(_) => Op::Gat,
    };
    let mut parts = bare(alloc, op, key);
    parts.with_cas = with_cas;
    parts.exptime = exptime;
    parts
}

// The text that stands there.
fn key_in<'a>(received: &'a Received, key: Span) -> &'a [u8]
    requires { SpanIsIn (length received.now) key }
    ensures { result.now ≡ text_at received.now key }
{
    received.between(key.start, key.end)
}

// What stands up to a place.
fn front_of<'a>(received: &'a Received, end: usize) -> &'a [u8]
    requires { end ≤ length received.now }
    ensures { result.now ≡ take end received.now }
{
    &received.bytes()[..end]
}

fn stored<'a>(
    alloc: Global,
    received: &'a Received,
    op: Op,
    stored: Stored,
    cas: Option<u64>,
    block: Span,
) -> Result<AskParts<'a>, AllocError>
    requires placed { SpanIsIn (length received.now) stored.key }
    requires block { SpanIsIn (length received.now) block }
    ensures { IfOk result (λ parts. ask_of parts ≡ store_ask op (storing_in received.now stored) cas (text_at received.now block)) }
{
    let body = received.lent(alloc, block.start, block.end)?;
    let mut parts = bare(alloc, op, key_in(received, stored.key));
    parts.flags = stored.flags;
    parts.exptime = Some(stored.exptime);
    parts.body = body;
    parts.cas = cas;
    Ok(parts)
}

// The ask of a request that has a single key.
fn single<'a>(
    alloc: Global,
    received: &'a Received,
    request: &ClassicRequest,
) -> Result<Option<AskParts<'a>>, AllocError>
    requires { IsClassicReadFrom received.now request.now }
    ensures { IfOk result (λ parts. option_map ask_of parts ≡ single_ask (order_in received.now request.now.command) (text_at received.now request.now.block)) }
{
    match request.command {
        ClassicCommand::Storage {
            op,
            stored: head,
            ..
        } => Ok(Some(stored(alloc, received, op, head, None, request.block)?)),
        ClassicCommand::Swapping {
            stored: head,
            cas,
            ..
        } => Ok(Some(stored(alloc, received, Op::Cas, head, Some(cas), request.block)?)),
        ClassicCommand::Deletion { key, .. } => Ok(Some(bare(
            alloc,
            Op::Delete,
            key_in(received, key),
        ))),
        ClassicCommand::Touching { key, exptime, .. } => {
            let mut parts = bare(alloc, Op::Touch, key_in(received, key));
            parts.exptime = Some(exptime);
            Ok(Some(parts))
        }
        ClassicCommand::Counting { op, key, delta, .. } => {
            let mut parts = bare(alloc, op, key_in(received, key));
            parts.delta = delta;
            Ok(Some(parts))
        }
        ClassicCommand::Retrieval { .. } | ClassicCommand::Own(_) => Ok(None),
    }
}

fn first_place(command: &ClassicCommand) -> usize
    ensures { result ≡ first_place command.now }
{
    match command {
        ClassicCommand::Retrieval { keys, .. } => keys.span.start,
        _ => 0,
    }
}

/// A walk over the asks of a request, in order. All of them together take time linear in the bytes of the request.
#[derive(Clone, Copy)]
pub struct Asks {
    request: ClassicRequest,
    at: usize,
    taken: usize,
}

impl ClassicRequest {
    /// What the request asks of mcgate itself, if it does. It takes no memory.
    pub fn own(&self) -> Option<ProxyCommand>
        ensures { (bytes : List ℕ) → result ≡ classic_own_of (classic_message_in bytes self.now) }
    {
        match self.command {
            ClassicCommand::Own(own) => Some(own),
            _ => None,
        }
    }

    /// How many asks the request is: one for each key, none for a request of mcgate itself. It takes no memory.
    pub fn asks(&self) -> usize
        ensures { (bytes : List ℕ) → IsClassicReadFrom bytes self.now → result ≡ length (classic_asks_of (classic_message_in bytes self.now)) }
    {
        match self.command {
            ClassicCommand::Retrieval { keys, .. } => keys.count,
            ClassicCommand::Own(_) => 0,
            _ => 1,
        }
    }

    /// Whether the request wants no answer: `noreply` stands on its line. It takes no memory.
    pub fn quiet(&self) -> bool
        ensures { (bytes : List ℕ) → result ≡ classic_quiet_of (classic_message_in bytes self.now) }
    {
        match self.command {
            ClassicCommand::Storage { quiet, .. } => quiet,
            ClassicCommand::Swapping { quiet, .. } => quiet,
            ClassicCommand::Deletion { quiet, .. } => quiet,
            ClassicCommand::Touching { quiet, .. } => quiet,
            ClassicCommand::Counting { quiet, .. } => quiet,
            ClassicCommand::Retrieval { .. } | ClassicCommand::Own(_) => false,
        }
    }

    /// A walk over the asks of the request, at the first one. It takes no memory.
    pub fn walk(&self) -> Asks
        ensures request { result.request ≡ self.now }
        ensures first { result.taken ≡ 0 }
        ensures walk { (bytes : List ℕ) → IsClassicReadFrom bytes self.now → IsClassicWalk bytes result }
    {
        Asks {
            request: *self,
            at: first_place(&self.command),
            taken: 0,
        }
    }

    /// The parts of the ask of this number, counted from 0: its key and its data are still where they were read, but for large data, which may
    /// share the buffer that they came in. It walks over the keys before it; a walk over all asks is `walk`. The only error is running out of memory.
    pub fn parts<'a>(
        &self,
        alloc: Global,
        received: &'a Received,
        i: usize,
    ) -> Result<AskParts<'a>, AllocError>
        requires read { IsClassicReadFrom received.now self.now }
        requires there { i < length (classic_asks_of (classic_message_in received.now self.now)) }
        ensures value { IfOk result (λ parts. slice_get (classic_asks_of (classic_message_in received.now self.now)) i ≡ Some (ask_of parts)) }
        ensures ask { IfOk result (λ parts. IsClassicAsk (ask_of parts)) }
    {
        match self.command {
            ClassicCommand::Retrieval {
                exptime,
                with_cas,
                keys,
            } => {
                // (a key alone is all that its span has)
                if keys.count == 1 {
                    return Ok(retrieved(alloc, key_in(received, keys.span), exptime, with_cas));
                }
                let line = front_of(received, keys.span.end);
                match nth_word(line, keys.span.start, i) {
                    Some(word) => Ok(retrieved(alloc, text_at(line, word), exptime, with_cas)),
                    None => unreachable!(),
                }
            }
            _ => match single(alloc, received, self)? {
                Some(parts) => Ok(parts),
                None => unreachable!(),
            },
        }
    }
}

impl Asks {
    /// The next ask, a copy whose data may share the buffer that they came in, or `None` after the last one. The only error is
    /// running out of memory, after which the walk stands where it stood.
    pub fn next(&mut self, alloc: Global, received: &Received) -> Result<Option<Ask>, AllocError>
        requires { IsClassicWalk received.now self.old }
        ensures value { IfOk result (λ next. next ≡ slice_get (classic_asks_of (classic_message_in received.now self.old.request)) self.old.taken) }
        ensures ask { IfOk result (λ next. IfSome next IsClassicAsk) }
        ensures taken { IfOk result (λ next. self.new.taken ≡ asks_taken next self.old.taken) }
        ensures request { self.new.request ≡ self.old.request }
        ensures walk { IsClassicWalk received.now self.new }
        ensures err { OnErr result (self.new ≡ self.old) }
    {
        // Each arm returns by itself: the value of a match in a match is copied at each level.
        match self.request.command {
            ClassicCommand::Retrieval {
                exptime,
                with_cas,
                keys,
            } => {
                let line = front_of(received, keys.span.end);
                match next_word(line, self.at) {
                    None => return Ok(None),
                    Some(word) => {
                        let parts = retrieved(alloc, text_at(line, word), exptime, with_cas);
                        let ask = Ask::of(alloc, parts)?;
                        self.at = word.end;
                        self.taken += 1;
                        return Ok(Some(ask));
                    }
                }
            }
            _ => {
                if self.taken > 0 {
                    return Ok(None);
                }
                match single(alloc, received, &self.request)? {
                    None => return Ok(None),
                    Some(parts) => {
                        let ask = Ask::of(alloc, parts)?;
                        self.taken = 1;
                        return Ok(Some(ask));
                    }
                }
            }
        }
    }
}
