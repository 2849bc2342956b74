//! What a cache answers to one ask of a connection, running out of memory among it.

// The reply to one ask.

ghost use Rattle.std.specs.Prelude.{◌≡◌, nat_abs, IfOk, OnErr};
ghost use Rattle.mc_types.specs.Asks.{IsAsk};
ghost use Rattle.cache_server.specs.Contents.{at_moment};
ghost use Rattle.cache_tcp.specs.ConnectionServing.{can_store, out_of_memory, AnswersAsk};

use crate::clock::UnixTime;
use cache_server::Cache;
use mc_types::{Answer, Ask, ErrorText, Op, OwnText};
use std::alloc::AllocError;

fn can_store(op: Op) -> bool
    ensures { result ≡ can_store op }
{
    match op {
        Op::Set
        | Op::Add
        | Op::Replace
        | Op::Append
        | Op::Prepend
        | Op::Cas
        | Op::Incr
        | Op::Decr => true,
        Op::Get | Op::Gat | Op::Delete | Op::Touch => false,
    }
}

fn out_of_memory() -> Answer
    ensures { result ≡ out_of_memory }
{
    Answer::ServerError(ErrorText::own(OwnText::OutOfMemory))
}

/// What the cache answers to an ask at this moment. A new item has stamp 0. Running out of memory is an answer where the ask may
/// store an item, and the only error of the others; then nothing changes but that expired items are gone.
pub fn reply_to(cache: &mut Cache, moment: UnixTime, ask: &Ask) -> Result<Answer, AllocError>
    requires { IsAsk ask.now }
    ensures ok { IfOk result (λ reply. AnswersAsk moment.seconds ask.now cache.old reply cache.new) }
    ensures err { OnErr result (cache.new ≡ at_moment (nat_abs moment.seconds) cache.old) }
{
    match cache.apply(moment.seconds, 0, ask) {
        Ok((answer, _found)) => Ok(answer),
        Err(_) if can_store(ask.op) => Ok(out_of_memory()),
        Err(error) => Err(error),
    }
}
