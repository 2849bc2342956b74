//! The messages of a connection that are complete, answered by the cache ask by ask, up to a backlog.

ghost use Rattle.std.specs.Prelude.{◌≡◌, ◌<◌, ◌≤◌, ◌++◌, ◌||◌, ℕ, List, length, drop, IfOk, OnOk, OnErr};
ghost use Rattle.mc_types.specs.Asks.{IsAsk};
ghost use Rattle.wire_parts.specs.declared.skip.Skip.TheVariants.{Nothing};
ghost use Rattle.wire_parts.specs.Sending.{bytes_of};
ghost use Rattle.wire_parts.specs.Stream.{Place, Stands};
ghost use Rattle.wire_stream.specs.Held.{bytes_at, IsReadAt};
ghost use Rattle.wire_stream.specs.Fronts.{AsksNone};
ghost use Rattle.wire_stream.specs.Replies.{is_failure, shown_text};
ghost use Rattle.cache_tcp.specs.Steps.{IsAskOf, IsKeyOf, IsOnWay, IsAnsweredSoFar, ShowsNextReply, ServesNext, PassesOn, RunsOn, StopsForMemory, StopsAtAsk, StopsNext, HasStopped, IsWithin, spot_at, place_by, asks_ended};

use crate::clock::UnixTime;
use crate::connection::reply::reply_to;
use crate::connection::uses::Uses;
use cache_server::Cache;
use mc_types::{Answer, Ask, SharedAsk};
use std::alloc::{AllocError, Global};
use wire_parts::to_send::SendBuffer;
use wire_stream::connection::{ClientStream, Front, pass};
use wire_stream::{DEFAULT_VERSION, Read, Request, ends_message, write_part};

// A drop that is a call keeps the proof of a caller short.
fn drop_answer(_answer: Answer) {}

fn drop_ask(_ask: SharedAsk) {}

// What the reply to an ask shows goes after what is to be sent.
fn write_reply(
    quiet: bool,
    last: bool,
    ask: &Ask,
    reply: &Answer,
    out: &mut SendBuffer,
) -> Result<(), AllocError>
    ensures ok { OnOk result (bytes_of out.new ≡ bytes_of out.old ++ shown_text quiet last ask.now reply.now) }
    ensures err { OnErr result (bytes_of out.new ≡ bytes_of out.old) }
{
    write_part(quiet, last, ask, reply, &mut out.text)
}

// A message at the front of so many bytes is done, where the reply ended it: whether it did.
fn end_with(stream: &mut ClientStream, last: bool, reply: &Answer, used: usize) -> bool
    requires { used ≤ length (bytes_at stream.old) }
    ensures ended { result ≡ (is_failure reply.now || last) }
    ensures place { (held : List ℕ) → stream.old ≡ Stands Nothing held → stream.new ≡ place_by result stream.old (Stands Nothing (drop used held)) }
{
    if ends_message(last, reply) {
        stream.pass_request(used);
        true
    } else {
        false
    }
}

// The reply to an ask of the request at the front is shown: whether the request is done with it.
fn show(
    stream: &mut ClientStream,
    request: &Request,
    index: usize,
    ask: &Ask,
    reply: &Answer,
    out: &mut SendBuffer,
) -> Result<bool, AllocError>
    requires { IsAskOf stream.old request.now index ask.now }
    ensures ok { IfOk result (λ ended. ShowsNextReply stream.old request.now index ask.now reply.now (bytes_of out.old) ended stream.new (bytes_of out.new)) }
    ensures err { OnErr result (bytes_of out.new ≡ bytes_of out.old) }
{
    let count = request.asks();
    let last = index + 1 == count;
    write_reply(request.quiet(), last, ask, reply, out)?;
    Ok(end_with(stream, last, reply, request.used()))
}

// One ask of the request at the front: whether the request is done with its reply.
fn serve_ask(
    stream: &mut ClientStream,
    request: &Request,
    index: usize,
    ask: &Ask,
    cache: &mut Cache,
    moment: UnixTime,
    uses: &mut Uses,
    out: &mut SendBuffer,
) -> Result<bool, AllocError>
    requires at { IsAskOf stream.old request.now index ask.now }
    requires ask { IsAsk ask.now }
    ensures ok { IfOk result (λ ended. ServesNext moment.seconds stream.old index cache.old (bytes_of out.old) ended stream.new cache.new (bytes_of out.new)) }
    ensures err { OnErr result (StopsAtAsk moment.seconds ask.now cache.old cache.new) }
    ensures kept { OnErr result (bytes_of out.new ≡ bytes_of out.old) }
{
    uses.note(&ask.key);
    let reply = reply_to(cache, moment, ask)?;
    let shown = show(stream, request, index, ask, &reply, out);
    drop_answer(reply);
    shown
}

// The key of this number of the request at the front: whether the request is done with its reply.
fn serve_key(
    alloc: Global,
    stream: &mut ClientStream,
    request: &Request,
    index: usize,
    cache: &mut Cache,
    moment: UnixTime,
    uses: &mut Uses,
    out: &mut SendBuffer,
) -> Result<bool, AllocError>
    requires { IsKeyOf stream.old request.now index }
    ensures ok { IfOk result (λ ended. ServesNext moment.seconds stream.old index cache.old (bytes_of out.old) ended stream.new cache.new (bytes_of out.new)) }
    ensures err { OnErr result (StopsNext moment.seconds stream.old index cache.old cache.new) }
    ensures kept { OnErr result (bytes_of out.new ≡ bytes_of out.old) }
{
    let ask = stream.ask(alloc, None, request, index)?;
    let served = serve_ask(stream, request, index, ask.get(), cache, moment, uses, out);
    drop_ask(ask);
    served
}

// The asks of the request at the front from this one on, up to the reply that ends it, which is that of its last key at the latest, or up to a
// backlog: which ask is next then.
fn serve_request(
    alloc: Global,
    stream: &mut ClientStream,
    request: &Request,
    first: usize,
    cache: &mut Cache,
    moment: UnixTime,
    uses: &mut Uses,
    out: &mut SendBuffer,
    most: usize,
) -> Result<Option<usize>, AllocError>
    requires { IsKeyOf stream.old request.now first }
    ensures ok { IfOk result (λ next. RunsOn moment.seconds (spot_at stream.old first) cache.old (bytes_of out.old) (spot_at stream.new (asks_ended next)) cache.new (bytes_of out.new)) }
    ensures stopped { IfOk result (λ next. HasStopped most next stream.old stream.new (bytes_of out.new)) }
    ensures err { OnErr result (StopsForMemory moment.seconds (spot_at stream.old first) cache.old cache.new) }
    ensures within { IsWithin most (bytes_of out.old) → IsWithin most (bytes_of out.new) }
{
    for index in first..request.asks() {
        if out.len() >= most {
            return Ok(Some(index));
        }
        if serve_key(alloc, stream, request, index, cache, moment, uses, out)? {
            return Ok(None);
        }
    }
    unreachable!()
}

// A message at the front that asks no server is answered.
fn pass_front(stream: &mut ClientStream, read: Read, out: &mut SendBuffer) -> Result<(), AllocError>
    requires read { IsReadAt stream.old read }
    requires asks { AsksNone stream.old read }
    ensures ok { OnOk result (PassesOn stream.old (bytes_of out.old) stream.new (bytes_of out.new)) }
    ensures kept { OnErr result (bytes_of out.new ≡ bytes_of out.old) }
{
    pass(read, DEFAULT_VERSION, stream, &mut out.text)?;
    Ok(())
}

/// All messages that are complete are answered by the cache at this moment, up to a backlog of so many bytes: after so many asks of the message at
/// the front, of which so many were answered before.
///
/// The only error is running out of memory, which may break off a message.
pub fn serve(
    alloc: Global,
    stream: &mut ClientStream,
    first: usize,
    cache: &mut Cache,
    moment: UnixTime,
    uses: &mut Uses,
    out: &mut SendBuffer,
    most: usize,
) -> Result<usize, AllocError>
    requires { IsOnWay (spot_at stream.old first) }
    ensures ok { IfOk result (λ next. RunsOn moment.seconds (spot_at stream.old first) cache.old (bytes_of out.old) (spot_at stream.new next) cache.new (bytes_of out.new)) }
    ensures way { IfOk result (λ next. IsOnWay (spot_at stream.new next)) }
    ensures all { OnOk result (IsAnsweredSoFar most stream.new (bytes_of out.new)) }
    ensures err { OnErr result (StopsForMemory moment.seconds (spot_at stream.old first) cache.old cache.new) }
    ensures within { IsWithin most (bytes_of out.old) → IsWithin most (bytes_of out.new) }
{
    let mut next = first;
    while out.len() < most {
        match stream.front() {
            Front::Nothing => return Ok(next),
            Front::Passing(read) => pass_front(stream, read, out)?,
            Front::Keys(request) => {
                match serve_request(
                    alloc, stream, &request, next, cache, moment, uses, out, most,
                )? {
                    None => next = 0,
                    Some(index) => return Ok(index),
                }
            }
        }
    }
    Ok(next)
}
