//! One call at the cache of its server, which fails as it is named to.

ghost use Rattle.std.specs.Prelude.{◌≡◌, ◌<◌, length, nat_abs, Some, option_map, IfOk, OnErr};
ghost use Rattle.mc_types.specs.Asks.{IsAsk};
ghost use Rattle.fresh_runs.specs.Log.{Cut};
ghost use Rattle.cache_server.specs.Contents.{at_moment};
ghost use Rattle.script_events.specs.Caches.{changed_at};
ghost use Rattle.script_events.specs.Servers.{manner_of};
ghost use Rattle.script_events.specs.Calling.{AppliesAt, CallIsMade, IsRefused, made_of};

use crate::servers::cutting::read_cut;
use crate::servers::event::Made;
use crate::servers::manner::Manner;
use crate::servers::moment::Moment;
use cache_server::Cache;
use mc_types::{Answer, Ask, Outcome, ServerId};
use std::alloc::{AllocError, Global};

// What the server answers, by its cache, and the stamp of what it found.
fn apply(
    caches: &mut Vec<Cache>,
    moment: Moment,
    stamp: u64,
    server: ServerId,
    ask: &Ask,
) -> Result<(Answer, Option<u64>), AllocError>
    requires there { server < length caches.old.items }
    requires ask { IsAsk ask.now }
    ensures ok { IfOk result (λ r. AppliesAt stamp moment.seconds caches.old.items server ask.now r.0 r.1 caches.new.items) }
    ensures err { OnErr result (caches.new.items ≡ changed_at server (at_moment (nat_abs moment.seconds)) caches.old.items) }
    ensures count { length caches.new.items ≡ length caches.old.items }
{
    caches[server.number() as usize].apply(moment.seconds, stamp, ask)
}

// What came of an answer of which only a part may have come.
fn made_of(read: Option<Answer>, stamp: Option<u64>) -> Made
    ensures { result ≡ made_of stamp read }
{
    match read {
        Some(answer) => Made {
            outcome: Outcome::Answered(answer),
            stamp,
        },
        None => Made::failed(),
    }
}

// The call is applied, and at most so many bytes of its answer come.
fn cut_call(
    alloc: Global,
    caches: &mut Vec<Cache>,
    moment: Moment,
    count: u32,
    stamp: u64,
    server: ServerId,
    ask: &Ask,
) -> Result<Made, AllocError>
    requires there { server < length caches.old.items }
    requires ask { IsAsk ask.now }
    ensures ok { IfOk result (λ made. CallIsMade (Some (Cut count)) stamp moment.seconds caches.old.items server ask.now made caches.new.items) }
    ensures err { OnErr result (IsRefused (Some (Cut count)) stamp moment.seconds caches.old.items server ask.now caches.new.items) }
    ensures count { length caches.new.items ≡ length caches.old.items }
{
    let (answer, found) = apply(caches, moment, stamp, server, ask)?;
    let read = read_cut(alloc, ask, &answer, count)?;
    Ok(made_of(read, found))
}

// The call fails in this manner.
fn fail_call(
    alloc: Global,
    caches: &mut Vec<Cache>,
    moment: Moment,
    manner: Manner,
    stamp: u64,
    server: ServerId,
    ask: &Ask,
) -> Result<Made, AllocError>
    requires there { server < length caches.old.items }
    requires ask { IsAsk ask.now }
    ensures ok { IfOk result (λ made. CallIsMade (Some (manner_of manner)) stamp moment.seconds caches.old.items server ask.now made caches.new.items) }
    ensures err { OnErr result (IsRefused (Some (manner_of manner)) stamp moment.seconds caches.old.items server ask.now caches.new.items) }
    ensures count { length caches.new.items ≡ length caches.old.items }
{
    match manner {
        Manner::Before => Ok(Made::failed()),
        Manner::Cut(count) => cut_call(alloc, caches, moment, count, stamp, server, ask),
        Manner::After => {
            let _lost = apply(caches, moment, stamp, server, ask)?;
            Ok(Made::failed())
        }
        Manner::Junk => {
            let _lost = apply(caches, moment, stamp, server, ask)?;
            Ok(Made::failed())
        }
    }
}

/// One call at this moment, which fails where that is named; what it stores as a new item has this stamp.
///
/// The only error is running out of memory: then nothing changed but that what had expired at the server is gone; or, of a call
/// named `Cut`, it was applied and its answer couldn't be written or read.
pub fn make_call(
    alloc: Global,
    caches: &mut Vec<Cache>,
    moment: Moment,
    named: Option<Manner>,
    stamp: u64,
    server: ServerId,
    ask: &Ask,
) -> Result<Made, AllocError>
    requires there { server < length caches.old.items }
    requires ask { IsAsk ask.now }
    ensures ok { IfOk result (λ made. CallIsMade (option_map manner_of named) stamp moment.seconds caches.old.items server ask.now made caches.new.items) }
    ensures err { OnErr result (IsRefused (option_map manner_of named) stamp moment.seconds caches.old.items server ask.now caches.new.items) }
    ensures count { length caches.new.items ≡ length caches.old.items }
{
    match named {
        None => {
            let (answer, stamp) = apply(caches, moment, stamp, server, ask)?;
            Ok(Made {
                outcome: Outcome::Answered(answer),
                stamp,
            })
        }
        Some(manner) => fail_call(alloc, caches, moment, manner, stamp, server, ask),
    }
}
