//! What an ask does to the item of its key, as the protocol tells it.

ghost use Rattle.std.specs.Prelude.{◌≡◌, ◌<◌, ◌++◌, ◌^◌, IfOk, decimal, option_copied};
ghost use Rattle.mc_types.specs.Items.{number_made};
ghost use Rattle.cache_server.specs.Table.{begun, stores, joins, renewed, counts_to, counts, where_absent, where_held, decided, is_other};

use crate::decision::{Change, Decision, Verdict};
use crate::expiry::expiry_after_ask;
use crate::item::{CacheItem, Entry};
use itoa::Buffer;
use mc_types::{Ask, Body, DATA_LIMIT, Op};
use std::alloc::{AllocError, Global};
use text_words::arithmetic::incr_or_decr;

fn store(now: u64, stamp: u64, ask: &Ask) -> Result<Decision, AllocError>
    requires { now < 2 ^ 63 }
    ensures { IfOk result (λ decision. decision ≡ stores now stamp ask.now) }
{
    let item = CacheItem {
        body: ask.body.copy()?,
        flags: ask.flags,
        expiry: expiry_after_ask(now, ask.exptime, None),
        stamp,
    };
    Ok(Decision {
        verdict: Verdict::Stored,
        change: Change::Stores(item),
    })
}

fn join(alloc: Global, item: &CacheItem, front: &[u8], back: &[u8]) -> Result<Decision, AllocError>
    ensures { IfOk result (λ decision. decision ≡ joins item.now (front.now ++ back.now)) }
{
    if front.len() + back.len() > DATA_LIMIT as usize {
        return Ok(Decision::finds(Verdict::TooLarge));
    }
    let mut bytes = Vec::with_capacity(alloc, front.len() + back.len())?;
    bytes.extend_from_slice(front)?;
    bytes.extend_from_slice(back)?;
    Ok(Decision {
        verdict: Verdict::Stored,
        change: Change::Stores(item.with_body(Body::from_vec(bytes)?)),
    })
}

fn renew(now: u64, ask: &Ask, entry: &Entry) -> Result<Change, AllocError>
    requires { now < 2 ^ 63 }
    ensures { IfOk result (λ change. change ≡ Change.Renews (renewed now ask.now entry.now)) }
{
    let mut renewed = entry.copy()?;
    renewed.item.expiry = expiry_after_ask(now, ask.exptime, entry.item.expiry);
    Ok(Change::Renews(renewed))
}

fn number_body(alloc: Global, number: u64) -> Result<Body, AllocError>
    ensures { IfOk result (λ body. body ≡ decimal number) }
{
    let mut buffer = Buffer::new();
    Body::from_slice(alloc, buffer.format(number).as_bytes())
}

fn is_other_cas(asked: Option<u64>, cas: u64) -> bool
    ensures { result ≡ is_other asked cas }
{
    match asked {
        Some(asked) => asked != cas,
        None => false,
    }
}

fn count(alloc: Global, now: u64, ask: &Ask, entry: &Entry) -> Result<Decision, AllocError>
    requires { now < 2 ^ 63 }
    ensures { IfOk result (λ decision. decision ≡ counts now ask.now entry.now) }
{
    if is_other_cas(ask.cas, entry.cas) {
        return Ok(Decision::finds(Verdict::Exists));
    }
    let up = ask.op != Op::Decr;
    let Some(number) = incr_or_decr(entry.item.body.as_slice(), up, ask.delta) else {
        return Ok(Decision::finds(Verdict::NotNumeric));
    };
    let item = CacheItem {
        body: number_body(alloc, number)?,
        flags: entry.item.flags,
        expiry: expiry_after_ask(now, ask.exptime, entry.item.expiry),
        stamp: entry.item.stamp,
    };
    Ok(Decision {
        verdict: Verdict::Counted(number),
        change: Change::Stores(item),
    })
}

fn decide_absent(now: u64, stamp: u64, ask: &Ask) -> Result<Decision, AllocError>
    requires { now < 2 ^ 63 }
    ensures { IfOk result (λ decision. decision ≡ where_absent now stamp ask.now ask.now.op) }
{
    match ask.op {
        Op::Set | Op::Add => store(now, stamp, ask),
        Op::Get | Op::Gat => Ok(Decision::finds(Verdict::Miss)),
        Op::Replace | Op::Append | Op::Prepend => Ok(Decision::finds(Verdict::NotStored)),
        Op::Cas | Op::Delete | Op::Incr | Op::Decr | Op::Touch => {
            Ok(Decision::finds(Verdict::NotFound))
        }
    }
}

fn decide_held(
    alloc: Global,
    now: u64,
    stamp: u64,
    ask: &Ask,
    entry: &Entry,
) -> Result<Decision, AllocError>
    requires { now < 2 ^ 63 }
    ensures { IfOk result (λ decision. decision ≡ where_held now stamp ask.now entry.now ask.now.op) }
{
    let held = entry.item.body.as_slice();
    match ask.op {
        Op::Get => Ok(Decision::finds(Verdict::Hit(entry.copy()?))),
        Op::Gat => Ok(Decision {
            verdict: Verdict::Hit(entry.copy()?),
            change: renew(now, ask, entry)?,
        }),
        Op::Touch => Ok(Decision {
            verdict: Verdict::Touched,
            change: renew(now, ask, entry)?,
        }),
        Op::Set | Op::Replace => store(now, stamp, ask),
        Op::Add => Ok(Decision::finds(Verdict::NotStored)),
        Op::Append => join(alloc, &entry.item, held, ask.body.as_slice()),
        Op::Prepend => join(alloc, &entry.item, ask.body.as_slice(), held),
        Op::Cas | Op::Delete if is_other_cas(ask.cas, entry.cas) => {
            Ok(Decision::finds(Verdict::Exists))
        }
        Op::Cas => store(now, stamp, ask),
        Op::Delete => Ok(Decision {
            verdict: Verdict::Deleted,
            change: Change::Removes,
        }),
        Op::Incr | Op::Decr => count(alloc, now, ask, entry),
    }
}

/// What a call finds and changes, by what is held of its key at that moment. The only error is running out of memory.
pub fn decide(
    alloc: Global,
    now: u64,
    stamp: u64,
    ask: &Ask,
    held: Option<&Entry>,
) -> Result<Decision, AllocError>
    requires { now < 2 ^ 63 }
    ensures { IfOk result (λ decision. decision ≡ decided now stamp ask.now (option_copied held.entry)) }
{
    match held {
        Some(entry) => decide_held(alloc, now, stamp, ask, entry),
        None => decide_absent(now, stamp, ask),
    }
}
