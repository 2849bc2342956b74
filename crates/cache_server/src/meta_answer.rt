//! The answers to meta asks.

ghost use Rattle.std.specs.Prelude.{◌≡◌, Some, IfOk, IfSome, option_copied};
ghost use Rattle.cache_server.specs.Sound.{IsItem, IsEntry, IsChange};
ghost use Rattle.cache_server.specs.Table.{bare_decision, done_answer, left_by, meta_answer};

use crate::decision::{Change, Verdict};
use crate::expiry::seconds_left;
use crate::item::{CacheItem, Entry};
use mc_types::{Answer, Code, ErrorText, Fields, OwnText, Tokens, Wanted};
use std::alloc::AllocError;

fn bare(code: Code) -> Answer
    ensures { result ≡ bare_decision code }
{
    Answer::Meta(code, Fields::none())
}

// What the flags show of an item under this cas number.
fn shown(now: u64, tokens: &Tokens, item: &CacheItem, cas: u64) -> Result<Answer, AllocError>
    requires { IsItem item.now }
    ensures { IfOk result (λ answer. answer ≡ done_answer now tokens.now (Some (record { item = item.now; cas = cas }))) }
{
    let wanted = Wanted::among(tokens.as_slice());
    let body = if wanted.value {
        Some(item.body.copy()?)
    } else {
        None
    };
    let code = if wanted.value { Code::Va } else { Code::Hd };
    let fields = Fields {
        body,
        cas: wanted.cas.then_some(cas),
        flags: wanted.flags.then_some(item.flags),
        size: wanted.size.then_some(item.body.len() as u32),
        ttl: wanted.ttl.then_some(seconds_left(now, item.expiry)),
    };
    Ok(Answer::Meta(code, fields))
}

// What the flags show of the entry that the change leaves.
fn done(
    now: u64,
    tokens: &Tokens,
    counter: u64,
    held: Option<&Entry>,
    change: &Change,
) -> Result<Answer, AllocError>
    requires held { IfSome (option_copied held) IsEntry }
    requires change { IsChange change.now }
    ensures { IfOk result (λ answer. answer ≡ done_answer now tokens.now (left_by counter (option_copied held.entry) change.now)) }
{
    match change {
        Change::Removes => Ok(bare(Code::Hd)),
        Change::Renews(entry) => shown(now, tokens, &entry.item, entry.cas),
        Change::Stores(item) => shown(now, tokens, item, counter.saturating_add(1)),
        Change::Leaves => match held {
            Some(entry) => shown(now, tokens, &entry.item, entry.cas),
            None => Ok(bare(Code::Hd)),
        },
    }
}

/// The answer to a meta ask with these return flags, by what the call finds and changes. The only error is running out
/// of memory.
///
/// `held` is what is held of the key before the call, and `counter` the last cas number. What is shown is the entry that
/// the call leaves, so the seconds left are those after a new expiry was set.
pub fn meta_answer(
    now: u64,
    tokens: &Tokens,
    counter: u64,
    held: Option<&Entry>,
    verdict: &Verdict,
    change: &Change,
) -> Result<Answer, AllocError>
    requires held { IfSome (option_copied held) IsEntry }
    requires change { IsChange change.now }
    ensures { IfOk result (λ answer. answer ≡ meta_answer now tokens.now (left_by counter (option_copied held.entry) change.now) verdict.now) }
{
    match verdict {
        Verdict::Hit(_) | Verdict::Counted(_) => done(now, tokens, counter, held, change),
        Verdict::Stored | Verdict::Deleted | Verdict::Touched => {
            done(now, tokens, counter, held, change)
        }
        Verdict::Miss => Ok(bare(Code::En)),
        Verdict::NotStored => Ok(bare(Code::Ns)),
        Verdict::Exists => Ok(bare(Code::Ex)),
        Verdict::NotFound => Ok(bare(Code::Nf)),
        Verdict::NotNumeric => Ok(Answer::ClientError(ErrorText::own(OwnText::NotNumeric))),
        Verdict::TooLarge => Ok(Answer::ServerError(ErrorText::own(OwnText::TooLarge))),
        Verdict::OutOfMemory => Ok(Answer::ServerError(ErrorText::own(OwnText::OutOfMemory))),
    }
}
