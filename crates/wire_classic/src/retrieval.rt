//! The lines of `get`, `gets`, `gat` and `gats`.
ghost use Rattle.std.specs.Prelude.{◌≡◌, ◌≤◌, ◌<◌, [], length, drop, IfOk, MatchOption, true, false};
ghost use Rattle.std.specs.List.{list_all};
ghost use Rattle.text_words.specs.Word.{words};
ghost use Rattle.wire_parts.specs.Tests.{is_key};
ghost use Rattle.wire_classic.specs.Order.{keys_of, getting, getting_and_touching, retrieval};
ghost use Rattle.wire_classic.specs.KeysOfLine.{IsFirstKey, AreKeysOfLine};
ghost use Rattle.wire_classic.specs.Places.{AreIn, ClassicLiesIn, keys_in, order_in};
ghost use Rattle.wire_parts.specs.Places.{Gives};

use crate::command::{ClassicCommand, Keys};
use crate::next_key::{NextKey, next_key};
use text_words::word::Span;
use wire_parts::RefusalReason;
use wire_parts::parts::{exptime, word};

// So many keys from a place on, of which this was the last one: a key alone has its own span, so that it needn't be looked for again.
#[tactic(auto, using(crate::proofs::KeyLemmas::spanned_all))]
fn spanned(line: &[u8], at: usize, count: usize, last: Span) -> Keys
    requires at { at ≤ length line.now }
    requires count { count ≡ length (words (drop at line.now)) }
    requires alone { count ≡ 1 → IsFirstKey line.now last [] (words (drop at line.now)) }
    ensures { AreKeysOfLine line.now (words (drop at line.now)) result }
{
    let span = if count == 1 {
        last
    } else {
        Span {
            start: at,
            end: line.len(),
        }
    };
    Keys { span, count }
}

// The words from a place on, if each is a key.
#[tactic(auto, using(crate::proofs::KeyLemmas::first_key, crate::proofs::KeyLemmas::only_key))]
fn keys_at(line: &[u8], at: usize) -> Option<Keys>
    requires { at ≤ length line.now }
    ensures { MatchOption result (list_all is_key (words (drop at line.now)) ≡ false)
        (λ keys. (list_all is_key (words (drop at line.now)) ≡ true) × AreKeysOfLine line.now (words (drop at line.now)) keys) }
{
    let mut from = at;
    let mut count = 0;
    let mut last = Span { start: at, end: at };
    loop {
        match next_key(line, from) {
            NextKey::Nothing => return Some(spanned(line, at, count, last)),
            NextKey::Key(key) => {
                from = key.end;
                last = key;
                count += 1;
            }
            NextKey::Other => return None,
        }
    }
}

fn keys(line: &[u8], at: usize) -> Result<Keys, RefusalReason>
    requires { at ≤ length line.now }
    ensures keys { Gives (keys_in line.now) result (keys_of (words (drop at line.now))) }
    ensures within { IfOk result (AreIn line.now) }
{
    let keys = keys_at(line, at).ok_or(RefusalReason::BadKey)?;
    if keys.count == 0 {
        return Err(RefusalReason::Unknown);
    }
    Ok(keys)
}

fn getting(line: &[u8], at: usize, with_cas: bool) -> Result<ClassicCommand, RefusalReason>
    requires { at ≤ length line.now }
    ensures order { Gives (order_in line.now) result (getting with_cas (words (drop at line.now))) }
    ensures within { IfOk result (ClassicLiesIn line.now) }
{
    let keys = keys(line, at)?;
    Ok(ClassicCommand::Retrieval {
        exptime: None,
        with_cas,
        keys,
    })
}

fn getting_and_touching(
    line: &[u8],
    at: usize,
    with_cas: bool,
) -> Result<ClassicCommand, RefusalReason>
    requires { at ≤ length line.now }
    ensures order { Gives (order_in line.now) result (getting_and_touching with_cas (words (drop at line.now))) }
    ensures within { IfOk result (ClassicLiesIn line.now) }
{
    let first = word(line, at)?;
    let keys = keys(line, first.end)?;
    let exptime = exptime(line, first)?;
    Ok(ClassicCommand::Retrieval {
        exptime: Some(exptime),
        with_cas,
        keys,
    })
}

/// What `get`, `gets`, `gat` and `gats` ask.
pub fn retrieval(
    line: &[u8],
    at: usize,
    touching: bool,
    with_cas: bool,
) -> Result<ClassicCommand, RefusalReason>
    requires { at ≤ length line.now }
    ensures order { Gives (order_in line.now) result (retrieval touching with_cas (words (drop at line.now))) }
    ensures within { IfOk result (ClassicLiesIn line.now) }
{
    if touching {
        getting_and_touching(line, at, with_cas)
    } else {
        getting(line, at, with_cas)
    }
}
