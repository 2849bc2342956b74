//! What the words of a line ask, and what is passed over after it.
ghost use Rattle.std.specs.Prelude.{◌≡◌, ◌≤◌, length, drop, IfOk};
ghost use Rattle.text_words.specs.Word.{words, text_at, IsNextWord};
ghost use Rattle.wire_parts.specs.Places.{Gives};
ghost use Rattle.wire_meta.specs.CommandWords.{meta_verb_of};
ghost use Rattle.wire_meta.specs.Order.{meta_order_of, meta_ordered_by, asking, meta_storing, noop, sets, mixes, has_meta_block, meta_skip_of};
ghost use Rattle.wire_meta.specs.Places.{MetaLiesIn, meta_order_in};

use crate::command::{Kind, MetaCommand, Values, Verb};
use crate::flags::flags;
use mc_types::{DATA_LIMIT, Op};
use text_words::word::{Span, next_word};
use wire_parts::parts::{key, length_at, u32_of, word};
use wire_parts::{ProxyCommand, RefusalReason, Skip};

fn sets(mode: Option<Op>) -> bool
    ensures { result ≡ sets mode }
{
    match mode {
        None | Some(Op::Set) => true,
        _ => false,
    }
}

// A cas number with a mode other than set.
fn mixes(values: Values) -> bool
    ensures { result ≡ mixes values }
{
    values.cas.is_some() && !sets(values.mode)
}

// What `mg`, `md` and `ma` ask.
fn asking(line: &[u8], at: usize, kind: Kind) -> Result<MetaCommand, RefusalReason>
    requires { at ≤ length line.now }
    ensures order { Gives (meta_order_in line.now) result (asking kind (words (drop at line.now))) }
    ensures within { IfOk result (MetaLiesIn line.now) }
{
    let first = word(line, at)?;
    let key = key(line, first)?;
    let flags = flags(line, first.end, kind)?;
    Ok(MetaCommand::Keyed {
        key,
        flags,
        length: None,
        kind,
    })
}

// What `ms` asks.
fn storing(line: &[u8], at: usize) -> Result<MetaCommand, RefusalReason>
    requires { at ≤ length line.now }
    ensures order { Gives (meta_order_in line.now) result (meta_storing (words (drop at line.now))) }
    ensures within { IfOk result (MetaLiesIn line.now) }
{
    let first = word(line, at)?;
    let second = word(line, first.end)?;
    let key = key(line, first)?;
    let length = u32_of(line, second)?;
    let flags = flags(line, second.end, Kind::Store)?;
    if mixes(flags.values) {
        return Err(RefusalReason::FlagNotServed);
    }
    if length > DATA_LIMIT {
        return Err(RefusalReason::TooLarge);
    }
    Ok(MetaCommand::Keyed {
        key,
        flags,
        length: Some(length),
        kind: Kind::Store,
    })
}

// What `mn` asks.
fn noop(line: &[u8], at: usize) -> Result<MetaCommand, RefusalReason>
    requires { at ≤ length line.now }
    ensures order { Gives (meta_order_in line.now) result (noop (words (drop at line.now))) }
    ensures within { IfOk result (MetaLiesIn line.now) }
{
    match next_word(line, at) {
        None => Ok(MetaCommand::Own(ProxyCommand::Noop)),
        Some(_) => Err(RefusalReason::Unknown),
    }
}

fn ordered(line: &[u8], at: usize, verb: Option<Verb>) -> Result<MetaCommand, RefusalReason>
    requires { at ≤ length line.now }
    ensures order { Gives (meta_order_in line.now) result (meta_ordered_by verb (words (drop at line.now))) }
    ensures within { IfOk result (MetaLiesIn line.now) }
{
    match verb {
        None => Err(RefusalReason::Unknown),
        Some(Verb::Keyed(Kind::Get)) => asking(line, at, Kind::Get),
        Some(Verb::Keyed(Kind::Store)) => storing(line, at),
        Some(Verb::Keyed(Kind::Delete)) => asking(line, at, Kind::Delete),
        Some(Verb::Keyed(Kind::Count)) => asking(line, at, Kind::Count),
        Some(Verb::Noop) => noop(line, at),
    }
}

/// What a line asks whose first word means this, or the first test that it fails.
pub(crate) fn command(
    line: &[u8],
    first: Span,
    verb: Option<Verb>,
) -> Result<MetaCommand, RefusalReason>
    requires first { IsNextWord line.now 0 first }
    requires verb { verb ≡ meta_verb_of (text_at line.now first) }
    ensures order { Gives (meta_order_in line.now) result (meta_order_of (words line.now)) }
    ensures within { IfOk result (MetaLiesIn line.now) }
{
    ordered(line, first.end, verb)
}

fn stores(verb: Option<Verb>) -> bool
    ensures { result ≡ has_meta_block verb }
{
    match verb {
        Some(Verb::Keyed(Kind::Store)) => true,
        _ => false,
    }
}

/// What is passed over after such a line, if it is refused: the data that the third word of `ms` tells of.
pub(crate) fn skip(line: &[u8], first: Span, verb: Option<Verb>) -> Skip
    requires first { IsNextWord line.now 0 first }
    requires verb { verb ≡ meta_verb_of (text_at line.now first) }
    ensures { result ≡ meta_skip_of (words line.now) }
{
    if !stores(verb) {
        return Skip::Nothing;
    }
    match length_at(line, first.end, 1) {
        Some(n) => Skip::Bytes(u64::from(n) + 2),
        None => Skip::Nothing,
    }
}
