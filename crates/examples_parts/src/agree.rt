//! Whether an answer agrees with what a server holds.

ghost use Rattle.std.specs.Prelude.{◌≡◌, ◌↔◌, ℕ, IsTrue, IfSome, length, decimal, option_and_then};
ghost use Rattle.mc_types.specs.Items.{number_made};
ghost use Rattle.mc_types.specs.Agree.{AnswerAgrees, AgreesFetch, AgreesHeld, AgreesAdd, AgreesCount, CountsTo, MatchesFields};

use crate::holding::HeldItem;
use itoa::Buffer;
use mc_types::{Answer, Ask, Body, Code, Fields, Op};
use text_words::arithmetic::incr_or_decr;

fn is_data(body: &Option<Body>, bytes: &[u8]) -> bool
    ensures { IsTrue result ↔ IfSome body.now (λ body. body ≡ bytes.now) }
{
    match body {
        Some(body) => body.as_slice() == bytes,
        None => true,
    }
}

fn is_same(number: Option<u32>, other: u32) -> bool
    ensures { IsTrue result ↔ IfSome number (λ number. number ≡ other) }
{
    match number {
        Some(number) => number == other,
        None => true,
    }
}

fn is_size(size: Option<u32>, bytes: &[u8]) -> bool
    ensures { IsTrue result ↔ IfSome size (λ size. size ≡ length bytes.now) }
{
    match size {
        Some(size) => size as usize == bytes.len(),
        None => true,
    }
}

fn matches_item(fields: &Fields, item: &HeldItem) -> bool
    ensures { IsTrue result ↔ MatchesFields fields.now item.now }
{
    is_data(&fields.body, item.content())
        && is_same(fields.flags, item.flags())
        && is_size(fields.size, item.content())
}

fn is_hit_of(flags: u32, body: &Body, item: &HeldItem) -> bool
    ensures { IsTrue result ↔ ((flags ≡ item.now.flags) × (body.now ≡ item.now.content)) }
{
    flags == item.flags() && body.as_slice() == item.content()
}

fn agrees_fetch(answer: &Answer, held: &Option<HeldItem>) -> bool
    ensures { IsTrue result ↔ AgreesFetch answer.now held.now }
{
    match answer {
        Answer::Hit { flags, body, .. } => match held {
            Some(item) => is_hit_of(*flags, body, item),
            None => false,
        },
        Answer::Meta(Code::Hd, fields) | Answer::Meta(Code::Va, fields) => match held {
            Some(item) => matches_item(fields, item),
            None => false,
        },
        Answer::Meta(Code::En, _) | Answer::Miss => held.is_none(),
        _ => true,
    }
}

fn agrees_held(answer: &Answer, held: &Option<HeldItem>) -> bool
    ensures { IsTrue result ↔ AgreesHeld answer.now held.now }
{
    match answer {
        Answer::Stored | Answer::Exists | Answer::Deleted | Answer::Touched => held.is_some(),
        Answer::Meta(Code::Hd, _) | Answer::Meta(Code::Va, _) | Answer::Meta(Code::Ex, _) => {
            held.is_some()
        }
        Answer::Meta(Code::Nf, _) | Answer::Meta(Code::Ns, _) => held.is_none(),
        Answer::NotFound | Answer::NotStored => held.is_none(),
        _ => true,
    }
}

fn agrees_add(answer: &Answer, held: &Option<HeldItem>) -> bool
    ensures { IsTrue result ↔ AgreesAdd answer.now held.now }
{
    match answer {
        Answer::Stored | Answer::Meta(Code::Hd, _) => held.is_none(),
        Answer::NotStored | Answer::Meta(Code::Ns, _) => held.is_some(),
        _ => true,
    }
}

fn count_of(ask: &Ask, held: &Option<HeldItem>) -> Option<u64>
    ensures { result ≡ option_and_then (λ item. number_made ask.now item.content) held.now }
{
    match held {
        Some(item) => incr_or_decr(item.content(), ask.op != Op::Decr, ask.delta),
        None => None,
    }
}

fn is_number_text(body: &Option<Body>, number: u64) -> bool
    ensures { IsTrue result ↔ IfSome body.now (λ body. body ≡ decimal number) }
{
    let mut buffer = Buffer::new();
    is_data(body, buffer.format(number).as_bytes())
}

fn is_count(ask: &Ask, held: &Option<HeldItem>, number: u64) -> bool
    ensures { IsTrue result ↔ CountsTo ask.now held.now number }
{
    match count_of(ask, held) {
        Some(count) => count == number,
        None => false,
    }
}

fn counts(ask: &Ask, held: &Option<HeldItem>) -> bool
    ensures { IsTrue result ↔ (n : ℕ) × CountsTo ask.now held.now n }
{
    count_of(ask, held).is_some()
}

fn counts_and_shows(ask: &Ask, held: &Option<HeldItem>, body: &Option<Body>) -> bool
    ensures { IsTrue result ↔ (n : ℕ) × CountsTo ask.now held.now n × IfSome body.now (λ body. body ≡ decimal n) }
{
    match count_of(ask, held) {
        Some(count) => is_number_text(body, count),
        None => false,
    }
}

fn agrees_count(ask: &Ask, answer: &Answer, held: &Option<HeldItem>) -> bool
    ensures { IsTrue result ↔ AgreesCount ask.now answer.now held.now }
{
    match answer {
        Answer::Number(number) => is_count(ask, held, *number),
        Answer::Meta(Code::Hd, _) => counts(ask, held),
        Answer::Meta(Code::Va, fields) => counts_and_shows(ask, held, &fields.body),
        Answer::Meta(Code::Ex, _) => held.is_some(),
        Answer::Meta(Code::Nf, _) | Answer::Meta(Code::Ns, _) | Answer::NotFound => held.is_none(),
        _ => true,
    }
}

/// Whether a server that holds this of the ask's key may answer so. Error lines agree with anything.
///
/// Source: memcached's protocol.txt, what is said of each command and its answers.
pub fn agrees(ask: &Ask, answer: &Answer, held: &Option<HeldItem>) -> bool
    ensures { IsTrue result ↔ AnswerAgrees ask.now answer.now held.now }
{
    match ask.op {
        Op::Get | Op::Gat => agrees_fetch(answer, held),
        Op::Set => true,
        Op::Add => agrees_add(answer, held),
        Op::Replace | Op::Append | Op::Prepend | Op::Cas | Op::Delete | Op::Touch => {
            agrees_held(answer, held)
        }
        Op::Incr | Op::Decr => agrees_count(ask, answer, held),
    }
}
