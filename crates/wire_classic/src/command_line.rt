//! What the words of a line ask, and what is passed over after it.
ghost use Rattle.std.specs.Prelude.{◌≡◌, ◌≤◌, length, drop, IfOk};
ghost use Rattle.text_words.specs.Word.{words, text_at, IsNextWord};
ghost use Rattle.wire_classic.specs.CommandWords.{verb_of};
ghost use Rattle.wire_classic.specs.Order.{classic_order_of, ordered_by, has_classic_block, classic_skip_of};
ghost use Rattle.wire_parts.specs.Places.{Gives};
ghost use Rattle.wire_classic.specs.Places.{ClassicLiesIn, order_in};

use crate::command::{ClassicCommand, Verb};
use crate::keyed::{counting, deletion, of_itself, touching};
use crate::retrieval::retrieval;
use crate::stores::{storage, swapping};
use text_words::word::Span;
use wire_parts::parts::length_at;
use wire_parts::{RefusalReason, Skip};

fn ordered(line: &[u8], at: usize, verb: Option<Verb>) -> Result<ClassicCommand, RefusalReason>
    requires { at ≤ length line.now }
    ensures order { Gives (order_in line.now) result (ordered_by verb (words (drop at line.now))) }
    ensures within { IfOk result (ClassicLiesIn line.now) }
{
    match verb {
        None => Err(RefusalReason::Unknown),
        Some(Verb::Store(op)) => storage(line, at, op),
        Some(Verb::Cas) => swapping(line, at),
        Some(Verb::Retrieve { touching, with_cas }) => retrieval(line, at, touching, with_cas),
        Some(Verb::Delete) => deletion(line, at),
        Some(Verb::Touch) => touching(line, at),
        Some(Verb::Count(op)) => counting(line, at, op),
        Some(Verb::Own(own)) => of_itself(line, at, own),
    }
}

/// What a line asks whose first word means this, or the first test that it fails.
pub(crate) fn command(
    line: &[u8],
    first: Span,
    verb: Option<Verb>,
) -> Result<ClassicCommand, RefusalReason>
    requires first { IsNextWord line.now 0 first }
    requires verb { verb ≡ verb_of (text_at line.now first) }
    ensures order { Gives (order_in line.now) result (classic_order_of (words line.now)) }
    ensures within { IfOk result (ClassicLiesIn line.now) }
{
    ordered(line, first.end, verb)
}

fn stores(verb: Option<Verb>) -> bool
    ensures { result ≡ has_classic_block verb }
{
    match verb {
        Some(Verb::Store(_)) | Some(Verb::Cas) => true,
        _ => false,
    }
}

/// What is passed over after such a line, if it is refused.
pub(crate) fn skip(line: &[u8], first: Span, verb: Option<Verb>) -> Skip
    requires first { IsNextWord line.now 0 first }
    requires verb { verb ≡ verb_of (text_at line.now first) }
    ensures { result ≡ classic_skip_of (words line.now) }
{
    if !stores(verb) {
        return Skip::Nothing;
    }
    match length_at(line, first.end, 3) {
        Some(n) => Skip::Bytes(u64::from(n) + 2),
        None => Skip::Nothing,
    }
}
