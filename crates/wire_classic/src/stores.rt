//! The lines of the commands with a data block.
ghost use Rattle.std.specs.Prelude.{◌≡◌, ◌≤◌, ◌<◌, length, drop, IfOk, MatchResult};
ghost use Rattle.text_words.specs.Word.{words, text_at};
ghost use Rattle.wire_classic.specs.Order.{storage, storing_of, swapping};
ghost use Rattle.wire_classic.specs.Places.{AreSpans, AreStoreWords, ClassicLiesIn, order_in, storing_in};
ghost use Rattle.wire_parts.specs.Places.{Gives};

use crate::command::{ClassicCommand, Stored};
use crate::parts::noreply;
use mc_types::{DATA_LIMIT, Op};
use text_words::word::Span;
use wire_parts::RefusalReason;
use wire_parts::parts::{exptime, key, u32_of, u64_of, word};

/// The words that each store has, in order.
#[derive(Clone, Copy)]
pub struct StoreWords {
    key: Span,
    flags: Span,
    exptime: Span,
    length: Span,
}

fn store_words(line: &[u8], at: usize) -> Result<StoreWords, RefusalReason>
    requires { at ≤ length line.now }
    ensures { MatchResult result (AreStoreWords line.now at) (λ e. (e ≡ RefusalReason.Unknown) × (length (words (drop at line.now)) < 4)) }
{
    let key = word(line, at)?;
    let flags = word(line, key.end)?;
    let exptime = word(line, flags.end)?;
    let length = word(line, exptime.end)?;
    Ok(StoreWords {
        key,
        flags,
        exptime,
        length,
    })
}

fn stored_in(line: &[u8], found: StoreWords) -> Result<Stored, RefusalReason>
    requires { AreSpans (length line.now) found }
    ensures value { Gives (storing_in line.now) result (storing_of (text_at line.now found.key) (text_at line.now found.flags) (text_at line.now found.exptime) (text_at line.now found.length)) }
    ensures same { IfOk result (λ s. s.key ≡ found.key) }
{
    let key = key(line, found.key)?;
    let flags = u32_of(line, found.flags)?;
    let exptime = exptime(line, found.exptime)?;
    let length = u32_of(line, found.length)?;
    Ok(Stored {
        key,
        flags,
        exptime,
        length,
    })
}

/// What `set`, `add`, `replace`, `append` and `prepend` ask.
pub fn storage(line: &[u8], at: usize, op: Op) -> Result<ClassicCommand, RefusalReason>
    requires { at ≤ length line.now }
    ensures order { Gives (order_in line.now) result (storage op (words (drop at line.now))) }
    ensures within { IfOk result (ClassicLiesIn line.now) }
{
    let found = store_words(line, at)?;
    let quiet = noreply(line, found.length.end)?;
    let stored = stored_in(line, found)?;
    if stored.length > DATA_LIMIT {
        return Err(RefusalReason::TooLarge);
    }
    Ok(ClassicCommand::Storage { op, stored, quiet })
}

/// What `cas` asks.
pub fn swapping(line: &[u8], at: usize) -> Result<ClassicCommand, RefusalReason>
    requires { at ≤ length line.now }
    ensures order { Gives (order_in line.now) result (swapping (words (drop at line.now))) }
    ensures within { IfOk result (ClassicLiesIn line.now) }
{
    let found = store_words(line, at)?;
    let cas = word(line, found.length.end)?;
    let quiet = noreply(line, cas.end)?;
    let stored = stored_in(line, found)?;
    let cas = u64_of(line, cas)?;
    if stored.length > DATA_LIMIT {
        return Err(RefusalReason::TooLarge);
    }
    Ok(ClassicCommand::Swapping { stored, cas, quiet })
}
