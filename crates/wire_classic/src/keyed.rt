//! The lines of the commands with one key and no data, and of those without a key.
ghost use Rattle.std.specs.Prelude.{◌≡◌, ◌≤◌, ◌<◌, length, drop, IfOk};
ghost use Rattle.text_words.specs.Word.{words};
ghost use Rattle.wire_classic.specs.Order.{counting, deletion, touching, of_itself};
ghost use Rattle.wire_parts.specs.Places.{Gives};
ghost use Rattle.wire_classic.specs.Places.{ClassicLiesIn, order_in};

use crate::command::ClassicCommand;
use crate::parts::{delete_tail, noreply};
use mc_types::Op;
use text_words::word::next_word;
use wire_parts::parts::{exptime, key, u64_of, word};
use wire_parts::{ProxyCommand, RefusalReason};

/// What `delete` asks.
pub fn deletion(line: &[u8], at: usize) -> Result<ClassicCommand, RefusalReason>
    requires { at ≤ length line.now }
    ensures order { Gives (order_in line.now) result (deletion (words (drop at line.now))) }
    ensures within { IfOk result (ClassicLiesIn line.now) }
{
    let first = word(line, at)?;
    let quiet = delete_tail(line, first.end)?;
    let key = key(line, first)?;
    Ok(ClassicCommand::Deletion { key, quiet })
}

/// What `touch` asks.
pub fn touching(line: &[u8], at: usize) -> Result<ClassicCommand, RefusalReason>
    requires { at ≤ length line.now }
    ensures order { Gives (order_in line.now) result (touching (words (drop at line.now))) }
    ensures within { IfOk result (ClassicLiesIn line.now) }
{
    let first = word(line, at)?;
    let second = word(line, first.end)?;
    let quiet = noreply(line, second.end)?;
    let key = key(line, first)?;
    let exptime = exptime(line, second)?;
    Ok(ClassicCommand::Touching {
        key,
        exptime,
        quiet,
    })
}

/// What `incr` and `decr` ask.
pub fn counting(line: &[u8], at: usize, op: Op) -> Result<ClassicCommand, RefusalReason>
    requires { at ≤ length line.now }
    ensures order { Gives (order_in line.now) result (counting op (words (drop at line.now))) }
    ensures within { IfOk result (ClassicLiesIn line.now) }
{
    let first = word(line, at)?;
    let second = word(line, first.end)?;
    let quiet = noreply(line, second.end)?;
    let key = key(line, first)?;
    let delta = u64_of(line, second)?;
    Ok(ClassicCommand::Counting {
        op,
        key,
        delta,
        quiet,
    })
}

/// What `version` and `quit` ask.
pub fn of_itself(line: &[u8], at: usize, own: ProxyCommand) -> Result<ClassicCommand, RefusalReason>
    requires { at ≤ length line.now }
    ensures order { Gives (order_in line.now) result (of_itself own (words (drop at line.now))) }
    ensures within { IfOk result (ClassicLiesIn line.now) }
{
    match next_word(line, at) {
        None => Ok(ClassicCommand::Own(own)),
        Some(_) => Err(RefusalReason::Unknown),
    }
}
