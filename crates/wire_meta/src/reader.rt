//! How the message at the front of a client's bytes is read.
ghost use Rattle.std.specs.Prelude.{◌≡◌, ℕ, List, ◌-◌, take, drop};
ghost use Rattle.text_words.specs.Line.{TakesLine};
ghost use Rattle.text_words.specs.Word.{IsNextWord};
ghost use Rattle.wire_meta.specs.Grammar.{meta_block_len};
ghost use Rattle.wire_meta.specs.Places.{meta_order_in};
ghost use Rattle.wire_meta.specs.Message.{MetaIsMeant, meta_meaning};

use crate::command::{MetaCommand, MetaRead, MetaRequest};
use crate::command_line::{command, skip};
use crate::verbs::verb;
use text_words::word::Span;
use wire_parts::{RefusalReason, Rest, Skip, after_line};

fn block_len(command: &MetaCommand) -> Option<usize>
    ensures { (bytes : List ℕ) → result ≡ meta_block_len (meta_order_in bytes command.now) }
{
    match command {
        MetaCommand::Keyed {
            length: Some(length),
            ..
        } => Some(*length as usize),
        _ => None,
    }
}

/// The message of the line that was found, whose first word is known, and of what follows the line. It takes no memory.
///
/// A reader of several dialects finds the line and its first word once, and then calls this.
pub fn read_after(bytes: &[u8], end: usize, used: usize, first: Span) -> MetaRead
    requires line { TakesLine bytes.now end used }
    requires first { IsNextWord (take end bytes.now) 0 first }
    ensures { MetaIsMeant bytes.now result (meta_meaning (take (used - 1) bytes.now) (drop used bytes.now)) }
{
    let text = &bytes[..end];
    // The word is looked up once, for what the line asks and for what is passed over if it is refused.
    let verb = verb(&text[first.start..first.end]);
    // Each arm returns by itself: the value of a match in a match is copied at each level.
    match command(text, first, verb) {
        Err(why) => return MetaRead::Refused {
            why,
            used,
            skip: skip(text, first, verb),
        },
        Ok(command) => match after_line(bytes, used, block_len(&command)) {
            Rest::More => return MetaRead::More,
            Rest::Whole { block, used } => return MetaRead::Request(MetaRequest {
                command,
                block,
                used,
            }),
            Rest::Bad { used } => return MetaRead::Refused {
                why: RefusalReason::BadChunk,
                used,
                skip: Skip::ThroughNewline,
            },
        },
    }
}
