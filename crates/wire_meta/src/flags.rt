//! The flags of a line, one after another.
ghost use Rattle.std.specs.Prelude.{◌≡◌, ◌≤◌, ◌<◌, [], length, drop, IfOk, MatchResult};
ghost use Rattle.text_words.specs.Word.{words};
ghost use Rattle.wire_parts.specs.Places.{Gives};
ghost use Rattle.wire_meta.specs.Flags.{flags_of};
ghost use Rattle.wire_meta.specs.Places.{AreFlags, flags_in, Passes, FlagFails};

use crate::command::{Flags, Kind, Values};
use crate::values::is_served;
use text_words::word::{Span, next_word};
use wire_parts::RefusalReason;

// One flag more, if its letter is served and wasn't seen, and its value is one.
fn next_flag(
    kind: Kind,
    seen: &mut [bool; 256],
    word: &[u8],
    values: Values,
) -> Result<Values, RefusalReason>
    requires { 0 < length word.now }
    ensures { MatchResult result (λ new. Passes kind word.now seen.old values seen.new new) (λ why. FlagFails kind word.now seen.old why) }
{
    let letter = word[0];
    if !is_served(kind, letter) {
        return Err(RefusalReason::FlagNotServed);
    }
    if seen[usize::from(letter)] {
        return Err(RefusalReason::FlagTwice);
    }
    match values.with(kind, letter, &word[1..]) {
        None => Err(RefusalReason::BadToken),
        Some(new) => {
            seen[usize::from(letter)] = true;
            Ok(new)
        }
    }
}

/// The flags that stand from a place of the line on, or the first test that they fail. For one flag, the tests of its
/// letter, of its having come before and of its value come together before the next flag.
pub fn flags(line: &[u8], at: usize, kind: Kind) -> Result<Flags, RefusalReason>
    requires { at ≤ length line.now }
    ensures order { Gives (flags_in line.now) result (flags_of kind [] (words (drop at line.now))) }
    ensures within { IfOk result (AreFlags kind line.now) }
{
    let mut seen = [false; 256];
    let mut values = Values::none();
    let mut from = at;
    loop {
        match next_word(line, from) {
            None => {
                return Ok(Flags {
                    span: Span {
                        start: at,
                        end: line.len(),
                    },
                    values,
                });
            }
            Some(word) => {
                values = next_flag(kind, &mut seen, &line[word.start..word.end], values)?;
                from = word.end;
            }
        }
    }
}
