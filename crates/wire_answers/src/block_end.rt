//! What ends a data block.

ghost use Rattle.std.specs.Prelude.{◌≡◌, ◌↔◌, IsTrue, [], ◌∷◌, codes};
ghost use Rattle.text_words.specs.Word.{words};
ghost use Rattle.wire_answers.specs.Reading.{TellsDataEnd, TellsEnd, TellsEndLine};

use text_words::word::next_word;
use text_words::{Line, line};

/// What ends a block, at the front of some bytes.
#[derive(Clone, Copy)]
pub enum Ends {
    /// The end isn't whole yet.
    Open,
    /// The end isn't there, whatever follows.
    Bad,
    /// The end takes this many bytes.
    Whole(usize),
}

fn is_end(text: &[u8]) -> bool
    ensures { IsTrue result ↔ (words text.now ≡ codes "END" ∷ []) }
{
    match next_word(text, 0) {
        None => false,
        Some(word) => {
            &text[word.start..word.end] == b"END".as_slice() && next_word(text, word.end).is_none()
        }
    }
}

fn end_line(bytes: &[u8]) -> Ends
    ensures { TellsEndLine bytes.now result }
{
    match line(bytes) {
        Line::More => Ends::Open,
        Line::TooLong => Ends::Bad,
        Line::At { end, used } => {
            if is_end(&bytes[..end]) {
                Ends::Whole(used)
            } else {
                Ends::Bad
            }
        }
    }
}

/// How a data block ends after its data.
pub fn data_end(bytes: &[u8]) -> Ends
    ensures { TellsDataEnd bytes.now result }
{
    match bytes {
        [] | [b'\r'] => Ends::Open,
        [b'\r', b'\n', ..] => Ends::Whole(2),
        _ => Ends::Bad,
    }
}

/// How a hit ends after its data: the end of the data block, and the line `END`.
pub fn block_end(bytes: &[u8]) -> Ends
    ensures { TellsEnd bytes.now result }
{
    match bytes {
        [] | [b'\r'] => Ends::Open,
        [b'\r', b'\n', after @ ..] => match end_line(after) {
            Ends::Whole(used) => Ends::Whole(used + 2),
            Ends::Open => Ends::Open,
            Ends::Bad => Ends::Bad,
        },
        _ => Ends::Bad,
    }
}
