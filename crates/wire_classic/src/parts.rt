//! What may stand after the words of a classic line.
ghost use Rattle.std.specs.Prelude.{◌≡◌, ◌≤◌, length, drop};
ghost use Rattle.text_words.specs.Word.{words};
ghost use Rattle.wire_classic.specs.Order.{noreply_of, delete_tail_of};

use text_words::word::next_word;
use wire_parts::RefusalReason;

/// Whether `noreply` stands there; nothing else may.
pub fn noreply(line: &[u8], at: usize) -> Result<bool, RefusalReason>
    requires { at ≤ length line.now }
    ensures { result ≡ noreply_of (words (drop at line.now)) }
{
    match next_word(line, at) {
        None => Ok(false),
        Some(word) => {
            if &line[word.start..word.end] != b"noreply".as_slice() {
                return Err(RefusalReason::Unknown);
            }
            match next_word(line, word.end) {
                None => Ok(true),
                Some(_) => Err(RefusalReason::Unknown),
            }
        }
    }
}

/// Whether `noreply` stands there, after a 0 or without one; nothing else may.
pub fn delete_tail(line: &[u8], at: usize) -> Result<bool, RefusalReason>
    requires { at ≤ length line.now }
    ensures { result ≡ delete_tail_of (words (drop at line.now)) }
{
    match next_word(line, at) {
        None => Ok(false),
        Some(word) => {
            if &line[word.start..word.end] == b"0".as_slice() {
                noreply(line, word.end)
            } else {
                noreply(line, at)
            }
        }
    }
}
