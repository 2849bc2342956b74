//! How long an answer with large data is, before it is read.

ghost use Rattle.std.specs.Prelude.{◌<◌, ◌≤◌, ◌+◌, IfSome, length};

use crate::first_line::data_len;
use text_words::word::next_word;
use text_words::{Line, line};

/// The most bytes of an answer with data: its line, the data of 1 MiB, `\r\n` and `END\r\n`.
pub const ANSWER_LIMIT: usize = 1_114_119;

// How many bytes an answer takes, of which so many aren't data: the length of its data is the next word of its line from `at` on.
fn large_after(from: usize, text: &[u8], at: usize, others: usize) -> Option<usize>
    requires place { at ≤ length text.now }
    requires others { (0 < others) × (others ≤ 65_543) }
    ensures { IfSome result (λ len. (from < len) × (len ≤ ANSWER_LIMIT)) }
{
    let word = next_word(text, at)?;
    match data_len(&text[word.start..word.end])? {
        len if len >= from => Some(len + others),
        _ => None,
    }
}

// How many bytes an answer takes whose first line has this text and takes so many bytes, where it tells of enough data.
fn large_of(from: usize, text: &[u8], used: usize) -> Option<usize>
    requires { used ≤ 65_536 }
    ensures { IfSome result (λ len. (from < len) × (len ≤ ANSWER_LIMIT)) }
{
    let first = next_word(text, 0)?;
    if &text[first.start..first.end] == b"VA".as_slice() {
        return large_after(from, text, first.end, used + 2);
    }
    if &text[first.start..first.end] != b"VALUE".as_slice() {
        return None;
    }
    let key = next_word(text, first.end)?;
    let flags = next_word(text, key.end)?;
    large_after(from, text, flags.end, used + 7)
}

/// How many bytes the answer takes that these begin with, where its first line is there and tells of so many bytes of data or more, as the line
/// of a classic hit (`VALUE`) or of a meta one (`VA`) does: the line, the data, their `\r\n`, and a hit's `END\r\n`.
///
/// It is a hint for buffers, which nothing depends on: the answer may be foreign, or end in another spelling.
pub fn large_len(from: usize, bytes: &[u8]) -> Option<usize>
    ensures { IfSome result (λ len. (from < len) × (len ≤ ANSWER_LIMIT)) }
{
    if !bytes.starts_with(b"VA") {
        return None;
    }
    match line(bytes) {
        Line::At { end, used } => large_of(from, &bytes[..end], used),
        _ => None,
    }
}
