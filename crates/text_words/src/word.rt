//! The words of a line.

ghost use Rattle.std.specs.Prelude.{◌≡◌, [], drop, length, ◌≤◌, MatchOption, position};
ghost use Rattle.std.specs.List.{position_or_len};
ghost use Rattle.text_words.specs.Word.{IsNextWord, words, is_space, is_no_space};

/// A part of a text: the bytes from `start` on, and before `end`.
#[derive(Clone, Copy, Debug, PartialEq, Eq)]
pub struct Span {
    pub start: usize,
    pub end: usize,
}

fn first_other(text: &[u8]) -> Option<usize>
    ensures { result ≡ position is_no_space text.now }
{
    text.iter().position(|b| *b != b' ')
}

fn first_space(text: &[u8]) -> Option<usize>
    ensures { result ≡ position is_space text.now }
{
    text.iter().position(|b| *b == b' ')
}

fn spaces_len(text: &[u8]) -> usize
    ensures value { result ≡ position_or_len is_no_space text.now }
    ensures within { result ≤ length text.now }
{
    first_other(text).unwrap_or(text.len())
}

fn word_len(text: &[u8]) -> usize
    ensures value { result ≡ position_or_len is_space text.now }
    ensures within { result ≤ length text.now }
{
    first_space(text).unwrap_or(text.len())
}

/// The first word of the text from the place `at` on, or `None` where only spaces are left.
///
/// Words are parted by one or more spaces (byte 32); those before the first and after the last count for nothing. Call it
/// again at the `end` of the word before.
pub fn next_word(text: &[u8], at: usize) -> Option<Span>
    requires { at ≤ length text.now }
    ensures { MatchOption result (words (drop at text.now) ≡ []) (λ s. IsNextWord text.now at s) }
{
    let start = at + spaces_len(&text[at..]);
    if start == text.len() {
        return None;
    }
    let end = start + word_len(&text[start..]);
    Some(Span { start, end })
}
