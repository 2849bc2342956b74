//! The tests of a line's words, one after another.
ghost use Rattle.std.specs.Prelude.{◌≡◌, ◌≤◌, [], length, drop, IfOk, IfSome, MatchResult, slice_get};
ghost use Rattle.std.specs.Option.{option_map};
ghost use Rattle.text_words.specs.Word.{words, text_at, IsNextWord};
ghost use Rattle.wire_parts.specs.Tests.{is_key, key_of, u32_of, u64_of, exptime_of, length_in};
ghost use Rattle.wire_parts.specs.Places.{Gives, SpanIsIn};

use crate::key_bytes::are_key_bytes;
use crate::refusal::RefusalReason;
use mc_types::KEY_LIMIT;
use text_words::number::{number, signed, u32_number};
use text_words::word::{Span, next_word};

/// Whether a word is a key.
pub fn is_key(word: &[u8]) -> bool
    ensures { result ≡ is_key word.now }
{
    1 <= word.len() && word.len() <= KEY_LIMIT && are_key_bytes(word)
}

/// The next word, which must be there.
pub fn word(line: &[u8], at: usize) -> Result<Span, RefusalReason>
    requires { at ≤ length line.now }
    ensures { MatchResult result (IsNextWord line.now at) (λ e. (e ≡ RefusalReason.Unknown) × (words (drop at line.now) ≡ [])) }
{
    next_word(line, at).ok_or(RefusalReason::Unknown)
}

/// The word at a place among the words of a line from a byte on.
pub fn nth_word(line: &[u8], from: usize, place: usize) -> Option<Span>
    requires { from ≤ length line.now }
    ensures value { option_map (text_at line.now) result ≡ slice_get (words (drop from line.now)) place }
    ensures within { IfSome result (SpanIsIn (length line.now)) }
{
    let mut at = from;
    for _ in 0..place {
        at = next_word(line, at)?.end;
    }
    next_word(line, at)
}

/// The length that stands at a place among the words of a line from a byte on, if one does.
pub fn length_at(line: &[u8], from: usize, place: usize) -> Option<u32>
    requires { from ≤ length line.now }
    ensures { result ≡ length_in (slice_get (words (drop from line.now)) place) }
{
    let word = nth_word(line, from, place)?;
    u32_number(&line[word.start..word.end])
}

/// The key that a word must be.
pub fn key(line: &[u8], word: Span) -> Result<Span, RefusalReason>
    requires { SpanIsIn (length line.now) word }
    ensures key { Gives (text_at line.now) result (key_of (text_at line.now word)) }
    ensures same { IfOk result (λ s. s ≡ word) }
{
    if is_key(&line[word.start..word.end]) {
        Ok(word)
    } else {
        Err(RefusalReason::BadKey)
    }
}

/// The flags or the length that a word must be.
pub fn u32_of(line: &[u8], word: Span) -> Result<u32, RefusalReason>
    requires { SpanIsIn (length line.now) word }
    ensures { result ≡ u32_of (text_at line.now word) }
{
    u32_number(&line[word.start..word.end]).ok_or(RefusalReason::BadNumber)
}

/// The number below 2^64 that a word must be.
pub fn u64_of(line: &[u8], word: Span) -> Result<u64, RefusalReason>
    requires { SpanIsIn (length line.now) word }
    ensures { result ≡ u64_of (text_at line.now word) }
{
    number(&line[word.start..word.end]).ok_or(RefusalReason::BadNumber)
}

/// The exptime that a word must be.
pub fn exptime(line: &[u8], word: Span) -> Result<i64, RefusalReason>
    requires { SpanIsIn (length line.now) word }
    ensures { result ≡ exptime_of (text_at line.now word) }
{
    signed(&line[word.start..word.end]).ok_or(RefusalReason::BadNumber)
}

/// The text that stands there.
pub fn text_at(bytes: &[u8], word: Span) -> &[u8]
    requires { SpanIsIn (length bytes.now) word }
    ensures { result.now ≡ text_at bytes.now word }
{
    &bytes[word.start..word.end]
}
