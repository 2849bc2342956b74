//! The return tokens of a line, one after the other.

ghost use Rattle.std.specs.Prelude.{◌≡◌, ◌≤◌, ◌+◌, ◌^◌, length, drop};
ghost use Rattle.std.specs.Option.{option_map};
ghost use Rattle.text_words.specs.Number.{number_below};
ghost use Rattle.text_words.specs.Word.{words};
ghost use Rattle.mc_types.specs.Asks.{data_limit};
ghost use Rattle.mc_types.specs.Tokens.{wants, LetterC, LetterF, LetterK, LetterS, LetterT};
ghost use Rattle.mc_types.specs.Wanted.{wanted_of};
ghost use Rattle.wire_answers.specs.Told.{none_told};
ghost use Rattle.wire_answers.specs.Tokens.{ttl_in, is_opaque_token, asks_opaque, with_token, with_word, with_words};

use crate::meta::told::Told;
use mc_types::{Ask, DATA_LIMIT, Token, Wanted};
use text_words::number::{number, u32_number};
use text_words::word::next_word;

/// The length of data that a word writes: 1 to 20 digits, and at most 1,048,576 (mcgate's own limits). `None` for any other word. It takes no memory.
pub fn data_size(text: &[u8]) -> Option<u32>
    ensures { result ≡ number_below (data_limit + 1) text.now }
{
    match u32_number(text)? {
        size if size <= DATA_LIMIT => Some(size),
        _ => None,
    }
}

fn ttl(text: &[u8]) -> Option<i64>
    ensures { result ≡ ttl_in text.now }
{
    if text == b"-1".as_slice() {
        return Some(-1);
    }
    i64::try_from(number(text)?).ok()
}

fn is_opaque(text: &[u8], token: &Token) -> bool
    ensures { result ≡ is_opaque_token text.now token.now }
{
    match token {
        Token::Opaque(asked) => asked.as_bytes() == text,
        _ => false,
    }
}

// Whether the text is the one that was asked to come back.
fn asks_opaque(tokens: &[Token], text: &[u8]) -> bool
    ensures { result ≡ asks_opaque tokens.now text.now }
{
    let mut rest = tokens;
    while let [token, more @ ..] = rest {
        if is_opaque(text, token) {
            return true;
        }
        rest = more;
    }
    false
}

// What a token says beside those before it.
fn with_token(ask: &Ask, wanted: Wanted, letter: u8, text: &[u8], told: Told) -> Option<Told>
    requires { wanted ≡ wanted_of ask.now.tokens }
    ensures { result ≡ with_token ask.now letter text.now told }
{
    let mut told = told;
    if letter == b'c' {
        if !wanted.cas || told.cas.is_some() {
            return None;
        }
        told.cas = Some(number(text)?);
    } else if letter == b'f' {
        if !wanted.flags || told.flags.is_some() {
            return None;
        }
        told.flags = Some(u32_number(text)?);
    } else if letter == b's' {
        if !wanted.size || told.size.is_some() {
            return None;
        }
        told.size = Some(data_size(text)?);
    } else if letter == b't' {
        if !wanted.ttl || told.ttl.is_some() {
            return None;
        }
        told.ttl = Some(ttl(text)?);
    } else if letter == b'k' {
        if !wanted.key || told.key || text != ask.key.as_bytes() {
            return None;
        }
        told.key = true;
    } else if letter == b'O' {
        if told.opaque || !asks_opaque(ask.tokens.as_slice(), text) {
            return None;
        }
        told.opaque = true;
    } else {
        return None;
    }
    Some(told)
}

fn with_word(ask: &Ask, wanted: Wanted, word: &[u8], told: Told) -> Option<Told>
    requires { wanted ≡ wanted_of ask.now.tokens }
    ensures { result ≡ with_word ask.now word.now told }
{
    match word {
        [letter, text @ ..] => with_token(ask, wanted, *letter, text, told),
        [] => None,
    }
}

/// What the words of a line from a byte on say as return tokens, in whatever order they stand. It takes no memory.
///
/// `None` where one of them wasn't asked for, stands twice, or has a text that isn't its: a number in its range, for `k`
/// and `O` what was asked.
pub fn tokens_told(ask: &Ask, wanted: Wanted, line: &[u8], at: usize) -> Option<Told>
    requires wanted { wanted ≡ wanted_of ask.now.tokens }
    requires at { at ≤ length line.now }
    ensures { result ≡ with_words ask.now (words (drop at line.now)) none_told }
{
    let mut told = Told::none();
    let mut from = at;
    while let Some(word) = next_word(line, from) {
        told = with_word(ask, wanted, &line[word.start..word.end], told)?;
        from = word.end;
    }
    Some(told)
}
