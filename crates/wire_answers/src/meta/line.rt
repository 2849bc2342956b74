//! What the line of a meta answer says to its ask.

ghost use Rattle.std.specs.Prelude.{◌≡◌, ◌≤◌, length, drop};
ghost use Rattle.text_words.specs.Word.{words};
ghost use Rattle.mc_types.specs.Wanted.{wanted_of};
ghost use Rattle.wire_answers.specs.Told.{none_told};
ghost use Rattle.wire_answers.specs.Tokens.{with_words};
ghost use Rattle.wire_answers.specs.Line.{as_asked, all_stand, is_size, value_said, value_line_words, coded, meta_said};

use crate::meta::codes::{code_of, is_count, takes};
use crate::meta::token::{data_size, tokens_told};
use crate::meta::told::Told;
use mc_types::{Ask, Code, Wanted};
use text_words::word::next_word;

/// The line of an answer with data.
#[derive(Clone, Copy)]
pub struct ValueLine {
    pub told: Told,
    /// How many bytes of data follow.
    pub len: usize,
    /// Whether the data have to be a number of 1 to 20 digits.
    pub is_number: bool,
}

/// What the line of a meta answer says.
#[derive(Clone, Copy)]
pub enum MetaLine {
    /// `HD`, with what its tokens say.
    Done(Told),
    /// `VA`: the data follow.
    Value(ValueLine),
    /// Another code, beside which nothing is kept.
    Other(Code),
}

fn as_asked(asked: bool, there: bool) -> bool
    ensures { result ≡ as_asked asked there }
{
    if asked { there } else { !there }
}

// Whether each of `c`, `f`, `s` and `t` stands exactly where it was asked for.
fn all_stand(wanted: Wanted, ask: &Ask, told: Told) -> bool
    requires { wanted ≡ wanted_of ask.now.tokens }
    ensures { result ≡ all_stand ask.now.tokens told }
{
    as_asked(wanted.cas, told.cas.is_some())
        && as_asked(wanted.flags, told.flags.is_some())
        && as_asked(wanted.size, told.size.is_some())
        && as_asked(wanted.ttl, told.ttl.is_some())
}

fn is_size(size: Option<u32>, len: u32) -> bool
    ensures { result ≡ is_size size len }
{
    match size {
        Some(size) => size == len,
        None => true,
    }
}

fn value_said(ask: &Ask, wanted: Wanted, len: u32, told: Told) -> Option<MetaLine>
    requires { wanted ≡ wanted_of ask.now.tokens }
    ensures { result ≡ value_said ask.now len told }
{
    if !all_stand(wanted, ask, told) || !is_size(told.size, len) {
        return None;
    }
    Some(MetaLine::Value(ValueLine {
        told,
        len: len as usize,
        is_number: is_count(ask.op),
    }))
}

fn value_words(ask: &Ask, wanted: Wanted, line: &[u8], at: usize) -> Option<MetaLine>
    requires wanted { wanted ≡ wanted_of ask.now.tokens }
    requires at { at ≤ length line.now }
    ensures { result ≡ value_line_words ask.now (words (drop at line.now)) }
{
    let word = next_word(line, at)?;
    let len = data_size(&line[word.start..word.end])?;
    let told = tokens_told(ask, wanted, line, word.end)?;
    value_said(ask, wanted, len, told)
}

fn coded(ask: &Ask, wanted: Wanted, line: &[u8], at: usize, code: Code) -> Option<MetaLine>
    requires wanted { wanted ≡ wanted_of ask.now.tokens }
    requires at { at ≤ length line.now }
    ensures { result ≡ coded ask.now (words (drop at line.now)) code }
{
    match code {
        Code::Va => value_words(ask, wanted, line, at),
        Code::Hd => {
            let told = tokens_told(ask, wanted, line, at)?;
            if !all_stand(wanted, ask, told) {
                return None;
            }
            Some(MetaLine::Done(told))
        }
        Code::En | Code::Ns | Code::Ex | Code::Nf => {
            let _told = tokens_told(ask, wanted, line, at)?;
            Some(MetaLine::Other(code))
        }
    }
}

/// What a line with this first word says to a meta ask; the words after it begin at `at`. It takes no memory.
///
/// The code has to be one that answers the operation: `VA` where the data were asked for and `HD` where not. The return
/// tokens stand in any order. `k` and `O` may be missing, and equal what was asked; each of `c`, `f`, `s` and `t` that was
/// asked for stands once on `HD` and `VA`, and on other codes may stand once, and is dropped. A size is the length of the
/// data. `None` for any other line.
///
/// Source: memcached's protocol.txt, "Meta Commands"; what isn't taken is mcgate's own.
pub fn meta_line(ask: &Ask, word: &[u8], line: &[u8], at: usize) -> Option<MetaLine>
    requires { at ≤ length line.now }
    ensures { result ≡ meta_said ask.now word.now (words (drop at line.now)) }
{
    let code = code_of(word)?;
    let wanted = Wanted::among(ask.tokens.as_slice());
    if !takes(ask.op, wanted.value, code) {
        return None;
    }
    coded(ask, wanted, line, at, code)
}
