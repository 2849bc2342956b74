//! What the first line of an answer says to an ask.

ghost use Rattle.std.specs.Prelude.{◌≡◌, ◌≤◌, ◌+◌, drop, length, position, IfOk};
ghost use Rattle.std.specs.List.{after_first, list_all};
ghost use Rattle.text_words.specs.Number.{number_below};
ghost use Rattle.text_words.specs.Word.{words, is_space};
ghost use Rattle.mc_types.specs.Asks.{data_limit};
ghost use Rattle.mc_types.specs.Fits.{is_text_byte};
ghost use Rattle.wire_answers.specs.Table.{
  looked_up,
  store_answers,
  of_cas,
  of_fetch,
  delete_answers,
  of_touch,
  count_answers,
  number_or,
  word_answer,
};
ghost use Rattle.wire_answers.specs.FirstLine.{
  from_first_word,
  error_text,
  is_error_text,
  cas_said,
  hit_said,
  is_fetch,
  is_error_word,
  line_said,
  meta_or_error,
  classic_said,
  in_dialect,
  kind_of_line,
};

use crate::line_kinds::{FirstLine, HitLine};
use crate::meta::{MetaLine, meta_line};
use mc_types::{
    Answer, Ask, Body, Code, DATA_LIMIT, Dialect, ERROR_TEXT_LIMIT, ErrorText, Fields, Op,
};
use std::alloc::{AllocError, Global};
use text_words::number::{number, u32_number};
use text_words::word::next_word;

fn of_store(word: &[u8]) -> Option<Answer>
    ensures { result ≡ looked_up store_answers word.now }
{
    if word == b"STORED".as_slice() {
        Some(Answer::Stored)
    } else if word == b"NOT_STORED".as_slice() {
        Some(Answer::NotStored)
    } else if word == b"ERROR".as_slice() {
        Some(Answer::Error)
    } else {
        None
    }
}

fn of_cas(word: &[u8]) -> Option<Answer>
    ensures { result ≡ looked_up of_cas word.now }
{
    if word == b"STORED".as_slice() {
        Some(Answer::Stored)
    } else if word == b"EXISTS".as_slice() {
        Some(Answer::Exists)
    } else if word == b"NOT_FOUND".as_slice() {
        Some(Answer::NotFound)
    } else if word == b"ERROR".as_slice() {
        Some(Answer::Error)
    } else {
        None
    }
}

fn of_fetch(word: &[u8]) -> Option<Answer>
    ensures { result ≡ looked_up of_fetch word.now }
{
    if word == b"END".as_slice() {
        Some(Answer::Miss)
    } else if word == b"ERROR".as_slice() {
        Some(Answer::Error)
    } else {
        None
    }
}

fn of_delete(word: &[u8]) -> Option<Answer>
    ensures { result ≡ looked_up delete_answers word.now }
{
    if word == b"DELETED".as_slice() {
        Some(Answer::Deleted)
    } else if word == b"NOT_FOUND".as_slice() {
        Some(Answer::NotFound)
    } else if word == b"ERROR".as_slice() {
        Some(Answer::Error)
    } else {
        None
    }
}

fn of_touch(word: &[u8]) -> Option<Answer>
    ensures { result ≡ looked_up of_touch word.now }
{
    if word == b"TOUCHED".as_slice() {
        Some(Answer::Touched)
    } else if word == b"NOT_FOUND".as_slice() {
        Some(Answer::NotFound)
    } else if word == b"ERROR".as_slice() {
        Some(Answer::Error)
    } else {
        None
    }
}

fn of_count(word: &[u8]) -> Option<Answer>
    ensures { result ≡ number_or word.now (looked_up count_answers word.now) }
{
    if word == b"NOT_FOUND".as_slice() {
        Some(Answer::NotFound)
    } else if word == b"ERROR".as_slice() {
        Some(Answer::Error)
    } else {
        Some(Answer::Number(number(word)?))
    }
}

fn word_answer(op: Op, word: &[u8]) -> Option<Answer>
    ensures { result ≡ word_answer op word.now }
{
    match op {
        Op::Get | Op::Gat => of_fetch(word),
        Op::Set | Op::Add | Op::Replace | Op::Append | Op::Prepend => of_store(word),
        Op::Cas => of_cas(word),
        Op::Delete => of_delete(word),
        Op::Incr | Op::Decr => of_count(word),
        Op::Touch => of_touch(word),
    }
}

pub fn data_len(word: &[u8]) -> Option<usize>
    ensures { result ≡ number_below (data_limit + 1) word.now }
{
    match number(word)? {
        len if len <= DATA_LIMIT as u64 => Some(len as usize),
        _ => None,
    }
}

fn cas_after(with_cas: bool, line: &[u8], at: usize) -> Option<Option<u64>>
    requires { at ≤ length line.now }
    ensures { result ≡ cas_said with_cas (words (drop at line.now)) }
{
    let Some(word) = next_word(line, at) else {
        return if with_cas { None } else { Some(None) };
    };
    let cas = number(&line[word.start..word.end])?;
    if next_word(line, word.end).is_some() {
        return None;
    }
    Some(if with_cas { Some(cas) } else { None })
}

fn hit_line(ask: &Ask, line: &[u8], at: usize) -> Option<HitLine>
    requires { at ≤ length line.now }
    ensures { result ≡ hit_said ask.now.key ask.now.with_cas (words (drop at line.now)) }
{
    let key = next_word(line, at)?;
    if &line[key.start..key.end] != ask.key.as_bytes() {
        return None;
    }
    let flags_word = next_word(line, key.end)?;
    let len_word = next_word(line, flags_word.end)?;
    let flags = u32_number(&line[flags_word.start..flags_word.end])?;
    let len = data_len(&line[len_word.start..len_word.end])?;
    let cas = cas_after(ask.with_cas, line, len_word.end)?;
    Some(HitLine { flags, len, cas })
}

// The line without the spaces before its first word.
fn from_first_word(line: &[u8]) -> &[u8]
    ensures { result.now ≡ from_first_word line.now }
{
    let mut text = line;
    while let [b' ', rest @ ..] = text {
        text = rest;
    }
    text
}

fn first_space(text: &[u8]) -> Option<usize>
    ensures { result ≡ position is_space text.now }
{
    text.iter().position(|b| *b == b' ')
}

// What stands after the first space.
fn after_space(text: &[u8]) -> &[u8]
    ensures { result.now ≡ after_first is_space text.now }
{
    match first_space(text) {
        Some(at) => &text[at + 1..],
        None => b"".as_slice(),
    }
}

fn is_text_byte(byte: u8) -> bool
    ensures { result ≡ is_text_byte byte }
{
    matches!(byte, 32..=126 | 128..=255)
}

fn are_text_bytes(text: &[u8]) -> bool
    ensures { result ≡ list_all is_text_byte text.now }
{
    text.iter().all(|byte| is_text_byte(*byte))
}

fn is_error_text(text: &[u8]) -> bool
    ensures { result ≡ is_error_text text.now }
{
    text.len() <= ERROR_TEXT_LIMIT && are_text_bytes(text)
}

fn error_text(alloc: Global, line: &[u8]) -> Result<Option<ErrorText>, AllocError>
    ensures { IfOk result (λ text. text ≡ error_text line.now) }
{
    let text = after_space(from_first_word(line));
    if !is_error_text(text) {
        return Ok(None);
    }
    Ok(Some(ErrorText::passed(Body::from_slice(alloc, text)?)))
}

fn is_fetch(op: Op) -> bool
    ensures { result ≡ is_fetch op }
{
    matches!(op, Op::Get | Op::Gat)
}

// What a line with this first word, and with words from `at` on, says to a classic ask.
fn classic_said(ask: &Ask, word: &[u8], line: &[u8], at: usize) -> FirstLine
    requires { at ≤ length line.now }
    ensures { result ≡ classic_said ask.now word.now (words (drop at line.now)) }
{
    if word == b"VALUE".as_slice() && is_fetch(ask.op) {
        return match hit_line(ask, line, at) {
            Some(hit) => FirstLine::Hit(hit),
            None => FirstLine::NoAnswer,
        };
    }
    if next_word(line, at).is_some() {
        return FirstLine::NoAnswer;
    }
    match word_answer(ask.op, word) {
        Some(answer) => FirstLine::Whole(answer),
        None => FirstLine::NoAnswer,
    }
}

fn line_said(line: MetaLine) -> FirstLine
    ensures { result ≡ line_said line }
{
    match line {
        MetaLine::Done(told) => FirstLine::Whole(Answer::Meta(Code::Hd, told.fields(None))),
        MetaLine::Value(value) => FirstLine::Value(value),
        MetaLine::Other(code) => FirstLine::Whole(Answer::Meta(code, Fields::none())),
    }
}

fn is_error_word(word: &[u8], line: &[u8], at: usize) -> bool
    requires { at ≤ length line.now }
    ensures { result ≡ is_error_word word.now (words (drop at line.now)) }
{
    word == b"ERROR".as_slice() && next_word(line, at).is_none()
}

// What a line that begins with this word says to a meta ask: that the ask was an error, or what a line of a meta answer says.
fn meta_said(ask: &Ask, word: &[u8], line: &[u8], at: usize) -> FirstLine
    requires { at ≤ length line.now }
    ensures { result ≡ meta_or_error ask.now word.now (words (drop at line.now)) }
{
    if is_error_word(word, line, at) {
        return FirstLine::Whole(Answer::Error);
    }
    match meta_line(ask, word, line, at) {
        Some(line) => line_said(line),
        None => FirstLine::NoAnswer,
    }
}

fn in_dialect(ask: &Ask, word: &[u8], line: &[u8], at: usize) -> FirstLine
    requires { at ≤ length line.now }
    ensures { result ≡ in_dialect ask.now.dialect ask.now word.now (words (drop at line.now)) }
{
    match ask.dialect {
        Dialect::Classic => classic_said(ask, word, line, at),
        Dialect::Meta => meta_said(ask, word, line, at),
    }
}

/// What the first line of an answer says to an ask. The only error is running out of memory, and only an error line takes any.
pub fn read_first_line(alloc: Global, ask: &Ask, line: &[u8]) -> Result<FirstLine, AllocError>
    ensures { IfOk result (λ s. s ≡ kind_of_line ask.now line.now) }
{
    let Some(first) = next_word(line, 0) else {
        return Ok(FirstLine::NoAnswer);
    };
    let word = &line[first.start..first.end];
    if word == b"CLIENT_ERROR".as_slice() {
        return Ok(match error_text(alloc, line)? {
            Some(text) => FirstLine::Whole(Answer::ClientError(text)),
            None => FirstLine::NoAnswer,
        });
    }
    if word == b"SERVER_ERROR".as_slice() {
        return Ok(match error_text(alloc, line)? {
            Some(text) => FirstLine::Whole(Answer::ServerError(text)),
            None => FirstLine::NoAnswer,
        });
    }
    Ok(in_dialect(ask, word, line, first.end))
}
