//! Why a line says no event.

ghost use Rattle.std.specs.Prelude.{◌≡◌};
ghost use Rattle.mc_types.specs.Fault.{read_key};
ghost use Rattle.script_events.specs.Lines.{cut};
ghost use Rattle.fault_words.specs.Troubles.{number_said, number_trouble, text_trouble, key_bytes_trouble, key_trouble, sent_trouble, hold_trouble, cut_trouble, manner_trouble, fail_trouble, item_loss_trouble, loss_trouble, at_trouble, form_trouble, trouble_in, Finds};

use mc_types::{Key, KeyFault, SCRIPT_CLIENTS};
use script_events::text::escapes::unescape;
use script_events::text::fault::LineFault;
use script_events::text::words::{cut, number_under};
use std::alloc::Global;

/// The lines of a script by their words: the events, and the reload.
#[derive(Clone, Copy)]
pub enum Form {
    Piece,
    Add,
    Result,
    Hold,
    Fail,
    Lose,
    Restart,
    At,
    Moment,
    Reload,
}

/// What a word is to number.
#[derive(Clone, Copy)]
pub enum Number {
    /// 0 to 63.
    Client,
    /// 0 to 4294967295.
    Server,
    /// A call from here on, 1 to 4294967295.
    Turn,
    /// A count of bytes, 0 to 4294967295.
    Count,
    /// A time in seconds, 0 to 9223372036854775807.
    Moment,
}

/// Why a line says no event: the first of its parts that can't be read.
#[derive(Clone, Copy)]
pub enum Trouble<'a> {
    /// No event has this word.
    NoEvent(&'a [u8]),
    /// The line of this form wants more words.
    Wants(Form),
    /// This word isn't such a number.
    NoNumber(Number, &'a [u8]),
    /// A backslash begins no escape.
    NoEscape,
    /// What is to be a key is none.
    NoKey(KeyFault),
    /// This is neither `before`, `after`, `cut B` nor `junk`.
    NoManner(&'a [u8]),
    /// After `cut` the count of bytes is missing.
    WantsCount,
    /// This is neither `lose` nor `restart`.
    NoLoss(&'a [u8]),
    /// The JSON after `reload` is no configuration.
    NoConfiguration,
}

/// Why a line was not read to its end.
#[derive(Clone, Copy)]
pub enum Halt<'a> {
    /// It has this trouble.
    Trouble(Trouble<'a>),
    /// Memory was refused.
    NoMemory,
}

impl Form {
    ghost use Rattle.fault_words.specs.Troubles.{form_of};

    /// The line that this word names.
    pub fn of(word: &[u8]) -> Option<Form>
        ensures { result ≡ form_of word.now }
    {
        if word == b">".as_slice() {
            Some(Form::Piece)
        } else if word == b"+".as_slice() {
            Some(Form::Add)
        } else if word == b"result".as_slice() {
            Some(Form::Result)
        } else if word == b"hold".as_slice() {
            Some(Form::Hold)
        } else if word == b"fail".as_slice() {
            Some(Form::Fail)
        } else if word == b"lose".as_slice() {
            Some(Form::Lose)
        } else if word == b"restart".as_slice() {
            Some(Form::Restart)
        } else if word == b"at".as_slice() {
            Some(Form::At)
        } else if word == b"moment".as_slice() {
            Some(Form::Moment)
        } else if word == b"reload".as_slice() {
            Some(Form::Reload)
        } else {
            None
        }
    }
}

// The number that a word writes of this kind.
fn read_number(kind: Number, word: &[u8]) -> Option<u64>
    ensures { result ≡ number_said kind word.now }
{
    match kind {
        Number::Client => number_under(SCRIPT_CLIENTS as u64, word),
        Number::Server => number_under(1 << 32, word),
        Number::Turn => match number_under(1 << 32, word) {
            Some(0) | None => None,
            Some(turn) => Some(turn),
        },
        Number::Count => number_under(1 << 32, word),
        Number::Moment => number_under(1 << 63, word),
    }
}

fn check_number(kind: Number, word: &[u8]) -> Result<(), Halt<'_>>
    ensures { Finds (number_trouble kind word.now) result }
{
    match read_number(kind, word) {
        Some(_) => Ok(()),
        None => Err(Halt::Trouble(Trouble::NoNumber(kind, word))),
    }
}

fn check_text(alloc: Global, text: &[u8]) -> Result<(), Halt<'_>>
    ensures { Finds (text_trouble text.now) result }
{
    match unescape(alloc, text) {
        Ok(_) => Ok(()),
        Err(LineFault::Unreadable) => Err(Halt::Trouble(Trouble::NoEscape)),
        Err(LineFault::NoMemory) => Err(Halt::NoMemory),
    }
}

fn check_key_bytes<'a>(bytes: &[u8]) -> Result<(), Halt<'a>>
    ensures { Finds (key_bytes_trouble (read_key bytes.now)) result }
{
    match Key::read(bytes) {
        Ok(_) => Ok(()),
        Err(fault) => Err(Halt::Trouble(Trouble::NoKey(fault))),
    }
}

fn check_key(alloc: Global, text: &[u8]) -> Result<(), Halt<'_>>
    ensures { Finds (key_trouble text.now) result }
{
    match unescape(alloc, text) {
        Ok(bytes) => check_key_bytes(bytes.as_slice()),
        Err(LineFault::Unreadable) => Err(Halt::Trouble(Trouble::NoEscape)),
        Err(LineFault::NoMemory) => Err(Halt::NoMemory),
    }
}

fn check_cut(text: &[u8]) -> Result<(), Halt<'_>>
    ensures { Finds (cut_trouble text.now (cut text.now)) result }
{
    match cut(text) {
        Some(parts) if parts.word == b"cut".as_slice() => {
            check_number(Number::Count, parts.rest)
        }
        None if text == b"cut".as_slice() => Err(Halt::Trouble(Trouble::WantsCount)),
        _ => Err(Halt::Trouble(Trouble::NoManner(text))),
    }
}

fn check_manner(text: &[u8]) -> Result<(), Halt<'_>>
    ensures { Finds (manner_trouble text.now) result }
{
    if text == b"before".as_slice() || text == b"after".as_slice() || text == b"junk".as_slice() {
        Ok(())
    } else {
        check_cut(text)
    }
}

fn check_sent(alloc: Global, form: Form, text: &[u8]) -> Result<(), Halt<'_>>
    ensures { Finds (sent_trouble form text.now) result }
{
    let Some(parts) = cut(text) else {
        return Err(Halt::Trouble(Trouble::Wants(form)));
    };
    check_number(Number::Client, parts.word)?;
    check_text(alloc, parts.rest)
}

fn check_hold(alloc: Global, text: &[u8]) -> Result<(), Halt<'_>>
    ensures { Finds (hold_trouble text.now) result }
{
    let Some(parts) = cut(text) else {
        return Err(Halt::Trouble(Trouble::Wants(Form::Hold)));
    };
    check_number(Number::Server, parts.word)?;
    let Some(held) = cut(parts.rest) else {
        return Err(Halt::Trouble(Trouble::Wants(Form::Hold)));
    };
    check_key(alloc, held.word)?;
    check_text(alloc, held.rest)
}

fn check_fail(text: &[u8]) -> Result<(), Halt<'_>>
    ensures { Finds (fail_trouble text.now) result }
{
    let Some(parts) = cut(text) else {
        return Err(Halt::Trouble(Trouble::Wants(Form::Fail)));
    };
    check_number(Number::Turn, parts.word)?;
    check_manner(parts.rest)
}

fn check_item_loss(alloc: Global, text: &[u8]) -> Result<(), Halt<'_>>
    ensures { Finds (item_loss_trouble text.now) result }
{
    let Some(parts) = cut(text) else {
        return Err(Halt::Trouble(Trouble::Wants(Form::Lose)));
    };
    check_number(Number::Server, parts.word)?;
    check_key(alloc, parts.rest)
}

fn check_loss<'a>(alloc: Global, word: &'a [u8], text: &'a [u8]) -> Result<(), Halt<'a>>
    ensures { Finds (loss_trouble word.now text.now) result }
{
    match Form::of(word) {
        Some(Form::Lose) => check_item_loss(alloc, text),
        Some(Form::Restart) => check_number(Number::Server, text),
        _ => Err(Halt::Trouble(Trouble::NoLoss(word))),
    }
}

fn check_at(alloc: Global, text: &[u8]) -> Result<(), Halt<'_>>
    ensures { Finds (at_trouble text.now) result }
{
    let Some(parts) = cut(text) else {
        return Err(Halt::Trouble(Trouble::Wants(Form::At)));
    };
    check_number(Number::Turn, parts.word)?;
    let Some(said) = cut(parts.rest) else {
        return Err(Halt::Trouble(Trouble::Wants(Form::At)));
    };
    check_loss(alloc, said.word, said.rest)
}

fn check_form(alloc: Global, form: Form, text: &[u8]) -> Result<(), Halt<'_>>
    ensures { Finds (form_trouble form text.now) result }
{
    match form {
        Form::Piece | Form::Add => check_sent(alloc, form, text),
        Form::Result => check_number(Number::Server, text),
        Form::Hold => check_hold(alloc, text),
        Form::Fail => check_fail(text),
        Form::Lose => check_item_loss(alloc, text),
        Form::Restart => check_number(Number::Server, text),
        Form::At => check_at(alloc, text),
        Form::Moment => check_number(Number::Moment, text),
        Form::Reload => Err(Halt::Trouble(Trouble::NoConfiguration)),
    }
}

/// That a line says an event, or else the first of its parts that can't be read. Of a line `reload JSON` that is the JSON: whether it
/// is a configuration isn't asked here.
///
/// `Ok` comes exactly where [`script_events::text::event::read_event`] reads an event, unless memory was refused.
pub fn check_line(alloc: Global, line: &[u8]) -> Result<(), Halt<'_>>
    ensures { Finds (trouble_in line.now) result }
{
    match cut(line) {
        Some(parts) => match Form::of(parts.word) {
            Some(form) => check_form(alloc, form, parts.rest),
            None => Err(Halt::Trouble(Trouble::NoEvent(parts.word))),
        },
        None => match Form::of(line) {
            Some(form) => Err(Halt::Trouble(Trouble::Wants(form))),
            None => Err(Halt::Trouble(Trouble::NoEvent(line))),
        },
    }
}
