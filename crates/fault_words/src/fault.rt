//! The faults of words, and what is said of each.

use crate::commands::{Command, Takes, takes_of};
use mc_types::KeyFault;
use std::fmt;
use std::fmt::Display;
use text_words::escapes::Escaped;

/// What is wrong with a word.
#[derive(Clone, Copy)]
pub enum Cause<'a> {
    /// No command has this name.
    NoCommand(&'a str),
    /// Before a command there is no such flag.
    NoFlag(&'a str),
    /// It is a flag of commands, and stands before them.
    TooEarly(&'a str),
    /// The flag wants a value.
    NoValue(&'static str),
    /// The flag takes no value.
    OwnValue(&'static str),
    /// The flag stands there twice.
    Twice(&'static str),
    /// The flag's value is none of those that it takes.
    BadValue(&'static str, &'a str),
    /// There are more words than the command takes.
    Extra(&'a str),
    /// The flag is missing.
    Missing(&'static str),
    /// The command wants such a word.
    NoWord(&'static str),
    /// The two flags don't go together.
    Apart(&'static str, &'static str),
    /// The first flag stands only beside the second.
    Beside(&'static str, &'static str),
    /// The word is no key.
    NoKey(&'a str, KeyFault),
    /// No proxy is told this.
    NotTold(&'a str),
    /// The word is no level of lines.
    NoLevel(&'a str),
}

/// The first fault of the program's words: what is wrong, after which command, and the name that was likely meant.
///
/// Source: mcgate's own.
#[derive(Clone, Copy)]
pub struct WordFault<'a> {
    /// The command that the words name, if they name one.
    pub command: Option<Command>,
    pub cause: Cause<'a>,
    /// The name that was likely meant: of a command, a flag or a value.
    pub meant: Option<&'static str>,
}

// The levels of lines.
const LEVELS: &str = "error, warn, info or debug";

// What is said behind a word that no proxy is told.
const NOT_TOLD: &str = " is none of drain, reload, status, servers, log LEVEL and where KEY";

// What is said behind a word that is no level.
const NO_LEVEL: &str = ": expected error, warn, info or debug";

// Which word it has to be.
fn wanted_word(flag: &str) -> &'static str {
    match flag {
        "opened" => "any or own",
        "new-servers" => "any, empty or flush",
        "log-level" => LEVELS,
        "unix-mode" => "600, 660 or 666",
        _ => "auto, classic or meta",
    }
}

// What a flag's value has to be.
fn wanted(flag: &str) -> &'static str {
    match takes_of(flag) {
        Takes::Nothing => "no value",
        Takes::File => "the name of a file",
        Takes::Address => "HOST:PORT",
        Takes::Pool => "the name of a pool",
        Takes::Count => "a number in 1..=4294967295",
        Takes::Word => wanted_word(flag),
        Takes::Version => "a text of 1 to 64 printed ASCII bytes (spaces inside alone)",
    }
}

fn key_words(fault: KeyFault) -> &'static str {
    match fault {
        KeyFault::Empty => "it is empty",
        KeyFault::TooLong => "it is longer than 250 bytes",
        KeyFault::BadByte(_) => "it has a space or a control character",
    }
}

// A word that was given, in the escapes, and what is said before and behind it.
fn write_word<W: fmt::Write>(
    f: &mut fmt::Formatter<W>,
    front: &str,
    word: &str,
    behind: &str,
) -> fmt::Result {
    f.write_str(front)?;
    Escaped(word.as_bytes()).fmt(f)?;
    f.write_str(behind)
}

// A flag, and what is said behind it.
fn write_flag<W: fmt::Write>(f: &mut fmt::Formatter<W>, flag: &str, behind: &str) -> fmt::Result {
    write!(f, "--{flag}{behind}")
}

fn write_two_flags<W: fmt::Write>(
    f: &mut fmt::Formatter<W>,
    flag: &str,
    between: &str,
    other: &str,
) -> fmt::Result {
    write_flag(f, flag, between)?;
    write_flag(f, other, "")
}

// That a flag wants a value.
fn write_no_value<W: fmt::Write>(f: &mut fmt::Formatter<W>, flag: &str) -> fmt::Result {
    write_flag(f, flag, " wants ")?;
    write!(f, "{} after it", wanted(flag))
}

fn write_bad_value<W: fmt::Write>(
    f: &mut fmt::Formatter<W>,
    flag: &str,
    text: &str,
) -> fmt::Result {
    write_flag(f, flag, " ")?;
    write_word(f, "", text, ": expected ")?;
    f.write_str(wanted(flag))
}

fn write_missing<W: fmt::Write>(f: &mut fmt::Formatter<W>, flag: &str) -> fmt::Result {
    write_flag(f, flag, " ")?;
    write!(f, "{} is missing", takes_of(flag).value())
}

fn write_no_key<W: fmt::Write>(
    f: &mut fmt::Formatter<W>,
    word: &str,
    fault: KeyFault,
) -> fmt::Result {
    write_word(f, "\"", word, "\" is no key: ")?;
    f.write_str(key_words(fault))
}

impl Display for Cause<'_> {
    fn fmt<W: fmt::Write>(&self, f: &mut fmt::Formatter<W>) -> fmt::Result {
        match self {
            Cause::NoCommand(word) => write_word(f, "unknown command ", word, ""),
            Cause::NoFlag(word) => write_word(f, "unknown flag ", word, ""),
            Cause::TooEarly(word) => write_word(f, "", word, " stands after a command"),
            Cause::NoValue(flag) => write_no_value(f, flag),
            Cause::OwnValue(flag) => write_flag(f, flag, " takes no value"),
            Cause::Twice(flag) => write_flag(f, flag, " stands there twice"),
            Cause::BadValue(flag, text) => write_bad_value(f, flag, text),
            Cause::Extra(word) => write_word(f, "one word too many: ", word, ""),
            Cause::Missing(flag) => write_missing(f, flag),
            Cause::NoWord(word) => write!(f, "a {word} is missing"),
            Cause::Apart(flag, other) => {
                write_two_flags(f, flag, " and ", other)?;
                f.write_str(" don't go together")
            }
            Cause::Beside(flag, other) => write_two_flags(f, flag, " stands only beside ", other),
            Cause::NoKey(word, fault) => write_no_key(f, word, *fault),
            Cause::NotTold(word) => write_word(f, "", word, NOT_TOLD),
            Cause::NoLevel(text) => write_word(f, "log ", text, NO_LEVEL),
        }
    }
}

impl WordFault<'_> {
    /// The words that the command takes, or the commands.
    pub fn usage(&self) -> &'static str {
        match self.command {
            Some(command) => command.usage(),
            None => {
                "mcgate COMMAND, one of check, certify, replay, where, serve, tell, history, slots, plan, cache, loopback and help; mcgate help COMMAND tells of each"
            }
        }
    }

    fn is_flag(&self) -> bool {
        matches!(self.cause, Cause::NoFlag(_))
    }
}

/// The command, what is wrong, and the name that was likely meant: `mcgate serve: --clients 0: expected ..`.
impl Display for WordFault<'_> {
    fn fmt<W: fmt::Write>(&self, f: &mut fmt::Formatter<W>) -> fmt::Result {
        match self.command {
            Some(command) => write!(f, "mcgate {}: {}", command.name(), self.cause)?,
            None => write!(f, "mcgate: {}", self.cause)?,
        }
        match self.meant {
            None => Ok(()),
            Some(name) if self.is_flag() => write!(f, "; did you mean --{name}?"),
            Some(name) => write!(f, "; did you mean {name}?"),
        }
    }
}
