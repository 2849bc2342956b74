//! What is wrong, in words.

ghost use Rattle.std.specs.Prelude.{◌≡◌, Some};
ghost use Rattle.fault_words.specs.Words.{form_words, number_words, key_words, trouble_words, misfit_words, wrong_words, bad_line_words};

use crate::script::finding::{BadLine, Wrong};
use crate::script::misfit::Misfit;
use crate::script::trouble::{Form, Number, Trouble};
use mc_types::KeyFault;
use std::fmt;
use std::fmt::Display;
use text_words::escapes::Escaped;

// What the words of a line are.
fn form_words(form: Form) -> &'static str
    ensures { result.now ≡ form_words form }
{
    match form {
        Form::Piece => "wanted: > C TEXT",
        Form::Add => "wanted: + C TEXT",
        Form::Result => "wanted: result S",
        Form::Hold => "wanted: hold S KEY TEXT",
        Form::Fail => "wanted: fail K before, after, cut B or junk",
        Form::Lose => "wanted: lose S KEY",
        Form::Restart => "wanted: restart S",
        Form::At => "wanted: at K lose S KEY, or at K restart S",
        Form::Moment => "wanted: moment N",
        Form::Reload => "wanted: reload JSON",
    }
}

// What a word is not.
fn number_words(number: Number) -> &'static str
    ensures { result.now ≡ number_words number }
{
    match number {
        Number::Client => "no client, 0 to 63: ",
        Number::Server => "no number of a server: ",
        Number::Turn => "no number of a call, 1 to 4294967295: ",
        Number::Count => "no count of bytes, 0 to 4294967295: ",
        Number::Moment => "no time, 0 to 9223372036854775807: ",
    }
}

fn key_words(fault: KeyFault) -> &'static str
    ensures { result.now ≡ key_words fault }
{
    match fault {
        KeyFault::Empty => "a key is empty",
        KeyFault::TooLong => "a key is longer than 250 bytes",
        KeyFault::BadByte(_) => "a key has a space or a control character",
    }
}

/// The part of a line that can't be read, in words: what of the line is printed is in the escapes.
impl Display for Trouble<'_> {
    ghost output = { λ t. Some (trouble_words t) };

    fn fmt<W: fmt::Write>(&self, f: &mut fmt::Formatter<W>) -> fmt::Result {
        match self {
            Trouble::NoEvent(word) => write!(f, "no event has this word: {}", Escaped(word)),
            Trouble::Wants(form) => f.write_str(form_words(*form)),
            Trouble::NoNumber(kind, word) => {
                write!(f, "{}{}", number_words(*kind), Escaped(word))
            }
            Trouble::NoEscape => f.write_str(
                "a backslash that begins none of \\r, \\n, \\\\ and \\xHH",
            ),
            Trouble::NoKey(fault) => f.write_str(key_words(*fault)),
            Trouble::NoManner(word) => {
                write!(
                    f,
                    "neither before, after, cut B nor junk: {}",
                    Escaped(word)
                )
            }
            Trouble::WantsCount => f.write_str("wanted: fail K cut B"),
            Trouble::NoLoss(word) => write!(f, "neither lose nor restart: {}", Escaped(word)),
            Trouble::NoConfiguration => f.write_str(
                "reload wants a configuration: mcgate check says what is wrong with it",
            ),
        }
    }
}

/// Why an event can't be, in words.
impl Display for Misfit {
    ghost output = { λ m. Some (misfit_words m) };

    fn fmt<W: fmt::Write>(&self, f: &mut fmt::Formatter<W>) -> fmt::Result {
        match self {
            Misfit::NoClient(client) => write!(f, "no client, 0 to 63: {client}"),
            Misfit::NoServer(server) => write!(f, "no such server: {server}"),
            Misfit::TurnZero => f.write_str("calls are counted from 1"),
            Misfit::BeforeZero => f.write_str("a time before 0"),
            Misfit::TooMuch => f.write_str("all pieces together exceed 16777216 bytes"),
            Misfit::AddsTooMuch => {
                f.write_str("a client added more than 524288 bytes since the last >")
            }
            Misfit::TooLong => f.write_str("more than 1048576 bytes are held"),
            Misfit::TooLate => f.write_str("hold after a piece, a lose or a restart"),
        }
    }
}

/// What is wrong with a line, in words.
impl Display for Wrong<'_> {
    ghost output = { λ w. Some (wrong_words w) };

    fn fmt<W: fmt::Write>(&self, f: &mut fmt::Formatter<W>) -> fmt::Result {
        match self {
            Wrong::Pool => f.write_str("wanted: pool N, 1 to 1024"),
            Wrong::Unread(trouble) => trouble.fmt(f),
            Wrong::Unfit(misfit) => misfit.fmt(f),
        }
    }
}

/// The line's number, and what is wrong with it: `line N: ` and words.
///
/// Source: mcgate's own.
impl Display for BadLine<'_> {
    ghost output = { λ b. Some (bad_line_words b) };

    fn fmt<W: fmt::Write>(&self, f: &mut fmt::Formatter<W>) -> fmt::Result {
        write!(f, "line {}: {}", self.number, self.wrong)
    }
}
