//! What there is to tell of a server's link.

ghost use Rattle.std.specs.Prelude.{◌≡◌, true, false, Some};
ghost use Rattle.serve_links.specs.Talks.{Apart, Ending, standing_after};

use std::fmt;
use std::fmt::Display;

/// Why a link failed.
#[derive(Clone, Copy, PartialEq, Eq)]
pub enum Cause {
    /// No connection could be made.
    Unreachable,
    /// A connection took too long to stand.
    ConnectLate,
    /// Late answers didn't come for too long.
    AnswerLate,
    /// The server closed the connection.
    Closed,
    /// Reading or writing failed.
    Broken,
    /// The server sent what begins no answer to the oldest call, or what nothing asked for.
    ForeignAnswer,
    /// There was no room for what it sent: as much was held of it as may be ([`crate::MOST_HELD`]), with no whole answer in it.
    NoRoom,
    /// As many reads in a row as were set brought no whole answer.
    VainReads,
}

/// All causes.
pub const CAUSES: [Cause; 8] = [
    Cause::Unreachable,
    Cause::ConnectLate,
    Cause::AnswerLate,
    Cause::Closed,
    Cause::Broken,
    Cause::ForeignAnswer,
    Cause::NoRoom,
    Cause::VainReads,
];

impl Cause {
    /// Whether a connection that is given up for it is closed only once its end has come: it stands still, and its server may apply what came over it.
    pub fn drains(self) -> bool
        ensures ends { result ≡ true → standing_after (Some self) ≡ Ending }
        ensures closes { result ≡ false → standing_after (Some self) ≡ Apart }
    {
        match self {
            Cause::ForeignAnswer | Cause::NoRoom | Cause::VainReads => true,
            Cause::Unreachable
            | Cause::ConnectLate
            | Cause::AnswerLate
            | Cause::Closed
            | Cause::Broken => false,
        }
    }

    /// Its name where failures are counted.
    pub fn name(self) -> &'static str {
        match self {
            Cause::Unreachable => "unreachable",
            Cause::ConnectLate => "connect_late",
            Cause::AnswerLate => "answer_late",
            Cause::Closed => "closed",
            Cause::Broken => "broken",
            Cause::ForeignAnswer => "foreign",
            Cause::NoRoom => "no_room",
            Cause::VainReads => "vain_reads",
        }
    }
}

/// What happened to a server's link.
#[derive(Clone, Copy, PartialEq, Eq)]
pub enum LinkNews {
    /// A connection stands, and its server wasn't down.
    Opened,
    /// It failed, so many times in a row since the server last answered.
    Failed(Cause, u32),
    /// A call took too long: its calls fail until the server has answered those that were out.
    Late,
    /// The server has answered again since a connection failed, or all calls that were late.
    Back,
}

// Why a link failed, in words.
fn words_of(cause: Cause) -> &'static str {
    match cause {
        Cause::Unreachable => "no connection could be made",
        Cause::ConnectLate => "a connection took too long to stand",
        Cause::AnswerLate => "late answers didn't come",
        Cause::Closed => "it closed the connection",
        Cause::Broken => "reading or writing failed",
        Cause::ForeignAnswer => "it sent what is no answer to the oldest call",
        Cause::NoRoom => "it sent too much that is no whole answer",
        Cause::VainReads => "too many reads brought no whole answer",
    }
}

impl Display for LinkNews {
    fn fmt<W: fmt::Write>(&self, f: &mut fmt::Formatter<W>) -> fmt::Result {
        match *self {
            LinkNews::Opened => f.write_str("connected"),
            LinkNews::Late => f.write_str("late: a call took too long"),
            LinkNews::Back => f.write_str("back"),
            LinkNews::Failed(cause, times) => {
                let words = words_of(cause);
                write!(f, "failed: {words}, {times} in a row")
            }
        }
    }
}
