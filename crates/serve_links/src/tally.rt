//! What an end has done so far, beside its core. A count that reaches the greatest number stays there.

ghost use Rattle.std.specs.Prelude.{◌≡◌, ◌<◌};
ghost use Rattle.core_accepted.specs.Tallies.{one_more};
ghost use Rattle.serve_links.specs.Counting.{more_by, span_of, with_answer, with_failure};

use crate::news::Cause;
use serve_clients::Departures;

/// What an end has done so far, beside its core.
#[derive(Clone, Copy)]
pub struct Tally {
    /// How many bytes it has read of its clients.
    pub read: u64,
    /// How many bytes it had for them, sent or not.
    pub shown: u64,
    /// How many of its clients have gone, and for what.
    pub gone: Departures,
    /// How often the system refused to accept a connection.
    pub unaccepted: u64,
}

/// What has become of the calls of a server that went out.
#[derive(Clone, Copy)]
pub struct CallTally {
    /// How many were answered.
    pub answered: u64,
    /// How many have failed.
    pub failed: u64,
    /// How long those took together that were answered, in microseconds.
    pub micros: u64,
    // How many of these took so long, by the place of the time.
    spans: [u64; 11],
}

/// The times that are told apart of answers, in microseconds: one took at most the first, or more than that and at most the next, and so on, or more
/// than the last.
pub const SPANS: [u64; 10] = [
    100, 250, 500, 1_000, 2_500, 5_000, 10_000, 50_000, 250_000, 1_000_000,
];

/// What has become of a link so far.
#[derive(Clone, Copy)]
pub struct LinkTally {
    /// How many of its connections stood.
    pub stood: u64,
    /// How often a call of it was late.
    pub late: u64,
    /// How many calls of it have failed that never went out.
    pub unsent: u64,
    // How often it failed for each cause.
    failed: [u64; 8],
}

// The place of a cause among all.
fn cause_place(cause: Cause) -> usize
    ensures { result < 8 }
{
    match cause {
        Cause::Unreachable => 0,
        Cause::ConnectLate => 1,
        Cause::Closed => 2,
        Cause::Broken => 3,
        Cause::ForeignAnswer => 4,
        Cause::VainReads => 5,
        Cause::AnswerLate => 6,
        Cause::NoRoom => 7,
    }
}

// The place of a time among those that are told apart.
fn span_of(micros: u64) -> usize
    ensures place { result ≡ span_of micros }
    ensures bound { result < 11 }
{
    match micros {
        ..=100 => 0,
        ..=250 => 1,
        ..=500 => 2,
        ..=1_000 => 3,
        ..=2_500 => 4,
        ..=5_000 => 5,
        ..=10_000 => 6,
        ..=50_000 => 7,
        ..=250_000 => 8,
        ..=1_000_000 => 9,
        _ => 10,
    }
}

impl Tally {
    /// Nothing yet.
    pub fn new() -> Tally {
        Tally {
            read: 0,
            shown: 0,
            gone: Departures::new(),
            unaccepted: 0,
        }
    }

    /// So many bytes were read.
    pub fn note_read(&mut self, count: usize)
        ensures { self.new ≡ record self.old { read = more_by count self.old.read } }
    {
        self.read = self.read.saturating_add(count as u64);
    }

    /// There are so many bytes to send.
    pub fn note_shown(&mut self, count: usize)
        ensures { self.new ≡ record self.old { shown = more_by count self.old.shown } }
    {
        self.shown = self.shown.saturating_add(count as u64);
    }

    /// The system refused to accept a connection.
    pub fn note_unaccepted(&mut self)
        ensures { self.new ≡ record self.old { unaccepted = one_more self.old.unaccepted } }
    {
        self.unaccepted = self.unaccepted.saturating_add(1);
    }
}

impl CallTally {
    /// None yet.
    pub fn new() -> CallTally {
        CallTally {
            answered: 0,
            failed: 0,
            micros: 0,
            spans: [0; 11],
        }
    }

    /// One was answered, so many microseconds after it went out.
    pub fn note_answered(&mut self, micros: u64)
        ensures { self.new ≡ with_answer micros self.old }
    {
        self.answered = self.answered.saturating_add(1);
        self.micros = self.micros.saturating_add(micros);
        let place = span_of(micros);
        self.spans[place] = self.spans[place].saturating_add(1);
    }

    /// One has failed.
    pub fn note_failed(&mut self)
        ensures { self.new ≡ with_failure self.old }
    {
        self.failed = self.failed.saturating_add(1);
    }

    /// How many were answered in times of this place: of [`SPANS`], or after these of longer ones.
    pub fn spans(&self) -> &[u64] {
        &self.spans
    }
}

impl LinkTally {
    /// Nothing yet.
    pub fn new() -> LinkTally {
        LinkTally {
            stood: 0,
            late: 0,
            unsent: 0,
            failed: [0; 8],
        }
    }

    /// A connection stands.
    pub fn note_stood(&mut self) {
        self.stood = self.stood.saturating_add(1);
    }

    /// A call of it is late.
    pub fn note_late(&mut self) {
        self.late = self.late.saturating_add(1);
    }

    /// So many calls of it have failed that never went out.
    pub fn note_unsent(&mut self, count: usize) {
        self.unsent = self.unsent.saturating_add(count as u64);
    }

    /// It failed.
    pub fn note_failed(&mut self, cause: Cause) {
        let place = cause_place(cause);
        self.failed[place] = self.failed[place].saturating_add(1);
    }

    /// How often it failed for this cause.
    pub fn failed(&self, cause: Cause) -> u64 {
        self.failed[cause_place(cause)]
    }
}
