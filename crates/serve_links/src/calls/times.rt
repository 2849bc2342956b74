//! When the calls of one server went out that are out, and what has become of those that aren't any more.

ghost use Rattle.std.specs.Prelude.{◌≡◌, ◌<◌, OnOk};
ghost use Rattle.std.specs.VecDeque.{deque_len, deque_capacity};
ghost use Rattle.mc_types.specs.Fits.{is_error};
ghost use Rattle.serve_links.specs.Counting.{took, with_call_outcome, with_error, with_outcome_error};

use crate::tally::CallTally;
use mc_types::{Answer, Outcome};
use std::alloc::{AllocError, Global};
use std::collections::VecDeque;

// Whether an answer is an error line.
fn says_error(answer: &Answer) -> bool
    ensures { result ≡ is_error answer.now }
{
    match answer {
        Answer::Error | Answer::ClientError(_) | Answer::ServerError(_) => true,
        _ => false,
    }
}

/// Times of the calls of one server, in microseconds.
#[derive(Drop)]
pub struct CallTimes {
    // When those that are out went out, the one that went out first in front.
    went: VecDeque<u64>,
    // When bytes of the server came last.
    came: u64,
    tally: CallTally,
    // How many of their answers were errors.
    errors: u64,
}

impl CallTimes {
    /// No call has gone out. It takes no memory.
    pub fn new(alloc: Global) -> CallTimes {
        CallTimes {
            went: VecDeque::new(alloc),
            came: 0,
            tally: CallTally::new(),
            errors: 0,
        }
    }

    /// There is room for the next one.
    pub fn reserve(&mut self) -> Result<(), AllocError>
        ensures { OnOk result (deque_len self.new.went < deque_capacity self.new.went) }
    {
        self.went.reserve(1)
    }

    /// A call goes out now.
    pub fn note_gone(&mut self, now: u64)
        requires { deque_len self.old.went < deque_capacity self.old.went }
        ensures { self.new.tally ≡ self.old.tally }
    {
        self.went.push_back_reserved(now);
    }

    /// Bytes of the server come now.
    pub fn note_came(&mut self, now: u64)
        ensures { self.new.tally ≡ self.old.tally }
    {
        self.came = now;
    }

    // How long the first of those that are out has taken, where the bytes that came last answer it. It is out no more.
    #[tactic(auto, using(crate::proofs::Counted::took_first, crate::proofs::Counted::took_none))]
    fn end_first(&mut self) -> u64
        ensures took { result ≡ took self.old.went.items self.old.came }
        ensures tally { self.new.tally ≡ self.old.tally }
        ensures errors { self.new.errors ≡ self.old.errors }
    {
        match self.went.pop_front() {
            Some(went) => self.came.saturating_sub(went),
            None => 0,
        }
    }

    /// The first of those that are out had this outcome.
    pub fn note_settled(&mut self, outcome: &Outcome)
        ensures tally { self.new.tally ≡ with_call_outcome outcome.now self.old }
        ensures errors { self.new.errors ≡ with_outcome_error outcome.now self.old.errors }
    {
        let micros = self.end_first();
        match outcome {
            Outcome::Answered(answer) => {
                self.tally.note_answered(micros);
                self.note_said(answer)
            }
            Outcome::Failed => self.tally.note_failed(),
        }
    }

    // One was answered this.
    fn note_said(&mut self, answer: &Answer)
        ensures { self.new ≡ record self.old { errors = with_error (is_error answer.now) self.old.errors } }
    {
        if says_error(answer) {
            self.errors = self.errors.saturating_add(1);
        }
    }

    /// What has become of them.
    pub fn tally(&self) -> CallTally
        ensures { result ≡ self.now.tally }
    {
        self.tally
    }

    /// How many of their answers were errors.
    pub fn errors(&self) -> u64
        ensures { result ≡ self.now.errors }
    {
        self.errors
    }
}
