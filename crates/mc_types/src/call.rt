//! Servers by their numbers, and whose data a call carries.

ghost use Rattle.std.specs.Prelude.{◌≡◌, IfOk};

use crate::answer::Answer;
use std::alloc::AllocError;
use std::marker::Model;

/// A server, by its place in the list of the configuration's addresses.
#[derive(Clone, Copy, PartialEq, Eq)]
pub struct ServerId {
    number: u32,
}

impl Model for ServerId {
    ghost use Rattle.std.specs.Prelude.{ℕ};

    ghost Value = { ℕ };

    ghost view = { λ s. s.number };

    ghost inverse = { λ n. record { number = n } };
}

impl ServerId {
    /// The server of this place.
    pub fn new(number: u32) -> ServerId
        ensures { result ≡ number }
    {
        ServerId { number }
    }

    /// The place, counted from 0.
    pub fn number(self) -> u32
        ensures { result ≡ self }
    {
        self.number
    }
}

/// Whose data a call carries: the client's, or those that call i of the same command was answered.
#[derive(Clone, Copy)]
pub enum Origin {
    Client,
    CopyOf(u64),
}

/// How a call of a server ended, as the proxy sees it.
#[derive(Drop)]
pub enum Outcome {
    Answered(Answer),
    Failed,
}

impl Outcome {
    /// This outcome once more, with its data shared. The only error is running out of memory.
    pub fn copy(&self) -> Result<Outcome, AllocError>
        ensures { IfOk result (λ outcome. outcome ≡ self.now) }
    {
        match self {
            Outcome::Answered(answer) => Ok(Outcome::Answered(answer.copy()?)),
            Outcome::Failed => Ok(Outcome::Failed),
        }
    }
}
