//! What is told of a command that ended, and of what was done for a client.

use core_commands::Ticket;
use mc_types::SharedAsk;

/// A command that ended: its number, its ask, whether it was a delete that was acknowledged, whether its reply is an error, and the
/// number of the call whose item its reply shows, if it shows one.
#[derive(Drop)]
pub struct Note {
    pub ask: SharedAsk,
    pub from: Option<u64>,
    pub number: u64,
    pub acknowledged: bool,
    pub is_error: bool,
}

/// What was done for a client.
#[derive(Drop)]
pub enum Poll {
    /// Nothing: no whole message is held, and no reply is waited for.
    Idle,
    /// A message that asks mcgate itself was answered.
    Own,
    /// A message was refused.
    Refused,
    /// This call is to be made.
    Call(Ticket),
    /// Nothing: each of its commands waits for an answer.
    Waiting,
    /// Its next command began and waits for its server, or came to the line of its key. It is `Busy` next.
    Queued,
    /// Nothing: a command of it waits for its server, or the next for its key.
    Busy,
    /// A command ended.
    Did(Note),
}
