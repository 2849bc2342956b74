//! What a script holds, and what comes of driving it.

use crate::servers::{Loss, Manner};
use mc_types::{Key, ServerId};
use route_json::Config;

/// One event of a script.
#[derive(Drop)]
pub enum Event {
    /// These bytes come from a client, 0 to 63. All that is complete is done, each call that is out has its result, that of the
    /// least server first, and the new output is handed out (`>`).
    Piece(u8, Vec<u8>),
    /// These bytes come from a client, 0 to 63. All that can be done without a result is done, and the new output is handed out
    /// (`+`).
    Add(u8, Vec<u8>),
    /// The call that is out at the server has its result, where there is one; then all that can be done without another is done,
    /// and the new output is handed out (`result`).
    Result(ServerId),
    /// The server holds these data under the key before the run: flags 0, no expiry, stamp 0.
    Hold(ServerId, Key, Vec<u8>),
    /// The call of this turn, counted from here and from 1 as calls have their results, fails. Of two that name one call, the later
    /// counts.
    Fail(u32, Manner),
    /// Something is lost just before the call of this turn, counted in the same way. Several losses at one call happen in the order
    /// of the script; where that call never comes, nothing is lost.
    At(u32, Loss),
    /// Something is lost now.
    Now(Loss),
    /// The time from now on, in seconds; 0 at first.
    Moment(i64),
}

/// The most bytes of a piece that come at once: a longer piece comes in cuts of so many and a rest, and after each of them each call
/// that is out has its result.
pub const PIECE_CUT: usize = 65_536;

/// What clients send and what befalls servers, in order.
#[derive(Drop)]
pub struct Script {
    pub events: Vec<Event>,
}

/// A configuration that is loaded while a script runs: before the event of this place, counted from 0, or after the last one
/// where the place is the number of events.
#[derive(Drop)]
pub struct Reload {
    pub at: usize,
    pub config: Config,
}

/// New output of a client.
#[derive(Drop)]
pub struct Output {
    pub client: u8,
    pub bytes: Vec<u8>,
}

/// What was handed out: after each piece, and each result by hand, the new output of each client that has any, in rising number.
#[derive(Drop)]
pub struct Transcript {
    pub shown: Vec<Output>,
}

/// What a script did.
#[derive(Clone, Copy)]
pub struct Report {
    /// The client commands, each on one key.
    pub commands: u64,
    /// The server calls.
    pub calls: u64,
    /// The commands that showed an item whose stamp is at most the number of an earlier acknowledged delete of its key.
    pub stale: u64,
}

/// Why a script was not run to its end.
#[derive(Clone, Copy)]
pub enum DriveFault {
    /// The event of this place, counted from 0, can't be: found before anything happens.
    BadEvent(usize),
    /// Memory was refused: the transcript holds what was handed out before.
    NoMemory,
    /// The last command or call number, 2^64 - 1, was given out: the transcript holds what was handed out before.
    Spent,
}
