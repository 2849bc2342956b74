//! What happened to a server.

use mc_types::{Answer, Ask, Key};

/// What happened to a server.
#[derive(Drop)]
pub enum ServerMark {
    /// A call that was applied, whether or not its answer was read.
    Applied {
        ask: Ask,
        /// The stamp that it gives to what it stores.
        stamp: u64,
        answer: Answer,
        /// How many spaces the server put after the number that it stored.
        spaces: u32,
    },
    /// The key was lost: it expired, or was evicted.
    Lost(Key),
    /// The server began again with nothing.
    Restarted,
}
