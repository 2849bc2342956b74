//! Commands that have begun and have not ended, and who waits for their keys.
//!
//! ```text
//! core_client: a client's ask --begins with its Claim--> CommandTable --HeldJob: next call--> to a server
//!                 |                                        |      ^                              |
//!      KeyLines: waits, if the key is barred               |      +-----take: its outcome--------+
//!                                                          +--done--> the reply, in the client's own order
//! ```
#![tactic(auto)]

pub mod begun;
pub mod claim;
pub mod command;
pub mod command_table;
pub mod counts;
pub mod guesses;
pub mod held_job;
pub mod key_lines;
pub mod laws;
pub mod owned;
pub mod places;
pub mod sharing;
pub mod spares;
pub mod ticket;
pub mod turns;

pub use claim::Claim;
pub use command::Command;
pub use command_table::CommandTable;
pub use held_job::HeldJob;
pub use key_lines::KeyLines;
pub use sharing::Sharing;
pub use ticket::{OutCall, Ticket};
pub use turns::{Turn, turn_of};
