//! The servers of a script whose calls come apart from their results: their caches, one clock, and the failures and losses that
//! are named for calls to come.

mod calling;
mod cutting;
mod event;
pub mod laws;
pub mod losing;
mod manner;
mod moment;
mod servers;

pub use event::{FleetFault, Loss, Made};
pub use manner::Manner;
pub use servers::{CAPACITY, ScriptServers};
