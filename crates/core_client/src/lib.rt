//! One client of the proxy's core: what it sent and is not done, its commands in its own order, and what it was not given yet.
#![tactic(auto)]

pub mod answering;
pub mod at_once;
pub mod client;
pub mod heads;
pub mod marked_ask;
pub mod nexts;
pub mod replying;
pub mod starting;

pub use client::{Client, Pending};
pub use nexts::Next;
