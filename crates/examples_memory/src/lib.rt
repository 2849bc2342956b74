//! A wire in memory, for tests: each far end does what its script says, and the clock goes on where nothing else does.
//!
//! A far end's acts happen in their order: bytes come, cut as they are given; it waits for bytes or for a time; it ends or fails. Limits say
//! how much one read gives and one write takes, how much is taken before the next wait, how much it takes at all, and after how many bytes
//! a write fails. Reports come once for each change, as those of a system do. [`Peers`] reads such scripts, line by line.
#![tactic(auto)]

pub mod acts;
pub mod memory;
pub mod peer;
pub mod peers;

pub use memory::Memory;
pub use peer::{Act, Peer};
pub use peers::Peers;
