//! Why a place has a gap: the way by which a read reaches a server, what becomes of each server there, by which route
//! deletes go, and that in words, with the names of pools; and the run that shows it.
#![tactic(auto)]

pub mod explanation;
pub mod kinds;
pub mod leaks;
pub mod names;
pub mod phrases;
pub mod pointing;
pub mod pool_words;
pub mod pools;
pub mod quoting;
pub mod server_uses;
pub mod sites;
pub mod spelling;
pub mod ways;
pub mod writing;

pub use explanation::{Explanation, explain};
pub use pools::{ConfigPool, read_pools};
pub use server_uses::ServerUse;
pub use sites::write_changes;
pub use ways::{Listed, WayStep};
pub use writing::write_explanation;
