//! Which servers a plain tree takes data from, and which its deletes clear; and both for a tree, by its pools.
//!
//! ```text
//! Tree --seen, possible--> what can come of an operation --taking----> servers whose data a read may show
//!                                                        --clearing--> servers that an acknowledged delete has cleared
//!         gate_check: at each place, is what is taken among what is cleared?  --yes--> accepted: every run is fresh
//!                                                                             --no---> a gap; gate_gaps tells why
//! ```
#![tactic(auto)]

pub mod clearing;
pub mod deleting;
pub mod doubts;
pub mod laws;
pub mod pools;
pub mod possible;
pub mod prefixes;
pub mod seen;
pub mod servers;
pub mod stores;
pub mod taking;

pub use clearing::{cleared, clears};
pub use deleting::Deleting;
pub use seen::{At, Seen};
pub use taking::{taken, takes};
