//! How to get from one configuration to another: the configurations between them, and what the judge says of each; and how the
//! slots of a pool are rewritten ([`slots`]).
//!
//! ```text
//! two texts --merging (renaming)--> the texts between them --steps--> verdicts, one after another --told--> words
//! ```
#![tactic(auto)]

pub mod merging;
pub mod renaming;
pub mod slots;
pub mod steps;
pub mod told;

pub use told::{Planned, write_plan, write_plan_from};
