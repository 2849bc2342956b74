//! Runs of clients' commands over servers that may fail and forget, and when no deleted value is served.
//!
//! ```text
//! log of many clients   --proofs/OverlapRuns-->  run  --laws-->  fresh, or not
//! (specs/Overlap: what came,                     (specs/Run:     (specs/Freshness: no reply shows what an
//!  what was called, what went out)                one event       acknowledged delete should have removed)
//!                                                 after another)
//! ```
//!
//! There is no code: what counts are `specs/`, and the laws that say what follows from what. The laws of logs, and runs
//! that aren't fresh, are in `fresh_theory`.
#![tactic(auto)]

pub mod laws;

pub use laws::HasWords;
