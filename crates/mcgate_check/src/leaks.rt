//! Refusal runs: for a gap of a configuration, a script whose run shows an item that is older than a delete.

pub mod commands;
pub mod failures;
pub mod keys;
pub mod run;
pub mod script;

pub use run::{is_stale, refusal_run};
