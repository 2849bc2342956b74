//! A script's text, replayed: through a tree that the gate accepts, or through any.
#![tactic(auto)]

pub mod growing;
pub mod holds;
pub mod judging;
pub mod pairing;
pub mod replaying;
mod running;
mod transcripts;

pub use judging::Judging;
pub use replaying::{run_replay, run_replay_over};
