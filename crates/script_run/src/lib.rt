//! Scripts that step their calls, run through trees of routes on servers in memory, some of them loaded while a script runs.
#![tactic(auto)]

pub mod accepted;
pub mod driver;
mod events;
mod holding;
pub mod log;
mod running;

pub use running::drive_stepped;
