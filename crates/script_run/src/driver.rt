//! The core on the servers of a script: clients' bytes come, calls go out and have their results, and what was done stands in a log.

mod counting;
mod found;
mod runner;
mod tally;

pub use runner::Runner;
pub use tally::Tally;
