//! What the program's commands do that need neither sockets nor a clock: from a job and the texts
//! that it names to what is printed, what is said on standard error, and the exit status. The
//! program gives them the texts of files, `examples_rows` those of its rows.
#![tactic(auto)]

pub mod fleets;
pub mod histories;
pub mod inputs;
pub mod jobs;
pub mod slots;
pub mod tasks;

pub use inputs::Inputs;
pub use jobs::{job_of, run_job};
