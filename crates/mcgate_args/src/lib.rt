//! What the program's arguments ask for, and how each input ends: what is printed on which stream, and the exit status.
#![tactic(auto)]

pub mod arguments;
pub mod bad_lines;
pub mod beginning_arguments;
pub mod cache_arguments;
pub mod certify_arguments;
pub mod certifying;
pub mod commands;
pub mod details;
pub mod ends;
pub mod fleets;
pub mod history_arguments;
pub mod log_arguments;
pub mod loopback_arguments;
pub mod plan_arguments;
pub mod plans;
pub mod refusal_details;
pub mod serve_arguments;
pub mod slots;
pub mod tell_arguments;
