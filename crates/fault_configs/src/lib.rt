//! Where a configuration's fault stands, what is expected there, and what was likely meant, in words.
#![tactic(auto)]

pub mod address;
pub mod advice;
pub mod config_lines;
pub mod fields;
pub mod names;
pub mod place;
pub mod scan;
pub mod slip;
pub mod trouble;
pub mod walk;

pub use address::address_trouble;
pub use config_lines::{lines_of_configuration, lines_of_over, lines_of_warnings};
pub use names::nearest;
