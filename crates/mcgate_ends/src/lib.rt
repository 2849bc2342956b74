//! What commands take as their input and how they end, apart from what they do between: why they
//! stop, lines of detail, histories, fleets, and what `serve` is asked to do.
#![tactic(auto)]

pub mod concern_lines;
pub mod details;
pub mod ends;
pub mod fleets;
pub mod histories;
pub mod input;
pub mod input_text;
pub mod logs;
pub mod serve_job;

pub use details::Details;
pub use ends::Stop;
pub use input_text::InputFault;
pub use serve_job::ServeJob;
