//! What is wrong with a script: its first bad line, and that in words.

pub mod finding;
pub mod laws;
pub mod lines;
pub mod misfit;
pub mod trouble;
pub mod words;

pub use finding::{BadLine, Wrong, bad_line_in_events, bad_line_in_script};
