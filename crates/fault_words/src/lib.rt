//! What is wrong with the program's words and with a script's lines: what was given, and what is expected there.
//!
//! ```text
//! arguments --> reading: the nearest name that there is --> WordFault ---------+
//! script    --> script, script_lines: the first bad line, and its trouble -----+--> lines of detail on standard error
//! a configuration's text --> fault_configs: where its fault stands ------------+
//! ```
#![tactic(auto)]

mod columns;
pub mod commands;
pub mod fault;
pub mod reading;
pub mod script;
mod script_lines;

pub use fault::WordFault;
pub use reading::{fault_in_words, key_fault_in_words};
pub use script_lines::{lines_of_bad_line, lines_of_script};
