//! What a restart must not forget: the configurations that were accepted, oldest first, as the lines of a text, and what they
//! may have left on servers.
#![tactic(auto)]

pub mod concerns;
pub mod fault;
pub mod generation;
pub mod history;
pub mod history_file;
pub mod laws;
pub mod lines;
pub mod reading;
pub mod remembered;
pub mod spelled;
pub mod told;
pub mod writing;

pub use concerns::{Concern, Concerns, find_concerns};
pub use fault::{HistoryFault, NextFault};
pub use generation::Generation;
pub use history::History;
pub use history_file::HistoryFile;
pub use reading::read_history;
pub use told::{advice_on, write_fault, write_meaning, write_remembered};
