//! The lines that several commands print: of verdicts, of reloads, of texts that are no
//! configurations, and of where keys live; and the statuses that they end with.
#![tactic(auto)]

pub mod faults;
pub mod key_places;
pub mod reload_lines;
pub mod status;
pub mod verdict;

pub use status::RunFault;
pub use verdict::{Form, write_accepted, write_refusal};
