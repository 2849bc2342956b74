//! Scripts: what clients send, which calls fail, what is lost, when configurations are loaded, and what each client
//! gets; and how a script is written and read as text ([`text`]).
//!
//! ```text
//! text --text::reader--> Script: Events --script_run--> core_proxy <--calls, results--> servers
//!                                           |
//!                                           +--> Transcript, Report --text::printer--> lines
//! ```
#![tactic(auto)]

pub mod bad;
pub mod script;
pub mod servers;
pub mod text;

pub use bad::first_bad_event;
pub use script::{DriveFault, Event, Output, PIECE_CUT, Reload, Report, Script, Transcript};
pub use servers::{Loss, Manner};
