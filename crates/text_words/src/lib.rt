//! Lines, words and numbers of memcached's text protocol, the laws of how they are spelled, and the escapes in which
//! bytes are printed.
//!
//! ```text
//! bytes --line--> a line --next_word--> words --number--> numbers        (reading, ends; word; number)
//! bytes <----------- laws: what is written is read back ------------ values
//! bytes --Escaped--> printable text                                      (escapes)
//! ```
#![tactic(auto)]

pub mod arithmetic;
pub mod ends;
pub mod escapes;
pub mod laws;
pub mod number;
pub mod reading;
pub mod search;
pub mod word;

pub use ends::Line;
pub use reading::line;
