//! What a proxy that runs tells and is told, and what it remembers in files: lines on standard
//! error, the control socket, the end of standard input, the file of a history.
#![tactic(auto)]

pub mod client_news;
pub mod controlling;
pub mod draining;
pub mod events;
pub mod folders;
pub mod input_end;
pub mod lines;
pub mod name_news;
pub mod outages;
pub mod process_news;
pub mod remembering;
pub mod special;
pub mod verdict_news;
