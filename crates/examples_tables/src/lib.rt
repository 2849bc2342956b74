//! What crates of examples share: tables of examples as text and their readers, configurations by names, texts that are none, and a
//! writer that is full.
//!
//! ```text
//! `example => what is told of it`, a line each --tellers: wrong---------> a Teller tells it: the lines that differ
//! `== NAME`, what is given, `-- STATUS`, a text --tables: all_hold------> a Printer prints it: the first that differs
//! `event => what it gives`, line after line ----playing: play_lines-----> a Stage answers it: the first that differs
//! ```
#![tactic(auto)]

pub mod configs;
pub mod full_writer;
pub mod playing;
pub mod tables;
pub mod tellers;
