//! Scripts as text: what their lines say, how they are written as lines, and the lines that a run prints.

pub mod configured;
pub mod escapes;
pub mod event;
pub mod fault;
pub mod front;
pub mod laws;
pub mod lines;
pub mod meaning;
pub mod printer;
pub mod reader;
pub mod words;
