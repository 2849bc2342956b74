//! One client's connection: its stream and what stands at its front, its output, and how each step changes them.

pub mod client_stream;
pub mod front;

pub use client_stream::ClientStream;
pub use front::{Front, Passed, pass};
