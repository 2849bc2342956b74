//! The escapes in which mcgate prints bytes: in transcripts, and in the faults of configurations.

pub mod printing;

pub use printing::{Escaped, EscapedByte};
