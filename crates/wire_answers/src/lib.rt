//! Answers of memcached's text protocol, in both dialects: how they are written, and how they are read.
#![tactic(auto)]

mod block_end;
mod first_line;
mod large;
pub mod laws;
mod line_kinds;
pub mod meta;
pub mod reader;
pub mod writer;

pub use large::{ANSWER_LIMIT, large_len};
pub use reader::{AnswerRead, read_answer, read_received};
pub use wire_parts::received::{CUT_FROM, Received, SHARED_FROM};
pub use writer::{data_of, write_answer, write_data_line, write_end, write_value};
