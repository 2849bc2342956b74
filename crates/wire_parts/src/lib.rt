//! What all readers and writers of the text protocol share: the bytes that came, the tests of a request's words, their
//! refusals, data blocks, how messages follow one another in a stream, and what is to be sent.
//!
//! ```text
//! from a peer: received --> block, parts, key_bytes --> wire_classic, wire_meta --> wire_stream --> asks
//! to a peer:   to_send  <------------------------------ wire_answers  <----------- wire_stream <-- answers
//! ```
//!
//! What can't be read becomes a [`RefusalReason`], and the stream goes on after a [`Skip`].
#![tactic(auto)]

pub mod block;
pub mod key_bytes;
pub mod parts;
pub mod proxy_command;
pub mod received;
pub mod refusal;
pub mod skip;
pub mod to_send;

pub use block::{Rest, after_line};
pub use proxy_command::ProxyCommand;
pub use refusal::RefusalReason;
pub use skip::Skip;
