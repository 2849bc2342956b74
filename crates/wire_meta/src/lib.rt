//! The meta requests of memcached's text protocol: how they are read from a client's bytes, and written to a server.
#![tactic(auto)]

pub mod asking;
pub mod command;
pub mod command_line;
pub mod flags;
pub mod laws;
pub mod reader;
pub mod values;
pub mod verbs;
pub mod writer;

pub use command::{Kind, MetaCommand, MetaRead, MetaRequest, Verb};
pub use reader::read_after;
pub use wire_parts::{ProxyCommand, RefusalReason, Skip};
pub use writer::write_ask;
