//! The classic requests of memcached's text protocol: how they are read from a client's bytes, and written to a server.
#![tactic(auto)]

pub mod asking;
pub mod command;
pub mod command_line;
pub mod keyed;
pub mod laws;
pub mod next_key;
pub mod parts;
pub mod reader;
pub mod retrieval;
pub mod stores;
pub mod verbs;
pub mod writer;

pub use asking::Asks;
pub use command::{ClassicRead, ClassicRequest};
pub use reader::read_after;
pub use wire_parts::{ProxyCommand, RefusalReason, Skip};
pub use writer::{write_ask, write_store_line};
