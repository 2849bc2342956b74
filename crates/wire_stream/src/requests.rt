//! The requests of both dialects of memcached's text protocol, as one client may mix them: how they are read from its bytes,
//! and how asks are written to a server, each in its dialect.

pub mod laws;
pub mod other_protocol;
pub mod reader;
pub mod request;
pub mod writer;

pub use reader::{Read, read_request};
pub use request::{Asks, Request};
pub use writer::write_ask;
