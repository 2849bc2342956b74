//! The servers of a configuration: what a server's text says, what an address and a name are, and a set of names that numbers them.

pub mod address;
pub mod name;
pub mod server_text;
pub mod servers;

pub use address::is_address;
pub use name::{address_in, is_server_name};
pub use server_text::read_server;
pub use servers::Servers;
