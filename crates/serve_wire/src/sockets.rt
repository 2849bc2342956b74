//! The wire over real sockets. It is read by eye: each method makes one call of the system and notes what that gave.

pub mod listener;
pub mod open;
pub mod options;
pub mod sockets;

pub use listener::Listener;
pub use sockets::Sockets;
