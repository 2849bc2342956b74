//! One end of a connection over a wire: what came over it, and what is to be sent.

pub mod conn;
pub mod sending;
pub mod turned_away;

pub use conn::{Conn, Got, Limits, Sent};
pub use sending::send;
pub use turned_away::turn_away;
