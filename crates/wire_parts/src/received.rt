//! Bytes that came from a client or a server: where they stand, the data that are cut from them, and the buffer that they come in.

pub mod buffer;
pub mod received;

pub use buffer::ReceiveBuffer;
pub use received::{CUT_FROM, Received, SHARED_FROM};
