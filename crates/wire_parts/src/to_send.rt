//! What is to be sent: pieces of text and of shared data, and then text that grows at its end.

pub mod buffer;
pub mod piece;

pub use buffer::SendBuffer;
pub use piece::Piece;
