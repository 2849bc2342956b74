//! What is passed over after a refused message.

/// What is passed over after the bytes that a refused message used.
#[derive(Clone, Copy, PartialEq, Eq)]
pub enum Skip {
    Nothing,
    /// So many bytes: at most 4,294,967,297.
    Bytes(u64),
    /// All bytes through the next `\n`.
    ThroughNewline,
}
