//! What the front of a stream holds.

/// What the front of a stream holds: the answer of [`crate::line`].
#[derive(Clone, Copy, Debug, PartialEq, Eq)]
pub enum Line {
    /// No `\n` yet, in fewer than 65,536 bytes.
    More,
    /// The first 65,536 bytes hold no `\n`.
    TooLong,
    /// The line's text is the first `end` bytes, and with its line end it takes `used` bytes.
    At { end: usize, used: usize },
}
