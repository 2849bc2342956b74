//! How a call fails.

/// How a call fails.
#[derive(Clone, Copy, PartialEq, Eq)]
pub enum Manner {
    /// It isn't applied.
    Before,
    /// It is applied, and its answer is lost.
    After,
    /// It is applied, and only so many bytes of its answer come; it fails where the answer has more.
    Cut(u32),
    /// It is applied, and bytes that are no answer come.
    Junk,
}
