//! The two kinds of delete.

/// The two kinds of delete.
///
/// Source: memcached's protocol.txt, "Deletion" and "Meta Delete".
#[derive(Clone, Copy, PartialEq, Eq)]
pub enum Deleting {
    /// The classic `delete`.
    Delete,
    /// The meta `md`.
    Md,
}
