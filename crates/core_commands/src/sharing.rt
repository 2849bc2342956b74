//! Which commands may be under way together on one key.

/// Which commands of different clients may be under way together on one key. A client's own commands on one key come one after
/// another by either rule.
#[derive(Clone, Copy)]
pub enum Sharing {
    /// None: each command has its key alone.
    Alone,
    /// All but a delete and a command that may copy an item from one server to another.
    Shared,
}
