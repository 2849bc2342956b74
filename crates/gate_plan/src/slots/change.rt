//! What is changed in a pool.

use mc_types::ServerId;

/// A change of a pool's servers.
#[derive(Clone, Copy)]
pub enum ServerChange {
    /// This server is added, which has no slot yet.
    Add(ServerId),
    /// This one is taken out.
    Remove(ServerId),
}
