//! Places: keys that have one plain tree.

use mc_types::Key;

/// A place of a tree: the keys that the longest of the tree's prefixes begins, or none of them, and whose hash has this
/// residue. All keys of a place have one plain tree.
///
/// Source: mcgate's own.
#[derive(Clone, Copy)]
pub struct Place {
    /// The longest of all prefixes of the tree that begins the keys, or `None` where none does.
    pub prefix: Option<Key>,
    /// What is left of the hash of the keys' hash part, divided by the modulus.
    pub residue: u32,
    /// The least common multiple of the sizes of the tree's pools.
    pub modulus: u32,
}
