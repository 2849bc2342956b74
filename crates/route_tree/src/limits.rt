//! The limits of trees, stated once for all crates. They are mcgate's own.

/// The most routes of a tree, each counted three times for every `cold` that it stands in; and so the most calls of a command.
pub const ROUTE_LIMIT: u32 = 4_096;

/// How many levels a tree has at most, the root among them.
pub const DEPTH_LIMIT: u32 = 32;

/// The most slots of a pool: each server has as many as its weight.
pub const SLOT_LIMIT: u32 = 2_048;

/// The most servers that a pool lists.
pub const POOL_LIMIT: u32 = 1_024;
