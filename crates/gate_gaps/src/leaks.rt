//! Scripts that leak: for a gap of a tree, a run in which a delete is acknowledged and an older item is shown.

pub mod laws;
pub mod turns;
