//! On which servers a plain tree's commands may leave an item where nothing was held.

pub mod laws;
pub mod putting;

pub use putting::puts;
