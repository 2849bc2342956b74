//! Pictures of configurations in Graphviz's language: the tree, its pools and their servers, and of a gap the way that a read takes.
#![tactic(auto)]

pub mod alike;
pub mod counting;
pub mod drawing;
pub mod edges;
pub mod labels;
pub mod marking;
pub mod phrases;
pub mod picture;
pub mod statements;

pub use picture::{write_gap_picture, write_picture};
