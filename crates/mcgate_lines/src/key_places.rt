//! Where keys live: their hash, their place in a tree, which servers each operation may ask, and the limits of these.

pub mod asking;
pub mod limits;
pub mod running;
pub mod writing;

pub use running::run_where;
