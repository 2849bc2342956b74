//! How the slots of a pool are rewritten: a list as a longer table, and a server more or less, with as few moves as can be and
//! none to a server that had a key of the slot before.

pub mod change;
mod counts;
mod earlier;
mod planning;
pub mod rewriting;
mod spreading;
mod testing;

pub use change::ServerChange;
pub use rewriting::rewritten;
pub use spreading::table_of;
