//! What generations of trees may have left on servers: at each place of all of them two marks of a server, in place of a list
//! of trees.
//!
//! ```text
//! mark: of a server at a place > row: of several servers > page: of all servers at a place
//! named: the servers that a tree names there     refining: the places of one tree more     begun: how servers began
//! turning: all pages after one tree more > book: the ledger
//! ```

pub mod begun;
pub mod book;
pub mod class;
pub mod mark;
pub mod named;
pub mod page;
pub mod refining;
pub mod row;
pub mod turning;
pub mod unsound;

pub use book::Ledger;
pub use mark::Mark;
pub use page::Beginning;
pub use unsound::Unsound;
