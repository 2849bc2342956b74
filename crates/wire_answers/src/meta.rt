//! Meta answers: what the line of one says, read against its ask, and how it is written.

mod codes;
mod line;
mod token;
mod told;
mod writer;

pub use line::{MetaLine, ValueLine, meta_line};
pub use token::data_size;
pub use told::Told;
pub use writer::{put_meta, put_meta_line};
