//! Whether what is computed of plain trees is what their words say: each word of a few thousand small ones is written out.

mod comparing;
mod growing;
mod words;

pub use comparing::{ComparedCounts, compare_all};
