//! Scripts as lines of text: what is written here is read by [`crate::text::reader`].

pub mod laws;
pub mod writing;

pub use writing::write_script;
