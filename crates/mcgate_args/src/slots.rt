//! `mcgate slots`: what its arguments ask for, and the configuration that it prints.

pub mod arguments;
pub mod choosing;
pub mod fault;
pub mod text;

pub use arguments::{SlotsChange, SlotsJob};
pub use fault::SlotsFault;
pub use text::rewritten_text;
