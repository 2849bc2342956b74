//! The names in configurations: of routes, of the fields of each, and of operations.

pub mod holders;
pub mod kinds;
pub mod words;

pub use holders::{Holder, is_field};
pub use kinds::{Kind, Lists, kind_of};
pub use words::{op_of, rest_after};
