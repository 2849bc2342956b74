//! An input, whole: its bytes as text, or why they are none.

pub mod reading;

pub use reading::{INPUT_LIMIT, InputFault, fault_of, read_input, read_input_noting};
