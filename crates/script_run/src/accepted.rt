//! What the gate says to the configurations that a script loads.

pub mod judging;

pub use judging::{Judged, Loading};
