//! What is printed of the configurations of a fleet, and by which a proxy of one may run.

pub mod faults;
pub mod lines;
pub mod members;
