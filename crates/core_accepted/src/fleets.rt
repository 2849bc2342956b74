//! The gate for fleets of cores, and cores before servers that may apply calls late.

pub mod gates;
pub mod laws;
