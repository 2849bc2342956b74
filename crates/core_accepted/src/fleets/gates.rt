//! Fleets of proxies whose commands run by trees that cover one another, and the gate for them.

pub mod copied;
pub mod judging;
pub mod laws;
