//! The freshness gate: it accepts configurations of which every run is fresh, by a certificate that a small checker
//! tests, and tells why others are refused. `places` sorts keys into the places of a tree.
#![tactic(auto)]

pub mod accepted;
mod classes;
mod finding;
pub mod gap;
pub mod gate;
pub mod judging;
pub mod laws;
pub mod numbers;
mod pairs;
pub mod places;
pub mod reloading;
mod shapes;
mod validity;

pub use accepted::Accepted;
pub use gap::{Gap, Reason, Refused};
pub use gate::check;
pub use judging::{judge, judge_by, untabled};
pub use reloading::ReloadFault;
