//! Laws that are proved for their own sake: no code calls one, and no proof of the program cites one. They say what the
//! definitions amount to, and what can't be done without. What the program rests on stands in the crates below.
#![tactic(auto)]

pub mod core_laws;
pub mod fleet_laws;
pub mod growth_laws;
pub mod late_growth_laws;
pub mod overlap_laws;
pub mod run_laws;
pub mod stale_laws;
pub mod walk_laws;
