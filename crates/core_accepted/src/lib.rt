//! The core that is served, with the gate's word on its trees where the gate was asked: then, whatever its clients and servers
//! do, no reply shows what an acknowledged delete of its key hides. [`fleets`] has the gate for several such cores before the same
//! servers, and the laws of one before servers that apply calls late; laws of several cores are in the crate `fresh_theory`.
#![tactic(auto)]

pub mod beginnings;
pub mod fleets;
pub mod generations;
pub mod laws;
pub mod loading;
pub mod served;
pub mod server_counts;
pub mod tally;

pub use beginnings::Beginnings;
pub use gate_growth::ledger::Beginning;
pub use generations::Generations;
pub use loading::LoadFault;
pub use served::ServedCore;
pub use tally::{CoreTally, OpTally, ServerTally};
