//! A generation.

use gate_growth::ledger::Beginning;
use route_json::Config;

/// A configuration that was accepted, and how its new servers began.
#[derive(Drop)]
pub struct Generation {
    pub config: Config,
    pub began: Beginning,
}
