//! What a server loses, what stops the servers, and what comes of a call.

ghost use Rattle.std.specs.Prelude.{◌≡◌, None};

use mc_types::{Key, Outcome, ServerId};
use std::alloc::{AllocError, AllocFailed};

/// What a server loses.
#[derive(Clone, Copy)]
pub enum Loss {
    /// What the server holds of this key.
    Item(ServerId, Key),
    /// Everything.
    Restart(ServerId),
}

/// What stops the servers.
#[derive(Clone, Copy)]
pub enum FleetFault {
    /// No memory was left.
    NoMemory,
    /// There is no number for the call: 2^64 - 1 calls are numbered.
    Spent,
}

impl From<AllocError> for FleetFault {
    ghost use Rattle.script_events.specs.declared.servers.event.FleetFault.TheVariants.{NoMemory};

    ghost from_gives = { λ _ fault. fault ≡ NoMemory };

    fn from(_error: AllocError) -> FleetFault {
        FleetFault::NoMemory
    }
}

impl<T: Drop> From<AllocFailed<T>> for FleetFault {
    ghost use Rattle.script_events.specs.declared.servers.event.FleetFault.TheVariants.{NoMemory};

    ghost from_gives = { λ _ fault. fault ≡ NoMemory };

    fn from(_error: AllocFailed<T>) -> FleetFault {
        FleetFault::NoMemory
    }
}

/// What came of a call.
#[derive(Drop)]
pub struct Made {
    pub outcome: Outcome,
    /// The stamp of the item that the call found, where it was answered and its key was held.
    pub stamp: Option<u64>,
}

impl Made {
    ghost use Rattle.mc_types.specs.declared.call.Outcome.TheVariants.{Failed};

    /// A call that failed. It takes no memory.
    pub fn failed() -> Made
        ensures { result ≡ record { outcome = Failed; stamp = None } }
    {
        Made {
            outcome: Outcome::Failed,
            stamp: None,
        }
    }
}
