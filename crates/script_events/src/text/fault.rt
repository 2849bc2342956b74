//! Why a part of a line was not read.

ghost use Rattle.std.specs.Prelude.{◌≡◌};
ghost use Rattle.script_events.specs.declared.text.fault.LineFault.TheVariants.{NoMemory};

use std::alloc::{AllocError, AllocFailed};

/// Why a part of a line was not read.
#[derive(Clone, Copy)]
pub enum LineFault {
    /// It can't stand there.
    Unreadable,
    /// Memory was refused.
    NoMemory,
}

impl From<AllocError> for LineFault {
    ghost from_gives = { λ _ e. e ≡ NoMemory };

    fn from(_error: AllocError) -> LineFault {
        LineFault::NoMemory
    }
}

impl<T: Drop> From<AllocFailed<T>> for LineFault {
    ghost from_gives = { λ _ e. e ≡ NoMemory };

    fn from(_error: AllocFailed<T>) -> LineFault {
        LineFault::NoMemory
    }
}
