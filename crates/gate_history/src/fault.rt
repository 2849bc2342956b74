//! Why a text is no history.

use gate_growth::ledger::Unsound;
use route_json::{ConfigFault, Servers};
use std::alloc::AllocError;

/// Why a text is no history that a configuration may follow: what is wrong with its first bad line, of this number. Lines are
/// counted from 1, and the line of a number has the generation of that number.
#[derive(Drop)]
pub enum HistoryFault {
    /// The last line has no line end.
    Torn(u32),
    /// Its sum isn't that of what it says.
    Edited(u32),
    /// Its sum is right, but it isn't of the generation that comes next.
    OutOfOrder(u32),
    /// Its configuration has this fault.
    Config(u32, ConfigFault),
    /// Its configuration may not follow those before it.
    Refused(u32, Unsound),
    /// There are more lines than generations have numbers.
    TooManyLines,
    /// Memory was refused.
    NoMemory,
}

impl From<AllocError> for HistoryFault {
    ghost use Rattle.std.specs.Prelude.{◌≡◌};
    ghost use Rattle.gate_history.specs.declared.fault.HistoryFault.TheVariants.{NoMemory};

    ghost from_gives = { λ _ e. e ≡ NoMemory };

    fn from(_error: AllocError) -> HistoryFault {
        HistoryFault::NoMemory
    }
}

/// Why a text says no configuration that may be the next generation.
#[derive(Drop)]
pub enum NextFault {
    /// It says none, for this reason.
    Config(ConfigFault),
    /// The one that it says may not follow those so far. These are its servers.
    Refused(Servers, Unsound),
    /// Its JSON takes more than a line. It never does; only no clause of the writer of JSON says so.
    NoLine,
    /// Memory was refused.
    NoMemory,
}

impl From<AllocError> for NextFault {
    ghost use Rattle.std.specs.Prelude.{◌≡◌};
    ghost use Rattle.gate_history.specs.declared.fault.NextFault.TheVariants.{NoMemory};

    ghost from_gives = { λ _ e. e ≡ NoMemory };

    fn from(_error: AllocError) -> NextFault {
        NextFault::NoMemory
    }
}
