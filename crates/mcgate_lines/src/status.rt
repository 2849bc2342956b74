//! Exit statuses, and what breaks off a run of the program.

ghost use Rattle.std.specs.Prelude.{◌≡◌};
ghost use Rattle.mcgate_lines.specs.Faults.{fault_answer};
ghost use Rattle.mcgate_lines.specs.declared.status.RunFault.TheVariants.{NoMemory, Writer};

use std::alloc::AllocError;
use std::io;

/// The exit status of a script that ran, and of a configuration that is accepted.
pub const DONE: u8 = 0;

/// The exit status where the gate refuses the configuration.
pub const REFUSED: u8 = 1;

/// The exit status where the input is bad.
pub const BAD_INPUT: u8 = 2;

/// The answer of a run that was refused memory.
pub const NO_MEMORY: u8 = 3;

/// The answer of a run whose output could not be written.
pub const WRITER: u8 = 4;

/// The answer of a script that had more calls than are counted.
pub const TOO_MANY_CALLS: u8 = 5;

/// What breaks a run off.
#[derive(Clone, Copy)]
pub enum RunFault {
    /// Memory was refused.
    NoMemory,
    /// The output could not be written.
    Writer,
    /// A script had more calls than are counted.
    TooManyCalls,
}

impl From<AllocError> for RunFault {
    ghost from_gives = { λ _ fault. fault ≡ NoMemory };

    fn from(_error: AllocError) -> RunFault {
        RunFault::NoMemory
    }
}

/// Only a writer makes such an error here. Whatever its kind, some of the lines may have been written, which isn't so where the run
/// was refused memory.
impl From<io::Error> for RunFault {
    ghost from_gives = { λ _ fault. fault ≡ Writer };

    fn from(_error: io::Error) -> RunFault {
        RunFault::Writer
    }
}

/// The answer where a run was broken off.
pub fn answer_of(fault: RunFault) -> u8
    ensures { result ≡ fault_answer fault }
{
    match fault {
        RunFault::NoMemory => NO_MEMORY,
        RunFault::Writer => WRITER,
        RunFault::TooManyCalls => TOO_MANY_CALLS,
    }
}
