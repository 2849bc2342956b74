//! Why the program stops, and what it prints of an input that wasn't taken.

ghost use Rattle.std.specs.Prelude.{◌≡◌, ◌≤◌};
ghost use Rattle.std.specs.IoError.{error_kind};
ghost use Rattle.mcgate_lines.specs.Finding.{FindsKeys};
ghost use Rattle.mcgate_ends.specs.Ends.{Declines, NeverOverruns, RunsText, SaysNothing};
ghost use Rattle.mcgate_ends.specs.Stops.{EndsProgram, stop_at, stop_by};

use crate::input_text::InputFault;
use mc_types::{Key, KeyFault};
use mcgate_lines::RunFault;
use mcgate_lines::key_places::run_where;
use mcgate_lines::status::{BAD_INPUT, NO_MEMORY, TOO_MANY_CALLS, WRITER};
use std::alloc::Global;
use std::io;
use std::io::{ErrorKind, Write};

/// Why the program ends with a line on standard error.
#[derive(Clone, Copy)]
pub enum Stop {
    /// It has no such arguments.
    Usage,
    /// An argument that is to be a key is none.
    Key(KeyFault),
    /// Memory was refused.
    Memory,
    /// A device failed.
    Device,
    /// A script had more calls than are counted.
    Calls,
}

impl From<io::Error> for Stop {
    ghost from_gives = { λ error stop. stop ≡ stop_at (error_kind error) };

    fn from(error: io::Error) -> Stop {
        match error.kind() {
            ErrorKind::OutOfMemory => Stop::Memory,
            _ => Stop::Device,
        }
    }
}

impl From<RunFault> for Stop {
    ghost from_gives = { λ fault stop. stop ≡ stop_by fault };

    fn from(fault: RunFault) -> Stop {
        match fault {
            RunFault::NoMemory => Stop::Memory,
            RunFault::Writer => Stop::Device,
            RunFault::TooManyCalls => Stop::Calls,
        }
    }
}

/// What the answer of a run means for the program.
pub fn ended(answer: u8) -> Result<u8, Stop>
    requires { answer ≤ 5 }
    ensures { EndsProgram answer result }
{
    match answer {
        NO_MEMORY => Err(Stop::Memory),
        WRITER => Err(Stop::Device),
        TOO_MANY_CALLS => Err(Stop::Calls),
        status => Ok(status),
    }
}

/// Prints why an input was not taken, unless memory or a device failed.
pub fn decline<W: Write>(fault: InputFault, out: &mut W) -> Result<u8, Stop>
    ensures { Declines fault (W.contents out.old) (W.contents out.new) result }
{
    match fault {
        InputFault::TooLarge => {
            writeln!(out, "input: too large")?;
            Ok(BAD_INPUT)
        }
        InputFault::NotUtf8 => {
            writeln!(out, "input: not UTF-8")?;
            Ok(BAD_INPUT)
        }
        InputFault::NoMemory => Err(Stop::Memory),
        InputFault::Device => Err(Stop::Device),
    }
}

/// Prints where the keys live in the tree of a text, or its first fault. The answer is the exit
/// status where all that was to be printed was written; [`Stop::Memory`] and [`Stop::Device`] come
/// where memory was refused, or the output could not be written.
pub fn find_in_text<W: Write>(
    alloc: Global,
    keys: &[Key],
    text: &str,
    out: &mut W,
) -> Result<u8, Stop>
    ensures { RunsText (λ text old new status. FindsKeys text keys.now old new status) SaysNothing NeverOverruns text.now (W.contents out.old) (W.contents out.new) result }
{
    ended(run_where(alloc, text, keys, out))
}
