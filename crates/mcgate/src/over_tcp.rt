//! A script over TCP.

ghost use Rattle.mcgate_ends.specs.Ends.{AnswersBy, NeverOverruns, RunsText};
ghost use Rattle.mcgate_loopback.specs.Running.{RunsLoopback as RunsOverTcp};
ghost use Rattle.mcgate.specs.OverTcp.{LoopMemoryRefused};

use mcgate_ends::ends::{Stop, decline, ended};
use mcgate_ends::input_text::InputFault;
use mcgate_loopback::run_loopback;
use std::io::Write;
use std::net::Net;
use std::rt::Clock;

fn loop_text<R: Net + Clock + AllocGlobal, W: Write>(
    rt: &R,
    text: &str,
    flushes_new: bool,
    most: u32,
    out: &mut W,
) -> Result<u8, Stop>
    ensures { RunsText RunsOverTcp LoopMemoryRefused NeverOverruns text.now (W.contents out.old) (W.contents out.new) result }
{
    ended(run_loopback(rt, text, flushes_new, most, out))
}

/// Runs the script of an input over TCP, or prints why it is no input. The answer and the faults are as those of
/// [`mcgate_args::ends::run_input`]; a socket is a device.
pub fn run_over_tcp<R: Net + Clock + AllocGlobal, W: Write>(
    rt: &R,
    input: &Result<String, InputFault>,
    flushes_new: bool,
    most: u32,
    out: &mut W,
) -> Result<u8, Stop>
    ensures { AnswersBy RunsOverTcp LoopMemoryRefused NeverOverruns input.now (W.contents out.old) (W.contents out.new) result }
{
    match input {
        Ok(text) => loop_text(rt, text.as_str(), flushes_new, most, out),
        Err(fault) => decline(*fault, out),
    }
}
