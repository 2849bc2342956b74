//! How the program ends: what it prints on which stream, and its exit statuses.

ghost use Rattle.std.specs.Prelude.{◌≡◌, Ok, option_map};
ghost use Rattle.script_events.specs.Told.{told_over};
ghost use Rattle.mcgate_args.specs.Program.{AnswersTask, RunsTask, AnswersInput, GivesConfig, ReadsConfig};
ghost use Rattle.mcgate_ends.specs.Ends.{RunsText, AnswersBy, NeverOverruns, SaysNothing};
ghost use Rattle.mcgate_replay.specs.Replay.{ReplaysOver, Overran, IsBrokenOff as IsCutShort};
ghost use Rattle.mcgate_lines.specs.Finding.{FindsKeys};
ghost use Rattle.mcgate_args.specs.Stops.{stop_of, key_fault_line, calls_line, exit_of};

use crate::arguments::{ArgumentsFault, Task};
use mc_types::{Key, KeyFault};
use mcgate_check::run_check;
use mcgate_ends::ends::{Stop, decline, ended, find_in_text};
use mcgate_ends::input_text::InputFault;
use mcgate_lines::faults::print_fault;
use mcgate_replay::{Judging, run_replay, run_replay_over};
use route_json::{Config, read_config};
use std::alloc::Global;
use std::io::Write;

impl From<ArgumentsFault> for Stop {
    ghost from_gives = { λ fault stop. stop ≡ stop_of fault };

    fn from(fault: ArgumentsFault) -> Stop {
        match fault {
            ArgumentsFault::Refused => Stop::Usage,
            ArgumentsFault::Key(fault) => Stop::Key(fault),
            ArgumentsFault::NoMemory => Stop::Memory,
        }
    }
}

// Why a text is no key.
fn key_line(fault: KeyFault) -> &'static str
    ensures { result.now ≡ key_fault_line fault }
{
    match fault {
        KeyFault::Empty => "key: empty",
        KeyFault::TooLong => "key: longer than 250 bytes",
        KeyFault::BadByte(_) => "key: a space or a control character",
    }
}

// How many calls a script can have.
fn calls_line() -> &'static str
    ensures { result.now ≡ calls_line }
{
    "calls: more than 18446744073709551615"
}

/// The exit status, and the line that is printed on standard error, if there is one.
#[derive(Clone, Copy)]
pub struct ProgramEnd {
    pub status: u8,
    pub complaint: Option<&'static str>,
}

/// How the program ends, by what its run answered.
///
/// Source: mcgate's own.
pub fn end_of(ended: Result<u8, Stop>) -> ProgramEnd
    ensures { (result.status, option_map (λ s. s.now) result.complaint) ≡ exit_of ended }
{
    match ended {
        Ok(status) => ProgramEnd {
            status,
            complaint: None,
        },
        Err(Stop::Usage) => ProgramEnd {
            status: 2,
            complaint: Some("usage: mcgate check, replay, serve, cache or loopback"),
        },
        Err(Stop::Key(fault)) => ProgramEnd {
            status: 1,
            complaint: Some(key_line(fault)),
        },
        Err(Stop::Memory) => ProgramEnd {
            status: 3,
            complaint: Some("memory: refused"),
        },
        Err(Stop::Device) => ProgramEnd {
            status: 3,
            complaint: Some("device: failed"),
        },
        Err(Stop::Calls) => ProgramEnd {
            status: 3,
            complaint: Some(calls_line()),
        },
    }
}

// What a task answers of a text.
fn answer<W: Write>(alloc: Global, task: Task, text: &str, out: &mut W) -> u8
    ensures { AnswersTask task text.now (W.contents out.old) (W.contents out.new) result }
{
    match task {
        Task::Check { form } => run_check(alloc, form, text, out),
        Task::Replay { judging } => run_replay(alloc, judging, text, out),
    }
}

fn run_text<W: Write>(alloc: Global, task: Task, text: &str, out: &mut W) -> Result<u8, Stop>
    ensures { RunsTask task text.now (W.contents out.old) (W.contents out.new) result }
{
    ended(answer(alloc, task, text, out))
}

/// Does the task with an input, or prints why it is none. The answer is the exit status where all that was to be printed was written.
///
/// `Stop::Memory` and `Stop::Device` come where the input could not be read for that cause, and then nothing was written; also
/// where the run was refused memory, or the output could not be written. `Stop::Calls` comes where the run of a script had more calls
/// than are counted, after its transcript so far.
pub fn run_input<W: Write>(
    alloc: Global,
    task: Task,
    input: &Result<String, InputFault>,
    out: &mut W,
) -> Result<u8, Stop>
    ensures { AnswersInput task input.now (W.contents out.old) (W.contents out.new) result }
{
    match input {
        Ok(text) => run_text(alloc, task, text.as_str(), out),
        Err(fault) => decline(*fault, out),
    }
}

/// Prints where the keys live in the tree of an input, or why it is no input. The answer and the faults are as those of
/// [`run_input`].
pub fn run_keys<W: Write>(
    alloc: Global,
    keys: &[Key],
    input: &Result<String, InputFault>,
    out: &mut W,
) -> Result<u8, Stop>
    ensures { AnswersBy (λ text old new status. FindsKeys text keys.now old new status) SaysNothing NeverOverruns input.now (W.contents out.old) (W.contents out.new) result }
{
    match input {
        Ok(text) => find_in_text(alloc, keys, text.as_str(), out),
        Err(fault) => decline(*fault, out),
    }
}

// The configuration of a text; where it is none, its first fault was printed.
fn config_of<W: Write>(alloc: Global, text: &str, out: &mut W) -> Result<Option<Config>, Stop>
    ensures { GivesConfig text.now (W.contents out.old) (W.contents out.new) result }
{
    match read_config(alloc, text) {
        Ok(config) => Ok(Some(config)),
        Err(fault) => {
            print_fault(text, &fault, out)?;
            Ok(None)
        }
    }
}

/// The configuration of an input. Where it has none, that was printed: why it is no input, or the text's first fault.
///
/// The faults are as those of [`run_input`].
pub fn read_configuration<W: Write>(
    alloc: Global,
    input: &Result<String, InputFault>,
    out: &mut W,
) -> Result<Option<Config>, Stop>
    ensures { ReadsConfig input.now (W.contents out.old) (W.contents out.new) result }
{
    match input {
        Ok(text) => config_of(alloc, text.as_str(), out),
        Err(fault) => {
            decline(*fault, out)?;
            Ok(None)
        }
    }
}

fn replay_events<W: Write>(
    alloc: Global,
    judging: Judging,
    config: Config,
    text: &str,
    out: &mut W,
) -> Result<u8, Stop>
    ensures { RunsText (λ text old new status. ReplaysOver judging config text old new status) (λ text old new. IsCutShort judging (Ok (told_over config text)) old new) (λ text old new. Overran judging (Ok (told_over config text)) old new) text.now (W.contents out.old) (W.contents out.new) result }
{
    ended(run_replay_over(alloc, judging, config, text, out))
}

/// Runs the events of an input over a configuration, or prints why it is no input. The answer and the faults are as those of
/// [`run_input`].
pub fn run_events<W: Write>(
    alloc: Global,
    judging: Judging,
    config: Config,
    input: &Result<String, InputFault>,
    out: &mut W,
) -> Result<u8, Stop>
    ensures { AnswersBy (λ text old new status. ReplaysOver judging config text old new status) (λ text old new. IsCutShort judging (Ok (told_over config text)) old new) (λ text old new. Overran judging (Ok (told_over config text)) old new) input.now (W.contents out.old) (W.contents out.new) result }
{
    match input {
        Ok(text) => replay_events(alloc, judging, config, text.as_str(), out),
        Err(fault) => decline(*fault, out),
    }
}
