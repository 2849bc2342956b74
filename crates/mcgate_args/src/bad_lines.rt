//! What is wrong with the bad line of an input, to be said in words.

ghost use Rattle.std.specs.Prelude.{IfOk};
ghost use Rattle.mcgate_args.specs.BadLines.{FindsInTask, FindsInEvents};

use crate::arguments::Task;
use fault_words::script::{BadLine, bad_line_in_events, bad_line_in_script};
use mcgate_ends::input_text::InputFault;
use route_json::Config;
use std::alloc::{AllocError, Global};

/// The first bad line of a task's input and what is wrong with it, where that is a script with its configuration. `None` where no
/// line is bad, and where the input is no script. The only error is running out of memory.
///
/// Source: mcgate's own.
pub fn bad_line_of_task<'a>(
    alloc: Global,
    task: Task,
    input: &'a Result<String, InputFault>,
) -> Result<Option<BadLine<'a>>, AllocError>
    ensures { IfOk result (λ found. FindsInTask task input.now found) }
{
    match task {
        Task::Check { form: _ } => Ok(None),
        Task::Replay { judging: _ } => match input {
            Ok(text) => bad_line_in_script(alloc, text.as_str()),
            Err(_) => Ok(None),
        },
    }
}

/// The first bad line of an input of events over this configuration and what is wrong with it. `None` where no line is bad, and where the
/// input was not read. The only error is running out of memory.
///
/// Source: mcgate's own.
pub fn bad_line_of_events<'a>(
    alloc: Global,
    config: Config,
    input: &'a Result<String, InputFault>,
) -> Result<Option<BadLine<'a>>, AllocError>
    ensures { IfOk result (λ found. FindsInEvents config input.now found) }
{
    match input {
        Ok(text) => bad_line_in_events(alloc, config, text.as_str()),
        Err(_) => Ok(None),
    }
}
