//! The commands `history`, and `check` with a history.

use crate::inputs::Inputs;
use crate::tasks::run_named;
use core_accepted::Beginnings;
use mcgate_args::arguments::Task;
use mcgate_ends::details::Details;
use mcgate_ends::ends::Stop;
use mcgate_ends::histories::{check_after, read_file, tell_history};
use mcgate_lines::status::{BAD_INPUT, DONE};
use mcgate_lines::verdict::Form;
use std::alloc::Global;
use std::io::Write;

/// Prints what a history remembers.
pub fn run_history<I: Inputs, W: Write>(
    alloc: Global,
    inputs: &I,
    path: &str,
    out: &mut W,
    details: &mut Details,
) -> Result<u8, Stop> {
    let input = inputs.text(Some(path), details);
    match read_file(alloc, path, input, out, details)? {
        Some(file) => tell_history(alloc, file, out),
        None => Ok(BAD_INPUT),
    }
}

// Prints whether the configuration of a text may follow a history.
fn run_after<I: Inputs, W: Write>(
    alloc: Global,
    inputs: &I,
    path: &str,
    begun: Beginnings,
    form: Form,
    text: &str,
    out: &mut W,
    details: &mut Details,
) -> Result<u8, Stop> {
    match inputs.history(path, out, details)? {
        Some(file) => check_after(alloc, path, file, text, begun, form, out, details),
        None => Ok(BAD_INPUT),
    }
}

/// Prints the gate's verdict on a configuration, and if that is accepted, whether it may follow a
/// history.
pub fn run_check_after<I: Inputs, W: Write>(
    alloc: Global,
    inputs: &I,
    history: &str,
    begun: Beginnings,
    form: Form,
    file: Option<&str>,
    out: &mut W,
    details: &mut Details,
) -> Result<u8, Stop> {
    let input = inputs.text(file, details);
    let status = run_named(alloc, Task::Check { form }, file, &input, out, details)?;
    match (status, &input) {
        (DONE, Ok(text)) => {
            run_after(
                alloc,
                inputs,
                history,
                begun,
                form,
                text.as_str(),
                out,
                details,
            )
        }
        _ => Ok(status),
    }
}
