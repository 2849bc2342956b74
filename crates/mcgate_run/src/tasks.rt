//! The commands `check` and `replay` of one file, `where`, `certify` and `plan`.

use crate::inputs::Inputs;
use fault_words::script::BadLine;
use mc_types::Key;
use mcgate_args::arguments::Task;
use mcgate_args::bad_lines::{bad_line_of_events, bad_line_of_task};
use mcgate_args::certifying::certify_input;
use mcgate_args::details::Explaining;
use mcgate_args::ends::{read_configuration, run_events, run_input, run_keys};
use mcgate_args::plan_arguments::PlanJob;
use mcgate_args::plans::run_plan;
use mcgate_ends::details::{Details, name_of};
use mcgate_ends::ends::{Stop, decline};
use mcgate_ends::input_text::InputFault;
use mcgate_lines::status::{BAD_INPUT, DONE, REFUSED};
use mcgate_replay::Judging;
use route_json::Config;
use std::alloc::{AllocError, Global};
use std::io::Write;

// Adds what is wrong with a bad line, if there is one, and gives it back. Where memory was refused
// nothing is said.
fn told<'a>(
    alloc: Global,
    found: Result<Option<BadLine<'a>>, AllocError>,
    details: &mut Details,
) -> Option<BadLine<'a>> {
    let bad = found.unwrap_or(None);
    if let Some(bad) = bad {
        details.add(format!(in alloc; "{bad}"));
    }
    bad
}

/// Tells of an input with which a task ended so: what is wrong with it, or why the gate refuses its
/// tree.
pub fn tell_of_task(
    alloc: Global,
    task: Task,
    file: Option<&str>,
    input: &Result<String, InputFault>,
    status: u8,
    details: &mut Details,
) {
    match status {
        BAD_INPUT => {
            let bad = told(alloc, bad_line_of_task(alloc, task, input), details);
            details.add_task(alloc, task, name_of(file), input, bad);
        }
        REFUSED => details.add_refused_task(alloc, task, file, input),
        _ => {}
    }
}

/// Does a task with an input of this name, and tells of it.
pub fn run_named<W: Write>(
    alloc: Global,
    task: Task,
    file: Option<&str>,
    input: &Result<String, InputFault>,
    out: &mut W,
    details: &mut Details,
) -> Result<u8, Stop> {
    let status = run_input(alloc, task, input, out)?;
    tell_of_task(alloc, task, file, input, status, details);
    if let (DONE | REFUSED, Task::Check { form: _ }) = (status, task) {
        details.add_warnings(alloc, name_of(file), input);
    }
    Ok(status)
}

/// Does a task with a file or with standard input.
pub fn run_task<I: Inputs, W: Write>(
    alloc: Global,
    inputs: &I,
    task: Task,
    file: Option<&str>,
    out: &mut W,
    details: &mut Details,
) -> Result<u8, Stop> {
    let input = inputs.text(file, details);
    run_named(alloc, task, file, &input, out, details)
}

// Runs a script of events over a configuration, and prints what comes of it.
fn run_script<I: Inputs, W: Write>(
    alloc: Global,
    inputs: &I,
    judging: Judging,
    config: Config,
    file: Option<&str>,
    out: &mut W,
    details: &mut Details,
) -> Result<u8, Stop> {
    let copy = config.copy(alloc);
    let input = inputs.text(file, details);
    let status = run_events(alloc, judging, config, &input, out)?;
    if let (BAD_INPUT, Ok(config)) = (status, copy) {
        let bad = told(alloc, bad_line_of_events(alloc, config, &input), details);
        details.add_events(alloc, judging, name_of(file), &input, bad);
    }
    Ok(status)
}

// Tells why the gate refuses the tree of a file's configuration, where a run ended so.
fn tell_of_refusal(
    alloc: Global,
    file: &str,
    input: &Result<String, InputFault>,
    status: u8,
    details: &mut Details,
) {
    if let (REFUSED, Ok(text)) = (status, input) {
        details.add_refusal(alloc, Some(file), text.as_str());
    }
}

/// Runs a script over the configuration of a file; where that is none, its script isn't read.
pub fn run_over<I: Inputs, W: Write>(
    alloc: Global,
    inputs: &I,
    judging: Judging,
    config: &str,
    file: Option<&str>,
    out: &mut W,
    details: &mut Details,
) -> Result<u8, Stop> {
    let input = inputs.text(Some(config), details);
    let status = match read_configuration(alloc, &input, out)? {
        Some(config) => run_script(alloc, inputs, judging, config, file, out, details)?,
        None => {
            details.add_configuration(alloc, config, &input);
            BAD_INPUT
        }
    };
    tell_of_refusal(alloc, config, &input, status, details);
    Ok(status)
}

/// Prints where keys live in the tree of a file's configuration.
pub fn run_where<I: Inputs, W: Write>(
    alloc: Global,
    inputs: &I,
    file: &str,
    keys: &[Key],
    out: &mut W,
    details: &mut Details,
) -> Result<u8, Stop> {
    let input = inputs.text(Some(file), details);
    let status = run_keys(alloc, keys, &input, out)?;
    if status == BAD_INPUT {
        details.add_configuration(alloc, file, &input);
    }
    tell_of_refusal(alloc, file, &input, status, details);
    Ok(status)
}

/// Prints a certificate of the configuration of a file or of standard input.
pub fn run_certify<I: Inputs, W: Write>(
    alloc: Global,
    inputs: &I,
    file: Option<&str>,
    out: &mut W,
    details: &mut Details,
) -> Result<u8, Stop> {
    let input = inputs.text(file, details);
    let status = certify_input(alloc, &input, out)?;
    match (status, &input) {
        (BAD_INPUT, _) => details.add_configuration(alloc, name_of(file), &input),
        (REFUSED, Ok(text)) => details.add_refusal(alloc, file, text.as_str()),
        _ => {}
    }
    Ok(status)
}

// Prints why a file gave no input.
fn declined<W: Write>(
    alloc: Global,
    file: &str,
    fault: InputFault,
    out: &mut W,
    details: &mut Details,
) -> Result<u8, Stop> {
    details.add_configuration(alloc, file, &Err(fault));
    decline(fault, out)
}

/// Prints by which steps one configuration may follow another.
pub fn plan_job<I: Inputs, W: Write>(
    alloc: Global,
    inputs: &I,
    job: PlanJob<'_>,
    out: &mut W,
    details: &mut Details,
) -> Result<u8, Stop> {
    let old = match inputs.text(Some(job.old), details) {
        Ok(text) => text,
        Err(fault) => return declined(alloc, job.old, fault, out, details),
    };
    match inputs.text(Some(job.new), details) {
        Ok(new) => run_plan(alloc, job.begun, old.as_str(), new.as_str(), out),
        Err(fault) => declined(alloc, job.new, fault, out, details),
    }
}
