//! The command `slots`: reads its files and prints the configuration.

use crate::inputs::Inputs;
use mcgate_args::details::Explaining;
use mcgate_args::slots::{SlotsFault, SlotsJob, rewritten_text};
use mcgate_ends::details::{Details, name_of};
use mcgate_ends::ends::{Stop, decline};
use mcgate_lines::status::{BAD_INPUT, DONE, REFUSED};
use std::alloc::Global;
use std::io::Write;

// The text of a file or of standard input, or prints why there is none.
fn text_of<I: Inputs, W: Write>(
    alloc: Global,
    inputs: &I,
    file: Option<&str>,
    out: &mut W,
    details: &mut Details,
) -> Result<Result<String, u8>, Stop> {
    match inputs.text(file, details) {
        Ok(text) => Ok(Ok(text)),
        Err(fault) => {
            details.add_configuration(alloc, name_of(file), &Err(fault));
            Ok(Err(decline(fault, out)?))
        }
    }
}

// Prints why there is no table, and answers the status.
fn print_fault<W: Write>(
    alloc: Global,
    job: &SlotsJob<'_>,
    text: &str,
    earlier: &[String],
    fault: &SlotsFault<'_>,
    out: &mut W,
    details: &mut Details,
) -> Result<u8, Stop> {
    if let SlotsFault::NoMemory = fault {
        return Err(Stop::Memory);
    }
    writeln!(out, "{fault}")?;
    match fault {
        SlotsFault::Config(_) => {
            details.add_text(alloc, name_of(job.file), text);
            Ok(BAD_INPUT)
        }
        SlotsFault::Earlier(number, _) => {
            if let (Some(file), Some(text)) = (job.after.get(*number), earlier.get(*number)) {
                details.add_text(alloc, *file, text.as_str());
            }
            Ok(BAD_INPUT)
        }
        _ => Ok(REFUSED),
    }
}

/// Prints a configuration with the table of slots that a job asks for.
pub fn run_slots<I: Inputs, W: Write>(
    alloc: Global,
    inputs: &I,
    job: &SlotsJob<'_>,
    out: &mut W,
    details: &mut Details,
) -> Result<u8, Stop> {
    let mut earlier = Vec::new(alloc);
    for file in &job.after {
        match text_of(alloc, inputs, Some(*file), out, details)? {
            Ok(text) => {
                if earlier.push(text).is_err() {
                    return Err(Stop::Memory);
                }
            }
            Err(status) => return Ok(status),
        }
    }
    let text = match text_of(alloc, inputs, job.file, out, details)? {
        Ok(text) => text,
        Err(status) => return Ok(status),
    };
    match rewritten_text(alloc, job, text.as_str(), &earlier) {
        Ok(told) => {
            writeln!(out, "{}", told.as_str())?;
            Ok(DONE)
        }
        Err(fault) => print_fault(alloc, job, text.as_str(), &earlier, &fault, out, details),
    }
}
