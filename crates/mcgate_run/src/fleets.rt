//! The command `check --fleet`.

use crate::inputs::Inputs;
use mcgate_args::details::Explaining;
use mcgate_args::fleets::{FleetJob, run_fleet};
use mcgate_ends::details::{Details, name_of};
use mcgate_ends::ends::{Stop, decline};
use mcgate_ends::fleets::faults::FleetFile;
use mcgate_lines::status::BAD_INPUT;
use std::alloc::Global;
use std::io::Write;

// Adds a file of a fleet to others; where it gives no input, prints why, and answers the status.
fn add_file<'a, I: Inputs, W: Write>(
    alloc: Global,
    inputs: &I,
    file: Option<&'a str>,
    files: &mut Vec<FleetFile<'a>>,
    out: &mut W,
    details: &mut Details,
) -> Result<Option<u8>, Stop> {
    let name = name_of(file);
    match inputs.text(file, details) {
        Ok(text) => match files.push(FleetFile { name, text }) {
            Ok(()) => Ok(None),
            Err(_) => Err(Stop::Memory),
        },
        Err(fault) => {
            details.add_configuration(alloc, name, &Err(fault));
            Ok(Some(decline(fault, out)?))
        }
    }
}

// Tells of the file of a fleet that isn't accepted by itself: what is wrong with it, or why the
// gate refuses its tree.
fn tell_of_file(alloc: Global, file: &FleetFile<'_>, status: u8, details: &mut Details) {
    if status == BAD_INPUT {
        details.add_text(alloc, file.name, file.text.as_str());
    } else {
        details.add_refusal(alloc, Some(file.name), file.text.as_str());
    }
}

// Prints the verdict on the configurations of these files, by which the proxies of a fleet run at
// the same time.
fn check_files<W: Write>(
    alloc: Global,
    files: &[FleetFile<'_>],
    out: &mut W,
    details: &mut Details,
) -> Result<u8, Stop> {
    let end = run_fleet(alloc, files, out)?;
    if let Some(file) = end.alone.and_then(|index| files.get(index)) {
        tell_of_file(alloc, file, end.status, details);
    }
    Ok(end.status)
}

/// Reads the files that a job names, and prints the verdict on them.
pub fn check_fleet<I: Inputs, W: Write>(
    alloc: Global,
    inputs: &I,
    job: &FleetJob<'_>,
    out: &mut W,
    details: &mut Details,
) -> Result<u8, Stop> {
    let mut files = Vec::new(alloc);
    for file in &job.with {
        if let Some(status) = add_file(alloc, inputs, Some(*file), &mut files, out, details)? {
            return Ok(status);
        }
    }
    match add_file(alloc, inputs, job.file, &mut files, out, details)? {
        Some(status) => Ok(status),
        None => check_files(alloc, &files, out, details),
    }
}
