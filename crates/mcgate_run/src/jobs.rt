//! What the arguments ask for, and which command does it.

use crate::fleets::check_fleet;
use crate::histories::{run_check_after, run_history};
use crate::inputs::Inputs;
use crate::slots::run_slots;
use crate::tasks::{plan_job, run_certify, run_over, run_task, run_where};
use mcgate_args::arguments::{Job, read_arguments};
use mcgate_args::details::Explaining;
use mcgate_ends::details::Details;
use mcgate_ends::ends::Stop;
use mcgate_lines::status::DONE;
use std::alloc::Global;
use std::io::Write;

/// Returns what the arguments ask for, the program's name first. Where they ask for nothing, lines
/// of detail say why.
pub fn job_of<'a>(
    alloc: Global,
    arguments: &'a [String],
    details: &mut Details,
) -> Result<Job<'a>, Stop> {
    match read_arguments(alloc, arguments) {
        Ok(job) => Ok(job),
        Err(fault) => {
            details.add_words(alloc, fault, arguments);
            Err(Stop::from(fault))
        }
    }
}

/// Does a job, and returns the exit status. One that needs sockets is refused, as arguments that
/// ask for nothing are.
pub fn run_job<I: Inputs, W: Write>(
    alloc: Global,
    inputs: &I,
    job: Job<'_>,
    out: &mut W,
    details: &mut Details,
) -> Result<u8, Stop> {
    match job {
        Job::Run { task, file } => run_task(alloc, inputs, task, file, out, details),
        Job::CheckAfter {
            history,
            begun,
            form,
            file,
        } => run_check_after(alloc, inputs, history, begun, form, file, out, details),
        Job::History { file } => run_history(alloc, inputs, file, out, details),
        Job::Plan(job) => plan_job(alloc, inputs, job, out, details),
        Job::RunOver {
            judging,
            config,
            file,
        } => run_over(alloc, inputs, judging, config, file, out, details),
        Job::CheckFleet(job) => check_fleet(alloc, inputs, &job, out, details),
        Job::Where { file, keys } => run_where(alloc, inputs, file, &keys, out, details),
        Job::Certify { file } => run_certify(alloc, inputs, file, out, details),
        Job::Slots(job) => run_slots(alloc, inputs, &job, out, details),
        Job::Print(text) => {
            out.write_all(text.as_bytes())?;
            Ok(DONE)
        }
        Job::Loopback { .. } | Job::Cache(_) | Job::Serve(_, _) | Job::Tell(_) => Err(Stop::Usage),
    }
}
