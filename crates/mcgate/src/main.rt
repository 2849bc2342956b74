//! The program: reads its arguments and its input, runs, and ends with an exit status.
#![tactic(auto)]

mod cache;
mod certified;
mod descriptors;
mod listening;
mod over_tcp;
mod serve;
mod shared_port;
mod sharing;
mod telling;
mod warnings;

use cache::serve_cache;
use certified::judge_text_by;
use descriptors::within_descriptors;
use gate_history::HistoryFile;
use listening::{Given, Listening};
use mcgate_args::arguments::{Job, Task};
use mcgate_args::details::Explaining;
use mcgate_args::ends::end_of;
use mcgate_args::serve_arguments::all_places;
use mcgate_ends::details::{Details, name_of};
use mcgate_ends::ends::{Stop, decline};
use mcgate_ends::input::text_noting;
use mcgate_ends::input_text::InputFault;
use mcgate_ends::serve_job::ServeJob;
use mcgate_lines::status::REFUSED;
use mcgate_notes::controlling::Controlling;
use mcgate_notes::lines::Lines;
use mcgate_notes::special::{is_special, special_line};
use mcgate_replay::Judging;
use mcgate_run::tasks::tell_of_task;
use mcgate_run::{Inputs, job_of, run_job};
use mcgate_serve::histories::file_at;
use mcgate_serve::started::{Begun, Started};
use mcgate_serve::starting::{begin, refused_after};
use mcgate_serve::watching::Watching;
use over_tcp::run_over_tcp;
use serve::{Judged, Servable, judge_text, look_up_only, serve_in, serve_to_end, tell_unknown_of};
use std::alloc::Global;
use std::io;
use std::io::{BufWriter, ErrorKind, Write};
use std::net::Net;
use std::process::ExitCode;
use std::rt::{Clock, Env, Files};
use telling::tell;
use warnings::say_warnings;

/// The arguments, the program's name first. One that isn't UTF-8 is refused as the program has none such.
fn arguments_of<R: AllocGlobal + Env>(rt: &R, details: &mut Details) -> Result<Vec<String>, Stop> {
    let arguments = match std::env::args(rt) {
        Ok(arguments) => arguments,
        Err(error) if error.kind() == ErrorKind::InvalidData => {
            details.add(String::from_str(rt.alloc(), "mcgate: an argument isn't UTF-8"));
            return Err(Stop::Usage);
        }
        Err(error) => return Err(Stop::from(error)),
    };
    match arguments.collect::<Vec<String>>(rt.alloc()) {
        Ok(collected) => Ok(collected),
        Err(_) => Err(Stop::Memory),
    }
}

/// The input of a file or of standard input. Where a device fails, a line of detail says why.
fn input_of<R: Files + Input + AllocGlobal>(
    rt: &R,
    file: Option<&str>,
    details: &mut Details,
) -> Result<String, InputFault> {
    let mut failure = None;
    let input = text_noting(rt, file, &mut failure);
    if let Some(failure) = failure {
        details.add_failure(rt.alloc(), name_of(file), &failure);
    }
    input
}

/// The files of the system, and standard input.
#[derive(Clone, Copy)]
struct SystemInputs<'a, R> {
    rt: &'a R,
}

impl<'a, R: Files + Input + AllocGlobal + Eprint> Inputs for SystemInputs<'a, R> {
    fn text(&self, file: Option<&str>, details: &mut Details) -> Result<String, InputFault> {
        input_of(self.rt, file, details)
    }

    fn history<W: Write>(
        &self,
        path: &str,
        out: &mut W,
        details: &mut Details,
    ) -> Result<Option<HistoryFile>, Stop> {
        let mut lines = Lines::new(self.rt.alloc(), None);
        file_at(self.rt, path, &mut lines, out, details)
    }
}

/// Runs a script over TCP, with so many trees at most.
fn run_loopback<R: Files + Input + AllocGlobal + Net + Clock, W: Write>(
    rt: &R,
    file: Option<&str>,
    flushes_new: bool,
    most: u32,
    out: &mut W,
    details: &mut Details,
) -> Result<u8, Stop> {
    let input = input_of(rt, file, details);
    let status = run_over_tcp(rt, &input, flushes_new, most, out)?;
    let task = Task::Replay {
        judging: Judging::Asked(most),
    };
    tell_of_task(rt.alloc(), task, file, &input, status, details);
    Ok(status)
}

/// Listens where a job says for who asks for numbers, if it does. Where it can't, a line of detail says why.
fn watch_job<R: Net + Clock + AllocGlobal>(
    rt: &R,
    job: &ServeJob<'_>,
    details: &mut Details,
) -> Result<Option<Watching>, Stop> {
    let Some(address) = job.metrics else {
        return Ok(None);
    };
    match Watching::listen(rt, address) {
        Ok(watching) => Ok(Some(watching)),
        Err(error) => {
            details.add_listen(rt.alloc(), address, &error);
            Err(Stop::from(error))
        }
    }
}

/// Listens where a job says for who tells it things, if it does. Where it can't, a line of detail says why.
fn control_job<R: Files + Net + Clock + AllocGlobal>(
    rt: &R,
    job: &ServeJob<'_>,
    details: &mut Details,
) -> Result<Option<Controlling>, Stop> {
    let Some(path) = job.control else {
        return Ok(None);
    };
    match Controlling::listen(rt, path) {
        Ok(controlling) => Ok(Some(controlling)),
        Err(error) => {
            details.add_path(rt.alloc(), path, &error);
            Err(Stop::from(error))
        }
    }
}

/// Listens where a job says for clients. Where it can't, lines tell which servers name no host, and one of detail says why it can't.
fn listen_job<R: Files + AllocGlobal + Net + Eprint + Given>(
    rt: &R,
    job: &ServeJob<'_>,
    servable: &Servable,
    lines: &mut Lines,
    details: &mut Details,
) -> Result<Listening, Stop> {
    match Listening::at(rt, job, details) {
        Ok(listening) => Ok(listening),
        Err(error) => {
            tell_unknown_of(rt, lines, servable)?;
            Err(Stop::from(error))
        }
    }
}

/// All that listens.
#[derive(Drop)]
struct Opened {
    listening: Listening,
    watching: Option<Watching>,
    controlling: Option<Controlling>,
}

/// Listens where a job says, for clients last. Where it can't, lines of detail say why.
fn open_job<R: Files + AllocGlobal + Net + Clock + Eprint + Given>(
    rt: &R,
    job: &ServeJob<'_>,
    servable: &Servable,
    lines: &mut Lines,
    details: &mut Details,
) -> Result<Opened, Stop> {
    let watching = watch_job(rt, job, details)?;
    let controlling = control_job(rt, job, details)?;
    let listening = listen_job(rt, job, servable, lines, details)?;
    Ok(Opened {
        listening,
        watching,
        controlling,
    })
}

/// Serves a configuration by what listens.
fn serve_opened<R: Files + Input + AllocGlobal + Net + Clock + Print + Eprint>(
    rt: &R,
    job: ServeJob<'_>,
    opened: Opened,
    servable: Servable,
    started: Started,
    lines: Lines,
) -> Result<u8, Stop> {
    let Opened {
        listening,
        watching,
        controlling,
    } = opened;
    let Listening { listeners, places } = listening;
    let job = ServeJob {
        listen: places.as_str(),
        ..job
    };
    match serve_to_end(
        rt,
        &job,
        listeners,
        servable,
        started,
        lines,
        watching,
        controlling,
    ) {
        Ok((_serving, ended)) => ended,
        Err(error) => Err(Stop::from(error)),
    }
}

/// Serves a configuration. Where it can't listen, lines of detail say why.
fn serve_job<R: Files + Input + AllocGlobal + Net + Clock + Print + Eprint + Given>(
    rt: &R,
    job: ServeJob<'_>,
    servable: Servable,
    started: Started,
    lines: Lines,
    details: &mut Details,
) -> Result<u8, Stop> {
    let mut lines = lines;
    match open_job(rt, &job, &servable, &mut lines, details) {
        Ok(opened) => serve_opened(rt, job, opened, servable, started, lines),
        Err(stop) => Err(stop),
    }
}

/// Judges a configuration's text as a job says: by a certificate, where it names one.
fn judge_job<R: Files + Input + AllocGlobal, W: Write>(
    rt: &R,
    job: &ServeJob<'_>,
    text: &str,
    out: &mut W,
    details: &mut Details,
) -> Result<Judged, Stop> {
    let Some(file) = job.certificate else {
        return judge_text(rt.alloc(), job.any, text, out);
    };
    match input_of(rt, Some(file), details) {
        Ok(certificate) => judge_text_by(rt.alloc(), text, certificate.as_str(), out),
        Err(fault) => {
            details.add_configuration(rt.alloc(), file, &Err(fault));
            Ok(Judged::Printed(decline(fault, out)?))
        }
    }
}

/// Serves it after the history that is kept, if it may follow, or prints why not.
fn begin_job<R: Files + Input + AllocGlobal + Net + Clock + Print + Eprint + Given, W: Write>(
    rt: &R,
    job: ServeJob<'_>,
    servable: Servable,
    text: String,
    lines: Lines,
    out: &mut W,
    details: &mut Details,
) -> Result<u8, Stop> {
    let mut lines = lines;
    match begin(rt, &job, text, &mut lines, out, details) {
        Ok(Begun::Started(started)) => {
            let begun = started.begun;
            serve_job(
                rt,
                ServeJob { begun, ..job },
                servable,
                started,
                lines,
                details,
            )
        }
        Ok(Begun::Printed(status)) => Ok(status),
        Err(stop) => Err(stop),
    }
}

/// Tests whether it may be served after that history, and whether all addresses are known.
fn check_job<R: Files + Input + AllocGlobal + Net + Eprint, W: Write>(
    rt: &R,
    job: ServeJob<'_>,
    servable: &Servable,
    text: &str,
    lines: &mut Lines,
    out: &mut W,
    details: &mut Details,
) -> Result<u8, Stop> {
    match refused_after(rt, &job, text, lines, out, details)? {
        Some(status) => Ok(status),
        None => look_up_only(rt, job, servable, lines, details),
    }
}

/// Serves what a job names, or prints why it isn't served.
fn run_serve<R: Files + Input + AllocGlobal + Net + Clock + Print + Eprint + Given, W: Write>(
    rt: &R,
    job: ServeJob<'_>,
    out: &mut W,
    details: &mut Details,
) -> Result<u8, Stop> {
    if is_special(rt, job.file) {
        details.add(special_line(rt.alloc(), job.file));
        return Err(Stop::Device);
    }
    let text = match input_of(rt, Some(job.file), details) {
        Ok(text) => text,
        Err(fault) => {
            details.add_configuration(rt.alloc(), job.file, &Err(fault));
            return decline(fault, out);
        }
    };
    match judge_job(rt, &job, text.as_str(), out, details)? {
        Judged::Printed(status) => {
            details.add_text(rt.alloc(), job.file, text.as_str());
            if status == REFUSED {
                details.add_refusal(rt.alloc(), Some(job.file), text.as_str());
            }
            Ok(status)
        }
        Judged::Servable(servable) => {
            match serve_in(rt.alloc(), job.file, job.fleet, servable, out)? {
                Judged::Printed(status) => Ok(status),
                Judged::Servable(servable) => serve_text(rt, job, servable, text, out, details),
            }
        }
    }
}

/// Serves what a job names, where each of these texts says, or prints why it isn't served.
fn run_serve_at<R: Files + Input + AllocGlobal + Net + Clock + Print + Eprint + Given, W: Write>(
    rt: &R,
    job: ServeJob<'_>,
    listen: &[&str],
    out: &mut W,
    details: &mut Details,
) -> Result<u8, Stop> {
    let Ok(places) = all_places(rt.alloc(), listen) else {
        return Err(Stop::Memory);
    };
    let job = ServeJob {
        listen: places.as_str(),
        ..job
    };
    run_serve(rt, job, out, details)
}

/// Serves the configuration of a text, which may be served.
fn serve_text<R: Files + Input + AllocGlobal + Net + Clock + Print + Eprint + Given, W: Write>(
    rt: &R,
    job: ServeJob<'_>,
    servable: Servable,
    text: String,
    out: &mut W,
    details: &mut Details,
) -> Result<u8, Stop> {
    let mut lines = Lines::new(rt.alloc(), job.log);
    lines.look(rt);
    say_warnings(rt, &mut lines, job.file, text.as_str());
    let job = within_descriptors(rt, &mut lines, job, servable.len());
    if job.check {
        return check_job(rt, job, &servable, text.as_str(), &mut lines, out, details);
    }
    begin_job(rt, job, servable, text, lines, out, details)
}

/// Runs what the arguments ask for, and answers the exit status.
fn run<R: Files + Input + AllocGlobal + Env + Net + Clock + Print + Eprint + Given, W: Write>(
    rt: &R,
    out: &mut W,
    details: &mut Details,
) -> Result<u8, Stop> {
    let arguments = arguments_of(rt, details)?;
    match job_of(rt.alloc(), arguments.as_slice(), details)? {
        Job::Loopback {
            file,
            flushes_new,
            most,
        } => run_loopback(rt, file, flushes_new, most, out, details),
        Job::Cache(job) => serve_cache(rt, job, details),
        Job::Serve(job, listen) => run_serve_at(rt, job, &listen, out, details),
        Job::Tell(job) => tell(rt, &job, out, details),
        job => run_job(rt.alloc(), &SystemInputs { rt }, job, out, details),
    }
}

/// Runs, and gives out what was written, also what was written before a fault.
fn run_and_flush<R: Files + Input + AllocGlobal + Env + Net + Clock + Print + Eprint + Given>(
    rt: &R,
    details: &mut Details,
) -> Result<u8, Stop> {
    let mut out = BufWriter::new(rt.alloc(), io::writer(rt))?;
    let ended = run(rt, &mut out, details);
    let flushed = out.flush();
    if let Err(error) = &flushed {
        details.add_output(rt.alloc(), error);
    }
    if matches!(ended, Err(Stop::Device)) {
        details.add_unknown(rt.alloc());
    }
    let status = ended?;
    flushed?;
    Ok(status)
}

fn main(rt: HostRuntime) -> ExitCode {
    let mut details = Details::new(rt.alloc());
    let end = end_of(run_and_flush(&rt, &mut details));
    if let Some(line) = end.complaint {
        let _ = rt.eprintln(line);
    }
    for line in details.lines() {
        let _ = rt.eprintln(line.as_str());
    }
    ExitCode::from(end.status)
}
