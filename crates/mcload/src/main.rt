//! A load generator for memcached servers and proxies: clients that keep commands under way, check each answer, and tell
//! how many commands were answered and how soon, or how many gets showed deleted data.
#![tactic(auto)]

mod arguments;
mod commands;
mod freshness;
mod latency;
mod plan;
mod run;
mod tally;

use arguments::{LoadSettings, USAGE, settings_of};
use run::run_job;
use std::alloc::AllocError;
use std::io;
use std::net::Net;
use std::process::ExitCode;
use std::rt::{Clock, Env};

/// Why the program ends with a line on standard error.
#[derive(Clone, Copy)]
pub enum LoadStop {
    Usage,
    /// The bytes of an answer aren't those of any answer to its command.
    WrongAnswer,
    /// A connection ended or failed.
    Lost,
    /// Memory was refused, or a device failed.
    Failed,
}

impl From<io::Error> for LoadStop {
    fn from(_error: io::Error) -> LoadStop {
        LoadStop::Failed
    }
}

impl From<AllocError> for LoadStop {
    fn from(_error: AllocError) -> LoadStop {
        LoadStop::Failed
    }
}

fn run_with_arguments<R: AllocGlobal + Env + Net + Clock + Print>(rt: &R) -> Result<(), LoadStop> {
    let Ok(arguments) = std::env::args(rt)?.collect::<Vec<String>>(rt.alloc()) else {
        return Err(LoadStop::Failed);
    };
    match settings_of(arguments.as_slice()) {
        Some(settings) => run_job(rt, settings),
        None => Err(LoadStop::Usage),
    }
}

fn main(rt: HostRuntime) -> ExitCode {
    let (status, line) = match run_with_arguments(&rt) {
        Ok(()) => return ExitCode::SUCCESS,
        Err(LoadStop::WrongAnswer) => (1, "mcload: an answer with wrong bytes"),
        Err(LoadStop::Usage) => (2, USAGE),
        Err(LoadStop::Lost) => (3, "mcload: a connection was lost"),
        Err(LoadStop::Failed) => (3, "mcload: memory refused, or a device failed"),
    };
    let _ = rt.eprintln(line);
    ExitCode::from(status)
}
