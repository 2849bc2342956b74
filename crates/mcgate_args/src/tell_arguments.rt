//! The arguments of `mcgate tell`, and what they ask for.

use crate::arguments::{ArgumentsFault, Job};
use clap::ArgMatches;
use mc_types::Key;
use mcgate_ends::logs::level_of;

/// What `mcgate tell` is to do.
#[derive(Clone, Copy)]
pub struct TellJob<'a> {
    /// The path of the control socket.
    pub path: &'a str,
    pub word: &'a str,
    /// The key after `where`, or the level after `log`.
    pub more: Option<&'a str>,
}

pub const TELL_HELP: &str = "usage: mcgate tell PATH WORD [KEY | LEVEL]

Tells the mcgate serve that runs with --control PATH, and prints what it answers. The WORDs:
  drain      it accepts nobody any more, closes each client once nothing of it is under way, and ends; the answer comes then
  reload     it reads its FILE now, and prints what came of it, as after --reload-ms
  status     what it counts, as /stats.json of --metrics
  servers    a line for each server: up, late, down, unused or unknown, and its calls that are out
  log LEVEL  lines of LEVEL and more urgent ones are written from now on, as with --log-level LEVEL: error, warn, info or debug
  where KEY  where KEY lives in the tree in use, as mcgate where prints it
Exit status: 0 done, 1 refused, or clients were left when it drained, 2 bad arguments, 3 memory or a device failed, also where nobody answers.
";

// Whether a proxy can be told this word, with what stands after it: a key after `where`, and a level after `log`.
fn fits(word: &str, more: Option<&str>) -> bool {
    match (word, more) {
        ("where", Some(key)) => Key::read(key.as_bytes()).is_ok(),
        ("log", Some(level)) => level_of(level).is_some(),
        ("drain" | "reload" | "status" | "servers", None) => true,
        _ => false,
    }
}

/// What the arguments after `tell` ask for.
pub fn tell_job<'a>(given: &ArgMatches<'a>) -> Result<Job<'a>, ArgumentsFault> {
    let (Some(path), Some(word)) = (given.get_str("PATH"), given.get_str("WORD")) else {
        return Err(ArgumentsFault::Refused);
    };
    let more = given.get_str("MORE");
    if !fits(word, more) {
        return Err(ArgumentsFault::Refused);
    }
    Ok(Job::Tell(TellJob { path, word, more }))
}
