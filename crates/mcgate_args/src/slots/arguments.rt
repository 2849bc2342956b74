//! The arguments of `mcgate slots`, and what they ask for.

use crate::arguments::{ArgumentsFault, Job, texts_of};
use clap::ArgMatches;
use std::alloc::Global;

pub const SLOTS_HELP: &str =
    "usage: mcgate slots [--add ADDR | --remove ADDR] [--pool NAME] [--after FILE ..] [FILE]

Reads a configuration in JSON, of FILE or of standard input, and prints it with a table of slots in a pool:
  without --add and --remove   the table of the list as it is: no key moves
  with --add                   ADDR gets its share of the slots, of those servers that have the most
  with --remove                the slots of ADDR go to the others, to those first that have the fewest
The pool is NAME; it may be left out where there is one. No slot goes to a server that had a key of it by the configuration of
an earlier FILE, in whatever pool.
  slots: ..              why there is no such table
  config: ..             the first fault of what is no configuration
Exit status: 0 done, 1 no such table, 2 bad arguments or no configuration, 3 memory or a device failed.
";

/// How the servers of a pool are changed.
#[derive(Clone, Copy)]
pub enum SlotsChange<'a> {
    /// Not at all.
    Keep,
    /// This address is added.
    Add(&'a str),
    /// This address is taken out.
    Remove(&'a str),
}

/// What `mcgate slots` is to do, with the configuration of a file or of standard input.
#[derive(Drop)]
pub struct SlotsJob<'a> {
    pub change: SlotsChange<'a>,
    /// The pool's name; it may be left out where there is one.
    pub pool: Option<&'a str>,
    /// The files of earlier configurations.
    pub after: Vec<&'a str>,
    pub file: Option<&'a str>,
}

fn change_of<'a>(given: &ArgMatches<'a>) -> Result<SlotsChange<'a>, ArgumentsFault> {
    match (given.get_str("add"), given.get_str("remove")) {
        (None, None) => Ok(SlotsChange::Keep),
        (Some(address), None) => Ok(SlotsChange::Add(address)),
        (None, Some(address)) => Ok(SlotsChange::Remove(address)),
        (Some(_), Some(_)) => Err(ArgumentsFault::Refused),
    }
}

/// What the arguments after `slots` ask for.
pub fn slots_job<'a>(alloc: Global, given: &ArgMatches<'a>) -> Result<Job<'a>, ArgumentsFault> {
    Ok(Job::Slots(SlotsJob {
        change: change_of(given)?,
        pool: given.get_str("pool"),
        after: texts_of(alloc, given, "after")?,
        file: given.get_str("FILE"),
    }))
}
