//! The arguments of `mcgate history` and of `mcgate check --history`, and what they ask for.

use crate::arguments::{ArgumentsFault, Job};
use clap::ArgMatches;

pub const HISTORY_HELP: &str = "usage: mcgate history FILE

Reads what mcgate serve --history FILE remembers, and prints how many generations there were, and what each server may hold:
  generations=N
  server=A clean         nothing was put there, and it began with nothing
  server=A held          items, but every delete of them went there too
  server=A left generation=G prefix=P residue=R/L
                         also items that a delete under generation G, or a later one, left there: first at that place
and what that means for the next configuration.
  history: line N: ..    why FILE is no history
Exit status: 0 done, 2 no history, 3 memory or a device failed.
";

/// What the arguments after `history` ask for.
pub fn history_job<'a>(given: &ArgMatches<'a>) -> Result<Job<'a>, ArgumentsFault> {
    match given.get_str("FILE") {
        Some(file) => Ok(Job::History { file }),
        None => Err(ArgumentsFault::Refused),
    }
}
