//! How lines on standard error are to be written, by the arguments of `mcgate serve`.

use crate::arguments::ArgumentsFault;
use clap::ArgMatches;
use mcgate_ends::logs::{Level, Log, level_of};

/// How lines are to be written, if not as they are.
pub fn log_of(given: &ArgMatches<'_>) -> Result<Option<Log>, ArgumentsFault> {
    let json = given.get_flag("log-json");
    match given.get_str("log-level") {
        Some(word) => Ok(Some(Log {
            level: level_of(word).ok_or(ArgumentsFault::Refused)?,
            json,
        })),
        None if json => Ok(Some(Log {
            level: Level::Info,
            json,
        })),
        None => Ok(None),
    }
}
