//! The arguments of `mcgate cache`, and what they ask for.

use crate::arguments::{ArgumentsFault, Job, count_of};
use cache_tcp::Settings;
use clap::ArgMatches;

/// What `mcgate cache` is to do.
#[derive(Clone, Copy)]
pub struct CacheJob<'a> {
    /// Where to listen: a host and a port.
    pub listen: &'a str,
    pub settings: Settings,
    /// Items and what is to be sent take so many MiB at most; without a number as many as the items want.
    pub memory_mb: Option<u32>,
    /// After so many turns it ends; without a number it doesn't.
    pub turns: Option<u32>,
}

pub const CACHE_HELP: &str =
    "usage: mcgate cache --listen HOST:PORT --capacity C [--memory-mb N] [--flush-all] [--turns N]

Is one memcached server, in both dialects, over TCP. One line tells on standard error when it listens.
  --listen HOST:PORT     where; with port 0 the system picks one
  --capacity C           it keeps at most C items; a new one drops the one that was used least recently
  --memory-mb N          items and replies that clients don't take have N MiB at most; for more, items are dropped, the least recently
                         used first, and of replies that take half of it, the client that leaves most of them is closed
  --flush-all            a client may empty it, by `flush_all`; without it that line is an ERROR
  --turns N              ends after N turns; without it, it doesn't end. A turn serves the clients that are ready, each one read
C and N are 1..=4294967295. At most 1,024 clients are served at a time.
Exit status: 0 done, 2 bad arguments, 3 memory or a device failed, also where it can't listen there.
";

// The settings for a capacity, of one item at least.
fn settings_of(given: &ArgMatches<'_>) -> Result<Settings, ArgumentsFault> {
    match count_of(given, "capacity")? {
        Some(capacity) if capacity > 0 => Ok(Settings::of(capacity as usize).with_flushes(
            given.get_flag("flush-all"),
        )),
        _ => Err(ArgumentsFault::Refused),
    }
}

/// What the arguments after `cache` ask for. Any that ask for nothing are [`ArgumentsFault::Refused`].
pub fn cache_job<'a>(given: &ArgMatches<'a>) -> Result<Job<'a>, ArgumentsFault> {
    let Some(listen) = given.get_str("listen") else {
        return Err(ArgumentsFault::Refused);
    };
    Ok(Job::Cache(CacheJob {
        listen,
        settings: settings_of(given)?,
        memory_mb: count_of(given, "memory-mb")?,
        turns: count_of(given, "turns")?,
    }))
}
