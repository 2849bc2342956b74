//! The arguments of `mcgate loopback`, and what they ask for.

use crate::arguments::{ArgumentsFault, Job, most_of};
use clap::ArgMatches;

pub const LOOPBACK_HELP: &str = "usage: mcgate loopback [--flush-all] [--generations N] [SCRIPT]

Reads a script, of the file SCRIPT or of standard input: a configuration on its first line, or pool N, and then one event a line,
or reload and a configuration, which is loaded there.
Runs it with the proxy, its clients and cache servers as ends of TCP connections on 127.0.0.1, in one thread and at ports that the
system picks. It prints what mcgate replay prints, but no count of stale replies:
  < C TEXT               new output of client C
  done N commands M calls
  --flush-all            servers that a reload brings are emptied by `flush_all` before all else, and judged by that, as those of
                         mcgate serve --new-servers flush; without it that line is an ERROR
  --generations N        at most N trees are held, the first one among them: 1..=4294967295, 16 where it is left out
A tree that the gate refuses isn't run, and its refused: line is printed.
Exit status: 0 done, 1 refused by the gate, 2 bad script, 3 memory, a device or a socket failed.
";

/// What the arguments after `loopback` ask for.
pub fn loopback_job<'a>(given: &ArgMatches<'a>) -> Result<Job<'a>, ArgumentsFault> {
    Ok(Job::Loopback {
        file: given.get_str("SCRIPT"),
        flushes_new: given.get_flag("flush-all"),
        most: most_of(given)?,
    })
}
