//! The arguments of `mcgate certify`, and what they ask for.

use crate::arguments::Job;
use clap::ArgMatches;

pub const CERTIFY_HELP: &str = "usage: mcgate certify [FILE]

Reads a configuration in JSON, of FILE or of standard input, and asks the gate. Of a tree that it accepts it prints a certificate,
one line of JSON: for each place the servers from which a read may take data, which each acknowledged delete clears.
mcgate-verify FILE CERTIFICATE tests it: a program of its own, which proposes nothing (./mcgate build mcgate-verify).
  refused: ..            there is no certificate: mcgate check says more
  config: ..             the first fault of what is no configuration
Exit status: 0 printed, 1 refused, 2 no configuration, 3 memory or a device failed.
";

/// What the arguments after `certify` ask for.
pub fn certify_job<'a>(given: &ArgMatches<'a>) -> Job<'a> {
    Job::Certify {
        file: given.get_str("FILE"),
    }
}
