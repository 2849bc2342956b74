//! The arguments of `mcgate check --fleet`.

use crate::arguments::{ArgumentsFault, texts_of};
use clap::ArgMatches;
use std::alloc::Global;

/// What `mcgate check --fleet` is to judge: the configurations of these files, and of a last file or of standard input.
#[derive(Drop)]
pub struct FleetJob<'a> {
    pub with: Vec<&'a str>,
    pub file: Option<&'a str>,
}

/// Whether a fleet's flags stand there.
pub fn is_of_fleet(given: &ArgMatches<'_>) -> bool {
    given.get_flag("fleet") || given.contains_id("with")
}

/// What the arguments after `check` ask for, where a fleet's flags stand there: `--fleet`, and none of the flags of other forms.
pub fn fleet_job<'a>(
    alloc: Global,
    given: &ArgMatches<'a>,
) -> Result<FleetJob<'a>, ArgumentsFault> {
    if !given.get_flag("fleet") || given.get_flag("explain") || given.get_flag("dot") {
        return Err(ArgumentsFault::Refused);
    }
    Ok(FleetJob {
        with: texts_of(alloc, given, "with")?,
        file: given.get_str("FILE"),
    })
}
