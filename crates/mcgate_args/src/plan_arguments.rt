//! The arguments of `mcgate plan`, and what they ask for.

use crate::arguments::{ArgumentsFault, Job};
use crate::beginning_arguments::begun_of;
use clap::ArgMatches;
use core_accepted::Beginnings;

/// A change from one configuration to another.
#[derive(Clone, Copy)]
pub struct PlanJob<'a> {
    /// The file of the one in use.
    pub old: &'a str,
    /// The file of the other.
    pub new: &'a str,
    /// How servers began.
    pub begun: Beginnings,
}

pub const PLAN_HELP: &str = "usage: mcgate plan [--opened WORD] [--new-servers WORD] OLD NEW

Reads two configurations in JSON, and prints whether NEW may follow OLD at once, and by which steps it may, one reload after another:
  old: VERDICT           OLD as the first configuration
  at once: VERDICT       NEW after it
  step 1, the old one with deletes to both: VERDICT
  step 2, the new one with deletes to both: VERDICT
  step 3, the new one: VERDICT
Each VERDICT is accepted, refused with the first server that a read may show though a delete under generation G left it, or the fault
of a configuration. After each step that is accepted stands its JSON, of which lines that begin with # say when it may be loaded.
Where NEW is refused at once, the steps begin anew, with emptied servers: no step in between helps then.
--opened and --new-servers say what servers held before, as of mcgate serve.
Exit status: 0 accepted, 1 refused, 2 no configuration, 3 memory or a device failed.
";

/// What the arguments after `plan` ask for.
pub fn plan_job<'a>(given: &ArgMatches<'a>) -> Result<Job<'a>, ArgumentsFault> {
    let (Some(old), Some(new)) = (given.get_str("OLD"), given.get_str("NEW")) else {
        return Err(ArgumentsFault::Refused);
    };
    Ok(Job::Plan(PlanJob {
        old,
        new,
        begun: begun_of(given)?,
    }))
}
