//! What is printed of a change from one configuration to another.

ghost use Rattle.std.specs.Prelude.{◌≡◌};
ghost use Rattle.mcgate_args.specs.Planning.{PlansTexts, planned_status};

use core_accepted::Beginnings;
use gate_plan::{Planned, write_plan_from};
use mcgate_ends::ends::Stop;
use mcgate_lines::status::{BAD_INPUT, DONE, REFUSED};
use std::alloc::Global;
use std::io::Write;

// The exit status of what became of a plan.
fn status_of(planned: Planned) -> u8
    ensures { result ≡ planned_status planned }
{
    match planned {
        Planned::AtOnce => DONE,
        Planned::BySteps => DONE,
        Planned::Anew => REFUSED,
        Planned::Refused => REFUSED,
        Planned::NoConfig => BAD_INPUT,
    }
}

/// Prints how to get from one text's configuration, whose servers began so, to the other's. The answer is the exit status.
pub fn run_plan<W: Write>(
    alloc: Global,
    begun: Beginnings,
    old: &str,
    new: &str,
    out: &mut W,
) -> Result<u8, Stop>
    ensures { PlansTexts begun old.now new.now result }
{
    let planned = write_plan_from(alloc, old, new, begun.opened, begun.added, out)?;
    Ok(status_of(planned))
}
