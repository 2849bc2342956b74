//! The gate of a proxy that is one of a fleet: others run by the tree in use while it loads the next one.

ghost use Rattle.std.specs.Prelude.{◌≡◌, ◌∷◌, [], IfOk, IsTrue};
ghost use Rattle.mcgate_ends.specs.FleetMembers.{MayJoinFleet, StandBeside};

use crate::fleets::faults::{FleetFile, write_fleet_fault};
use crate::fleets::lines::write_copying;
use core_accepted::fleets::gates::copied::{Copied, copied_by};
use core_accepted::fleets::gates::judging::{FleetFault, judge_fleet};
use mcgate_lines::RunFault;
use mcgate_lines::status::REFUSED;
use route_json::Config;
use std::alloc::{AllocError, Global};
use std::io::Write;

/// Whether a proxy that is one of a fleet may begin by the configuration of this file: where by its tree a get copies, that is printed as
/// `mcgate check --fleet` does, and the answer is the status.
pub fn refused_first<W: Write>(
    alloc: Global,
    name: &str,
    config: &Config,
    out: &mut W,
) -> Result<Option<u8>, RunFault>
    ensures { IfOk result (MayJoinFleet config.now.tree (W.contents out.old) (W.contents out.new)) }
{
    match copied_by(alloc, config.tree())? {
        Copied::Nothing => Ok(None),
        Copied::Keys(prefix) => {
            write_copying(name, config.tree(), &prefix, out)?;
            Ok(Some(REFUSED))
        }
    }
}

// How the two configurations are called on a line.
fn named(alloc: Global, name: &str) -> FleetFile<'_> {
    FleetFile {
        name,
        text: String::new(alloc),
    }
}

// Prints why the second configuration may not follow the first.
fn print_unfollowed<W: Write>(
    alloc: Global,
    word: &str,
    configs: &[Config],
    fault: &FleetFault,
    out: &mut W,
) -> Result<(), RunFault> {
    if matches!(fault, FleetFault::NoMemory) {
        return Err(RunFault::NoMemory);
    }
    let files = [named(alloc, "IN-USE"), named(alloc, "NEW")];
    write!(out, "{word} ")?;
    Ok(write_fleet_fault(&files, configs, fault, out)?)
}

// One after the other.
fn both(alloc: Global, in_use: &Config, config: &Config) -> Result<Vec<Config>, AllocError>
    ensures { IfOk result (λ configs. configs.items ≡ in_use.now ∷ config.now ∷ []) }
{
    let mut configs = Vec::new(alloc);
    configs.push(in_use.copy(alloc)?)?;
    configs.push(config.copy(alloc)?)?;
    Ok(configs)
}

/// Whether a proxy that is one of a fleet may run by the configuration after the one in use, while others run by that: as [`judge_fleet`]
/// says. Else why not is printed on a line `WORD refused: ..`, on which the one in use is called `IN-USE`, and the other `NEW`.
pub fn may_follow<W: Write>(
    alloc: Global,
    word: &str,
    in_use: &Config,
    config: &Config,
    out: &mut W,
) -> Result<bool, RunFault>
    ensures beside { IfOk result (λ may. IsTrue may → StandBeside in_use.now config.now) }
    ensures unwritten { IfOk result (λ may. IsTrue may → W.contents out.new ≡ W.contents out.old) }
{
    let configs = both(alloc, in_use, config)?;
    match judge_fleet(alloc, &configs) {
        Ok(()) => Ok(true),
        Err(fault) => {
            print_unfollowed(alloc, word, &configs, &fault, out)?;
            Ok(false)
        }
    }
}
