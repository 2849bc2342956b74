//! The next tree of a core.

ghost use Rattle.std.specs.Prelude.{◌≡◌, ◌<◌, length, IfOk, IfErr, OnOk, OnErr};
ghost use Rattle.gate_check.specs.Sound.{trees_of};
ghost use Rattle.gate_growth.specs.Grown.{AreSoundSince};
ghost use Rattle.core_proxy.specs.CoreState.{Reloads};
ghost use Rattle.core_accepted.specs.Known.{is_arbitrary, more};
ghost use Rattle.core_accepted.specs.Loading.{loading_fault, RefusesNext, RefusesAny};

use crate::generations::Generations;
use core_proxy::Core;
use core_proxy::limits::LAST_GENERATION;
use gate_check::ReloadFault;
use gate_growth::ledger::Unsound;
use route_json::Config;
use route_tree::Tree;
use std::alloc::Global;

/// Why a configuration was not loaded. All is as it was.
#[derive(Clone, Copy)]
pub enum LoadFault {
    /// What the ledger of the generations so far tells: `Uncovered` names the first gap and the generation that leaves it,
    /// `TooManyPlaces` the generation that the tree would be, where all trees together have too many. Or, where no gate was asked,
    /// that memory was refused; or `TooManyGenerations`, where the core's generation is [`LAST_GENERATION`].
    Refused(ReloadFault),
    /// The gate accepted the trees in use, and the new list of servers doesn't begin with theirs.
    OtherServers,
}

// Drops the configuration.
fn drop_config(_config: Config) {}

// Drops the tree.
fn drop_tree(_tree: Tree) {}

// The core's commands to come run by this tree.
fn take_tree(core: &mut Core, tree: Tree)
    requires { core.old.generation < LAST_GENERATION }
    ensures { Reloads core.old tree core.new }
{
    if core.reload(tree).is_err() {
        unreachable!()
    }
}

// The fault of a configuration that would be of this generation.
fn fault_of(unsound: Unsound, number: u32) -> ReloadFault
    ensures { result ≡ loading_fault unsound number }
{
    match unsound {
        Unsound::TooManyGenerations => ReloadFault::TooManyGenerations,
        Unsound::TooManyPlaces => ReloadFault::TooManyPlaces(number),
        Unsound::Left(generation, gap) => ReloadFault::Uncovered(generation, gap),
        Unsound::NoMemory => ReloadFault::NoMemory,
    }
}

/// The configuration is the next one that the gate accepts, and its tree the core's. It gives how many the gate has accepted,
/// with this one.
///
/// It is refused where its list of servers doesn't begin with the one in use, where the ledger finds a fault of its tree, where
/// the core has no number for one more tree, or memory was refused: all is then as it was.
pub fn load_accepted(
    core: &mut Core,
    generations: &mut Generations,
    alloc: Global,
    config: Config,
) -> Result<u32, LoadFault>
    ensures taken { OnOk result (generations.new ≡ more config generations.old) }
    ensures number { IfOk result (λ number. number ≡ length generations.new.configs) }
    ensures sound { OnOk result (AreSoundSince (is_arbitrary generations.new) (trees_of generations.new.configs)) }
    ensures loaded { OnOk result (Reloads core.old config.tree core.new) }
    ensures refused { IfErr result (λ fault. RefusesNext core.old generations.old config fault) }
    ensures same { OnErr result ((core.new ≡ core.old) × (generations.new ≡ generations.old)) }
{
    if !generations.keeps_numbers(&config) {
        drop_config(config);
        return Err(LoadFault::OtherServers);
    }
    let last = core.generation();
    if last == LAST_GENERATION {
        drop_config(config);
        return Err(LoadFault::Refused(ReloadFault::TooManyGenerations));
    }
    let Ok(tree) = config.tree().copy() else {
        drop_config(config);
        return Err(LoadFault::Refused(ReloadFault::NoMemory));
    };
    match generations.follow(alloc, config) {
        Ok(number) => {
            take_tree(core, tree);
            Ok(number)
        }
        Err(unsound) => {
            drop_tree(tree);
            Err(LoadFault::Refused(fault_of(unsound, last + 1)))
        }
    }
}

/// The configuration's tree is the core's, and no gate is asked. It gives the core's generation.
///
/// It is refused where the core has no number for one more tree, or memory was refused: the core is then as it was.
pub fn load_any(core: &mut Core, config: Config) -> Result<u32, LoadFault>
    ensures number { IfOk result (λ number. number ≡ core.new.generation) }
    ensures loaded { OnOk result (Reloads core.old config.tree core.new) }
    ensures refused { IfErr result (λ fault. RefusesAny core.old fault) }
    ensures same { OnErr result (core.new ≡ core.old) }
{
    let tree = config.tree().copy();
    drop_config(config);
    let Ok(tree) = tree else {
        return Err(LoadFault::Refused(ReloadFault::NoMemory));
    };
    match core.reload(tree) {
        Ok(number) => Ok(number),
        Err(_) => Err(LoadFault::Refused(ReloadFault::TooManyGenerations)),
    }
}
