//! The gate for fleets: whether proxies may run by any of some trees at the same time.

ghost use Rattle.std.specs.Prelude.{◌≡◌, ℕ, ◌+◌, ◌<◌, List, length, slice_get, MatchResult, Some};
ghost use Rattle.route_tree.specs.Each.{Each};
ghost use Rattle.route_tree.specs.Route.{IsTree, Route};
ghost use Rattle.gate_check.specs.Reload.{IsFaultAmong};
ghost use Rattle.gate_check.specs.Sound.{trees_of};
ghost use Rattle.core_accepted.specs.FleetGate.{AreAllCovering, AreSideBySide, IsFleetFault};
ghost use Rattle.core_accepted.specs.Rollout.{TreesCopyNothing};
ghost use Rattle.core_accepted.specs.declared.fleets.gates.judging.FleetFault.{FleetFault};

use crate::fleets::gates::copied::{Copied, copied_by};
use gate_check::Gap;
use gate_check::reloading::{MOST_GENERATIONS, ReloadFault, all_cover};
use mc_types::Key;
use route_json::Config;
use std::alloc::Global;

/// Why proxies may not run by some trees at the same time: the first of these that holds. Trees are counted from 0.
///
/// Source: mcgate's own.
#[derive(Clone, Copy)]
pub enum FleetFault {
    /// By this tree, the first of such, a get of the keys of this prefix copies.
    Copies(usize, Option<Key>),
    /// The two trees together have more than [`gate_check::places::PLACE_LIMIT`] places.
    TooManyPlaces {
        reads: usize,
        deletes: usize,
    },
    /// The first gap, tree by tree of those that read, and then of those that delete: the one takes the server, and the other doesn't
    /// clear it.
    Uncovered {
        reads: usize,
        deletes: usize,
        gap: Gap,
    },
    /// Memory was refused.
    NoMemory,
}

// The first tree that copies.
fn none_copies(alloc: Global, configs: &[Config]) -> Result<(), FleetFault>
    ensures { MatchResult result (λ _. Each IsTree (trees_of configs.now) × TreesCopyNothing (trees_of configs.now)) (IsFleetFault (trees_of configs.now)) }
{
    for index in 0..configs.len() {
        let tree = configs[index].tree();
        let _form = tree.form();
        match copied_by(alloc, tree) {
            Err(_) => return Err(FleetFault::NoMemory),
            Ok(Copied::Keys(prefix)) => return Err(FleetFault::Copies(index, prefix)),
            Ok(Copied::Nothing) => {}
        }
    }
    Ok(())
}

// The number from 0 of what has this number from 1.
fn before(generation: u32) -> usize
    ensures { (i : ℕ) → generation ≡ i + 1 → result ≡ i }
{
    if generation == 0 {
        0
    } else {
        generation as usize - 1
    }
}

// What is wrong where not all trees are known to cover the one of this number.
fn fault_of_reader(reads: usize, fault: ReloadFault) -> FleetFault
    ensures { (trees : List Route) (tree : Route) → slice_get trees reads ≡ Some tree → TreesCopyNothing trees → AreAllCovering trees reads → IsFaultAmong trees tree fault → IsFleetFault trees result }
{
    match fault {
        ReloadFault::TooManyGenerations | ReloadFault::NoMemory => FleetFault::NoMemory,
        ReloadFault::TooManyPlaces(generation) => FleetFault::TooManyPlaces {
            reads,
            deletes: before(generation),
        },
        ReloadFault::Uncovered(generation, gap) => FleetFault::Uncovered {
            reads,
            deletes: before(generation),
            gap,
        },
    }
}

// Whether each covers each.
fn each_covers(alloc: Global, configs: &[Config]) -> Result<(), FleetFault>
    requires few { length configs.now < MOST_GENERATIONS }
    requires copy_nothing { TreesCopyNothing (trees_of configs.now) }
    ensures { MatchResult result (λ _. AreAllCovering (trees_of configs.now) (length configs.now)) (IsFleetFault (trees_of configs.now)) }
{
    for reads in 0..configs.len() {
        match all_cover(alloc, configs, configs[reads].tree()) {
            Ok(()) => {}
            Err(fault) => return Err(fault_of_reader(reads, fault)),
        }
    }
    Ok(())
}

/// Whether proxies may run by any of the configurations' trees at the same time: each clears what it and each other take, and by none
/// of them a get copies, whatever its key. Every run of such a fleet is fresh, as
/// [`crate::fleets::gates::laws::accepted_fleet_is_fresh`] says.
///
/// The configurations number servers alike. Memory aside, and pairs of more than 262,144 places, exactly such trees are accepted. It
/// looks at each tree by itself, and then at each pair.
pub fn judge_fleet(alloc: Global, configs: &[Config]) -> Result<(), FleetFault>
    requires { length configs.now < MOST_GENERATIONS }
    ensures { MatchResult result (λ _. AreSideBySide (trees_of configs.now)) (IsFleetFault (trees_of configs.now)) }
{
    match none_copies(alloc, configs) {
        Err(fault) => Err(fault),
        Ok(()) => each_covers(alloc, configs),
    }
}
