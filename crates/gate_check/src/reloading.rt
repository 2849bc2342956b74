//! Whether a tree may follow others.

ghost use Rattle.std.specs.Prelude.{◌≡◌, ◌+◌, ◌<◌, length, MatchResult};
ghost use Rattle.gate_check.specs.Pairs.{IsPairFault};
ghost use Rattle.gate_check.specs.Reload.{AreCovering, IsFaultAmong};
ghost use Rattle.gate_check.specs.Numbered.{numbered_fault};
ghost use Rattle.gate_check.specs.Sound.{trees_of};

use crate::gap::Gap;
use crate::pairs::{PairFault, covers};
use route_json::Config;
use route_tree::Tree;
use std::alloc::Global;

/// How many generations are held at most. mcgate's own.
pub const MOST_GENERATIONS: usize = 16;

/// Why a configuration isn't loaded: the first of these that holds, for each generation from the first on, the new
/// configuration's own last. Generations are counted from 1.
///
/// Source: mcgate's own.
#[derive(Clone, Copy)]
pub enum ReloadFault {
    /// [`MOST_GENERATIONS`] generations are held.
    TooManyGenerations,
    /// This generation's tree and the new one together have more than [`crate::places::PLACE_LIMIT`] places.
    TooManyPlaces(u32),
    /// The first gap: the new tree takes the server, and the tree of this generation doesn't clear it.
    Uncovered(u32, Gap),
    /// Memory was refused.
    NoMemory,
}

/// The fault of a generation.
pub fn numbered(generation: u32, fault: PairFault) -> ReloadFault
    ensures { result ≡ numbered_fault generation fault }
{
    match fault {
        PairFault::TooManyPlaces => ReloadFault::TooManyPlaces(generation),
        PairFault::Uncovered(gap) => ReloadFault::Uncovered(generation, gap),
        PairFault::NoMemory => ReloadFault::NoMemory,
    }
}

/// Whether the tree of each of the configurations covers the tree.
pub fn all_cover(alloc: Global, configs: &[Config], tree: &Tree) -> Result<(), ReloadFault>
    requires { length configs.now < MOST_GENERATIONS }
    ensures { MatchResult result (λ _. AreCovering (trees_of configs.now) tree.now (length configs.now)) (IsFaultAmong (trees_of configs.now) tree.now) }
{
    for index in 0..configs.len() {
        match covers(alloc, configs[index].tree(), tree) {
            Ok(()) => {}
            Err(fault) => return Err(numbered(index as u32 + 1, fault)),
        }
    }
    Ok(())
}
