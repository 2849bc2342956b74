//! Looks at the places of two trees together.

ghost use Rattle.std.specs.Prelude.{◌≡◌, [], ◌∷◌, IfOk, MatchResult};
ghost use Rattle.gate_check.specs.Places.{CoversAt};
ghost use Rattle.gate_check.specs.Tables.{IsTable};
ghost use Rattle.gate_check.specs.Pairs.{IsPairEnd, IsTwoEnd, IsPairFault};

use crate::finding::{Found, gap_at};
use crate::gap::Gap;
use crate::gate::gap_of;
use crate::places::{Class, PlaceFault, PlaceTable, places_of_two};
use gate_coverage::doubts::doubted_pools;
use gate_coverage::pools::taken_pools;
use route_tree::{Place, Tree};
use std::alloc::{AllocError, Global};

/// How the looks at a class end.
#[derive(Clone, Copy)]
pub enum PairEnd {
    Gap(u32, Found),
    Covered,
}

/// How the looks at all classes end.
#[derive(Clone, Copy)]
pub enum TwoEnd {
    Gap(usize, u32, Found),
    Covered,
}

/// Why the earlier tree isn't known to cover the later one.
#[derive(Clone, Copy)]
pub enum PairFault {
    TooManyPlaces,
    Uncovered(Gap),
    NoMemory,
}

// The first residue of the class with a gap.
fn pair_class(
    alloc: Global,
    earlier: &Tree,
    later: &Tree,
    class: &Class,
    modulus: u32,
) -> Result<PairEnd, AllocError>
    ensures { IfOk result (IsPairEnd earlier.now later.now modulus class.now) }
{
    let pools = taken_pools(alloc, later, class.text())?;
    let doubted = doubted_pools(alloc, earlier, class.text(), &pools)?;
    for residue in 0..class.modulus {
        match gap_at(alloc, earlier, later, class, modulus, residue, &doubted)? {
            None => {}
            Some(found) => return Ok(PairEnd::Gap(residue, found)),
        }
    }
    Ok(PairEnd::Covered)
}

/// The first class with a gap.
pub fn pair_classes(
    alloc: Global,
    earlier: &Tree,
    later: &Tree,
    classes: &[Class],
    modulus: u32,
) -> Result<TwoEnd, AllocError>
    ensures { IfOk result (IsTwoEnd earlier.now later.now modulus classes.now) }
{
    for index in 0..classes.len() {
        match pair_class(alloc, earlier, later, &classes[index], modulus)? {
            PairEnd::Covered => {}
            PairEnd::Gap(residue, found) => return Ok(TwoEnd::Gap(index, residue, found)),
        }
    }
    Ok(TwoEnd::Covered)
}

/// Whether the earlier tree covers the later one at all places of the two together.
pub fn covers(alloc: Global, earlier: &Tree, later: &Tree) -> Result<(), PairFault>
    ensures { MatchResult result (λ _. CoversAt earlier.now later.now) (IsPairFault earlier.now later.now) }
{
    match places_of_two(alloc, earlier, later) {
        Ok(table) => covers_by(alloc, earlier, later, &table),
        Err(PlaceFault::TooManyPlaces) => Err(PairFault::TooManyPlaces),
        Err(PlaceFault::NoMemory) => Err(PairFault::NoMemory),
    }
}

// Whether the earlier tree covers the later one at all places of the table of both.
fn covers_by(
    alloc: Global,
    earlier: &Tree,
    later: &Tree,
    table: &PlaceTable,
) -> Result<(), PairFault>
    requires { IsTable (earlier.now ∷ later.now ∷ []) table.now }
    ensures { MatchResult result (λ _. CoversAt earlier.now later.now) (IsPairFault earlier.now later.now) }
{
    match pair_classes(alloc, earlier, later, &table.classes, table.modulus) {
        Err(_) => Err(PairFault::NoMemory),
        Ok(TwoEnd::Covered) => Ok(()),
        Ok(TwoEnd::Gap(index, residue, found)) => {
            let place = Place {
                prefix: table.classes[index].prefix,
                residue,
                modulus: table.modulus,
            };
            Err(PairFault::Uncovered(gap_of(place, found)))
        }
    }
}
