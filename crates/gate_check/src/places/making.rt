//! The table of the places of a tree, or of two together.

ghost use Rattle.std.specs.Prelude.{◌≡◌, ◌<◌, ◌≤◌, [], ◌∷◌, ◌++◌, None, Some, map, IfOk, MatchResult};
ghost use Rattle.std.specs.Int.{◌∣◌};
ghost use Rattle.route_tree.specs.Each.{Each};
ghost use Rattle.route_tree.specs.Place.{sizes, prefixes, prefix_text, IsLeastCommonMultiple};
ghost use Rattle.gate_check.specs.Resolved.{resolved};
ghost use Rattle.gate_check.specs.Texts.{ordered};
ghost use Rattle.gate_check.specs.Valid.{IsClass};
ghost use Rattle.gate_check.specs.Tables.{most_rows, AreSizes, IsMultiple, IsTable, IfTable, IsPlaceFault};

use crate::places::collecting::{add_prefixes, add_sizes, add_sizes_at};
use crate::places::multiples::common_multiple;
use crate::places::table::{Class, PLACE_LIMIT, PlaceFault, PlaceTable};
use crate::places::texts::ordered;
use gate_coverage::prefixes::prefix_text;
use mc_types::Key;
use route_tree::{SLOT_LIMIT, Tree};
use std::alloc::{AllocError, Global};

/// The places of the tree: for each class a row for each residue below the least common multiple of the sizes of all the
/// tree's pools. The classes are no prefix, then the tree's distinct prefixes in byte order.
///
/// `TooManyPlaces` comes exactly where there would be more than [`PLACE_LIMIT`] rows, `NoMemory` where memory was refused.
#[tactic(auto, using(crate::proofs::Tabling::is_table_once, crate::proofs::Tabling::fault_once))]
pub fn places(alloc: Global, tree: &Tree) -> Result<PlaceTable, PlaceFault>
    ensures { MatchResult result (IsTable (tree.now ∷ [])) (IsPlaceFault (tree.now ∷ [])) }
{
    places_of_two(alloc, tree, tree)
}

/// The places of two trees together: the sizes and prefixes are those of both. The errors are those of `places`.
pub fn places_of_two(alloc: Global, first: &Tree, second: &Tree) -> Result<PlaceTable, PlaceFault>
    ensures { MatchResult result (IsTable (first.now ∷ second.now ∷ [])) (IsPlaceFault (first.now ∷ second.now ∷ [])) }
{
    match table_of_two(alloc, first, second) {
        Ok(Some(table)) => Ok(table),
        Ok(None) => Err(PlaceFault::TooManyPlaces),
        Err(_) => Err(PlaceFault::NoMemory),
    }
}

// The table, unless it is too large.
fn table_of_two(
    alloc: Global,
    first: &Tree,
    second: &Tree,
) -> Result<Option<PlaceTable>, AllocError>
    ensures { IfOk result (IfTable (first.now ∷ second.now ∷ [])) }
{
    let modulus = match modulus_of_two(alloc, first, second)? {
        None => return Ok(None),
        Some(modulus) => modulus,
    };
    let texts = texts_of_two(alloc, first, second)?;
    if texts.len() >= (PLACE_LIMIT / modulus) as usize {
        return Ok(None);
    }
    let classes = classes_of_two(alloc, first, second, modulus, &texts)?;
    Ok(Some(PlaceTable { modulus, classes }))
}

// The least common multiple of all sizes, unless it is too large.
#[tactic(auto, using(crate::proofs::SizeMultiples::sizes_two))]
fn modulus_of_two(alloc: Global, first: &Tree, second: &Tree) -> Result<Option<u32>, AllocError>
    ensures { IfOk result (IsMultiple (sizes first.now ++ sizes second.now)) }
{
    let _first = first.form();
    let _second = second.form();
    let mut list = Vec::new(alloc);
    add_sizes(first, &mut list)?;
    add_sizes(second, &mut list)?;
    Ok(least_multiple(&list))
}

// The least common multiple, unless it is too large.
#[tactic(auto, using(crate::proofs::SizeMultiples::none_is))]
fn least_multiple(sizes: &[usize]) -> Option<u32>
    requires { AreSizes sizes.now }
    ensures { IsMultiple sizes.now result }
{
    match sizes {
        [] => Some(1),
        [first, rest @ ..] => {
            let of_rest = least_multiple(rest);
            more_multiple(of_rest, rest, *first)
        }
    }
}

// The least common multiple of these and one more size.
#[tactic(auto, using(crate::proofs::SizeMultiples::still_large, crate::proofs::SizeMultiples::now_large, crate::proofs::SizeMultiples::still_small))]
fn more_multiple(of_rest: Option<u32>, rest: &[usize], first: usize) -> Option<u32>
    requires some { 0 < first }
    requires few { first ≤ SLOT_LIMIT }
    requires of_rest { IsMultiple rest.now of_rest }
    ensures { IsMultiple (first ∷ rest.now) result }
{
    let _rest = rest;
    match of_rest {
        None => None,
        Some(of_rest) => {
            let of_all = common_multiple(of_rest, first as u32);
            if of_all <= PLACE_LIMIT {
                Some(of_all)
            } else {
                None
            }
        }
    }
}

// The distinct prefixes, in byte order.
fn texts_of_two(alloc: Global, first: &Tree, second: &Tree) -> Result<Vec<Key>, AllocError>
    ensures { IfOk result (λ texts. texts.items ≡ ordered (prefixes first.now ++ prefixes second.now)) }
{
    let mut list = Vec::new(alloc);
    add_prefixes(first, &mut list)?;
    add_prefixes(second, &mut list)?;
    ordered(alloc, &list)
}

// The class of the prefix, where the whole is a multiple of all sizes.
fn class_of_two(
    alloc: Global,
    first: &Tree,
    second: &Tree,
    whole: u32,
    prefix: &Option<Key>,
) -> Result<Class, AllocError>
    requires some { 0 < whole }
    requires within { whole ≤ most_rows }
    requires common { Each (λ n. n ∣ whole) (sizes first.now ++ sizes second.now) }
    ensures { IfOk result (λ class. (class.prefix ≡ prefix.now) × IsClass (first.now ∷ second.now ∷ []) class) }
{
    let modulus = modulus_at(alloc, first, second, whole, prefix_text(prefix))?;
    Ok(Class {
        prefix: *prefix,
        modulus,
    })
}

// The least common multiple of the sizes that are left for the text.
#[tactic(auto, using(crate::proofs::SizeMultiples::sizes_two_left, crate::proofs::SizeMultiples::left_small))]
fn modulus_at(
    alloc: Global,
    first: &Tree,
    second: &Tree,
    whole: u32,
    text: &[u8],
) -> Result<u32, AllocError>
    requires some { 0 < whole }
    requires within { whole ≤ most_rows }
    requires common { Each (λ n. n ∣ whole) (sizes first.now ++ sizes second.now) }
    ensures { IfOk result (λ m. IsLeastCommonMultiple (sizes (resolved text.now first.now) ++ sizes (resolved text.now second.now)) m) }
{
    let _first = first.form();
    let _second = second.form();
    let list = sizes_at(alloc, first, second, text)?;
    match least_multiple(&list) {
        Some(modulus) => Ok(modulus),
        None => Ok(1),
    }
}

fn sizes_at(
    alloc: Global,
    first: &Tree,
    second: &Tree,
    text: &[u8],
) -> Result<Vec<usize>, AllocError>
    ensures { IfOk result (λ list. list.items ≡ sizes (resolved text.now first.now) ++ sizes (resolved text.now second.now)) }
{
    let mut list = Vec::new(alloc);
    add_sizes_at(text, first, &mut list)?;
    add_sizes_at(text, second, &mut list)?;
    Ok(list)
}

// No prefix, and each of the texts.
fn classes_of_two(
    alloc: Global,
    first: &Tree,
    second: &Tree,
    whole: u32,
    texts: &[Key],
) -> Result<Vec<Class>, AllocError>
    requires some { 0 < whole }
    requires within { whole ≤ most_rows }
    requires common { Each (λ n. n ∣ whole) (sizes first.now ++ sizes second.now) }
    ensures prefixes { IfOk result (λ classes. map (λ (c : Class). c.prefix) classes.items ≡ None ∷ map Some texts.now) }
    ensures moduli { IfOk result (λ classes. Each (IsClass (first.now ∷ second.now ∷ [])) classes.items) }
{
    let mut classes = Vec::new(alloc);
    classes.push(class_of_two(alloc, first, second, whole, &None)?)?;
    for text in texts {
        classes.push(class_of_two(alloc, first, second, whole, &Some(*text))?)?;
    }
    Ok(classes)
}
