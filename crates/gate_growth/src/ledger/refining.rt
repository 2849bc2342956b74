//! The places of one tree more: their modulus, their prefixes, and what was known of them.

ghost use Rattle.std.specs.Prelude.{◌≡◌, ◌<◌, ◌≤◌, ◌∷◌, ◌++◌, List, length, slice_get, Some, IfOk, IfSome, if◌then◌else◌};
ghost use Rattle.route_tree.specs.Route.{Route};
ghost use Rattle.route_tree.specs.Place.{sizes, prefixes, prefix_text};
ghost use Rattle.gate_check.specs.Tables.{most_rows, AreSizes, IsMultiple};
ghost use Rattle.gate_check.specs.Texts.{ordered};
ghost use Rattle.gate_growth.specs.Classes.{given, given_one, class_prefixes, IsBestAt};
ghost use Rattle.gate_growth.specs.PlaceRows.{AreRowsOf};
ghost use Rattle.gate_growth.specs.Finer.{begins_longer, IfFinerRows};
ghost use Rattle.gate_growth.specs.declared.ledger.class.ClassPages.{ClassPages};

use crate::ledger::class::ClassPages;
use gate_check::places::PLACE_LIMIT;
use gate_check::places::collecting::{add_prefixes, add_sizes};
use gate_check::places::multiples::common_multiple;
use gate_check::places::texts::ordered;
use gate_coverage::prefixes::prefix_text;
use mc_types::Key;
use route_tree::Tree;
use std::alloc::{AllocError, Global};

/// The modulus of places, and their prefixes in byte order.
#[derive(Drop)]
pub struct FinerRows {
    pub modulus: u32,
    pub texts: Vec<Key>,
}

/// The places of trees, which have these classes and this modulus, and of one tree more, unless they are too many. The only
/// error is that memory was refused.
pub fn finer_rows(
    alloc: Global,
    classes: &[ClassPages],
    modulus: u32,
    tree: &Tree,
) -> Result<Option<FinerRows>, AllocError>
    requires some { 0 < modulus }
    requires within { modulus ≤ most_rows }
    ensures rows { IfOk result (λ found. (trees : List Route) → AreRowsOf trees (class_prefixes classes.now) modulus → IfFinerRows trees tree.now found) }
    ensures small { IfOk result (λ found. IfSome found (λ finer. (0 < finer.modulus) × (finer.modulus ≤ most_rows))) }
{
    let modulus = match finer_modulus(alloc, modulus, tree)? {
        None => return Ok(None),
        Some(modulus) => modulus,
    };
    let texts = finer_prefixes(alloc, classes, tree)?;
    if texts.len() >= (PLACE_LIMIT / modulus) as usize {
        return Ok(None);
    }
    Ok(Some(FinerRows { modulus, texts }))
}

// The least common multiple of this one and the sizes of the tree's pools, unless it is too large. The only error is that
// memory was refused.
fn finer_modulus(alloc: Global, modulus: u32, tree: &Tree) -> Result<Option<u32>, AllocError>
    requires some { 0 < modulus }
    requires within { modulus ≤ most_rows }
    ensures { IfOk result (IsMultiple (modulus ∷ sizes tree.now)) }
{
    let _form = tree.form();
    let mut list = Vec::new(alloc);
    add_sizes(tree, &mut list)?;
    Ok(multiple_with(modulus, &list))
}

// The least common multiple of this one and the sizes, unless it is too large.
fn multiple_with(modulus: u32, sizes: &[usize]) -> Option<u32>
    requires some { 0 < modulus }
    requires within { modulus ≤ most_rows }
    requires sizes { AreSizes sizes.now }
    ensures { IsMultiple (modulus ∷ sizes.now) result }
{
    match sizes {
        [] => Some(modulus),
        [first, rest @ ..] => {
            let more = common_multiple(modulus, *first as u32);
            if more <= PLACE_LIMIT {
                multiple_with(more, rest)
            } else {
                None
            }
        }
    }
}

// The classes' prefixes and the tree's, each once, in byte order. The only error is that memory was refused.
fn finer_prefixes(
    alloc: Global,
    classes: &[ClassPages],
    tree: &Tree,
) -> Result<Vec<Key>, AllocError>
    ensures { IfOk result (λ texts. texts.items ≡ ordered (given (class_prefixes classes.now) ++ prefixes tree.now)) }
{
    let mut list = Vec::new(alloc);
    for class in classes {
        add_prefix(&class.prefix, &mut list)?;
    }
    add_prefixes(tree, &mut list)?;
    ordered(alloc, &list)
}

// Adds the prefix, where there is one.
fn add_prefix(prefix: &Option<Key>, list: &mut Vec<Key>) -> Result<(), AllocError>
    ensures { IfOk result (λ _. list.new.items ≡ list.old.items ++ given_one prefix.now) }
{
    match prefix {
        Some(prefix) => list.push(*prefix)?,
        None => {}
    }
    Ok(())
}

/// The place in the list of the class whose prefix is the longest that begins the text. It takes no memory.
pub fn class_of(classes: &[ClassPages], text: &[u8]) -> usize
    requires { 0 < length classes.now }
    ensures within { result < length classes.now }
    ensures best { IsBestAt classes.now text.now result }
{
    let mut best = 0;
    for index in 0..classes.len() {
        best = better(classes, best, index, text);
    }
    best
}

// The second where its prefix begins the text and is longer than the first one's.
fn better(classes: &[ClassPages], best: usize, index: usize, text: &[u8]) -> usize
    requires best { best < length classes.now }
    requires index { index < length classes.now }
    ensures { (a b : ClassPages) → slice_get classes.now best ≡ Some a → slice_get classes.now index ≡ Some b → result ≡ (if begins_longer (prefix_text a.prefix) (prefix_text b.prefix) text.now then index else best) }
{
    let own = prefix_text(&classes[index].prefix);
    let other = prefix_text(&classes[best].prefix);
    if is_longer(other, own, text) {
        index
    } else {
        best
    }
}

// Whether the second begins the text and is longer than the first.
fn is_longer(other: &[u8], own: &[u8], text: &[u8]) -> bool
    ensures { result ≡ begins_longer other.now own.now text.now }
{
    text.starts_with(own) && other.len() < own.len()
}
