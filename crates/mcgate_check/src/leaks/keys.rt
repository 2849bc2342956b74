//! The keys that are tried for a place.
ghost use Rattle.std.specs.Prelude.{◌≡◌, ◌↔◌, ◌++◌, [], ◌∷◌, IfOk, IsTrue};
ghost use Rattle.gate_check.specs.Tables.{IsTable};
ghost use Rattle.mcgate_check.specs.Tried.{tried_text, IsTried, IsFirstTried};

use gate_check::places::PlaceTable;
use gate_coverage::prefixes::prefix_text;
use itoa::Buffer;
use mc_types::Key;
use route_tree::{Place, Tree};
use std::alloc::{AllocError, Global};

/// How many keys are tried.
pub const TRIED: u32 = 65_536;

// The prefix, `k`, and the number.
fn tried_text(alloc: Global, prefix: &Option<Key>, number: u32) -> Result<Vec<u8>, AllocError>
    ensures { IfOk result (λ text. text.items ≡ tried_text prefix.now number) }
{
    let mut buffer = Buffer::new();
    let mut text = Vec::from_slice(alloc, prefix_text(prefix))?;
    text.extend_from_slice(b"k")?;
    text.extend_from_slice(buffer.format(number).as_bytes())?;
    Ok(text)
}

fn is_same_prefix(own: &Option<Key>, other: &Option<Key>) -> bool
    ensures { IsTrue result ↔ (own.now ≡ other.now) }
{
    match (own, other) {
        (None, None) => true,
        (Some(own), Some(other)) => own.as_bytes() == other.as_bytes(),
        _ => false,
    }
}

fn is_same_place(own: &Place, other: &Place) -> bool
    ensures { IsTrue result ↔ (own.now ≡ other.now) }
{
    own.residue == other.residue
        && own.modulus == other.modulus
        && is_same_prefix(&own.prefix, &other.prefix)
}

// The key of this number, where its text is a key at the place.
fn tried_at(
    alloc: Global,
    tree: &Tree,
    table: &PlaceTable,
    place: &Place,
    number: u32,
) -> Result<Option<Key>, AllocError>
    requires { IsTable (tree.now ∷ []) table.now }
    ensures { IfOk result (IsTried tree.now place.now number) }
{
    let _tree = tree;
    let text = tried_text(alloc, &place.prefix, number)?;
    let Ok(key) = Key::read(text.as_slice()) else {
        return Ok(None);
    };
    if is_same_place(&table.of(&key), place) {
        Ok(Some(key))
    } else {
        Ok(None)
    }
}

/// The first key at the place among the place's prefix followed by `k0`, `k1`, .. `k65535`; texts that are no key are
/// passed over. The only error is running out of memory.
pub fn key_at(
    alloc: Global,
    tree: &Tree,
    table: &PlaceTable,
    place: &Place,
) -> Result<Option<Key>, AllocError>
    requires { IsTable (tree.now ∷ []) table.now }
    ensures { IfOk result (IsFirstTried tree.now place.now) }
{
    for number in 0..TRIED {
        if let Some(key) = tried_at(alloc, tree, table, place, number)? {
            return Ok(Some(key));
        }
    }
    Ok(None)
}
