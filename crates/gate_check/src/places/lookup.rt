//! Rows of tables, and the place of a key. None of these calls takes memory.

ghost use Rattle.std.specs.Prelude.{◌≡◌, ◌<◌, ◌≤◌, [], ◌∷◌, map};
ghost use Rattle.route_tree.specs.Route.{Route};
ghost use Rattle.route_tree.specs.Place.{IsPlaceOf};
ghost use Rattle.gate_check.specs.declared.places.table.Class.{Class};
ghost use Rattle.gate_check.specs.Valid.{IsTableOf};
ghost use Rattle.gate_check.specs.Tables.{most_rows, row_count};
ghost use Rattle.gate_check.specs.Lookup.{IsPlaceOfRow, longest_in, longer};

use crate::places::table::{Class, PlaceTable};
use mc_types::Key;
use route_tree::{Place, key_hash};

impl PlaceTable {
    /// The place of the key.
    pub fn of(&self, key: &Key) -> Place
        requires { 0 < self.now.modulus }
        ensures { (tree : Route) → IsTableOf (tree ∷ []) self.now → IsPlaceOf tree key.now result }
    {
        Place {
            prefix: longest_in(&self.classes, key),
            residue: key_hash(key) % self.modulus,
            modulus: self.modulus,
        }
    }

    /// The number of places.
    pub fn rows(&self) -> u32
        requires some { 0 < self.now.modulus }
        requires within { row_count self.now ≤ most_rows }
        ensures { result ≡ row_count self.now }
    {
        self.classes.len() as u32 * self.modulus
    }

    /// The place of the row.
    pub fn place(&self, row: u32) -> Place
        requires { row < row_count self.now }
        ensures { IsPlaceOfRow self.now row result }
    {
        let class = &self.classes[(row / self.modulus) as usize];
        Place {
            prefix: class.prefix,
            residue: row % self.modulus,
            modulus: self.modulus,
        }
    }
}

// The longest prefix of the classes that begins the key.
fn longest_in(classes: &[Class], key: &Key) -> Option<Key>
    ensures { result ≡ longest_in (map (λ (c : Class). c.prefix) classes.now) key.now }
{
    match classes {
        [] => None,
        [first, rest @ ..] => {
            let best = longest_in(rest, key);
            longer(&first.prefix, best, key)
        }
    }
}

// The prefix where it begins the key and is no shorter than the best so far.
fn longer(prefix: &Option<Key>, best: Option<Key>, key: &Key) -> Option<Key>
    ensures { result ≡ longer prefix.now best key.now }
{
    match prefix {
        None => best,
        Some(own) => {
            if !key.as_bytes().starts_with(own.as_bytes()) {
                return best;
            }
            match &best {
                None => Some(*own),
                Some(other) => {
                    if own.as_bytes().len() < other.as_bytes().len() {
                        best
                    } else {
                        Some(*own)
                    }
                }
            }
        }
    }
}
