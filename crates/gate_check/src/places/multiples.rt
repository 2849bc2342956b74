//! Least common multiples.

ghost use Rattle.std.specs.Prelude.{◌≡◌, ◌<◌, ◌≤◌, [], ◌∷◌};
ghost use Rattle.route_tree.specs.Place.{IsLeastCommonMultiple};

use crate::places::table::PLACE_LIMIT;
use route_tree::SLOT_LIMIT;

/// The least common multiple of the two. It takes no memory.
pub fn common_multiple(a: u32, b: u32) -> u32
    requires some_a { 0 < a }
    requires within_a { a ≤ PLACE_LIMIT }
    requires some_b { 0 < b }
    requires within_b { b ≤ SLOT_LIMIT }
    ensures { IsLeastCommonMultiple (a ∷ b ∷ []) result }
{
    for times in 1..b {
        if a * times % b == 0 {
            return a * times;
        }
    }
    a * b
}
