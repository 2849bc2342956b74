//! The text that a prefix stands for.

ghost use Rattle.std.specs.Prelude.{◌≡◌};
ghost use Rattle.route_tree.specs.Place.{prefix_text};

use mc_types::Key;

/// The text of a prefix, empty where there is none. It takes no memory.
pub fn prefix_text(prefix: &Option<Key>) -> &[u8]
    ensures { result.now ≡ prefix_text prefix.now }
{
    match prefix {
        Some(prefix) => prefix.as_bytes(),
        None => &[],
    }
}
