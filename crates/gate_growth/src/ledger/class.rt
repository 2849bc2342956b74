//! The pages of a class of keys.

ghost use Rattle.std.specs.Prelude.{◌<◌, length};

use crate::ledger::page::Page;
use mc_types::Key;

/// The pages of a class of keys: of those that this prefix begins and no longer one, or of all that none begins. Each page is
/// of a remainder of their hashes.
#[derive(Drop)]
pub struct ClassPages {
    pub prefix: Option<Key>,
    pub pages: Vec<Page>,
    ghost some: { 0 < length pages.items },
}
