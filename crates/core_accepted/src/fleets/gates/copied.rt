//! For which keys a get copies by a tree.

ghost use Rattle.std.specs.Prelude.{IfOk};
ghost use Rattle.core_accepted.specs.Copying.{CopiesSome, IsFirstCopied};

use gate_check::places::collecting::add_prefixes;
use mc_types::Key;
use route_tree::Tree;
use route_tree::copying::copies;
use std::alloc::{AllocError, Global};

/// The keys for which a get copies.
#[derive(Clone, Copy)]
pub enum Copied {
    Nothing,
    /// Those of this prefix: of the tree's prefixes it is the longest that begins them, or none begins them.
    Keys(Option<Key>),
}

// The first of the texts for which a get copies.
fn first_of(tree: &Tree, texts: &[Key]) -> Option<Key>
    ensures { IsFirstCopied tree.now texts.now result }
{
    match texts {
        [] => None,
        [text, rest @ ..] => {
            if copies(tree, text.as_bytes()) {
                Some(*text)
            } else {
                first_of(tree, rest)
            }
        }
    }
}

/// For which keys a get copies by the tree; where by several prefixes it does, by one of them. The only error is that memory was
/// refused.
pub fn copied_by(alloc: Global, tree: &Tree) -> Result<Copied, AllocError>
    ensures { IfOk result (CopiesSome tree.now) }
{
    let _form = tree.form();
    if copies(tree, &[]) {
        return Ok(Copied::Keys(None));
    }
    let mut texts = Vec::new(alloc);
    add_prefixes(tree, &mut texts)?;
    match first_of(tree, &texts) {
        Some(text) => Ok(Copied::Keys(Some(text))),
        None => Ok(Copied::Nothing),
    }
}
