//! What a command claims of its key.

ghost use Rattle.std.specs.Prelude.{◌≡◌};
ghost use Rattle.route_tree.specs.At.{tree_at};
ghost use Rattle.core_commands.specs.Claims.{is_delete, claim_by};

use crate::sharing::Sharing;
use mc_types::{Ask, Op};
use route_tree::Tree;

/// What a command claims of its key: on one key, what copies isn't under way with what clears. Where each command has its key
/// alone, each counts as both.
#[derive(Clone, Copy, PartialEq, Eq)]
pub struct Claim {
    /// Whether the command counts as one that clears the key.
    pub clears: bool,
    /// Whether the command counts as one that copies an item to the key.
    pub copies: bool,
}

fn is_delete(op: Op) -> bool
    ensures { result ≡ is_delete op }
{
    match op {
        Op::Delete => true,
        _ => false,
    }
}

impl Claim {
    /// The claim of a command of this ask which begins on this tree. It takes no memory.
    pub fn of(sharing: Sharing, ask: &Ask, tree: &Tree) -> Claim
        ensures { result ≡ claim_by sharing ask.now.op (tree_at tree.now ask.now.key) }
    {
        match sharing {
            Sharing::Alone => Claim {
                clears: true,
                copies: true,
            },
            Sharing::Shared => Claim {
                clears: is_delete(ask.op),
                copies: tree.may_copy(ask.op, &ask.key),
            },
        }
    }
}
