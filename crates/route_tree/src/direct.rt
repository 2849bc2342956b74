//! Trees in which each key has one server.

ghost use Rattle.std.specs.Prelude.{◌≡◌};
ghost use Rattle.route_tree.specs.Form.{prefixes_of};
ghost use Rattle.route_tree.specs.Direct.{is_direct, are_direct};

use crate::tree::{Tree, TreeForm};
use mc_types::Key;

impl Tree {
    /// Whether each key has one server, whatever the operation: the tree is a pool, a server, or a selector by prefix
    /// among such trees. It takes no memory.
    #[cycle(direct)]
    pub fn is_direct(&self) -> bool
        ensures { result ≡ is_direct self.now }
    {
        match self.form() {
            TreeForm::Pool(_) | TreeForm::Server(_) => true,
            TreeForm::ByPrefix { policies, wildcard } => are_direct(policies, wildcard),
            _ => false,
        }
    }
}

// Each child by prefix and the one for the other keys.
#[cycle(direct)]
fn are_direct(policies: &[(Key, Tree)], wildcard: &Tree) -> bool
    ensures { result ≡ are_direct (prefixes_of policies.now wildcard.now) }
{
    match policies {
        [] => wildcard.is_direct(),
        [(_, child), rest @ ..] => child.is_direct() && are_direct(rest, wildcard),
    }
}
