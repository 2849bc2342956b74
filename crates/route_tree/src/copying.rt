//! Which commands may copy an item from one server to another.

ghost use Rattle.std.specs.Prelude.{◌≡◌, ℕ};
ghost use Rattle.mc_types.specs.declared.ask.Op.TheVariants.{Get};
ghost use Rattle.route_tree.specs.At.{plain_for, plain_for_all, plain_for_policies, tree_at};
ghost use Rattle.route_tree.specs.Copies.{is_get, may_copy, may_copy_in, may_copy_by};
ghost use Rattle.route_tree.specs.Form.{routes_of, policies_of};

use crate::at::longest;
use crate::tree::{Tree, TreeForm};
use mc_types::{Key, Op};

impl Tree {
    /// Whether a command of this operation on this key may copy an item from one server to another: a get through a warm-up.
    /// It takes no memory.
    pub fn may_copy(&self, op: Op, key: &Key) -> bool
        ensures { result ≡ may_copy op (tree_at self.now key.now) }
    {
        is_get(op) && copies(self, key.as_bytes())
    }
}

fn is_get(op: Op) -> bool
    ensures { result ≡ is_get op }
{
    match op {
        Op::Get => true,
        _ => false,
    }
}

/// Whether a get may copy, by what is left of the tree for a text; the hash doesn't matter. It takes no memory.
#[cycle(copies)]
pub fn copies(tree: &Tree, text: &[u8]) -> bool
    ensures { (hash : ℕ) → result ≡ may_copy Get (plain_for hash text.now tree.now) }
{
    match tree.form() {
        TreeForm::Pool(_) | TreeForm::Server(_) | TreeForm::Null | TreeForm::Error => false,
        TreeForm::AllSync(children)
        | TreeForm::Failover(children)
        | TreeForm::MissFailover(children) => any_copies(children, text),
        TreeForm::WarmUp { .. } => true,
        TreeForm::ByOperation { policies, default } => policy_copies(policies, default, text),
        TreeForm::ByPrefix { policies, wildcard } => {
            copies(longest(policies, wildcard, text), text)
        }
    }
}

// Whether a get may copy by what is left of any of the children for a text; the hash doesn't matter.
#[cycle(copies)]
fn any_copies(children: &[Tree], text: &[u8]) -> bool
    ensures { (hash : ℕ) → result ≡ may_copy_in Get (plain_for_all hash text.now (routes_of children.now)) }
{
    match children {
        [] => false,
        [child, rest @ ..] => copies(child, text) || any_copies(rest, text),
    }
}

// Whether a get may copy by what is left of the child of gets for a text; the hash doesn't matter.
#[cycle(copies)]
fn policy_copies(policies: &[(Op, Tree)], default: &Tree, text: &[u8]) -> bool
    ensures { (hash : ℕ) → result ≡ may_copy_by Get (plain_for_policies hash text.now (policies_of policies.now default.now)) }
{
    match policies {
        [] => copies(default, text),
        [(op, child), rest @ ..] => {
            if *op == Op::Get {
                copies(child, text)
            } else {
                policy_copies(rest, default, text)
            }
        }
    }
}
