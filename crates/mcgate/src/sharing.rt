//! By which rule the commands of a served tree share a key.

ghost use Rattle.std.specs.Prelude.{◌≡◌};
ghost use Rattle.route_tree.specs.Form.{routes_of, policies_of, prefixes_of};
ghost use Rattle.mcgate.specs.Sharing.{has_warm_up, have_warm_up, policies_have_warm_up, prefixes_have_warm_up, sharing_for};

use core_proxy::Sharing;
use mc_types::{Key, Op};
use route_tree::{Tree, TreeForm};

/// Commands share their keys, unless the tree has a warm-up: gets that copy would then follow each other without a gap on a key that is asked
/// for all the time, and a delete of it would wait as long. With each key for one command alone the delete has its turn.
pub fn sharing_for(tree: &Tree) -> Sharing
    ensures { result ≡ sharing_for tree.now }
{
    if has_warm_up(tree) {
        Sharing::Alone
    } else {
        Sharing::Shared
    }
}

// Whether a route of the tree is a warm-up.
#[cycle(has_warm_up)]
fn has_warm_up(tree: &Tree) -> bool
    ensures { result ≡ has_warm_up tree.now }
{
    match tree.form() {
        TreeForm::Pool(_) | TreeForm::Server(_) | TreeForm::Null | TreeForm::Error => false,
        TreeForm::AllSync(children)
        | TreeForm::Failover(children)
        | TreeForm::MissFailover(children) => any_has_warm_up(children),
        TreeForm::WarmUp { .. } => true,
        TreeForm::ByOperation { policies, default } => policy_has_warm_up(policies, default),
        TreeForm::ByPrefix { policies, wildcard } => prefix_has_warm_up(policies, wildcard),
    }
}

#[cycle(has_warm_up)]
fn any_has_warm_up(children: &[Tree]) -> bool
    ensures { result ≡ have_warm_up (routes_of children.now) }
{
    match children {
        [] => false,
        [child, rest @ ..] => has_warm_up(child) || any_has_warm_up(rest),
    }
}

#[cycle(has_warm_up)]
fn policy_has_warm_up(policies: &[(Op, Tree)], default: &Tree) -> bool
    ensures { result ≡ policies_have_warm_up (policies_of policies.now default.now) }
{
    match policies {
        [] => has_warm_up(default),
        [(_, child), rest @ ..] => has_warm_up(child) || policy_has_warm_up(rest, default),
    }
}

#[cycle(has_warm_up)]
fn prefix_has_warm_up(policies: &[(Key, Tree)], wildcard: &Tree) -> bool
    ensures { result ≡ prefixes_have_warm_up (prefixes_of policies.now wildcard.now) }
{
    match policies {
        [] => has_warm_up(wildcard),
        [(_, child), rest @ ..] => has_warm_up(child) || prefix_has_warm_up(rest, wildcard),
    }
}
