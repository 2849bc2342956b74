//! How many routes a tree has, by which the nodes of a picture are numbered.

ghost use Rattle.std.specs.Prelude.{◌≡◌, ◌<◌, ◌^◌};
ghost use Rattle.route_tree.specs.Form.{routes_of, policies_of, prefixes_of};
ghost use Rattle.gate_picture.specs.Nodes.{nodes, nodes_of_all, nodes_of_policies, nodes_of_prefixes};

use mc_types::{Key, Op};
use route_tree::{Tree, TreeForm};

/// How many routes the tree has, its root among them. It takes no memory.
#[cycle(counting)]
pub fn node_count(tree: &Tree) -> u32
    requires { nodes tree.now < 2 ^ 32 }
    ensures { result ≡ nodes tree.now }
{
    match tree.form() {
        TreeForm::Pool(_) | TreeForm::Server(_) | TreeForm::Null | TreeForm::Error => 1,
        TreeForm::AllSync(children) => 1 + node_count_of_all(children),
        TreeForm::Failover(children) => 1 + node_count_of_all(children),
        TreeForm::MissFailover(children) => 1 + node_count_of_all(children),
        TreeForm::WarmUp { cold, warm, .. } => 1 + node_count(cold) + node_count(warm),
        TreeForm::ByOperation { policies, default } => {
            1 + node_count_of_policies(policies, default)
        }
        TreeForm::ByPrefix { policies, wildcard } => {
            1 + node_count_of_prefixes(policies, wildcard)
        }
    }
}

#[cycle(counting)]
fn node_count_of_all(children: &[Tree]) -> u32
    requires { nodes_of_all (routes_of children.now) < 2 ^ 32 }
    ensures { result ≡ nodes_of_all (routes_of children.now) }
{
    match children {
        [] => 0,
        [first, rest @ ..] => node_count(first) + node_count_of_all(rest),
    }
}

#[cycle(counting)]
fn node_count_of_policies(policies: &[(Op, Tree)], default: &Tree) -> u32
    requires { nodes_of_policies (policies_of policies.now default.now) < 2 ^ 32 }
    ensures { result ≡ nodes_of_policies (policies_of policies.now default.now) }
{
    match policies {
        [] => node_count(default),
        [(_, child), rest @ ..] => node_count(child) + node_count_of_policies(rest, default),
    }
}

#[cycle(counting)]
fn node_count_of_prefixes(policies: &[(Key, Tree)], wildcard: &Tree) -> u32
    requires { nodes_of_prefixes (prefixes_of policies.now wildcard.now) < 2 ^ 32 }
    ensures { result ≡ nodes_of_prefixes (prefixes_of policies.now wildcard.now) }
{
    match policies {
        [] => node_count(wildcard),
        [(_, child), rest @ ..] => node_count(child) + node_count_of_prefixes(rest, wildcard),
    }
}
