//! One level of a tree, as the keys of one hash and text see it.

ghost use Rattle.std.specs.Prelude.{◌≡◌, ℕ, List, IfOk};
ghost use Rattle.route_tree.specs.Plan.{IsPlan};
ghost use Rattle.route_tree.specs.Route.{HasChild};
ghost use Rattle.route_tree.specs.Route as route;
ghost use Rattle.route_tree.specs.Form.{policies_of};
ghost use Rattle.route_tree.specs.At.{plain_for, plain_for_policies};
ghost use Rattle.route_tree.specs.After.{child_routes};
ghost use Rattle.route_tree.specs.Levels.{plan_of_level, chosen_plan};

use crate::at::longest;
use crate::children::Children;
use crate::tree::{Tree, TreeForm};
use mc_types::{Op, ServerId};
use std::alloc::AllocError;

/// One level of a plain tree, its children still trees: what a tree comes to for one hash and text.
#[derive(Drop)]
pub enum Level<'a> {
    Server(ServerId),
    Null,
    Error,
    AllSync {
        first: Tree,
        rest: Children,
    },
    Failover {
        first: Tree,
        rest: Children,
    },
    MissFailover {
        first: Tree,
        rest: Children,
    },
    WarmUp {
        cold: &'a Tree,
        warm: &'a Tree,
        exptime: u32,
    },
    ByOperation {
        policies: &'a [(Op, Tree)],
        default: &'a Tree,
    },
}

impl Tree {
    /// The first level of the plain tree of the keys with this hash and text: of a pool the server of the slot, of a
    /// selector by prefix that of the longest policy that begins the text, else of the wildcard. It takes no memory, and
    /// is refused only where a count of sharers is full.
    pub fn level(&self, hash: u32, text: &[u8]) -> Result<Level<'_>, AllocError>
        ensures form { IfOk result (λ level. plan_of_level hash text.now level ≡ plain_for hash text.now self.now) }
        ensures plan { IsPlan (plain_for hash text.now self.now) }
    {
        let _form = self.form();
        level_of(self, hash, text)
    }
}

// The level, without the limits of the plain tree.
fn level_of<'a>(tree: &'a Tree, hash: u32, text: &[u8]) -> Result<Level<'a>, AllocError>
    ensures { IfOk result (λ level. plan_of_level hash text.now level ≡ plain_for hash text.now tree.now) }
{
    match tree.form() {
        TreeForm::Pool(servers) => Ok(Level::Server(servers[hash as usize % servers.len()])),
        TreeForm::Server(server) => Ok(Level::Server(*server)),
        TreeForm::Null => Ok(Level::Null),
        TreeForm::Error => Ok(Level::Error),
        TreeForm::AllSync(_) => {
            let (first, rest) = parts_of(tree)?;
            Ok(Level::AllSync { first, rest })
        }
        TreeForm::Failover(_) => {
            let (first, rest) = parts_of(tree)?;
            Ok(Level::Failover { first, rest })
        }
        TreeForm::MissFailover(_) => {
            let (first, rest) = parts_of(tree)?;
            Ok(Level::MissFailover { first, rest })
        }
        TreeForm::WarmUp {
            cold,
            warm,
            exptime,
        } => Ok(Level::WarmUp {
            cold,
            warm,
            exptime: *exptime,
        }),
        TreeForm::ByOperation { policies, default } => Ok(Level::ByOperation { policies, default }),
        TreeForm::ByPrefix { policies, wildcard } => {
            level_of(longest(policies, wildcard, text), hash, text)
        }
    }
}

// The first child and the others.
fn parts_of(tree: &Tree) -> Result<(Tree, Children), AllocError>
    requires { HasChild (child_routes tree.now) }
    ensures { IfOk result (λ parts. child_routes tree.now ≡ route.More parts.0 parts.1) }
{
    match Children::of(tree.copy()?).parted()? {
        Some(parts) => Ok(parts),
        None => unreachable!(),
    }
}

/// The first policy of the operation, else the default. It takes no memory.
pub fn policy_of<'a>(policies: &'a [(Op, Tree)], default: &'a Tree, op: Op) -> &'a Tree
    ensures { (hash : ℕ) (text : List ℕ) → plain_for hash text result.now ≡ chosen_plan op (plain_for_policies hash text (policies_of policies.now default.now)) }
{
    match policies {
        [] => default,
        [(first, tree), rest @ ..] => {
            if *first == op {
                tree
            } else {
                policy_of(rest, default, op)
            }
        }
    }
}
