//! Plain trees as they stand: one that was built, or what a tree is for a hash and a text, which isn't built.

ghost use Rattle.std.specs.Prelude.{◌≡◌, ℕ, ◌≤◌, MatchOption};
ghost use Rattle.route_tree.specs.Plan.{IsPlan, End};
ghost use Rattle.route_tree.specs.Form.{policies_of, plan_policies_of};
ghost use Rattle.route_tree.specs.PlanCode.{plan_size};
ghost use Rattle.route_tree.specs.At.{plain_for, plain_for_policies};
ghost use Rattle.gate_coverage.specs.Computed.{can_fail, hits, shown, copied, kept};
ghost use Rattle.gate_coverage.specs.Asked.{asks};
ghost use Rattle.gate_coverage.specs.Seen.{plan_of, all_plans_of, plans_of_parts, plan_of_seen_form, is_end, for_op, policy_for_op};

use crate::stores::is_op;
use mc_types::{Op, ServerId};
use route_tree::at::longest;
use route_tree::{Plain, PlainForm, Tree, TreeForm};

/// Where a tree is looked at: the hash tells the slot of a pool, the text what its policies by prefix begin.
#[derive(Clone, Copy)]
pub struct At<'a> {
    pub text: &'a [u8],
    pub hash: u32,
}

/// A plain tree. Contracts speak of it by `plan_of`.
#[derive(Clone, Copy)]
pub enum Seen<'a> {
    /// A plain tree that was built.
    Plain(&'a Plain),
    /// What a tree is for a hash and a text.
    Tree(&'a Tree, &'a At<'a>),
}

/// Children of a plain tree, in order.
#[derive(Clone, Copy)]
pub enum SeenAll<'a> {
    Plains(&'a [Plain]),
    Trees(&'a [Tree], &'a At<'a>),
}

/// The first of some children, and the others.
#[derive(Clone, Copy)]
pub struct SeenParts<'a> {
    pub first: Seen<'a>,
    pub rest: SeenAll<'a>,
}

/// The form of a plain tree for one operation: no choice by operation is left at its top.
#[derive(Clone, Copy)]
pub enum SeenForm<'a> {
    Server(ServerId),
    Null,
    Error,
    AllSync(SeenAll<'a>),
    Failover(SeenAll<'a>),
    MissFailover(SeenAll<'a>),
    WarmUp { cold: Seen<'a>, warm: Seen<'a> },
}

impl<'a> Seen<'a> {
    /// The form for the operation: the same comes of it by the operation. It takes no memory.
    pub fn form(self, op: Op) -> SeenForm<'a>
        ensures fails { can_fail op (plan_of_seen_form result) ≡ can_fail op (plan_of self.entry) }
        ensures hits { hits op (plan_of_seen_form result) ≡ hits op (plan_of self.entry) }
        ensures shows { (s : ℕ) → shown op s (plan_of_seen_form result) ≡ shown op s (plan_of self.entry) }
        ensures copies { (s : ℕ) → copied op s (plan_of_seen_form result) ≡ copied op s (plan_of self.entry) }
        ensures asks { asks op (plan_of_seen_form result) ≡ asks op (plan_of self.entry) }
        ensures keeps { (s : ℕ) → kept op s (plan_of_seen_form result) ≡ kept op s (plan_of self.entry) }
        ensures size { plan_size (plan_of_seen_form result) ≤ plan_size (plan_of self.entry) }
    {
        self.left(op)
    }

    /// What is left for the operation. It takes no memory.
    pub fn left(self, op: Op) -> SeenForm<'a>
        ensures { plan_of_seen_form result ≡ for_op op (plan_of self.entry) }
    {
        match self {
            Seen::Plain(plain) => plain_form(plain, op),
            Seen::Tree(tree, at) => tree_form(tree, at, op),
        }
    }

    /// What is seen keeps what every plain tree keeps.
    pub fn lawful(self)
        ensures { IsPlan (plan_of self.entry) }
    {
        match self {
            Seen::Plain(plain) => {
                let _form = plain.form();
            }
            Seen::Tree(tree, _) => {
                let _form = tree.form();
            }
        }
    }
}

impl<'a> SeenAll<'a> {
    /// The first child and the others, where there is one. It takes no memory.
    pub fn parted(self) -> Option<SeenParts<'a>>
        ensures { MatchOption result (all_plans_of self.entry ≡ End) (λ parts. all_plans_of self.entry ≡ plans_of_parts parts) }
    {
        match self {
            SeenAll::Plains(plains) => match plains {
                [] => None,
                [first, rest @ ..] => Some(SeenParts {
                    first: Seen::Plain(first),
                    rest: SeenAll::Plains(rest),
                }),
            },
            SeenAll::Trees(children, at) => match children {
                [] => None,
                [first, rest @ ..] => Some(SeenParts {
                    first: Seen::Tree(first, at),
                    rest: SeenAll::Trees(rest, at),
                }),
            },
        }
    }

    /// Whether there is no child. It takes no memory.
    pub fn is_empty(self) -> bool
        ensures { result ≡ is_end (all_plans_of self.entry) }
    {
        match self.parted() {
            Some(_) => false,
            None => true,
        }
    }
}

#[cycle(plain_form)]
fn plain_form<'a>(plain: &'a Plain, op: Op) -> SeenForm<'a>
    ensures { plan_of_seen_form result ≡ for_op op plain.now }
{
    match plain.form() {
        PlainForm::Server(server) => SeenForm::Server(*server),
        PlainForm::Null => SeenForm::Null,
        PlainForm::Error => SeenForm::Error,
        PlainForm::AllSync(plains) => SeenForm::AllSync(SeenAll::Plains(plains)),
        PlainForm::Failover(plains) => SeenForm::Failover(SeenAll::Plains(plains)),
        PlainForm::MissFailover(plains) => SeenForm::MissFailover(SeenAll::Plains(plains)),
        PlainForm::WarmUp { cold, warm, .. } => SeenForm::WarmUp {
            cold: Seen::Plain(cold),
            warm: Seen::Plain(warm),
        },
        PlainForm::ByOperation { policies, default } => plain_policy_form(policies, default, op),
    }
}

// The form for the operation of the first policy of it, else of the default.
#[cycle(plain_form)]
fn plain_policy_form<'a>(policies: &'a [(Op, Plain)], default: &'a Plain, op: Op) -> SeenForm<'a>
    ensures { plan_of_seen_form result ≡ policy_for_op op (plan_policies_of policies.now default.now) }
{
    match policies {
        [] => plain_form(default, op),
        [(own, child), rest @ ..] => {
            if is_op(*own, op) {
                plain_form(child, op)
            } else {
                plain_policy_form(rest, default, op)
            }
        }
    }
}

#[cycle(tree_form)]
fn tree_form<'a>(tree: &'a Tree, at: &'a At<'a>, op: Op) -> SeenForm<'a>
    ensures { plan_of_seen_form result ≡ for_op op (plain_for at.now.hash at.now.text.now tree.now) }
{
    match tree.form() {
        TreeForm::Pool(servers) => SeenForm::Server(servers[at.hash as usize % servers.len()]),
        TreeForm::Server(server) => SeenForm::Server(*server),
        TreeForm::Null => SeenForm::Null,
        TreeForm::Error => SeenForm::Error,
        TreeForm::AllSync(children) => SeenForm::AllSync(SeenAll::Trees(children, at)),
        TreeForm::Failover(children) => SeenForm::Failover(SeenAll::Trees(children, at)),
        TreeForm::MissFailover(children) => SeenForm::MissFailover(SeenAll::Trees(children, at)),
        TreeForm::WarmUp { cold, warm, .. } => SeenForm::WarmUp {
            cold: Seen::Tree(cold, at),
            warm: Seen::Tree(warm, at),
        },
        TreeForm::ByOperation { policies, default } => tree_policy_form(policies, default, at, op),
        TreeForm::ByPrefix { policies, wildcard } => {
            tree_form(longest(policies, wildcard, at.text), at, op)
        }
    }
}

// The form for the operation of the first policy of it, else of the default.
#[cycle(tree_form)]
fn tree_policy_form<'a>(
    policies: &'a [(Op, Tree)],
    default: &'a Tree,
    at: &'a At<'a>,
    op: Op,
) -> SeenForm<'a>
    ensures { plan_of_seen_form result ≡ policy_for_op op (plain_for_policies at.now.hash at.now.text.now (policies_of policies.now default.now)) }
{
    match policies {
        [] => tree_form(default, at, op),
        [(own, child), rest @ ..] => {
            if is_op(*own, op) {
                tree_form(child, at, op)
            } else {
                tree_policy_form(rest, default, at, op)
            }
        }
    }
}
