//! Which children are drawn as one: runs of children whose trees are alike.

ghost use Rattle.std.specs.Prelude.{◌≡◌, ◌+◌, ◌<◌, ◌^◌, ◌≤◌, length};
ghost use Rattle.route_tree.specs.Form.{routes_of, policies_of, prefixes_of};
ghost use Rattle.gate_picture.specs.Alike.{alike, all_alike, policies_alike, more_alike, more_prefixes_alike, folded, next_run, next_prefix_run};

use gate_coverage::stores::is_op;
use mc_types::{Key, Op};
use route_tree::{Tree, TreeForm};

/// Whether the trees are of one form, their pools and servers aside. Selectors by prefix never are.
#[cycle(alike)]
pub fn is_alike(one: &Tree, other: &Tree) -> bool
    ensures { result ≡ alike one.now other.now }
{
    match one.form() {
        TreeForm::Pool(_) => match other.form() {
            TreeForm::Pool(_) => true,
            _ => false,
        },
        TreeForm::Server(_) => match other.form() {
            TreeForm::Server(_) => true,
            _ => false,
        },
        TreeForm::Null => match other.form() {
            TreeForm::Null => true,
            _ => false,
        },
        TreeForm::Error => match other.form() {
            TreeForm::Error => true,
            _ => false,
        },
        TreeForm::AllSync(children) => match other.form() {
            TreeForm::AllSync(others) => all_are_alike(children, others),
            _ => false,
        },
        TreeForm::Failover(children) => match other.form() {
            TreeForm::Failover(others) => all_are_alike(children, others),
            _ => false,
        },
        TreeForm::MissFailover(children) => match other.form() {
            TreeForm::MissFailover(others) => all_are_alike(children, others),
            _ => false,
        },
        TreeForm::WarmUp { cold, warm, .. } => match other.form() {
            TreeForm::WarmUp {
                cold: other_cold,
                warm: other_warm,
                ..
            } => is_alike(cold, other_cold) && is_alike(warm, other_warm),
            _ => false,
        },
        TreeForm::ByOperation { policies, default } => match other.form() {
            TreeForm::ByOperation {
                policies: other_policies,
                default: other_default,
            } => policies_are_alike(policies, default, other_policies, other_default),
            _ => false,
        },
        TreeForm::ByPrefix { .. } => false,
    }
}

#[cycle(alike)]
fn all_are_alike(children: &[Tree], others: &[Tree]) -> bool
    ensures { result ≡ all_alike (routes_of children.now) (routes_of others.now) }
{
    match children {
        [] => match others {
            [] => true,
            [_, ..] => false,
        },
        [first, rest @ ..] => match others {
            [] => false,
            [second, more @ ..] => is_alike(first, second) && all_are_alike(rest, more),
        },
    }
}

#[cycle(alike)]
fn policies_are_alike(
    policies: &[(Op, Tree)],
    default: &Tree,
    other_policies: &[(Op, Tree)],
    other_default: &Tree,
) -> bool
    ensures { result ≡ policies_alike (policies_of policies.now default.now) (policies_of other_policies.now other_default.now) }
{
    match policies {
        [] => match other_policies {
            [] => is_alike(default, other_default),
            [_, ..] => false,
        },
        [(op, child), rest @ ..] => match other_policies {
            [] => false,
            [(other_op, other_child), more @ ..] => {
                is_op(*op, *other_op)
                    && is_alike(child, other_child)
                    && policies_are_alike(rest, default, more, other_default)
            }
        },
    }
}

// How many children in a row are like the one before them.
fn more_alike(first: &Tree, rest: &[Tree]) -> usize
    ensures count { result ≡ more_alike first.now (routes_of rest.now) }
    ensures few { result ≤ length rest.now }
{
    match rest {
        [] => 0,
        [second, others @ ..] => {
            if is_alike(first, second) {
                1 + more_alike(first, others)
            } else {
                0
            }
        }
    }
}

// How many children by prefix in a row are like the one before them.
fn more_prefixes_alike(first: &Tree, rest: &[(Key, Tree)], wildcard: &Tree) -> usize
    ensures count { result ≡ more_prefixes_alike first.now (prefixes_of rest.now wildcard.now) }
    ensures few { result ≤ length rest.now }
{
    match rest {
        [] => 0,
        [(_, second), others @ ..] => {
            if is_alike(first, second) {
                1 + more_prefixes_alike(first, others, wildcard)
            } else {
                0
            }
        }
    }
}

// How many children that are like the first one its node stands for, too: none of fewer than 3.
fn folded(more: usize) -> usize
    ensures count { result ≡ folded more }
    ensures few { result ≤ more }
{
    if more < 3 { 0 } else { more }
}

/// Where a child stands in its run: the number of the node that stands for it, and how many of the next children that node stands
/// for, too.
#[derive(Clone, Copy)]
pub struct Run {
    pub head: u32,
    pub more: usize,
}

/// The run of the next child, which has this number.
pub fn next_run(run: Run, number: u32, first: &Tree, rest: &[Tree]) -> Run
    requires { run.head ≤ number }
    ensures run { result ≡ next_run run number first.now (routes_of rest.now) }
    ensures head { result.head ≤ number }
    ensures few { result.more + 1 < 2 ^ 64 }
{
    if run.more == 0 {
        Run {
            head: number,
            more: folded(more_alike(first, rest)),
        }
    } else {
        Run {
            head: run.head,
            more: run.more - 1,
        }
    }
}

/// The run of the next child by prefix, which has this number.
pub fn next_prefix_run(
    run: Run,
    number: u32,
    first: &Tree,
    rest: &[(Key, Tree)],
    wildcard: &Tree,
) -> Run
    requires { run.head ≤ number }
    ensures run { result ≡ next_prefix_run run number first.now (prefixes_of rest.now wildcard.now) }
    ensures head { result.head ≤ number }
    ensures few { result.more + 1 < 2 ^ 64 }
{
    if run.more == 0 {
        Run {
            head: number,
            more: folded(more_prefixes_alike(first, rest, wildcard)),
        }
    } else {
        Run {
            head: run.head,
            more: run.more - 1,
        }
    }
}
