//! Which pools a tree's deletes clear at every hash: found once for all keys that a text begins, pool by pool.

ghost use Rattle.std.specs.Prelude.{◌≡◌, IfOk};
ghost use Rattle.route_tree.specs.Form.{routes_of, policies_of};
ghost use Rattle.gate_coverage.specs.Doubted.{doubts, doubts_each, doubts_first, doubts_head, doubts_policy, with_doubted, doubted_pools};

use crate::pools::Pool;
use crate::possible::fails_at;
use crate::stores::is_op;
use mc_types::Op;
use route_tree::at::longest;
use route_tree::{Tree, TreeForm};
use std::alloc::{AllocError, Global};
use std::slice::from_ref;

// Whether a delete may be acknowledged with the pool's server not cleared, where pools that differ are taken to differ at
// each hash.
#[cycle(doubts)]
fn doubts(tree: &Tree, text: &[u8], pool: &Pool) -> bool
    ensures { result ≡ doubts text.now pool.now tree.now }
{
    match tree.form() {
        TreeForm::Pool(servers) => !pool.has_servers(servers),
        TreeForm::Server(server) => !pool.has_servers(from_ref(server)),
        TreeForm::Null => true,
        TreeForm::Error => false,
        TreeForm::AllSync(children) => doubts_each(children, text, pool),
        TreeForm::Failover(children) => doubts_first(children, text, pool),
        TreeForm::MissFailover(children) => doubts_head(children, text, pool),
        TreeForm::WarmUp { cold, .. } => doubts(cold, text, pool),
        TreeForm::ByOperation { policies, default } => doubts_policy(policies, default, text, pool),
        TreeForm::ByPrefix { policies, wildcard } => {
            doubts(longest(policies, wildcard, text), text, pool)
        }
    }
}

// Whether a delete that asks all children may be acknowledged with the pool's server not cleared.
#[cycle(doubts)]
fn doubts_each(children: &[Tree], text: &[u8], pool: &Pool) -> bool
    ensures { result ≡ doubts_each text.now pool.now (routes_of children.now) }
{
    match children {
        [] => true,
        [first, rest @ ..] => doubts(first, text, pool) && doubts_each(rest, text, pool),
    }
}

// Whether a delete that asks children up to one that doesn't fail may be acknowledged with the pool's server not cleared.
#[cycle(doubts)]
fn doubts_first(children: &[Tree], text: &[u8], pool: &Pool) -> bool
    ensures { result ≡ doubts_first text.now pool.now (routes_of children.now) }
{
    match children {
        [] => false,
        [first, rest @ ..] => {
            doubts(first, text, pool)
                || (fails_at(first, text, Op::Delete) && doubts_first(rest, text, pool))
        }
    }
}

// Whether a delete that asks the first child alone may be acknowledged with the pool's server not cleared.
#[cycle(doubts)]
fn doubts_head(children: &[Tree], text: &[u8], pool: &Pool) -> bool
    ensures { result ≡ doubts_head text.now pool.now (routes_of children.now) }
{
    match children {
        [] => false,
        [first, ..] => doubts(first, text, pool),
    }
}

// Whether the child of a delete, else the default, may acknowledge it with the pool's server not cleared.
#[cycle(doubts)]
fn doubts_policy(policies: &[(Op, Tree)], default: &Tree, text: &[u8], pool: &Pool) -> bool
    ensures { result ≡ doubts_policy text.now pool.now (policies_of policies.now default.now) }
{
    match policies {
        [] => doubts(default, text, pool),
        [(own, child), rest @ ..] => {
            if is_op(*own, Op::Delete) {
                doubts(child, text, pool)
            } else {
                doubts_policy(rest, default, text, pool)
            }
        }
    }
}

/// Of these pools those whose server deletes aren't known to clear at every hash, for the keys that the text begins: each
/// other pool stands in the tree, where each acknowledged delete has asked it. The only error is that memory was refused.
pub fn doubted_pools<'a>(
    alloc: Global,
    tree: &Tree,
    text: &[u8],
    pools: &[Pool<'a>],
) -> Result<Vec<Pool<'a>>, AllocError>
    ensures { IfOk result (λ doubted. doubted.items ≡ doubted_pools text.now tree.now pools.now) }
{
    let mut doubted = Vec::new(alloc);
    for pool in pools {
        add_doubted(tree, text, pool, &mut doubted)?;
    }
    Ok(doubted)
}

// Adds the pool, where it isn't known to be cleared.
fn add_doubted<'a>(
    tree: &Tree,
    text: &[u8],
    pool: &Pool<'a>,
    doubted: &mut Vec<Pool<'a>>,
) -> Result<(), AllocError>
    ensures { IfOk result (λ _. doubted.new.items ≡ with_doubted text.now tree.now doubted.old.items pool.now) }
{
    if doubts(tree, text, pool) {
        doubted.push(pool.again())?;
    }
    Ok(())
}
