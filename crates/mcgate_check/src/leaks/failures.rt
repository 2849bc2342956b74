//! Which calls fail in a refusal run.
ghost use Rattle.std.specs.Prelude.{◌≡◌, IfOk};
ghost use Rattle.route_tree.specs.Plan.{IsGoodPlan};
ghost use Rattle.route_tree.specs.At.{tree_at};
ghost use Rattle.mcgate_check.specs.Failing.{failures_of};

use gate_gaps::leaks::turns::{acknowledged_after, found_after};
use mc_types::{Key, Op, ServerId};
use route_tree::{Plain, Tree};
use std::alloc::{AllocError, Global};

/// How many calls fail, not applied, before the one that acknowledges the delete, and before the one that the read shows.
#[derive(Clone, Copy)]
pub struct Failures {
    pub delete: u32,
    pub read: u32,
}

// Where each other call fails: how many do before a delete is acknowledged with the server not cleared, and before a read
// shows the server's item, if there are such.
fn failures_in(plain: &Plain, op: Op, server: ServerId) -> Option<Failures>
    ensures failures { result ≡ failures_of op server plain.now }
    ensures good { IsGoodPlan plain.now }
{
    let _form = plain.form();
    let delete = acknowledged_after(plain, server)?;
    let read = found_after(plain, op, server)?;
    Some(Failures { delete, read })
}

/// By the key's plain tree, where each other call fails: how many do before a delete is acknowledged with the server not cleared, and before
/// a read shows the server's item, if there are such. The only error is running out of memory.
pub fn failures_at(
    alloc: Global,
    tree: &Tree,
    key: &Key,
    op: Op,
    server: ServerId,
) -> Result<Option<Failures>, AllocError>
    ensures failures { IfOk result (λ found. found ≡ failures_of op server (tree_at tree.now key.now)) }
    ensures good { IfOk result (λ found. IsGoodPlan (tree_at tree.now key.now)) }
{
    let plain = tree.at(alloc, key)?;
    Ok(failures_in(&plain, op, server))
}
