//! Whether a row is valid at a residue. No plain tree is built: the servers that are taken come from pools that are found
//! once a class, and deletes are looked at on the tree itself, for pools that they aren't known to clear.

ghost use Rattle.std.specs.Prelude.{◌≡◌, ◌↔◌, ◌&&◌, IfOk, IsTrue, true};
ghost use Rattle.route_tree.specs.At.{plain_for};
ghost use Rattle.gate_coverage.specs.Pools.{has, servers_at, taken_pools};
ghost use Rattle.gate_check.specs.Valid.{IsValidRow};
ghost use Rattle.gate_check.specs.Rows.{IsTakenRow, rises_above, rises, holds_all, all_cleared};

use crate::places::rows::put_row;
use gate_coverage::clearing::is_cleared_at;
use gate_coverage::pools::Pool;
use mc_types::ServerId;
use route_tree::Tree;
use std::alloc::AllocError;

/// Puts the servers that are taken at the residue, rising, for what the row held. The pools are those from which the tree
/// takes for the text. The only error is that memory was refused.
pub fn take_row(
    tree: &Tree,
    text: &[u8],
    pools: &[Pool],
    residue: u32,
    row: &mut Vec<ServerId>,
) -> Result<(), AllocError>
    requires { pools.now ≡ taken_pools text.now tree.now }
    ensures { IfOk result (λ _. IsTakenRow (plain_for residue text.now tree.now) row.new.items) }
{
    let _tree = tree;
    let _text = text;
    put_row(pools, residue, row)
}

/// Whether the row is valid for the plain tree of this hash and text, where the servers that are taken there are given, and
/// all of them are cleared. It takes no memory.
pub fn is_valid_at(
    tree: &Tree,
    text: &[u8],
    hash: u32,
    taken: &[ServerId],
    row: &[ServerId],
) -> bool
    requires taken { IsTakenRow (plain_for hash text.now tree.now) taken.now }
    requires cleared { all_cleared (plain_for hash text.now tree.now) taken.now ≡ true }
    ensures { IsTrue result ↔ IsValidRow (plain_for hash text.now tree.now) row.now }
{
    let _form = tree.form();
    if row == taken {
        return true;
    }
    passes(tree, text, hash, taken, row)
}

// The three tests of a row.
fn passes(tree: &Tree, text: &[u8], hash: u32, taken: &[ServerId], row: &[ServerId]) -> bool
    ensures { result ≡ (rises row.now && holds_all row.now taken.now && all_cleared (plain_for hash text.now tree.now) row.now) }
{
    rises(row) && holds_all(row, taken) && are_cleared_at(tree, text, hash, row)
}

// Whether each server of the row is cleared for this hash and text.
fn are_cleared_at(tree: &Tree, text: &[u8], hash: u32, row: &[ServerId]) -> bool
    ensures { result ≡ all_cleared (plain_for hash text.now tree.now) row.now }
{
    for server in row {
        if !is_cleared_at(tree, text, hash, *server) {
            return false;
        }
    }
    true
}

/// Whether each of the pools' servers is cleared for this hash and text. It takes no memory.
pub fn are_pools_cleared(tree: &Tree, text: &[u8], hash: u32, pools: &[Pool]) -> bool
    ensures { result ≡ all_cleared (plain_for hash text.now tree.now) (servers_at hash pools.now) }
{
    for pool in pools {
        if !is_cleared_at(tree, text, hash, pool.at(hash)) {
            return false;
        }
    }
    true
}

// The servers rise.
fn rises(row: &[ServerId]) -> bool
    ensures { result ≡ rises row.now }
{
    match row {
        [] => true,
        [first, rest @ ..] => rises_above(*first, rest),
    }
}

// The servers rise from above this one.
fn rises_above(below: ServerId, row: &[ServerId]) -> bool
    ensures { result ≡ rises_above below row.now }
{
    let mut last = below;
    for server in row {
        if server.number() <= last.number() {
            return false;
        }
        last = *server;
    }
    true
}

// The row holds each of these servers.
fn holds_all(row: &[ServerId], servers: &[ServerId]) -> bool
    ensures { result ≡ holds_all row.now servers.now }
{
    for server in servers {
        if !has(row, *server) {
            return false;
        }
    }
    true
}

// The row holds the server.
fn has(row: &[ServerId], server: ServerId) -> bool
    ensures { result ≡ has row.now server }
{
    for other in row {
        if other.number() == server.number() {
            return true;
        }
    }
    false
}
