//! The first gap of a place.

ghost use Rattle.std.specs.Prelude.{◌≡◌, IfOk, MatchOption};
ghost use Rattle.route_tree.specs.Place.{prefix_text, tree_at_place};
ghost use Rattle.gate_check.specs.Places.{place_at};
ghost use Rattle.gate_coverage.specs.Pools.{taken_pools};
ghost use Rattle.gate_coverage.specs.Doubted.{doubted_pools};
ghost use Rattle.gate_coverage.specs.Seen.{plan_of};
ghost use Rattle.gate_check.specs.Looking.{lesser, IfUncleared, IfTaken, IfFound, IfGap, CoversServer, IsFirstAtServer};
ghost use Rattle.gate_check.specs.Rows.{HoldsTaken};

use crate::places::Class;
use crate::validity::{are_pools_cleared, take_row};
use gate_coverage::pools::{Pool, taken_pools};
use gate_coverage::{At, Deleting, Seen, clears, takes};
use mc_types::{Op, ServerId};
use route_tree::Tree;
use std::alloc::{AllocError, Global};

/// A gap at a place.
#[derive(Clone, Copy)]
pub struct Found {
    pub server: ServerId,
    pub op: Op,
    pub deleting: Deleting,
}

// The first delete that doesn't clear the server.
fn uncleared(seen: Seen, server: ServerId) -> Option<Deleting>
    ensures { IfUncleared (plan_of seen.entry) server result }
{
    if !clears(seen, Deleting::Delete, server) {
        Some(Deleting::Delete)
    } else if !clears(seen, Deleting::Md, server) {
        Some(Deleting::Md)
    } else {
        None
    }
}

// The first operation that takes the server.
fn first_taken(seen: Seen, server: ServerId) -> Option<Op>
    ensures { IfTaken (plan_of seen.entry) server result }
{
    if takes(seen, Op::Get, server) {
        Some(Op::Get)
    } else if takes(seen, Op::Gat, server) {
        Some(Op::Gat)
    } else if takes(seen, Op::Incr, server) {
        Some(Op::Incr)
    } else if takes(seen, Op::Decr, server) {
        Some(Op::Decr)
    } else {
        None
    }
}

// The first gap at the server.
fn gap_at_server(earlier: Seen, later: Seen, server: ServerId) -> Option<Found>
    ensures { MatchOption result (CoversServer (plan_of earlier.entry) (plan_of later.entry) server) (λ f. (f.server ≡ server) × IsFirstAtServer (plan_of earlier.entry) (plan_of later.entry) server f.op f.deleting) }
{
    let op = first_taken(later, server)?;
    let deleting = uncleared(earlier, server)?;
    Some(Found {
        server,
        op,
        deleting,
    })
}

// The first gap among the servers.
fn gap_among(earlier: Seen, later: Seen, servers: &[ServerId]) -> Option<Found>
    ensures { IfFound (plan_of earlier.entry) (plan_of later.entry) servers.now result }
{
    let mut best = None;
    for server in servers {
        let here = gap_at_server(earlier, later, *server);
        best = lesser(best, here);
    }
    best
}

// The one at the smaller server; of equal ones the first.
fn lesser(best: Option<Found>, here: Option<Found>) -> Option<Found>
    ensures { result ≡ lesser best here }
{
    match here {
        None => best,
        Some(found) => match best {
            None => Some(found),
            Some(other) => {
                if found.server.number() < other.server.number() {
                    Some(found)
                } else {
                    Some(other)
                }
            }
        },
    }
}

// The first gap of the two plain trees: the least server that the later one takes and the earlier one doesn't clear, then
// the first operation and kind of delete. Among these servers are all that the later one takes.
fn first_gap(earlier: Seen, later: Seen, among: &[ServerId]) -> Option<Found>
    requires { HoldsTaken (plan_of later) among.now }
    ensures { IfGap (plan_of earlier.entry) (plan_of later.entry) result }
{
    gap_among(earlier, later, among)
}

/// The first gap of two trees at a residue of the class, of which those pools are given that the later tree takes and that
/// the earlier one isn't known to clear. No plain tree is built. The only error is that memory was refused.
pub fn gap_at(
    alloc: Global,
    earlier: &Tree,
    later: &Tree,
    class: &Class,
    modulus: u32,
    residue: u32,
    doubted: &[Pool],
) -> Result<Option<Found>, AllocError>
    requires { doubted.now ≡ doubted_pools (prefix_text class.now.prefix) earlier.now (taken_pools (prefix_text class.now.prefix) later.now) }
    ensures { IfOk result (IfGap (tree_at_place earlier.now (place_at class.now.prefix residue modulus)) (tree_at_place later.now (place_at class.now.prefix residue modulus))) }
{
    let _modulus = modulus;
    let _later = later.form();
    let _earlier = earlier.form();
    if are_pools_cleared(earlier, class.text(), residue, doubted) {
        return Ok(None);
    }
    let mut taken = Vec::new(alloc);
    let pools = taken_pools(alloc, later, class.text())?;
    take_row(later, class.text(), &pools, residue, &mut taken)?;
    let at = At {
        text: class.text(),
        hash: residue,
    };
    let first = Seen::Tree(earlier, &at);
    let second = Seen::Tree(later, &at);
    Ok(first_gap(first, second, &taken))
}
