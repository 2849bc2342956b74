//! Whether slots are what a change may make of others.

ghost use Rattle.std.specs.Prelude.{◌≡◌, ℕ, ◌<◌, ◌+◌, ◌/◌, Some, length, slice_get, true, map, nat_eq};
ghost use Rattle.std.specs.List.{list_any};
ghost use Rattle.gate_plan.specs.Slots.{MayBecome, HasShare, IsRewritten};

use crate::slots::change::ServerChange;
use crate::slots::counts::count_of;
use crate::slots::earlier::never_had;
use mc_types::ServerId;

fn is_one_of(servers: &[ServerId], server: ServerId) -> bool
    ensures { result ≡ list_any (nat_eq server) servers.now }
{
    servers.iter().any(|other| server == *other)
}

// Whether a slot, of so many, may go from one server to another.
fn may_become(
    change: &ServerChange,
    others: &[ServerId],
    earlier: &[Vec<ServerId>],
    count: usize,
    slot: usize,
    from: ServerId,
    to: ServerId,
) -> bool
    ensures { result ≡ true → MayBecome change.now others.now (map (λ v. v.items) earlier.now) count slot from to }
{
    match change {
        ServerChange::Add(server) => {
            to == from || (to == *server && never_had(earlier, to, slot, count))
        }
        ServerChange::Remove(server) => {
            if from == *server {
                to != *server && is_one_of(others, to) && never_had(earlier, to, slot, count)
            } else {
                to == from
            }
        }
    }
}

fn are_moves(
    change: &ServerChange,
    others: &[ServerId],
    earlier: &[Vec<ServerId>],
    old: &[ServerId],
    new: &[ServerId],
) -> bool
    requires { length new.now ≡ length old.now }
    ensures { result ≡ true → (slot holder to : ℕ) → slice_get old.now slot ≡ Some holder → slice_get new.now slot ≡ Some to → MayBecome change.now others.now (map (λ v. v.items) earlier.now) (length old.now) slot holder to }
{
    for slot in 0..old.len() {
        if !may_become(
            change,
            others,
            earlier,
            old.len(),
            slot,
            old[slot],
            new[slot],
        ) {
            return false;
        }
    }
    true
}

/// How many slots the server has that is added to so many, of so many slots.
pub fn share(slots: usize, others: usize) -> usize
    requires { others < 9223372036854775807 }
    ensures { result ≡ slots / (others + 1) }
{
    slots / (others + 1)
}

// Whether the server that is added has its share.
fn has_share(change: &ServerChange, others: &[ServerId], new: &[ServerId]) -> bool
    ensures { result ≡ true → HasShare change.now others.now new.now }
{
    match change {
        ServerChange::Add(server) => count_of(new, *server) == share(new.len(), others.len()),
        ServerChange::Remove(_) => true,
    }
}

/// Whether these slots are what a change may make of others.
pub fn is_rewritten(
    change: &ServerChange,
    others: &[ServerId],
    earlier: &[Vec<ServerId>],
    old: &[ServerId],
    new: &[ServerId],
) -> bool
    ensures { result ≡ true → IsRewritten change.now others.now (map (λ v. v.items) earlier.now) old.now new.now }
{
    if old.len() != new.len() {
        return false;
    }
    if !are_moves(change, others, earlier, old, new) {
        return false;
    }
    has_share(change, others, new)
}
