//! Tables of slots: which server of a pool has each of its slots.

ghost use Rattle.std.specs.Prelude.{◌≡◌, ℕ, ◌<◌, ◌≤◌, ◌||◌, IfOk, IfSome, codes, length, nat_eq, nat_lt, not, option_and_then, slice_get};
ghost use Rattle.serde_json.specs.Find.{as_number, as_u64, get};
ghost use Rattle.serde_json.specs.View.{view, items_view};
ghost use Rattle.route_json.specs.Fault.{GivesReading};
ghost use Rattle.route_json.specs.Pools.{AllBelow, AreSlots, AreWeighted, IsServerList, are_unweighted, read_slot, slot, slots_or, table};
ghost use Rattle.route_json.specs.Reading.{each, values};
ghost use Rattle.route_tree.specs.declared.limits.TheConstants.{SLOT_LIMIT};

use crate::fault::ConfigFault;
use crate::pools::{WeightedServer, slots_of};
use mc_types::ServerId;
use route_tree::SLOT_LIMIT;
use serde_json::Value;
use std::alloc::Global;

/// The slots of a pool: those of its table, or those that the weights of its servers make; `BadField` where the table
/// isn't one.
pub fn slots_or(
    alloc: Global,
    servers: &[WeightedServer],
    value: &Value,
) -> Result<Vec<ServerId>, ConfigFault>
    ensures gives { GivesReading (λ v. v.items) result (slots_or servers.now (get (codes "slots") (view value.now))) }
    ensures good { (bound : ℕ) → IsServerList bound servers.now → IfOk result (λ v. AreSlots bound v.items) }
{
    match value.get("slots") {
        None => Ok(slots_of(alloc, servers)?),
        Some(Value::Array(items)) => read_table(alloc, servers, items),
        Some(_) => Err(ConfigFault::BadField(String::from_str(alloc, "slots")?)),
    }
}

fn are_unweighted(servers: &[WeightedServer]) -> bool
    ensures { result ≡ are_unweighted servers.now }
{
    servers.iter().all(|server| server.weight == 1)
}

// Whether there are no slots or too many, or weights beside them.
fn is_no_table(servers: &[WeightedServer], items: &[Value]) -> bool
    ensures { result ≡ (nat_eq (length items.now) 0 || nat_lt SLOT_LIMIT (length items.now) || not (are_unweighted servers.now)) }
{
    items.is_empty() || items.len() > SLOT_LIMIT as usize || !are_unweighted(servers)
}

fn read_table(
    alloc: Global,
    servers: &[WeightedServer],
    items: &[Value],
) -> Result<Vec<ServerId>, ConfigFault>
    ensures gives { GivesReading (λ v. v.items) result (table servers.now (values (items_view items.now))) }
    ensures good { (bound : ℕ) → AreWeighted bound servers.now → IfOk result (λ v. AreSlots bound v.items) }
{
    if is_no_table(servers, items) {
        return Err(ConfigFault::BadField(String::from_str(alloc, "slots")?));
    }
    read_slots(alloc, servers, items)
}

fn read_slots(
    alloc: Global,
    servers: &[WeightedServer],
    items: &[Value],
) -> Result<Vec<ServerId>, ConfigFault>
    ensures gives { GivesReading (λ v. (v.items, tt)) result (each (read_slot servers.now) (values (items_view items.now)) tt) }
    ensures many { IfOk result (λ v. length v.items ≡ length items.now) }
    ensures below { (bound : ℕ) → AreWeighted bound servers.now → IfOk result (λ v. AllBelow bound v.items) }
{
    let mut slots = Vec::new(alloc);
    for item in items {
        let server = read_place(alloc, servers, item)?;
        slots.push(server)?;
    }
    Ok(slots)
}

// The server at the place of the list that a value is, if there is one.
fn placed(servers: &[WeightedServer], value: &Value) -> Option<WeightedServer>
    ensures server { result ≡ option_and_then (slice_get servers.now) (option_and_then as_u64 (as_number (view value.now))) }
    ensures below { (bound : ℕ) → AreWeighted bound servers.now → IfSome result (λ s. s.server < bound) }
{
    let place = value.as_u64()?;
    if place < servers.len() as u64 {
        Some(servers[place as usize])
    } else {
        None
    }
}

fn read_place(
    alloc: Global,
    servers: &[WeightedServer],
    value: &Value,
) -> Result<ServerId, ConfigFault>
    ensures gives { GivesReading (λ s. s) result (slot servers.now (view value.now)) }
    ensures below { (bound : ℕ) → AreWeighted bound servers.now → IfOk result (λ s. s < bound) }
{
    match placed(servers, value) {
        Some(server) => Ok(server.server),
        None => Err(ConfigFault::BadField(String::from_str(alloc, "slots")?)),
    }
}
