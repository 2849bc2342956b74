//! Selectors by operation and by prefix, read from JSON values.

ghost use Rattle.std.specs.Prelude.{◌≡◌, ◌<◌, ◌≤◌, IfOk, length};
ghost use Rattle.serde_json.specs.View.{view, members_view};
ghost use Rattle.serde_json.specs.Find.{get};
ghost use Rattle.route_tree.specs.Form.{route_of_form};
ghost use Rattle.route_json.specs.Fault.{GivesReading};
ghost use Rattle.route_json.specs.Fits.{FitsBounds, AllFit, NodeFits, seconds, AreKeys};
ghost use Rattle.route_json.specs.Reading.{each, members, named};
ghost use Rattle.route_json.specs.Routes.{policy_op, prefix_of, default_of, by_operation, by_prefix, route};

use crate::fault::ConfigFault;
use crate::fields::object_field;
use crate::leaf::{error_leaf, policy_op, policy_prefix};
use crate::place::{Below, RouteCount, RoutePlace};
use crate::pools::Pools;
use crate::route::route;
use mc_types::{Key, Op};
use route_tree::{Tree, TreeForm};
use serde_json::{Map, Value};
use std::alloc::Global;

/// The policies by operation, each name before its route, and then the default.
#[cycle(route)]
pub fn by_operation(
    alloc: Global,
    pools: &Pools,
    count: &mut RouteCount,
    below: Below,
    value: &Value,
) -> Result<TreeForm, ConfigFault>
    ensures gives { GivesReading (λ r. (route_of_form r, count.new.routes)) result (by_operation pools.now.0 below.levels below.weight (route pools.now.0 below.levels) (view value.now) count.old.routes) }
    ensures fits { IfOk result (λ r. NodeFits (length pools.now.1) below.levels below.weight count.old.routes (route_of_form r) count.new.routes) }
{
    let map = object_field(alloc, "operation_policies", value)?;
    let policies = operations(alloc, pools, count, below, map)?;
    let default = default_route(alloc, pools, count, below, "default_policy", value)?;
    let default = Box::new(alloc, default)?;
    Ok(TreeForm::ByOperation { policies, default })
}

/// The policies by prefix, each name before its route, and then the wildcard.
#[cycle(route)]
pub fn by_prefix(
    alloc: Global,
    pools: &Pools,
    count: &mut RouteCount,
    below: Below,
    value: &Value,
) -> Result<TreeForm, ConfigFault>
    ensures gives { GivesReading (λ r. (route_of_form r, count.new.routes)) result (by_prefix pools.now.0 below.levels below.weight (route pools.now.0 below.levels) (view value.now) count.old.routes) }
    ensures fits { IfOk result (λ r. NodeFits (length pools.now.1) below.levels below.weight count.old.routes (route_of_form r) count.new.routes) }
{
    let map = object_field(alloc, "policies", value)?;
    let policies = prefixes(alloc, pools, count, below, map)?;
    let wildcard = default_route(alloc, pools, count, below, "wildcard", value)?;
    let wildcard = Box::new(alloc, wildcard)?;
    Ok(TreeForm::ByPrefix { policies, wildcard })
}

// The route in a field, or an error route of its own where the field is left out.
#[cycle(route)]
fn default_route(
    alloc: Global,
    pools: &Pools,
    count: &mut RouteCount,
    below: Below,
    name: &str,
    value: &Value,
) -> Result<Tree, ConfigFault>
    ensures gives { GivesReading (λ r. (r, count.new.routes)) result (default_of pools.now.0 below.levels below.weight (route pools.now.0 below.levels) name.now (get name.now (view value.now)) count.old.routes) }
    ensures fits { IfOk result (λ r. FitsBounds (length pools.now.1) below.levels below.weight count.old.routes r count.new.routes) }
{
    let place = RoutePlace {
        levels: below.levels,
        weight: below.weight,
    };
    match value.get(name) {
        Some(child) => route(alloc, pools, count, place, name, child),
        None => error_leaf(alloc, count, below),
    }
}

#[cycle(route)]
fn operations(
    alloc: Global,
    pools: &Pools,
    count: &mut RouteCount,
    below: Below,
    map: &Map<String, Value>,
) -> Result<Vec<(Op, Tree)>, ConfigFault>
    ensures gives { GivesReading (λ r. (r.items, count.new.routes)) result (each (named policy_op (route pools.now.0 below.levels below.weight)) (members (members_view map.now.entries)) count.old.routes) }
    ensures fits { IfOk result (λ r. AllFit (length pools.now.1) below.levels below.weight count.old.routes (seconds r.items) count.new.routes) }
{
    let place = RoutePlace {
        levels: below.levels,
        weight: below.weight,
    };
    let mut policies = Vec::new(alloc);
    for (name, child) in map.iter() {
        let text = name.as_str();
        let op = policy_op(alloc, text)?;
        let tree = route(alloc, pools, count, place, text, child)?;
        policies.push((op, tree))?;
    }
    Ok(policies)
}

#[cycle(route)]
fn prefixes(
    alloc: Global,
    pools: &Pools,
    count: &mut RouteCount,
    below: Below,
    map: &Map<String, Value>,
) -> Result<Vec<(Key, Tree)>, ConfigFault>
    ensures gives { GivesReading (λ r. (r.items, count.new.routes)) result (each (named prefix_of (route pools.now.0 below.levels below.weight)) (members (members_view map.now.entries)) count.old.routes) }
    ensures fits { IfOk result (λ r. AllFit (length pools.now.1) below.levels below.weight count.old.routes (seconds r.items) count.new.routes) }
    ensures keys { IfOk result (λ r. AreKeys r.items) }
{
    let place = RoutePlace {
        levels: below.levels,
        weight: below.weight,
    };
    let mut policies = Vec::new(alloc);
    for (name, child) in map.iter() {
        let text = name.as_str();
        let prefix = policy_prefix(alloc, text)?;
        let tree = route(alloc, pools, count, place, text, child)?;
        policies.push((prefix, tree))?;
    }
    Ok(policies)
}
