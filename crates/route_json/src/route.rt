//! Routes, read from JSON values.

ghost use Rattle.std.specs.Prelude.{◌≡◌, ◌*◌, ◌<◌, ◌≤◌, IfOk, codes, length};
ghost use Rattle.serde_json.specs.View.{view, items_view};
ghost use Rattle.serde_json.specs.Find.{get};
ghost use Rattle.route_tree.specs.Form.{route_of_form};
ghost use Rattle.route_json.specs.Fault.{GivesReading};
ghost use Rattle.route_json.specs.Fits.{FitsBounds, AllFit, NodeFits};
ghost use Rattle.route_json.specs.Reading.{each, values};
ghost use Rattle.route_json.specs.Routes.{children_of, warm_up, fields, typed, node, route};

use crate::fault::ConfigFault;
use crate::fields::{exptime_field, only, text_field, value_field};
use crate::leaf::{known_kind, listed, pool_route, short, text_children};
use crate::names::{Holder, Kind};
use crate::place::{Below, RouteCount, RoutePlace};
use crate::pools::Pools;
use crate::selector::{by_operation, by_prefix};
use route_tree::{Tree, TreeForm};
use serde_json::Value;
use std::alloc::Global;

/// How many times a route of a `cold` counts: a get runs it up to so often.
const COLD: u32 = 3;

/// The route that a value means at this place; the field of this name holds it.
#[cycle(route)]
pub fn route(
    alloc: Global,
    pools: &Pools,
    count: &mut RouteCount,
    place: RoutePlace,
    field: &str,
    value: &Value,
) -> Result<Tree, ConfigFault>
    ensures gives { GivesReading (λ r. (r, count.new.routes)) result (route pools.now.0 place.levels place.weight field.now (view value.now) count.old.routes) }
    ensures fits { IfOk result (λ r. FitsBounds (length pools.now.1) place.levels place.weight count.old.routes r count.new.routes) }
{
    if place.levels == 0 {
        return Err(ConfigFault::TooDeep);
    }
    count.add(place.weight)?;
    let below = Below {
        levels: place.levels - 1,
        weight: place.weight,
    };
    let form = node(alloc, pools, count, below, field, value)?;
    let tree = Tree::new(alloc, form)?;
    Ok(tree)
}

// What stands below a route that is counted.
#[cycle(route)]
fn node(
    alloc: Global,
    pools: &Pools,
    count: &mut RouteCount,
    below: Below,
    field: &str,
    value: &Value,
) -> Result<TreeForm, ConfigFault>
    ensures gives { GivesReading (λ r. (route_of_form r, count.new.routes)) result (node pools.now.0 below.levels below.weight (route pools.now.0 below.levels) field.now (view value.now) count.old.routes) }
    ensures fits { IfOk result (λ r. NodeFits (length pools.now.1) below.levels below.weight count.old.routes (route_of_form r) count.new.routes) }
{
    match value {
        Value::String(text) => short(alloc, pools, count, below, text.as_str()),
        Value::Object(_) => typed(alloc, pools, count, below, value),
        _ => Err(ConfigFault::BadField(String::from_str(alloc, field)?)),
    }
}

#[cycle(route)]
fn typed(
    alloc: Global,
    pools: &Pools,
    count: &mut RouteCount,
    below: Below,
    value: &Value,
) -> Result<TreeForm, ConfigFault>
    ensures gives { GivesReading (λ r. (route_of_form r, count.new.routes)) result (typed pools.now.0 below.levels below.weight (route pools.now.0 below.levels) (view value.now) count.old.routes) }
    ensures fits { IfOk result (λ r. NodeFits (length pools.now.1) below.levels below.weight count.old.routes (route_of_form r) count.new.routes) }
{
    let name = text_field(alloc, "type", value)?;
    let kind = known_kind(alloc, name)?;
    only(alloc, Holder::Route(kind), value)?;
    fields(alloc, pools, count, below, kind, value)
}

#[cycle(route)]
fn fields(
    alloc: Global,
    pools: &Pools,
    count: &mut RouteCount,
    below: Below,
    kind: Kind,
    value: &Value,
) -> Result<TreeForm, ConfigFault>
    ensures gives { GivesReading (λ r. (route_of_form r, count.new.routes)) result (fields pools.now.0 below.levels below.weight (route pools.now.0 below.levels) kind (view value.now) count.old.routes) }
    ensures fits { IfOk result (λ r. NodeFits (length pools.now.1) below.levels below.weight count.old.routes (route_of_form r) count.new.routes) }
{
    match kind {
        Kind::Pool => pool_route(alloc, pools, text_field(alloc, "pool", value)?),
        Kind::List(lists) => {
            let trees = children(alloc, pools, count, below, value)?;
            Ok(listed(lists, trees))
        }
        Kind::WarmUp => warm_up(alloc, pools, count, below, value),
        Kind::ByOperation => by_operation(alloc, pools, count, below, value),
        Kind::ByPrefix => by_prefix(alloc, pools, count, below, value),
        Kind::Null => Ok(TreeForm::Null),
        Kind::Error => Ok(TreeForm::Error),
    }
}

#[cycle(route)]
fn warm_up(
    alloc: Global,
    pools: &Pools,
    count: &mut RouteCount,
    below: Below,
    value: &Value,
) -> Result<TreeForm, ConfigFault>
    ensures gives { GivesReading (λ r. (route_of_form r, count.new.routes)) result (warm_up pools.now.0 below.levels below.weight (route pools.now.0 below.levels) (view value.now) count.old.routes) }
    ensures fits { IfOk result (λ r. NodeFits (length pools.now.1) below.levels below.weight count.old.routes (route_of_form r) count.new.routes) }
{
    let cold = value_field(alloc, "cold", value)?;
    let cold_place = RoutePlace {
        levels: below.levels,
        weight: COLD * below.weight,
    };
    let cold = route(alloc, pools, count, cold_place, "cold", cold)?;
    let warm = value_field(alloc, "warm", value)?;
    let warm_place = RoutePlace {
        levels: below.levels,
        weight: below.weight,
    };
    let warm = route(alloc, pools, count, warm_place, "warm", warm)?;
    let exptime = exptime_field(alloc, value)?;
    let cold = Box::new(alloc, cold)?;
    let warm = Box::new(alloc, warm)?;
    Ok(TreeForm::WarmUp {
        cold,
        warm,
        exptime,
    })
}

#[cycle(route)]
fn children(
    alloc: Global,
    pools: &Pools,
    count: &mut RouteCount,
    below: Below,
    value: &Value,
) -> Result<Vec<Tree>, ConfigFault>
    ensures gives { GivesReading (λ r. (r.items, count.new.routes)) result (children_of pools.now.0 below.levels below.weight (route pools.now.0 below.levels) (get (codes "children") (view value.now)) count.old.routes) }
    ensures fits { IfOk result (λ r. AllFit (length pools.now.1) below.levels below.weight count.old.routes r.items count.new.routes) }
    ensures some { IfOk result (λ r. 0 < length r.items) }
{
    match value.get("children") {
        Some(Value::Array(items)) => {
            if items.is_empty() {
                return Err(ConfigFault::EmptyChildren);
            }
            each_child(alloc, pools, count, below, items)
        }
        Some(Value::String(text)) => { text_children(alloc, pools, count, below, text.as_str()) }
        _ => Err(ConfigFault::BadField(String::from_str(alloc, "children")?)),
    }
}

#[cycle(route)]
fn each_child(
    alloc: Global,
    pools: &Pools,
    count: &mut RouteCount,
    below: Below,
    items: &[Value],
) -> Result<Vec<Tree>, ConfigFault>
    ensures gives { GivesReading (λ r. (r.items, count.new.routes)) result (each (route pools.now.0 below.levels below.weight (codes "children")) (values (items_view items.now)) count.old.routes) }
    ensures fits { IfOk result (λ r. AllFit (length pools.now.1) below.levels below.weight count.old.routes r.items count.new.routes) }
    ensures many { IfOk result (λ r. length r.items ≡ length items.now) }
{
    let place = RoutePlace {
        levels: below.levels,
        weight: below.weight,
    };
    let mut trees = Vec::new(alloc);
    for item in items {
        let tree = route(alloc, pools, count, place, "children", item)?;
        trees.push(tree)?;
    }
    Ok(trees)
}
