//! Routes that hold no other value: pools, their servers, short texts, defaults.

ghost use Rattle.std.specs.Prelude.{◌≡◌, ℕ, ◌+◌, ◌<◌, ◌≤◌, IfOk, codes, length};
ghost use Rattle.mc_types.specs.KeyText.{IsKey};
ghost use Rattle.route_tree.specs.Route.{Failing, Server};
ghost use Rattle.route_tree.specs.Form.{route_of_form, routes_of};
ghost use Rattle.route_json.specs.Fault.{GivesReading};
ghost use Rattle.route_json.specs.Names.{kind_of, rest_after};
ghost use Rattle.route_json.specs.Fits.{IsLeaf, FitsBounds, AllFit, NodeFits};
ghost use Rattle.route_json.specs.Pools.{slotted, AreWeighted, IsPool, pool_named};
ghost use Rattle.route_json.specs.Reading.{each};
ghost use Rattle.route_json.specs.Routes.{leaf, kind_or, policy_op, prefix_of, listed, known_pool, pool_route, server_routes, short_list, short, text_children};

use crate::fault::ConfigFault;
use crate::names::{Kind, Lists, kind_of, op_of, rest_after};
use crate::place::{Below, RouteCount};
use crate::pools::{Pool, Pools, WeightedServer};
use mc_types::{Key, Op, ServerId};
use route_tree::{Tree, TreeForm};
use std::alloc::Global;

/// A default error route, among the children of a route.
pub fn error_leaf(alloc: Global, count: &mut RouteCount, below: Below) -> Result<Tree, ConfigFault>
    ensures gives { GivesReading (λ t. (t, count.new.routes)) result (leaf below.levels below.weight Failing count.old.routes) }
    ensures fits { IfOk result (λ t. (bound : ℕ) → FitsBounds bound below.levels below.weight count.old.routes t count.new.routes) }
{
    if below.levels == 0 {
        return Err(ConfigFault::TooDeep);
    }
    count.add(below.weight)?;
    Ok(Tree::new(alloc, TreeForm::Error)?)
}

/// The kind of a type; `UnknownType` where there is none.
pub fn known_kind(alloc: Global, name: &str) -> Result<Kind, ConfigFault>
    ensures { GivesReading (λ k. k) result (kind_or name.now (kind_of name.now)) }
{
    match kind_of(name) {
        Some(kind) => Ok(kind),
        None => Err(ConfigFault::UnknownType(String::from_str(alloc, name)?)),
    }
}

/// The operation of a policy; `BadField` where there is none of this name.
pub fn policy_op(alloc: Global, name: &str) -> Result<Op, ConfigFault>
    ensures { GivesReading (λ op. op) result (policy_op name.now) }
{
    match op_of(name) {
        Some(op) => Ok(op),
        None => Err(ConfigFault::BadField(String::from_str(alloc, name)?)),
    }
}

/// The prefix of a policy; `BadPrefix` where it is no key.
pub fn policy_prefix(alloc: Global, name: &str) -> Result<Key, ConfigFault>
    ensures gives { GivesReading (λ k. k) result (prefix_of name.now) }
    ensures key { IfOk result IsKey }
{
    match Key::read(name.as_bytes()) {
        Ok(key) => Ok(key),
        Err(_) => Err(ConfigFault::BadPrefix(String::from_str(alloc, name)?)),
    }
}

/// The form of a route over children.
pub fn listed(lists: Lists, trees: Vec<Tree>) -> TreeForm
    ensures { route_of_form result ≡ listed lists (routes_of trees.items) }
{
    match lists {
        Lists::AllSync => TreeForm::AllSync(trees),
        Lists::Failover => TreeForm::Failover(trees),
        Lists::MissFailover => TreeForm::MissFailover(trees),
    }
}

fn known_pool<'a>(alloc: Global, pools: &'a Pools, name: &str) -> Result<&'a Pool, ConfigFault>
    ensures gives { GivesReading (λ p. slotted p.now) result (known_pool name.now (pool_named name.now pools.now.0)) }
    ensures good { IfOk result (λ p. IsPool (length pools.now.1) (slotted p.now)) }
{
    match pools.pool_named(name) {
        Some(pool) => Ok(pool),
        None => Err(ConfigFault::NoPool(String::from_str(alloc, name)?)),
    }
}

/// The route over a pool's slots; `NoPool` where there is none of this name.
pub fn pool_route(alloc: Global, pools: &Pools, name: &str) -> Result<TreeForm, ConfigFault>
    ensures gives { (n : ℕ) → GivesReading (λ f. (route_of_form f, n)) result (pool_route pools.now.0 name.now n) }
    ensures leaf { IfOk result (λ f. IsLeaf (length pools.now.1) (route_of_form f)) }
{
    let pool = known_pool(alloc, pools, name)?;
    Ok(TreeForm::Pool(Vec::from_slice(alloc, &pool.slots)?))
}

/// One child for each text of a pool, whatever its weight; `NoPool` where there is none of this name.
pub fn server_routes(
    alloc: Global,
    pools: &Pools,
    count: &mut RouteCount,
    below: Below,
    name: &str,
) -> Result<Vec<Tree>, ConfigFault>
    ensures gives { GivesReading (λ v. (v.items, count.new.routes)) result (server_routes pools.now.0 below.levels below.weight name.now count.old.routes) }
    ensures fits { IfOk result (λ v. AllFit (length pools.now.1) below.levels below.weight count.old.routes v.items count.new.routes) }
    ensures some { IfOk result (λ v. 0 < length v.items) }
{
    let pool = known_pool(alloc, pools, name)?;
    each_server(alloc, pools, count, below, &pool.servers)
}

fn each_server(
    alloc: Global,
    pools: &Pools,
    count: &mut RouteCount,
    below: Below,
    servers: &[WeightedServer],
) -> Result<Vec<Tree>, ConfigFault>
    requires some { 0 < length servers.now }
    requires weighted { AreWeighted (length pools.now.1) servers.now }
    ensures gives { GivesReading (λ v. (v.items, count.new.routes)) result (each (λ s. leaf below.levels below.weight (Server s.server)) servers.now count.old.routes) }
    ensures fits { IfOk result (λ v. AllFit (length pools.now.1) below.levels below.weight count.old.routes v.items count.new.routes) }
    ensures some { IfOk result (λ v. 0 < length v.items) }
{
    let mut trees = Vec::new(alloc);
    for server in servers {
        trees.push(server_leaf(alloc, count, below, server.server)?)?;
    }
    Ok(trees)
}

fn server_leaf(
    alloc: Global,
    count: &mut RouteCount,
    below: Below,
    server: ServerId,
) -> Result<Tree, ConfigFault>
    ensures gives { GivesReading (λ t. (t, count.new.routes)) result (leaf below.levels below.weight (Server server) count.old.routes) }
    ensures fits { IfOk result (λ t. (bound : ℕ) → server < bound → FitsBounds bound below.levels below.weight count.old.routes t count.new.routes) }
{
    if below.levels == 0 {
        return Err(ConfigFault::TooDeep);
    }
    count.add(below.weight)?;
    Ok(Tree::new(alloc, TreeForm::Server(server))?)
}

/// The route of a short text; `UnknownType` where there is none of this name.
pub fn short(
    alloc: Global,
    pools: &Pools,
    count: &mut RouteCount,
    below: Below,
    text: &str,
) -> Result<TreeForm, ConfigFault>
    ensures gives { GivesReading (λ f. (route_of_form f, count.new.routes)) result (short pools.now.0 below.levels below.weight text.now count.old.routes) }
    ensures fits { IfOk result (λ f. NodeFits (length pools.now.1) below.levels below.weight count.old.routes (route_of_form f) count.new.routes) }
{
    if text == "NullRoute" {
        return Ok(TreeForm::Null);
    }
    if text == "ErrorRoute" {
        return Ok(TreeForm::Error);
    }
    if let Some(name) = rest_after("PoolRoute|", text) {
        return pool_route(alloc, pools, name);
    }
    if let Some(name) = rest_after("AllSyncRoute|Pool|", text) {
        return short_list(alloc, pools, count, below, Lists::AllSync, name);
    }
    if let Some(name) = rest_after("FailoverRoute|Pool|", text) {
        return short_list(alloc, pools, count, below, Lists::Failover, name);
    }
    if let Some(name) = rest_after("MissFailoverRoute|Pool|", text) {
        return short_list(alloc, pools, count, below, Lists::MissFailover, name);
    }
    Err(ConfigFault::UnknownType(String::from_str(alloc, text)?))
}

fn short_list(
    alloc: Global,
    pools: &Pools,
    count: &mut RouteCount,
    below: Below,
    lists: Lists,
    name: &str,
) -> Result<TreeForm, ConfigFault>
    ensures gives { GivesReading (λ f. (route_of_form f, count.new.routes)) result (short_list pools.now.0 lists below.levels below.weight name.now count.old.routes) }
    ensures fits { IfOk result (λ f. NodeFits (length pools.now.1) below.levels below.weight count.old.routes (route_of_form f) count.new.routes) }
{
    let trees = server_routes(alloc, pools, count, below, name)?;
    Ok(listed(lists, trees))
}

/// The children that a text stands for; `BadField` where it isn't `Pool|` and a pool's name.
pub fn text_children(
    alloc: Global,
    pools: &Pools,
    count: &mut RouteCount,
    below: Below,
    text: &str,
) -> Result<Vec<Tree>, ConfigFault>
    ensures gives { GivesReading (λ v. (v.items, count.new.routes)) result (text_children pools.now.0 below.levels below.weight (rest_after (codes "Pool|") text.now) count.old.routes) }
    ensures fits { IfOk result (λ v. AllFit (length pools.now.1) below.levels below.weight count.old.routes v.items count.new.routes) }
    ensures some { IfOk result (λ v. 0 < length v.items) }
{
    match rest_after("Pool|", text) {
        Some(name) => server_routes(alloc, pools, count, below, name),
        None => Err(ConfigFault::BadField(String::from_str(alloc, "children")?)),
    }
}
