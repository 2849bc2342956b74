//! Pools of servers: their servers in order, and their slots.

ghost use Rattle.std.specs.Prelude.{◌≡◌, ◌++◌, ℕ, ◌<◌, ◌≤◌, IfOk, IfSome, length, option_map, replicate};
ghost use Rattle.serde_json.specs.View.{view, items_view, members_view};
ghost use Rattle.route_json.specs.Fault.{GivesReading};
ghost use Rattle.route_json.specs.Pools.{pools_of, slotted, slots_of, AreWeighted, IsServerList, IsPool, ArePools, pool_named, server_named, few_slots, first_over, first_over_in, in_epochs, servers_in, pool_list, pool_object, pool_of, pools_in};
ghost use Rattle.route_json.specs.Reading.{each, values};

use crate::addresses::Servers;
use crate::addresses::server_text::MAX_WEIGHT;
use crate::fault::ConfigFault;
use crate::fields::{list_field, only};
use crate::limits::check_limits;
use crate::names::Holder;
use crate::numbering::server_of_text;
use crate::table::slots_or;
use mc_types::ServerId;
use route_tree::{POOL_LIMIT, SLOT_LIMIT};
use serde_json::{Map, Value};
use std::alloc::{AllocError, Global};
use std::marker::Model;

/// A server of a pool, as one of its texts says it: it has so many slots in a row.
#[derive(Clone, Copy)]
pub struct WeightedServer {
    pub server: ServerId,
    pub weight: u32,
}

/// A pool: its servers, one for each of its texts, and the server of each of its slots.
#[derive(Drop)]
pub struct Pool {
    pub servers: Vec<WeightedServer>,
    pub slots: Vec<ServerId>,
}

/// A pool and its name.
#[derive(Drop)]
pub struct NamedPool {
    pub name: String,
    pub pool: Pool,
}

/// The pools of a configuration and its servers. No pool is empty or has more than 2,048 slots.
#[derive(Drop)]
pub struct Pools {
    list: Vec<NamedPool>,
    servers: Servers,
}

impl Model for Pools {
    ghost use Rattle.std.specs.Prelude.{List, ℕ, length};
    ghost use Rattle.route_json.specs.Pools.{Pools, pools_of, ArePools};
    ghost use Rattle.route_json.specs.Servers.{Addresses};

    ghost Value = { Pools × Addresses };

    ghost view = { λ a. (pools_of a.list.items, a.servers) };

    ghost invariant = { λ a. ArePools (length a.servers) (pools_of a.list.items) };
}

impl Pools {
    /// The pools of an object, with their servers numbered after these; or the first fault, pools in byte order of their
    /// names.
    pub fn read(
        alloc: Global,
        servers: Servers,
        map: &Map<String, Value>,
    ) -> Result<Pools, ConfigFault>
        ensures { GivesReading (λ pools. pools) result (pools_in (members_view map.now.entries) servers) }
    {
        let mut servers = servers;
        let mut list = Vec::new(alloc);
        for (name, value) in map.iter() {
            let text = name.as_str();
            let pool = read_pool(alloc, &mut servers, text, value)?;
            let name = String::from_str(alloc, text)?;
            list.push(NamedPool { name, pool })?;
        }
        Ok(Pools { list, servers })
    }

    /// The pool of this name.
    pub fn pool_named(&self, name: &str) -> Option<&Pool>
        ensures found { option_map (λ p. slotted p.now) result ≡ pool_named name.now self.now.0 }
        ensures good { IfSome result (λ p. IsPool (length self.now.1) (slotted p.now)) }
    {
        find(&self.list, name)
    }

    /// `BadAddress`, with its name, where a pool names a server whose epoch is over: a later one has its address.
    pub fn keep_epochs(&self, alloc: Global) -> Result<(), ConfigFault>
        ensures { GivesReading (λ u. (u, self.now.1)) result (in_epochs self.now.0 self.now.1) }
    {
        if !self.servers.have_epochs() {
            return Ok(());
        }
        match first_over_in(&self.servers, &self.list) {
            None => Ok(()),
            Some(name) => Err(ConfigFault::BadAddress(String::from_str(alloc, name)?)),
        }
    }

    /// The servers of all pools.
    pub fn into_servers(self) -> Servers
        ensures { result ≡ self.1 }
    {
        self.servers
    }
}

/// The slots of a pool without a table: each server as often in a row as its weight says. The only error is out of memory.
pub fn slots_of(alloc: Global, servers: &[WeightedServer]) -> Result<Vec<ServerId>, AllocError>
    ensures { IfOk result (λ v. v.items ≡ slots_of servers.now) }
{
    let mut slots = Vec::new(alloc);
    for server in servers {
        push_slots(&mut slots, *server)?;
    }
    Ok(slots)
}

fn push_slots(slots: &mut Vec<ServerId>, server: WeightedServer) -> Result<(), AllocError>
    ensures { IfOk result (λ _. slots.new.items ≡ slots.old.items ++ replicate server.weight server.server) }
{
    for _slot in 0..server.weight {
        slots.push(server.server)?;
    }
    Ok(())
}

fn slot_count(servers: &[WeightedServer]) -> u32
    requires few { length servers.now ≤ POOL_LIMIT }
    requires light { (bound : ℕ) × AreWeighted bound servers.now }
    ensures { result ≡ length (slots_of servers.now) }
{
    let mut count = 0;
    for server in servers {
        count += server.weight;
    }
    count
}

fn find<'a>(list: &'a [NamedPool], name: &str) -> Option<&'a Pool>
    ensures found { option_map (λ p. slotted p.now) result ≡ pool_named name.now (pools_of list.now) }
    ensures good { (bound : ℕ) → ArePools bound (pools_of list.now) → IfSome result (λ p. IsPool bound (slotted p.now)) }
{
    match list {
        [] => None,
        [named, rest @ ..] => {
            if named.name.as_str() == name {
                Some(&named.pool)
            } else {
                find(rest, name)
            }
        }
    }
}

// The name of the first of these servers whose epoch is over.
fn first_over<'a>(names: &'a Servers, servers: &[WeightedServer]) -> Option<&'a str>
    ensures { option_map (λ name. name.now) result ≡ first_over names.now servers.now }
{
    for server in servers {
        if names.is_over(server.server) {
            return names.get(server.server);
        }
    }
    None
}

fn first_over_in<'a>(names: &'a Servers, list: &[NamedPool]) -> Option<&'a str>
    ensures { option_map (λ name. name.now) result ≡ first_over_in names.now (pools_of list.now) }
{
    match list {
        [] => None,
        [named, rest @ ..] => match first_over(names, &named.pool.servers) {
            Some(name) => Some(name),
            None => first_over_in(names, rest),
        },
    }
}

fn read_pool(
    alloc: Global,
    servers: &mut Servers,
    name: &str,
    value: &Value,
) -> Result<Pool, ConfigFault>
    ensures gives { GivesReading (λ p. (slotted p, servers.new)) result (pool_of name.now (view value.now) servers.old) }
    ensures good { IfOk result (λ p. IsPool (length servers.new) (slotted p)) }
    ensures more { length servers.old ≤ length servers.new }
{
    match value {
        Value::Object(_) => read_pool_object(alloc, servers, name, value),
        _ => Err(ConfigFault::BadField(String::from_str(alloc, name)?)),
    }
}

fn read_pool_object(
    alloc: Global,
    servers: &mut Servers,
    name: &str,
    value: &Value,
) -> Result<Pool, ConfigFault>
    ensures gives { GivesReading (λ p. (slotted p, servers.new)) result (pool_object name.now (view value.now) servers.old) }
    ensures good { IfOk result (λ p. IsPool (length servers.new) (slotted p)) }
    ensures more { length servers.old ≤ length servers.new }
{
    only(alloc, Holder::Pool, value)?;
    let items = list_field(alloc, "servers", value)?;
    let listed = read_list(alloc, servers, name, items)?;
    let slots = slots_or(alloc, &listed, value)?;
    check_limits(alloc, value)?;
    Ok(Pool {
        servers: listed,
        slots,
    })
}

fn read_list(
    alloc: Global,
    servers: &mut Servers,
    name: &str,
    items: &[Value],
) -> Result<Vec<WeightedServer>, ConfigFault>
    ensures gives { GivesReading (λ v. (v.items, servers.new)) result (pool_list name.now (values (items_view items.now)) servers.old) }
    ensures good { IfOk result (λ v. IsServerList (length servers.new) v.items) }
    ensures more { length servers.old ≤ length servers.new }
{
    if items.is_empty() {
        return Err(ConfigFault::EmptyPool(String::from_str(alloc, name)?));
    }
    if items.len() > POOL_LIMIT as usize {
        return Err(ConfigFault::TooManyServers(String::from_str(alloc, name)?));
    }
    read_servers(alloc, servers, name, items)
}

fn read_servers(
    alloc: Global,
    servers: &mut Servers,
    name: &str,
    items: &[Value],
) -> Result<Vec<WeightedServer>, ConfigFault>
    requires some { 0 < length items.now }
    requires few { length items.now ≤ POOL_LIMIT }
    ensures gives { GivesReading (λ v. (v.items, servers.new)) result (servers_in name.now (values (items_view items.now)) servers.old) }
    ensures good { IfOk result (λ v. IsServerList (length servers.new) v.items) }
    ensures more { length servers.old ≤ length servers.new }
{
    let pool = read_each(alloc, servers, name, items)?;
    if slot_count(&pool) > SLOT_LIMIT {
        return Err(ConfigFault::TooManySlots(String::from_str(alloc, name)?));
    }
    Ok(pool)
}

fn read_each(
    alloc: Global,
    servers: &mut Servers,
    name: &str,
    items: &[Value],
) -> Result<Vec<WeightedServer>, ConfigFault>
    ensures gives { GivesReading (λ v. (v.items, servers.new)) result (each (server_named name.now) (values (items_view items.now)) servers.old) }
    ensures many { IfOk result (λ v. length v.items ≡ length items.now) }
    ensures below { IfOk result (λ v. AreWeighted (length servers.new) v.items) }
    ensures more { length servers.old ≤ length servers.new }
{
    let mut pool = Vec::new(alloc);
    for item in items {
        let server = read_server(alloc, servers, name, item)?;
        pool.push(server)?;
    }
    Ok(pool)
}

fn read_server(
    alloc: Global,
    servers: &mut Servers,
    name: &str,
    value: &Value,
) -> Result<WeightedServer, ConfigFault>
    ensures gives { GivesReading (λ s. (s, servers.new)) result (server_named name.now (view value.now) servers.old) }
    ensures below { IfOk result (λ s. s.server < length servers.new) }
    ensures weight { IfOk result (λ s. (0 < s.weight) × (s.weight ≤ MAX_WEIGHT)) }
    ensures more { length servers.old ≤ length servers.new }
{
    match value {
        Value::String(text) => server_of_text(alloc, servers, name, text.as_str()),
        _ => Err(ConfigFault::BadField(String::from_str(alloc, "servers")?)),
    }
}
