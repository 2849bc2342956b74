//! The pools that a configuration's text names: the servers of their lists, and their slots.

ghost use Rattle.std.specs.Prelude.{◌≡◌, ◌++◌, IfOk, codes, option_map, option_to_list, position, replicate};
ghost use Rattle.std.specs.Str.{bytes_eq};
ghost use Rattle.route_json.specs.Reading.{members, values};
ghost use Rattle.serde_json.specs.Find.{get};
ghost use Rattle.serde_json.specs.Read.{read};
ghost use Rattle.serde_json.specs.View.{view, items_view, members_view};
ghost use Rattle.route_json.specs.ServerTexts.{server_in};
ghost use Rattle.gate_gaps.specs.Pools.{member_with_weight, member_at, member_of, members_of, members_in, member_servers, member_slots, member_placed, table_of, member_slots_or, pool_by_name, named_pools_of, object_in, pools_at, named_pools_in};

use mc_types::ServerId;
use route_json::addresses::{Servers, read_server};
use serde_json::{Map, Value};
use std::alloc::{AllocError, Global};
use std::marker::Model;

/// A pool of a configuration: its name, the servers of its list in order, and its slots: those of its table, or each server as
/// often in a row as its weight says.
#[derive(Drop)]
pub struct ConfigPool {
    name: String,
    servers: Vec<ServerId>,
    slots: Vec<ServerId>,
}

impl Model for ConfigPool {
    ghost use Rattle.std.specs.Prelude.{string_bytes};
    ghost use Rattle.gate_gaps.specs.Pools.{NamedPool};

    ghost Value = { NamedPool };

    ghost view = { λ p. (string_bytes p.name, p.servers.items, p.slots.items) };
}

impl ConfigPool {
    /// The pool's name.
    pub fn name(&self) -> &str
        ensures { result.now ≡ self.now.0 }
    {
        self.name.as_str()
    }

    /// The servers of the pool's list, in order: one for each text.
    pub fn servers(&self) -> &[ServerId]
        ensures { result.now ≡ self.now.1 }
    {
        self.servers.as_slice()
    }

    /// The slots of the pool.
    pub fn slots(&self) -> &[ServerId]
        ensures { result.now ≡ self.now.2 }
    {
        self.slots.as_slice()
    }
}

/// What a text of a pool's list says: a server, and its weight.
#[derive(Clone, Copy)]
pub struct Member {
    pub server: ServerId,
    pub weight: u32,
}

// The server of this address with this weight, if it is one of these.
fn member_at(servers: &Servers, address: &str, weight: u32) -> Option<Member>
    ensures { result ≡ member_with_weight weight (position (bytes_eq address.now) servers.now) }
{
    match servers.find(address) {
        Some(server) => Some(Member { server, weight }),
        None => None,
    }
}

// What a text of a pool's list says, if it names one of these servers.
fn member_of_text(servers: &Servers, text: &str) -> Option<Member>
    ensures { result ≡ member_at servers.now (server_in text.now) }
{
    match read_server(text) {
        Some((address, weight)) => member_at(servers, address, weight),
        None => None,
    }
}

// What a value of a pool's list says, if it is a text and names one of these servers.
fn member_of(servers: &Servers, item: &Value) -> Option<Member>
    ensures { result ≡ member_of servers.now (view item.now) }
{
    match item.as_str() {
        Some(text) => member_of_text(servers, text),
        None => None,
    }
}

// Adds what a value of a list says.
fn add_member(members: &mut Vec<Member>, member: Option<Member>) -> Result<(), AllocError>
    ensures { IfOk result (λ _. members.new.items ≡ members.old.items ++ option_to_list member) }
{
    if let Some(member) = member {
        members.push(member)?;
    }
    Ok(())
}

// What the values of a list say.
fn members_of(alloc: Global, servers: &Servers, items: &[Value]) -> Result<Vec<Member>, AllocError>
    ensures { IfOk result (λ members. members.items ≡ members_of servers.now (values (items_view items.now))) }
{
    let mut members = Vec::new(alloc);
    for item in items {
        add_member(&mut members, member_of(servers, item))?;
    }
    Ok(members)
}

// What stands in the list of a pool's object.
fn members_in(alloc: Global, servers: &Servers, value: &Value) -> Result<Vec<Member>, AllocError>
    ensures { IfOk result (λ members. members.items ≡ members_in servers.now (get (codes "servers") (view value.now))) }
{
    match value.get("servers") {
        Some(Value::Array(items)) => members_of(alloc, servers, items),
        _ => Ok(Vec::new(alloc)),
    }
}

fn servers_of(alloc: Global, members: &[Member]) -> Result<Vec<ServerId>, AllocError>
    ensures { IfOk result (λ servers. servers.items ≡ member_servers members.now) }
{
    let mut servers = Vec::new(alloc);
    for member in members {
        servers.push(member.server)?;
    }
    Ok(servers)
}

fn push_slots(slots: &mut Vec<ServerId>, member: Member) -> Result<(), AllocError>
    ensures { IfOk result (λ _. slots.new.items ≡ slots.old.items ++ replicate member.weight member.server) }
{
    for _slot in 0..member.weight {
        slots.push(member.server)?;
    }
    Ok(())
}

fn slots_of(alloc: Global, members: &[Member]) -> Result<Vec<ServerId>, AllocError>
    ensures { IfOk result (λ slots. slots.items ≡ member_slots members.now) }
{
    let mut slots = Vec::new(alloc);
    for member in members {
        push_slots(&mut slots, *member)?;
    }
    Ok(slots)
}

// What stands at the place of the list that a value of a table names, if there is one.
fn placed(members: &[Member], item: &Value) -> Option<Member>
    ensures { result ≡ member_placed members.now (view item.now) }
{
    let place = item.as_u64()?;
    if place < members.len() as u64 {
        Some(members[place as usize])
    } else {
        None
    }
}

// Adds the server of a slot.
fn add_slot(slots: &mut Vec<ServerId>, member: Option<Member>) -> Result<(), AllocError>
    ensures { IfOk result (λ _. slots.new.items ≡ slots.old.items ++ member_servers (option_to_list member)) }
{
    if let Some(member) = member {
        slots.push(member.server)?;
    }
    Ok(())
}

// The slots that a table says.
fn table_of(alloc: Global, members: &[Member], items: &[Value]) -> Result<Vec<ServerId>, AllocError>
    ensures { IfOk result (λ slots. slots.items ≡ table_of members.now (values (items_view items.now))) }
{
    let mut slots = Vec::new(alloc);
    for item in items {
        add_slot(&mut slots, placed(members, item))?;
    }
    Ok(slots)
}

// The slots of a pool's object.
fn slots_or(alloc: Global, members: &[Member], value: &Value) -> Result<Vec<ServerId>, AllocError>
    ensures { IfOk result (λ slots. slots.items ≡ member_slots_or members.now (get (codes "slots") (view value.now))) }
{
    match value.get("slots") {
        Some(Value::Array(items)) => table_of(alloc, members, items),
        _ => slots_of(alloc, members),
    }
}

// The pool of this name and object.
fn pool_of(
    alloc: Global,
    servers: &Servers,
    name: &str,
    value: &Value,
) -> Result<ConfigPool, AllocError>
    ensures { IfOk result (λ pool. pool ≡ pool_by_name servers.now (name.now, view value.now)) }
{
    let members = members_in(alloc, servers, value)?;
    Ok(ConfigPool {
        name: String::from_str(alloc, name)?,
        servers: servers_of(alloc, &members)?,
        slots: slots_or(alloc, &members, value)?,
    })
}

// The pools of an object.
fn pools_of(
    alloc: Global,
    servers: &Servers,
    map: &Map<String, Value>,
) -> Result<Vec<ConfigPool>, AllocError>
    ensures { IfOk result (λ pools. pools.items ≡ named_pools_of servers.now (members (members_view map.now.entries))) }
{
    let mut pools = Vec::new(alloc);
    for (name, value) in map.iter() {
        let text = name.as_str();
        let pool = pool_of(alloc, servers, text, value)?;
        pools.push(pool)?;
    }
    Ok(pools)
}

// The object of a configuration's pools.
fn map_in(value: &Value) -> Option<&Map<String, Value>>
    ensures { option_map (λ map. members_view map.now.entries) result ≡ object_in (get (codes "pools") (view value.now)) }
{
    match value.get("pools") {
        Some(Value::Object(map)) => Some(map),
        _ => None,
    }
}

// The pools of a configuration's value.
fn pools_of_value(
    alloc: Global,
    servers: &Servers,
    value: &Value,
) -> Result<Vec<ConfigPool>, AllocError>
    ensures { IfOk result (λ pools. pools.items ≡ pools_at servers.now (object_in (get (codes "pools") (view value.now)))) }
{
    match map_in(value) {
        Some(map) => pools_of(alloc, servers, map),
        None => Ok(Vec::new(alloc)),
    }
}

/// The pools that the text of a configuration with these servers names, in byte order of their names; none where it is no such text.
/// The only error is running out of memory.
///
/// A configuration that was read doesn't know the names of its pools, so they are read from its text once more.
pub fn read_pools(
    alloc: Global,
    text: &str,
    servers: &Servers,
) -> Result<Vec<ConfigPool>, AllocError>
    ensures { IfOk result (λ pools. pools.items ≡ named_pools_in servers.now (read text.now)) }
{
    match Value::from_str(alloc, text) {
        Ok(value) => pools_of_value(alloc, servers, &value),
        Err(error) => {
            if error.is_memory() {
                Err(AllocError)
            } else {
                Ok(Vec::new(alloc))
            }
        }
    }
}
