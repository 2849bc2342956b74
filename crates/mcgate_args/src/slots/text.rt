//! The text of a configuration whose pool has another table of slots.

use crate::slots::arguments::{SlotsChange, SlotsJob};
use crate::slots::choosing::{Table, chosen, servers_after, slots_before, table_after};
use crate::slots::fault::SlotsFault;
use gate_gaps::{ConfigPool, read_pools};
use mc_types::ServerId;
use route_json::limits::LIMIT_FIELDS;
use route_json::{ConfigFault, Servers, read_config};
use serde_json::{Map, Value, json, put};
use std::alloc::{AllocError, Global};

// The addresses of a list.
fn address_values(
    alloc: Global,
    servers: &Servers,
    list: &[ServerId],
) -> Result<Vec<Value>, AllocError> {
    let mut values = Vec::new(alloc);
    for server in list {
        let address = servers.get(*server).unwrap_or("");
        values.push(Value::String(String::from_str(alloc, address)?))?;
    }
    Ok(values)
}

// The places of the slots' servers in a list.
fn place_values(
    alloc: Global,
    list: &[ServerId],
    slots: &[ServerId],
) -> Result<Vec<Value>, AllocError> {
    let mut values = Vec::new(alloc);
    for slot in slots {
        let place = list.iter().position(|server| *server == *slot).unwrap_or(0);
        values.push(Value::from(place as u64))?;
    }
    Ok(values)
}

// The limits of a pool are put into what is told of it.
fn put_limits(
    alloc: Global,
    pool: &Value,
    told: &mut Map<String, Value>,
) -> Result<(), AllocError> {
    for name in LIMIT_FIELDS {
        if let Some(limit) = pool.get(name) {
            put(told, alloc, name, limit.clone()?)?;
        }
    }
    Ok(())
}

// The pool with this table.
fn pool_value(
    alloc: Global,
    servers: &Servers,
    table: &Table,
    pool: Option<&Value>,
) -> Result<Value, AllocError> {
    let list = address_values(alloc, servers, &table.servers)?;
    let slots = place_values(alloc, &table.servers, &table.slots)?;
    let mut told = json!(in alloc; {"servers": list, "slots": slots})?;
    if let (Some(pool), Value::Object(told)) = (pool, &mut told) {
        put_limits(alloc, pool, told)?;
    }
    Ok(told)
}

// The pool of this name.
fn pool_named<'a>(value: &'a Value, name: &str) -> Option<&'a Value> {
    value.get("pools")?.get(name)
}

// Whether the pool of this name has a table.
fn has_table(value: &Value, name: &str) -> bool {
    match pool_named(value, name) {
        Some(pool) => pool.get("slots").is_some(),
        None => false,
    }
}

// Puts a pool in the place of the one that has this name.
fn put_pool(value: &mut Value, name: &str, pool: Value) {
    let Some(pools) = value.get_mut("pools") else {
        return;
    };
    if let Some(place) = pools.get_mut(name) {
        *place = pool;
    }
}

fn value_of<'a>(alloc: Global, text: &str) -> Result<Value, SlotsFault<'a>> {
    match Value::from_str(alloc, text) {
        Ok(value) => Ok(value),
        Err(error) if error.is_memory() => Err(SlotsFault::NoMemory),
        Err(_) => Err(SlotsFault::Config(ConfigFault::NotJson)),
    }
}

fn servers_of(alloc: Global, text: &str) -> Result<Servers, ConfigFault> {
    let config = read_config(alloc, text)?;
    Ok(config.servers().copy(alloc)?)
}

// These servers and those of earlier configurations.
fn with_earlier<'a>(
    alloc: Global,
    servers: Servers,
    earlier: &[String],
) -> Result<Servers, SlotsFault<'a>> {
    let mut servers = servers;
    for (number, text) in earlier.iter().enumerate() {
        servers = match servers_after(alloc, servers, text.as_str()) {
            Ok(next) => next,
            Err(fault) => return Err(SlotsFault::Earlier(number, fault)),
        };
    }
    Ok(servers)
}

// The servers of a configuration and of the earlier ones.
fn all_servers<'a>(
    alloc: Global,
    text: &str,
    earlier: &[String],
) -> Result<Servers, SlotsFault<'a>> {
    match servers_of(alloc, text) {
        Ok(servers) => with_earlier(alloc, servers, earlier),
        Err(fault) => Err(SlotsFault::Config(fault)),
    }
}

// Gives a pool of a configuration's JSON the table that a change makes of it, after these slots of earlier ones.
fn put_table<'a>(
    alloc: Global,
    servers: &mut Servers,
    pool: &ConfigPool,
    change: SlotsChange<'a>,
    before: &[Vec<ServerId>],
    value: &mut Value,
) -> Result<(), SlotsFault<'a>> {
    let has_table = has_table(value, pool.name());
    let table = table_after(alloc, servers, pool, has_table, change, before)?;
    let told = pool_value(alloc, servers, &table, pool_named(value, pool.name()))?;
    put_pool(value, pool.name(), told);
    Ok(())
}

// The text of a configuration whose pool has the table that a job asks for, after these slots of earlier ones.
fn text_after<'a>(
    alloc: Global,
    job: &SlotsJob<'a>,
    text: &str,
    servers: &mut Servers,
    before: &[Vec<ServerId>],
) -> Result<String, SlotsFault<'a>> {
    let pools = read_pools(alloc, text, servers)?;
    let pool = chosen(&pools, job.pool)?;
    let mut value = value_of(alloc, text)?;
    put_table(alloc, servers, pool, job.change, before, &mut value)?;
    Ok(value.to_string(alloc)?)
}

/// The text of a configuration whose pool has the table that a job asks for, after those of earlier texts.
pub fn rewritten_text<'a>(
    alloc: Global,
    job: &SlotsJob<'a>,
    text: &str,
    earlier: &[String],
) -> Result<String, SlotsFault<'a>> {
    let mut servers = all_servers(alloc, text, earlier)?;
    let before = slots_before(alloc, &servers, earlier)?;
    text_after(alloc, job, text, &mut servers, &before)
}
