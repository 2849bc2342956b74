//! The pool that is changed: its list and its slots after the change, as numbers of servers.

use crate::slots::arguments::SlotsChange;
use crate::slots::fault::SlotsFault;
use gate_gaps::{ConfigPool, read_pools};
use gate_plan::slots::{ServerChange, rewritten, table_of};
use mc_types::ServerId;
use route_json::addresses::is_server_name;
use route_json::addresses::servers::MAX_SERVERS;
use route_json::{ConfigFault, Servers, read_config_after};
use std::alloc::{AllocError, Global};

/// The list of a pool and its slots.
#[derive(Drop)]
pub struct Table {
    pub servers: Vec<ServerId>,
    pub slots: Vec<ServerId>,
}

/// The servers of a configuration's text, numbered after these.
pub fn servers_after(alloc: Global, known: Servers, text: &str) -> Result<Servers, ConfigFault> {
    let config = read_config_after(alloc, known, text)?;
    Ok(config.servers().copy(alloc)?)
}

fn push_slots(
    alloc: Global,
    earlier: &mut Vec<Vec<ServerId>>,
    pools: &[ConfigPool],
) -> Result<(), AllocError> {
    for pool in pools {
        earlier.push(Vec::from_slice(alloc, pool.slots())?)?;
    }
    Ok(())
}

/// The slots of all pools of these texts.
pub fn slots_before(
    alloc: Global,
    servers: &Servers,
    texts: &[String],
) -> Result<Vec<Vec<ServerId>>, AllocError> {
    let mut earlier = Vec::new(alloc);
    for text in texts {
        let pools = read_pools(alloc, text.as_str(), servers)?;
        push_slots(alloc, &mut earlier, &pools)?;
    }
    Ok(earlier)
}

/// The pool of this name, or the only one.
pub fn chosen<'a, 'b>(
    pools: &'b [ConfigPool],
    name: Option<&'a str>,
) -> Result<&'b ConfigPool, SlotsFault<'a>> {
    match (name, pools) {
        (Some(name), _) => match pools.iter().find(|pool| pool.name() == name) {
            Some(pool) => Ok(pool),
            None => Err(SlotsFault::NoPool(name)),
        },
        (None, [pool]) => Ok(pool),
        (None, _) => Err(SlotsFault::WhichPool),
    }
}

fn has(servers: &[ServerId], server: ServerId) -> bool {
    servers.iter().any(|other| *other == server)
}

// The servers of a list but for one, none of them twice.
fn others_of(
    alloc: Global,
    list: &[ServerId],
    left_out: Option<ServerId>,
) -> Result<Vec<ServerId>, AllocError> {
    let mut others = Vec::new(alloc);
    for server in list {
        if left_out != Some(*server) && !has(&others, *server) {
            others.push(*server)?;
        }
    }
    Ok(others)
}

// The server of an address, which is numbered last if it is new.
fn server_of<'a>(
    alloc: Global,
    servers: &mut Servers,
    address: &'a str,
) -> Result<ServerId, SlotsFault<'a>> {
    if !is_server_name(address) {
        return Err(SlotsFault::NoAddress(address));
    }
    if let Some(server) = servers.find(address) {
        return Ok(server);
    }
    if servers.len() >= MAX_SERVERS {
        return Err(SlotsFault::NoAddress(address));
    }
    Ok(servers.push(alloc, address)?)
}

// The change that is asked for.
fn change_of<'a>(
    alloc: Global,
    servers: &mut Servers,
    pool: &ConfigPool,
    change: SlotsChange<'a>,
) -> Result<Option<ServerChange>, SlotsFault<'a>> {
    match change {
        SlotsChange::Keep => Ok(None),
        SlotsChange::Add(address) => {
            let server = server_of(alloc, servers, address)?;
            if has(pool.slots(), server) {
                return Err(SlotsFault::HasSlots(address));
            }
            Ok(Some(ServerChange::Add(server)))
        }
        SlotsChange::Remove(address) => match servers.find(address) {
            Some(server) if has(pool.servers(), server) => Ok(Some(ServerChange::Remove(server))),
            _ => Err(SlotsFault::NotThere(address)),
        },
    }
}

// The slots of a pool as a table: its own, or its list as often one after another as there is room.
fn own_table(
    alloc: Global,
    pool: &ConfigPool,
    has_table: bool,
) -> Result<Vec<ServerId>, AllocError> {
    let slots = pool.slots();
    if has_table || slots.is_empty() {
        return Vec::from_slice(alloc, slots);
    }
    table_of(alloc, slots)
}

fn changed<'a>(
    alloc: Global,
    change: ServerChange,
    earlier: &[Vec<ServerId>],
    list: &[ServerId],
    slots: &[ServerId],
) -> Result<Table, SlotsFault<'a>> {
    let (ServerChange::Add(server) | ServerChange::Remove(server)) = change;
    let others = others_of(alloc, list, Some(server))?;
    let Some(slots) = rewritten(alloc, &change, &others, earlier, slots)? else {
        return Err(SlotsFault::NoWay);
    };
    let mut servers = others;
    if matches!(change, ServerChange::Add(_)) {
        servers.push(server)?;
    }
    Ok(Table { servers, slots })
}

/// The list and the slots of a pool after what is asked for; a list without a table is made one.
pub fn table_after<'a>(
    alloc: Global,
    servers: &mut Servers,
    pool: &ConfigPool,
    has_table: bool,
    change: SlotsChange<'a>,
    earlier: &[Vec<ServerId>],
) -> Result<Table, SlotsFault<'a>> {
    let slots = own_table(alloc, pool, has_table)?;
    match change_of(alloc, servers, pool, change)? {
        Some(change) => changed(alloc, change, earlier, pool.servers(), &slots),
        None => Ok(Table {
            servers: others_of(alloc, pool.servers(), None)?,
            slots,
        }),
    }
}
