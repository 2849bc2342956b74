//! A walk over the JSON of a configuration, in the order in which its faults are looked for: to the first trouble, or through all of it.

use crate::fields::{Part, fields_of, part_of};
use crate::trouble::{PathStep, Stop, Trouble};
use mc_types::Key;
use route_json::addresses::read_server;
use route_json::limits::{LIMIT_FIELDS, MAX_LIMIT};
use route_json::names::{Holder, Kind, is_field, kind_of, op_of, rest_after};
use route_tree::{DEPTH_LIMIT, POOL_LIMIT, SLOT_LIMIT};
use serde_json::{Map, Value};
use std::alloc::{AllocError, Global};
use std::collections::BTreeMap;

/// The greatest exptime of a route.
const MAX_EXPTIME: u64 = 2_147_483_647;

/// What a table of slots is.
const TABLE: &str = "a list of 1 to 2048 places in servers";

/// A walk: where it is, and which pools it met.
#[derive(Drop)]
pub struct Walk<'a> {
    pools: Option<&'a Map<String, Value>>,
    /// The way from the whole configuration to where it is.
    pub way: Vec<PathStep<'a>>,
    /// The pools that routes name.
    pub used: BTreeMap<&'a str, ()>,
    /// The name of the server that is trouble, as its epoch is over, if there is one.
    pub over: Option<&'a str>,
}

fn fail<'a>(trouble: Trouble<'a>) -> Result<(), Stop<'a>> {
    Err(Stop::Trouble(trouble))
}

// The first field of an object that one of its kind may not have.
fn foreign_field(holder: Holder, value: &Value) -> Option<&str> {
    let Value::Object(map) = value else {
        return None;
    };
    for (name, _) in map.iter() {
        if !is_field(holder, name.as_str()) {
            return Some(name.as_str());
        }
    }
    None
}

// The value of a field that has to be there.
fn field<'a>(holder: Holder, name: &'static str, value: &'a Value) -> Result<&'a Value, Stop<'a>> {
    match value.get(name) {
        Some(found) => Ok(found),
        None => Err(Stop::Trouble(Trouble::Missing(holder, name))),
    }
}

// Whether this may be a limit.
fn is_limit(value: &Value) -> bool {
    match value.as_u64() {
        Some(limit) => 0 < limit && limit <= MAX_LIMIT,
        None => false,
    }
}

// How many slots a server's text says.
fn slots_of(value: &Value) -> u32 {
    match value {
        Value::String(text) => match read_server(text.as_str()) {
            Some((_, weight)) => weight,
            None => 0,
        },
        _ => 0,
    }
}

fn has_too_many_slots(items: &[Value]) -> bool {
    let mut slots = 0u32;
    for item in items {
        slots = slots.saturating_add(slots_of(item));
    }
    slots > SLOT_LIMIT
}

fn has_weights(items: &[Value]) -> bool {
    items.iter().any(|item| slots_of(item) != 1)
}

// Whether a value is a place in a list of so many.
fn is_place(count: usize, value: &Value) -> bool {
    match value.as_u64() {
        Some(place) => place < count as u64,
        None => false,
    }
}

fn exptime(value: &Value) -> Result<(), Stop<'_>> {
    match value.as_u64() {
        Some(exptime) if exptime <= MAX_EXPTIME => Ok(()),
        _ => fail(Trouble::Wanted("a number in 0..=2147483647")),
    }
}

// A route without a field.
fn without<'a>(holder: Holder, name: &'static str, part: Part, below: u32) -> Result<(), Stop<'a>> {
    match part {
        Part::Exptime => Ok(()),
        Part::Rest if below > 0 => Ok(()),
        Part::Rest => fail(Trouble::TooDeep),
        _ => fail(Trouble::Missing(holder, name)),
    }
}

fn wanted_policies(part: Part) -> &'static str {
    match part {
        Part::Operations => "an object that has a route under each operation",
        _ => "an object that has a route under each prefix",
    }
}

// Whether a policy may have this name.
fn policy_name(part: Part, name: &str) -> Result<(), Stop<'_>> {
    match part {
        Part::Operations if op_of(name).is_none() => fail(Trouble::NoOperation(name)),
        Part::Prefixes if Key::read(name.as_bytes()).is_err() => fail(Trouble::NoPrefix(name)),
        _ => Ok(()),
    }
}

// The name of a pool in the short text of a route.
fn pool_of_short(text: &str) -> Option<&str> {
    if let Some(name) = rest_after("PoolRoute|", text) {
        return Some(name);
    }
    if let Some(name) = rest_after("AllSyncRoute|Pool|", text) {
        return Some(name);
    }
    if let Some(name) = rest_after("FailoverRoute|Pool|", text) {
        return Some(name);
    }
    rest_after("MissFailoverRoute|Pool|", text)
}

impl<'a> Walk<'a> {
    /// At the whole configuration.
    pub fn new(alloc: Global) -> Walk<'a> {
        Walk {
            pools: None,
            way: Vec::new(alloc),
            used: BTreeMap::new(alloc),
            over: None,
        }
    }

    /// The pools of the configuration, once the walk met them.
    pub fn pools(&self) -> Option<&'a Map<String, Value>> {
        self.pools
    }

    fn enter(&mut self, step: PathStep<'a>) -> Result<(), AllocError> {
        self.way.push(step)?;
        Ok(())
    }

    fn leave(&mut self) {
        let _ = self.way.pop();
    }

    // Of an object that has a field that one of its kind may not have, the way leads to that field.
    fn only(&mut self, holder: Holder, value: &'a Value) -> Result<(), Stop<'a>> {
        match foreign_field(holder, value) {
            Some(name) => {
                self.enter(PathStep::Name(name))?;
                fail(Trouble::NoField(holder, name))
            }
            None => Ok(()),
        }
    }

    /// Walks through a whole configuration. Where it stops at a trouble, `way` leads there.
    pub fn whole(&mut self, value: &'a Value) -> Result<(), Stop<'a>> {
        if !matches!(value, Value::Object(_)) {
            return fail(Trouble::Wanted("an object with pools and route"));
        }
        self.only(Holder::Config, value)?;
        let pools = field(Holder::Config, "pools", value)?;
        let root = field(Holder::Config, "route", value)?;
        self.pools_and_route(pools, root)
    }

    fn pools_and_route(&mut self, pools: &'a Value, root: &'a Value) -> Result<(), Stop<'a>> {
        self.enter(PathStep::Name("pools"))?;
        self.all_pools(pools)?;
        self.leave();
        self.enter(PathStep::Name("route"))?;
        self.route(root, DEPTH_LIMIT)?;
        self.leave();
        Ok(())
    }

    fn all_pools(&mut self, value: &'a Value) -> Result<(), Stop<'a>> {
        let Value::Object(map) = value else {
            return fail(Trouble::Wanted("an object that has a pool under each name"));
        };
        self.pools = Some(map);
        for (name, pool) in map.iter() {
            self.enter(PathStep::Name(name.as_str()))?;
            self.pool(name.as_str(), pool)?;
            self.leave();
        }
        Ok(())
    }

    fn pool(&mut self, name: &'a str, value: &'a Value) -> Result<(), Stop<'a>> {
        if !matches!(value, Value::Object(_)) {
            return fail(Trouble::Wanted("a pool: an object with servers"));
        }
        self.only(Holder::Pool, value)?;
        let servers = field(Holder::Pool, "servers", value)?;
        self.servers(name, servers)?;
        if let Some(slots) = value.get("slots") {
            self.table(servers, slots)?;
        }
        self.limits(value)
    }

    // The limits of a pool's own.
    fn limits(&mut self, pool: &'a Value) -> Result<(), Stop<'a>> {
        for name in LIMIT_FIELDS {
            if let Some(value) = pool.get(name) {
                self.limit(name, value)?;
            }
        }
        Ok(())
    }

    fn limit(&mut self, name: &'static str, value: &'a Value) -> Result<(), Stop<'a>> {
        self.enter(PathStep::Name(name))?;
        if !is_limit(value) {
            return fail(Trouble::Wanted("a number in 1..=4294967295"));
        }
        self.leave();
        Ok(())
    }

    // A table of slots beside a list of servers.
    fn table(&mut self, servers: &Value, value: &'a Value) -> Result<(), Stop<'a>> {
        self.enter(PathStep::Name("slots"))?;
        let (Value::Array(servers), Value::Array(items)) = (servers, value) else {
            return fail(Trouble::Wanted(TABLE));
        };
        if items.is_empty() || items.len() > SLOT_LIMIT as usize {
            return fail(Trouble::Wanted(TABLE));
        }
        if has_weights(servers) {
            return fail(Trouble::Wanted(
                "servers without weights: a table says how many slots each has",
            ));
        }
        self.slots(servers.len(), items)?;
        self.leave();
        Ok(())
    }

    // The slots of a table, each a place in a list of so many servers.
    fn slots(&mut self, servers: usize, items: &'a [Value]) -> Result<(), Stop<'a>> {
        for (number, item) in items.iter().enumerate() {
            self.enter(PathStep::Number(number))?;
            if !is_place(servers, item) {
                return fail(Trouble::NoPlace(servers));
            }
            self.leave();
        }
        Ok(())
    }

    fn servers(&mut self, name: &'a str, value: &'a Value) -> Result<(), Stop<'a>> {
        self.enter(PathStep::Name("servers"))?;
        let Value::Array(items) = value else {
            return fail(Trouble::Wanted("a list of addresses, HOST:PORT"));
        };
        if items.is_empty() {
            return fail(Trouble::EmptyPool(name));
        }
        if items.len() > POOL_LIMIT as usize {
            return fail(Trouble::TooManyServers(name, items.len()));
        }
        self.each_server(items)?;
        if has_too_many_slots(items) {
            return fail(Trouble::TooManySlots(name));
        }
        self.leave();
        Ok(())
    }

    fn each_server(&mut self, items: &'a [Value]) -> Result<(), Stop<'a>> {
        for (number, item) in items.iter().enumerate() {
            self.enter(PathStep::Number(number))?;
            self.server(item)?;
            self.leave();
        }
        Ok(())
    }

    fn is_over(&self, name: &str) -> bool {
        match self.over {
            Some(over) => over == name,
            None => false,
        }
    }

    fn server(&mut self, value: &'a Value) -> Result<(), Stop<'a>> {
        let Value::String(text) = value else {
            return fail(Trouble::Wanted("the text of an address, HOST:PORT"));
        };
        match read_server(text.as_str()) {
            Some((name, _)) if self.is_over(name) => fail(Trouble::Over(name)),
            Some(_) => Ok(()),
            None => fail(Trouble::NoServer(text.as_str())),
        }
    }

    // A pool that a route names.
    fn named_pool(&mut self, name: &'a str) -> Result<(), Stop<'a>> {
        let is_known = match self.pools {
            Some(map) => map.contains_key(name),
            None => false,
        };
        if !is_known {
            return fail(Trouble::NoPool(name));
        }
        self.used.insert(name, ()).map_err(AllocError::from)?;
        Ok(())
    }

    // A pool whose servers each are a child, below which so many levels may stand.
    fn pool_of_children(&mut self, name: &'a str, below: u32) -> Result<(), Stop<'a>> {
        self.named_pool(name)?;
        if below == 0 {
            return fail(Trouble::TooDeep);
        }
        Ok(())
    }

    // A route, which may have so many levels, itself counted.
    #[cycle(walk)]
    fn route(&mut self, value: &'a Value, levels: u32) -> Result<(), Stop<'a>> {
        if levels == 0 {
            return fail(Trouble::TooDeep);
        }
        match value {
            Value::String(text) => self.short(text.as_str(), levels - 1),
            Value::Object(_) => self.typed(value, levels - 1),
            _ => fail(Trouble::Wanted("a route: a text or an object with a type")),
        }
    }

    fn short(&mut self, text: &'a str, below: u32) -> Result<(), Stop<'a>> {
        if text == "NullRoute" || text == "ErrorRoute" {
            return Ok(());
        }
        match pool_of_short(text) {
            None => fail(Trouble::NoShort(text)),
            Some(name) if text.starts_with("PoolRoute|") => self.named_pool(name),
            Some(name) => self.pool_of_children(name, below),
        }
    }

    #[cycle(walk)]
    fn typed(&mut self, value: &'a Value, below: u32) -> Result<(), Stop<'a>> {
        let kind = self.kind(value)?;
        let holder = Holder::Route(kind);
        self.only(holder, value)?;
        for name in fields_of(holder) {
            self.part(holder, name, value, below)?;
        }
        Ok(())
    }

    // The kind of an object that is a route.
    fn kind(&mut self, value: &'a Value) -> Result<Kind, Stop<'a>> {
        let Some(found) = value.get("type") else {
            return Err(Stop::Trouble(Trouble::Wanted(
                "a route, and an object that is one has a type",
            )));
        };
        self.enter(PathStep::Name("type"))?;
        let Value::String(name) = found else {
            return Err(Stop::Trouble(Trouble::Wanted("the name of a route, a text")));
        };
        let Some(kind) = kind_of(name.as_str()) else {
            return Err(Stop::Trouble(Trouble::NoType(name.as_str())));
        };
        self.leave();
        Ok(kind)
    }

    // What stands under a field of a route, which may have so many levels below it.
    #[cycle(walk)]
    fn part(
        &mut self,
        holder: Holder,
        name: &'static str,
        value: &'a Value,
        below: u32,
    ) -> Result<(), Stop<'a>> {
        let part = part_of(name);
        let Some(found) = value.get(name) else {
            return without(holder, name, part, below);
        };
        self.enter(PathStep::Name(name))?;
        self.found(part, found, below)?;
        self.leave();
        Ok(())
    }

    // What was found under a field of a route.
    #[cycle(walk)]
    fn found(&mut self, part: Part, value: &'a Value, below: u32) -> Result<(), Stop<'a>> {
        match part {
            Part::Kind => Ok(()),
            Part::Pool => self.pool_name(value),
            Part::Children => self.children_of(value, below),
            Part::Route | Part::Rest => self.route(value, below),
            Part::Exptime => exptime(value),
            Part::Operations | Part::Prefixes => self.policies(part, value, below),
        }
    }

    fn pool_name(&mut self, value: &'a Value) -> Result<(), Stop<'a>> {
        let Value::String(name) = value else {
            return fail(Trouble::Wanted("the name of a pool"));
        };
        self.named_pool(name.as_str())
    }

    #[cycle(walk)]
    fn children_of(&mut self, value: &'a Value, below: u32) -> Result<(), Stop<'a>> {
        match value {
            Value::Array(items) => self.children(items, below),
            Value::String(text) => self.children_text(text.as_str(), below),
            _ => fail(Trouble::Wanted("a list of routes, or the text \"Pool|NAME\"")),
        }
    }

    fn children_text(&mut self, text: &'a str, below: u32) -> Result<(), Stop<'a>> {
        match rest_after("Pool|", text) {
            Some(name) => self.pool_of_children(name, below),
            None => fail(Trouble::Wanted("a list of routes, or the text \"Pool|NAME\"")),
        }
    }

    #[cycle(walk)]
    fn children(&mut self, items: &'a [Value], below: u32) -> Result<(), Stop<'a>> {
        if items.is_empty() {
            return fail(Trouble::NoChildren);
        }
        for (number, item) in items.iter().enumerate() {
            self.enter(PathStep::Number(number))?;
            self.route(item, below)?;
            self.leave();
        }
        Ok(())
    }

    // Routes by operation or by prefix.
    #[cycle(walk)]
    fn policies(&mut self, part: Part, value: &'a Value, below: u32) -> Result<(), Stop<'a>> {
        let Value::Object(map) = value else {
            return fail(Trouble::Wanted(wanted_policies(part)));
        };
        for (name, child) in map.iter() {
            self.enter(PathStep::Name(name.as_str()))?;
            policy_name(part, name.as_str())?;
            self.route(child, below)?;
            self.leave();
        }
        Ok(())
    }
}
