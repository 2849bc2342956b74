//! Limits of a pool's own: how long is waited for its servers, and after how many failures they are left alone for how long.

ghost use Rattle.std.specs.Prelude.{◌≡◌, Err, MatchOption, Ok, true};
ghost use Rattle.std.specs.List.{list_any};
ghost use Rattle.serde_json.specs.Find.{get};
ghost use Rattle.serde_json.specs.View.{view, items_view, members_view};
ghost use Rattle.route_json.specs.Fault.{BadField, GivesReading};
ghost use Rattle.route_json.specs.Limits.{is_limit, least_limits, lesser_limit, limit_in, limit_of, limits_in, limits_or, limits_said, limits_said_by, lists, names, no_limits, pools_said};
ghost use Rattle.route_json.specs.Names.{limit_fields};
ghost use Rattle.route_json.specs.Reading.{members, values};

use crate::addresses::read_server;
use crate::fault::ConfigFault;
use serde_json::{Map, Value};
use std::alloc::Global;

/// The greatest limit, in milliseconds or failures.
pub const MAX_LIMIT: u64 = 4_294_967_295;

/// The fields of a pool that are limits.
pub const LIMIT_FIELDS: [&str; 4] = ["call_ms", "connect_ms", "fail_limit", "retry_ms"];

/// The limits that the pools of a server say; what none says is as for all servers.
#[derive(Clone, Copy, PartialEq, Eq)]
pub struct ServerLimits {
    /// How many milliseconds a call may take.
    pub call_ms: Option<u32>,
    /// How many milliseconds a connection may take to stand.
    pub connect_ms: Option<u32>,
    /// After how many failures in a row its calls fail at once.
    pub fail_limit: Option<u32>,
    /// For how many milliseconds they do, before one call tries it.
    pub retry_ms: Option<u32>,
}

impl ServerLimits {
    /// No limit is said.
    pub fn none() -> ServerLimits
        ensures { result ≡ no_limits }
    {
        ServerLimits {
            call_ms: None,
            connect_ms: None,
            fail_limit: None,
            retry_ms: None,
        }
    }

    // Whether none is said.
    fn is_none(&self) -> bool
        ensures { result ≡ true → self.now ≡ no_limits }
    {
        self.call_ms.is_none()
            && self.connect_ms.is_none()
            && self.fail_limit.is_none()
            && self.retry_ms.is_none()
    }

    // Of each limit the lesser.
    fn least(self, other: ServerLimits) -> ServerLimits
        ensures { result ≡ least_limits self other }
    {
        ServerLimits {
            call_ms: lesser(self.call_ms, other.call_ms),
            connect_ms: lesser(self.connect_ms, other.connect_ms),
            fail_limit: lesser(self.fail_limit, other.fail_limit),
            retry_ms: lesser(self.retry_ms, other.retry_ms),
        }
    }
}

// The lesser of two limits, of which each may be none.
fn lesser(a: Option<u32>, b: Option<u32>) -> Option<u32>
    ensures { result ≡ lesser_limit a b }
{
    match (a, b) {
        (None, b) => b,
        (Some(a), None) => Some(a),
        (Some(a), Some(b)) => Some(if a <= b { a } else { b }),
    }
}

// The limit that a value is, if it is one.
fn limit_of(value: &Value) -> Option<u32>
    ensures { result ≡ limit_of (view value.now) }
{
    match value.as_u64() {
        Some(limit) if 0 < limit && limit <= MAX_LIMIT => Some(limit as u32),
        _ => None,
    }
}

// The limit in a field, if there is one.
fn limit_in(value: &Value, name: &str) -> Option<u32>
    ensures { result ≡ limit_in (get name.now (view value.now)) }
{
    match value.get(name) {
        Some(found) => limit_of(found),
        None => None,
    }
}

// Whether a field is left out, or has a limit.
fn is_limit(value: &Value, name: &str) -> bool
    ensures { result ≡ is_limit (get name.now (view value.now)) }
{
    match value.get(name) {
        Some(found) => limit_of(found).is_some(),
        None => true,
    }
}

// The first field of a pool's object that is to have a limit, and has something else.
fn bad_limit(value: &Value) -> Option<&'static str>
    ensures { MatchOption result (limits_or limit_fields (view value.now) ≡ Ok tt) (λ name. limits_or limit_fields (view value.now) ≡ Err (BadField name.now)) }
{
    if !is_limit(value, "call_ms") {
        Some("call_ms")
    } else if !is_limit(value, "connect_ms") {
        Some("connect_ms")
    } else if !is_limit(value, "fail_limit") {
        Some("fail_limit")
    } else if !is_limit(value, "retry_ms") {
        Some("retry_ms")
    } else {
        None
    }
}

/// Each limit of a pool's object is left out or in 1..=[`MAX_LIMIT`]; `BadField` names the first that isn't.
pub fn check_limits(alloc: Global, value: &Value) -> Result<(), ConfigFault>
    ensures { GivesReading (λ u. u) result (limits_or limit_fields (view value.now)) }
{
    match bad_limit(value) {
        None => Ok(()),
        Some(name) => Err(ConfigFault::BadField(String::from_str(alloc, name)?)),
    }
}

// What a pool's object says.
fn limits_in(value: &Value) -> ServerLimits
    ensures { result ≡ limits_in (view value.now) }
{
    ServerLimits {
        call_ms: limit_in(value, "call_ms"),
        connect_ms: limit_in(value, "connect_ms"),
        fail_limit: limit_in(value, "fail_limit"),
        retry_ms: limit_in(value, "retry_ms"),
    }
}

// Whether a value of a pool's list names this server.
fn names(server: &[u8], value: &Value) -> bool
    ensures { result ≡ names server.now (view value.now) }
{
    match value {
        Value::String(text) => match read_server(text.as_str()) {
            Some((name, _)) => name.as_bytes() == server,
            None => false,
        },
        _ => false,
    }
}

fn any_names(server: &[u8], items: &[Value]) -> bool
    ensures { result ≡ list_any (names server.now) (values (items_view items.now)) }
{
    for item in items {
        if names(server, item) {
            return true;
        }
    }
    false
}

// Whether a pool's object lists this server.
fn lists(server: &[u8], value: &Value) -> bool
    ensures { result ≡ lists server.now (view value.now) }
{
    match value.get("servers") {
        Some(Value::Array(items)) => any_names(server, items.as_slice()),
        _ => false,
    }
}

// What a pool's object says of this server.
fn said_by(server: &[u8], value: &Value) -> ServerLimits
    ensures { result ≡ limits_said_by server.now (view value.now) }
{
    let said = limits_in(value);
    if said.is_none() || lists(server, value) {
        said
    } else {
        ServerLimits::none()
    }
}

// What these pools say of this server.
fn said_of(server: &[u8], pools: &Map<String, Value>) -> ServerLimits
    ensures { result ≡ limits_said (members (members_view pools.now.entries)) server.now }
{
    let mut said = ServerLimits::none();
    for (_, pool) in pools.iter() {
        said = said.least(said_by(server, pool));
    }
    said
}

/// The limits that the pools of a configuration say of the server of this name: of several that list it and say one, the least. Of what is no configuration
/// no limits are said.
///
/// Source: mcgate's own.
pub fn limits_of(value: &Value, server: &[u8]) -> ServerLimits
    ensures { result ≡ limits_said (pools_said (view value.now)) server.now }
{
    match value.get("pools") {
        Some(Value::Object(pools)) => said_of(server, pools),
        _ => ServerLimits::none(),
    }
}
