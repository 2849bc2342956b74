//! Fields of JSON objects.

ghost use Rattle.std.specs.Prelude.{codes};
ghost use Rattle.serde_json.specs.Find.{get};
ghost use Rattle.serde_json.specs.View.{view, items_view, members_view};
ghost use Rattle.route_json.specs.Fault.{GivesReading};
ghost use Rattle.route_json.specs.Fields.{only_members, only, value_or, text_or, list_or, object_or, exptime_or};
ghost use Rattle.route_json.specs.Reading.{members};

use crate::fault::ConfigFault;
use crate::names::{Holder, is_field};
use serde_json::{Map, Value};
use std::alloc::Global;

/// The greatest exptime of a route, as memcached's clients write it in 31 bits.
pub const MAX_EXPTIME: u64 = 2_147_483_647;

/// Each member of an object is a field of its kind; `BadField` names the first that isn't.
pub fn only(alloc: Global, holder: Holder, value: &Value) -> Result<(), ConfigFault>
    ensures { GivesReading (λ u. u) result (only holder (view value.now)) }
{
    match value {
        Value::Object(map) => only_members(alloc, holder, map),
        _ => Ok(()),
    }
}

fn only_members(alloc: Global, holder: Holder, map: &Map<String, Value>) -> Result<(), ConfigFault>
    ensures { GivesReading (λ u. u) result (only_members holder (members (members_view map.now.entries))) }
{
    for (name, _) in map.iter() {
        let text = name.as_str();
        if !is_field(holder, text) {
            return Err(ConfigFault::BadField(String::from_str(alloc, text)?));
        }
    }
    Ok(())
}

/// The value in a field that has to be there; `BadField` where it isn't.
pub fn value_field<'a>(
    alloc: Global,
    name: &str,
    value: &'a Value,
) -> Result<&'a Value, ConfigFault>
    ensures { GivesReading (λ v. view v.now) result (value_or name.now (get name.now (view value.now))) }
{
    match value.get(name) {
        Some(found) => Ok(found),
        None => Err(ConfigFault::BadField(String::from_str(alloc, name)?)),
    }
}

/// The text in a field; `BadField` where there is none.
pub fn text_field<'a>(alloc: Global, name: &str, value: &'a Value) -> Result<&'a str, ConfigFault>
    ensures { GivesReading (λ text. text.now) result (text_or name.now (get name.now (view value.now))) }
{
    match value.get(name) {
        Some(Value::String(text)) => Ok(text.as_str()),
        _ => Err(ConfigFault::BadField(String::from_str(alloc, name)?)),
    }
}

/// The list in a field; `BadField` where there is none.
pub fn list_field<'a>(
    alloc: Global,
    name: &str,
    value: &'a Value,
) -> Result<&'a [Value], ConfigFault>
    ensures { GivesReading (λ list. items_view list.now) result (list_or name.now (get name.now (view value.now))) }
{
    match value.get(name) {
        Some(Value::Array(items)) => Ok(items.as_slice()),
        _ => Err(ConfigFault::BadField(String::from_str(alloc, name)?)),
    }
}

/// The object in a field; `BadField` where there is none.
pub fn object_field<'a>(
    alloc: Global,
    name: &str,
    value: &'a Value,
) -> Result<&'a Map<String, Value>, ConfigFault>
    ensures { GivesReading (λ map. members_view map.now.entries) result (object_or name.now (get name.now (view value.now))) }
{
    match value.get(name) {
        Some(Value::Object(map)) => Ok(map),
        _ => Err(ConfigFault::BadField(String::from_str(alloc, name)?)),
    }
}

/// An exptime in 0..=[`MAX_EXPTIME`], in its field; 0 where it is left out, and `BadField` for any other value.
pub fn exptime_field(alloc: Global, value: &Value) -> Result<u32, ConfigFault>
    ensures { GivesReading (λ n. n) result (exptime_or (get (codes "exptime") (view value.now))) }
{
    match value.get("exptime") {
        None => Ok(0),
        Some(found) => match found.as_u64() {
            Some(exptime) if exptime <= MAX_EXPTIME => Ok(exptime as u32),
            _ => Err(ConfigFault::BadField(String::from_str(alloc, "exptime")?)),
        },
    }
}
