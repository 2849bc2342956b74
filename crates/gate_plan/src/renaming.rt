//! JSON of configurations whose pools have other names.

use route_json::names::rest_after;
use serde_json::{Map, Value};
use std::alloc::{AllocError, Global};

/// More levels than a JSON text has that was read.
pub const LEVELS: u32 = 200;

// Appends a comma, if there was something before.
fn push_comma(later: bool, out: &mut String) -> Result<(), AllocError> {
    if later { out.push_str(",") } else { Ok(()) }
}

// Appends the text as JSON.
fn push_quoted(alloc: Global, text: &str, out: &mut String) -> Result<(), AllocError> {
    let value = Value::String(String::from_str(alloc, text)?);
    let quoted = value.to_string(alloc)?;
    out.push_str(quoted.as_str())
}

// Appends the text with these before it, as JSON.
fn push_led(
    alloc: Global,
    lead: &str,
    front: &str,
    name: &str,
    out: &mut String,
) -> Result<(), AllocError> {
    let mut text = String::from_str(alloc, lead)?;
    text.push_str(front)?;
    text.push_str(name)?;
    push_quoted(alloc, text.as_str(), out)
}

// What stands before the name of a pool in a text that names one.
const LEADS: [&str; 5] = [
    "PoolRoute|",
    "AllSyncRoute|Pool|",
    "FailoverRoute|Pool|",
    "MissFailoverRoute|Pool|",
    "Pool|",
];

// What stands before the name of a pool in this text; nothing where it names none.
fn lead_of(text: &str) -> &'static str {
    for lead in LEADS {
        if rest_after(lead, text).is_some() {
            return lead;
        }
    }
    ""
}

// Appends a text of a route, with this before the name of its pool, as JSON.
fn push_text(alloc: Global, text: &str, front: &str, out: &mut String) -> Result<(), AllocError> {
    let lead = lead_of(text);
    if lead.is_empty() {
        return push_quoted(alloc, text, out);
    }
    push_led(
        alloc,
        lead,
        front,
        rest_after(lead, text).unwrap_or(""),
        out,
    )
}

// Appends what stands in a field of this name.
#[cycle(renamed)]
fn push_field(
    alloc: Global,
    name: &str,
    value: &Value,
    front: &str,
    levels: u32,
    out: &mut String,
) -> Result<(), AllocError> {
    match value {
        Value::String(text) if name == "pool" => push_led(alloc, "", front, text.as_str(), out),
        _ => push_renamed(alloc, value, front, levels, out),
    }
}

#[cycle(renamed)]
fn push_members(
    alloc: Global,
    map: &Map<String, Value>,
    front: &str,
    levels: u32,
    out: &mut String,
) -> Result<(), AllocError> {
    out.push_str("{")?;
    let mut later = false;
    for (name, value) in map.iter() {
        push_comma(later, out)?;
        push_quoted(alloc, name.as_str(), out)?;
        out.push_str(":")?;
        push_field(alloc, name.as_str(), value, front, levels, out)?;
        later = true;
    }
    out.push_str("}")
}

#[cycle(renamed)]
fn push_items(
    alloc: Global,
    items: &[Value],
    front: &str,
    levels: u32,
    out: &mut String,
) -> Result<(), AllocError> {
    out.push_str("[")?;
    let mut later = false;
    for value in items {
        push_comma(later, out)?;
        push_renamed(alloc, value, front, levels, out)?;
        later = true;
    }
    out.push_str("]")
}

/// Appends the JSON of a route in which the names of pools have this before them. It goes down so many levels.
#[cycle(renamed)]
pub fn push_renamed(
    alloc: Global,
    value: &Value,
    front: &str,
    levels: u32,
    out: &mut String,
) -> Result<(), AllocError> {
    if levels == 0 {
        return out.push_str("null");
    }
    match value {
        Value::String(text) => push_text(alloc, text.as_str(), front, out),
        Value::Array(items) => push_items(alloc, items.as_slice(), front, levels - 1, out),
        Value::Object(map) => push_members(alloc, map, front, levels - 1, out),
        _ => push_plain(alloc, value, out),
    }
}

// Appends the JSON of a value as it is.
fn push_plain(alloc: Global, value: &Value, out: &mut String) -> Result<(), AllocError> {
    let text = value.to_string(alloc)?;
    out.push_str(text.as_str())
}

/// Appends the members of an object of pools, this before the name of each; after a comma, if there is one already.
pub fn push_pools(
    alloc: Global,
    pools: &Value,
    front: &str,
    comma: bool,
    out: &mut String,
) -> Result<(), AllocError> {
    let Value::Object(map) = pools else {
        return Ok(());
    };
    let mut later = comma;
    for (name, value) in map.iter() {
        push_comma(later, out)?;
        later = true;
        push_led(alloc, "", front, name.as_str(), out)?;
        out.push_str(":")?;
        push_plain(alloc, value, out)?;
    }
    Ok(())
}
