//! Configurations between two others.

use crate::renaming::{LEVELS, push_pools, push_renamed};
use serde_json::Value;
use std::alloc::{AllocError, Global};

/// Which of two configurations answers all commands but deletes.
#[derive(Clone, Copy)]
pub enum Answering {
    Old,
    New,
}

// Appends the route of a configuration, with this before the names of its pools.
fn push_route(
    alloc: Global,
    config: &Value,
    front: &str,
    out: &mut String,
) -> Result<(), AllocError> {
    match config.get("route") {
        Some(route) => push_renamed(alloc, route, front, LEVELS, out),
        None => out.push_str("null"),
    }
}

// Appends the pools of both.
fn push_both_pools(
    alloc: Global,
    old: &Value,
    new: &Value,
    out: &mut String,
) -> Result<(), AllocError> {
    let empty = Value::Null;
    push_pools(
        alloc,
        old.get("pools").unwrap_or(&empty),
        "old ",
        false,
        out,
    )?;
    push_pools(alloc, new.get("pools").unwrap_or(&empty), "new ", true, out)
}

// Appends the route of the one that answers.
fn push_answering(
    alloc: Global,
    old: &Value,
    new: &Value,
    answering: Answering,
    out: &mut String,
) -> Result<(), AllocError> {
    match answering {
        Answering::Old => push_route(alloc, old, "old ", out),
        Answering::New => push_route(alloc, new, "new ", out),
    }
}

// Appends the routes of both, with a comma between them.
fn push_both_routes(
    alloc: Global,
    old: &Value,
    new: &Value,
    out: &mut String,
) -> Result<(), AllocError> {
    push_route(alloc, old, "old ", out)?;
    out.push_str(",")?;
    push_route(alloc, new, "new ", out)
}

// Appends the route by which the one answers, with deletes to both.
fn push_merged(
    alloc: Global,
    old: &Value,
    new: &Value,
    answering: Answering,
    out: &mut String,
) -> Result<(), AllocError> {
    out.push_str("{\"type\":\"OperationSelectorRoute\",\"default_policy\":")?;
    push_answering(alloc, old, new, answering, out)?;
    out.push_str(",\"operation_policies\":{\"delete\":{\"type\":\"AllSyncRoute\",\"children\":[")?;
    push_both_routes(alloc, old, new, out)?;
    out.push_str("]}}}")
}

/// The JSON of a configuration by which the one answers, with deletes to both: the pools of the old one have `old ` before their names,
/// those of the new one `new `. The only error is that memory was refused.
pub fn with_deletes_to_both(
    alloc: Global,
    old: &Value,
    new: &Value,
    answering: Answering,
) -> Result<String, AllocError> {
    let mut out = String::from_str(alloc, "{\"pools\":{")?;
    push_both_pools(alloc, old, new, &mut out)?;
    out.push_str("},\"route\":")?;
    push_merged(alloc, old, new, answering, &mut out)?;
    out.push_str("}")?;
    Ok(out)
}
