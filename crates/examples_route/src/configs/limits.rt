//! Limits that pools say of a server.

use examples_tables::tellers::{Teller, all_told, between, halves, push_number, push_word};
use route_json::limits::{ServerLimits, limits_of};
use serde_json::Value;
use std::alloc::{AllocError, Global};
use std::test::Fail;

// A server and the pools of a configuration, and what these say of it: call_ms, connect_ms, fail_limit, retry_ms.
fn texts() -> &'static str {
    r#"a:1 {"A":{"servers":["a:1"]}} => - - - -
a:1 {"A":{"servers":["a:1"],"call_ms":50,"connect_ms":60,"fail_limit":7,"retry_ms":4294967295}} => 50 60 7 4294967295
b:1 {"A":{"servers":["a:1"],"call_ms":50}} => - - - -
a:1 {} => - - - -
# Of several pools that say one the least.
a:1 {"A":{"servers":["a:1"],"call_ms":50,"retry_ms":9},"B":{"servers":["b:1","a:1"],"call_ms":40,"fail_limit":2}} => 40 - 2 9
b:1 {"A":{"servers":["a:1"],"call_ms":30,"retry_ms":9},"B":{"servers":["b:1","a:1"],"call_ms":40,"fail_limit":2}} => 40 - 2 -
a:1 {"A":{"servers":["a:1"],"call_ms":40},"B":{"servers":["a:1"],"call_ms":50},"C":{"servers":["a:1"]}} => 40 - - -
# A weight is no part of a server, and an epoch is.
a:1 {"A":{"servers":["a:1:16"],"connect_ms":5}} => - 5 - -
a:1 {"A":{"servers":["a:1#2"],"connect_ms":5}} => - - - -
a:1#2 {"A":{"servers":["a:1#2"],"connect_ms":5}} => - 5 - -
# No configuration.
a:1 {"A":{"servers":["a:1"],"call_ms":0,"fail_limit":4294967296,"retry_ms":"1"}} => - - - -
a:1 {"A":{"servers":"a:1","call_ms":5}} => - - - -
a:1 {"A":["a:1"]} => - - - -
a:1 5 => - - - -"#
}

// Appends a limit as a word.
fn push_limit(out: &mut String, limit: Option<u32>) -> Result<(), AllocError> {
    match limit {
        Some(limit) => push_number(out, limit),
        None => push_word(out, "-"),
    }
}

fn shown(alloc: Global, limits: ServerLimits) -> Result<String, AllocError> {
    let mut out = String::new(alloc);
    push_limit(&mut out, limits.call_ms)?;
    push_limit(&mut out, limits.connect_ms)?;
    push_limit(&mut out, limits.fail_limit)?;
    push_limit(&mut out, limits.retry_ms)?;
    Ok(out)
}

fn told_of(alloc: Global, text: &str, server: &str) -> Result<String, AllocError> {
    match Value::from_str(alloc, text) {
        Ok(value) => shown(alloc, limits_of(&value, server.as_bytes())),
        Err(error) => error.to_string(alloc),
    }
}

struct OfLimits;

impl Teller for OfLimits {
    fn told(alloc: Global, example: &str) -> Result<String, AllocError> {
        let (server, pools) = halves(example, " ");
        let text = between(alloc, r#"{"pools":"#, pools, "}")?;
        told_of(alloc, text.as_str(), server)
    }
}

#[test]
fn limits_of_servers(rt: HostRuntime) -> Result<(), Fail> {
    all_told::<OfLimits>(rt.alloc(), texts())
}
