//! The configurations of examples, by the names by which these call them.

use crate::tables::configuration;
use std::alloc::{AllocError, Global};

fn one_server() -> &'static str {
    r#"{"pools":{"A":{"servers":["127.0.0.1:5001"]}},"route":"PoolRoute|A"}"#
}

fn two_servers() -> &'static str {
    r#"{"pools":{"A":{"servers":["127.0.0.1:5001","127.0.0.1:5002"]}},"route":"PoolRoute|A"}"#
}

// Gets fail over from A to B.
fn leak() -> &'static str {
    r#"{"type":"FailoverRoute","children":["PoolRoute|A","PoolRoute|B"]}"#
}

// Gets fail over from A to B, and deletes go to both.
fn failover() -> &'static str {
    r#"{"type":"OperationSelectorRoute","default_policy":{"type":"FailoverRoute","children":["PoolRoute|A","PoolRoute|B"]},"operation_policies":{"delete":{"type":"AllSyncRoute","children":["PoolRoute|A","PoolRoute|B"]}}}"#
}

// A is filled from B, and deletes go to both.
fn warm_up() -> &'static str {
    r#"{"type":"OperationSelectorRoute","default_policy":{"type":"WarmUpRoute","cold":"PoolRoute|A","warm":"PoolRoute|B","exptime":0},"operation_policies":{"delete":{"type":"AllSyncRoute","children":["PoolRoute|A","PoolRoute|B"]}}}"#
}

// A with deletes that go to both.
fn cleared() -> &'static str {
    r#"{"type":"OperationSelectorRoute","default_policy":"PoolRoute|A","operation_policies":{"delete":{"type":"AllSyncRoute","children":["PoolRoute|A","PoolRoute|B"]}}}"#
}

// The names, and the routes over both pools.
fn routes() -> [(&'static str, &'static str); 6] {
    [
        ("<A>", r#""PoolRoute|A""#),
        ("<B>", r#""PoolRoute|B""#),
        ("<leak>", leak()),
        ("<failover>", failover()),
        ("<warm-up>", warm_up()),
        ("<A, both cleared>", cleared()),
    ]
}

fn with_route(alloc: Global, text: &str, name: &str, route: &str) -> Result<String, AllocError> {
    let config = configuration(alloc, route)?;
    text.replace(alloc, name, config.as_str())
}

/// A text with the configurations that it names.
pub fn with_configs(alloc: Global, text: &str) -> Result<String, AllocError> {
    let text = text.replace(alloc, "<one server>", one_server())?;
    let mut text = text
        .as_str()
        .replace(alloc, "<two servers>", two_servers())?;
    for (name, route) in routes() {
        text = with_route(alloc, text.as_str(), name, route)?;
    }
    Ok(text)
}
