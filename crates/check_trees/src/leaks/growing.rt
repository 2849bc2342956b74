//! Configurations, made from a seed.

use crate::picking::pick;
use std::alloc::{AllocError, Global};

fn leaf(seed: &mut u32) -> &'static str {
    match pick(seed, 9) {
        0 => "\"NullRoute\"",
        1 => "\"ErrorRoute\"",
        2 | 3 | 4 => "\"PoolRoute|A\"",
        5 | 6 => "\"PoolRoute|B\"",
        _ => "\"PoolRoute|C\"",
    }
}

// One of the forms over the two.
fn over(alloc: Global, seed: &mut u32, first: &str, second: &str) -> Result<String, AllocError> {
    match pick(seed, 8) {
        0 => { format!(in alloc; "{{\"type\":\"AllSyncRoute\",\"children\":[{first},{second}]}}") }
        1 | 2 => {
            format!(in alloc; "{{\"type\":\"FailoverRoute\",\"children\":[{first},{second}]}}")
        }
        3 => {
            format!(in alloc; "{{\"type\":\"MissFailoverRoute\",\"children\":[{first},{second}]}}")
        }
        4 => {
            format!(in alloc;
                "{{\"type\":\"WarmUpRoute\",\"cold\":{first},\"warm\":{second},\"exptime\":0}}"
            )
        }
        5 => {
            format!(in alloc;
                "{{\"type\":\"PrefixSelectorRoute\",\"policies\":{{\"a\":{first}}},\"wildcard\":{second}}}"
            )
        }
        6 => {
            format!(in alloc;
                "{{\"type\":\"OperationSelectorRoute\",\"default_policy\":{first},\"operation_policies\":{{\"delete\":{second}}}}}"
            )
        }
        _ => {
            format!(in alloc;
                "{{\"type\":\"OperationSelectorRoute\",\"default_policy\":{first},\"operation_policies\":{{\"incr\":{second}}}}}"
            )
        }
    }
}

fn small(alloc: Global, seed: &mut u32) -> Result<String, AllocError> {
    let first = leaf(seed);
    let second = leaf(seed);
    over(alloc, seed, first, second)
}

fn larger(alloc: Global, seed: &mut u32) -> Result<String, AllocError> {
    let first = small(alloc, seed)?;
    let second = small(alloc, seed)?;
    over(alloc, seed, first.as_str(), second.as_str())
}

fn route(alloc: Global, seed: &mut u32) -> Result<String, AllocError> {
    match pick(seed, 3) {
        0 => small(alloc, seed),
        1 => larger(alloc, seed),
        _ => {
            let first = larger(alloc, seed)?;
            let second = small(alloc, seed)?;
            over(alloc, seed, first.as_str(), second.as_str())
        }
    }
}

/// A configuration of at most six leaves, over three pools of two, one and three servers. The only error is that memory was
/// refused.
pub fn grown(alloc: Global, seed: &mut u32) -> Result<String, AllocError> {
    let route = route(alloc, seed)?;
    format!(in alloc;
        "{{\"pools\":{{\"A\":{{\"servers\":[\"a:1\",\"a:2\"]}},\"B\":{{\"servers\":[\"b:1\"]}},\"C\":{{\"servers\":[\"a:1\",\"b:1\",\"c:1\"]}}}},\"route\":{route}}}"
    )
}
