//! The printed verdicts on a configuration that is to follow the one in use by a proxy of a fleet:
//! each line of what is given is a whole configuration or a route over the pools A and B.

use examples_tables::playing::first_line;
use examples_tables::tables::{Printer, all_hold, configuration, told};
use mcgate_ends::fleets::members::may_follow;
use route_json::{Config, read_config, read_config_after};
use std::alloc::{AllocError, Global};
use std::test::Fail;

// Verdicts on a configuration that is to follow the one in use: 0 if it may.
fn following() -> &'static str {
    r#"== deletes_go_to_one_more_pool
"PoolRoute|A"
{"type":"OperationSelectorRoute","default_policy":"PoolRoute|A","operation_policies":{"delete":{"type":"AllSyncRoute","children":["PoolRoute|A","PoolRoute|B"]}}}
-- 0
== reads_what_the_one_in_use_leaves
"PoolRoute|A"
{"type":"OperationSelectorRoute","default_policy":"PoolRoute|B","operation_policies":{"delete":{"type":"AllSyncRoute","children":["PoolRoute|A","PoolRoute|B"]}}}
-- 1
reload refused: reads=NEW deletes=IN-USE server=127.0.0.1:5002 read=get delete=delete prefix= residue=0/1
== leaves_what_the_one_in_use_reads
{"type":"OperationSelectorRoute","default_policy":"PoolRoute|B","operation_policies":{"delete":{"type":"AllSyncRoute","children":["PoolRoute|A","PoolRoute|B"]}}}
"PoolRoute|A"
-- 1
reload refused: reads=IN-USE deletes=NEW server=127.0.0.1:5002 read=get delete=delete prefix= residue=0/1
== copies
{"type":"OperationSelectorRoute","default_policy":"PoolRoute|A","operation_policies":{"delete":{"type":"AllSyncRoute","children":["PoolRoute|A","PoolRoute|B"]}}}
{"type":"OperationSelectorRoute","default_policy":{"type":"WarmUpRoute","cold":"PoolRoute|A","warm":"PoolRoute|B","exptime":0},"operation_policies":{"delete":{"type":"AllSyncRoute","children":["PoolRoute|A","PoolRoute|B"]}}}
-- 1
reload refused: a read copies, route=/route/default_policy prefix= file=NEW
== new_server
{"pools":{"A":{"servers":["h:1"]}},"route":"PoolRoute|A"}
{"pools":{"A":{"servers":["h:1"]},"B":{"servers":["h:2"]}},"route":{"type":"OperationSelectorRoute","default_policy":"PoolRoute|A","operation_policies":{"delete":{"type":"AllSyncRoute","children":["PoolRoute|A","PoolRoute|B"]}}}}
-- 0
== too_many_places_together
{"pools":{"A":{"servers":["a:1:16","b:1:16","c:1:16","d:1:16"]},"B":{"servers":["a:1:16","b:1:16","c:1:16","d:1:15"]}},"route":{"type":"AllSyncRoute","children":["PoolRoute|A","PoolRoute|B"]}}
{"pools":{"A":{"servers":["a:1:16","b:1:16","c:1:16","d:1:16","e:1:3"]}},"route":"PoolRoute|A"}
-- 1
reload refused: too many places reads=IN-USE deletes=NEW
"#
}

fn text_of(alloc: Global, line: &str) -> Result<String, AllocError> {
    if line.starts_with("{\"pools\"") {
        String::from_str(alloc, line)
    } else {
        configuration(alloc, line)
    }
}

// The configuration of a text, its servers numbered after those of the one in use.
fn config_after(alloc: Global, in_use: &Config, text: &str) -> Result<Config, Fail> {
    let servers = in_use.servers().copy(alloc)?;
    Ok(read_config_after(alloc, servers, text)?)
}

fn follows(alloc: Global, in_use: &Config, config: &Config) -> Result<String, Fail> {
    let mut out = Vec::new(alloc);
    match may_follow(alloc, "reload", in_use, config, &mut out) {
        Ok(may) => told(alloc, if may { 0 } else { 1 }, out.as_slice()),
        Err(_) => Err(Fail::from("broken off")),
    }
}

struct OfFollowers;

impl Printer for OfFollowers {
    fn printed(&self, alloc: Global, given: &str) -> Result<String, Fail> {
        let (in_use, new) = first_line(given);
        let in_use = text_of(alloc, in_use)?;
        let new = text_of(alloc, new.trim_end())?;
        let in_use = read_config(alloc, in_use.as_str())?;
        let config = config_after(alloc, &in_use, new.as_str())?;
        follows(alloc, &in_use, &config)
    }
}

#[test]
fn verdicts_on_followers(rt: HostRuntime) -> Result<(), Fail> {
    all_hold(rt.alloc(), &OfFollowers, following())
}
