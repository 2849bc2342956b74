//! Worked configurations: the tree that each means, or its first fault as it is printed.

ghost use Rattle.std.specs.Prelude.{◌<◌, ◌≤◌};

use examples_tables::tables::same;
use examples_tables::tellers::{Teller, all_told, between};
use mc_types::{Key, Op, ServerId};
use route_json::addresses::Servers;
use route_json::{Config, ConfigFault, read_config};
use route_tree::{Tree, TreeForm};
use std::alloc::{AllocError, Global};
use std::test::Fail;

// Whole configurations, and what is printed of each.
fn texts() -> &'static str {
    r#"[] => not JSON
{"pools":{},"route":1e400} => not JSON
{} => bad field pools
{"pools":5} => bad field route
{"pools":5,"route":5} => bad field pools
{"pools":{},"route":5,"route":"NullRoute"} => accepted
{"pools":{"A":5},"route":5} => bad field A
{"pools":{"A":{"x":1}},"route":5} => bad field x
{"pools":{"A":{"servers":[],"x":1}},"route":5} => bad field x
{"pools":{"A":{}},"route":5} => bad field servers
{"pools":{"B":5,"A":{"servers":[]}},"route":5} => empty pool A
{"pools":{"B":5,"A":{"servers":["h:0"]}},"route":5} => bad address h:0
{"b\n\u00e9":1,"a\\":2} => bad field a\\
{"b\n\u00e9":1} => bad field b\n\xc3\xa9
# No end of opening brackets.
«200 [» => not JSON"#
}

// Lists of servers.
fn server_lists() -> &'static str {
    r#"[] => empty pool A
["h:0"] => bad address h:0
["h 1:1"] => bad address h 1:1
["h:1","h:1"] => accepted
["h:1:16","h:1:1"] => accepted
["h:1:17"] => bad address h:1:17
["h:1:0"] => bad address h:1:0
["a:1",5,"h:0"] => bad field servers
["h:0",5] => bad address h:0
5 => bad field servers
# Lengths.
["h:1"«1023 ,"h:1"»] => accepted
["h:0"«1023 ,"h:1"»] => bad address h:0
["h:0"«1024 ,"h:1"»] => too many servers in A
# Weights: at most 2,048 slots.
[«127 "h:1:16",»"h:2:16"] => accepted
[«127 "h:1:16",»"h:2:15","h:3"] => accepted
[«128 "h:1:16",»"h:2"] => too many slots in A
[«128 "h:1:16",»"h:0"] => bad address h:0
[«1024 "h:1:16",»"h:2"] => too many servers in A"#
}

// What stands after `"servers":` of a pool that has a table of slots.
fn tables() -> &'static str {
    r#"["a:1","a:2"],"slots":[0,1,1] => accepted
["a:1","a:2"],"slots":[0] => accepted
["a:1","a:2"],"slots":[2] => bad field slots
["a:1","a:2"],"slots":[-1] => bad field slots
["a:1","a:2"],"slots":[-0] => bad field slots
["a:1","a:2"],"slots":[1.0] => bad field slots
["a:1","a:2"],"slots":["a:1"] => bad field slots
["a:1","a:2"],"slots":[1,18446744073709551616] => bad field slots
["a:1","a:2"],"slots":[] => bad field slots
["a:1","a:2"],"slots":{"0":1} => bad field slots
["a:1","a:2"],"slots":null => bad field slots
["a:1","a:1"],"slots":[0,1] => accepted
# At most 2,048, and no weights beside them.
["a:1","a:2"],"slots":[0«2047 ,1»] => accepted
["a:1","a:2"],"slots":[0«2048 ,1»] => bad field slots
["a:1:1","a:2"],"slots":[0,1] => accepted
["a:1:2","a:2"],"slots":[0,1] => bad field slots
# The list comes first.
[],"slots":[] => empty pool A
["a:0"],"slots":[] => bad address a:0
5,"slots":[] => bad field servers
[«128 "h:1:16",»"h:2"],"slots":[] => too many slots in A
["a:1"],"slots":[1],"slot":[0] => bad field slot"#
}

// Pools with limits of their own.
fn limits() -> &'static str {
    r#"["a:1"],"call_ms":1,"connect_ms":4294967295,"fail_limit":1,"retry_ms":4294967295 => accepted
["a:1"],"call_ms":0 => bad field call_ms
["a:1"],"call_ms":4294967296 => bad field call_ms
["a:1"],"call_ms":1.0 => bad field call_ms
["a:1"],"call_ms":"1" => bad field call_ms
["a:1"],"call_ms":null => bad field call_ms
["a:1"],"connect_ms":-1 => bad field connect_ms
["a:1"],"fail_limit":18446744073709551616 => bad field fail_limit
["a:1"],"retry_ms":[1] => bad field retry_ms
["a:1"],"retry_ms":0,"fail_limit":0,"connect_ms":0,"call_ms":0 => bad field call_ms
["a:1"],"retry_ms":0,"fail_limit":0,"connect_ms":0 => bad field connect_ms
# Servers and slots come first.
["a:0"],"call_ms":0 => bad address a:0
["a:1"],"slots":[1],"call_ms":0 => bad field slots
["a:1"],"call_ms":0,"give_up_ms":1 => bad field give_up_ms"#
}

// Routes over pool A of two servers and B of one.
fn routes() -> &'static str {
    r#""PoolRoute|Z" => no pool Z
"RandomRoute" => unknown route RandomRoute
"PoolRoute|A|B" => no pool A|B
{"type":"AllSyncRoute","children":[]} => no children
{"type":"PrefixSelectorRoute","policies":{"":"NullRoute"}} => bad prefix 
{"type":"PrefixSelectorRoute","policies":{"a b":5}} => bad prefix a b
{"type":"PrefixSelectorRoute","policies":{"a":5,"b ":5}} => bad field a
{"type":"PrefixSelectorRoute"} => bad field policies
{"type":"PrefixSelectorRoute","policies":{},"wildcard":5} => bad field wildcard
{"type":"PrefixSelectorRoute","policies":{"a":"X"},"wildcard":5} => unknown route X
{"type":"OperationSelectorRoute","operation_policies":{"read":5}} => bad field read
{"type":"OperationSelectorRoute","operation_policies":{"get":"X"}} => unknown route X
{"type":"OperationSelectorRoute","operation_policies":{"set":5,"get":"X"}} => unknown route X
{"type":"OperationSelectorRoute","operation_policies":{"set":"X"},"default_policy":5} => unknown route X
{"type":"PoolRoute|A"} => unknown route PoolRoute|A
{"type":"RandomRoute","x":1} => unknown route RandomRoute
{"x":1} => bad field type
{"type":"PoolRoute","x":1} => bad field x
{"type":"PoolRoute"} => bad field pool
{"type":"PoolRoute","pool":5} => bad field pool
{"type":"PoolRoute","pool":"Z"} => no pool Z
{"type":"NullRoute","pool":"A"} => bad field pool
{"type":"FailoverRoute","children":"A"} => bad field children
{"type":"FailoverRoute","children":"Pool|Z"} => no pool Z
{"type":"FailoverRoute","children":[5,"X"]} => bad field children
{"type":"FailoverRoute","children":["X",5]} => unknown route X
"FailoverRoute|Pool|" => no pool 
"FailoverRoute|A" => unknown route FailoverRoute|A
{"type":"WarmUpRoute","warm":5} => bad field cold
{"type":"WarmUpRoute","cold":"X"} => unknown route X
{"type":"WarmUpRoute","cold":"NullRoute","exptime":-1} => bad field warm
{"type":"WarmUpRoute","cold":"NullRoute","warm":"X","exptime":-1} => unknown route X
{"type":"WarmUpRoute","cold":"NullRoute","warm":"NullRoute","exptime":2147483647} => accepted
{"type":"WarmUpRoute","cold":"NullRoute","warm":"NullRoute","exptime":2147483648} => bad field exptime
{"type":"WarmUpRoute","cold":"NullRoute","warm":"NullRoute","exptime":-0} => bad field exptime
{"type":"WarmUpRoute","cold":"NullRoute","warm":"NullRoute","exptime":1.0} => bad field exptime
5 => bad field route
# Depth.
«31 {"type":"AllSyncRoute","children":[»"NullRoute"«31 ]}» => accepted
«32 {"type":"AllSyncRoute","children":[»"NullRoute"«32 ]}» => too deep
«33 {"type":"AllSyncRoute","children":[»"NullRoute"«33 ]}» => too deep
«30 {"type":"AllSyncRoute","children":[»"AllSyncRoute|Pool|A"«30 ]}» => accepted
«31 {"type":"AllSyncRoute","children":[»"AllSyncRoute|Pool|A"«31 ]}» => too deep
«32 {"type":"AllSyncRoute","children":[»5«32 ]}» => too deep
# Count: each route three times for every cold.
«6 {"type":"WarmUpRoute","warm":"NullRoute","cold":»"NullRoute"«6 }» => accepted
«7 {"type":"WarmUpRoute","warm":"NullRoute","cold":»"NullRoute"«7 }» => too many routes
«8 {"type":"WarmUpRoute","warm":"NullRoute","cold":»"NullRoute"«8 }» => too many routes
# The inmost value would be number 4,097 and at depth 33; with one null route more that number comes a level before.
{"type":"AllSyncRoute","children":[«4064 "NullRoute",»«31 {"type":"AllSyncRoute","children":[»5«31 ]}»]} => too deep
{"type":"AllSyncRoute","children":[«4065 "NullRoute",»«31 {"type":"AllSyncRoute","children":[»5«31 ]}»]} => too many routes
# Lengths.
{"type":"AllSyncRoute","children":["NullRoute"«4094 ,"NullRoute"»]} => accepted
{"type":"AllSyncRoute","children":["NullRoute"«4095 ,"NullRoute"»]} => too many routes
{"type":"AllSyncRoute","children":["NullRoute"«4094 ,"NullRoute"»,5]} => too many routes"#
}

// Usual set-ups over the same pools: the root, and what is directly below it.
fn set_ups() -> &'static str {
    r#""PoolRoute|A" => Pool a:1 a:2
{"type":"PoolRoute","pool":"B"} => Pool b:1
"MissFailoverRoute|Pool|A" => MissFailover; Server a:1; Server a:2
{"type":"AllSyncRoute","children":["PoolRoute|A","PoolRoute|B"]} => AllSync; Pool a:1 a:2; Pool b:1
{"type":"FailoverRoute","children":"Pool|A"} => Failover; Server a:1; Server a:2
{"type":"OperationSelectorRoute","operation_policies":{"get":"FailoverRoute|Pool|A","delete":"AllSyncRoute|Pool|A"}} => ByOperation; delete AllSync; get Failover; Error
{"type":"WarmUpRoute","cold":"PoolRoute|A","warm":"PoolRoute|B","exptime":60} => WarmUp 60; Pool a:1 a:2; Pool b:1
{"type":"WarmUpRoute","cold":"PoolRoute|A","warm":"PoolRoute|B"} => WarmUp 0; Pool a:1 a:2; Pool b:1
{"type":"PrefixSelectorRoute","policies":{"u:":"PoolRoute|A","é":"NullRoute"},"wildcard":"PoolRoute|B"} => ByPrefix; u: Pool a:1 a:2; é Null; Pool b:1
{"type":"PrefixSelectorRoute","policies":{}} => ByPrefix; Error"#
}

// Routes over pool W of a server of weight 2 and one of weight 1.
fn weighted_set_ups() -> &'static str {
    r#""PoolRoute|W" => 2 servers: Pool h:1 h:1 h:2
"AllSyncRoute|Pool|W" => 2 servers: AllSync; Server h:1; Server h:2
{"type":"FailoverRoute","children":"Pool|W"} => 2 servers: Failover; Server h:1; Server h:2
"MissFailoverRoute|Pool|W" => 2 servers: MissFailover; Server h:1; Server h:2"#
}

// Routes over pool W of three servers, the last of which has no slot.
fn table_set_ups() -> &'static str {
    r#""PoolRoute|W" => 3 servers: Pool h:2 h:1 h:1 h:2
"AllSyncRoute|Pool|W" => 3 servers: AllSync; Server h:1; Server h:2; Server h:3"#
}

// Whole configurations whose servers are told too, and what comes after the last.
fn numberings() -> &'static str {
    r#"# Servers are numbered by their first appearance.
{"route":"PoolRoute|B","pools":{"B":{"servers":["x:1","y:1","z:1"]},"A":{"servers":["y:1","x:1","y:1"]}}} => 3 servers: Pool x:1 y:1 z:1; y:1 x:1 z:1 none"#
}

// What is printed of a text: `accepted`, or the fault.
fn printed(alloc: Global, text: &str) -> Result<String, AllocError> {
    match read_config(alloc, text) {
        Ok(_) => "accepted".to_string(alloc),
        Err(fault) => fault.to_string(alloc),
    }
}

struct OfWhole;

impl Teller for OfWhole {
    fn told(alloc: Global, text: &str) -> Result<String, AllocError> {
        printed(alloc, text)
    }
}

// The pools of routes.
fn pools() -> &'static str {
    r#"{"pools":{"A":{"servers":["a:1","a:2"]},"B":{"servers":["b:1"]}},"route":"#
}

fn weighted() -> &'static str {
    r#"{"pools":{"W":{"servers":["h:1:2","h:2"]}},"route":"#
}

fn slotted() -> &'static str {
    r#"{"pools":{"W":{"slots":[1,0,0,1],"servers":["h:1","h:2","h:3"]}},"route":"#
}

fn null_route() -> &'static str {
    r#"}},"route":"NullRoute"}"#
}

fn with_route(alloc: Global, route: &str) -> Result<String, AllocError> {
    between(alloc, pools(), route, "}")
}

fn with_weighted(alloc: Global, route: &str) -> Result<String, AllocError> {
    between(alloc, weighted(), route, "}")
}

fn with_servers(alloc: Global, servers: &str) -> Result<String, AllocError> {
    between(alloc, r#"{"pools":{"A":{"servers":"#, servers, null_route())
}

struct OfServers;

impl Teller for OfServers {
    fn told(alloc: Global, servers: &str) -> Result<String, AllocError> {
        let text = with_servers(alloc, servers)?;
        printed(alloc, text.as_str())
    }
}

struct OfRoutes;

impl Teller for OfRoutes {
    fn told(alloc: Global, route: &str) -> Result<String, AllocError> {
        let text = with_route(alloc, route)?;
        printed(alloc, text.as_str())
    }
}

fn push_servers(out: &mut String, config: &Config, servers: &[ServerId]) -> Result<(), AllocError> {
    for server in servers {
        push_server(out, config, *server)?;
    }
    Ok(())
}

fn form_word(form: &TreeForm) -> &'static str {
    match form {
        TreeForm::Pool(_) => "Pool",
        TreeForm::Server(_) => "Server",
        TreeForm::Null => "Null",
        TreeForm::Error => "Error",
        TreeForm::AllSync(_) => "AllSync",
        TreeForm::Failover(_) => "Failover",
        TreeForm::MissFailover(_) => "MissFailover",
        TreeForm::WarmUp { .. } => "WarmUp",
        TreeForm::ByOperation { .. } => "ByOperation",
        TreeForm::ByPrefix { .. } => "ByPrefix",
    }
}

fn push_leaf(out: &mut String, config: &Config, tree: &Tree) -> Result<(), AllocError> {
    out.push_str(form_word(tree.form()))?;
    match tree.form() {
        TreeForm::Pool(servers) => push_servers(out, config, servers),
        TreeForm::Server(server) => push_server(out, config, *server),
        _ => Ok(()),
    }
}

fn push_server(out: &mut String, config: &Config, server: ServerId) -> Result<(), AllocError> {
    out.push_str(" ")?;
    if let Some(text) = config.servers().get(server) {
        out.push_str(text)?;
    }
    Ok(())
}

fn push_children(out: &mut String, config: &Config, children: &[Tree]) -> Result<(), AllocError> {
    for child in children {
        out.push_str("; ")?;
        push_leaf(out, config, child)?;
    }
    Ok(())
}

fn op_name(op: Op) -> &'static str {
    match op {
        Op::Get => "; get ",
        Op::Delete => "; delete ",
        _ => "; other ",
    }
}

// The children by operation, each after its operation, and the default.
fn push_policies(
    out: &mut String,
    config: &Config,
    policies: &[(Op, Tree)],
    default: &Tree,
) -> Result<(), AllocError> {
    for (op, child) in policies {
        out.push_str(op_name(*op))?;
        push_leaf(out, config, child)?;
    }
    out.push_str("; ")?;
    push_leaf(out, config, default)
}

// The children by prefix, each after its prefix, and the wildcard.
fn push_prefixes(
    out: &mut String,
    config: &Config,
    policies: &[(Key, Tree)],
    wildcard: &Tree,
) -> Result<(), AllocError> {
    for (prefix, child) in policies {
        out.push_str("; ")?;
        out.push_str(str::from_utf8(prefix.as_bytes()).unwrap_or("?"))?;
        out.push_str(" ")?;
        push_leaf(out, config, child)?;
    }
    out.push_str("; ")?;
    push_leaf(out, config, wildcard)
}

fn push_sides(
    out: &mut String,
    config: &Config,
    cold: &Tree,
    warm: &Tree,
    exptime: u32,
) -> Result<(), AllocError> {
    write!(out, " {exptime}; ")?;
    push_leaf(out, config, cold)?;
    out.push_str("; ")?;
    push_leaf(out, config, warm)
}

// What is directly below the root.
fn push_below(out: &mut String, config: &Config) -> Result<(), AllocError> {
    match config.tree().form() {
        TreeForm::AllSync(children)
        | TreeForm::Failover(children)
        | TreeForm::MissFailover(children) => push_children(out, config, children),
        TreeForm::WarmUp {
            cold,
            warm,
            exptime,
        } => push_sides(out, config, cold, warm, *exptime),
        TreeForm::ByOperation { policies, default } => {
            push_policies(out, config, policies, default)
        }
        TreeForm::ByPrefix { policies, wildcard } => {
            push_prefixes(out, config, policies, wildcard)
        }
        _ => Ok(()),
    }
}

// The root, and what is directly below it.
fn shown(alloc: Global, config: &Config) -> Result<String, AllocError> {
    let mut out = String::new(alloc);
    push_leaf(&mut out, config, config.tree())?;
    push_below(&mut out, config)?;
    Ok(out)
}

fn copy_shown(alloc: Global, config: &Config) -> Result<String, AllocError> {
    let copy = config.copy(alloc)?;
    shown(alloc, &copy)
}

// What a copy of the route's configuration shows.
struct OfSetUps;

impl Teller for OfSetUps {
    fn told(alloc: Global, route: &str) -> Result<String, AllocError> {
        let text = with_route(alloc, route)?;
        match read_config(alloc, text.as_str()) {
            Ok(config) => copy_shown(alloc, &config),
            Err(fault) => fault.to_string(alloc),
        }
    }
}

// The number of servers, unless there are none, and the tree.
fn shown_with_count(alloc: Global, config: &Config) -> Result<String, AllocError> {
    let tree = shown(alloc, config)?;
    if config.servers().is_empty() {
        return Ok(tree);
    }
    let mut out = config.servers().len().to_string(alloc)?;
    out.push_str(" servers: ")?;
    out.push_str(tree.as_str())?;
    Ok(out)
}

struct OfWeightedPools;

impl Teller for OfWeightedPools {
    fn told(alloc: Global, route: &str) -> Result<String, AllocError> {
        let text = with_weighted(alloc, route)?;
        match read_config(alloc, text.as_str()) {
            Ok(config) => shown_with_count(alloc, &config),
            Err(fault) => fault.to_string(alloc),
        }
    }
}

struct OfTables;

impl Teller for OfTables {
    fn told(alloc: Global, route: &str) -> Result<String, AllocError> {
        let text = between(alloc, slotted(), route, "}")?;
        match read_config(alloc, text.as_str()) {
            Ok(config) => shown_with_count(alloc, &config),
            Err(fault) => fault.to_string(alloc),
        }
    }
}

// The addresses of servers 0 to 3.
fn push_four(out: &mut String, servers: &Servers) -> Result<(), AllocError> {
    for number in 0..4 {
        out.push_str(" ")?;
        out.push_str(servers.get(ServerId::new(number)).unwrap_or("none"))?;
    }
    Ok(())
}

fn numbered(alloc: Global, config: &Config) -> Result<String, AllocError> {
    let mut out = shown_with_count(alloc, config)?;
    out.push_str(";")?;
    push_four(&mut out, config.servers())?;
    Ok(out)
}

struct OfNumberings;

impl Teller for OfNumberings {
    fn told(alloc: Global, text: &str) -> Result<String, AllocError> {
        match read_config(alloc, text) {
            Ok(config) => numbered(alloc, &config),
            Err(fault) => fault.to_string(alloc),
        }
    }
}

#[test]
fn configuration_faults(rt: HostRuntime) -> Result<(), Fail> {
    all_told::<OfWhole>(rt.alloc(), texts())?;
    let none = ConfigFault::NoMemory.to_string(rt.alloc())?;
    same("no memory", none.as_str(), "out of memory")
}

#[test]
fn faults_of_servers(rt: HostRuntime) -> Result<(), Fail> {
    all_told::<OfServers>(rt.alloc(), server_lists())
}

#[test]
fn faults_of_tables(rt: HostRuntime) -> Result<(), Fail> {
    all_told::<OfServers>(rt.alloc(), tables())
}

#[test]
fn faults_of_limits(rt: HostRuntime) -> Result<(), Fail> {
    all_told::<OfServers>(rt.alloc(), limits())
}

#[test]
fn faults_of_routes(rt: HostRuntime) -> Result<(), Fail> {
    all_told::<OfRoutes>(rt.alloc(), routes())
}

#[test]
fn usual_set_ups(rt: HostRuntime) -> Result<(), Fail> {
    all_told::<OfSetUps>(rt.alloc(), set_ups())
}

#[test]
fn weighted_pools(rt: HostRuntime) -> Result<(), Fail> {
    all_told::<OfWeightedPools>(rt.alloc(), weighted_set_ups())
}

#[test]
fn pools_with_tables(rt: HostRuntime) -> Result<(), Fail> {
    all_told::<OfTables>(rt.alloc(), table_set_ups())
}

#[test]
fn servers_by_first_appearance(rt: HostRuntime) -> Result<(), Fail> {
    all_told::<OfNumberings>(rt.alloc(), numberings())
}

// What a configuration of one pool shows.
fn pool_shown(alloc: Global, count: u32) -> Result<String, AllocError>
    requires some { 0 < count }
    requires few { count ≤ 1024 }
{
    let config = Config::of_pool(alloc, count)?;
    shown(alloc, &config)
}

// The number of servers, and the last.
fn last_of_pool(alloc: Global, count: u32, last: u32) -> Result<String, AllocError>
    requires some { 0 < count }
    requires few { count ≤ 1024 }
{
    let config = Config::of_pool(alloc, count)?;
    let servers = config.servers();
    let text = servers.get(ServerId::new(last)).unwrap_or("none");
    format!(in alloc; "{} {text}", servers.len())
}

fn small_pool(alloc: Global) -> Result<(), Fail> {
    let shown = pool_shown(alloc, 3)?;
    same("a pool of 3", shown.as_str(), "Pool s0:1 s1:1 s2:1")
}

fn large_pool(alloc: Global) -> Result<(), Fail> {
    let last = last_of_pool(alloc, 1024, 1023)?;
    same("a pool of 1024", last.as_str(), "1024 s1023:1")
}

#[test]
fn one_pool(rt: HostRuntime) -> Result<(), Fail> {
    small_pool(rt.alloc())?;
    large_pool(rt.alloc())
}
