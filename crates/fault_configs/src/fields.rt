//! The names that a configuration has: of fields, routes and operations, as they are told.

use route_json::names::{Holder, Kind, Lists};

/// The names of the routes.
pub const ROUTES: [&str; 9] = [
    "PoolRoute",
    "AllSyncRoute",
    "FailoverRoute",
    "MissFailoverRoute",
    "WarmUpRoute",
    "OperationSelectorRoute",
    "PrefixSelectorRoute",
    "NullRoute",
    "ErrorRoute",
];

/// The names of the operations.
pub const OPERATIONS: [&str; 12] = [
    "get", "gat", "set", "add", "replace", "append", "prepend", "cas", "delete", "incr", "decr",
    "touch",
];

const CONFIG: [&str; 2] = ["pools", "route"];

const POOL: [&str; 6] = [
    "servers",
    "slots",
    "call_ms",
    "connect_ms",
    "fail_limit",
    "retry_ms",
];

const POOL_ROUTE: [&str; 2] = ["type", "pool"];

const LIST_ROUTE: [&str; 2] = ["type", "children"];

const WARM_UP_ROUTE: [&str; 4] = ["type", "cold", "warm", "exptime"];

const OPERATION_ROUTE: [&str; 3] = ["type", "operation_policies", "default_policy"];

const PREFIX_ROUTE: [&str; 3] = ["type", "policies", "wildcard"];

const LEAF_ROUTE: [&str; 1] = ["type"];

/// The fields that an object of this kind may have.
pub fn fields_of(holder: Holder) -> &'static [&'static str] {
    match holder {
        Holder::Config => &CONFIG,
        Holder::Pool => &POOL,
        Holder::Route(kind) => fields_of_route(kind),
    }
}

fn fields_of_route(kind: Kind) -> &'static [&'static str] {
    match kind {
        Kind::Pool => &POOL_ROUTE,
        Kind::List(_) => &LIST_ROUTE,
        Kind::WarmUp => &WARM_UP_ROUTE,
        Kind::ByOperation => &OPERATION_ROUTE,
        Kind::ByPrefix => &PREFIX_ROUTE,
        Kind::Null | Kind::Error => &LEAF_ROUTE,
    }
}

/// What stands under a field of a route.
#[derive(Clone, Copy)]
pub enum Part {
    /// The route's type.
    Kind,
    /// The name of a pool.
    Pool,
    /// Routes, or the servers of a pool.
    Children,
    Route,
    /// A route that may be left out; then it is an error route.
    Rest,
    /// A number that may be left out.
    Exptime,
    Operations,
    Prefixes,
}

/// What stands under this field of a route.
pub fn part_of(field: &str) -> Part {
    match field {
        "pool" => Part::Pool,
        "children" => Part::Children,
        "cold" | "warm" => Part::Route,
        "exptime" => Part::Exptime,
        "operation_policies" => Part::Operations,
        "policies" => Part::Prefixes,
        "default_policy" | "wildcard" => Part::Rest,
        _ => Part::Kind,
    }
}

/// What an object of this kind is called.
pub fn name_of(holder: Holder) -> &'static str {
    match holder {
        Holder::Config => "a configuration",
        Holder::Pool => "a pool",
        Holder::Route(kind) => match kind {
            Kind::Pool => "a PoolRoute",
            Kind::List(Lists::AllSync) => "an AllSyncRoute",
            Kind::List(Lists::Failover) => "a FailoverRoute",
            Kind::List(Lists::MissFailover) => "a MissFailoverRoute",
            Kind::WarmUp => "a WarmUpRoute",
            Kind::ByOperation => "an OperationSelectorRoute",
            Kind::ByPrefix => "a PrefixSelectorRoute",
            Kind::Null => "a NullRoute",
            Kind::Error => "an ErrorRoute",
        },
    }
}
