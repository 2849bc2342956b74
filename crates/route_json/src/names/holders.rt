//! Which fields an object of a configuration may have.

// Kinds of objects, and the fields that each may have.

ghost use Rattle.std.specs.Prelude.{◌≡◌};
ghost use Rattle.std.specs.List.{list_any};
ghost use Rattle.std.specs.Str.{bytes_eq};
ghost use Rattle.route_json.specs.Names.{fields_of, limit_fields, own_fields};

use crate::names::kinds::Kind;

/// The kinds of objects in a configuration.
#[derive(Clone, Copy)]
pub enum Holder {
    /// The whole configuration.
    Config,
    Pool,
    /// A route of this kind.
    Route(Kind),
}

/// Whether an object of this kind may have this field.
pub fn is_field(holder: Holder, name: &str) -> bool
    ensures { result ≡ list_any (bytes_eq name.now) (fields_of holder) }
{
    match holder {
        Holder::Config => name == "pools" || name == "route",
        Holder::Pool => name == "servers" || name == "slots" || is_limit_field(name),
        Holder::Route(kind) => name == "type" || is_route_field(kind, name),
    }
}

fn is_limit_field(name: &str) -> bool
    ensures { result ≡ list_any (bytes_eq name.now) limit_fields }
{
    name == "call_ms" || name == "connect_ms" || name == "fail_limit" || name == "retry_ms"
}

fn is_route_field(kind: Kind, name: &str) -> bool
    ensures { result ≡ list_any (bytes_eq name.now) (own_fields kind) }
{
    match kind {
        Kind::Pool => name == "pool",
        Kind::List(_) => name == "children",
        Kind::WarmUp => name == "cold" || name == "warm" || name == "exptime",
        Kind::ByOperation => name == "operation_policies" || name == "default_policy",
        Kind::ByPrefix => name == "policies" || name == "wildcard",
        Kind::Null | Kind::Error => false,
    }
}
