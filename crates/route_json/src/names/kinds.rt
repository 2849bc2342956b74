//! The kinds of routes and their names.

// Kinds of routes.

ghost use Rattle.std.specs.Prelude.{◌≡◌};
ghost use Rattle.route_json.specs.Names.{kind_of};

/// The routes that have a list of children.
#[derive(Clone, Copy)]
pub enum Lists {
    AllSync,
    Failover,
    MissFailover,
}

/// The kinds of routes, under mcrouter's names.
#[derive(Clone, Copy)]
pub enum Kind {
    /// One of a pool's servers, by the key's slot.
    Pool,
    List(Lists),
    WarmUp,
    ByOperation,
    ByPrefix,
    Null,
    Error,
}

/// The kind of the routes of this `type`; `None` where no route has this name.
pub fn kind_of(text: &str) -> Option<Kind>
    ensures { result ≡ kind_of text.now }
{
    match text {
        "PoolRoute" => Some(Kind::Pool),
        "AllSyncRoute" => Some(Kind::List(Lists::AllSync)),
        "FailoverRoute" => Some(Kind::List(Lists::Failover)),
        "MissFailoverRoute" => Some(Kind::List(Lists::MissFailover)),
        "WarmUpRoute" => Some(Kind::WarmUp),
        "OperationSelectorRoute" => Some(Kind::ByOperation),
        "PrefixSelectorRoute" => Some(Kind::ByPrefix),
        "NullRoute" => Some(Kind::Null),
        "ErrorRoute" => Some(Kind::Error),
        _ => None,
    }
}
