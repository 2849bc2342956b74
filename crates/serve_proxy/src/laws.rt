//! Laws of what may happen to the core of a proxy.

ghost use Rattle.serve_links.specs.CoreSteps.{WalksKeep, WalksKeepSince};
ghost use Rattle.serve_proxy.specs.LogsGoOn.{WalksGoOn, WalksAreFresh};

/// A core whose trees the gate accepted stays one, whatever calls of it are made, and so does one on other trees.
pub fn walks_keep()
    ensures { WalksKeep }
{}

/// Where the gate accepted a configuration at first, it only accepted others after it, whatever calls are made, and what is said of how
/// servers began stays.
pub fn walks_keep_since()
    ensures { WalksKeepSince }
{}

/// Each log that may have led to a core goes on by each call of it, and may have led to the core after: so what
/// `core_accepted` promises of such logs holds after any turns.
pub fn walks_go_on()
    ensures { WalksGoOn }
{}

/// On trees that the gate accepted each log that may have led to a core goes on by any calls of it, and is fresh then, if servers began as
/// is said and nobody else writes them.
pub fn walks_are_fresh()
    ensures { WalksAreFresh }
{}
