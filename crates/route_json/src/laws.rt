//! A law of configurations: a function without a body, whose contract is the law; proofs cite its lemma.

ghost use Rattle.route_json.specs.DirectServers.{DirectServersAreBelow};

/// Where a direct tree names only servers below a bound, the server of each key is below it.
pub fn direct_servers_are_below()
    ensures { DirectServersAreBelow }
{}
