//! Laws of the core that is served.

ghost use Rattle.std.specs.Prelude.{◌≡◌, Some};
ghost use Rattle.core_accepted.specs.Known.{Known};
ghost use Rattle.core_accepted.specs.Logs.{TreesAreSound, IsAccepted, EveryLogIsFresh, EveryLogFromIsFresh};
ghost use Rattle.core_accepted.specs.Losses.{ServersMayLose};

use crate::served::ServedCore;

/// Where the gate accepted its trees whatever servers held at first, each log that may have led to the core, and in which
/// nobody else writes the servers, is fresh; where each command has its key alone, by numbers too, and none of its replies is
/// stale.
pub fn accepted_core_is_fresh(core: &ServedCore)
    ensures { IsAccepted core.now → EveryLogIsFresh core.now }
{
    begun_core_is_fresh(core);
}

/// Where the gate accepted its trees, each log that may have led to the core, and in which servers held at first what was said
/// of them and nobody else writes them, is fresh; where each command has its key alone, by numbers too, and none of its replies
/// is stale.
pub fn begun_core_is_fresh(core: &ServedCore)
    ensures { (known : Known) → core.now.accepted ≡ Some known → EveryLogFromIsFresh known core.now }
{
    if let Some(generations) = &core.accepted {
        let _config = generations.config();
    }
}

/// The trees that the gate accepted are sound: each clears what it and later ones take, or nothing was put there before.
pub fn accepted_trees_are_sound(core: &ServedCore)
    ensures { TreesAreSound core.now }
{
    if let Some(generations) = &core.accepted {
        let _config = generations.config();
    }
}

/// Servers may lose what they hold at any moment, and others may write there: each log that may have led to a core goes on
/// by that.
pub fn servers_may_lose()
    ensures { ServersMayLose }
{}
