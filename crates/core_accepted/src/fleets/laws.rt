//! The laws of a core before servers that may apply calls late.

ghost use Rattle.std.specs.Prelude.{◌≡◌, Some};
ghost use Rattle.core_accepted.specs.Known.{Known};
ghost use Rattle.core_accepted.specs.Logs.{IsAccepted};
ghost use Rattle.core_accepted.specs.LateCores.{EveryLateLogIsFresh, EveryLateRunIsFresh, EveryLateLogFromIsFresh, EveryLateRunFromIsFresh, EveryLateRunFromIsFreshByNumber};
ghost use Rattle.core_accepted.specs.OwedCores.{EveryOwedRunFromIsFresh};

use crate::ServedCore;
use crate::laws::accepted_trees_are_sound;

/// One core on trees that the gate accepted, whose reads may copy, before servers which only it writes, and which apply what comes over its
/// connection in order, however late, also what had failed: whatever it and they do, a command that begins after a delete of its key was
/// acknowledged shows no item of a store that was over when the delete began. That holds also while there are calls whose results the log
/// doesn't have yet.
pub fn late_core_is_fresh(core: &ServedCore)
    ensures { IsAccepted core.now → EveryLateLogIsFresh core.now × EveryLateRunIsFresh core.now }
{
    accepted_trees_are_sound(core);
}

/// One core on trees that the gate accepted, before servers that held at first what was said of them: so it is, too, if deletes
/// needn't clear a server on which nothing was stored before. Where each command has its key alone, that holds by numbers too.
pub fn begun_late_core_is_fresh(core: &ServedCore)
    ensures { (known : Known) → core.now.accepted ≡ Some known → EveryLateLogFromIsFresh known core.now × (EveryLateRunFromIsFresh known core.now × EveryLateRunFromIsFreshByNumber known core.now) }
{
    accepted_trees_are_sound(core);
}

/// The same where the core's proxy answers some calls itself that had failed: of the key of such a call nothing is asked of its server, nor answered by it,
/// before that has applied a delete of nobody, or a flush. A command that begins after a delete of its key was acknowledged, by servers or so, shows no
/// item of a store that was over when the delete began.
pub fn owed_core_is_fresh(core: &ServedCore)
    ensures { (known : Known) → core.now.accepted ≡ Some known → EveryOwedRunFromIsFresh known core.now }
{
    accepted_trees_are_sound(core);
}
