//! The laws of cores on accepted trees: of a fleet of them, of several one after another, and of one before servers that were
//! emptied. Each is a function whose contract is the law.

ghost use Rattle.std.specs.Prelude.{◌≡◌, Some};
ghost use Rattle.core_accepted.specs.Known.{Known};
ghost use Rattle.fresh_theory.specs.Cores.{FleetOfCoresIsFresh, LateFleetOfCoresIsFresh, StickyFleetOfCoresIsFresh};
ghost use Rattle.fresh_theory.specs.Grown.{GrownLogsAreFresh};
ghost use Rattle.fresh_theory.specs.InTurn.{RunsInTurnAreFresh};
ghost use Rattle.fresh_theory.specs.LateCores.{EveryLateRunFromEmptiedIsFresh};
ghost use Rattle.fresh_theory.specs.Flushed.{EveryRunFromFlushedIsFresh, EveryLogFromFlushedIsFresh};
ghost use Rattle.fresh_theory.specs.LateInTurn.{LateRunsInTurnAreFresh};
ghost use Rattle.fresh_theory.specs.Machines.{EveryRunAtMachinesIsFresh};

use core_accepted::ServedCore;
use core_accepted::laws::accepted_trees_are_sound;

/// Any number of cores, on trees that cover one another as far as they may be in use together and copy nothing, before the same
/// servers, which only they write, and where a store that failed was applied before or never is: whatever they and the servers
/// do, a command that begins at any of them after a delete of its key was acknowledged at any of them shows no item of a store
/// that was over when the delete began.
pub fn fleet_of_cores_is_fresh()
    ensures { FleetOfCoresIsFresh }
{}

/// Any number of cores, on trees that cover one another as far as they may be in use together and copy nothing, before the same
/// servers, which only they write, and which apply what came over a connection in order, however late: whatever they and the
/// servers do, a command that begins at any of them after a delete of its key was acknowledged at any of them shows no item of a
/// store that was over when the delete began, but for stores that had failed over another connection than the delete's.
pub fn late_fleet_of_cores_is_fresh()
    ensures { LateFleetOfCoresIsFresh }
{}

/// Any number of cores, on trees that cover one another as far as they may be in use together and copy nothing, before the same
/// servers, which only they write, and which apply what came over a connection in order, however late; and whatever core runs
/// it, each command sends over the connections of its key. Then, whatever they and the servers do, a command that begins at any of
/// them after a delete of its key was acknowledged at any of them shows no item of a store that was over when the delete began.
pub fn sticky_fleet_of_cores_is_fresh()
    ensures { StickyFleetOfCoresIsFresh }
{}

/// Each log that may have led to a core on sound generations is fresh, where servers held at the beginning what their
/// kind says, and nobody else writes them; where each command has its key alone, by numbers too, and no stale reply is
/// counted.
pub fn grown_logs_are_fresh()
    ensures { GrownLogsAreFresh }
{}

/// Several runs of a program one after another before the same servers, which nobody else writes, are fresh together,
/// where each begins with the history that the one before wrote: the gate accepted its configurations one after another,
/// each command runs by the tree that was loaded when it began, and calls of a run that ended were applied before the
/// next one began, or never are. A command that begins in any run after a delete of its key was acknowledged in any shows
/// no item of a store that was over when the delete began.
pub fn runs_in_turn_are_fresh()
    ensures { RunsInTurnAreFresh }
{}

/// Such runs are fresh together also where servers apply late what a run sent, after it ended too, in the order of its
/// connection: if each run that knows that those before it ended with nothing in flight is right, and each other one asks
/// a server for nothing before what earlier runs sent there was applied, or never is. By numbers, too, where each command
/// has its key alone.
pub fn late_runs_in_turn_are_fresh()
    ensures { LateRunsInTurnAreFresh }
{}

/// One core on trees that the gate accepted is fresh so, too, where servers were emptied before they were first called: what they
/// held doesn't count.
pub fn emptied_late_core_is_fresh(core: &ServedCore)
    ensures { (known : Known) → core.now.accepted ≡ Some known → EveryLateRunFromEmptiedIsFresh known core.now }
{
    accepted_trees_are_sound(core);
}

/// So it is where servers were flushed before they applied a call, though calls to them had failed unsent before; and so is
/// each log that may have led to it and in which nobody else writes the servers, by numbers too where each command has its
/// key alone, with no stale reply.
pub fn flushed_core_is_fresh(core: &ServedCore)
    ensures { (known : Known) → core.now.accepted ≡ Some known → EveryRunFromFlushedIsFresh known core.now × EveryLogFromFlushedIsFresh known core.now }
{
    accepted_trees_are_sound(core);
}

/// One core on trees that the gate accepted is fresh also where several of its servers are one machine, as an address that
/// came back: if the machine is asked under one number at a time, and emptied under the next one once nothing that was sent
/// under earlier ones may still be applied. What is told of a number, where a call of it is applied, is what the machine holds.
pub fn core_at_machines_is_fresh(core: &ServedCore)
    ensures { (known : Known) → core.now.accepted ≡ Some known → EveryRunAtMachinesIsFresh known core.now }
{
    accepted_trees_are_sound(core);
}
