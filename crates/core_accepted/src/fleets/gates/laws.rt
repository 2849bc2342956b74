//! The laws of fleets on trees.

ghost use Rattle.core_accepted.specs.FleetGate.{AcceptedFleetIsFresh};
ghost use Rattle.core_accepted.specs.Rollout.{FleetTreesAreFresh};

/// Where the trees of a fleet cover one another as far as they may be in use together, and copy nothing, every run of it over
/// connections in order is fresh, but for stores that had failed over another connection than the delete's; with the premise
/// that a call that failed was applied before or is never, it is fresh with regard to all stores.
pub fn fleet_trees_are_fresh()
    ensures { FleetTreesAreFresh }
{}

/// Where each command of a fleet runs by any of the trees that [`crate::fleets::gates::judging::judge_fleet`] accepts, every run of
/// it over connections in order is fresh, but for stores that had failed over another connection than the delete's; with the
/// premise that a call that failed was applied before or is never, it is fresh with regard to all stores.
pub fn accepted_fleet_is_fresh()
    ensures { AcceptedFleetIsFresh }
{}
