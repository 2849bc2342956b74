//! Runs that aren't fresh: what the laws can't do without. Each law is a function without a body, whose contract is the law.

ghost use Rattle.fresh_theory.specs.StaleRuns.{SomeRunIsStale, CopiesRace};
ghost use Rattle.fresh_theory.specs.FleetExamples.{GivenUpIsStale, FleetCopiesRace, OneWayIsStale};
ghost use Rattle.fresh_theory.specs.Weakest.{UntimelyIsStale};
ghost use Rattle.fresh_theory.specs.OwedRaces.{OwedRaces};

/// Not every run is fresh: one isn't where a delete asks nobody.
pub fn some_run_is_stale()
    ensures { SomeRunIsStale }
{}

/// Where what copies doesn't bar deletes, a run may be stale though deletes clear what later commands take.
pub fn copies_race()
    ensures { CopiesRace }
{}

/// With a single server, which applies the calls of each connection in order: a store that was given up over one
/// connection may be shown after a delete over another was acknowledged.
pub fn given_up_is_stale()
    ensures { GivenUpIsStale }
{}

/// Though deletes clear what later commands take, no call fails, and each proxy keeps its own copies and deletes apart:
/// where a get copies at one proxy while a delete is under way at another, a later get may show what was deleted.
pub fn fleet_copies_race()
    ensures { FleetCopiesRace }
{}

/// A tree that may follow another at one proxy may not stand beside it in a fleet: deletes by each have to clear what
/// reads by the other take.
pub fn one_way_is_stale()
    ensures { OneWayIsStale }
{}

/// With a single server: once a delete was acknowledged that began when a set was over, what had failed of the set must
/// not be applied; a run that goes on by it may be stale.
pub fn untimely_is_stale()
    ensures { UntimelyIsStale }
{}

/// Where a server answers on a key of which it owes a call, one that had failed and that the proxy answered itself, a run
/// may be stale.
pub fn owed_races()
    ensures { OwedRaces }
{}
