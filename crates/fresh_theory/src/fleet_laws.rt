//! The laws of runs in which servers may apply a call late, or owe it; and of fleets: any number of proxies before the same
//! servers. Each is a function without a body, whose contract is the law.

ghost use Rattle.std.specs.Prelude.{ℕ, List, Option};
ghost use Rattle.mc_types.specs.declared.ask.Ask.{Ask};
ghost use Rattle.mc_types.specs.declared.answer.Answer.{Answer};
ghost use Rattle.fresh_runs.specs.Calls.{Call};
ghost use Rattle.fresh_runs.specs.Single.{server_words};
ghost use Rattle.fresh_runs.specs.Run.{Event};
ghost use Rattle.fresh_runs.specs.Freshness.{nobody_bars};
ghost use Rattle.core_accepted.specs.Late.{WasOver};
ghost use Rattle.core_accepted.specs.LateLaws.{LateIsFresh};
ghost use Rattle.core_accepted.specs.Owed.{OwedIsFresh};
ghost use Rattle.core_accepted.specs.OwedPipes.{OwedPipesAreFresh};
ghost use Rattle.core_accepted.specs.FleetLaws.{FleetIsFresh, SharedFleetIsFresh};
ghost use Rattle.fresh_theory.specs.FleetLaws.{OneProxyIsFresh, StickyIsFresh, BeginlessIsFresh, PatientIsFresh, SettledIsFresh};
ghost use Rattle.fresh_theory.specs.Parts.{PartLaws};
ghost use Rattle.fresh_theory.specs.Mirror.{FleetIsMirrored};

use std::marker::Brand;

/// The words of commands, which of them bar which others from their key, and which stores count as made before a delete; a
/// caller picks them at the marker type `Brand`.
pub trait HasLate {
    ghost words: { ℕ → Ask → List Call → Answer → Option ℕ → Type 0 };

    ghost bars: { ℕ → Ask → ℕ → Ask → Type 0 };

    ghost over: { List Event → ℕ → ℕ → Type 0 };
}

impl HasLate for Brand {
    ghost words = { server_words (λ _. 0) };

    ghost bars = { nobody_bars };

    ghost over = { WasOver };
}

/// Where deletes clear what later commands take, what copies bars deletes of its key, only these commands write the servers,
/// and what had failed is applied in time or never: every run is fresh. In time is before the server answers a delete of the
/// key that began when the store counted as made before it.
pub fn late_is_fresh<W: HasLate>()
    ensures { LateIsFresh W.words W.bars W.over }
{}

/// Where deletes clear what later commands take, what copies bars deletes of its key, only these commands write the servers, what had failed is
/// applied in time or never, and the proxy answers some calls itself, and of a key of which a server owes such a call nothing is answered there until it has
/// lost that: every run is fresh.
pub fn owed_is_fresh<W: HasLate>()
    ensures { OwedIsFresh W.words W.bars }
{}

/// The same over one connection in order to each server: where nothing is sent of a key that a server owes before a delete of it that is of nobody, or a
/// flush, every run is fresh, whenever the server applies what was given up.
pub fn owed_pipes_are_fresh<W: HasLate>()
    ensures { OwedPipesAreFresh W.words W.bars }
{}

/// Where deletes clear what later commands take, at whatever proxy, nothing copies, only the fleet writes the servers,
/// and servers apply what was sent over a connection in order: every run is fresh, but for stores that had failed over
/// another connection than the delete's.
pub fn fleet_is_fresh<W: HasLate>()
    ensures { FleetIsFresh W.words W.bars }
{}

/// Where deletes clear what later commands take, what copies bars deletes of its key, only these commands write the
/// servers, and all of them send over one connection to each server, which applies them in order: every run is fresh,
/// whenever servers apply what was given up.
pub fn one_proxy_is_fresh<W: HasLate>()
    ensures { OneProxyIsFresh W.words W.bars }
{}

/// Where deletes clear what later commands take, what copies bars deletes of its key, only these commands write the
/// servers, all commands on a key send over the same connections, as where each key has its proxy, and servers apply what
/// was sent over a connection in order: every run is fresh, whenever servers apply what was given up.
pub fn sticky_is_fresh<W: HasLate>()
    ensures { StickyIsFresh W.words W.bars }
{}

/// Where deletes clear what later commands take, what copies bars deletes of its key, and no proxy gives up a set, add,
/// replace or cas that a server may still apply: every run is fresh, over any connections.
pub fn beginless_is_fresh<W: HasLate>()
    ensures { BeginlessIsFresh W.words W.bars }
{}

/// Where deletes clear what later commands take, what copies bars deletes of its key, and no proxy gives up a call for
/// which `--stores-wait` awaits the server (what stores, appends, prepends or counts) that it may still apply: every run
/// is fresh, over any connections, and what is applied late changes no data.
pub fn patient_is_fresh<W: HasLate>()
    ensures { PatientIsFresh W.words W.bars }
{}

/// Where deletes clear what later commands take, and nothing copies: whenever servers apply what had failed, and over
/// any connections, every run is fresh with regard to stores none of whose calls had failed.
pub fn settled_is_fresh<W: HasLate>()
    ensures { SettledIsFresh W.words W.bars }
{}

/// With the premise that a call that failed was applied before or is never, any number of proxies is one run; where
/// deletes clear what later commands take, nothing copies, and only the fleet writes the servers, it is fresh.
pub fn shared_fleet_is_fresh<W: HasLate>()
    ensures { SharedFleetIsFresh W.words W.bars }
{}

/// Whatever proxies do by themselves, whatever servers answer and lose, and however connections carry it, put together
/// is the run of a fleet; and it is fresh where deletes clear what later commands take, at whatever proxy, and nothing
/// copies.
pub fn fleet_is_parts<W: HasLate>()
    ensures { PartLaws W.words W.bars }
{}

/// Whatever happens in a fleet, each proxy sees a run of its own in which others write the servers.
pub fn fleet_is_mirrored<W: HasLate>()
    ensures { FleetIsMirrored W.words W.bars }
{}
