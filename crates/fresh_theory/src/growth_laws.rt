//! Laws of runs on trees that needn't clear what was never stored. Each is a function without a body, whose contract is the
//! law.

ghost use Rattle.std.specs.Prelude.{ℕ, List, Option, None};
ghost use Rattle.mc_types.specs.declared.ask.Ask.{Ask};
ghost use Rattle.mc_types.specs.declared.answer.Answer.{Answer};
ghost use Rattle.mc_types.specs.Items.{Item};
ghost use Rattle.fresh_runs.specs.Calls.{Call};
ghost use Rattle.fresh_runs.specs.Single.{server_words};
ghost use Rattle.fresh_runs.specs.Freshness.{nobody_bars};
ghost use Rattle.fresh_theory.specs.ArbitrarySound.{ArbitraryIsToday};
ghost use Rattle.fresh_theory.specs.Emptied.{EmptiedIsFresh};
ghost use Rattle.fresh_theory.specs.Slots.{GrowingSlotsAreSound};
ghost use Rattle.fresh_theory.specs.UntouchedLaws.{GrownIsFresh, GrownIsFreshByNumber, GrownRunsAreFresh};

use std::marker::Brand;

/// The words of commands, which of them bar which others from their key, and what servers hold before the run; a
/// caller picks them at the marker type `Brand`.
pub trait HasOpening {
    ghost words: { ℕ → Ask → List Call → Answer → Option ℕ → Type 0 };

    ghost bars: { ℕ → Ask → ℕ → Ask → Type 0 };

    ghost opening: { ℕ → List ℕ → Option Item };
}

impl HasOpening for Brand {
    ghost words = { server_words (λ _. 0) };

    ghost bars = { nobody_bars };

    ghost opening = { λ _ _. None };
}

/// Where each server that a later command takes is cleared by the delete, or nothing was stored there before the delete
/// began, and what copies bars deletes of its key, every run in which nobody else writes the servers is fresh.
pub fn grown_is_fresh<W: HasOpening>()
    ensures { GrownIsFresh W.words W.bars W.opening }
{}

/// Where each server that a later command takes is cleared by the delete, or nothing was stored there before the delete began, such a run
/// is fresh by numbers, too, where each command has its key alone.
pub fn grown_is_fresh_by_number<W: HasOpening>()
    ensures { GrownIsFreshByNumber W.words W.bars W.opening }
{}

/// So each run is fresh in which just what copies bars deletes, and by numbers each in which a key has one command at a time.
pub fn grown_runs_are_fresh<W: HasOpening>()
    ensures { GrownRunsAreFresh W.words W.opening }
{}

/// A server that is emptied before its first call counts as one that held nothing before the run.
pub fn emptied_is_fresh<W: HasOpening>()
    ensures { EmptiedIsFresh W.words W.bars W.opening }
{}

/// Where each server may hold anything at the beginning, each tree has to clear all that later ones take.
pub fn arbitrary_is_today()
    ensures { ArbitraryIsToday }
{}

/// A pool whose slots are given, one reload after another, to servers that began with nothing and never had these slots
/// may grow for ever.
pub fn growing_slots_are_sound()
    ensures { GrowingSlotsAreSound }
{}
