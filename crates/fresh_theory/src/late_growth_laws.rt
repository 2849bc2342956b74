//! The laws of runs on grown trees in which a server may apply a call late. Each is a function without a body, whose contract
//! is the law.

ghost use Rattle.std.specs.Prelude.{ℕ, List, Option, None};
ghost use Rattle.mc_types.specs.declared.ask.Ask.{Ask};
ghost use Rattle.mc_types.specs.declared.answer.Answer.{Answer};
ghost use Rattle.mc_types.specs.Items.{Item};
ghost use Rattle.fresh_runs.specs.Calls.{Call};
ghost use Rattle.fresh_runs.specs.Single.{server_words};
ghost use Rattle.fresh_runs.specs.Run.{Event};
ghost use Rattle.fresh_runs.specs.Freshness.{nobody_bars};
ghost use Rattle.core_accepted.specs.Late.{WasOver};
ghost use Rattle.core_accepted.specs.LateGrown.{GrownPipesAreFresh, LateGrownGenerationsAreFresh};
ghost use Rattle.fresh_theory.specs.LateGrown.{LateGrownIsFresh, LateEmptiedIsFresh};

use std::marker::Brand;

/// The words of commands, which of them bar which others from their key, which stores count as made before a delete, and
/// what servers hold before the run; a caller picks them at the marker type `Brand`.
pub trait HasLateOpening {
    ghost words: { ℕ → Ask → List Call → Answer → Option ℕ → Type 0 };

    ghost bars: { ℕ → Ask → ℕ → Ask → Type 0 };

    ghost over: { List Event → ℕ → ℕ → Type 0 };

    ghost opening: { ℕ → List ℕ → Option Item };
}

impl HasLateOpening for Brand {
    ghost words = { server_words (λ _. 0) };

    ghost bars = { nobody_bars };

    ghost over = { WasOver };

    ghost opening = { λ _ _. None };
}

/// Where each server that a later command takes is cleared by the delete, or nothing was stored there before the delete
/// began, what copies bars deletes of its key, only these commands write the servers, and what had failed is applied in
/// time or never: every run is fresh.
pub fn late_grown_is_fresh<W: HasLateOpening>()
    ensures { LateGrownIsFresh W.words W.bars W.over W.opening }
{}

/// A server that is emptied before its first call counts as one that held nothing before the run, also where calls are
/// applied late.
pub fn late_emptied_is_fresh<W: HasLateOpening>()
    ensures { LateEmptiedIsFresh W.words W.bars W.over W.opening }
{}

/// Over one connection to each server, which applies in order what came over it, such a run is fresh, however late what
/// had failed is applied; by numbers, too, where each command has its key alone.
pub fn grown_pipes_are_fresh<W: HasLateOpening>()
    ensures { GrownPipesAreFresh W.words W.bars W.opening }
{}

/// So is every run over sound generations: whenever each of them was loaded, and however late a server applies what had
/// failed under an earlier one.
pub fn late_grown_generations_are_fresh<W: HasLateOpening>()
    ensures { LateGrownGenerationsAreFresh W.bars }
{}
