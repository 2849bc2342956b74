//! Laws of runs. Each is a function without a body, whose contract is the law. No code calls one: proofs cite its lemma.
//! Others, which nothing here needs, stand in the crate `fresh_theory`.

ghost use Rattle.std.specs.Prelude.{ℕ, List, Option};
ghost use Rattle.mc_types.specs.declared.ask.Ask.{Ask};
ghost use Rattle.mc_types.specs.declared.answer.Answer.{Answer};
ghost use Rattle.mc_types.specs.Items.{Item};
ghost use Rattle.fresh_runs.specs.Calls.{Call};
ghost use Rattle.fresh_runs.specs.Single.{server_words};
ghost use Rattle.fresh_runs.specs.Freshness.{nobody_bars, CoveredIsFresh, SharedIsFresh, AloneIsFreshByNumber, SingleServerIsCovered};

use std::marker::Brand;

/// What the laws are of: which calls each command may make, in order, and which reply they give, with the call whose
/// item it shows; and which commands bar which others from their key. A caller picks both at the marker type `Brand`.
pub trait HasWords {
    ghost words: { ℕ → Ask → List Call → Answer → Option ℕ → Type 0 };

    ghost bars: { ℕ → Ask → ℕ → Ask → Type 0 };
}

impl HasWords for Brand {
    ghost words = { server_words (λ _. 0) };

    ghost bars = { nobody_bars };
}

/// Where deletes clear what later commands take, every run in which nobody else writes the servers is fresh, whatever
/// these held before it.
pub fn covered_is_fresh<W: HasWords>()
    ensures { CoveredIsFresh W.words }
{}

/// Where deletes clear what later commands take, every run in which nobody else writes the servers is fresh, also where commands bar
/// others from their keys.
pub fn shared_is_fresh<W: HasWords>()
    ensures { SharedIsFresh W.words W.bars }
{}

/// Where each command has its key alone, and nobody else writes the servers, later is a greater number.
pub fn alone_is_fresh_by_number<W: HasWords>()
    ensures { AloneIsFreshByNumber W.words W.bars }
{}

/// With a single server for each key, deletes clear what later commands take, replies show what they found, and every
/// run is fresh, though no command waits for another.
pub fn single_server_is_covered()
    ensures { SingleServerIsCovered }
{}
