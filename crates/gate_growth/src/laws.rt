//! Laws of generations over servers of which some began with nothing. Each is a function without a body, whose contract is
//! the law; proofs cite its lemma.

ghost use Rattle.std.specs.Prelude.{ℕ};
ghost use Rattle.mc_types.specs.declared.ask.Ask.{Ask};
ghost use Rattle.fresh_runs.specs.Freshness.{nobody_bars};
ghost use Rattle.gate_growth.specs.Grown.{SoundIsSoundSince, ReloadIsSound, SinceIsCovered, GrownGenerationsAreFresh};

use std::marker::Brand;

/// Which commands bar which others from their key; a caller picks them at the marker type `Brand`.
pub trait HasBars {
    ghost bars: { ℕ → Ask → ℕ → Ask → Type 0 };
}

impl HasBars for Brand {
    ghost bars = { nobody_bars };
}

/// Generations that clear all that later ones take are sound whatever servers began with.
pub fn sound_is_sound_since()
    ensures { SoundIsSoundSince }
{}

/// One tree more is sound exactly where the marks of those before it let it follow, at each place of all of them.
pub fn reload_is_sound()
    ensures { ReloadIsSound }
{}

/// Over sound generations each delete clears what later commands take, or nothing was put there before it.
pub fn since_is_covered()
    ensures { SinceIsCovered }
{}

/// Every run over sound generations is fresh, whenever each of them was loaded.
pub fn grown_generations_are_fresh<W: HasBars>()
    ensures { GrownGenerationsAreFresh W.bars }
{}
