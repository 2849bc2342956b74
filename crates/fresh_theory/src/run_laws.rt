//! What runs show: laws that nothing above `fresh_runs` needs. Each is a function without a body, whose contract is the law.

ghost use Rattle.fresh_theory.specs.Stale.{AloneCountsStale, ShownIsHeld};

use fresh_runs::HasWords;

/// Where each command has its key alone, the count of stale replies by numbers is right, and 0 in a fresh run.
pub fn alone_counts_stale<W: HasWords>()
    ensures { AloneCountsStale W.words W.bars }
{}

/// Where replies show what they found, each reply of a run shows nothing, or an item that was held at the call that it
/// names, so that a fresh run speaks of everything that is shown.
pub fn shown_is_held<W: HasWords>()
    ensures { ShownIsHeld W.words W.bars }
{}
