//! Laws of words and of the scripts that leak.

ghost use Rattle.gate_gaps.specs.Determined.{AreDetermined};
ghost use Rattle.gate_gaps.specs.Beside.{GapsHaveWords};
ghost use Rattle.gate_gaps.specs.Leaking.{GapsLeak, key_alone};
ghost use Rattle.gate_gaps.specs.Bait.{BaitIsTaken};

/// A word of a plain tree for an ask is determined by the outcomes of its calls.
pub fn words_are_determined()
    ensures { AreDetermined }
{}

/// The failing calls before a delete is acknowledged elsewhere, and before a read shows a server's item, are those of
/// words, and a gap has both, an all-sync or a warm-up aside.
pub fn gaps_have_words()
    ensures { GapsHaveWords }
{}

/// Where both numbers of failing calls are computed, a run with these failures, each command alone on its key, isn't fresh.
pub fn gaps_leak()
    ensures { GapsLeak key_alone }
{}

/// A gap has a script that leaks, an all-sync or a warm-up aside: by a delete and a read of a key that its server holds.
pub fn bait_is_taken()
    ensures { BaitIsTaken key_alone }
{}
