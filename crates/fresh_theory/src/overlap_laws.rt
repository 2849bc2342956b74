//! The laws of a log of overlapping commands, for every protocol, all words and all opening items.

ghost use Rattle.fresh_theory.specs.OverlapLaws.{OverlapHasRun, OverlapReadsStreams, OverlapWritesSoFar, OverlapWritesAll, OverlapRepliesInOrder, OverlapGoesOn, OverlapIsFresh, OverlapIsFreshByNumber, OverlapCountsStale, OverlapKeepsOn, OverlapKeepsOrder, OverlapReloads, Course, Change, no_course, no_change};
ghost use Rattle.fresh_theory.specs.ScriptLaws.{Stage, ScriptHasCore, no_stage};
ghost use Rattle.std.specs.Prelude.{ℕ, List, Option, None};
ghost use Rattle.mc_types.specs.declared.ask.Ask.{Ask};
ghost use Rattle.mc_types.specs.Items.{Item};
ghost use Rattle.fresh_runs.specs.Calls.{Words};
ghost use Rattle.fresh_runs.specs.Protocol.{Protocol, silence};

use std::marker::Brand;

/// What a log is of: a protocol, the words that commands may have, which of them bar which others from their key, and
/// what servers hold at first. A caller picks them at the marker type `Brand`.
pub trait SharedSetting {
    ghost protocol: { Protocol };

    ghost words: { Words };

    ghost bars: { ℕ → Ask → ℕ → Ask → Type 0 };

    ghost opening: { ℕ → List ℕ → Option Item };
}

impl SharedSetting for Brand {
    ghost protocol = { silence };

    ghost words = { λ number ask calls reply from. ⊥ };

    ghost bars = { λ number ask other client. ⊥ };

    ghost opening = { λ server key. None };
}

/// A log that follows has a run.
pub fn overlap_has_run<S: SharedSetting>()
    ensures { OverlapHasRun S.protocol S.words S.bars S.opening }
{}

/// The messages of a client that ask nothing more are those of all its bytes joined.
pub fn overlap_reads_streams<S: SharedSetting>()
    ensures { OverlapReadsStreams S.protocol S.words S.bars S.opening }
{}

/// At any time a client's output is what was done of its messages.
pub fn overlap_writes_so_far<S: SharedSetting>()
    ensures { OverlapWritesSoFar S.protocol S.words S.bars S.opening }
{}

/// Where nothing is left to do, a client was given what its messages and the replies of their commands show.
pub fn overlap_writes_all<S: SharedSetting>()
    ensures { OverlapWritesAll S.protocol S.words S.bars S.opening }
{}

/// The replies that a client was shown are those of its commands, in the order in which it asked them.
pub fn overlap_replies_in_order<S: SharedSetting>()
    ensures { OverlapRepliesInOrder S.protocol S.words S.bars S.opening }
{}

/// Two moments, for the law of what goes on; a caller picks them at the marker type `Brand`.
pub trait HasCourse {
    ghost course: { Course };
}

impl HasCourse for Brand {
    ghost course = { no_course };
}

/// A moment and other words, for the law of reloads.
pub trait HasChange {
    ghost change: { Change };
}

impl HasChange for Brand {
    ghost change = { no_change };
}

/// Entries that may come one after another are more of each log that led there.
pub fn overlap_goes_on<C: HasCourse>()
    ensures { OverlapGoesOn C.course }
{}

/// With other words from the next number on each log leads where it led.
pub fn overlap_reloads<C: HasChange>()
    ensures { OverlapReloads C.change }
{}

/// Where deletes clear what later commands take, and nobody else writes the servers, the run is fresh.
pub fn overlap_is_fresh<S: SharedSetting>()
    ensures { OverlapIsFresh S.protocol S.words S.bars S.opening }
{}

/// Where each command has its key alone, the run is fresh by numbers too: later is a greater number.
pub fn overlap_is_fresh_by_number<S: SharedSetting>()
    ensures { OverlapIsFreshByNumber S.protocol S.words S.bars S.opening }
{}

/// Where each command has its key alone, stale replies are counted by the last acknowledged delete of a key.
pub fn overlap_counts_stale<S: SharedSetting>()
    ensures { OverlapCountsStale S.protocol S.words S.bars S.opening }
{}

/// A command is under way until it has its reply.
pub fn overlap_keeps_on<S: SharedSetting>()
    ensures { OverlapKeepsOn S.protocol S.words S.bars S.opening }
{}

/// A client has one command on a key under way at a time.
pub fn overlap_keeps_order<S: SharedSetting>()
    ensures { OverlapKeepsOrder S.protocol S.words S.bars S.opening }
{}

/// What a script's log is of; a caller picks it at the marker type `Brand`.
pub trait HasStage {
    ghost stage: { Stage };
}

impl HasStage for Brand {
    ghost stage = { no_stage };
}

/// A script's log has a log of the core, in which nobody else writes the servers.
pub fn script_has_core<S: HasStage>()
    ensures { ScriptHasCore S.stage }
{}
