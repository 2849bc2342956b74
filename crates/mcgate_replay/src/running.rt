//! Scripts that are run through trees of routes.

ghost use Rattle.std.specs.Prelude.{◌≡◌, ◌∷◌, [], false, map, IfOk, IfErr, None};
ghost use Rattle.gate_check.specs.Gate.{IsCertified};
ghost use Rattle.script_run.specs.Reloads.{loading_is_refused};
ghost use Rattle.mcgate_replay.specs.Growing.{asks_no_gate, first_excluded, AreFollowed};
ghost use Rattle.mcgate_replay.specs.declared.judging.Judging.TheVariants.{Any, Asked, Begun};
ghost use Rattle.mcgate_replay.specs.Replay.{AreLoadings, RunsEvents, BreaksTreeOff, HasReloads, replayed_events, reloads_of};

use crate::growing::{drive_grown, judge_all};
use crate::judging::Judging;
use crate::pairing::judge_pairs;
use crate::transcripts::write_driven;
use core_accepted::{Beginnings, Generations};
use gate_check::Accepted;
use mcgate_lines::RunFault;
use script_events::Transcript;
use script_events::servers::ScriptServers;
use script_events::text::configured::ConfiguredScript;
use script_run::accepted::Judged;
use script_run::drive_stepped;
use std::alloc::Global;
use std::io::Write;

/// Runs a script through trees that no gate has seen, over servers in memory, and writes what came of it.
pub fn run_any<W: Write>(
    alloc: Global,
    script: &ConfiguredScript,
    out: &mut W,
) -> Result<u8, RunFault>
    requires { HasReloads script.now }
    ensures ok { IfOk result (λ status. (status ≡ 0) × RunsEvents Any script.now.config (reloads_of script.now) (replayed_events script.now) (W.contents out.old) (W.contents out.new)) }
    ensures err { IfErr result (BreaksTreeOff Any script.now.config (reloads_of script.now) (replayed_events script.now) (W.contents out.old) (W.contents out.new)) }
{
    let reloads = script.reloads.as_slice();
    let mut servers = ScriptServers::new(alloc, script.server_count())?;
    let mut transcript = Transcript {
        shown: Vec::new(alloc),
    };
    let mut marks = Vec::new(alloc);
    let driven = drive_stepped(
        alloc,
        &script.config,
        reloads,
        &[],
        &mut servers,
        &script.script,
        &mut transcript,
        &mut marks,
    );
    let marks = marks.as_slice();
    write_driven(true, reloads, &[], &driven, &transcript, marks, out)
}

// Runs a script of which the gate was asked, through its tree and those of its reloads that it accepted.
fn run_judged<W: Write>(
    alloc: Global,
    judging: Judging,
    judged: &Judged,
    script: &ConfiguredScript,
    out: &mut W,
) -> Result<u8, RunFault>
    requires asked { asks_no_gate judging ≡ false }
    requires loadings { AreLoadings judging script.now.config (reloads_of script.now) judged.now.loadings.items }
    requires followed { AreFollowed script.now.config (reloads_of script.now) judged.now.loadings.items (replayed_events script.now) }
    requires refused { judged.now.refused.items ≡ map loading_is_refused judged.now.loadings.items }
    requires reloads { HasReloads script.now }
    ensures ok { IfOk result (λ status. (status ≡ 0) × RunsEvents judging script.now.config (reloads_of script.now) (replayed_events script.now) (W.contents out.old) (W.contents out.new)) }
    ensures err { IfErr result (BreaksTreeOff judging script.now.config (reloads_of script.now) (replayed_events script.now) (W.contents out.old) (W.contents out.new)) }
{
    let reloads = script.reloads.as_slice();
    let mut servers = ScriptServers::new(alloc, script.server_count())?;
    let mut transcript = Transcript {
        shown: Vec::new(alloc),
    };
    let mut marks = Vec::new(alloc);
    let driven = drive_grown(
        alloc,
        &script.config,
        reloads,
        judged,
        &mut servers,
        &script.script,
        &mut transcript,
        &mut marks,
    );
    let loadings = judged.loadings.as_slice();
    let marks = marks.as_slice();
    write_driven(false, reloads, loadings, &driven, &transcript, marks, out)
}

/// Runs a script through an accepted tree and those of its reloads that the gate accepts, so many at most, and writes what came of it.
pub fn run_accepted<W: Write>(
    alloc: Global,
    most: u32,
    accepted: &Accepted,
    script: &ConfiguredScript,
    out: &mut W,
) -> Result<u8, RunFault>
    requires accepted { accepted.now ≡ script.now.config ∷ [] }
    requires certified { IsCertified script.now.config.tree }
    requires reloads { HasReloads script.now }
    ensures ok { IfOk result (λ status. (status ≡ 0) × RunsEvents (Asked most) script.now.config (reloads_of script.now) (replayed_events script.now) (W.contents out.old) (W.contents out.new)) }
    ensures err { IfErr result (BreaksTreeOff (Asked most) script.now.config (reloads_of script.now) (replayed_events script.now) (W.contents out.old) (W.contents out.new)) }
{
    let reloads = script.reloads.as_slice();
    let _first = accepted.config();
    let judged = judge_pairs(alloc, most, &script.config, reloads)?;
    run_judged(alloc, Judging::Asked(most), &judged, script, out)
}

/// Runs a script, where servers began so, through an accepted tree and those of its reloads that may follow then, so many at most, and writes what came of it.
pub fn run_begun<W: Write>(
    alloc: Global,
    begun: Beginnings,
    most: u32,
    accepted: &Accepted,
    script: &ConfiguredScript,
    out: &mut W,
) -> Result<u8, RunFault>
    requires accepted { accepted.now ≡ script.now.config ∷ [] }
    requires certified { IsCertified script.now.config.tree }
    requires reloads { HasReloads script.now }
    requires holds { first_excluded begun script.now.config 0 (replayed_events script.now) ≡ None }
    ensures ok { IfOk result (λ status. (status ≡ 0) × RunsEvents (Begun begun most) script.now.config (reloads_of script.now) (replayed_events script.now) (W.contents out.old) (W.contents out.new)) }
    ensures err { IfErr result (BreaksTreeOff (Begun begun most) script.now.config (reloads_of script.now) (replayed_events script.now) (W.contents out.old) (W.contents out.new)) }
{
    let reloads = script.reloads.as_slice();
    let mut generations = Generations::first(alloc, accepted, begun)?;
    let _first = generations.config();
    let judged = judge_all(alloc, most, &mut generations, reloads)?;
    let _last = generations.config();
    run_judged(alloc, Judging::Begun(begun, most), &judged, script, out)
}
