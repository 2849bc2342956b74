//! Configurations that are loaded while a script runs, judged by what servers held at first.

ghost use Rattle.std.specs.Prelude.{◌≡◌, ◌≤◌, [], length, map, None, IfOk, IfErr, OnOk, MatchResult};
ghost use Rattle.route_json.specs.declared.addresses.servers.TheConstants.{MAX_SERVERS};
ghost use Rattle.script_events.specs.Bad.{first_bad, Refuses};
ghost use Rattle.script_events.specs.Reloads.{ReloadsInOrder};
ghost use Rattle.script_events.specs.Scripted.{scripted_of, transcript_of};
ghost use Rattle.script_events.specs.Servers.{AreNewServers, count_of_servers};
ghost use Rattle.script_run.specs.Driving.{AreMarks};
ghost use Rattle.script_run.specs.Reloads.{loading_is_refused};
ghost use Rattle.script_run.specs.Stepped.{StepsFreshly, EndsSteps};
ghost use Rattle.mcgate_replay.specs.Growing.{JudgesNext, JudgesAll, MayNotFollowKnown, AreFollowed, IsFew, held_after, loading_of_unsound};

use core_accepted::Generations;
use gate_check::ReloadFault;
use gate_growth::ledger::Unsound;
use route_json::Config;
use script_events::servers::ScriptServers;
use script_events::{DriveFault, Reload, Report, Script, Transcript};
use script_run::accepted::judging::refused_of;
use script_run::accepted::{Judged, Loading};
use script_run::drive_stepped;
use std::alloc::{AllocError, Global};

// What is told of a configuration that may not follow; nothing where memory was refused. Of too many places no generation is told.
fn refusal(unsound: Unsound) -> Option<Loading>
    ensures { result ≡ loading_of_unsound unsound }
{
    match unsound {
        Unsound::TooManyGenerations => Some(Loading::Refused(ReloadFault::TooManyGenerations)),
        Unsound::TooManyPlaces => Some(Loading::Refused(ReloadFault::TooManyPlaces(0))),
        Unsound::Left(generation, gap) => {
            Some(Loading::Refused(ReloadFault::Uncovered(generation, gap)))
        }
        Unsound::NoMemory => None,
    }
}

// How many generations are held after what became of a reload.
fn held_after(held: u32, loading: &Loading) -> u32
    ensures { result ≡ held_after held loading.now }
{
    match loading {
        Loading::Loaded(number) => *number,
        Loading::Refused(_) => held,
    }
}

// Asks whether one more configuration may follow these, of which there are so many.
fn judge_next(
    alloc: Global,
    most: u32,
    held: u32,
    generations: &mut Generations,
    reload: &Reload,
) -> Result<Loading, AllocError>
    requires held { held ≡ length generations.old.configs }
    requires few { IsFew most held }
    ensures judged { IfOk result (λ loading. JudgesNext (MayNotFollowKnown most) generations.old reload.now loading generations.new) }
    ensures few { IfOk result (λ loading. IsFew most (held_after held loading)) }
{
    if held >= most {
        return Ok(Loading::Refused(ReloadFault::TooManyGenerations));
    }
    let config = reload.config.copy(alloc)?;
    match generations.follow(alloc, config) {
        Ok(number) => Ok(Loading::Loaded(number)),
        Err(unsound) => refusal(unsound).ok_or(AllocError),
    }
}

/// Asks of each reload's configuration in order whether it may follow those so far; what may is in use from there on, until so many are
/// held. The only error is running out of memory: then the first of them may have been accepted.
pub fn judge_all(
    alloc: Global,
    most: u32,
    generations: &mut Generations,
    reloads: &[Reload],
) -> Result<Judged, AllocError>
    requires { length generations.old.configs ≡ 1 }
    ensures judged { IfOk result (λ judged. JudgesAll (MayNotFollowKnown most) generations.old reloads.now judged.loadings.items generations.new) }
    ensures few { OnOk result (IsFew most (length generations.new.configs)) }
    ensures refused { IfOk result (λ judged. judged.refused.items ≡ map loading_is_refused judged.loadings.items) }
{
    let mut held = 1;
    let mut loadings = Vec::new(alloc);
    for reload in reloads {
        let loading = judge_next(alloc, most, held, generations, reload)?;
        held = held_after(held, &loading);
        loadings.push(loading)?;
    }
    let refused = refused_of(alloc, &loadings)?;
    Ok(Judged { loadings, refused })
}

/// Runs a script with reloads of which it was asked whether they may follow, if servers held at first what is said of them: each command
/// through the tree that was accepted last before it began. `first` was in use before the first reload. Trees may be any number.
///
/// All holds that [`drive_stepped`] says, its faults too; and **the run is fresh over all loaded trees**: where a delete of a key was
/// acknowledged, no command that began later shows data that descend from a store of that key by a command before that delete,
/// whichever trees the two ran by; though a tree need not clear what none before it can have left. So the report's `stale` is 0.
///
/// Source: mcgate's own.
pub fn drive_grown(
    alloc: Global,
    first: &Config,
    reloads: &[Reload],
    judged: &Judged,
    servers: &mut ScriptServers,
    script: &Script,
    transcript: &mut Transcript,
    marks: &mut Vec<usize>,
) -> Result<Report, DriveFault>
    requires followed { AreFollowed first.now reloads.now judged.now.loadings.items (map scripted_of script.now.events.items) }
    requires refused { judged.now.refused.items ≡ map loading_is_refused judged.now.loadings.items }
    requires servers { length first.now.servers ≤ count_of_servers servers.old }
    requires few { count_of_servers servers.old ≤ MAX_SERVERS }
    requires order { ReloadsInOrder (length script.now.events.items) (count_of_servers servers.old) 0 reloads.now }
    requires new { AreNewServers (count_of_servers servers.old) servers.old }
    requires transcript { transcript.old.shown.items ≡ [] }
    requires marks { marks.old.items ≡ [] }
    ensures refuses { MatchResult result (λ _. first_bad (count_of_servers servers.old) (map scripted_of script.now.events.items) ≡ None) (Refuses (count_of_servers servers.old) script.now) }
    ensures ok { IfOk result (λ report. StepsFreshly first.now.tree judged.now.loadings.items reloads.now (map scripted_of script.now.events.items) (transcript_of transcript.new) marks.new.items report) }
    ensures fault { IfErr result (λ fault. EndsSteps first.now.tree judged.now.loadings.items reloads.now (map scripted_of script.now.events.items) transcript.new marks.new.items servers.old servers.new fault) }
    ensures marked { OnOk result (length marks.new.items ≡ length reloads.now) }
    ensures marks { AreMarks (length transcript.new.shown.items) marks.new.items }
{
    let refused = judged.refused.as_slice();
    drive_stepped(
        alloc, first, reloads, refused, servers, script, transcript, marks,
    )
}
