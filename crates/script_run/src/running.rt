//! A script that steps its calls, run through trees of routes on servers in memory.

ghost use Rattle.std.specs.Prelude.{◌≡◌, ◌≤◌, ◌++◌, ◌∷◌, ◌↔◌, ℕ, ◌+◌, Bool, List, [], length, drop, map, slice_get, None, IsTrue, IfOk, IfErr, OnOk, OnErr, MatchResult};
ghost use Rattle.script_events.specs.declared.servers.event.FleetFault.TheVariants.{NoMemory};
ghost use Rattle.route_tree.specs.Route.{Route};
ghost use Rattle.route_json.specs.declared.addresses.servers.TheConstants.{MAX_SERVERS};
ghost use Rattle.script_events.specs.Bad.{first_bad, Refuses};
ghost use Rattle.script_events.specs.Reloads.{ReloadsInOrder, is_refused};
ghost use Rattle.script_events.specs.Scripted.{Scripted, scripted_of, transcript_of, drive_fault_of};
ghost use Rattle.script_events.specs.Servers.{AreNewServers, count_of_servers};
ghost use Rattle.script_run.specs.Running.{kept_of};
ghost use Rattle.script_run.specs.Driving.{DrivesStepped, EndsStepped, AreMarks};
ghost use Rattle.script_run.specs.Stepping.{HasStood, TakesUp, Loads, LoadsInPart, StopsPart, IsDue};

use crate::driver::Runner;
use crate::events::{befall, give_all};
use crate::holding::hold_all;
use crate::log::laws::{nothing_stands, standing_says};
use route_json::Config;
use script_events::servers::{FleetFault, ScriptServers};
use script_events::{DriveFault, Event, Reload, Report, Script, Transcript, first_bad_event};
use std::alloc::Global;

// Whether the reload of this number comes before the event of this place.
fn is_due(reloads: &[Reload], loaded: usize, next: usize) -> bool
    ensures { IsTrue result ↔ IsDue reloads.now loaded next }
{
    loaded < reloads.len() && reloads[loaded].at <= next
}

// Whether the reload of this number is refused.
fn is_refused(refused: &[bool], loaded: usize) -> bool
    ensures { result ≡ is_refused (slice_get refused.now loaded) }
{
    match refused.get(loaded) {
        Some(refused) => *refused,
        None => false,
    }
}

// Notes how much was handed out before a reload.
fn mark(marks: &mut Vec<usize>, shown: usize) -> Result<(), FleetFault>
    ensures ok { OnOk result (marks.new.items ≡ marks.old.items ++ shown ∷ []) }
    ensures err { OnErr result (marks.new.items ≡ marks.old.items) }
    ensures fault { IfErr result (λ fault. fault ≡ NoMemory) }
{
    match marks.push(shown) {
        Ok(()) => Ok(()),
        Err(_) => Err(FleetFault::NoMemory),
    }
}

// The reload's tree is loaded, unless it is refused.
fn take_over(runner: &mut Runner, reload: &Reload, refused: bool) -> Result<(), FleetFault>
    ensures takes { OnOk result (TakesUp refused reload.now.config.tree runner.old runner.new) }
    ensures clients { runner.new.clients ≡ runner.old.clients }
    ensures fault { IfErr result (λ fault. fault ≡ NoMemory) }
{
    if refused {
        return Ok(());
    }
    runner.load(reload.config.tree())
}

// Each reload that comes before the event of this place is loaded, unless it is refused: how many came so far. Of each it is noted how
// much was handed out before.
fn load_due(
    runner: &mut Runner,
    reloads: &[Reload],
    refused: &[bool],
    before: usize,
    next: usize,
    shown: usize,
    marks: &mut Vec<usize>,
) -> Result<usize, FleetFault>
    requires within { before ≤ length reloads.now }
    requires order { (end servers : ℕ) × ReloadsInOrder end servers next (drop before reloads.now) }
    ensures ok { IfOk result (λ loaded. Loads refused.now reloads.now next shown before loaded marks.old.items marks.new.items runner.old runner.new) }
    ensures clients { OnOk result (runner.new.clients ≡ runner.old.clients) }
    ensures order { IfOk result (λ loaded. (end servers : ℕ) → ReloadsInOrder end servers next (drop before reloads.now) → ReloadsInOrder end servers (next + 1) (drop loaded reloads.now)) }
    ensures within { IfOk result (λ loaded. loaded ≤ length reloads.now) }
    ensures due { IfOk result (λ loaded. IsDue reloads.now loaded next → ⊥) }
    ensures marked { IfOk result (λ loaded. length marks.old.items ≡ before → length marks.new.items ≡ loaded) }
    ensures marks { AreMarks shown marks.old.items → AreMarks shown marks.new.items }
    ensures err { OnErr result (LoadsInPart refused.now reloads.now next shown before marks.old.items marks.new.items runner.old) }
    ensures fault { IfErr result (λ fault. fault ≡ NoMemory) }
{
    standing_says();
    let mut loaded = before;
    while is_due(reloads, loaded, next) {
        mark(marks, shown)?;
        take_over(runner, &reloads[loaded], is_refused(refused, loaded))?;
        loaded += 1;
    }
    Ok(loaded)
}

// What is still out has its result, and all is handed out.
fn finish(
    runner: &mut Runner,
    servers: &mut ScriptServers,
    transcript: &mut Transcript,
) -> Result<Report, FleetFault>
    ensures ok { IfOk result (λ report. (first : Route) (refused : List Bool) (reloads : List Reload) (events : List Scripted) (marks : List ℕ) → HasStood first refused reloads events (length reloads) [] (transcript_of transcript.old) marks runner.old.clients (kept_of runner.old servers.old) → DrivesStepped first refused reloads events (transcript_of transcript.new) marks report) }
    ensures err { IfErr result (λ fault. (first : Route) (refused : List Bool) (reloads : List Reload) (events : List Scripted) (marks : List ℕ) → HasStood first refused reloads events (length reloads) [] (transcript_of transcript.old) marks runner.old.clients (kept_of runner.old servers.old) → StopsPart first refused reloads events (transcript_of transcript.new) marks servers.new fault) }
    ensures longer { length transcript.old.shown.items ≤ length transcript.new.shown.items }
{
    standing_says();
    runner.settle_all(servers)?;
    give_all(runner, transcript)?;
    let tally = runner.tally();
    Ok(Report {
        commands: tally.commands,
        calls: servers.calls(),
        stale: tally.stale,
    })
}

// The events of a script, and its reloads, each at its place; what it puts on servers is there already.
fn drive_over(
    runner: &mut Runner,
    reloads: &[Reload],
    refused: &[bool],
    servers: &mut ScriptServers,
    events: &[Event],
    transcript: &mut Transcript,
    marks: &mut Vec<usize>,
) -> Result<Report, FleetFault>
    requires good { first_bad (count_of_servers servers.old) (map scripted_of events.now) ≡ None }
    requires order { ReloadsInOrder (length events.now) (count_of_servers servers.old) 0 reloads.now }
    requires marks { marks.old.items ≡ [] }
    ensures ok { IfOk result (λ report. (first : Route) → HasStood first refused.now reloads.now (map scripted_of events.now) 0 (map scripted_of events.now) (transcript_of transcript.old) marks.old.items runner.old.clients (kept_of runner.old servers.old) → DrivesStepped first refused.now reloads.now (map scripted_of events.now) (transcript_of transcript.new) marks.new.items report) }
    ensures err { IfErr result (λ fault. (first : Route) → HasStood first refused.now reloads.now (map scripted_of events.now) 0 (map scripted_of events.now) (transcript_of transcript.old) marks.old.items runner.old.clients (kept_of runner.old servers.old) → StopsPart first refused.now reloads.now (map scripted_of events.now) (transcript_of transcript.new) marks.new.items servers.new fault) }
    ensures marked { OnOk result (length marks.new.items ≡ length reloads.now) }
    ensures marks { AreMarks (length transcript.new.shown.items) marks.new.items }
{
    standing_says();
    let mut loaded = 0;
    for next in 0..events.len() {
        let shown = transcript.shown.as_slice();
        loaded = load_due(runner, reloads, refused, loaded, next, shown.len(), marks)?;
        befall(runner, servers, &events[next])?;
        give_all(runner, transcript)?;
    }
    let shown = transcript.shown.as_slice();
    let _all = load_due(
        runner,
        reloads,
        refused,
        loaded,
        events.len(),
        shown.len(),
        marks,
    )?;
    finish(runner, servers, transcript)
}

fn drop_runner(_runner: Runner) {}

// A script of which no event is bad, and its reloads.
fn drive_events(
    alloc: Global,
    config: &Config,
    reloads: &[Reload],
    refused: &[bool],
    servers: &mut ScriptServers,
    script: &Script,
    transcript: &mut Transcript,
    marks: &mut Vec<usize>,
) -> Result<Report, FleetFault>
    requires good { first_bad (count_of_servers servers.old) (map scripted_of script.now.events.items) ≡ None }
    requires order { ReloadsInOrder (length script.now.events.items) (count_of_servers servers.old) 0 reloads.now }
    requires new { AreNewServers (count_of_servers servers.old) servers.old }
    requires transcript { transcript.old.shown.items ≡ [] }
    requires marks { marks.old.items ≡ [] }
    ensures ok { IfOk result (λ report. DrivesStepped config.now.tree refused.now reloads.now (map scripted_of script.now.events.items) (transcript_of transcript.new) marks.new.items report) }
    ensures err { IfErr result (StopsPart config.now.tree refused.now reloads.now (map scripted_of script.now.events.items) (transcript_of transcript.new) marks.new.items servers.new) }
    ensures marked { OnOk result (length marks.new.items ≡ length reloads.now) }
    ensures marks { AreMarks (length transcript.new.shown.items) marks.new.items }
{
    nothing_stands();
    let events = script.events.as_slice();
    hold_all(servers, events)?;
    let mut runner = Runner::new(alloc, config.tree().copy()?);
    let done = drive_over(
        &mut runner,
        reloads,
        refused,
        servers,
        events,
        transcript,
        marks,
    );
    drop_runner(runner);
    done
}

fn drive_fault(fault: FleetFault) -> DriveFault
    ensures { result ≡ drive_fault_of fault }
{
    match fault {
        FleetFault::NoMemory => DriveFault::NoMemory,
        FleetFault::Spent => DriveFault::Spent,
    }
}

/// Runs a script that may step its calls on servers in memory: the commands of different clients overlap, each alone on its key, and
/// each call has its result as the script's events say. Each command runs through the tree in use when it begins: that of the
/// configuration, and after each of the reloads that reload's, unless it is refused. Reloads of which `refused` says nothing aren't.
///
/// What is handed out stands in the transcript. Of each reload it notes how many outputs were there before it; the reloads stand in the
/// order of their places, and there is a server for each of all configurations'.
///
/// The error is `BadEvent` exactly where an event can't be, with the place of the first one, and then nothing has happened: the servers
/// are as they were. After running out of memory the transcript holds what was handed out before, and after `Spent` too, which comes only
/// where none of the next 2^32 calls could be numbered, or 2^64 - 1 commands have begun.
///
/// Source: mcgate's own.
pub fn drive_stepped(
    alloc: Global,
    config: &Config,
    reloads: &[Reload],
    refused: &[bool],
    servers: &mut ScriptServers,
    script: &Script,
    transcript: &mut Transcript,
    marks: &mut Vec<usize>,
) -> Result<Report, DriveFault>
    requires servers { length config.now.servers ≤ count_of_servers servers.old }
    requires few { count_of_servers servers.old ≤ MAX_SERVERS }
    requires order { ReloadsInOrder (length script.now.events.items) (count_of_servers servers.old) 0 reloads.now }
    requires new { AreNewServers (count_of_servers servers.old) servers.old }
    requires transcript { transcript.old.shown.items ≡ [] }
    requires marks { marks.old.items ≡ [] }
    ensures refuses { MatchResult result (λ _. first_bad (count_of_servers servers.old) (map scripted_of script.now.events.items) ≡ None) (Refuses (count_of_servers servers.old) script.now) }
    ensures ok { IfOk result (λ report. DrivesStepped config.now.tree refused.now reloads.now (map scripted_of script.now.events.items) (transcript_of transcript.new) marks.new.items report) }
    ensures fault { IfErr result (λ fault. EndsStepped config.now.tree refused.now reloads.now (map scripted_of script.now.events.items) transcript.new marks.new.items servers.old servers.new fault) }
    ensures marked { OnOk result (length marks.new.items ≡ length reloads.now) }
    ensures marks { AreMarks (length transcript.new.shown.items) marks.new.items }
{
    if let Some(index) = first_bad_event(servers.servers() as u32, script) {
        return Err(DriveFault::BadEvent(index));
    }
    match drive_events(
        alloc, config, reloads, refused, servers, script, transcript, marks,
    ) {
        Ok(report) => Ok(report),
        Err(fault) => Err(drive_fault(fault)),
    }
}
