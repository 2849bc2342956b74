//! One event of a script.

ghost use Rattle.std.specs.Prelude.{◌≡◌, ◌<◌, ◌≤◌, pos, ◌≤ℤ◌, List, false, length, IfErr, OnOk, OnErr};
ghost use Rattle.script_events.specs.declared.servers.event.FleetFault.TheVariants.{NoMemory};
ghost use Rattle.script_events.specs.Bad.{bad_in};
ghost use Rattle.script_events.specs.Scripted.{Scripted, Now, Moment, loss_of, scripted_of, transcript_of};
ghost use Rattle.script_events.specs.Servers.{count_of_servers};
ghost use Rattle.script_run.specs.Breaking.{StopsFed};
ghost use Rattle.script_run.specs.Running.{MovesFed, AreStalled, KeepStalled, RunnerRests};
ghost use Rattle.script_run.specs.Stepping.{FedAtOnce, FedAsPiece, FedInPart, Befalls, BreaksOff, IsHeard, RestsAfter, HandsOut, HandsOutAll, HandsSome, AddsOne, AddsRising};

use crate::driver::Runner;
use crate::log::laws::losses_go_on;
use script_events::servers::{FleetFault, Loss, ScriptServers};
use script_events::{Event, Output, PIECE_CUT, Transcript};

// Bytes come at once, and each call that is out has its result.
fn serve(
    runner: &mut Runner,
    servers: &mut ScriptServers,
    client: usize,
    bytes: &[u8],
) -> Result<(), FleetFault>
    ensures ok { OnOk result (FedAtOnce client bytes.now runner.old servers.old runner.new servers.new) }
    ensures count { count_of_servers servers.new ≡ count_of_servers servers.old }
    ensures clients { OnOk result (runner.new.clients ≡ runner.old.clients) }
    ensures rest { OnOk result (RunnerRests runner.new) }
    ensures err { IfErr result (λ fault. FedInPart client bytes.now runner.old servers.old fault servers.new) }
{
    runner.feed(client, bytes)?;
    runner.settle_all(servers)
}

// A piece comes, in cuts: after each, all that is complete is done.
fn piece(
    runner: &mut Runner,
    servers: &mut ScriptServers,
    client: usize,
    bytes: &[u8],
) -> Result<(), FleetFault>
    ensures ok { OnOk result (FedAsPiece client bytes.now runner.old servers.old runner.new servers.new) }
    ensures count { count_of_servers servers.new ≡ count_of_servers servers.old }
    ensures opened { OnOk result ((client < runner.new.clients) × (runner.old.clients ≤ runner.new.clients)) }
    ensures rest { OnOk result (RunnerRests runner.new) }
    ensures err { IfErr result (λ fault. FedInPart client bytes.now runner.old servers.old fault servers.new) }
{
    runner.open(client)?;
    let mut rest = bytes;
    while rest.len() > PIECE_CUT {
        let (cut, more) = rest.split_at(PIECE_CUT);
        serve(runner, servers, client, cut)?;
        rest = more;
    }
    serve(runner, servers, client, rest)
}

// Bytes come, and calls stay out.
fn add(runner: &mut Runner, client: usize, bytes: &[u8]) -> Result<(), FleetFault>
    ensures fed { OnOk result ((servers : ScriptServers) → MovesFed client bytes.now runner.old servers runner.new servers) }
    ensures opened { OnOk result ((client < runner.new.clients) × (runner.old.clients ≤ runner.new.clients)) }
    ensures stalled { OnOk result (AreStalled runner.new) }
    ensures err { IfErr result (λ fault. StopsFed client bytes.now runner.old fault) }
{
    runner.open(client)?;
    runner.add(client, bytes)
}

// Something is lost.
fn lose(runner: &mut Runner, servers: &mut ScriptServers, loss: &Loss)
    ensures lost { Befalls (Now (loss_of loss.now)) runner.old servers.old runner.new servers.new }
    ensures count { count_of_servers servers.new ≡ count_of_servers servers.old }
    ensures same { runner.new ≡ runner.old }
{
    losses_go_on();
    servers.lose(loss);
}

// The time changes.
fn set_clock(runner: &Runner, servers: &mut ScriptServers, moment: &i64)
    requires { pos 0 ≤ℤ moment.now }
    ensures timed { Befalls (Moment moment.now) runner.now servers.old runner.now servers.new }
    ensures count { count_of_servers servers.new ≡ count_of_servers servers.old }
{
    let _unchanged = runner;
    servers.set_moment(*moment);
}

// A client is given its new output, if there is any.
fn give(runner: &mut Runner, client: usize, transcript: &mut Transcript) -> Result<(), FleetFault>
    ensures ok { OnOk result (HandsOut (λ c. client ≡ c) (transcript_of transcript.old) (transcript_of transcript.new) runner.old runner.new) }
    ensures stalled { OnOk result (KeepStalled runner.old runner.new) }
    ensures err { OnErr result (transcript.new.shown.items ≡ transcript.old.shown.items) }
    ensures one { AddsOne client (transcript_of transcript.old) (transcript_of transcript.new) }
    ensures longer { length transcript.old.shown.items ≤ length transcript.new.shown.items }
    ensures clients { runner.new.clients ≡ runner.old.clients }
    ensures fault { IfErr result (λ fault. fault ≡ NoMemory) }
{
    let bytes = runner.take_output(client)?;
    let new = bytes.as_slice();
    if new.is_empty() {
        return Ok(());
    }
    let Ok(client) = u8::try_from(client) else {
        return Err(FleetFault::NoMemory);
    };
    Ok(transcript.shown.push(Output { client, bytes })?)
}

/// Each client is given its new output, in rising number. The only error is running out of memory; what was handed out before stands in
/// the transcript.
pub fn give_all(runner: &mut Runner, transcript: &mut Transcript) -> Result<(), FleetFault>
    ensures ok { OnOk result (HandsOutAll (transcript_of transcript.old) (transcript_of transcript.new) runner.old runner.new) }
    ensures stalled { OnOk result (KeepStalled runner.old runner.new) }
    ensures clients { OnOk result (runner.new.clients ≡ runner.old.clients) }
    ensures err { OnErr result (HandsSome (transcript_of transcript.old) (transcript_of transcript.new) runner.old) }
    ensures rising { AddsRising (transcript_of transcript.old) (transcript_of transcript.new) }
    ensures fault { IfErr result (λ fault. fault ≡ NoMemory) }
    ensures longer { length transcript.old.shown.items ≤ length transcript.new.shown.items }
{
    for client in 0..runner.clients() {
        give(runner, client, transcript)?;
    }
    Ok(())
}

/// What an event is to the clients and the servers, before anything is handed out; what it puts on servers is there already. The
/// errors are running out of memory, and `Spent` where numbers are; clients and servers are as far as they came.
pub fn befall(
    runner: &mut Runner,
    servers: &mut ScriptServers,
    event: &Event,
) -> Result<(), FleetFault>
    requires good { (before : List Scripted) × (bad_in (count_of_servers servers.old) before (scripted_of event.now) ≡ false) }
    ensures ok { OnOk result (Befalls (scripted_of event.now) runner.old servers.old runner.new servers.new) }
    ensures count { count_of_servers servers.new ≡ count_of_servers servers.old }
    ensures heard { OnOk result (IsHeard (scripted_of event.now) runner.old runner.new) }
    ensures rest { OnOk result (RestsAfter (scripted_of event.now) runner.old runner.new) }
    ensures err { IfErr result (λ fault. BreaksOff (scripted_of event.now) runner.old servers.old fault servers.new) }
{
    match event {
        Event::Piece(client, bytes) => piece(runner, servers, *client as usize, bytes.as_slice()),
        Event::Add(client, bytes) => add(runner, *client as usize, bytes.as_slice()),
        Event::Result(server) => runner.settle_first(servers, *server),
        Event::Hold(_, _, _) => Ok(()),
        Event::Fail(turn, manner) => servers.fail(*turn, *manner),
        Event::At(turn, loss) => servers.lose_at(*turn, *loss),
        Event::Now(loss) => {
            lose(runner, servers, loss);
            Ok(())
        }
        Event::Moment(moment) => {
            set_clock(runner, servers, moment);
            Ok(())
        }
    }
}
