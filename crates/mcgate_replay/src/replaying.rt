//! Scripts that are run, and what is printed of them.

ghost use Rattle.std.specs.Prelude.{◌≡◌, ◌≤◌, ◌<◌, Ok, Some, None, IfOk, IfErr, IfSome, MatchOption, length};
ghost use Rattle.script_events.specs.Bad.{first_bad};
ghost use Rattle.script_events.specs.Told.{either, IsReading, text_told, told_over, count_known};
ghost use Rattle.mcgate_replay.specs.Growing.{first_excluded, excluded_by};
ghost use Rattle.mcgate_replay.specs.declared.judging.Judging.TheVariants.{Asked, Begun};
ghost use Rattle.mcgate_replay.specs.Replay.{Replays, ReplaysOver, ReplaysRead, BreaksReadOff, RunsScript, RunsGood, BreaksTreeOff, BreaksScriptOff, HasReloads, IsBrokenOff, Overran, ReplayBreaksOff, replayed_events, reloads_of};

use crate::holds::excluded_event;
use crate::judging::Judging;
use crate::running::{run_accepted, run_any, run_begun};
use core_accepted::Beginnings;
use gate_check::judge;
use mcgate_check::checking::print_refused;
use mcgate_lines::RunFault;
use mcgate_lines::faults::write_config_fault;
use mcgate_lines::status::{BAD_INPUT, answer_of};
use route_json::Config;
use script_events::first_bad_event;
use script_events::text::configured::{ConfiguredScript, ScriptFault};
use script_events::text::printer::write_bad_line;
use script_events::text::reader::{read_events, read_script};
use std::alloc::Global;
use std::io::Write;

// Runs a script if the gate accepts its first tree, or else writes why it is refused. At most so many trees are held.
fn run_gated<W: Write>(
    alloc: Global,
    most: u32,
    script: &ConfiguredScript,
    out: &mut W,
) -> Result<u8, RunFault>
    requires { HasReloads script.now }
    ensures ok { IfOk result (RunsGood (Asked most) script.now.config (reloads_of script.now) (replayed_events script.now) (W.contents out.old) (W.contents out.new)) }
    ensures err { IfErr result (BreaksTreeOff (Asked most) script.now.config (reloads_of script.now) (replayed_events script.now) (W.contents out.old) (W.contents out.new)) }
{
    let first = script.config.copy(alloc)?;
    match judge(alloc, first) {
        Ok(accepted) => run_accepted(alloc, most, &accepted, script, out),
        Err(refused) => print_refused(&refused.config, &refused.reason, out),
    }
}

// Runs a script, where servers began so, if the gate accepts its first tree, or else writes why it is refused. At most so many trees are held.
fn run_gated_begun<W: Write>(
    alloc: Global,
    begun: Beginnings,
    most: u32,
    script: &ConfiguredScript,
    out: &mut W,
) -> Result<u8, RunFault>
    requires reloads { HasReloads script.now }
    requires holds { first_excluded begun script.now.config 0 (replayed_events script.now) ≡ None }
    ensures ok { IfOk result (RunsGood (Begun begun most) script.now.config (reloads_of script.now) (replayed_events script.now) (W.contents out.old) (W.contents out.new)) }
    ensures err { IfErr result (BreaksTreeOff (Begun begun most) script.now.config (reloads_of script.now) (replayed_events script.now) (W.contents out.old) (W.contents out.new)) }
{
    let first = script.config.copy(alloc)?;
    match judge(alloc, first) {
        Ok(accepted) => run_begun(alloc, begun, most, &accepted, script, out),
        Err(refused) => print_refused(&refused.config, &refused.reason, out),
    }
}

// Runs a script of which no event is bad.
fn run_good<W: Write>(
    alloc: Global,
    judging: Judging,
    script: &ConfiguredScript,
    out: &mut W,
) -> Result<u8, RunFault>
    requires reloads { HasReloads script.now }
    requires holds { excluded_by judging script.now.config (replayed_events script.now) ≡ None }
    ensures ok { IfOk result (RunsGood judging script.now.config (reloads_of script.now) (replayed_events script.now) (W.contents out.old) (W.contents out.new)) }
    ensures err { IfErr result (BreaksTreeOff judging script.now.config (reloads_of script.now) (replayed_events script.now) (W.contents out.old) (W.contents out.new)) }
{
    match judging {
        Judging::Any => run_any(alloc, script, out),
        Judging::Asked(most) => run_gated(alloc, most, script, out),
        Judging::Begun(begun, most) => run_gated_begun(alloc, begun, most, script, out),
    }
}

// The place of the first event that can't be; where each can, of the first that puts on a server what that can't have held at first.
fn bad_event(judging: Judging, script: &ConfiguredScript) -> Option<usize>
    ensures first { MatchOption result ((first_bad (count_known script.now) (replayed_events script.now) ≡ None) × (excluded_by judging script.now.config (replayed_events script.now) ≡ None)) (λ at. Some at ≡ either (first_bad (count_known script.now) (replayed_events script.now)) (excluded_by judging script.now.config (replayed_events script.now))) }
    ensures within { IfSome result (λ at. at < length script.now.script.events.items) }
{
    match first_bad_event(script.server_count(), &script.script) {
        Some(event) => Some(event),
        None => excluded_event(judging, &script.config, &script.script.events),
    }
}

// Runs a script whose lines could be read, or writes the line of the first event that can't be.
fn run_script<W: Write>(
    alloc: Global,
    judging: Judging,
    configured: &ConfiguredScript,
    out: &mut W,
) -> Result<u8, RunFault>
    requires lines { length configured.now.lines.items ≡ length configured.now.script.events.items }
    requires reloads { HasReloads configured.now }
    ensures ok { IfOk result (RunsScript judging configured.now (W.contents out.old) (W.contents out.new)) }
    ensures err { IfErr result (BreaksScriptOff judging configured.now (W.contents out.old) (W.contents out.new)) }
{
    match bad_event(judging, configured) {
        Some(event) => {
            let line = configured.line_of(event).unwrap();
            write_bad_line(line, out)?;
            Ok(BAD_INPUT)
        }
        None => run_good(alloc, judging, configured, out),
    }
}

// Runs the script that was read, or writes the fault of its configuration or the line that is bad.
fn replay_read<W: Write>(
    alloc: Global,
    judging: Judging,
    read: Result<ConfiguredScript, ScriptFault>,
    out: &mut W,
) -> Result<u8, RunFault>
    requires reading { IsReading read }
    requires reloads { IfOk read HasReloads }
    ensures ok { IfOk result (ReplaysRead judging read (W.contents out.old) (W.contents out.new)) }
    ensures err { IfErr result (BreaksReadOff judging read (W.contents out.old) (W.contents out.new)) }
{
    match read {
        Ok(configured) => run_script(alloc, judging, &configured, out),
        Err(ScriptFault::Config(fault)) => {
            write_config_fault(&fault, out)?;
            Ok(BAD_INPUT)
        }
        Err(ScriptFault::BadLine(line)) => {
            write_bad_line(line, out)?;
            Ok(BAD_INPUT)
        }
        Err(ScriptFault::NoMemory) => Err(RunFault::NoMemory),
    }
}

fn replay_text<W: Write>(
    alloc: Global,
    judging: Judging,
    text: &str,
    out: &mut W,
) -> Result<u8, RunFault>
    ensures ok { IfOk result (Replays judging text.now (W.contents out.old) (W.contents out.new)) }
    ensures err { IfErr result (ReplayBreaksOff judging (text_told text.now) (W.contents out.old) (W.contents out.new)) }
{
    replay_read(alloc, judging, read_script(alloc, text), out)
}

fn replay_events<W: Write>(
    alloc: Global,
    judging: Judging,
    config: Config,
    text: &str,
    out: &mut W,
) -> Result<u8, RunFault>
    ensures ok { IfOk result (ReplaysOver judging config text.now (W.contents out.old) (W.contents out.new)) }
    ensures err { IfErr result (ReplayBreaksOff judging (Ok (told_over config text.now)) (W.contents out.old) (W.contents out.new)) }
{
    replay_read(alloc, judging, read_events(alloc, config, text), out)
}

/// Runs a script over servers in memory, and prints the transcript and the report; or the fault of its configuration, or the line
/// that is bad, or why the gate refuses its tree. Faults are looked for in this order, and before anything runs.
///
/// Each command runs through the tree in use when it begins: that of the configuration, and after a reload line that line's, unless
/// the gate refuses it: it judges each new tree against those of all generations, and takes no more of them than are to be held. What became of a reload line stands at its place in
/// the transcript. After a `>` each command has ended before the next line; commands of several clients overlap where `+` and `result` step their calls.
///
/// Where the gate isn't asked every tree runs, and the report tells how many replies were stale. Otherwise the trees are those that it
/// accepts, and none is. Where servers began so, a `hold` that says otherwise is a bad line, of which is told where no other line is
/// bad, and a reload's tree need not clear what no tree before it can have left.
///
/// The answer is the program's exit status, `DONE`, `REFUSED` or `BAD_INPUT`; or else `NO_MEMORY` where memory was refused, or
/// `TOO_MANY_CALLS` where calls had no more numbers: then the transcript so far was printed; or `WRITER` where the output could not be
/// written: then some of the lines may have been.
///
/// Source: mcgate's own.
pub fn run_replay<W: Write>(alloc: Global, judging: Judging, text: &str, out: &mut W) -> u8
    ensures status { result ≤ 5 }
    ensures wrote { result ≤ 2 → Replays judging text.now (W.contents out.old) (W.contents out.new) result }
    ensures refused { result ≡ 3 → IsBrokenOff judging (text_told text.now) (W.contents out.old) (W.contents out.new) }
    ensures too_many { result ≡ 5 → Overran judging (text_told text.now) (W.contents out.old) (W.contents out.new) }
{
    match replay_text(alloc, judging, text, out) {
        Ok(status) => status,
        Err(fault) => answer_of(fault),
    }
}

/// Runs a script of events alone over a configuration from elsewhere, and prints what [`run_replay`] prints of a script that begins with
/// that configuration; but the line of a bad event is counted from 1 in the text of the events. It has no fault of a configuration.
///
/// The answer is that of [`run_replay`], which says also what is judged.
///
/// Source: mcgate's own.
pub fn run_replay_over<W: Write>(
    alloc: Global,
    judging: Judging,
    config: Config,
    text: &str,
    out: &mut W,
) -> u8
    ensures status { result ≤ 5 }
    ensures wrote { result ≤ 2 → ReplaysOver judging config text.now (W.contents out.old) (W.contents out.new) result }
    ensures refused { result ≡ 3 → IsBrokenOff judging (Ok (told_over config text.now)) (W.contents out.old) (W.contents out.new) }
    ensures too_many { result ≡ 5 → Overran judging (Ok (told_over config text.now)) (W.contents out.old) (W.contents out.new) }
{
    match replay_events(alloc, judging, config, text, out) {
        Ok(status) => status,
        Err(fault) => answer_of(fault),
    }
}
