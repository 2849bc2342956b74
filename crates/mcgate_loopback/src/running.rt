//! Scripts that are run over TCP, and what is printed of them.

ghost use Rattle.std.specs.Prelude.{◌≡◌, ◌≤◌, IfOk, IfErr, length};
ghost use Rattle.mcgate_lines.specs.Faults.{IsNoOverrun};
ghost use Rattle.script_events.specs.Told.{IsReading};
ghost use Rattle.mcgate_loopback.specs.Running.{WritesRun, LoopbackBreaksOff, LoopbackRuns, LoopbackRunsScript, RunsRead, RunsLoopback};

use crate::ends::{Counts, Loop, drive};
use crate::entries::{RunEntry, write_entries};
use crate::printing::write_done;
use gate_check::{Accepted, judge};
use mcgate_check::checking::print_refused;
use mcgate_lines::RunFault;
use mcgate_lines::faults::write_config_fault;
use mcgate_lines::status::{BAD_INPUT, DONE, answer_of};
use script_events::text::configured::{ConfiguredScript, ScriptFault};
use script_events::text::printer::write_bad_line;
use script_events::text::reader::read_script;
use script_events::{Reload, first_bad_event};
use std::io;
use std::io::{ErrorKind, Write};
use std::net::Net;
use std::rt::Clock;

// What breaks a run off where an end has failed.
fn fault_of(error: &io::Error) -> RunFault
    ensures { IsNoOverrun result }
{
    match error.kind() {
        ErrorKind::OutOfMemory => RunFault::NoMemory,
        _ => RunFault::Writer,
    }
}

// Runs the events and the reloads over the ends. What is to be shown stands in the list, also where the run was broken off.
fn drive_ends<R: Net + Clock + AllocGlobal>(
    rt: &R,
    accepted: Accepted,
    script: &ConfiguredScript,
    flushes_new: bool,
    most: u32,
    shown: &mut Vec<RunEntry>,
) -> io::Result<Counts> {
    let servers = script.server_count() as usize;
    let mut ends = Loop::open(rt, accepted, servers, flushes_new, most)?;
    drive(
        rt,
        &mut ends,
        &script.script,
        script.reloads.as_slice(),
        shown,
    )?;
    Ok(ends.counts())
}

// Writes what a script shows, and the last line where it ran to its end.
fn write_driven<W: Write>(
    driven: &io::Result<Counts>,
    reloads: &[Reload],
    shown: &[RunEntry],
    out: &mut W,
) -> Result<u8, RunFault>
    ensures ok { IfOk result (λ status. (status ≡ 0) × WritesRun reloads.now (W.contents out.old) (W.contents out.new)) }
    ensures err { IfErr result (LoopbackBreaksOff (W.contents out.old) (W.contents out.new)) }
{
    write_entries(reloads, shown, out)?;
    match driven {
        Ok(counts) => {
            write_done(*counts, out)?;
            Ok(DONE)
        }
        Err(error) => Err(fault_of(error)),
    }
}

// Runs a script through an accepted tree.
fn run_accepted<R: Net + Clock + AllocGlobal, W: Write>(
    rt: &R,
    accepted: Accepted,
    script: &ConfiguredScript,
    flushes_new: bool,
    most: u32,
    out: &mut W,
) -> Result<u8, RunFault>
    ensures ok { IfOk result (λ status. (status ≡ 0) × WritesRun script.now.reloads.items (W.contents out.old) (W.contents out.new)) }
    ensures err { IfErr result (LoopbackBreaksOff (W.contents out.old) (W.contents out.new)) }
{
    let mut shown = Vec::new(rt.alloc());
    let driven = drive_ends(rt, accepted, script, flushes_new, most, &mut shown);
    write_driven(&driven, script.reloads.as_slice(), shown.as_slice(), out)
}

// Runs a script through its tree if the gate accepts it, or else writes why it is refused.
fn run_good<R: Net + Clock + AllocGlobal, W: Write>(
    rt: &R,
    script: &ConfiguredScript,
    flushes_new: bool,
    most: u32,
    out: &mut W,
) -> Result<u8, RunFault>
    ensures ok { IfOk result (LoopbackRuns script.now.config script.now.reloads.items (W.contents out.old) (W.contents out.new)) }
    ensures err { IfErr result (LoopbackBreaksOff (W.contents out.old) (W.contents out.new)) }
{
    let first = script.config.copy(rt.alloc())?;
    match judge(rt.alloc(), first) {
        Ok(accepted) => run_accepted(rt, accepted, script, flushes_new, most, out),
        Err(refused) => print_refused(&refused.config, &refused.reason, out),
    }
}

// Runs a script whose lines could be read, or writes the line of the first event that can't be.
fn run_script<R: Net + Clock + AllocGlobal, W: Write>(
    rt: &R,
    configured: &ConfiguredScript,
    flushes_new: bool,
    most: u32,
    out: &mut W,
) -> Result<u8, RunFault>
    requires { length configured.now.lines.items ≡ length configured.now.script.events.items }
    ensures ok { IfOk result (LoopbackRunsScript configured.now (W.contents out.old) (W.contents out.new)) }
    ensures err { IfErr result (LoopbackBreaksOff (W.contents out.old) (W.contents out.new)) }
{
    match first_bad_event(configured.server_count(), &configured.script) {
        Some(event) => {
            let line = configured.line_of(event).unwrap();
            write_bad_line(line, out)?;
            Ok(BAD_INPUT)
        }
        None => run_good(rt, configured, flushes_new, most, out),
    }
}

// Runs the script that was read, or writes the fault of its configuration or the line that is bad.
fn run_read<R: Net + Clock + AllocGlobal, W: Write>(
    rt: &R,
    read: Result<ConfiguredScript, ScriptFault>,
    flushes_new: bool,
    most: u32,
    out: &mut W,
) -> Result<u8, RunFault>
    requires { IsReading read }
    ensures ok { IfOk result (RunsRead read (W.contents out.old) (W.contents out.new)) }
    ensures err { IfErr result (LoopbackBreaksOff (W.contents out.old) (W.contents out.new)) }
{
    match read {
        Ok(configured) => run_script(rt, &configured, flushes_new, most, out),
        Err(ScriptFault::Config(fault)) => {
            write_config_fault(&fault, out)?;
            Ok(BAD_INPUT)
        }
        Err(ScriptFault::BadLine(line)) => {
            write_bad_line(line, out)?;
            Ok(BAD_INPUT)
        }
        Err(ScriptFault::NoMemory) => Err(RunFault::NoMemory),
    }
}

fn run_text<R: Net + Clock + AllocGlobal, W: Write>(
    rt: &R,
    text: &str,
    flushes_new: bool,
    most: u32,
    out: &mut W,
) -> Result<u8, RunFault>
    ensures ok { IfOk result (RunsLoopback text.now (W.contents out.old) (W.contents out.new)) }
    ensures err { IfErr result (LoopbackBreaksOff (W.contents out.old) (W.contents out.new)) }
{
    run_read(rt, read_script(rt.alloc(), text), flushes_new, most, out)
}

/// Runs a script with proxy, clients and servers as ends of TCP connections on 127.0.0.1, all in this thread, and prints what each
/// client gets, what became of each reload, and how many commands and calls there were; or the fault of its configuration, or the line that is bad, or why the gate
/// refuses its tree. Faults are looked for in this order, and before anything runs.
///
/// Ports are those that the system picks, whatever the configuration's addresses say. A server answers when the script says so: after a piece each that was
/// asked, the least first, so that calls are made in the order in which a replay makes them. One that is to fail before it is applied is cut off; of one that is to fail after
/// that the answer comes too late: the link is dropped before. Of one that is to be cut the first bytes come, and junk in an answer's
/// place, and then the server ends the link. What servers hold, lose, and take for the time is set directly. Where new servers are to be flushed,
/// each that a reload brings is emptied by `flush_all` before its first call, and reloads are judged by that. So many configurations are held
/// at most, and a further one is refused.
///
/// The answer is the program's exit status, `DONE`, `REFUSED` or `BAD_INPUT`; or else `NO_MEMORY` where memory was refused: then
/// nothing was printed, or some of what clients got; or `WRITER` where the output could not be written, or a socket failed.
///
/// Source: mcgate's own.
pub fn run_loopback<R: Net + Clock + AllocGlobal, W: Write>(
    rt: &R,
    text: &str,
    flushes_new: bool,
    most: u32,
    out: &mut W,
) -> u8
    ensures status { result ≤ 4 }
    ensures wrote { result ≤ 2 → RunsLoopback text.now (W.contents out.old) (W.contents out.new) result }
    ensures refused { result ≡ 3 → LoopbackBreaksOff (W.contents out.old) (W.contents out.new) RunFault.NoMemory }
{
    match run_text(rt, text, flushes_new, most, out) {
        Ok(status) => status,
        Err(fault) => answer_of(fault),
    }
}
