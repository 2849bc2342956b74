//! What is written of a run: the transcript, with a line for each reload at its place, and the report.

ghost use Rattle.std.specs.Prelude.{◌≡◌, ◌≤◌, ◌+◌, ◌-◌, ◌++◌, ◌⊎◌, IfOk, IfErr, OnOk, map, slice_get};
ghost use Rattle.std.specs.Io.KnownBytes.{Appends};
ghost use Rattle.mcgate_lines.specs.declared.status.RunFault.TheVariants.{Writer};
ghost use Rattle.mcgate_lines.specs.Reloads.{unchecked_line};
ghost use Rattle.script_events.specs.Scripted.{output_shown, transcript_of};
ghost use Rattle.script_events.specs.Printed.{shown_lines};
ghost use Rattle.mcgate_replay.specs.Replay.{loading_line, load_line, transcript_lines, run_fault_of, Wrote, BrokeOff};

use mcgate_lines::RunFault;
use mcgate_lines::reload_lines::{write_kept, write_loaded, write_unchecked};
use mcgate_lines::status::DONE;
use route_json::Servers;
use script_events::text::printer::{write_outputs, write_report};
use script_events::{DriveFault, Output, Reload, Report, Transcript};
use script_run::accepted::Loading;
use std::io;
use std::io::Write;

// Writes what the gate answered to a configuration of these servers.
fn write_loading<W: Write>(servers: &Servers, loading: &Loading, out: &mut W) -> io::Result<()>
    ensures { OnOk result (Appends (W.contents out.old) (W.contents out.new) (loading_line servers.now loading.now)) }
{
    match loading {
        Loading::Loaded(generation) => write_loaded(*generation, out),
        Loading::Refused(fault) => write_kept(servers, fault, out),
    }
}

// Writes that the configuration of this number, counted from 0, was loaded as the next generation. No input of 16,777,216 bytes has
// so many that their generations have no number.
fn write_next<W: Write>(number: usize, out: &mut W) -> Result<(), RunFault>
    ensures ok { OnOk result (Appends (W.contents out.old) (W.contents out.new) (unchecked_line (number + 2))) }
    ensures err { IfErr result (λ fault. fault ≡ Writer) }
{
    if number > 4_294_967_293 {
        return Err(RunFault::Writer);
    }
    Ok(write_unchecked(number as u32 + 2, out)?)
}

// Writes the line of the reload of this number, counted from 0.
fn write_load<W: Write>(
    any: bool,
    number: usize,
    reload: &Reload,
    loadings: &[Loading],
    out: &mut W,
) -> Result<(), RunFault>
    ensures ok { OnOk result (Appends (W.contents out.old) (W.contents out.new) (load_line any number reload.now (slice_get loadings.now number))) }
    ensures err { IfErr result (λ fault. fault ≡ Writer) }
{
    if any {
        return write_next(number, out);
    }
    match loadings.get(number) {
        Some(loading) => Ok(write_loading(reload.config.servers(), loading, out)?),
        None => Ok(()),
    }
}

// Writes outputs, and then the line of the reload of this number, counted from 0.
fn write_then_load<W: Write>(
    outputs: &[Output],
    any: bool,
    number: usize,
    reload: &Reload,
    loadings: &[Loading],
    out: &mut W,
) -> Result<(), RunFault>
    ensures ok { OnOk result (Appends (W.contents out.old) (W.contents out.new) (shown_lines (map output_shown outputs.now) ++ load_line any number reload.now (slice_get loadings.now number))) }
    ensures err { IfErr result (λ fault. fault ≡ Writer) }
{
    write_outputs(outputs, out)?;
    write_load(any, number, reload, loadings, out)
}

fn least(one: usize, other: usize) -> usize
    ensures fits { (result ≤ one) × (result ≤ other) }
    ensures is_one { (result ≡ one) ⊎ (result ≡ other) }
{
    if one < other { one } else { other }
}

// Writes outputs, and the line of each reload before the output of its mark.
fn write_entries<W: Write>(
    any: bool,
    reloads: &[Reload],
    loadings: &[Loading],
    outputs: &[Output],
    marks: &[usize],
    out: &mut W,
) -> Result<(), RunFault>
    ensures ok { OnOk result (Appends (W.contents out.old) (W.contents out.new) (transcript_lines any reloads.now loadings.now (map output_shown outputs.now) marks.now)) }
    ensures err { IfErr result (λ fault. fault ≡ Writer) }
{
    let count = least(marks.len(), reloads.len());
    let mut rest = outputs;
    let mut before = 0;
    let mut number = 0;
    while number < count {
        let mark = marks[number];
        let due = least(mark.saturating_sub(before), rest.len());
        let (shown, later) = rest.split_at(due);
        write_then_load(shown, any, number, &reloads[number], loadings, out)?;
        rest = later;
        before = mark;
        number += 1;
    }
    Ok(write_outputs(rest, out)?)
}

// What a fault of the driver is to the run. No event is bad here.
fn run_fault(fault: DriveFault) -> RunFault
    ensures { result ≡ run_fault_of fault }
{
    match fault {
        DriveFault::BadEvent(_) => RunFault::Writer,
        DriveFault::NoMemory => RunFault::NoMemory,
        DriveFault::Spent => RunFault::TooManyCalls,
    }
}

/// Writes the transcript of a script, and its report where it ran to its end.
pub fn write_driven<W: Write>(
    any: bool,
    reloads: &[Reload],
    loadings: &[Loading],
    driven: &Result<Report, DriveFault>,
    transcript: &Transcript,
    marks: &[usize],
    out: &mut W,
) -> Result<u8, RunFault>
    ensures ok { IfOk result (λ status. (status ≡ 0) × Wrote driven.now (transcript_lines any reloads.now loadings.now (transcript_of transcript.now) marks.now) (W.contents out.old) (W.contents out.new)) }
    ensures err { IfErr result (BrokeOff driven.now (transcript_lines any reloads.now loadings.now (transcript_of transcript.now) marks.now) (W.contents out.old) (W.contents out.new)) }
{
    let outputs = transcript.shown.as_slice();
    match driven {
        Ok(report) => {
            write_entries(any, reloads, loadings, outputs, marks, out)?;
            write_report(report, out)?;
            Ok(DONE)
        }
        Err(fault) => {
            write_entries(any, reloads, loadings, outputs, marks, out)?;
            Err(run_fault(*fault))
        }
    }
}
