//! What a run shows, line by line.

ghost use Rattle.std.specs.Prelude.{OnOk, slice_get};
ghost use Rattle.std.specs.Io.KnownBytes.{Appends};
ghost use Rattle.script_events.specs.Scripted.{output_shown};
ghost use Rattle.script_events.specs.Printed.{shown_line};
ghost use Rattle.mcgate_loopback.specs.Printed.{entry_line, entry_lines, kept_line_of};

use gate_check::ReloadFault;
use mcgate_lines::reload_lines::{write_kept, write_loaded};
use script_events::{Output, Reload};
use std::io;
use std::io::Write;
use text_words::escapes::Escaped;

/// What a run shows.
#[derive(Drop)]
pub enum RunEntry {
    /// New output of a client.
    Shown(Output),
    /// The configuration of a reload is in use, as this generation.
    Loaded(u32),
    /// The configuration of the reload of this number, counted from 0, isn't in use, and the tree in use is kept.
    Kept(usize, ReloadFault),
}

// Writes the line of an output.
fn write_output<W: Write>(output: &Output, out: &mut W) -> io::Result<()>
    ensures { OnOk result (Appends (W.contents out.old) (W.contents out.new) (shown_line (output_shown output.now))) }
{
    let bytes = Escaped(output.bytes.as_slice());
    writeln!(out, "< {} {}", output.client, bytes)
}

// Writes the line of a configuration that wasn't loaded: that of the reload of this number.
fn write_refused<W: Write>(
    reloads: &[Reload],
    number: usize,
    fault: &ReloadFault,
    out: &mut W,
) -> io::Result<()>
    ensures { OnOk result (Appends (W.contents out.old) (W.contents out.new) (kept_line_of (slice_get reloads.now number) fault.now)) }
{
    match reloads.get(number) {
        Some(reload) => write_kept(reload.config.servers(), fault, out),
        None => Ok(()),
    }
}

// Writes the line of an entry.
fn write_entry<W: Write>(reloads: &[Reload], entry: &RunEntry, out: &mut W) -> io::Result<()>
    ensures { OnOk result (Appends (W.contents out.old) (W.contents out.new) (entry_line reloads.now entry.now)) }
{
    match entry {
        RunEntry::Shown(output) => write_output(output, out),
        RunEntry::Loaded(generation) => write_loaded(*generation, out),
        RunEntry::Kept(number, fault) => write_refused(reloads, *number, fault, out),
    }
}

/// Writes a line for each entry; those of configurations that were not loaded name servers of these reloads.
pub fn write_entries<W: Write>(
    reloads: &[Reload],
    entries: &[RunEntry],
    out: &mut W,
) -> io::Result<()>
    ensures { OnOk result (Appends (W.contents out.old) (W.contents out.new) (entry_lines reloads.now entries.now)) }
{
    for entry in entries {
        write_entry(reloads, entry, out)?;
    }
    Ok(())
}
