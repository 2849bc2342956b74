//! The line of a reload.

ghost use Rattle.std.specs.Prelude.{◌≡◌, OnOk};
ghost use Rattle.std.specs.Io.KnownBytes.{Appends};
ghost use Rattle.mcgate_lines.specs.Reloads.{loaded_line, unchecked_line, refused_head, kept_gap, kept_line};

use crate::verdict::write_gap;
use gate_check::{Gap, ReloadFault};
use route_json::Servers;
use std::io;
use std::io::Write;

/// Writes the line of a configuration that was loaded: `reload accepted generation=G`. The format is mcgate's own.
pub fn write_loaded<W: Write>(generation: u32, out: &mut W) -> io::Result<()>
    ensures { OnOk result (Appends (W.contents out.old) (W.contents out.new) (loaded_line generation)) }
{
    writeln!(out, "reload accepted generation={generation}")
}

/// Writes the line of a configuration that was loaded and of which no gate was asked: `reload unchecked generation=G`. The format is
/// mcgate's own.
pub fn write_unchecked<W: Write>(generation: u32, out: &mut W) -> io::Result<()>
    ensures { OnOk result (Appends (W.contents out.old) (W.contents out.new) (unchecked_line generation)) }
{
    writeln!(out, "reload unchecked generation={generation}")
}

// Writes the head of a gap's line.
fn write_head<W: Write>(generation: u32, out: &mut W) -> io::Result<()>
    ensures { OnOk result (Appends (W.contents out.old) (W.contents out.new) (refused_head generation)) }
{
    write!(out, "reload refused generation={generation}")
}

// Writes the line of a gap under this generation's tree.
fn write_kept_gap<W: Write>(
    servers: &Servers,
    generation: u32,
    gap: &Gap,
    out: &mut W,
) -> io::Result<()>
    ensures { OnOk result (Appends (W.contents out.old) (W.contents out.new) (kept_gap servers.now generation gap.now)) }
{
    write_head(generation, out)?;
    write_gap(servers, gap, out)?;
    Ok(())
}

/// Writes why a configuration was not loaded, and the one in use is kept: `reload refused generation=G server=A read=OP delete=D
/// prefix=P residue=R/L` for a gap of the new tree under this generation's, `reload refused: too many generations` or `reload refused:
/// too many places`. The servers are the new configuration's. Running out of memory has no line. The format is mcgate's own.
pub fn write_kept<W: Write>(servers: &Servers, fault: &ReloadFault, out: &mut W) -> io::Result<()>
    ensures { OnOk result (Appends (W.contents out.old) (W.contents out.new) (kept_line servers.now fault.now)) }
{
    match fault {
        ReloadFault::TooManyGenerations => writeln!(out, "reload refused: too many generations"),
        ReloadFault::TooManyPlaces(_) => writeln!(out, "reload refused: too many places"),
        ReloadFault::Uncovered(generation, gap) => write_kept_gap(servers, *generation, gap, out),
        ReloadFault::NoMemory => Ok(()),
    }
}
