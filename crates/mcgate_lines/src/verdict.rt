//! The line of a verdict, and the forms in which one is printed.

ghost use Rattle.std.specs.Prelude.{◌≡◌, OnOk};
ghost use Rattle.std.specs.Io.KnownBytes.{Appends};
ghost use Rattle.gate_gaps.specs.Names.{op_name, delete_name, server_address};
ghost use Rattle.mcgate_lines.specs.Verdict.{accepted_line, ask_fields, place_fields, gap_fields, gap_line, judged_line};

use gate_check::{Gap, Reason};
use gate_coverage::prefixes::prefix_text;
use gate_gaps::names::{address_of, delete_name, op_name};
use route_json::Servers;
use route_tree::Place;
use std::fmt::Display;
use std::io::Write;
use std::{fmt, io};
use text_words::escapes::Escaped;

/// The form in which a verdict is printed.
#[derive(Clone, Copy, PartialEq, Eq)]
pub enum Form {
    /// The verdict, and the script that shows a gap.
    Lines,
    /// The verdict, the script that shows a gap, and then words.
    Explained,
    /// The tree as a graph, a gap marked.
    Picture,
}

/// Writes the line of an accepted configuration: `accepted places=N`, with the number of its places. The format is mcgate's own.
pub fn write_accepted<W: Write>(places: u32, out: &mut W) -> io::Result<()>
    ensures { OnOk result (Appends (W.contents out.old) (W.contents out.new) (accepted_line places)) }
{
    writeln!(out, "accepted places={places}")
}

// Writes which server a gap leaves, and what is asked there, the address in the escapes.
fn write_ask<W: Write>(servers: &Servers, gap: &Gap, out: &mut W) -> io::Result<()>
    ensures { OnOk result (Appends (W.contents out.old) (W.contents out.new) (ask_fields (server_address servers.now gap.now.server) (op_name gap.now.op) (delete_name gap.now.deleting))) }
{
    let address = Escaped(address_of(servers, gap.server).as_bytes());
    let read = op_name(gap.op);
    let delete = delete_name(gap.deleting);
    write!(out, " server={address} read={read} delete={delete}")
}

/// Writes a place and ends the line: ` prefix=P residue=R/L`. The prefix is in the escapes, and empty where there is none. The format
/// is mcgate's own.
pub fn write_place<W: Write>(place: &Place, out: &mut W) -> io::Result<()>
    ensures { OnOk result (Appends (W.contents out.old) (W.contents out.new) (place_fields place.now)) }
{
    let prefix = Escaped(prefix_text(&place.prefix));
    let residue = place.residue;
    let modulus = place.modulus;
    writeln!(out, " prefix={prefix} residue={residue}/{modulus}")
}

/// Writes the fields of a gap and ends the line: ` server=A read=OP delete=D prefix=P residue=R/L`.
pub fn write_gap<W: Write>(servers: &Servers, gap: &Gap, out: &mut W) -> io::Result<()>
    ensures { OnOk result (Appends (W.contents out.old) (W.contents out.new) (gap_fields servers.now gap.now)) }
{
    write_ask(servers, gap, out)?;
    write_place(&gap.place, out)?;
    Ok(())
}

fn write_gap_line<W: Write>(servers: &Servers, gap: &Gap, out: &mut W) -> io::Result<()>
    ensures { OnOk result (Appends (W.contents out.old) (W.contents out.new) (gap_line servers.now gap.now)) }
{
    write!(out, "refused:")?;
    write_gap(servers, gap, out)?;
    Ok(())
}

/// Writes the line of a configuration that was refused: `refused: server=A read=OP delete=D prefix=P residue=R/L` for a gap,
/// `refused: too many places` or `refused: bad certificate row N`. Running out of memory has no line. The format is mcgate's own.
pub fn write_refusal<W: Write>(servers: &Servers, reason: &Reason, out: &mut W) -> io::Result<()>
    ensures { OnOk result (Appends (W.contents out.old) (W.contents out.new) (judged_line servers.now reason.now)) }
{
    match reason {
        Reason::TooManyPlaces => writeln!(out, "refused: too many places"),
        Reason::BadCertificate(row) => writeln!(out, "refused: bad certificate row {row}"),
        Reason::Uncovered(gap) => write_gap_line(servers, gap, out),
        Reason::NoMemory => Ok(()),
    }
}
