//! An explanation as lines, each a comment of a script.

ghost use Rattle.std.specs.Prelude.{◌≡◌, OnOk};
ghost use Rattle.std.specs.Io.KnownBytes.{Appends};
ghost use Rattle.gate_gaps.specs.Names.{server_address};
ghost use Rattle.gate_gaps.specs.Lines.{list_phrase, step_text, steps_text, is_of, member_text, members_text, has_some, row_text, way_front, way_end, way_line, named_text, reads_line, cleared_line, left_line, server_use_lines, explanation_lines};

use crate::explanation::Explanation;
use crate::names::{address_of, delete_name, op_name};
use crate::phrases::{Phrase, text_of};
use crate::pool_words::write_server;
use crate::pools::ConfigPool;
use crate::server_uses::ServerUse;
use crate::ways::{Listed, WayStep};
use gate_coverage::Deleting;
use mc_types::{Op, ServerId};
use route_json::addresses::Servers;
use std::io;
use std::io::Write;
use text_words::escapes::Escaped;

/// Which servers a line names.
#[derive(Clone, Copy)]
pub enum Which {
    Read,
    Cleared,
    Left,
}

fn list_phrase(listed: Listed) -> Phrase
    ensures { result ≡ list_phrase listed }
{
    match listed {
        Listed::AllSync => Phrase::AllSync,
        Listed::Failover => Phrase::Failover,
        Listed::MissFailover => Phrase::MissFailover,
    }
}

// The route and the field of the child.
fn write_step<W: Write>(step: WayStep, out: &mut W) -> io::Result<()>
    ensures { OnOk result (Appends (W.contents out.old) (W.contents out.new) (step_text step)) }
{
    match step {
        WayStep::Child(listed, index) => {
            write!(
                out,
                " {} children[{}] >",
                text_of(list_phrase(listed)),
                index
            )
        }
        WayStep::Cold => write!(out, " {} >", text_of(Phrase::Cold)),
        WayStep::Warm => write!(out, " {} >", text_of(Phrase::Warm)),
        WayStep::Policy(op) => write!(out, " {}.{} >", text_of(Phrase::Policies), op_name(op)),
        WayStep::Default => write!(out, " {} >", text_of(Phrase::Default)),
    }
}

fn write_steps<W: Write>(steps: &[WayStep], out: &mut W) -> io::Result<()>
    ensures { OnOk result (Appends (W.contents out.old) (W.contents out.new) (steps_text steps.now)) }
{
    for step in steps {
        write_step(*step, out)?;
    }
    Ok(())
}

fn write_way_front<W: Write>(
    servers: &Servers,
    server: ServerId,
    op: Op,
    out: &mut W,
) -> io::Result<()>
    ensures { OnOk result (Appends (W.contents out.old) (W.contents out.new) (way_front (server_address servers.now server) op)) }
{
    let server = Escaped(address_of(servers, server).as_bytes());
    let op = op_name(op);
    let can_show = text_of(Phrase::CanShow);
    let holds = text_of(Phrase::Holds);
    write!(out, "# a {op} {can_show} {server} {holds}")
}

fn write_way_end<W: Write>(
    servers: &Servers,
    pools: &[ConfigPool],
    server: ServerId,
    out: &mut W,
) -> io::Result<()>
    ensures { OnOk result (Appends (W.contents out.old) (W.contents out.new) (way_end servers.now pools.now server)) }
{
    write!(out, " ")?;
    write_server(servers, pools, server, out)?;
    writeln!(out)?;
    Ok(())
}

// By which way the operation takes the server.
fn write_way<W: Write>(
    servers: &Servers,
    pools: &[ConfigPool],
    server: ServerId,
    op: Op,
    way: &[WayStep],
    out: &mut W,
) -> io::Result<()>
    ensures { OnOk result (Appends (W.contents out.old) (W.contents out.new) (way_line servers.now pools.now server op way.now)) }
{
    write_way_front(servers, server, op, out)?;
    write_steps(way, out)?;
    write_way_end(servers, pools, server, out)?;
    Ok(())
}

fn is_of(which: Which, server_use: &ServerUse) -> bool
    ensures { result ≡ is_of which server_use.now }
{
    match which {
        Which::Read => server_use.is_read,
        Which::Cleared => server_use.is_cleared,
        Which::Left => !server_use.is_cleared,
    }
}

// A server on a line of its own, after the end of the line before.
fn write_named<W: Write>(
    servers: &Servers,
    pools: &[ConfigPool],
    server: ServerId,
    out: &mut W,
) -> io::Result<()>
    ensures { OnOk result (Appends (W.contents out.old) (W.contents out.new) (named_text servers.now pools.now server)) }
{
    write!(out, "\n#   ")?;
    write_server(servers, pools, server, out)?;
    Ok(())
}

// A server on a line of its own, after the end of the line before, if this server is one of those that are named.
fn write_member<W: Write>(
    servers: &Servers,
    pools: &[ConfigPool],
    is_named: bool,
    server: ServerId,
    out: &mut W,
) -> io::Result<()>
    ensures { OnOk result (Appends (W.contents out.old) (W.contents out.new) (member_text servers.now pools.now is_named server)) }
{
    if is_named {
        write_named(servers, pools, server, out)
    } else {
        Ok(())
    }
}

fn write_members<W: Write>(
    servers: &Servers,
    pools: &[ConfigPool],
    which: Which,
    server_uses: &[ServerUse],
    out: &mut W,
) -> io::Result<()>
    ensures { OnOk result (Appends (W.contents out.old) (W.contents out.new) (members_text servers.now pools.now which server_uses.now)) }
{
    for server_use in server_uses {
        write_member(
            servers,
            pools,
            is_of(which, server_use),
            server_use.server,
            out,
        )?;
    }
    Ok(())
}

fn has_some(which: Which, server_uses: &[ServerUse]) -> bool
    ensures { result ≡ has_some which server_uses.now }
{
    match server_uses {
        [] => false,
        [first, rest @ ..] => is_of(which, first) || has_some(which, rest),
    }
}

// The servers and the end of their line, or that there is none.
fn write_row<W: Write>(
    servers: &Servers,
    pools: &[ConfigPool],
    which: Which,
    server_uses: &[ServerUse],
    out: &mut W,
) -> io::Result<()>
    ensures { OnOk result (Appends (W.contents out.old) (W.contents out.new) (row_text servers.now pools.now which server_uses.now)) }
{
    if has_some(which, server_uses) {
        write_members(servers, pools, which, server_uses, out)?;
        writeln!(out)
    } else {
        writeln!(out, " none")
    }
}

fn write_reads<W: Write>(
    servers: &Servers,
    pools: &[ConfigPool],
    server_uses: &[ServerUse],
    out: &mut W,
) -> io::Result<()>
    ensures { OnOk result (Appends (W.contents out.old) (W.contents out.new) (reads_line servers.now pools.now server_uses.now)) }
{
    write!(out, "{}", text_of(Phrase::Reads))?;
    write_row(servers, pools, Which::Read, server_uses, out)?;
    Ok(())
}

fn write_cleared<W: Write>(
    servers: &Servers,
    pools: &[ConfigPool],
    deleting: Deleting,
    server_uses: &[ServerUse],
    out: &mut W,
) -> io::Result<()>
    ensures { OnOk result (Appends (W.contents out.old) (W.contents out.new) (cleared_line servers.now pools.now deleting server_uses.now)) }
{
    write!(
        out,
        "# a {} {}",
        delete_name(deleting),
        text_of(Phrase::HasCleared)
    )?;
    write_row(servers, pools, Which::Cleared, server_uses, out)?;
    Ok(())
}

fn write_left<W: Write>(
    servers: &Servers,
    pools: &[ConfigPool],
    server_uses: &[ServerUse],
    out: &mut W,
) -> io::Result<()>
    ensures { OnOk result (Appends (W.contents out.old) (W.contents out.new) (left_line servers.now pools.now server_uses.now)) }
{
    write!(out, "{}", text_of(Phrase::Left))?;
    write_row(servers, pools, Which::Left, server_uses, out)?;
    Ok(())
}

// What becomes of each server.
fn write_server_uses<W: Write>(
    servers: &Servers,
    pools: &[ConfigPool],
    deleting: Deleting,
    server_uses: &[ServerUse],
    out: &mut W,
) -> io::Result<()>
    ensures { OnOk result (Appends (W.contents out.old) (W.contents out.new) (server_use_lines servers.now pools.now deleting server_uses.now)) }
{
    write_reads(servers, pools, server_uses, out)?;
    write_cleared(servers, pools, deleting, server_uses, out)?;
    write_left(servers, pools, server_uses, out)?;
    Ok(())
}

/// Writes an explanation of the gap of this server, operation and kind of delete: by which way the operation takes the server,
/// which servers reads take, which of them the delete clears and which it leaves, each server with its places in the lists of the
/// pools. Each line is a comment of a script. The format is mcgate's own.
pub fn write_explanation<W: Write>(
    servers: &Servers,
    pools: &[ConfigPool],
    op: Op,
    server: ServerId,
    deleting: Deleting,
    explanation: &Explanation,
    out: &mut W,
) -> io::Result<()>
    ensures { OnOk result (Appends (W.contents out.old) (W.contents out.new) (explanation_lines servers.now pools.now op server deleting explanation.now)) }
{
    write_way(servers, pools, server, op, &explanation.way, out)?;
    write_server_uses(servers, pools, deleting, &explanation.server_uses, out)?;
    Ok(())
}
