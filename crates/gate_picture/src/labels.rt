//! What stands in the nodes of a picture.

ghost use Rattle.std.specs.Prelude.{◌+◌, ◌<◌, ◌^◌, OnOk, length};
ghost use Rattle.std.specs.Io.KnownBytes.{Appends};
ghost use Rattle.gate_gaps.specs.Names.{server_address};
ghost use Rattle.route_tree.specs.Form.{routes_of, prefixes_of};
ghost use Rattle.gate_picture.specs.Labels.{address_line, later_slots, slots_text, pool_text, alone_text, detail_text, one_text, leaf_line, dots_text, last_leaf, count_text, leaf_lines, prefix_leaf_lines, run_text, prefix_run_text};

use gate_gaps::ConfigPool;
use gate_gaps::kinds::kind_name;
use gate_gaps::names::address_of;
use gate_gaps::pool_words::{write_places, write_pool_names};
use gate_gaps::quoting::Quoted;
use gate_gaps::spelling::Spelling;
use mc_types::{Key, ServerId};
use route_json::Servers;
use route_tree::{Tree, TreeForm};
use std::io;
use std::io::Write;

/// How many servers of a pool, or routes of a run, a label names.
pub const NAMED: usize = 8;

// A line of its own for a server.
fn write_address<W: Write>(servers: &Servers, server: ServerId, out: &mut W) -> io::Result<()>
    ensures { OnOk result (Appends (W.contents out.old) (W.contents out.new) (address_line servers.now server)) }
{
    let address = Quoted(address_of(servers, server).as_bytes());
    write!(out, "\\n{address}")
}

// Lines for the servers of the slots after this one, so many of them; two dots in place of more.
fn write_later_slots<W: Write>(
    servers: &Servers,
    left: usize,
    before: ServerId,
    slots: &[ServerId],
    out: &mut W,
) -> io::Result<()>
    ensures { OnOk result (Appends (W.contents out.old) (W.contents out.new) (later_slots servers.now left before slots.now)) }
{
    match slots {
        [] => Ok(()),
        [first, rest @ ..] => {
            if first.number() == before.number() {
                write_later_slots(servers, left, before, rest, out)
            } else if left == 0 {
                write!(out, "\\n..")
            } else {
                write_address(servers, *first, out)?;
                write_later_slots(servers, left - 1, *first, rest, out)
            }
        }
    }
}

// A line for the server of each run of slots.
fn write_slots<W: Write>(servers: &Servers, slots: &[ServerId], out: &mut W) -> io::Result<()>
    ensures { OnOk result (Appends (W.contents out.old) (W.contents out.new) (slots_text servers.now slots.now)) }
{
    match slots {
        [] => Ok(()),
        [first, rest @ ..] => {
            write_address(servers, *first, out)?;
            write_later_slots(servers, NAMED - 1, *first, rest, out)
        }
    }
}

// The names and the servers of a pool.
fn write_pool<W: Write>(
    servers: &Servers,
    pools: &[ConfigPool],
    slots: &[ServerId],
    out: &mut W,
) -> io::Result<()>
    ensures { OnOk result (Appends (W.contents out.old) (W.contents out.new) (pool_text servers.now pools.now slots.now)) }
{
    write_pool_names(Spelling::Label, pools, slots, out)?;
    write_slots(servers, slots, out)?;
    Ok(())
}

// A server, with its places.
fn write_alone<W: Write>(
    servers: &Servers,
    pools: &[ConfigPool],
    server: ServerId,
    out: &mut W,
) -> io::Result<()>
    ensures { OnOk result (Appends (W.contents out.old) (W.contents out.new) (alone_text servers.now pools.now server)) }
{
    let address = Quoted(address_of(servers, server).as_bytes());
    write!(out, " {address}")?;
    write_places(Spelling::Label, pools, server, out)?;
    Ok(())
}

// What a node says of a route beside its kind.
fn write_detail<W: Write>(
    servers: &Servers,
    pools: &[ConfigPool],
    tree: &Tree,
    out: &mut W,
) -> io::Result<()>
    ensures { OnOk result (Appends (W.contents out.old) (W.contents out.new) (detail_text servers.now pools.now tree.now)) }
{
    match tree.form() {
        TreeForm::Pool(slots) => write_pool(servers, pools, slots, out),
        TreeForm::Server(server) => write_alone(servers, pools, *server, out),
        _ => Ok(()),
    }
}

/// The label of the node of one route.
pub fn write_one<W: Write>(
    servers: &Servers,
    pools: &[ConfigPool],
    tree: &Tree,
    out: &mut W,
) -> io::Result<()>
    ensures { OnOk result (Appends (W.contents out.old) (W.contents out.new) (one_text servers.now pools.now tree.now)) }
{
    write!(out, "{}", kind_name(tree))?;
    write_detail(servers, pools, tree, out)?;
    Ok(())
}

// A line for a pool's route or a server of a run.
fn write_leaf<W: Write>(
    servers: &Servers,
    pools: &[ConfigPool],
    tree: &Tree,
    out: &mut W,
) -> io::Result<()>
    ensures { OnOk result (Appends (W.contents out.old) (W.contents out.new) (leaf_line servers.now pools.now tree.now)) }
{
    match tree.form() {
        TreeForm::Pool(slots) => {
            write!(out, "\\n")?;
            write_pool_names(Spelling::Label, pools, slots, out)?;
            Ok(())
        }
        TreeForm::Server(server) => write_address(servers, *server, out),
        _ => Ok(()),
    }
}

// Two dots in place of further pools or servers.
fn write_dots<W: Write>(tree: &Tree, out: &mut W) -> io::Result<()>
    ensures { OnOk result (Appends (W.contents out.old) (W.contents out.new) (dots_text tree.now)) }
{
    match tree.form() {
        TreeForm::Pool(_) | TreeForm::Server(_) => write!(out, "\\n.."),
        _ => Ok(()),
    }
}

// The line of the last route that is named, and two dots.
fn write_last_leaf<W: Write>(
    servers: &Servers,
    pools: &[ConfigPool],
    tree: &Tree,
    out: &mut W,
) -> io::Result<()>
    ensures { OnOk result (Appends (W.contents out.old) (W.contents out.new) (last_leaf servers.now pools.now tree.now)) }
{
    write_leaf(servers, pools, tree, out)?;
    write_dots(tree, out)?;
    Ok(())
}

// Lines for the first child of a run and for so many more of it, and no more than the limit; two dots in place of the others.
fn write_leaves<W: Write>(
    servers: &Servers,
    pools: &[ConfigPool],
    more: usize,
    limit: usize,
    children: &[Tree],
    out: &mut W,
) -> io::Result<()>
    ensures { OnOk result (Appends (W.contents out.old) (W.contents out.new) (leaf_lines servers.now pools.now more limit (routes_of children.now))) }
{
    match children {
        [] => Ok(()),
        [first, rest @ ..] => {
            if more == 0 {
                write_leaf(servers, pools, first, out)
            } else if limit <= 1 {
                write_last_leaf(servers, pools, first, out)
            } else {
                write_leaf(servers, pools, first, out)?;
                write_leaves(servers, pools, more - 1, limit - 1, rest, out)
            }
        }
    }
}

// Lines for the first child by prefix of a run and for so many more, and no more than the limit; two dots in place of the others.
fn write_prefix_leaves<W: Write>(
    servers: &Servers,
    pools: &[ConfigPool],
    more: usize,
    limit: usize,
    policies: &[(Key, Tree)],
    wildcard: &Tree,
    out: &mut W,
) -> io::Result<()>
    ensures { OnOk result (Appends (W.contents out.old) (W.contents out.new) (prefix_leaf_lines servers.now pools.now more limit (prefixes_of policies.now wildcard.now))) }
{
    match policies {
        [] => Ok(()),
        [(_, first), rest @ ..] => {
            if more == 0 {
                write_leaf(servers, pools, first, out)
            } else if limit <= 1 {
                write_last_leaf(servers, pools, first, out)
            } else {
                write_leaf(servers, pools, first, out)?;
                write_prefix_leaves(servers, pools, more - 1, limit - 1, rest, wildcard, out)
            }
        }
    }
}

// How many routes a run has, and their kind.
fn write_count<W: Write>(more: usize, first: &Tree, out: &mut W) -> io::Result<()>
    requires { more + 1 < 2 ^ 64 }
    ensures { OnOk result (Appends (W.contents out.old) (W.contents out.new) (count_text more first.now)) }
{
    let count = more + 1;
    let kind = kind_name(first);
    write!(out, "{count} x {kind}")
}

/// The label of the node of a run: of one child, or of the first of these children and so many more.
pub fn write_run<W: Write>(
    servers: &Servers,
    pools: &[ConfigPool],
    more: usize,
    first: &Tree,
    children: &[Tree],
    out: &mut W,
) -> io::Result<()>
    requires { more + 1 < 2 ^ 64 }
    ensures { OnOk result (Appends (W.contents out.old) (W.contents out.new) (run_text servers.now pools.now more first.now (routes_of children.now))) }
{
    if more == 0 {
        write_one(servers, pools, first, out)
    } else {
        write_count(more, first, out)?;
        write_leaves(servers, pools, more, NAMED, children, out)
    }
}

/// The label of the node of a run of children by prefix: of one child, or of the first of these children and so many more.
pub fn write_prefix_run<W: Write>(
    servers: &Servers,
    pools: &[ConfigPool],
    more: usize,
    first: &Tree,
    policies: &[(Key, Tree)],
    wildcard: &Tree,
    out: &mut W,
) -> io::Result<()>
    requires { more + 1 < 2 ^ 64 }
    ensures { OnOk result (Appends (W.contents out.old) (W.contents out.new) (prefix_run_text servers.now pools.now more first.now (prefixes_of policies.now wildcard.now))) }
{
    if more == 0 {
        write_one(servers, pools, first, out)
    } else {
        write_count(more, first, out)?;
        write_prefix_leaves(servers, pools, more, NAMED, policies, wildcard, out)
    }
}
