//! A block of lines for each key.

ghost use Rattle.std.specs.Prelude.{◌≡◌, [], ◌∷◌, IfOk, IfErr, OnOk};
ghost use Rattle.std.specs.Io.KnownBytes.{Appends};
ghost use Rattle.mc_types.specs.Asks.{all_ops};
ghost use Rattle.serde_json.specs.View.{view};
ghost use Rattle.route_tree.specs.At.{tree_at};
ghost use Rattle.mcgate_lines.specs.Asking as spec;
ghost use Rattle.gate_check.specs.Tables.{IsTable};
ghost use Rattle.mcgate_lines.specs.Faults.{IsNoOverrun};
ghost use Rattle.mcgate_lines.specs.Blocks.{key_line, pool_places_text, servers_text, op_front, op_line, op_lines, plain_lines, WritesBlock, WritesBlocks};

use crate::RunFault;
use crate::key_places::asking::add_asked;
use crate::key_places::limits::write_limits;
use crate::verdict::write_place;
use gate_check::places::PlaceTable;
use gate_gaps::ConfigPool;
use gate_gaps::names::op_name;
use gate_gaps::pool_words::write_server;
use mc_types::{Key, Op, ServerId};
use route_json::{Config, Servers};
use route_tree::{Plain, hash_part, key_hash};
use serde_json::Value;
use std::alloc::{AllocError, Global};
use std::io;
use std::io::Write;
use text_words::escapes::Escaped;

// The key, and what is hashed of it.
fn write_key_line<W: Write>(key: &Key, out: &mut W) -> io::Result<()>
    ensures { OnOk result (Appends (W.contents out.old) (W.contents out.new) (key_line key.now)) }
{
    let text = Escaped(key.as_bytes());
    let part = Escaped(hash_part(key));
    let hash = key_hash(key);
    write!(out, "key={text} hash_part={part} hash={hash}")
}

// A server, with its places in the lists of the pools.
fn write_named<W: Write>(
    servers: &Servers,
    pools: &[ConfigPool],
    server: ServerId,
    out: &mut W,
) -> io::Result<()>
    ensures { OnOk result (Appends (W.contents out.old) (W.contents out.new) (pool_places_text servers.now pools.now server)) }
{
    write!(out, " ")?;
    write_server(servers, pools, server, out)?;
    Ok(())
}

fn write_servers<W: Write>(
    servers: &Servers,
    pools: &[ConfigPool],
    list: &[ServerId],
    out: &mut W,
) -> io::Result<()>
    ensures { OnOk result (Appends (W.contents out.old) (W.contents out.new) (servers_text servers.now pools.now list.now)) }
{
    for server in list {
        write_named(servers, pools, *server, out)?;
    }
    Ok(())
}

fn write_op_front<W: Write>(op: Op, out: &mut W) -> io::Result<()>
    ensures { OnOk result (Appends (W.contents out.old) (W.contents out.new) (op_front op)) }
{
    let name = op_name(op);
    write!(out, "  {name}")
}

// A line of the operation and its servers.
fn write_row<W: Write>(
    servers: &Servers,
    pools: &[ConfigPool],
    op: Op,
    list: &[ServerId],
    out: &mut W,
) -> io::Result<()>
    ensures { OnOk result (Appends (W.contents out.old) (W.contents out.new) (op_line servers.now pools.now op list.now)) }
{
    write_op_front(op, out)?;
    write_servers(servers, pools, list, out)?;
    writeln!(out)
}

fn asked(alloc: Global, plain: &Plain, op: Op) -> Result<Vec<ServerId>, AllocError>
    ensures { IfOk result (λ list. list.items ≡ spec.servers_asked op plain.now) }
{
    let mut list = Vec::new(alloc);
    add_asked(plain, op, &mut list)?;
    Ok(list)
}

fn write_op<W: Write>(
    alloc: Global,
    servers: &Servers,
    pools: &[ConfigPool],
    plain: &Plain,
    op: Op,
    out: &mut W,
) -> Result<(), RunFault>
    ensures ok { OnOk result (Appends (W.contents out.old) (W.contents out.new) (op_line servers.now pools.now op (spec.servers_asked op plain.now))) }
    ensures err { IfErr result IsNoOverrun }
{
    let list = asked(alloc, plain, op)?;
    write_row(servers, pools, op, &list, out)?;
    Ok(())
}

fn write_ops<W: Write>(
    alloc: Global,
    servers: &Servers,
    pools: &[ConfigPool],
    plain: &Plain,
    ops: &[Op],
    out: &mut W,
) -> Result<(), RunFault>
    ensures ok { OnOk result (Appends (W.contents out.old) (W.contents out.new) (op_lines servers.now pools.now plain.now ops.now)) }
    ensures err { IfErr result IsNoOverrun }
{
    for op in ops {
        write_op(alloc, servers, pools, plain, *op, out)?;
    }
    Ok(())
}

// The lines of the operations of a plain tree.
fn write_all_ops<W: Write>(
    alloc: Global,
    config: &Config,
    pools: &[ConfigPool],
    plain: &Plain,
    out: &mut W,
) -> Result<(), RunFault>
    ensures ok { OnOk result (Appends (W.contents out.old) (W.contents out.new) (op_lines config.now.servers pools.now plain.now all_ops)) }
    ensures err { IfErr result IsNoOverrun }
{
    let ops = Op::all();
    write_ops(alloc, config.servers(), pools, plain, &ops, out)
}

// The lines of the operations of a plain tree, and those of the limits of their servers.
fn write_plain<W: Write>(
    alloc: Global,
    config: &Config,
    pools: &[ConfigPool],
    value: &Value,
    plain: &Plain,
    out: &mut W,
) -> Result<(), RunFault>
    ensures ok { OnOk result (Appends (W.contents out.old) (W.contents out.new) (plain_lines config.now.servers pools.now (view value.now) plain.now)) }
    ensures err { IfErr result IsNoOverrun }
{
    write_all_ops(alloc, config, pools, plain, out)?;
    write_limits(alloc, config.servers(), pools, value, plain, out)
}

// The lines of a key's plain tree.
fn write_key_plain<W: Write>(
    alloc: Global,
    config: &Config,
    pools: &[ConfigPool],
    value: &Value,
    key: &Key,
    out: &mut W,
) -> Result<(), RunFault>
    ensures ok { OnOk result (Appends (W.contents out.old) (W.contents out.new) (plain_lines config.now.servers pools.now (view value.now) (tree_at config.now.tree key.now))) }
    ensures err { IfErr result IsNoOverrun }
{
    let plain = config.tree().at(alloc, key)?;
    write_plain(alloc, config, pools, value, &plain, out)
}

// The block of a key.
fn write_block<W: Write>(
    alloc: Global,
    config: &Config,
    pools: &[ConfigPool],
    value: &Value,
    table: &PlaceTable,
    key: &Key,
    out: &mut W,
) -> Result<(), RunFault>
    requires { IsTable (config.now.tree ∷ []) table.now }
    ensures ok { OnOk result (WritesBlock config.now.servers pools.now (view value.now) config.now.tree key.now (W.contents out.old) (W.contents out.new)) }
    ensures err { IfErr result IsNoOverrun }
{
    let place = table.of(key);
    write_key_line(key, out)?;
    write_place(&place, out)?;
    write_key_plain(alloc, config, pools, value, key, out)?;
    Ok(())
}

/// Writes a block of lines for each key: the key, its hash part and hash and its place; then for each operation the servers that the
/// key's plain tree has for it, each with its places in the lists of the pools; and then the limits that the pools of the
/// configuration's value say of these servers. The format is mcgate's own.
pub fn write_keys<W: Write>(
    alloc: Global,
    config: &Config,
    pools: &[ConfigPool],
    value: &Value,
    table: &PlaceTable,
    keys: &[Key],
    out: &mut W,
) -> Result<(), RunFault>
    requires { IsTable (config.now.tree ∷ []) table.now }
    ensures ok { OnOk result (WritesBlocks config.now.servers pools.now (view value.now) config.now.tree keys.now (W.contents out.old) (W.contents out.new)) }
    ensures err { IfErr result IsNoOverrun }
{
    match keys {
        [] => Ok(()),
        [first, rest @ ..] => {
            write_block(alloc, config, pools, value, table, first, out)?;
            write_keys(alloc, config, pools, value, table, rest, out)
        }
    }
}
