//! The limits that pools say for the servers of a key.

ghost use Rattle.std.specs.Prelude.{◌≡◌, IfOk, IfErr, OnOk, nat_eq};
ghost use Rattle.std.specs.Io.KnownBytes.{Appends};
ghost use Rattle.std.specs.List.{list_any};
ghost use Rattle.mc_types.specs.Asks.{all_ops};
ghost use Rattle.serde_json.specs.Read.{read};
ghost use Rattle.serde_json.specs.View.{view};
ghost use Rattle.mcgate_lines.specs.Faults.{IsNoOverrun};
ghost use Rattle.mcgate_lines.specs.LimitLines as spec;
ghost use Rattle.mcgate_lines.specs.LimitLines.{limits_value, limit_word, limit_words, is_some_said, limits_line, limits_at, limits_line_of, limits_lines};

use crate::RunFault;
use crate::key_places::asking::add_asked;
use gate_gaps::ConfigPool;
use gate_gaps::names::address_of;
use gate_gaps::pool_words::write_server;
use mc_types::{Op, ServerId};
use route_json::Servers;
use route_json::limits::{ServerLimits, limits_of};
use route_tree::Plain;
use serde_json::Value;
use std::alloc::{AllocError, Global};
use std::io;
use std::io::Write;

/// The value of a configuration's text, which a configuration that was read doesn't keep; null where it is no JSON. The only error is
/// running out of memory.
pub fn value_of(alloc: Global, text: &str) -> Result<Value, AllocError>
    ensures { IfOk result (λ value. view value ≡ limits_value (read text.now)) }
{
    match Value::from_str(alloc, text) {
        Ok(value) => Ok(value),
        Err(error) => {
            if error.is_memory() {
                Err(AllocError)
            } else {
                Ok(Value::Null)
            }
        }
    }
}

// The servers that the plain tree has for these operations.
fn servers_of(alloc: Global, plain: &Plain, ops: &[Op]) -> Result<Vec<ServerId>, AllocError>
    ensures { IfOk result (λ servers. servers.items ≡ spec.plan_servers plain.now ops.now) }
{
    let mut servers = Vec::new(alloc);
    for op in ops {
        add_asked(plain, *op, &mut servers)?;
    }
    Ok(servers)
}

// The servers that the plain tree has for some operation.
fn all_servers_of(alloc: Global, plain: &Plain) -> Result<Vec<ServerId>, AllocError>
    ensures { IfOk result (λ servers. servers.items ≡ spec.plan_servers plain.now all_ops) }
{
    let ops = Op::all();
    servers_of(alloc, plain, &ops)
}

fn is_one_of(asked: &[ServerId], server: ServerId) -> bool
    ensures { result ≡ list_any (nat_eq server) asked.now }
{
    asked.iter().any(|other| server == *other)
}

// A limit and its number, if it is said.
fn write_word<W: Write>(name: &str, limit: Option<u32>, out: &mut W) -> io::Result<()>
    ensures { OnOk result (Appends (W.contents out.old) (W.contents out.new) (limit_word name.now limit)) }
{
    match limit {
        Some(limit) => write!(out, " {name}={limit}"),
        None => Ok(()),
    }
}

// Each limit that is said.
fn write_words<W: Write>(limits: ServerLimits, out: &mut W) -> io::Result<()>
    ensures { OnOk result (Appends (W.contents out.old) (W.contents out.new) (limit_words limits)) }
{
    write_word("call_ms", limits.call_ms, out)?;
    write_word("connect_ms", limits.connect_ms, out)?;
    write_word("fail_limit", limits.fail_limit, out)?;
    write_word("retry_ms", limits.retry_ms, out)?;
    Ok(())
}

// Whether some limit is said.
fn is_some_said(limits: ServerLimits) -> bool
    ensures { result ≡ is_some_said limits }
{
    limits.call_ms.is_some()
        || limits.connect_ms.is_some()
        || limits.fail_limit.is_some()
        || limits.retry_ms.is_some()
}

// The line of a server with these limits, if some limit is said.
fn write_line<W: Write>(
    servers: &Servers,
    pools: &[ConfigPool],
    server: ServerId,
    limits: ServerLimits,
    out: &mut W,
) -> io::Result<()>
    ensures { OnOk result (Appends (W.contents out.old) (W.contents out.new) (limits_line servers.now pools.now server limits)) }
{
    if is_some_said(limits) {
        write!(out, "  limits ")?;
        write_server(servers, pools, server, out)?;
        write_words(limits, out)?;
        writeln!(out)
    } else {
        Ok(())
    }
}

// What the pools of the value say of a server.
fn limits_at(servers: &Servers, value: &Value, server: ServerId) -> ServerLimits
    ensures { result ≡ limits_at servers.now (view value.now) server }
{
    limits_of(value, address_of(servers, server).as_bytes())
}

// The line of a server, if it is one of those that are asked.
fn write_line_of<W: Write>(
    servers: &Servers,
    pools: &[ConfigPool],
    value: &Value,
    asked: &[ServerId],
    server: ServerId,
    out: &mut W,
) -> io::Result<()>
    ensures { OnOk result (Appends (W.contents out.old) (W.contents out.new) (limits_line_of servers.now pools.now (view value.now) asked.now server)) }
{
    if is_one_of(asked, server) {
        let limits = limits_at(servers, value, server);
        write_line(servers, pools, server, limits, out)
    } else {
        Ok(())
    }
}

// The lines of those that are asked, in the order of their numbers.
fn write_lines<W: Write>(
    servers: &Servers,
    pools: &[ConfigPool],
    value: &Value,
    asked: &[ServerId],
    out: &mut W,
) -> io::Result<()>
    ensures { OnOk result (Appends (W.contents out.old) (W.contents out.new) (limits_lines servers.now pools.now (view value.now) asked.now)) }
{
    for number in 0..servers.len() {
        let server = ServerId::new(number as u32);
        write_line_of(servers, pools, value, asked, server, out)?;
    }
    Ok(())
}

/// Writes a line for each server that the plain tree has for some operation, and for which the pools of the configuration's value say
/// a limit: the server with its places in the lists of the pools, and each limit that is said. The format is mcgate's own.
pub fn write_limits<W: Write>(
    alloc: Global,
    servers: &Servers,
    pools: &[ConfigPool],
    value: &Value,
    plain: &Plain,
    out: &mut W,
) -> Result<(), RunFault>
    ensures ok { OnOk result (Appends (W.contents out.old) (W.contents out.new) (limits_lines servers.now pools.now (view value.now) (spec.plan_servers plain.now all_ops))) }
    ensures err { IfErr result IsNoOverrun }
{
    let asked = all_servers_of(alloc, plain)?;
    write_lines(servers, pools, value, &asked, out)?;
    Ok(())
}
