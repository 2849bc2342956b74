//! Where a server stands in the lists of pools, and which pools have these slots, in words.

ghost use Rattle.std.specs.Prelude.{◌≡◌, ◌+◌, ◌<◌, ◌^◌, OnOk, length};
ghost use Rattle.std.specs.Io.KnownBytes.{Appends};
ghost use Rattle.gate_gaps.specs.PoolWords.{same_slots, place_text, place_if, places_from, places_in, places_text, server_text, name_if, pool_names};

use crate::names::address_of;
use crate::pools::ConfigPool;
use crate::spelling::{Spelled, Spelling};
use mc_types::ServerId;
use route_json::addresses::Servers;
use std::io;
use std::io::Write;
use text_words::escapes::Escaped;

/// Whether the slots are the same.
pub fn same_slots(one: &[ServerId], other: &[ServerId]) -> bool
    ensures { result ≡ same_slots one.now other.now }
{
    match one {
        [] => other.is_empty(),
        [first, rest @ ..] => match other {
            [] => false,
            [second, others @ ..] => {
                first.number() == second.number() && same_slots(rest, others)
            }
        },
    }
}

fn write_place<W: Write>(
    spelling: Spelling,
    name: &[u8],
    place: usize,
    total: usize,
    out: &mut W,
) -> io::Result<()>
    ensures { OnOk result (Appends (W.contents out.old) (W.contents out.new) (place_text spelling name.now place total)) }
{
    let pool = Spelled(spelling, name);
    write!(out, " (pool {pool}, place {place} of {total})")
}

// The place, if the server stands there.
fn write_place_if<W: Write>(
    spelling: Spelling,
    stands: bool,
    name: &[u8],
    place: usize,
    total: usize,
    out: &mut W,
) -> io::Result<()>
    ensures { OnOk result (Appends (W.contents out.old) (W.contents out.new) (place_if spelling stands name.now place total)) }
{
    if stands {
        write_place(spelling, name, place, total, out)
    } else {
        Ok(())
    }
}

// The places of the server in the rest of a list, whose first one is this place.
fn write_places_from<W: Write>(
    spelling: Spelling,
    name: &[u8],
    place: usize,
    total: usize,
    rest: &[ServerId],
    server: ServerId,
    out: &mut W,
) -> io::Result<()>
    requires { place + length rest.now < 2 ^ 64 }
    ensures { OnOk result (Appends (W.contents out.old) (W.contents out.new) (places_from spelling name.now place total rest.now server)) }
{
    match rest {
        [] => Ok(()),
        [first, others @ ..] => {
            let stands = first.number() == server.number();
            write_place_if(spelling, stands, name, place, total, out)?;
            write_places_from(spelling, name, place + 1, total, others, server, out)
        }
    }
}

// The places of the server in the list of a pool.
fn write_places_in<W: Write>(
    spelling: Spelling,
    pool: &ConfigPool,
    server: ServerId,
    out: &mut W,
) -> io::Result<()>
    ensures { OnOk result (Appends (W.contents out.old) (W.contents out.new) (places_in spelling server pool.now)) }
{
    let servers = pool.servers();
    write_places_from(
        spelling,
        pool.name().as_bytes(),
        1,
        servers.len(),
        servers,
        server,
        out,
    )
}

/// Writes each place of the server in the lists of the pools: ` (pool A, place 1 of 2)`.
pub fn write_places<W: Write>(
    spelling: Spelling,
    pools: &[ConfigPool],
    server: ServerId,
    out: &mut W,
) -> io::Result<()>
    ensures { OnOk result (Appends (W.contents out.old) (W.contents out.new) (places_text spelling pools.now server)) }
{
    for pool in pools {
        write_places_in(spelling, pool, server, out)?;
    }
    Ok(())
}

/// Writes the address of a server, and each of its places in the lists of the pools.
pub fn write_server<W: Write>(
    servers: &Servers,
    pools: &[ConfigPool],
    server: ServerId,
    out: &mut W,
) -> io::Result<()>
    ensures { OnOk result (Appends (W.contents out.old) (W.contents out.new) (server_text servers.now pools.now server)) }
{
    let address = Escaped(address_of(servers, server).as_bytes());
    write!(out, "{address}")?;
    write_places(Spelling::Line, pools, server, out)?;
    Ok(())
}

fn write_name_if<W: Write>(
    spelling: Spelling,
    pool: &ConfigPool,
    slots: &[ServerId],
    out: &mut W,
) -> io::Result<()>
    ensures { OnOk result (Appends (W.contents out.old) (W.contents out.new) (name_if spelling slots.now pool.now)) }
{
    if same_slots(pool.slots(), slots) {
        let name = Spelled(spelling, pool.name().as_bytes());
        write!(out, " {name}")
    } else {
        Ok(())
    }
}

/// Writes the name of each pool with these slots after a space.
pub fn write_pool_names<W: Write>(
    spelling: Spelling,
    pools: &[ConfigPool],
    slots: &[ServerId],
    out: &mut W,
) -> io::Result<()>
    ensures { OnOk result (Appends (W.contents out.old) (W.contents out.new) (pool_names spelling pools.now slots.now)) }
{
    for pool in pools {
        write_name_if(spelling, pool, slots, out)?;
    }
    Ok(())
}
