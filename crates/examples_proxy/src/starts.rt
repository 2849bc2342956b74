//! How an end of the proxy begins over a wire of an example.

use gate_check::{Accepted, judge};
use route_json::addresses::Servers;
use route_json::{Config, read_config};
use serve_proxy::{Beginnings, ProxyEnd, ServerDialect, Settings, text_at};
use serve_wire::Wire;
use std::alloc::Global;
use std::net::Net;
use std::test::Fail;

/// Servers are asked as clients wrote it, or as each tells.
pub fn settings(server_dialect: ServerDialect) -> Settings {
    Settings {
        server_dialect,
        ..Settings::usual()
    }
}

fn judged(alloc: Global, config: Config) -> Result<Accepted, Fail> {
    match judge(alloc, config) {
        Ok(accepted) => Ok(accepted),
        Err(_) => Err("the gate refuses the configuration")?,
    }
}

/// The servers of a configuration.
pub fn servers_of(alloc: Global, text: &str) -> Result<Servers, Fail> {
    let config = read_config(alloc, text)?;
    Ok(config.servers().copy(alloc)?)
}

// Those of these servers that hosts are known of are looked up.
fn resolve_all<N: Net, W: Wire>(net: &N, wire: &mut W, servers: &Servers) {
    for at in 0..servers.len() {
        if let Some(text) = text_at(servers, at) {
            let _ = wire.resolve(net, text.as_bytes());
        }
    }
}

fn end_over<W: Wire + Drop>(
    alloc: Global,
    wire: W,
    accepted: Accepted,
    begun: Beginnings,
    servers: &Servers,
    settings: Settings,
) -> Result<ProxyEnd<W>, Fail> {
    Ok(ProxyEnd::new(alloc, wire, accepted, begun, servers, settings)?)
}

/// The wire, on which the servers of a configuration were looked up.
pub fn looked_up<R: Net + AllocGlobal, W: Wire + Drop>(
    rt: &R,
    wire: W,
    text: &str,
) -> Result<W, Fail> {
    let mut wire = wire;
    let servers = servers_of(rt.alloc(), text)?;
    resolve_all(rt, &mut wire, &servers);
    Ok(wire)
}

/// The end over such a wire that begins by the configuration, where servers began so.
pub fn begin<R: AllocGlobal, W: Wire + Drop>(
    rt: &R,
    wire: W,
    text: &str,
    begun: Beginnings,
    settings: Settings,
) -> Result<ProxyEnd<W>, Fail> {
    let servers = servers_of(rt.alloc(), text)?;
    let accepted = judged(rt.alloc(), read_config(rt.alloc(), text)?)?;
    end_over(rt.alloc(), wire, accepted, begun, &servers, settings)
}
