//! The servers that a configuration names, numbered by their addresses.

ghost use Rattle.std.specs.Prelude.{◌≡◌, ◌<◌, ◌≤◌, IfOk, length};
ghost use Rattle.route_json.specs.Fault.{GivesReading};
ghost use Rattle.route_json.specs.Servers.{address_number, server_of_text};

use crate::addresses::server_text::MAX_WEIGHT;
use crate::addresses::servers::MAX_SERVERS;
use crate::addresses::{Servers, read_server};
use crate::fault::ConfigFault;
use crate::pools::WeightedServer;
use mc_types::ServerId;
use std::alloc::Global;

/// The server of a text in the list of this pool: a new address goes last. `BadAddress` where the text says no server,
/// and `TooManyServers` where there is no room for it.
pub fn server_of_text(
    alloc: Global,
    servers: &mut Servers,
    pool: &str,
    text: &str,
) -> Result<WeightedServer, ConfigFault>
    ensures gives { GivesReading (λ s. (s, servers.new)) result (server_of_text pool.now text.now servers.old) }
    ensures below { IfOk result (λ s. s.server < length servers.new) }
    ensures weight { IfOk result (λ s. (0 < s.weight) × (s.weight ≤ MAX_WEIGHT)) }
    ensures more { length servers.old ≤ length servers.new }
{
    match read_server(text) {
        Some((address, weight)) => {
            let server = number(alloc, servers, pool, address)?;
            Ok(WeightedServer { server, weight })
        }
        None => Err(ConfigFault::BadAddress(String::from_str(alloc, text)?)),
    }
}

fn number(
    alloc: Global,
    servers: &mut Servers,
    pool: &str,
    address: &str,
) -> Result<ServerId, ConfigFault>
    ensures gives { GivesReading (λ n. (n, servers.new)) result (address_number pool.now address.now servers.old) }
    ensures below { IfOk result (λ n. n < length servers.new) }
    ensures more { length servers.old ≤ length servers.new }
{
    if let Some(server) = servers.find(address) {
        return Ok(server);
    }
    if servers.len() >= MAX_SERVERS {
        return Err(ConfigFault::TooManyServers(String::from_str(alloc, pool)?));
    }
    Ok(servers.push(alloc, address)?)
}
