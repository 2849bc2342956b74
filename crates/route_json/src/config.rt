//! What a configuration means, read from a JSON text.

ghost use Rattle.std.specs.Prelude.{◌≡◌, IfOk, length};
ghost use Rattle.serde_json.specs.Read.{read};
ghost use Rattle.serde_json.specs.View.{view};
ghost use Rattle.route_json.specs.Configs.{object_after, config_after, read_or, read_after};
ghost use Rattle.route_json.specs.Fault.{GivesReading};
ghost use Rattle.route_json.specs.Fits.{IsBelow};

use crate::addresses::Servers;
use crate::fault::ConfigFault;
use crate::fields::{object_field, only, value_field};
use crate::names::Holder;
use crate::place::{RouteCount, RoutePlace};
use crate::pools::Pools;
use crate::route::route;
use route_tree::{DEPTH_LIMIT, Tree};
use serde_json::Value;
use std::alloc::{AllocError, Global};
use std::marker::Model;

/// What a configuration means: a tree of routes, and the servers, among which is each that the tree names.
#[derive(Drop)]
pub struct Config {
    tree: Tree,
    servers: Servers,
}

impl Model for Config {
    ghost use Rattle.std.specs.Prelude.{length};
    ghost use Rattle.route_json.specs.Fits.{IsBelow};
    ghost use Rattle.route_json.specs.Configuration.{Configuration, configuration_code};

    ghost Value = { Configuration };

    ghost coded = { configuration_code };

    ghost view = { λ c. record { tree = c.tree; servers = c.servers } };

    ghost invariant = { λ c. IsBelow (length c.servers) c.tree };
}

impl Config {
    /// The configuration of this tree and these servers. It takes no memory.
    pub fn new(tree: Tree, servers: Servers) -> Config
        requires { IsBelow (length servers) tree }
        ensures { result ≡ record { tree = tree; servers = servers } }
    {
        Config { tree, servers }
    }

    /// The tree.
    pub fn tree(&self) -> &Tree
        ensures tree { result.now ≡ self.now.tree }
        ensures below { IsBelow (length self.now.servers) self.now.tree }
    {
        &self.tree
    }

    /// The servers.
    pub fn servers(&self) -> &Servers
        ensures servers { result.now ≡ self.now.servers }
        ensures below { IsBelow (length self.now.servers) self.now.tree }
    {
        &self.servers
    }

    /// This configuration once more, its tree shared. The only error: memory was refused.
    pub fn copy(&self, alloc: Global) -> Result<Config, AllocError>
        ensures { IfOk result (λ config. config ≡ self.now) }
    {
        Ok(Config {
            tree: self.tree.copy()?,
            servers: self.servers.copy(alloc)?,
        })
    }
}

/// The configuration that a JSON text means, or its first fault.
///
/// Unknown fields are met before missing ones, pools in byte order of their names, and routes from the root down. An epoch of a
/// server that is over is met after all pools.
/// `NoMemory` is running out of memory, and nothing else is said then.
pub fn read_config(alloc: Global, text: &str) -> Result<Config, ConfigFault>
    ensures { GivesReading (λ config. (config.tree, config.servers)) result (read_or (read text.now)) }
{
    read_config_after(alloc, Servers::new(alloc), text)
}

/// As [`read_config`], but the servers are numbered after these: a server of theirs keeps its number, and new ones come last.
pub fn read_config_after(alloc: Global, servers: Servers, text: &str) -> Result<Config, ConfigFault>
    ensures { GivesReading (λ config. (config.tree, config.servers)) result (read_after servers (read text.now)) }
{
    match Value::from_str(alloc, text) {
        Ok(value) => config_after(alloc, servers, &value),
        Err(error) => {
            drop_servers(servers);
            if error.is_memory() {
                Err(ConfigFault::NoMemory)
            } else {
                Err(ConfigFault::NotJson)
            }
        }
    }
}

// Drops the servers.
fn drop_servers(_servers: Servers) {}

// The servers are numbered after these.
fn config_after(alloc: Global, servers: Servers, value: &Value) -> Result<Config, ConfigFault>
    ensures { GivesReading (λ config. (config.tree, config.servers)) result (config_after (view value.now) servers) }
{
    match value {
        Value::Object(_) => object_after(alloc, servers, value),
        _ => Err(ConfigFault::NotJson),
    }
}

fn object_after(alloc: Global, servers: Servers, value: &Value) -> Result<Config, ConfigFault>
    ensures { GivesReading (λ config. (config.tree, config.servers)) result (object_after (view value.now) servers) }
{
    only(alloc, Holder::Config, value)?;
    value_field(alloc, "pools", value)?;
    let root = value_field(alloc, "route", value)?;
    let map = object_field(alloc, "pools", value)?;
    let pools = Pools::read(alloc, servers, map)?;
    pools.keep_epochs(alloc)?;
    let mut count = RouteCount { routes: 0 };
    let place = RoutePlace {
        levels: DEPTH_LIMIT,
        weight: 1,
    };
    let tree = route(alloc, &pools, &mut count, place, "route", root)?;
    Ok(Config::new(tree, pools.into_servers()))
}
