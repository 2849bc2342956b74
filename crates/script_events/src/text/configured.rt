//! A script with the configuration that it runs over.

ghost use Rattle.std.specs.Prelude.{◌≡◌, MatchOption, length, slice_get};
ghost use Rattle.route_json.specs.Fault.{fault_of};
ghost use Rattle.script_events.specs.Told.{servers_known};
ghost use Rattle.script_events.specs.declared.text.configured.ScriptFault.TheVariants.{Config as ConfigFaulty, NoMemory};

use crate::{Reload, Script};
use route_json::{Config, ConfigFault, Servers};
use std::alloc::AllocError;

/// A script over the servers of a configuration.
#[derive(Drop)]
pub struct ConfiguredScript {
    /// What the first line says. Its tree has one server for each key.
    pub config: Config,
    pub script: Script,
    /// The configurations that the script's reload lines load, in their order. The servers of each are numbered after those of the one
    /// before it.
    pub reloads: Vec<Reload>,
    /// For each event the number of its line, counted from 1 over all lines of the input.
    pub lines: Vec<usize>,
}

impl ConfiguredScript {
    /// How many servers the configuration and those that are loaded have together.
    pub fn server_count(&self) -> u32
        ensures { result ≡ length (servers_known self.now.config.servers self.now.reloads.items) }
    {
        servers_known(self.config.servers(), &self.reloads).len() as u32
    }

    /// The number of this event's line. Events are counted from 0, as [`crate::DriveFault::BadEvent`] counts them.
    pub fn line_of(&self, event: usize) -> Option<usize>
        ensures { result ≡ slice_get self.now.lines.items event }
    {
        self.lines.get(event).copied()
    }
}

/// The servers known after these were loaded, of which each numbers its servers after those known before it.
pub fn servers_known<'a>(servers: &'a Servers, reloads: &'a [Reload]) -> &'a Servers
    ensures { result.now ≡ servers_known servers.now reloads.now }
{
    match reloads.last() {
        Some(reload) => reload.config.servers(),
        None => servers,
    }
}

/// Why a script was not read.
#[derive(Drop)]
pub enum ScriptFault {
    /// The first fault of the configuration on the first line. It is never [`ConfigFault::NoMemory`].
    Config(ConfigFault),
    /// The first line that is bad, counted from 1 over all lines of the input.
    BadLine(usize),
    /// Memory was refused.
    NoMemory,
}

impl From<AllocError> for ScriptFault {
    ghost from_gives = { λ _ e. e ≡ NoMemory };

    fn from(_error: AllocError) -> ScriptFault {
        ScriptFault::NoMemory
    }
}

impl From<ConfigFault> for ScriptFault {
    ghost from_gives = { λ fault e. MatchOption (fault_of fault) (e ≡ NoMemory) (λ _. e ≡ ConfigFaulty fault) };

    fn from(fault: ConfigFault) -> ScriptFault {
        match fault {
            ConfigFault::NoMemory => ScriptFault::NoMemory,
            fault => ScriptFault::Config(fault),
        }
    }
}
