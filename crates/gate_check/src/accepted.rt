//! An accepted configuration.

ghost use Rattle.std.specs.Prelude.{◌≡◌, [], ◌∷◌, IfErr, IfOk};
ghost use Rattle.gate_check.specs.Places.{CoversAt};
ghost use Rattle.gate_check.specs.Sound.{AreGenerations, IsLast, trees_of};
ghost use Rattle.gate_check.specs.declared.gap.Reason.TheVariants as reasons;

use crate::gap::{Reason, Refused};
use route_json::Config;
use std::alloc::{AllocFailed, Global};
use std::marker::Model;

/// Configurations that were accepted one after another, the last one in use: generations, counted from 1. Each one's
/// tree covers itself and all later ones, so a delete that ran by one of them hides what later reads would show, whichever
/// they run by.
#[derive(Drop)]
pub struct Accepted {
    configs: Vec<Config>,
}

impl Model for Accepted {
    ghost use Rattle.std.specs.Prelude.{List};
    ghost use Rattle.std.specs.Coded.{coded_list};
    ghost use Rattle.route_json.specs.Configuration.{Configuration, configuration_code};
    ghost use Rattle.gate_check.specs.Sound.{AreGenerations, trees_of};

    ghost Value = { List Configuration };

    ghost coded = { coded_list configuration_code };

    ghost view = { λ a. a.configs.items };

    ghost invariant = { λ a. AreGenerations (trees_of a.configs.items) };
}

/// The configuration, whose tree covers itself at all its places, as the first generation. Where memory is refused it is
/// given back.
pub fn accept(alloc: Global, config: Config) -> Result<Accepted, Refused>
    requires { CoversAt config.tree config.tree }
    ensures accepted { IfOk result (λ accepted. accepted ≡ config ∷ []) }
    ensures refused { IfErr result (λ refused. refused ≡ record { config = config; reason = reasons.NoMemory }) }
{
    let _form = config.tree().form();
    let mut configs = Vec::new(alloc);
    match configs.push(config) {
        Ok(()) => Ok(Accepted { configs }),
        Err(AllocFailed { value }) => Err(Refused {
            config: value,
            reason: Reason::NoMemory,
        }),
    }
}

impl Accepted {
    /// The configuration in use. It takes no memory.
    pub fn config(&self) -> &Config
        ensures config { IsLast self.now result.now }
        ensures generations { AreGenerations (trees_of self.now) }
    {
        &self.configs[self.configs.len() - 1]
    }
}
