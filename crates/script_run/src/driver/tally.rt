//! How many commands ended, and how many of them were stale.

ghost use Rattle.std.specs.Prelude.{◌≤◌, IfOk};

use script_events::servers::FleetFault;

/// How many commands ended, and how many of them were stale.
#[derive(Clone, Copy)]
pub struct Tally {
    pub commands: u64,
    pub stale: u64,
    ghost few: { stale ≤ commands },
}

impl Tally {
    ghost use Rattle.script_run.specs.Tallying.{IsOneMoreCommand};

    /// One more command, which is stale or not. The only error is `Spent`, where 2^64 - 1 commands ended.
    pub fn one_more(self, stale: u64) -> Result<Tally, FleetFault>
        requires { stale ≤ 1 }
        ensures { IfOk result (IsOneMoreCommand self stale) }
    {
        if self.commands == u64::MAX {
            return Err(FleetFault::Spent);
        }
        Ok(Tally {
            commands: self.commands + 1,
            stale: self.stale + stale,
        })
    }
}
