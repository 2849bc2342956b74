//! How a command, or a part of it, ended.

ghost use Rattle.std.specs.Prelude.{◌≤◌, length};
ghost use Rattle.mc_types.specs.Asks.{data_limit};
ghost use Rattle.route_job.specs.Parts.{hit_data};

use mc_types::Answer;

/// How a command, or a part of it, ended: the reply, and the number of the call whose item it shows, if it shows one. The data of a hit
/// can be stored again.
#[derive(Drop)]
pub struct Done {
    pub from: Option<u64>,
    pub reply: Answer,
    pub ghost short: { length (hit_data reply) ≤ data_limit },
}
