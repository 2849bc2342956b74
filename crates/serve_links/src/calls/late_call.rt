//! A call that is late.

ghost use Rattle.mc_types.specs.Asks.{IsAsk};
ghost use Rattle.route_job.specs.AtMostOne.{is_ask_prop};

use mc_types::{Dialect, SharedAsk};

/// A call that has failed, as it was late, and whose answer is still to come.
#[derive(Drop)]
pub struct LateCall {
    /// The command's number.
    pub number: u64,
    /// In which dialect its server was asked.
    pub dialect: Dialect,
    /// When it began, in milliseconds.
    pub since: u64,
    pub ask: SharedAsk,
    pub ghost formed: { IsAsk ask } by { is_ask_prop ask },
}
