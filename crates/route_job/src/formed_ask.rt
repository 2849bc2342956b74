//! An ask that is shared, and that a client can write.

ghost use Rattle.mc_types.specs.Asks.{IsAsk};
ghost use Rattle.route_job.specs.AtMostOne.{is_ask_prop};

use mc_types::SharedAsk;

/// An ask that a client can write.
#[derive(Drop)]
pub struct FormedAsk {
    pub ask: SharedAsk,
    pub ghost formed: { IsAsk ask } by { is_ask_prop ask },
}
