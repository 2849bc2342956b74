//! A call of a server that the core gave out.

ghost use Rattle.std.specs.Prelude.{◌≡◌};
ghost use Rattle.mc_types.specs.Asks.{IsAsk};
ghost use Rattle.route_job.specs.AtMostOne.{is_ask_prop};

use mc_types::{Ask, Origin, ServerId, SharedAsk};

/// A call that is out: the command's next call, which nobody else has, and whose ask is one that a client can write. It is handed back with
/// its outcome.
#[derive(Drop)]
pub struct Ticket {
    pub ask: SharedAsk,
    /// The command's number.
    pub number: u64,
    pub origin: Origin,
    pub server: ServerId,
    pub ghost formed: { IsAsk ask } by { is_ask_prop ask },
}

/// A call that is out, as the core has it.
#[derive(Clone, Copy)]
pub struct OutCall<'a> {
    pub ask: &'a Ask,
    pub origin: Origin,
    pub server: ServerId,
    pub ghost formed: { IsAsk ask.now } by { is_ask_prop ask.now },
}

impl Ticket {
    /// The command's number. The rest isn't kept.
    pub fn into_number(self) -> u64
        ensures { result ≡ self.number }
    {
        self.number
    }
}
