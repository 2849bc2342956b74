//! Clients go, once nothing of them is under way: for a proxy that is to end.

ghost use Rattle.std.specs.Prelude.{◌≡◌, true, IfSome};
ghost use Rattle.serve_clients.specs.Holdings.{ClientIsQuiet};
ghost use Rattle.serve_clients.specs.Marks.{client_of};
ghost use Rattle.serve_proxy.specs.Ends.{Stay, AllGoOn};

use crate::showing::give_back_client;
use crate::sockets::Sockets;
use core_accepted::ServedCore;
use serve_clients::Departure;
use serve_wire::Wire;

/// Nothing more is read of clients of which nothing is under way. Each of them is closed by the next turn.
pub fn end_quiet<W: Wire>(core: &mut ServedCore, sockets: &mut Sockets<W>)
    ensures ends { AllGoOn W.history core.old sockets.old core.new sockets.new }
{
    for id in 0..sockets.clients.len() {
        end_if_quiet(core, sockets, id);
    }
}

// Nothing more is read of this client if nothing of it is under way. It is closed by the next turn then.
fn end_if_quiet<W: Wire>(core: &mut ServedCore, sockets: &mut Sockets<W>, id: usize)
    ensures ends { AllGoOn W.history core.old sockets.old core.new sockets.new }
{
    let is_done = give_back_client(core, sockets, id);
    if !is_done {
        return;
    }
    if !sockets.is_quiet(id) {
        return;
    }
    sockets.end_client(id, Departure::Drained);
    sockets.mark_ready_if(id, true)
}

impl<W: Wire> Sockets<W> {
    // Whether there is such a client, and nothing of it is under way, as far as its end shows.
    fn is_quiet(&mut self, id: usize) -> bool
        ensures ends { Stay W.history self.old self.new }
        ensures quiet { result ≡ true → IfSome (client_of self.old.clients id) ClientIsQuiet }
    {
        match self.clients.get_mut(id) {
            Some(client) => client.is_quiet(),
            None => false,
        }
    }
}
