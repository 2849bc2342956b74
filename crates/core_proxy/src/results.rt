//! The result of a call of a server comes.

ghost use Rattle.std.specs.Prelude.{◌≡◌, OnOk, IfErr, IfSome, option_map};
ghost use Rattle.mc_types.specs.Asks.{IsAsk};
ghost use Rattle.core_proxy.specs.CoreState.{client_at};
ghost use Rattle.core_client.specs.ClientState.{dropped_by};
ghost use Rattle.core_proxy.specs.Settles.{FitsCall, asked, IsCalled, TakesOut, Settles, SettleFault};

use crate::fault::CoreFault;
use crate::proxy::Core;
use core_commands::owned::remove;
use core_commands::{OutCall, Ticket};
use mc_types::{Ask, Outcome};

fn forget(_outcome: Outcome) {}

impl Core {
    // Whether a client is there for whom nothing is done any more.
    fn is_dropped(&self, client: usize) -> bool
        ensures { result ≡ dropped_by (client_at self.now client) }
    {
        match self.clients.get(client) {
            None => false,
            Some(x) => x.dropped,
        }
    }

    // A command is taken out whose client is dropped, and stands in no line of a key.
    fn take_out(&mut self, number: u64, client: usize)
        ensures { TakesOut self.old number client self.new }
    {
        remove(number, &mut self.commands);
        self.lines.leave(client);
        if let Some(x) = self.clients.get_mut(client) {
            x.dropped = true;
        }
    }

    /// What the call of this number asks that is out in this core, which a client can write; `None` where none is out. It takes no memory.
    pub fn asked(&self, number: u64) -> Option<&Ask>
        ensures exact { option_map (λ ask. ask.now) result ≡ asked self.now number }
        ensures formed { IfSome result (λ ask. IsAsk ask.now) }
    {
        match self.commands.get(number) {
            None => None,
            Some(command) => command.asked(),
        }
    }

    /// The call of this number that is out in this core; `None` where none is out. It takes no memory.
    pub fn called(&self, number: u64) -> Option<OutCall<'_>>
        ensures { IfSome result (λ call. IsCalled self.now number call.server call.ask.now call.origin) }
    {
        match self.commands.get(number) {
            None => None,
            Some(command) => command.called(),
        }
    }

    /// A call that the core gave out had this outcome, which fits its ask. Its command goes on by that; where nothing is done
    /// for the command's client any more, it is broken off instead.
    ///
    /// `NoTicket` where no call of the ticket's number is out in this core, which is then as it was. `NoMemory`: the call had
    /// its outcome all the same; nothing is done for the command's client any more, whose output so far is kept, which stands in no
    /// line of a key, and whose commands of which no call is out are broken off; the other calls that are out stay.
    pub fn settle(&mut self, ticket: Ticket, outcome: Outcome) -> Result<(), CoreFault>
        requires fits { FitsCall self.old ticket.number outcome }
        ensures ok { OnOk result (Settles self.old ticket.number outcome self.new) }
        ensures err { IfErr result (λ fault. SettleFault self.old ticket.number outcome fault self.new) }
    {
        let number = ticket.into_number();
        let Some(client) = self.commands.caller(number) else {
            forget(outcome);
            return Err(CoreFault::NoTicket);
        };
        match self.commands.take(self.alloc, number, outcome) {
            Ok(()) => {
                if self.is_dropped(client) {
                    remove(number, &mut self.commands);
                }
                Ok(())
            }
            Err(_) => {
                self.take_out(number, client);
                self.free_idle(client);
                Err(CoreFault::NoMemory)
            }
        }
    }
}
