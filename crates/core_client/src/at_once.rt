//! A reply is shown as it comes.

ghost use Rattle.std.specs.Prelude.{◌≡◌, false, IfOk, OnErr};
ghost use Rattle.core_client.specs.Fronts.{ClientStays};
ghost use Rattle.core_client.specs.Heads.{is_next_of, is_next_reply, ShowsAtOnce};

use crate::client::{Client, Pending};
use crate::heads::take_head;
use mc_types::Answer;
use std::alloc::AllocError;
use wire_stream::send_part;

// Whether the command is of this number, and asks the last key of its message.
fn is_next_reply(number: u64, pending: &Pending) -> bool
    ensures { result ≡ is_next_of number pending.now }
{
    pending.number == number && pending.last
}

impl Client {
    /// The reply of the command of this number came, and is shown at once where that command is the first of the client's and asks the
    /// last key of its message: whether it is so. Nothing is kept of the reply then; else the client is as it was. The only error is running
    /// out of memory, which leaves the client as it was too.
    pub fn show_at_once(&mut self, number: u64, reply: &Answer) -> Result<bool, AllocError>
        requires { self.old.dropped ≡ false }
        ensures exact { IfOk result (λ shown. shown ≡ is_next_reply number self.old.queue.items) }
        ensures ok { IfOk result (λ shown. ShowsAtOnce self.old number reply.now shown self.new) }
        ensures err { OnErr result (ClientStays self.old self.new) }
    {
        let Some(pending) = self.queue.front() else {
            return Ok(false);
        };
        if !is_next_reply(number, pending) {
            return Ok(false);
        }
        send_part(
            pending.quiet,
            pending.last,
            pending.ask.get(),
            reply,
            &mut self.output,
        )?;
        take_head(&mut self.queue);
        Ok(true)
    }
}
