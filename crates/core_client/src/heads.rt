//! Replies at the head of a client's commands are shown.

ghost use Rattle.std.specs.Prelude.{◌≡◌, MatchBool, false, IfOk, OnErr, drop};
ghost use Rattle.wire_parts.specs.Sending.{bytes_of};
ghost use Rattle.core_client.specs.Fronts.{ClientStays};
ghost use Rattle.core_client.specs.Heads.{WritesReply, ShowsOne};

use crate::client::{Client, Pending};
use std::alloc::AllocError;
use std::collections::VecDeque;
use wire_parts::to_send::SendBuffer;
use wire_stream::send_part;

// What the reply of the command shows is written, if there is a reply: whether there is.
fn write_reply(pending: &Pending, output: &mut SendBuffer) -> Result<bool, AllocError>
    ensures ok { IfOk result (λ shown. WritesReply pending.now (bytes_of output.old) shown (bytes_of output.new)) }
    ensures same { IfOk result (λ shown. MatchBool shown (Unit {0}) (output.new ≡ output.old)) }
    ensures err { OnErr result (bytes_of output.new ≡ bytes_of output.old) }
{
    match &pending.reply {
        None => Ok(false),
        Some(reply) => {
            send_part(
                pending.quiet,
                pending.last,
                pending.ask.get(),
                reply,
                output,
            )?;
            Ok(true)
        }
    }
}

// The head is let go. A drop that is a call keeps the proof of a caller short.
pub(crate) fn take_head(queue: &mut VecDeque<Pending>)
    ensures { queue.new.items ≡ drop 1 queue.old.items }
{
    queue.pop_front();
}

impl Client {
    /// The reply at the head of the commands is shown, if there is one: whether there was. The only error is running out of
    /// memory, which leaves the client as it was.
    pub fn show_head(&mut self) -> Result<bool, AllocError>
        requires { self.old.dropped ≡ false }
        ensures ok { IfOk result (λ shown. ShowsOne self.old shown self.new) }
        ensures err { OnErr result (ClientStays self.old self.new) }
    {
        let Some(pending) = self.queue.front() else {
            return Ok(false);
        };
        let shown = write_reply(pending, &mut self.output)?;
        if shown {
            take_head(&mut self.queue);
        }
        Ok(shown)
    }
}
