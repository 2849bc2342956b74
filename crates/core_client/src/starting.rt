//! The next key of the message at a client's front begins.

ghost use Rattle.std.specs.Prelude.{◌≡◌, ◌≤◌, ◌++◌, ◌∷◌, ℕ, List, [], None, false, drop, length, OnOk, OnErr};
ghost use Rattle.wire_parts.specs.declared.skip.Skip.TheVariants.{Nothing};
ghost use Rattle.wire_parts.specs.Stream.{Stands};
ghost use Rattle.wire_stream.specs.Held.{bytes_at};
ghost use Rattle.core_client.specs.Fronts.{ClientStays, IsAskAt, MovesOn, BeginsKey};

use crate::client::{Client, Pending};
use crate::marked_ask::MarkedAsk;
use mc_types::SharedAsk;
use std::alloc::AllocError;
use std::collections::VecDeque;
use wire_stream::Request;

// One more at the end of a queue.
fn put_last(queue: &mut VecDeque<Pending>, pending: Pending) -> Result<(), AllocError>
    ensures ok { OnOk result (queue.new.items ≡ queue.old.items ++ pending ∷ []) }
    ensures err { OnErr result (queue.new.items ≡ queue.old.items) }
{
    queue.push_back(pending)?;
    Ok(())
}

impl Client {
    // After the start of a key: after its message where it is the last, else its reply is waited for.
    fn move_on(&mut self, last: bool, used: usize)
        requires { used ≤ length (bytes_at self.old.stream) }
        ensures { (held : List ℕ) → self.old.stream ≡ Stands Nothing held → MovesOn last self.old (drop used held) self.new }
    {
        if last {
            self.stream.pass_request(used);
            self.index = 0;
            self.waits = false;
        } else {
            self.waits = true;
        }
    }

    /// The next key of the request at the front begins under this number. The only error is running out of memory, which leaves
    /// the client as it was.
    pub fn begin(
        &mut self,
        request: &Request,
        ask: SharedAsk,
        number: u64,
    ) -> Result<(), AllocError>
        requires at { IsAskAt self.old request.now ask }
        requires ready { self.old.waits ≡ false }
        ensures ok { OnOk result (BeginsKey self.old ask number self.new) }
        ensures err { OnErr result (ClientStays self.old self.new) }
    {
        let count = request.asks();
        let last = self.index + 1 == count;
        let pending = Pending {
            ask: MarkedAsk::new(ask),
            reply: None,
            number,
            quiet: request.quiet(),
            last,
        };
        put_last(&mut self.queue, pending)?;
        self.move_on(last, request.used());
        Ok(())
    }
}
