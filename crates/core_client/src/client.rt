//! One client of the core, and its commands whose replies were not shown yet.

ghost use Rattle.std.specs.Prelude.{◌≡◌, ◌++◌, [], false, ◌↔◌, IsTrue, OnOk, OnErr, IfOk};
ghost use Rattle.wire_parts.specs.Sending.{bytes_of};
ghost use Rattle.wire_stream.specs.Held.{bytes_at};
ghost use Rattle.core_client.specs.Clients.{has_own, IsNewClient, IsEnded, TakesPiece, LosesOutput};

use crate::marked_ask::{MarkedAsk, MarkedKey};
use mc_types::{Answer, Key};
use std::alloc::{AllocError, Global};
use std::collections::VecDeque;
use wire_parts::to_send::SendBuffer;
use wire_stream::connection::ClientStream;

/// A command of a client whose reply was not shown yet.
#[derive(Drop)]
pub struct Pending {
    // (what is short comes before what is long, so that it lies in one line of the processor's cache)
    pub ask: MarkedAsk,
    pub number: u64,
    /// Whether the message of the command wants no answer.
    pub quiet: bool,
    /// Whether the command asks the last key of its message.
    pub last: bool,
    pub reply: Option<Answer>,
}

/// One client: what it sent and is not done, what it was not given yet, and its commands that have begun and whose replies
/// were not shown yet, in its own order.
#[derive(Drop)]
pub struct Client {
    pub stream: ClientStream,
    pub output: SendBuffer,
    pub queue: VecDeque<Pending>,
    /// Which key of the message at the front is next.
    pub index: usize,
    /// Whether the key before it has no reply yet.
    pub waits: bool,
    /// Whether nothing is done for it any more, as memory was refused.
    pub dropped: bool,
}

// Whether a command of the queue without a reply is on the key.
fn waits_on(key: &Key, queue: &VecDeque<Pending>) -> bool
    ensures { result ≡ has_own key.now queue.now.items }
{
    let sought = MarkedKey::new(key);
    // (mostly the mark tells, so it is looked at first)
    queue.iter().any(|pending| pending.ask.is_on(&sought) && pending.reply.is_none())
}

impl Client {
    /// A client that said nothing yet. It takes no memory.
    pub fn new(alloc: Global) -> Client
        ensures { IsNewClient result }
    {
        Client {
            stream: ClientStream::new(alloc),
            output: SendBuffer::new(alloc),
            queue: VecDeque::new(alloc),
            index: 0,
            waits: false,
            dropped: false,
        }
    }

    /// Whether a command of the client on this key has no reply yet. It takes no memory.
    pub fn has_own(&self, key: &Key) -> bool
        ensures { result ≡ has_own key.now self.now.queue.items }
    {
        waits_on(key, &self.queue)
    }

    /// Whether nothing is read of the client any more. It takes no memory.
    pub fn is_ended(&self) -> bool
        ensures { IsTrue result ↔ IsEnded self.now }
    {
        self.dropped || self.stream.is_closed()
    }

    /// A piece came. The only error is running out of memory, which leaves the client as it was.
    pub fn feed(&mut self, piece: &[u8]) -> Result<(), AllocError>
        ensures ok { OnOk result (TakesPiece self.old piece.now self.new) }
        ensures err { OnErr result (self.new ≡ self.old) }
    {
        self.stream.feed(piece)
    }

    /// Where nothing is held of the client that isn't done, the room for that goes back: whether nothing is.
    pub fn give_back(&mut self, alloc: Global) -> bool
        ensures none { IsTrue result ↔ (bytes_at self.old.stream ≡ []) }
        ensures same { self.new ≡ self.old }
    {
        self.stream.give_back(alloc)
    }

    /// The output so far goes after what is to be sent there, and is then empty. Shared data aren't copied, and where nothing is to be sent
    /// there the two are exchanged. The only error is running out of memory, which leaves both as they were.
    pub fn move_output(&mut self, out: &mut SendBuffer) -> Result<(), AllocError>
        ensures bytes { OnOk result (bytes_of out.new ≡ bytes_of out.old ++ bytes_of self.old.output) }
        ensures ok { OnOk result (LosesOutput self.old self.new) }
        ensures err { OnErr result ((self.new ≡ self.old) × (bytes_of out.new ≡ bytes_of out.old)) }
    {
        self.output.move_to(out)
    }

    /// The output so far, a copy, which is then empty. The only error is running out of memory, which leaves the client as it was.
    pub fn take_output(&mut self, alloc: Global) -> Result<Vec<u8>, AllocError>
        ensures bytes { IfOk result (λ bytes. bytes.items ≡ bytes_of self.old.output) }
        ensures ok { OnOk result (LosesOutput self.old self.new) }
        ensures err { OnErr result (self.new ≡ self.old) }
    {
        let bytes = self.output.to_vec(alloc)?;
        self.output.clear();
        Ok(bytes)
    }
}
