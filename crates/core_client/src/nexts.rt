//! What is next for a client whose commands can't go on.

ghost use Rattle.std.specs.Prelude.{◌≡◌, ◌↔◌, ℕ, [], false, IsTrue, IfOk};
ghost use Rattle.mc_types.specs.Asks.{IsAsk};
ghost use Rattle.wire_stream.specs.Held.{IsReadAt, bytes_at};
ghost use Rattle.wire_stream.specs.Message.{message_in};
ghost use Rattle.wire_stream.specs.Asks.{asks_of};
ghost use Rattle.wire_stream.specs.declared.requests.reader.Read.TheVariants.{More, Request as Requests};
ghost use Rattle.wire_stream.specs.Fronts.{AsksNone};
ghost use Rattle.core_client.specs.Nexts.{CanAsk, CanBegin, IsNextOf};

use crate::client::{Client, Pending};
use mc_types::SharedAsk;
use std::alloc::{AllocError, Global};
use std::collections::VecDeque;
use wire_stream::{Read, Request};

/// What is next, by what was read at the front: of that nothing is copied.
#[derive(Clone, Copy)]
pub enum Next {
    /// Nothing: no whole message is held, and no reply is waited for.
    Nothing,
    /// The message, which asks no server.
    Passing,
    /// The next key of the request.
    Key,
    /// Nothing before a reply has come.
    Later,
}

fn is_free(queue: &VecDeque<Pending>) -> bool
    ensures { IsTrue result ↔ (queue.now.items ≡ []) }
{
    queue.is_empty()
}

impl Client {
    // What is next where no whole message stands at the front.
    fn nothing(&self) -> Next
        requires { IsReadAt self.now.stream More }
        ensures { (depth : ℕ) → IsNextOf depth self.now More result }
    {
        if is_free(&self.queue) {
            Next::Nothing
        } else {
            Next::Later
        }
    }

    // What is next where a message that asks no server stands at the front.
    fn passing(&self, read: &Read) -> Next
        requires at { IsReadAt self.now.stream read.now }
        requires asks { AsksNone self.now.stream read.now }
        requires served { self.now.dropped ≡ false }
        ensures { (depth : ℕ) → IsNextOf depth self.now read.now result }
    {
        let _read = read;
        if is_free(&self.queue) {
            Next::Passing
        } else {
            Next::Later
        }
    }

    // What is next where a request with keys stands at the front.
    fn key_of(&self, depth: usize, request: &Request) -> Next
        requires at { IsReadAt self.now.stream (Requests request.now) }
        requires some { asks_of (message_in (bytes_at self.now.stream) request.now) ≡ [] → ⊥ }
        requires served { self.now.dropped ≡ false }
        ensures { IsNextOf depth self.now (Requests request.now) result }
    {
        if self.waits || depth <= self.queue.len() || request.asks() <= self.index {
            return Next::Later;
        }
        Next::Key
    }

    /// What stands at the client's front, if a whole message does. It takes no memory.
    pub fn read(&self) -> Read
        ensures { IsReadAt self.now.stream result }
    {
        return self.stream.read();
    }

    /// What is next for the client, by what was read at its front, where so many commands may have no shown reply. It takes no memory.
    pub fn next(&self, depth: usize, read: &Read) -> Next
        requires at { IsReadAt self.now.stream read.now }
        requires served { self.now.dropped ≡ false }
        ensures { IsNextOf depth self.now read.now result }
    {
        match read {
            Read::More => self.nothing(),
            Read::TooLong => self.passing(read),
            Read::OtherProtocol => self.passing(read),
            Read::Refused { .. } => self.passing(read),
            Read::Request(request) => {
                if request.asks() == 0 {
                    self.passing(read)
                } else {
                    self.key_of(depth, request)
                }
            }
        }
    }

    /// The ask of the next key of the request at the client's front, in the memory of the spare one where nobody else holds that. The only error is
    /// running out of memory.
    pub fn next_ask(
        &mut self,
        alloc: Global,
        spare: Option<SharedAsk>,
        request: &Request,
    ) -> Result<SharedAsk, AllocError>
        requires { CanAsk request.now self.old }
        ensures begins { IfOk result (λ ask. CanBegin request.now ask self.old) }
        ensures asks { IfOk result IsAsk }
        ensures same { self.new ≡ self.old }
    {
        self.stream.ask(alloc, spare, request, self.index)
    }
}
