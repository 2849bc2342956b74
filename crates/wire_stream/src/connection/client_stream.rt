//! A client's bytes that are not done, and how far the keys of the request at their front were asked.

ghost use Rattle.std.specs.Prelude.{◌≡◌, ◌+◌, ◌^◌, ◌≤◌, ◌<◌, ◌↔◌, IsTrue, ℕ, List, [], Some, drop, length, slice_get, OnOk, OnErr, IfOk};
ghost use Rattle.wire_parts.specs.declared.skip.Skip.TheVariants.{Nothing};
ghost use Rattle.wire_parts.specs.Stream.{Place, Stands, Closed, skipped, extended};
ghost use Rattle.wire_stream.specs.Message.{message_in};
ghost use Rattle.wire_stream.specs.Asks.{asks_of, IsClientAsk};
ghost use Rattle.wire_stream.specs.declared.requests.reader.Read.TheVariants.{Request as Requests};
ghost use Rattle.wire_stream.specs.Held.{bytes_at, IsReadAt};
ghost use Rattle.wire_stream.specs.ClientStreams.{IsWalkAt, WalkIsKept};

use crate::{Asks, Read, Request, SHARED_FROM, Skip, TextStream};
use mc_types::{Ask, SharedAsk};
use std::alloc::{AllocError, Global};
use std::marker::Model;

/// A request of several keys that stands at the front, and a walk over its asks.
#[derive(Clone, Copy)]
struct Walk {
    request: Request,
    asks: Asks,
    /// How many asks were taken.
    taken: usize,
}

/// The bytes of one client that are not done. A request of several keys that stands at their front is read once, and its keys are walked over once.
#[derive(Drop)]
pub struct ClientStream {
    stream: TextStream,
    walk: Option<Walk>,
    /// Whether large data of stores share the buffer that they came in.
    shares: bool,
}

impl Model for ClientStream {
    ghost use Rattle.wire_parts.specs.Stream.{Place};
    ghost use Rattle.wire_stream.specs.ClientStreams.{WalkIsKept};

    ghost Value = { Place };

    ghost view = { λ s. s.stream };

    ghost invariant = { λ s. WalkIsKept s.stream s.walk };
}

// A drop that is a call keeps the proof of a caller short.
fn let_go(_ask: Option<Ask>) {}

impl Walk {
    fn of(request: &Request) -> Walk
        ensures at { (place : Place) → IsReadAt place (Requests request.now) → IsWalkAt place result }
        ensures first { result.taken ≡ 0 }
    {
        Walk {
            request: *request,
            asks: request.walk(),
            taken: 0,
        }
    }

    // Goes past one ask.
    fn step(&mut self, alloc: Global, stream: &TextStream) -> Result<(), AllocError>
        requires at { IsWalkAt stream.now self.old }
        requires there { self.old.taken < length (asks_of (message_in (bytes_at stream.now) self.old.request)) }
        requires fits { self.old.taken + 1 < 2 ^ 64 }
        ensures at { OnOk result (IsWalkAt stream.now self.new) }
        ensures request { self.new.request ≡ self.old.request }
        ensures taken { OnOk result (self.new.taken ≡ self.old.taken + 1) }
    {
        let_go(self.asks.next(alloc, &stream.received())?);
        self.taken += 1;
        Ok(())
    }

    // Goes to the ask of this number.
    fn go_to(&mut self, alloc: Global, stream: &TextStream, i: usize) -> Result<(), AllocError>
        requires at { IsWalkAt stream.now self.old }
        requires before { self.old.taken ≤ i }
        requires there { i < length (asks_of (message_in (bytes_at stream.now) self.old.request)) }
        ensures at { OnOk result (IsWalkAt stream.now self.new) }
        ensures request { self.new.request ≡ self.old.request }
        ensures taken { OnOk result (self.new.taken ≡ i) }
    {
        while self.taken < i {
            self.step(alloc, stream)?;
        }
        Ok(())
    }

    // The ask that the walk stands at.
    fn ask(
        &self,
        alloc: Global,
        spare: Option<SharedAsk>,
        stream: &TextStream,
    ) -> Result<SharedAsk, AllocError>
        requires at { IsWalkAt stream.now self.now }
        requires there { self.now.taken < length (asks_of (message_in (bytes_at stream.now) self.now.request)) }
        ensures value { IfOk result (λ ask. slice_get (asks_of (message_in (bytes_at stream.now) self.now.request)) self.now.taken ≡ Some ask) }
        ensures ask { IfOk result IsClientAsk }
    {
        let mut asks = self.asks;
        match asks.next(alloc, &stream.received())? {
            Some(ask) => SharedAsk::reusing(alloc, spare, ask),
            None => unreachable!(),
        }
    }
}

impl ClientStream {
    /// The stream of a client that said nothing yet. It takes no memory. Large data of its stores share the buffer that they came in, all of
    /// which lasts as long as they do.
    pub fn new(alloc: Global) -> ClientStream
        ensures { result ≡ Stands Nothing [] }
    {
        ClientStream {
            stream: TextStream::new(alloc),
            walk: None,
            shares: true,
        }
    }

    /// The stream of a client that said nothing yet. The data of its stores are copied, for whoever keeps them.
    pub fn copying(alloc: Global) -> ClientStream
        ensures { result ≡ Stands Nothing [] }
    {
        ClientStream {
            stream: TextStream::new(alloc),
            walk: None,
            shares: false,
        }
    }

    /// Whether nothing is read any more: after `quit`, or a line that was too long.
    pub fn is_closed(&self) -> bool
        ensures { IsTrue result ↔ (self.now ≡ Closed) }
    {
        self.stream.is_closed()
    }

    /// How many bytes are held.
    pub fn held_len(&self) -> usize
        ensures { result ≡ length (bytes_at self.now) }
    {
        self.stream.held().len()
    }

    /// A piece came. The only error is running out of memory, which leaves the stream as it was.
    pub fn feed(&mut self, piece: &[u8]) -> Result<(), AllocError>
        ensures ok { OnOk result (self.new ≡ extended self.old piece.now) }
        ensures err { OnErr result (self.new ≡ self.old) }
    {
        self.stream.feed(piece)
    }

    /// The message at the front, if a whole one is held: `Read::More` also where bytes are still to be passed over, and
    /// where the stream is closed. It takes no memory.
    pub fn read(&self) -> Read
        ensures { IsReadAt self.now result }
    {
        match &self.walk {
            Some(walk) => return Read::Request(walk.request),
            None => return self.stream.read(),
        }
    }

    // The walk that is kept where it hasn't passed this ask, or one at the first ask.
    fn walk_before(&self, request: &Request, i: usize) -> Walk
        requires { IsReadAt self.now (Requests request.now) }
        ensures at { IsWalkAt self.now result }
        ensures before { result.taken ≤ i }
    {
        match self.walk {
            Some(walk) if walk.taken <= i => return walk,
            _ => return Walk::of(request),
        }
    }

    // The ask of this number of a request of several keys; the walk that led to the ask is kept.
    fn walk_to(
        &mut self,
        alloc: Global,
        spare: Option<SharedAsk>,
        request: &Request,
        i: usize,
    ) -> Result<SharedAsk, AllocError>
        requires read { IsReadAt self.old (Requests request.now) }
        requires there { i < length (asks_of (message_in (bytes_at self.old) request.now)) }
        ensures value { IfOk result (λ ask. slice_get (asks_of (message_in (bytes_at self.old) request.now)) i ≡ Some ask) }
        ensures ask { IfOk result IsClientAsk }
        ensures same { self.new ≡ self.old }
    {
        let mut walk = self.walk_before(request, i);
        walk.go_to(alloc, &self.stream, i)?;
        let ask = walk.ask(alloc, spare, &self.stream)?;
        self.walk = Some(walk);
        Ok(ask)
    }

    // Large data of the request at the front, which takes so many bytes, are shared from now on.
    fn share(&mut self, used: usize)
        ensures { self.new ≡ self.old }
    {
        if self.shares && used >= SHARED_FROM {
            self.stream.share_front(used);
        }
    }

    // The ask of this number of the request at the front.
    fn ask_at(
        &self,
        alloc: Global,
        spare: Option<SharedAsk>,
        request: &Request,
        i: usize,
    ) -> Result<SharedAsk, AllocError>
        requires read { IsReadAt self.now (Requests request.now) }
        requires there { i < length (asks_of (message_in (bytes_at self.now) request.now)) }
        ensures value { IfOk result (λ ask. slice_get (asks_of (message_in (bytes_at self.now) request.now)) i ≡ Some ask) }
        ensures ask { IfOk result IsClientAsk }
    {
        request.ask(alloc, spare, &self.stream.received(), i)
    }

    /// The ask of this number, counted from 0, of the request at the front: a copy, in the memory of the spare one where nobody else holds
    /// that, whose large data share the buffer that they came in where the stream shares them. All asks of a request together, where they are
    /// asked for in their order, take time linear in its bytes. The only error is running out of memory.
    pub fn ask(
        &mut self,
        alloc: Global,
        spare: Option<SharedAsk>,
        request: &Request,
        i: usize,
    ) -> Result<SharedAsk, AllocError>
        requires read { IsReadAt self.old (Requests request.now) }
        requires there { i < length (asks_of (message_in (bytes_at self.old) request.now)) }
        ensures value { IfOk result (λ ask. slice_get (asks_of (message_in (bytes_at self.old) request.now)) i ≡ Some ask) }
        ensures ask { IfOk result IsClientAsk }
        ensures same { self.new ≡ self.old }
    {
        if request.asks() == 1 {
            self.share(request.used());
            return self.ask_at(alloc, spare, request, i);
        }
        self.walk_to(alloc, spare, request, i)
    }

    /// A request of so many bytes is done.
    pub fn pass_request(&mut self, used: usize)
        requires { used ≤ length (bytes_at self.old) }
        ensures passed { (held : List ℕ) → self.old ≡ Stands Nothing held → self.new ≡ Stands Nothing (drop used held) }
        ensures closed { self.old ≡ Closed → self.new ≡ Closed }
    {
        self.walk = None;
        self.stream.pass_request(used);
    }

    /// A refused message of so many bytes is done, and what `skip` says is passed over after them.
    pub fn pass_refused(&mut self, used: usize, skip: Skip)
        requires { used ≤ length (bytes_at self.old) }
        ensures passed { (held : List ℕ) → self.old ≡ Stands Nothing held → self.new ≡ skipped skip (drop used held) }
        ensures closed { self.old ≡ Closed → self.new ≡ Closed }
    {
        self.walk = None;
        self.stream.pass_refused(used, skip);
    }

    /// Where nothing is held, the room for it goes back: whether nothing is.
    pub fn give_back(&mut self, alloc: Global) -> bool
        ensures none { IsTrue result ↔ (bytes_at self.old ≡ []) }
        ensures same { self.new ≡ self.old }
    {
        self.stream.give_back(alloc)
    }

    /// Nothing is read any more.
    pub fn close(&mut self)
        ensures { self.new ≡ Closed }
    {
        self.walk = None;
        self.stream.close();
    }
}
