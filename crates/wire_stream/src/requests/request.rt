//! What a request of either dialect asks: its asks, one for each key.
ghost use Rattle.std.specs.Prelude.{◌≡◌, ℕ, List, ◌<◌, IfOk, IfSome, OnErr, Some, length, slice_get};
ghost use Rattle.wire_classic.specs.Asks.{asks_taken};
ghost use Rattle.wire_meta.specs.Message as metas;
ghost use Rattle.wire_meta.specs.Asks as meta_asks;
ghost use Rattle.wire_stream.specs.Message.{IsReadFrom, message_in, used_of};
ghost use Rattle.wire_stream.specs.Asks.{asks_of, quiet_of, own_of, request_of, taken_of, IsWalk, IsClientAsk};

use mc_types::{Ask, SharedAsk, Tokens};
use std::alloc::{AllocError, Global};
use wire_parts::ProxyCommand;
use wire_parts::received::Received;

/// A request that is served, in the dialect of its command word.
#[derive(Clone, Copy)]
pub enum Request {
    /// `get`, `set` and the other commands of the classic dialect.
    Classic(wire_classic::ClassicRequest),
    /// `mg`, `ms`, `md`, `ma` and `mn`.
    Meta(wire_meta::MetaRequest),
}

/// A walk over the asks of a meta request, which are one or none.
#[derive(Clone, Copy)]
pub struct MetaAsks {
    request: wire_meta::MetaRequest,
    taken: usize,
}

/// A walk over the asks of a request, in order. All of them together take time linear in the bytes of the request.
#[derive(Clone, Copy)]
pub enum Asks {
    Classic(wire_classic::Asks),
    Meta(MetaAsks),
}

impl Request {
    /// How many bytes the request takes, its data block included. It takes no memory.
    pub fn used(&self) -> usize
        ensures { result ≡ used_of self.now }
    {
        match self {
            Request::Classic(request) => request.used,
            Request::Meta(request) => request.used,
        }
    }

    /// What the request asks of mcgate itself, if it does. It takes no memory.
    pub fn own(&self) -> Option<ProxyCommand>
        ensures { (bytes : List ℕ) → result ≡ own_of (message_in bytes self.now) }
    {
        match self {
            Request::Classic(request) => request.own(),
            Request::Meta(request) => request.own(),
        }
    }

    /// How many asks the request is: one for each key, none for a request of mcgate itself. It takes no memory.
    pub fn asks(&self) -> usize
        ensures { (bytes : List ℕ) → IsReadFrom bytes self.now → result ≡ length (asks_of (message_in bytes self.now)) }
    {
        match self {
            Request::Classic(request) => request.asks(),
            Request::Meta(request) => request.asks(),
        }
    }

    /// Whether `noreply` stands on its line, which hides every answer, or `q`, which hides the answers that the client
    /// expects. It takes no memory.
    pub fn quiet(&self) -> bool
        ensures { (bytes : List ℕ) → IsReadFrom bytes self.now → result ≡ quiet_of (message_in bytes self.now) }
    {
        match self {
            Request::Classic(request) => request.quiet(),
            Request::Meta(request) => request.quiet(),
        }
    }

    /// A walk over the asks of the request, at the first one. It takes no memory.
    pub fn walk(&self) -> Asks
        ensures request { request_of result ≡ self.now }
        ensures first { taken_of result ≡ 0 }
        ensures walk { (bytes : List ℕ) → IsReadFrom bytes self.now → IsWalk bytes result }
    {
        match self {
            Request::Classic(request) => Asks::Classic(request.walk()),
            Request::Meta(request) => Asks::Meta(MetaAsks {
                request: *request,
                taken: 0,
            }),
        }
    }

    /// The ask of this number, counted from 0: a copy, in the memory of the spare one where nobody else holds that, whose data may share the
    /// buffer that they came in. It walks over the keys before it; a walk over all asks is `walk`. The only error is running out of memory.
    pub fn ask(
        &self,
        alloc: Global,
        mut spare: Option<SharedAsk>,
        received: &Received,
        i: usize,
    ) -> Result<SharedAsk, AllocError>
        requires read { IsReadFrom received.now self.now }
        requires there { i < length (asks_of (message_in received.now self.now)) }
        ensures value { IfOk result (λ ask. slice_get (asks_of (message_in received.now self.now)) i ≡ Some ask) }
        ensures ask { IfOk result IsClientAsk }
    {
        match self {
            Request::Classic(request) => {
                let parts = request.parts(alloc, received, i)?;
                SharedAsk::of(alloc, spare, parts)
            }
            Request::Meta(request) => {
                let room = SharedAsk::spare_tokens(alloc, &mut spare);
                let parts = request.parts(alloc, room, received, i)?;
                SharedAsk::of(alloc, spare, parts)
            }
        }
    }
}

impl MetaAsks {
    fn next(&mut self, alloc: Global, received: &Received) -> Result<Option<Ask>, AllocError>
        requires { metas.IsMetaReadFrom received.now self.old.request }
        ensures value { IfOk result (λ next. next ≡ slice_get (meta_asks.meta_asks_of (metas.meta_message_in received.now self.old.request)) self.old.taken) }
        ensures ask { IfOk result (λ next. IfSome next IsClientAsk) }
        ensures taken { IfOk result (λ next. self.new.taken ≡ asks_taken next self.old.taken) }
        ensures request { self.new.request ≡ self.old.request }
        ensures err { OnErr result (self.new ≡ self.old) }
    {
        if self.taken >= self.request.asks() {
            return Ok(None);
        }
        let parts = self
            .request
            .parts(alloc, Tokens::new(alloc), received, self.taken)?;
        let ask = Ask::of(alloc, parts)?;
        self.taken += 1;
        Ok(Some(ask))
    }
}

impl Asks {
    /// The next ask, a copy whose data may share the buffer that they came in, or `None` after the last one. The only error is
    /// running out of memory, after which the walk stands where it stood.
    pub fn next(&mut self, alloc: Global, received: &Received) -> Result<Option<Ask>, AllocError>
        requires { IsWalk received.now self.old }
        ensures value { IfOk result (λ next. next ≡ slice_get (asks_of (message_in received.now (request_of self.old))) (taken_of self.old)) }
        ensures ask { IfOk result (λ next. IfSome next IsClientAsk) }
        ensures taken { IfOk result (λ next. taken_of self.new ≡ asks_taken next (taken_of self.old)) }
        ensures request { request_of self.new ≡ request_of self.old }
        ensures walk { IsWalk received.now self.new }
        ensures err { OnErr result (self.new ≡ self.old) }
    {
        // Each arm returns by itself: the value of a match is copied once more.
        match self {
            Asks::Classic(walk) => return walk.next(alloc, received),
            Asks::Meta(walk) => return walk.next(alloc, received),
        }
    }
}
