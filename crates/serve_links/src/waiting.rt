//! The calls that wait for a link. There is always room for so many, whatever memory there is.

ghost use Rattle.std.specs.Prelude.{◌≡◌, ◌↔◌, ◌∷◌, ◌++◌, ◌<◌, ◌≤◌, ◌==◌, [], None, length, slice_index_or, IsSome, OnOk, IfOk, IfErr, IfSome, IfNone, OnSome, MatchOption};
ghost use Rattle.std.specs.List.{remove};
ghost use Rattle.serve_links.specs.Links.{least_waiting};

use crate::calls::SentCall;
use std::alloc::{AllocError, AllocFailed, Global};
use std::collections::VecDeque;
use std::marker::Model;

/// For so many calls there is room from the start.
pub const LEAST_WAITING: usize = 64;

/// The calls that wait for a link, the one that came first in front. Contracts see the calls.
///
/// Room for [`LEAST_WAITING`] of them is taken at first and never given back: so memory is refused only to a call behind as many.
#[derive(Drop)]
pub struct WaitLine {
    calls: VecDeque<SentCall>,
}

impl Model for WaitLine {
    ghost use Rattle.std.specs.Prelude.{List, ◌≤◌};
    ghost use Rattle.std.specs.Coded.{codes};
    ghost use Rattle.std.specs.VecDeque.{deque_capacity};
    ghost use Rattle.serve_links.specs.contracts.calls.calls.SentCall as sent;
    ghost use Rattle.serve_links.specs.declared.calls.calls.SentCall.{SentCall};

    ghost Value = { List SentCall };

    ghost coded = { Prim.hlevel (codes, sent.the_row.coded) };

    ghost view = { λ line. line.calls.items };

    ghost invariant = { λ line. 64 ≤ deque_capacity line.calls };
}

impl WaitLine {
    /// No call waits. The only error is running out of memory for the room.
    pub fn new(alloc: Global) -> Result<WaitLine, AllocError>
        ensures { IfOk result (λ line. line ≡ []) }
    {
        Ok(WaitLine {
            calls: VecDeque::with_capacity(alloc, LEAST_WAITING)?,
        })
    }

    /// How many calls wait.
    pub fn len(&self) -> usize
        ensures { result ≡ length self.now }
    {
        self.calls.len()
    }

    /// Whether none does.
    pub fn is_empty(&self) -> bool
        ensures { result ≡ (length self.now == 0) }
    {
        self.calls.is_empty()
    }

    /// The first.
    pub fn front(&self) -> Option<&SentCall>
        ensures variant { IsSome result ↔ (0 < length self.now) }
        ensures lookup { IfSome result (λ call. call.now ≡ slice_index_or self.now 0 call.now) }
    {
        self.calls.front()
    }

    /// The call waits behind the others. It is given back only where memory was refused, and [`LEAST_WAITING`] wait or more.
    pub fn push_back(&mut self, call: SentCall) -> Result<(), SentCall>
        ensures ok { OnOk result (self.new ≡ self.old ++ call ∷ []) }
        ensures err { IfErr result (λ given. (given ≡ call) × (self.new ≡ self.old) × (least_waiting ≤ length self.old)) }
    {
        match self.calls.push_back(call) {
            Ok(()) => Ok(()),
            Err(AllocFailed { value }) => Err(value),
        }
    }

    /// The call waits before the others. It is given back only where memory was refused, and [`LEAST_WAITING`] wait or more.
    pub fn push_front(&mut self, call: SentCall) -> Result<(), SentCall>
        ensures ok { OnOk result (self.new ≡ call ∷ self.old) }
        ensures err { IfErr result (λ given. (given ≡ call) × (self.new ≡ self.old) × (least_waiting ≤ length self.old)) }
    {
        match self.calls.push_front(call) {
            Ok(()) => Ok(()),
            Err(AllocFailed { value }) => Err(value),
        }
    }

    /// The first waits no longer.
    pub fn pop_front(&mut self) -> Option<SentCall>
        ensures waiting { MatchOption result (self.new ≡ self.old) (λ call. self.old ≡ call ∷ self.new) }
        ensures none { result ≡ None → self.old ≡ [] }
    {
        self.calls.pop_front()
    }

    /// The one at this place, if there is one, waits no longer.
    pub fn remove(&mut self, place: usize) -> Option<SentCall>
        ensures value { IfSome result (λ call. call ≡ slice_index_or self.old place call) }
        ensures items { OnSome result (self.new ≡ remove self.old place) }
        ensures variant { IsSome result ↔ (place < length self.old) }
        ensures unchanged { IfNone result (self.new ≡ self.old) }
    {
        self.calls.remove(place)
    }

    /// Each of them, the first in front.
    pub fn all(&self) -> &VecDeque<SentCall> {
        &self.calls
    }
}
