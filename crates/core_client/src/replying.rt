//! The reply of one of a client's commands comes.

ghost use Rattle.std.specs.Prelude.{◌≡◌, ◌<◌, ℕ, Bool, false, length, position, slice_set, slice_index_or, IfSome, IfNone};
ghost use Rattle.core_client.specs.declared.client.Pending.{Pending as PendingOf};
ghost use Rattle.core_client.specs.Replying.{GoesOnAfter, is_numbered, IsAnswered, HasKeyAtFront, HasPlace, HasNoPlace, KeepsRest, IsPlace, IsOnward, IsOnwardOfSome, replied, AnswersAt};
ghost use Rattle.core_client.specs.declared.replying.ReplyPlace.{ReplyPlace as PlaceOf};

use crate::client::{Client, Pending};
use mc_types::Answer;
use std::collections::VecDeque;
use wire_stream::connection::Front;
use wire_stream::{Request, ends_message};

/// Where a reply goes: the place of its command, and where that isn't of its message's last key, the request at the front.
#[derive(Clone, Copy)]
pub struct ReplyPlace {
    pub at: usize,
    pub onward: Option<Request>,
}

fn place_in(queue: &VecDeque<Pending>, number: u64) -> Option<usize>
    ensures { result ≡ position (is_numbered number) queue.now.items }
{
    queue.iter().position(|pending| pending.number == number)
}

fn put_reply(queue: &mut VecDeque<Pending>, at: usize, reply: Answer)
    requires { at < length queue.old.items }
    ensures { (pending : PendingOf) → queue.new.items ≡ slice_set queue.old.items at (replied reply (slice_index_or queue.old.items at pending)) }
{
    queue[at].reply = Some(reply);
}

// A drop that is a call keeps the proof of a caller short.
fn forget(_reply: Answer) {}

impl Client {
    // After the reply to a key that isn't the last of its message: after the message where the reply ends it, else before its next
    // key.
    fn go_on(&mut self, request: &Request, reply: &Answer)
        requires { IsAnswered self.old request.now }
        ensures front { GoesOnAfter false self.old reply.now self.new }
        ensures rest { KeepsRest self.old self.new }
    {
        let count = request.asks();
        let last = self.index + 1 == count;
        if ends_message(last, reply) {
            self.stream.pass_request(request.used());
            self.index = 0;
            self.waits = false;
        } else {
            self.index += 1;
            self.waits = false;
        }
    }

    fn go_on_by(&mut self, onward: &Option<Request>, reply: &Answer)
        requires { IsOnwardOfSome self.old onward.now }
        ensures front { (last : Bool) → IsOnward self.old last onward.now → GoesOnAfter last self.old reply.now self.new }
        ensures rest { KeepsRest self.old self.new }
    {
        match onward {
            None => {}
            Some(request) => self.go_on(request, reply),
        }
    }

    // The request whose key is waited for, if it stands at the front.
    fn asked_at_front(&self) -> Option<Request>
        ensures some { IfSome result (λ request. IsAnswered self.now request) }
        ensures none { IfNone result (HasKeyAtFront self.now → ⊥) }
    {
        match self.stream.front() {
            Front::Nothing => None,
            Front::Passing(_read) => None,
            Front::Keys(request) => {
                if self.index < request.asks() {
                    Some(request)
                } else {
                    None
                }
            }
        }
    }

    /// The place of the reply of the command of this number, where one can come. It takes no memory.
    pub fn place_of(&self, number: u64) -> Option<ReplyPlace>
        ensures some { IfSome result (λ place. IsPlace self.now number place) }
        ensures none { IfNone result (HasNoPlace self.now number) }
    {
        let at = place_in(&self.queue, number)?;
        let pending = self.queue.get(at)?;
        if pending.last {
            return Some(ReplyPlace { at, onward: None });
        }
        let request = self.asked_at_front()?;
        Some(ReplyPlace {
            at,
            onward: Some(request),
        })
    }

    /// The reply came to the command at this place.
    pub fn answer(&mut self, place: ReplyPlace, reply: Answer)
        requires { (number : ℕ) × IsPlace self.old number place }
        ensures { (number : ℕ) (is : IsPlace self.old number place) → AnswersAt self.old place.at is.pending.last reply self.new }
    {
        self.go_on_by(&place.onward, &reply);
        put_reply(&mut self.queue, place.at, reply);
    }

    /// The reply of the command of this number came; it is let go where none can come. It takes no memory.
    pub fn take_reply(&mut self, number: u64, reply: Answer)
        ensures answered { (pending : PendingOf) → HasPlace self.old number pending → (place : PlaceOf) × (is : IsPlace self.old number place) × AnswersAt self.old place.at is.pending.last reply self.new }
        ensures dropped { self.new.dropped ≡ self.old.dropped }
    {
        match self.place_of(number) {
            Some(place) => self.answer(place, reply),
            None => forget(reply),
        }
    }
}
