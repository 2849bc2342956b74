//! What is noted of a client, by its id, as it is served. Nothing here knows the core.

ghost use Rattle.std.specs.Prelude.{◌≡◌, true, None, IfSome, slice_set};
ghost use Rattle.serve_wire.specs.Calls.{Closes};
ghost use Rattle.serve_clients.specs.Agrees.{end_said_of};
ghost use Rattle.serve_clients.specs.Marks.{client_of};
ghost use Rattle.serve_clients.specs.Holdings.{MayGoOn};
ghost use Rattle.serve_proxy.specs.Stalls.{HoldAlike};
ghost use Rattle.serve_links.specs.Shut.{client_conn};
ghost use Rattle.serve_proxy.specs.Ends.{Stay, GoAlone, AllGoClosed};

use crate::sockets::{Sockets, close_if_any};
use serve_clients::{Client, Departure};
use serve_links::IDLE_ROOM;
use serve_wire::Wire;

/// What a client's polls ended with.
#[derive(Clone, Copy, PartialEq, Eq)]
pub enum Rest {
    /// Nothing is left to do for it.
    Idle,
    /// A reply is waited for.
    Waiting,
    /// A key or a server is waited for, or that less is held for all clients.
    Busy,
    /// It takes no more output, or its share is held for it.
    Full,
    /// Its time is up.
    More,
}

// So many things are done for a client before the next one's turn.
const POLLS: usize = 128;

// Whether one of its commands may go on, or begin where it has so large a share. Of one that is broken off none begins, once all that have
// begun wait for answers.
fn may_go_on(client: &Client, share: usize, in_rounds: bool) -> bool
    ensures { result ≡ true → MayGoOn share client.now }
{
    let begins_none = client.is_broken && client.wants_more && client.settled == 0;
    client.may_go_on(share) && (in_rounds || !begins_none)
}

// What its polls ended with, and whether more may be done for it where it has so large a share. In rounds all is read as it comes.
fn note_rest(client: &mut Client, rest: Rest, share: usize, in_rounds: bool) -> bool
    ensures said { end_said_of client.new ≡ end_said_of client.old }
{
    let is_left = rest == Rest::Full && client.is_broken && client.wants_more;
    client.wants_more = in_rounds || rest == Rest::Idle || rest == Rest::Waiting || is_left;
    match rest {
        Rest::More => true,
        Rest::Idle => client.can_read() || client.has_held(),
        // (what was shown since made room)
        Rest::Full => client.can_read() || may_go_on(client, share, in_rounds),
        Rest::Waiting | Rest::Busy => client.can_read(),
    }
}

impl<W: Wire> Sockets<W> {
    /// How often a client is polled before the next one's turn.
    pub(crate) fn polls(&self) -> usize {
        if self.in_rounds { 1 } else { POLLS }
    }

    /// Whether a command of the client of this id may go on, or begin.
    pub(crate) fn may_go_on(&mut self, id: usize) -> bool
        ensures ends { Stay W.history self.old self.new }
        ensures share { result ≡ true → IfSome (client_of self.old.clients id) (MayGoOn self.old.stalls.share) }
    {
        let share = self.stalls.share;
        match self.clients.get_mut(id) {
            Some(client) => may_go_on(client, share, self.in_rounds),
            None => false,
        }
    }

    /// What the polls of the client of this id end with where none of its commands may go on or begin.
    pub(crate) fn rest_of(&self, id: usize) -> Rest {
        if self.stalls.is_scarce && self.clients.held(id) > 0 {
            Rest::Busy
        } else {
            Rest::Full
        }
    }

    /// The core is done with a message of the client of this id.
    pub(crate) fn note_passed(&mut self, id: usize)
        ensures ends { Stay W.history self.old self.new }
    {
        if let Some(client) = self.clients.get_mut(id) {
            client.has_passed();
        }
    }

    /// The core has refused a message of the client of this id, and is done with that: `is_closed` tells whether it closed the client for it.
    pub(crate) fn note_refused(&mut self, id: usize, is_closed: bool)
        ensures ends { Stay W.history self.old self.new }
    {
        if let Some(client) = self.clients.get_mut(id) {
            client.has_refused(is_closed);
        }
    }

    /// The core holds nothing of what the client of this id sent, where `is_so` holds.
    pub(crate) fn end_input_if(&mut self, id: usize, is_so: bool)
        ensures ends { Stay W.history self.old self.new }
    {
        if is_so {
            self.end_input(id);
        }
    }

    fn end_input(&mut self, id: usize)
        ensures ends { Stay W.history self.old self.new }
    {
        if let Some(client) = self.clients.get_mut(id) {
            client.end_input();
        }
    }

    /// One of its commands went on.
    pub(crate) fn note_went_on(&mut self, id: usize)
        ensures ends { Stay W.history self.old self.new }
    {
        if let Some(client) = self.clients.get_mut(id) {
            client.went_on();
        }
    }

    /// One of its commands went on, or began, by a call.
    pub(crate) fn note_called(&mut self, id: usize)
        ensures ends { Stay W.history self.old self.new }
    {
        if let Some(client) = self.clients.get_mut(id) {
            client.has_called();
        }
    }

    /// Whether a command of it can go on, as its call was settled.
    pub(crate) fn has_settled(&mut self, id: usize) -> bool
        ensures ends { Stay W.history self.old self.new }
    {
        match self.clients.get_mut(id) {
            Some(client) => client.settled > 0,
            None => false,
        }
    }

    /// Nothing more is read of the client of this id. Unless it had ended, that is why it goes.
    pub(crate) fn end_client(&mut self, id: usize, why: Departure)
        ensures ends { GoAlone W.history self.old self.new }
    {
        if let Some(client) = self.clients.get_mut(id) {
            client.end(why);
        }
    }

    /// What the polls of the client of this id ended with, and what may be done for it, is noted.
    pub(crate) fn mark_rest(&mut self, id: usize, rest: Rest)
        ensures ends { Stay W.history self.old self.new }
    {
        // Who was served has room that it may not need for long.
        self.rooms.note(false, true, self.time);
        let is_more = self.note_rest(id, rest);
        self.mark_busy_if(id, rest == Rest::Busy);
        self.mark_ready_if(id, is_more);
    }

    // A command of the client of this id waits for a key or a server, where `is_busy` holds.
    fn mark_busy_if(&mut self, id: usize, is_busy: bool)
        ensures ends { Stay W.history self.old self.new }
    {
        if is_busy {
            self.clients.mark_busy(id);
        }
    }

    // What the polls of the client of this id ended with is noted at its end: whether more may be done for it.
    fn note_rest(&mut self, id: usize, rest: Rest) -> bool
        ensures ends { Stay W.history self.old self.new }
    {
        let share = self.stalls.share;
        match self.clients.get_mut(id) {
            Some(client) => note_rest(client, rest, share, self.in_rounds),
            None => false,
        }
    }

    /// The client of this id is to be served, where `is_more` holds. What is held for each client stays.
    pub(crate) fn mark_ready_if(&mut self, id: usize, is_more: bool)
        ensures ends { Stay W.history self.old self.new }
        ensures held { HoldAlike self.old.clients self.new.clients }
    {
        if is_more {
            self.clients.mark_ready(id);
        }
    }

    /// Whether what is to be sent to the client of this id is held back in this turn. In rounds all is sent as it comes.
    pub(crate) fn holds_back(&mut self, id: usize) -> bool
        ensures ends { Stay W.history self.old self.new }
    {
        if self.in_rounds {
            return false;
        }
        match self.clients.get_mut(id) {
            Some(client) => client.holds_back(),
            None => false,
        }
    }

    /// If nothing is to be sent to the client of this id, it keeps no large room for that: it is spare.
    pub(crate) fn take_room(&mut self, id: usize)
        ensures ends { Stay W.history self.old self.new }
    {
        if let Some(client) = self.clients.get_mut(id) {
            self.rooms.take_room(client, self.time);
        }
    }

    /// Nobody stands under this id, and the connection of who did is closed.
    pub(crate) fn drop_end(&mut self, id: usize)
        ensures some { IfSome (client_conn self.old.clients id) (λ c. Closes c (W.history self.old.wire) (W.history self.new.wire)) }
        ensures none { client_conn self.old.clients id ≡ None → W.history self.new.wire ≡ W.history self.old.wire }
        ensures gone { self.new.clients.all.items ≡ slice_set self.old.clients.all.items id None }
        ensures rest { self.new ≡ record self.old { wire = self.new.wire; clients = self.new.clients } }
    {
        let conn = self.clients.remove(id);
        close_if_any(&mut self.wire, conn);
    }

    /// The client of this id, which the core has closed, is gone for this cause, and its connection is closed.
    pub(crate) fn remove_client(&mut self, id: usize, why: Departure)
        ensures ends { AllGoClosed W.history id self.old self.new }
    {
        self.tally.gone.note(why);
        self.stalls.forget(id);
        self.times.forget(id);
        self.drop_end(id);
    }

    /// The end of the client of this id gives back the room in which nothing is left.
    pub(crate) fn give_back_end(&mut self, id: usize)
        ensures ends { Stay W.history self.old self.new }
    {
        self.times.shrink(id);
        if let Some(client) = self.clients.get_mut(id) {
            client.conn.give_back(self.alloc, IDLE_ROOM);
        }
    }
}
