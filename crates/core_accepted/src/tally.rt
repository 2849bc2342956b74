//! What a core has done so far. A count that reaches the greatest number stays there.

ghost use Rattle.std.specs.Prelude.{◌≡◌, ◌<◌, true, false, IfOk, OnErr};
ghost use Rattle.route_tree.specs.Operation.{op_number};
ghost use Rattle.core_accepted.specs.Tallies.{more_at, lost_unless, MakesPlaces, with_note, with_call, with_poll, is_answer, with_end, with_settling, with_opening, nothing_done, of_op, of_server};

use crate::server_counts::ServerCounts;
use core_proxy::{CoreFault, Note, Poll};
use mc_types::{Op, Outcome};
use std::alloc::Global;

/// What a core has done so far.
#[derive(Drop)]
pub struct CoreTally {
    /// How many clients it has opened.
    pub opened: u64,
    /// How many it has turned away.
    pub refused: u64,
    /// How many messages of clients it refused: no server was asked, and none of them counts as a command. Each was answered: by
    /// `ERROR` where it is no command, or of another protocol; by `CLIENT_ERROR ..` where a key, a number, a flag, a flag's value or the
    /// end of the data is wrong, or a line is too long; by `SERVER_ERROR object too large for cache` where the data would be longer than
    /// 1,048,576 bytes.
    pub bad_messages: u64,
    /// How many commands have ended.
    pub ended: u64,
    /// How many calls it gave out.
    pub calls: u64,
    /// How many of them were answered.
    pub answered: u64,
    /// How many have failed.
    pub failed: u64,
    // Of each operation, those whose reply is an error.
    errors: [u64; 12],
    // Those whose reply shows an item.
    items: [u64; 12],
    // Deletes that were acknowledged.
    acknowledged: [u64; 12],
    // All others.
    others: [u64; 12],
    // Of each server, calls that it gave out.
    calls_at: ServerCounts,
    // Those of them that were answered.
    answered_at: ServerCounts,
    // Those that have failed.
    failed_at: ServerCounts,
    /// How often a call that it gave out, or one that was answered or has failed, is counted at no server: its server has no place here, as memory
    /// was refused for that.
    pub unplaced: u64,
}

/// What has become of the calls of a server.
#[derive(Clone, Copy)]
pub struct ServerTally {
    /// How many calls of it were given out.
    pub calls: u64,
    /// How many of them were answered.
    pub answered: u64,
    /// How many have failed.
    pub failed: u64,
}

/// How many commands of an operation have ended.
#[derive(Clone, Copy)]
pub struct OpTally {
    /// Those whose reply is an error.
    pub errors: u64,
    /// Those whose reply shows an item.
    pub items: u64,
    /// Deletes that were acknowledged.
    pub acknowledged: u64,
    /// All others.
    pub others: u64,
}

// The place of an operation among all.
fn place_of(op: Op) -> usize
    ensures place { result ≡ op_number op }
    ensures bound { result < 12 }
{
    match op {
        Op::Get => 0,
        Op::Gat => 1,
        Op::Set => 2,
        Op::Add => 3,
        Op::Replace => 4,
        Op::Append => 5,
        Op::Prepend => 6,
        Op::Cas => 7,
        Op::Delete => 8,
        Op::Incr => 9,
        Op::Decr => 10,
        Op::Touch => 11,
    }
}

/// Whether a call was answered.
pub(crate) fn is_answer(outcome: &Outcome) -> bool
    ensures { result ≡ is_answer outcome.now }
{
    match outcome {
        Outcome::Answered(_) => true,
        Outcome::Failed => false,
    }
}

// There is one more at this place.
fn add_at(counts: &mut [u64; 12], place: usize)
    requires { place < 12 }
    ensures { counts.new ≡ more_at place counts.old }
{
    counts[place] = counts[place].saturating_add(1);
}

impl CoreTally {
    /// Nothing yet, and no server has a place. It takes no memory.
    pub fn new(alloc: Global) -> CoreTally
        ensures { result ≡ nothing_done }
    {
        CoreTally {
            opened: 0,
            refused: 0,
            bad_messages: 0,
            ended: 0,
            calls: 0,
            answered: 0,
            failed: 0,
            errors: [0; 12],
            items: [0; 12],
            acknowledged: [0; 12],
            others: [0; 12],
            calls_at: ServerCounts::new(alloc),
            answered_at: ServerCounts::new(alloc),
            failed_at: ServerCounts::new(alloc),
            unplaced: 0,
        }
    }

    /// The servers below this number have places, if no memory is refused. No count changes.
    pub fn make_places(&mut self, servers: usize)
        ensures { MakesPlaces self.old self.new }
    {
        self.calls_at.make_places(servers);
        self.answered_at.make_places(servers);
        self.failed_at.make_places(servers);
    }

    /// A client was opened, or turned away.
    pub fn note_opening(&mut self, opening: &Result<usize, CoreFault>)
        ensures { self.new ≡ with_opening opening.now self.old }
    {
        match opening {
            Ok(_) => self.opened = self.opened.saturating_add(1),
            Err(_) => self.refused = self.refused.saturating_add(1),
        }
    }

    /// A command ended, as this tells.
    pub fn note(&mut self, note: &Note)
        ensures { self.new ≡ with_note note.now self.old }
    {
        self.ended = self.ended.saturating_add(1);
        let place = place_of(note.ask.get().op);
        if note.is_error {
            add_at(&mut self.errors, place)
        } else if note.acknowledged {
            add_at(&mut self.acknowledged, place)
        } else if note.from.is_some() {
            add_at(&mut self.items, place)
        } else {
            add_at(&mut self.others, place)
        }
    }

    // One is counted at its server, or wasn't.
    fn note_place(&mut self, is_placed: bool)
        ensures { self.new ≡ record self.old { unplaced = lost_unless is_placed self.old.unplaced } }
    {
        if !is_placed {
            self.unplaced = self.unplaced.saturating_add(1);
        }
    }

    // One more call was given out, of this server.
    fn note_call(&mut self, server: usize)
        ensures { self.new ≡ with_call server self.old }
    {
        self.calls = self.calls.saturating_add(1);
        let is_placed = self.calls_at.count_one(server);
        self.note_place(is_placed);
    }

    /// A poll ended with this: a command ended, a call was given out, or a message was refused, if it tells so.
    pub fn note_polled(&mut self, polled: &Result<Poll, CoreFault>)
        ensures counted { IfOk polled.now (λ poll. self.new ≡ with_poll poll self.old) }
        ensures none { OnErr polled.now (self.new ≡ self.old) }
    {
        match polled {
            Ok(Poll::Did(note)) => self.note(note),
            Ok(Poll::Call(ticket)) => self.note_call(ticket.server.number() as usize),
            Ok(Poll::Refused) => self.bad_messages = self.bad_messages.saturating_add(1),
            _ => {}
        }
    }

    // One more call was answered, of this server.
    fn note_answered(&mut self, server: Option<usize>)
        ensures { self.new ≡ with_end true server self.old }
    {
        self.answered = self.answered.saturating_add(1);
        let is_placed = match server {
            Some(at) => self.answered_at.count_one(at),
            None => false,
        };
        self.note_place(is_placed);
    }

    // One more has failed.
    fn note_failed(&mut self, server: Option<usize>)
        ensures { self.new ≡ with_end false server self.old }
    {
        self.failed = self.failed.saturating_add(1);
        let is_placed = match server {
            Some(at) => self.failed_at.count_one(at),
            None => false,
        };
        self.note_place(is_placed);
    }

    // One more call of this server was answered, or has failed.
    fn note_end(&mut self, answered: bool, server: Option<usize>)
        ensures { self.new ≡ with_end answered server self.old }
    {
        if answered {
            self.note_answered(server)
        } else {
            self.note_failed(server)
        }
    }

    /// A call was settled so, as answered or as failed, if it was out: that of this server.
    pub fn note_settled(
        &mut self,
        answered: bool,
        server: Option<usize>,
        settled: &Result<(), CoreFault>,
    )
        ensures { self.new ≡ with_settling answered server settled.now self.old }
    {
        match settled {
            Ok(()) => self.note_end(answered, server),
            Err(CoreFault::NoMemory) => self.note_end(answered, server),
            Err(_) => {}
        }
    }

    /// How many commands of this operation have ended.
    pub fn of(&self, op: Op) -> OpTally
        ensures { result ≡ of_op self.now op }
    {
        let place = place_of(op);
        OpTally {
            errors: self.errors[place],
            items: self.items[place],
            acknowledged: self.acknowledged[place],
            others: self.others[place],
        }
    }

    /// What has become of the calls of this server.
    pub fn of_server(&self, server: usize) -> ServerTally
        ensures { result ≡ of_server self.now server }
    {
        ServerTally {
            calls: self.calls_at.of(server),
            answered: self.answered_at.of(server),
            failed: self.failed_at.of(server),
        }
    }
}
