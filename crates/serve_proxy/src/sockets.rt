//! What an end has besides its core: its wire, the ends of clients and links, and what it knows of them. Nothing here knows the core.

ghost use Rattle.std.specs.Prelude.{◌≡◌, ◌↔◌, [], false, None, IfSome, IsTrue};
ghost use Rattle.serve_wire.specs.Calls.{Closes};
ghost use Rattle.serve_proxy.specs.Ends.{Stay, AllTick};
ghost use Rattle.serve_proxy.specs.Stillness.{HasNoWork, AreStill};

use crate::accepting::Accepting;
use crate::clock::{earlier, until};
use crate::links::Links;
use crate::rooms::Rooms;
use crate::stalls::Stalls;
use crate::times::CommandTimes;
use crate::worklist::Worklist;
use serve_clients::Clients;
use serve_links::Tally;
use serve_wire::{Report, Wire};
use std::alloc::Global;
use std::io;
use std::rt::Clock;
use std::time::Duration;

/// All that an end has but its core.
#[derive(Drop)]
pub struct Sockets<W: Wire> {
    pub(crate) alloc: Global,
    /// What the clock showed when it was looked at last, in milliseconds.
    pub(crate) time: u64,
    /// What it stands on.
    pub wire: W,
    pub(crate) accepting: Accepting,
    /// The ends of clients.
    pub clients: Clients,
    pub(crate) links: Links,
    pub(crate) rooms: Rooms,
    pub(crate) stalls: Stalls,
    pub(crate) work: Worklist,
    /// Whether a key or a server became free since busy clients were served.
    pub(crate) is_freed: bool,
    /// Whether clients are polled in rounds.
    pub(crate) in_rounds: bool,
    /// What it has done so far.
    pub tally: Tally,
    pub(crate) times: CommandTimes,
}

/// A connection that is done with is closed, if there is one.
pub fn close_if_any<W: Wire>(wire: &mut W, conn: Option<usize>)
    ensures some { IfSome conn (λ c. Closes c (W.history wire.old) (W.history wire.new)) }
    ensures none { conn ≡ None → W.history wire.new ≡ W.history wire.old }
{
    if let Some(conn) = conn {
        wire.close(conn);
    }
}

/// Nothing more is sent over a connection, if there is one.
pub fn shut_if_any<W: Wire>(wire: &mut W, conn: Option<usize>)
    ensures { W.history wire.new ≡ W.history wire.old }
{
    if let Some(conn) = conn {
        wire.shut_writes(conn);
    }
}

impl<W: Wire> Sockets<W> {
    /// No client is there yet, and no link has a connection.
    pub(crate) fn new(alloc: Global, wire: W, links: Links) -> Sockets<W>
        ensures links { result.links ≡ links }
        ensures none { result.clients.all.items ≡ [] }
        ensures wire { result.wire ≡ wire }
    {
        Sockets {
            alloc,
            time: 0,
            wire,
            accepting: Accepting::Now,
            clients: Clients::new(alloc),
            links,
            rooms: Rooms::new(alloc),
            stalls: Stalls::new(alloc),
            work: Worklist::new(alloc),
            is_freed: false,
            in_rounds: false,
            tally: Tally::new(),
            times: CommandTimes::new(alloc),
        }
    }

    // Whether something is left to do.
    fn has_work(&self) -> bool
        ensures { (result ≡ false) ↔ HasNoWork self.now }
    {
        if self.accepting.is_due(self.time) {
            return true;
        }
        if self.clients.is_short || self.links.is_short {
            return true;
        }
        if !self.clients.ready.is_empty() {
            return true;
        }
        if !self.links.ready.is_empty() {
            return true;
        }
        if !self.links.with_output.is_empty() {
            return true;
        }
        if !self.clients.with_output.is_empty() {
            return true;
        }
        if !self.is_freed {
            return false;
        }
        !self.clients.busy.is_empty()
    }

    /// Whether so many calls are out, and nothing is left to do until something comes.
    pub(crate) fn is_still(&self, calls: usize) -> bool
        ensures { IsTrue result ↔ AreStill calls self.now }
    {
        !self.has_work() && self.links.are_out(calls)
    }

    // When something is to be done though nothing is ready.
    fn next_limit(&self) -> Option<u64> {
        let limit = earlier(self.links.next_limit(), self.accepting.limit());
        let limit = earlier(limit, self.rooms.until);
        earlier(limit, self.stalls.limit())
    }

    // The clock is looked at.
    fn look<C: Clock>(&mut self, clock: &C) -> io::Result<()>
        ensures ends { AllTick W.history self.old self.new }
    {
        let time = self.wire.millis(clock)?;
        self.time = time;
        Ok(())
    }

    /// How long may be waited, by the clock of now.
    pub(crate) fn wait_limit<C: Clock>(&mut self, clock: &C) -> io::Result<Option<Duration>>
        ensures ends { AllTick W.history self.old self.new }
    {
        self.look(clock)?;
        if self.has_work() {
            return Ok(Some(Duration::from_millis(0)));
        }
        match self.next_limit() {
            Some(limit) => Ok(Some(until(self.time, limit))),
            None => Ok(None),
        }
    }

    /// A wait until something is ready, and no longer than this. What is ready is noted.
    pub(crate) fn wait<C: Clock>(&mut self, clock: &C, limit: Option<Duration>) -> io::Result<()>
        ensures ends { AllTick W.history self.old self.new }
    {
        let count = self.wire.wait(limit)?;
        for at in 0..count {
            self.note_report(at);
        }
        self.look(clock)
    }

    /// Those that may be missing in a list of what is to be done, as memory was refused for that, are listed again.
    pub(crate) fn list_again(&mut self)
        ensures ends { Stay W.history self.old self.new }
    {
        self.clients.list_again();
        self.links.list_again();
    }

    // What was told by this report of the last wait.
    fn note_report(&mut self, at: usize)
        ensures ends { Stay W.history self.old self.new }
    {
        match self.wire.report(at) {
            Some(report) => self.note(report),
            None => {}
        }
    }

    // What was told.
    fn note(&mut self, report: Report)
        ensures ends { Stay W.history self.old self.new }
    {
        match report {
            Report::Listener => self.accepting = Accepting::Now,
            Report::Client(id, told) => self.clients.note(id, told),
            Report::Server(at, told) => self.links.note(at, told),
        }
    }
}
