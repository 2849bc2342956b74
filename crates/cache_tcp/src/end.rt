//! The server's clients over a wire: who is ready, in turns.

ghost use Rattle.std.specs.Prelude.{◌≡◌, None};
ghost use Rattle.serve_wire.specs.Events.{role};

use crate::client::{AfterTurn, CacheClient};
use crate::clock::{SetClock, UnixTime};
use crate::connection::Cache;
use crate::room::Room;
use crate::settings::{Settings, client_limits};
use serve_wire::conn::{Conn, turn_away};
use serve_wire::sockets::Sockets;
use serve_wire::{Accepted, Report, Wire};
use slab::Slab;
use std::alloc::{AllocError, Global};
use std::io::ErrorKind;
use std::net::{Net, SocketAddr, ToSocketAddrs};
use std::rt::Clock;
use std::time::Duration;
use std::{io, mem};

// The most clients that one turn accepts.
const ACCEPTS: usize = 64;

// How long accepting pauses after it has failed, in milliseconds.
const ACCEPT_PAUSE: u64 = 100;

// Whether clients may wait to be accepted.
#[derive(Clone, Copy, PartialEq, Eq)]
enum Accepting {
    // There may be some now.
    Now,
    // There may be some, but the system refused to accept them.
    Later,
    // There are none.
    Idle,
}

/// A cache server over a wire.
#[derive(Drop)]
pub struct CacheEnd<W: Wire> {
    alloc: Global,
    wire: W,
    accepting: Accepting,
    clients: Slab<CacheClient>,
    most_clients: usize,
    flushes: bool,
    // The clients for which something is to be done in the next turn, each once.
    ready: Vec<usize>,
    // The clients for which something is done in this turn.
    serving: Vec<usize>,
    clock: SetClock,
    cache: Cache,
    // What is counted where memory is bounded.
    room: Option<Room>,
}

// A wire that listens at the first place that an address names where it can.
fn listening<R: Net + Clock + AllocGlobal>(rt: &R, address: &str) -> io::Result<Sockets> {
    let mut refused = io::Error::from(ErrorKind::AddrNotAvailable);
    for socket in address.to_socket_addrs(rt)? {
        match Sockets::listen(rt, socket) {
            Ok(wire) => return Ok(wire),
            Err(error) => refused = error,
        }
    }
    Err(refused)
}

// What the client asked for in its turn is looked up.
fn look_at_uses(
    room: &mut Room,
    cache: &mut Cache,
    client: &mut CacheClient,
    moment: UnixTime,
) -> Result<(), AllocError> {
    let Some(keys) = client.uses.take() else {
        return Err(AllocError);
    };
    for key in &keys {
        room.look_at(cache, moment, key)?;
    }
    Ok(())
}

// All items are lost, and none is counted any more.
fn lose_all(room: &mut Option<Room>, cache: &mut Cache) {
    match room {
        Some(room) => room.give_up(cache),
        None => cache.restart(),
    }
}

// What the client's turn changed is counted, where so many bytes were to be sent to it before, and items are lost where all takes too much.
fn count(
    room: &mut Room,
    cache: &mut Cache,
    client: &mut CacheClient,
    before: usize,
    moment: UnixTime,
) {
    room.change_unsent(before, client.conn.unsent.len());
    if look_at_uses(room, cache, client, moment).is_err() {
        room.give_up(cache);
    }
    room.fit(cache);
}

impl CacheEnd<Sockets> {
    /// An empty server that listens on an address, `HOST:PORT`; with port 0 the system picks one.
    ///
    /// The errors are the system's, among them those of an address that is none or is taken, and running out of memory.
    pub fn listen<R: Net + Clock + AllocGlobal>(
        rt: &R,
        address: &str,
        settings: Settings,
    ) -> io::Result<CacheEnd<Sockets>> {
        Self::listen_within(rt, address, settings, None)
    }

    /// An empty server that listens on an address, `HOST:PORT`; with port 0 the system picks one. Where `memory` is given, items and what is to be sent to
    /// clients take so many bytes at most, as [`over`](CacheEnd::over) says.
    ///
    /// The errors are the system's, among them those of an address that is none or is taken, and running out of memory.
    pub fn listen_within<R: Net + Clock + AllocGlobal>(
        rt: &R,
        address: &str,
        settings: Settings,
        memory: Option<usize>,
    ) -> io::Result<CacheEnd<Sockets>> {
        CacheEnd::over(rt, listening(rt, address)?, settings, memory)
    }

    /// The address that it listens on.
    pub fn address(&self) -> io::Result<SocketAddr> {
        self.wire.local_addr()
    }
}

impl<W: Wire + Drop> CacheEnd<W> {
    /// An empty server of those who are accepted on this wire. Where `memory` is given, items and what is to be sent to clients take so many bytes at
    /// most, and what one turn of a client adds. Items are lost first, the least recently used before others. Where half of all is to be sent, the
    /// client is closed to which most is.
    ///
    /// The errors are the clock's, and running out of memory.
    pub fn over<R: Clock + AllocGlobal>(
        rt: &R,
        wire: W,
        settings: Settings,
        memory: Option<usize>,
    ) -> io::Result<CacheEnd<W>> {
        let alloc = rt.alloc();
        Ok(CacheEnd {
            alloc,
            wire,
            accepting: Accepting::Now,
            clients: Slab::new(alloc),
            most_clients: settings.clients,
            flushes: settings.flushes,
            ready: Vec::new(alloc),
            serving: Vec::new(alloc),
            clock: SetClock::new(rt)?,
            cache: Cache::new(alloc, settings.capacity)?,
            room: match memory {
                Some(most) => Some(Room::new(alloc, settings.capacity, most)?),
                None => None,
            },
        })
    }
}

impl<W: Wire> CacheEnd<W> {
    /// The wire.
    pub fn wire(&self) -> &W
        ensures { result.now ≡ self.now.wire }
    {
        &self.wire
    }

    /// How many clients it has.
    pub fn clients(&self) -> usize {
        self.clients.len()
    }

    // The client is closed.
    fn remove(&mut self, id: usize) {
        let Some(client) = self.clients.try_remove(id) else {
            return;
        };
        self.wire.close(client.conn.number);
        if let Some(room) = &mut self.room {
            room.change_unsent(client.conn.unsent.len(), 0);
        }
    }

    // The client is served in the next turn. One for which that can't be noted is closed, or it would wait forever.
    fn list(&mut self, id: usize) {
        let Some(client) = self.clients.get_mut(id) else {
            return;
        };
        if client.listed {
            return;
        }
        client.listed = true;
        if self.ready.push(id).is_err() {
            self.remove(id);
        }
    }

    // How long a wait may last, where `most` is the longest: not at all where something is left to do.
    fn wait_limit(&self, most: Option<Duration>) -> Option<Duration> {
        if !self.ready.is_empty() || self.accepting == Accepting::Now {
            return Some(Duration::ZERO);
        }
        let pause = Duration::from_millis(ACCEPT_PAUSE);
        match (self.accepting, most) {
            (Accepting::Later, Some(most)) => Some(most.min(pause)),
            (Accepting::Later, None) => Some(pause),
            (_, most) => most,
        }
    }

    // How many reports there are.
    fn wait(&mut self, most: Option<Duration>) -> io::Result<usize> {
        let limit = self.wait_limit(most);
        self.wire.wait(limit)
    }

    fn note(&mut self, report: Report) {
        match report {
            Report::Listener => self.accepting = Accepting::Now,
            Report::Client(id, ready) => {
                let wakes = match self.clients.get_mut(id) {
                    Some(client) => client.note(ready),
                    None => false,
                };
                if wakes {
                    self.list(id);
                }
            }
            Report::Server(..) => {}
        }
    }

    fn note_all(&mut self, reports: usize) {
        for at in 0..reports {
            if let Some(report) = self.wire.report(at) {
                self.note(report);
            }
        }
    }

    // A client that can't be served, since memory or the system refuses it, is closed. One above the limit is told so.
    fn admit(&mut self, conn: usize)
        requires { role conn (W.history self.old.wire) ≡ None }
    {
        if self.clients.len() >= self.most_clients {
            turn_away(self.alloc, &mut self.wire, conn);
            return;
        }
        let mut client = CacheClient::new(self.alloc, Conn::new(self.alloc, conn, client_limits()));
        if self.room.is_some() {
            client.uses.begin();
        }
        let Ok(id) = self.clients.insert(client) else {
            self.wire.close(conn);
            return;
        };
        match self.wire.admit(conn, id) {
            Ok(()) => self.list(id),
            Err(_) => self.remove(id),
        }
    }

    fn accept_some(&mut self) {
        for _ in 0..ACCEPTS {
            match self.wire.accept() {
                Accepted::Peer(conn) => self.admit(conn),
                Accepted::Gone => {}
                Accepted::Nobody => {
                    self.accepting = Accepting::Idle;
                    return;
                }
                Accepted::Refused => {
                    self.accepting = Accepting::Later;
                    return;
                }
            }
        }
    }

    // The client to which most is to be sent, if something is to any.
    fn greatest(&self) -> Option<usize> {
        let mut greatest = None;
        let mut most = 0;
        for (id, client) in self.clients.iter() {
            let len = client.conn.unsent.len();
            if len > most {
                most = len;
                greatest = Some(id);
            }
        }
        greatest
    }

    // Where too much is to be sent, the client is closed to which most is.
    fn shed(&mut self) {
        let is_half = match &self.room {
            Some(room) => room.is_unsent_half(),
            None => false,
        };
        if !is_half {
            return;
        }
        if let Some(id) = self.greatest() {
            self.remove(id);
        }
    }

    // The client's turn.
    fn turn_client(&mut self, id: usize, moment: UnixTime) -> AfterTurn {
        let Some(client) = self.clients.get_mut(id) else {
            return AfterTurn::Waits;
        };
        client.listed = false;
        if self.flushes {
            match client.take_flush(&mut self.wire) {
                Ok(true) => lose_all(&mut self.room, &mut self.cache),
                Ok(false) => {}
                Err(_) => return AfterTurn::Done,
            }
        }
        let before = client.conn.unsent.len();
        let after = client.turn(&mut self.wire, &mut self.cache, moment);
        if let Some(room) = &mut self.room {
            count(room, &mut self.cache, client, before, moment);
        }
        after
    }

    fn serve_client(&mut self, id: usize, moment: UnixTime) {
        match self.turn_client(id, moment) {
            AfterTurn::More => self.list(id),
            AfterTurn::Waits => {}
            AfterTurn::Done => self.remove(id),
        }
        self.shed();
    }

    fn serve_ready(&mut self, moment: UnixTime) {
        mem::swap(&mut self.ready, &mut self.serving);
        for at in 0..self.serving.len() {
            if let Some(id) = self.serving.get(at).copied() {
                self.serve_client(id, moment);
            }
        }
        self.serving.clear();
    }

    // One turn, which waits `most` at the longest.
    fn take_turn<R: Clock>(&mut self, rt: &R, most: Option<Duration>) -> io::Result<()> {
        let reports = self.wait(most)?;
        self.note_all(reports);
        let moment = self.clock.now(rt)?;
        if self.accepting != Accepting::Idle {
            self.accept_some();
        }
        self.serve_ready(moment);
        Ok(())
    }

    /// One turn: waits until a connection is ready, or not at all where something is left to do, accepts clients, and serves those that
    /// are ready. All asks of a turn are answered at one moment.
    ///
    /// A client that ends, fails, or is refused memory is closed alone, and accepting that fails is tried again after a while. The errors are
    /// the system's: of the wait and of the clock.
    pub fn turn<R: Clock>(&mut self, rt: &R) -> io::Result<()> {
        self.take_turn(rt, None)
    }

    /// One turn whose wait ends after so long also where nothing is ready: accepts clients, and serves those that are ready. All asks of a turn are answered
    /// at one moment.
    ///
    /// A client that ends, fails, or is refused memory is closed alone, and accepting that fails is tried again after a while. The errors are the system's:
    /// of the wait and of the clock.
    pub fn turn_within<R: Clock>(&mut self, rt: &R, most: Duration) -> io::Result<()> {
        self.take_turn(rt, Some(most))
    }
}
