//! The wire that a program has.

ghost use Rattle.std.specs.Prelude.{◌≡◌, ◌≤◌, ◌<◌, ◌+◌, ◌*◌, ℕ, [], false, IfSome, IfOk, OnSome};
ghost use Rattle.serve_wire.specs.Calls.{Accepts};
ghost use Rattle.serve_wire.specs.Events.{IsUntold, is_open, time};

use crate::sockets::listener::{Listener, accept_at};
use crate::sockets::open::{Address, Location, Open, Owner};
use crate::sockets::options::end_if_gone;
use crate::{Accepted, Connected, Lead, ReadOutcome, Ready, Record, Report, Wire, WriteOutcome};
use bytes::BytesMut;
use mio::event::Event;
use mio::net::{TcpListener, TcpStream, UnixStream};
use mio::unix::SourceFd;
use mio::{Events, Interest, Poll, Token};
use route_json::addresses::address_in;
use slab::Slab;
use std::alloc::{AllocError, Global};
use std::io;
use std::io::{ErrorKind, IoSlice};
use std::net::{Net, Shutdown, SocketAddr, ToSocketAddrs};
use std::os::fd::{AsRawFd, OwnedFd, RawFd};
use std::rt::Clock;
use std::time::{Duration, Instant};

const ADMITS: u64 = 0;

const CONNECTS: u64 = 1;

const CLOSES: u64 = 6;

const ACCEPTS: u64 = 7;

const TICKS: u64 = 8;

const LOOKS_UP: u64 = 9;

// So many connections are open at once at most. A connection's number is this times the count of those before it, and then its place.
const SLOTS: usize = 16_777_216;

// So many connections are made at most.
const MOST: usize = 549_755_813_888;

// What is told under this token is told of the listener.
const LISTENER: usize = usize::MAX;

// What is told under this one is told of a descriptor for which a wait ends.
const WAKER: usize = usize::MAX - 1;

// The most reports of one wait.
const EVENTS: usize = 1_024;

/// Real sockets.
#[derive(Drop)]
pub struct Sockets {
    alloc: Global,
    poll: Poll,
    events: Events,
    reports: Vec<Report>,
    // None once nobody is accepted any more.
    listeners: Vec<Listener>,
    open: Slab<Open>,
    count: usize,
    addresses: Vec<Address>,
    // After so many seconds in which its host acknowledged nothing a server's connection fails.
    gone_after: Option<u32>,
    start: Instant,
    // Whether the last wait told of a descriptor for which a wait ends.
    is_woken: bool,
    // What the clock showed last, in milliseconds and in microseconds.
    shown: u64,
    micros: u64,
    log: Record,
    ghost clock: { shown ≡ time log.events },
    ghost fresh: { (c : ℕ) → count * 16777216 ≤ c → IsUntold c log.events × (is_open c log.events ≡ false) },
}

fn watch(poll: &Poll, socket: RawFd, token: usize) -> io::Result<()> {
    poll.registry().register(
        &mut SourceFd(&socket),
        Token(token),
        Interest::READABLE | Interest::WRITABLE,
    )
}

fn watch_all(poll: &Poll, listeners: &[Listener]) -> io::Result<()> {
    for listener in listeners {
        watch(poll, listener.descriptor(), LISTENER)?;
    }
    Ok(())
}

// A connection to this place is begun.
fn begin_at<N: Net>(net: &N, place: &Location, gone_after: Option<u32>) -> io::Result<TcpStream> {
    match place {
        Location::Host(socket) => {
            let stream = TcpStream::connect(net, *socket)?;
            stream.set_nodelay(true)?;
            if let Some(seconds) = gone_after {
                end_if_gone(stream.as_raw_fd(), seconds);
            }
            Ok(stream)
        }
        Location::Path(path) => {
            let stream = UnixStream::connect(net, path.as_str())?;
            Ok(TcpStream::from(OwnedFd::from(stream)))
        }
    }
}

fn ready_of(event: &Event) -> Ready {
    let closes = event.is_read_closed() || event.is_error();
    Ready {
        reads: closes || event.is_readable(),
        writes: event.is_error() || event.is_writable(),
        closes,
    }
}

// What an event tells, if its connection is in use.
fn report_of(open: &Slab<Open>, event: &Event) -> Option<Report> {
    let Token(token) = event.token();
    if token == LISTENER {
        return Some(Report::Listener);
    }
    let socket = open.get(token % SLOTS)?;
    if socket.number != token {
        return None;
    }
    match socket.owner {
        Owner::Nobody => None,
        Owner::Client(id) => Some(Report::Client(id, ready_of(event))),
        Owner::Server(server) => Some(Report::Server(server, ready_of(event))),
    }
}

// What the events tell, one after the other.
fn put_reports(
    reports: &mut Vec<Report>,
    events: &Events,
    open: &Slab<Open>,
) -> Result<(), AllocError> {
    reports.clear();
    for event in events.iter() {
        if let Some(report) = report_of(open, event) {
            reports.push(report)?;
        }
    }
    Ok(())
}

// Whether something is told of a descriptor for which a wait ends.
fn wakes(events: &Events) -> bool {
    for event in events.iter() {
        let Token(token) = event.token();
        if token == WAKER {
            return true;
        }
    }
    false
}

// The number of the next connection, after so many.
fn next_number(open: &Slab<Open>, count: usize) -> Option<usize>
    ensures { IfSome result (λ c. (count * 16777216 ≤ c) × (c < (count + 1) * 16777216)) }
{
    let slot = open.vacant_key();
    if slot >= SLOTS || count >= MOST {
        return None;
    }
    Some(count * SLOTS + slot)
}

// The stream of this connection, if it is in use.
fn open_at(open: &Slab<Open>, count: usize, conn: usize) -> Option<&Open>
    ensures { IfSome result (λ found. (found.now.number ≡ conn) × (conn < count * 16777216)) }
{
    if conn / SLOTS >= count {
        return None;
    }
    let found = open.get(conn % SLOTS)?;
    if found.number != conn {
        return None;
    }
    Some(found)
}

// The stream of this connection, if it is in use, to be changed.
fn open_at_mut(open: &mut Slab<Open>, count: usize, conn: usize) -> Option<&mut Open>
    ensures { OnSome result (conn < count * 16777216) }
{
    if conn / SLOTS >= count {
        return None;
    }
    let found = open.get_mut(conn % SLOTS)?;
    if conn != found.number {
        return None;
    }
    Some(found)
}

// What this text was found to name.
fn address_at<'a>(addresses: &'a [Address], text: &[u8]) -> Option<&'a Address>
    ensures { IfSome result (λ address. address.now.text.items ≡ text.now) }
{
    for address in addresses {
        if address.text.as_slice() == text {
            return Some(address);
        }
    }
    None
}

// This text names this place from now on.
fn put_address(
    alloc: Global,
    addresses: &mut Vec<Address>,
    text: &[u8],
    place: Location,
) -> Result<(), AllocError> {
    for known in addresses.iter_mut() {
        if known.text.as_slice() == text {
            known.place = place;
            return Ok(());
        }
    }
    let text = text.to_vec(alloc)?;
    Ok(addresses.push(Address { text, place })?)
}

// The address in a server's name.
fn address_of(name: &[u8]) -> io::Result<&str> {
    match std::str::from_utf8(name) {
        Ok(name) => Ok(address_in(name)),
        Err(_) => Err(io::Error::from(ErrorKind::InvalidInput)),
    }
}

// The path in an address, `unix:` and a path.
fn path_in(address: &str) -> Option<&str> {
    let path = address.strip_prefix("unix:")?;
    if path.starts_with("/") {
        Some(path)
    } else {
        None
    }
}

// The first place to which the address in a server's name leads.
fn look_up<N: Net>(alloc: Global, net: &N, name: &[u8]) -> io::Result<Location> {
    let address = address_of(name)?;
    if let Some(path) = path_in(address) {
        return Ok(Location::Path(String::from_str(alloc, path)?));
    }
    match address.to_socket_addrs(net)?.next() {
        Some(socket) => Ok(Location::Host(socket)),
        None => Err(io::Error::from(ErrorKind::AddrNotAvailable)),
    }
}

// Where an address leads now, where calls go to this place.
fn lead_of<N: Net>(net: &N, address: &str, place: &Location) -> io::Result<Lead> {
    let Location::Host(socket) = place else {
        return Ok(Lead::Same);
    };
    let mut lead = None;
    for found in address.to_socket_addrs(net)? {
        if found == *socket {
            return Ok(Lead::Same);
        }
        lead = Some(Lead::Other);
    }
    match lead {
        Some(lead) => Ok(lead),
        None => Err(io::Error::from(ErrorKind::AddrNotAvailable)),
    }
}

impl Sockets {
    /// It listens, and nothing has happened.
    pub fn listen<R: Net + Clock + AllocGlobal>(rt: &R, listen: SocketAddr) -> io::Result<Sockets>
        ensures none { IfOk result (λ sockets. sockets.log.events ≡ []) }
    {
        let mut listeners = Vec::new(rt.alloc());
        listeners.push(Listener::Tcp(TcpListener::bind(rt, listen)?))?;
        Sockets::listen_by(rt, listeners)
    }

    /// These listen, and nothing has happened. Peers of the earlier ones are accepted first.
    pub fn listen_by<R: Net + Clock + AllocGlobal>(
        rt: &R,
        listeners: Vec<Listener>,
    ) -> io::Result<Sockets>
        ensures none { IfOk result (λ sockets. sockets.log.events ≡ []) }
    {
        let alloc = rt.alloc();
        let start = Instant::now(rt)?;
        let poll = Poll::new(rt)?;
        watch_all(&poll, listeners.as_slice())?;
        Ok(Sockets {
            alloc,
            poll,
            events: Events::with_capacity(alloc, EVENTS)?,
            reports: Vec::with_capacity(alloc, EVENTS)?,
            listeners,
            open: Slab::new(alloc),
            count: 0,
            addresses: Vec::new(alloc),
            gone_after: None,
            start,
            is_woken: false,
            shown: 0,
            micros: 0,
            log: Record::new(),
        })
    }

    /// Where the first of what listens does. An error comes where that is a path, or nobody is accepted any more.
    pub fn local_addr(&self) -> io::Result<SocketAddr> {
        match self.listeners.first() {
            Some(listener) => listener.local_addr(),
            None => Err(io::Error::from(ErrorKind::NotConnected)),
        }
    }

    /// From now on a server's new connection fails once its host has acknowledged nothing for so many seconds.
    pub fn end_those_gone(&mut self, seconds: u32)
        ensures { self.new.log ≡ self.old.log }
    {
        self.gone_after = Some(seconds);
    }

    /// From now on a wait also ends once this descriptor is readable, which only [`was_woken`](Sockets::was_woken) tells. An error comes where the
    /// system doesn't watch it.
    pub fn wake_by(&self, descriptor: RawFd) -> io::Result<()> {
        self.poll.registry().register(&mut SourceFd(&descriptor), Token(WAKER), Interest::READABLE)
    }

    /// Whether such a descriptor became readable by the end of the last wait.
    pub fn was_woken(&self) -> bool {
        self.is_woken
    }

    /// The next peer that waits at a listener that isn't among those of this wire. Nothing is reported of such a listener.
    pub fn accept_by(&mut self, listener: &Listener) -> Accepted
        ensures { Accepts result self.old.log.events self.new.log.events }
    {
        self.take_in(listener.accept())
    }

    // What was accepted has a number, and is nobody's yet.
    fn take_in(&mut self, accepted: io::Result<TcpStream>) -> Accepted
        ensures { Accepts result self.old.log.events self.new.log.events }
    {
        let stream = match accepted {
            Ok(stream) => stream,
            Err(error) => {
                return match error.kind() {
                    ErrorKind::Interrupted | ErrorKind::ConnectionAborted => Accepted::Gone,
                    ErrorKind::WouldBlock => Accepted::Nobody,
                    _ => Accepted::Refused,
                };
            }
        };
        let Some(number) = next_number(&self.open, self.count) else {
            return Accepted::Gone;
        };
        let owner = Owner::Nobody;
        if self
            .open
            .insert(Open {
                number,
                owner,
                stream,
                is_local: true,
            })
            .is_err()
        {
            return Accepted::Gone;
        }
        self.count += 1;
        self.log.note(&[ACCEPTS, number as u64, 0], &[]);
        Accepted::Peer(number)
    }
}

impl Wire for Sockets {
    ghost history = { λ s. s.log.events };

    fn millis<C: Clock>(&mut self, clock: &C) -> io::Result<u64> {
        let elapsed = self.start.elapsed(clock)?;
        let millis = u64::try_from(elapsed.as_millis()).unwrap_or(u64::MAX);
        self.micros = u64::try_from(elapsed.as_micros()).unwrap_or(u64::MAX);
        self.log.note(&[TICKS, 0, millis], &[]);
        self.shown = millis;
        Ok(millis)
    }

    fn last_millis(&self) -> u64 {
        self.shown
    }

    fn last_micros(&self) -> u64 {
        self.micros
    }

    fn wait(&mut self, limit: Option<Duration>) -> io::Result<usize> {
        self.poll.poll(&mut self.events, limit)?;
        self.is_woken = wakes(&self.events);
        put_reports(&mut self.reports, &self.events, &self.open)?;
        Ok(self.reports.len())
    }

    fn report(&self, at: usize) -> Option<Report> {
        self.reports.get(at).copied()
    }

    fn accept(&mut self) -> Accepted {
        let accepted = accept_at(self.listeners.as_slice());
        self.take_in(accepted)
    }

    fn admit(&mut self, conn: usize, client: usize) -> io::Result<()> {
        let Some(open) = open_at_mut(&mut self.open, self.count, conn) else {
            return Err(io::Error::from(ErrorKind::NotConnected));
        };
        watch(&self.poll, open.stream.as_raw_fd(), conn)?;
        open.owner = Owner::Client(client);
        self.log.note(&[ADMITS, conn as u64, client as u64], &[]);
        Ok(())
    }

    fn stop_accepting(&mut self) {
        self.listeners.clear();
    }

    fn resolve<N: Net>(&mut self, net: &N, text: &[u8]) -> io::Result<()> {
        self.log.note(&[LOOKS_UP, 0, 0], text);
        let place = look_up(self.alloc, net, text)?;
        Ok(put_address(self.alloc, &mut self.addresses, text, place)?)
    }

    fn look_again<N: Net>(&self, net: &N, text: &[u8]) -> io::Result<Lead> {
        match address_at(&self.addresses, text) {
            Some(known) => lead_of(net, address_of(text)?, &known.place),
            None => {
                let _ = look_up(self.alloc, net, text)?;
                Ok(Lead::First)
            }
        }
    }

    fn connect<N: Net>(&mut self, net: &N, server: usize, text: &[u8]) -> Connected {
        let Some(address) = address_at(&self.addresses, text) else {
            return Connected::NoAddress;
        };
        let Some(number) = next_number(&self.open, self.count) else {
            return Connected::Failed;
        };
        let Ok(stream) = begin_at(net, &address.place, self.gone_after) else {
            return Connected::Failed;
        };
        if watch(&self.poll, stream.as_raw_fd(), number).is_err() {
            return Connected::Failed;
        }
        let owner = Owner::Server(server);
        let is_local = matches!(&address.place, Location::Path(_));
        if self
            .open
            .insert(Open {
                number,
                owner,
                stream,
                is_local,
            })
            .is_err()
        {
            return Connected::Failed;
        }
        self.count += 1;
        self.log
            .note(&[CONNECTS, number as u64, server as u64], &address.text);
        Connected::Begun(number)
    }

    fn is_connected(&self, conn: usize) -> bool {
        match open_at(&self.open, self.count, conn) {
            Some(open) => open.is_local || open.stream.peer_addr().is_ok(),
            None => false,
        }
    }

    fn read(&mut self, conn: usize, into: &mut BytesMut) -> ReadOutcome {
        match open_at(&self.open, self.count, conn) {
            Some(open) => open.read(&mut self.log, into),
            None => ReadOutcome::NotReady,
        }
    }

    fn write(&mut self, conn: usize, bytes: &[u8]) -> WriteOutcome {
        match open_at(&self.open, self.count, conn) {
            Some(open) => open.write(&mut self.log, bytes),
            None => WriteOutcome::NotReady,
        }
    }

    fn write_parts(&mut self, conn: usize, parts: &[IoSlice<'_>]) -> WriteOutcome {
        match open_at(&self.open, self.count, conn) {
            Some(open) => open.write_parts(&mut self.log, parts),
            None => WriteOutcome::NotReady,
        }
    }

    fn shut_writes(&mut self, conn: usize) {
        if let Some(open) = open_at(&self.open, self.count, conn) {
            // (where that fails, reads tell)
            let _ = open.stream.shutdown(Shutdown::Write);
        }
    }

    fn close(&mut self, conn: usize) {
        if conn / SLOTS >= self.count {
            return;
        }
        if open_at(&self.open, self.count, conn).is_some() {
            let _ = self.open.try_remove(conn % SLOTS);
        }
        self.log.note(&[CLOSES, conn as u64, 0], &[]);
    }
}
