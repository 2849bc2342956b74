//! The wire of a test.

ghost use Rattle.std.specs.Prelude.{◌≡◌, ◌≤◌, ◌<◌, ℕ, [], false, length, IfSome, IfOk};
ghost use Rattle.std.specs.Io.Slices.{io_slices_bytes};
ghost use Rattle.serve_wire.specs.Events.{IsUntold, is_open, time};
ghost use Rattle.serve_wire.specs.Calls.{Adds, FitsOffer};

use crate::peer::Peer;
use bytes::BytesMut;
use serve_wire::{
    Accepted, Connected, Lead, Listens, ReadOutcome, Record, Report, Wire, WriteOutcome,
};
use std::alloc::{AllocError, Global};
use std::collections::VecDeque;
use std::io;
use std::io::{ErrorKind, IoSlice};
use std::net::{Net, SocketAddr};
use std::os::fd::RawFd;
use std::rt::Clock;
use std::time::Duration;

const ADMITS: u64 = 0;

const CONNECTS: u64 = 1;

const DELIVERS: u64 = 2;

const TAKES: u64 = 3;

const ENDS: u64 = 4;

const FAILS: u64 = 5;

const CLOSES: u64 = 6;

const ACCEPTS: u64 = 7;

const TICKS: u64 = 8;

const LOOKS_UP: u64 = 9;

// Whose a connection is.
#[derive(Clone, Copy, PartialEq, Eq)]
enum Owner {
    Nobody,
    Client(usize),
    Server(usize),
}

// A connection that was made.
#[derive(Drop)]
struct MadeConn {
    peer: Peer,
    owner: Owner,
    is_open: bool,
}

// Who will connect, and when.
#[derive(Drop)]
struct Caller {
    at: u64,
    peer: Peer,
}

// A server's address, and the far ends of the connections to it, in their order.
#[derive(Drop)]
struct Host {
    text: Vec<u8>,
    is_known: bool,
    // Whether its name leads to another machine than when it was looked up.
    has_moved: bool,
    peers: VecDeque<Peer>,
}

/// A wire in memory.
#[derive(Drop)]
pub struct Memory {
    alloc: Global,
    now: u64,
    callers: VecDeque<Caller>,
    is_caller_told: bool,
    hosts: Vec<Host>,
    lines: Vec<MadeConn>,
    // How many connections were made.
    count: usize,
    reports: Vec<Report>,
    // What the clock showed last.
    shown: u64,
    log: Record,
    ghost clock: { shown ≡ time log.events },
    ghost fresh: { (c : ℕ) → count ≤ c → IsUntold c log.events × (is_open c log.events ≡ false) },
}

fn earlier(first: Option<u64>, other: Option<u64>) -> Option<u64> {
    match (first, other) {
        (Some(a), Some(b)) => Some(a.min(b)),
        (Some(a), None) => Some(a),
        (None, other) => other,
    }
}

fn millis_of(limit: Duration) -> u64 {
    u64::try_from(limit.as_millis()).unwrap_or(u64::MAX)
}

// What a wait tells of a connection.
fn report_of(line: &mut MadeConn, now: u64) -> Option<Report> {
    if !line.is_open {
        return None;
    }
    match line.owner {
        Owner::Nobody => None,
        Owner::Client(id) => Some(Report::Client(id, line.peer.report(now)?)),
        Owner::Server(server) => Some(Report::Server(server, line.peer.report(now)?)),
    }
}

fn put_reports(
    reports: &mut Vec<Report>,
    lines: &mut Vec<MadeConn>,
    now: u64,
) -> Result<(), AllocError> {
    for line in lines.iter_mut() {
        if let Some(report) = report_of(line, now) {
            reports.push(report)?;
        }
    }
    Ok(())
}

// When a far end does more by itself.
fn wakes_at(lines: &Vec<MadeConn>) -> Option<u64> {
    let mut first = None;
    for line in lines.as_slice() {
        if line.is_open {
            first = earlier(first, line.peer.wakes_at());
        }
    }
    first
}

fn host_at<'a>(hosts: &'a mut Vec<Host>, text: &[u8]) -> Option<&'a mut Host> {
    for host in hosts.iter_mut() {
        if host.text.as_slice() == text {
            return Some(host);
        }
    }
    None
}

// Where the name of a host leads.
fn lead_to(host: &Host) -> Lead {
    if !host.is_known {
        Lead::First
    } else if host.has_moved {
        Lead::Other
    } else {
        Lead::Same
    }
}

// Why there is no connection.
#[derive(Clone, Copy, PartialEq, Eq)]
enum Fault {
    NoAddress,
    Refused,
}

// The far end of the next connection to this address.
fn next_peer(hosts: &mut Vec<Host>, text: &[u8]) -> Result<Peer, Fault> {
    let Some(host) = host_at(hosts, text) else {
        return Err(Fault::NoAddress);
    };
    if !host.is_known {
        return Err(Fault::NoAddress);
    }
    match host.peers.pop_front() {
        Some(peer) => Ok(peer),
        None => Err(Fault::Refused),
    }
}

fn peer_of(lines: &mut Vec<MadeConn>, name: u32) -> Option<&mut Peer> {
    for line in lines.iter_mut() {
        if line.peer.name == name {
            return Some(&mut line.peer);
        }
    }
    None
}

// The bytes of these pieces.
fn joined(alloc: Global, parts: &[IoSlice<'_>]) -> Result<Vec<u8>, AllocError>
    ensures { IfOk result (λ bytes. bytes.items ≡ io_slices_bytes parts.now) }
{
    let mut bytes = Vec::new(alloc);
    for part in parts {
        bytes.extend_from_slice(part.as_slice())?;
    }
    Ok(bytes)
}

impl Memory {
    /// Nobody is there.
    pub fn new(alloc: Global) -> Memory
        ensures none { result.log.events ≡ [] }
    {
        Memory {
            alloc,
            now: 0,
            callers: VecDeque::new(alloc),
            is_caller_told: false,
            hosts: Vec::new(alloc),
            lines: Vec::new(alloc),
            count: 0,
            reports: Vec::new(alloc),
            shown: 0,
            log: Record::new(),
        }
    }

    /// This peer connects at this time, after those that were named before.
    pub fn will_connect(&mut self, at: u64, peer: Peer) -> Result<(), AllocError> {
        Ok(self.callers.push_back(Caller { at, peer })?)
    }

    /// There is a host of this text.
    pub fn add_host(&mut self, text: &[u8]) -> Result<(), AllocError> {
        let text = text.to_vec(self.alloc)?;
        let peers = VecDeque::new(self.alloc);
        Ok(
            self.hosts.push(Host {
                text,
                is_known: false,
                has_moved: false,
                peers,
            })?,
        )
    }

    /// The name of this host leads to another machine from now on.
    pub fn moves(&mut self, text: &[u8]) {
        if let Some(host) = host_at(&mut self.hosts, text) {
            host.has_moved = true;
        }
    }

    /// The next connection to this host has this far end.
    pub fn will_answer(&mut self, text: &[u8], peer: Peer) -> Result<(), AllocError> {
        match host_at(&mut self.hosts, text) {
            Some(host) => Ok(host.peers.push_back(peer)?),
            None => Ok(()),
        }
    }

    /// The far end of this name, once its connection was made: what it does may be changed at any time.
    pub fn peer_mut(&mut self, name: u32) -> Option<&mut Peer> {
        peer_of(&mut self.lines, name)
    }

    /// All that was sent to the far end of this name.
    pub fn taken(&self, name: u32) -> &[u8] {
        for line in self.lines.as_slice() {
            if line.peer.name == name {
                return line.peer.taken();
            }
        }
        &[]
    }

    /// Whether the connection of the far end of this name was made, and not closed here.
    pub fn is_open(&self, name: u32) -> bool {
        for line in self.lines.as_slice() {
            if line.peer.name == name {
                return line.is_open;
            }
        }
        false
    }

    // Somebody waits to be accepted.
    fn has_caller(&self) -> bool {
        match self.callers.front() {
            Some(caller) => caller.at <= self.now,
            None => false,
        }
    }

    // What there is to tell now.
    fn look(&mut self) -> Result<(), AllocError>
        ensures { self.new.log ≡ self.old.log }
    {
        self.reports.clear();
        if self.has_caller() && !self.is_caller_told {
            self.is_caller_told = true;
            self.reports.push(Report::Listener)?;
        }
        put_reports(&mut self.reports, &mut self.lines, self.now)
    }

    // When something happens by itself.
    fn next_time(&self) -> Option<u64> {
        let caller = match self.callers.front() {
            Some(caller) => Some(caller.at),
            None => None,
        };
        earlier(caller, wakes_at(&self.lines))
    }

    // The clock goes on, to what happens next or by as much as may be waited. Whether it does.
    fn pass_time(&mut self, limit: Option<Duration>) -> bool
        ensures { self.new.log ≡ self.old.log }
    {
        let limit = match limit {
            Some(limit) => Some(self.now.saturating_add(millis_of(limit))),
            None => None,
        };
        match earlier(self.next_time(), limit) {
            Some(time) => {
                self.now = self.now.max(time);
                true
            }
            None => false,
        }
    }

    // A connection is made: its number.
    fn begin(&mut self, peer: Peer, owner: Owner) -> Option<usize>
        ensures some { IfSome result (λ c. (self.old.count ≤ c) × (c < self.new.count)) }
        ensures log { self.new.log ≡ self.old.log }
    {
        let number = self.lines.len();
        if number < self.count || number == usize::MAX {
            return None;
        }
        let is_open = true;
        if self
            .lines
            .push(MadeConn {
                peer,
                owner,
                is_open,
            })
            .is_err()
        {
            return None;
        }
        self.count = number + 1;
        Some(number)
    }
}

// The connection of this number, if it is open.
fn line_at(lines: &mut Vec<MadeConn>, conn: usize) -> Option<&mut MadeConn> {
    let line = lines.get_mut(conn)?;
    if line.is_open { Some(line) } else { None }
}

fn read_line(lines: &mut Vec<MadeConn>, conn: usize, now: u64, into: &mut BytesMut) -> ReadOutcome
    requires { 0 < into.old.spare }
    ensures { Adds result into.old.items into.new.items into.old.spare into.new.spare }
{
    match line_at(lines, conn) {
        Some(line) => line.peer.read(now, into),
        None => ReadOutcome::NotReady,
    }
}

fn write_line(lines: &mut Vec<MadeConn>, conn: usize, now: u64, bytes: &[u8]) -> WriteOutcome
    ensures { FitsOffer result bytes.now }
{
    match line_at(lines, conn) {
        Some(line) => line.peer.write(now, bytes),
        None => WriteOutcome::NotReady,
    }
}

// Whether there was one, whose it is now.
fn give_line(lines: &mut Vec<MadeConn>, conn: usize, owner: Owner) -> bool {
    match line_at(lines, conn) {
        Some(line) => {
            line.owner = owner;
            true
        }
        None => false,
    }
}

fn close_line(lines: &mut Vec<MadeConn>, conn: usize) {
    if let Some(line) = lines.get_mut(conn) {
        line.is_open = false;
    }
}

fn shut_line(lines: &mut Vec<MadeConn>, conn: usize) {
    if let Some(line) = line_at(lines, conn) {
        line.peer.shut();
    }
}

// The next who waits to be accepted.
fn next_caller(callers: &mut VecDeque<Caller>, now: u64) -> Option<Peer> {
    match callers.front() {
        Some(caller) if caller.at <= now => {}
        _ => return None,
    }
    let Caller { at: _, peer } = callers.pop_front()?;
    Some(peer)
}

impl Wire for Memory {
    ghost history = { λ s. s.log.events };

    fn millis<C: Clock>(&mut self, _clock: &C) -> io::Result<u64> {
        self.log.note(&[TICKS, 0, self.now], &[]);
        self.shown = self.now;
        Ok(self.now)
    }

    fn last_millis(&self) -> u64 {
        self.shown
    }

    fn last_micros(&self) -> u64 {
        self.shown.saturating_mul(1000)
    }

    fn wait(&mut self, limit: Option<Duration>) -> io::Result<usize> {
        self.look()?;
        if self.reports.is_empty() {
            if !self.pass_time(limit) {
                return Err(io::Error::from(ErrorKind::TimedOut));
            }
            self.look()?;
        }
        Ok(self.reports.len())
    }

    fn report(&self, at: usize) -> Option<Report> {
        self.reports.get(at).copied()
    }

    fn accept(&mut self) -> Accepted {
        let Some(peer) = next_caller(&mut self.callers, self.now) else {
            self.is_caller_told = false;
            return Accepted::Nobody;
        };
        let Some(number) = self.begin(peer, Owner::Nobody) else {
            return Accepted::Gone;
        };
        self.log.note(&[ACCEPTS, number as u64, 0], &[]);
        Accepted::Peer(number)
    }

    fn admit(&mut self, conn: usize, client: usize) -> io::Result<()> {
        if conn >= self.count || !give_line(&mut self.lines, conn, Owner::Client(client)) {
            return Err(io::Error::from(ErrorKind::NotConnected));
        }
        self.log.note(&[ADMITS, conn as u64, client as u64], &[]);
        Ok(())
    }

    fn stop_accepting(&mut self) {
        self.callers.clear();
    }

    fn resolve<N: Net>(&mut self, _net: &N, text: &[u8]) -> io::Result<()> {
        self.log.note(&[LOOKS_UP, 0, 0], text);
        match host_at(&mut self.hosts, text) {
            Some(host) => {
                host.is_known = true;
                host.has_moved = false;
                Ok(())
            }
            None => Err(io::Error::from(ErrorKind::AddrNotAvailable)),
        }
    }

    fn look_again<N: Net>(&self, _net: &N, text: &[u8]) -> io::Result<Lead> {
        for host in self.hosts.as_slice() {
            if host.text.as_slice() == text {
                return Ok(lead_to(host));
            }
        }
        Err(io::Error::from(ErrorKind::AddrNotAvailable))
    }

    fn connect<N: Net>(&mut self, _net: &N, server: usize, text: &[u8]) -> Connected {
        let peer = match next_peer(&mut self.hosts, text) {
            Ok(peer) => peer,
            Err(Fault::NoAddress) => return Connected::NoAddress,
            Err(Fault::Refused) => return Connected::Failed,
        };
        let Some(number) = self.begin(peer, Owner::Server(server)) else {
            return Connected::Failed;
        };
        self.log
            .note(&[CONNECTS, number as u64, server as u64], text);
        Connected::Begun(number)
    }

    fn is_connected(&self, conn: usize) -> bool {
        match self.lines.get(conn) {
            Some(line) => line.is_open,
            None => false,
        }
    }

    fn read(&mut self, conn: usize, into: &mut BytesMut) -> ReadOutcome {
        if conn >= self.count {
            return ReadOutcome::NotReady;
        }
        let len = into.len();
        let outcome = read_line(&mut self.lines, conn, self.now, into);
        match outcome {
            ReadOutcome::Bytes(_) => {
                self.log
                    .note(&[DELIVERS, conn as u64, 0], &into.as_slice()[len..])
            }
            ReadOutcome::NotReady | ReadOutcome::Interrupted => {}
            ReadOutcome::Ended => self.log.note(&[ENDS, conn as u64, 0], &[]),
            ReadOutcome::Failed => self.log.note(&[FAILS, conn as u64, 0], &[]),
        }
        outcome
    }

    fn write(&mut self, conn: usize, bytes: &[u8]) -> WriteOutcome {
        if conn >= self.count {
            return WriteOutcome::NotReady;
        }
        let outcome = write_line(&mut self.lines, conn, self.now, bytes);
        match outcome {
            WriteOutcome::Bytes(count) => {
                self.log.note(&[TAKES, conn as u64, 0], &bytes[..count])
            }
            WriteOutcome::NotReady | WriteOutcome::Interrupted => {}
            WriteOutcome::Failed => self.log.note(&[FAILS, conn as u64, 0], &[]),
        }
        outcome
    }

    fn write_parts(&mut self, conn: usize, parts: &[IoSlice<'_>]) -> WriteOutcome {
        let Ok(bytes) = joined(self.alloc, parts) else {
            return WriteOutcome::NotReady;
        };
        self.write(conn, bytes.as_slice())
    }

    fn shut_writes(&mut self, conn: usize) {
        shut_line(&mut self.lines, conn);
    }

    fn close(&mut self, conn: usize) {
        if conn < self.count {
            close_line(&mut self.lines, conn);
            self.log.note(&[CLOSES, conn as u64, 0], &[]);
        }
    }
}

impl Listens for Memory {
    fn listens_at(&self) -> io::Result<SocketAddr> {
        Err(io::Error::from(ErrorKind::AddrNotAvailable))
    }

    // (its waits end by what its far ends do alone)
    fn wake_up_by(&self, _descriptor: RawFd) -> io::Result<()> {
        Ok(())
    }

    fn is_woken(&self) -> bool {
        true
    }
}
