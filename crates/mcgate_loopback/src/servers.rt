//! The servers' ends: their caches, the script's clock, and what becomes of each call.

use crate::calls::Calls;
use crate::clients::READ_ROOM;
use bytes::BytesMut;
use cache_tcp::client::CacheClient;
use cache_tcp::clock::UnixTime;
use cache_tcp::connection::Cache;
use mc_types::{DATA_LIMIT, Key, ServerId};
use mio::net::TcpListener;
use route_json::addresses::Servers;
use route_json::addresses::servers::MAX_SERVERS;
use script_events::servers::losing::lose_all;
use script_events::servers::{CAPACITY, Loss, Manner};
use serve_wire::conn::{Conn, Got, Limits, Sent};
use serve_wire::sockets::{Listener, Sockets};
use serve_wire::{Accepted, Wire};
use std::alloc::{AllocError, Global};
use std::io;
use std::io::ErrorKind;
use std::net::{Net, SocketAddr};
use wire_stream::{Read, read_request};

// More than one ask, or one answer, is never held.
const LIMITS: Limits = Limits {
    held: 4_194_304,
    unsent: 4_194_304,
};

// So many writes are made in one turn at most.
const WRITES: usize = 64;

// One server's end: where it listens, and the proxy's connection to it, over which one ask comes after the answer to the last.
#[derive(Drop)]
struct ServerEnd {
    listener: Listener,
    link: Option<CacheClient>,
    // The call has failed whose answer is to be sent: it comes late, before that to the next ask over this connection.
    is_late: bool,
    // The connection is closed as soon as what is to be sent was sent.
    is_last: bool,
}

// What comes in an answer's place.
const JUNK: &[u8] = b"JUNK\r\n";

// Of the answer only the front comes, or junk in its place, where the call is to fail so. Whether it does: then nothing more comes over
// the connection.
fn break_answer(answer: &mut BytesMut, failing: Option<Manner>) -> Result<bool, AllocError> {
    match failing {
        Some(Manner::Cut(count)) if (count as usize) < answer.len() => {
            answer.truncate(count as usize);
            Ok(true)
        }
        Some(Manner::Junk) => {
            answer.clear();
            answer.extend_from_slice(JUNK)?;
            Ok(true)
        }
        _ => Ok(false),
    }
}

// Whether a whole message stands in front.
fn is_whole(bytes: &[u8]) -> bool {
    match read_request(bytes) {
        Read::More => false,
        Read::Request(_) | Read::Refused { .. } | Read::TooLong | Read::OtherProtocol => true,
    }
}

impl ServerEnd {
    fn listen<N: Net>(net: &N, address: SocketAddr) -> io::Result<ServerEnd> {
        Ok(ServerEnd {
            listener: Listener::Tcp(TcpListener::bind(net, address)?),
            link: None,
            is_late: false,
            is_last: false,
        })
    }

    // The connection is closed.
    fn close(&mut self, wire: &mut Sockets) {
        if let Some(link) = self.link.take() {
            wire.close(link.conn.number);
        }
        self.is_late = false;
        self.is_last = false;
    }

    // A connection that waits is taken where there is none.
    fn accept(&mut self, alloc: Global, wire: &mut Sockets) {
        if self.link.is_some() {
            return;
        }
        if let Accepted::Peer(number) = wire.accept_by(&self.listener) {
            self.link = Some(CacheClient::new(alloc, Conn::new(alloc, number, LIMITS)));
        }
    }

    // One read. The answer is how many bytes came.
    fn read(&mut self, wire: &mut Sockets) -> Result<usize, AllocError> {
        let Some(link) = self.link.as_mut() else {
            return Ok(0);
        };
        let before = link.conn.held.len();
        match link.conn.read_once(wire, READ_ROOM)? {
            Got::Bytes => Ok(link.conn.held.len().saturating_sub(before)),
            Got::Nothing | Got::Full => Ok(0),
            Got::Ended | Got::Failed => {
                self.close(wire);
                Ok(0)
            }
        }
    }

    // Whether a whole ask came that isn't answered.
    fn is_asked(&self) -> bool {
        match &self.link {
            Some(link) => is_whole(link.conn.held.as_slice()),
            None => false,
        }
    }

    // Where what came begins with `flush_all` the server loses all that it holds, and says so.
    fn flush(&mut self, cache: &mut Cache) -> Result<(), AllocError> {
        let Some(link) = self.link.as_mut() else {
            return Ok(());
        };
        if link.pass_flush()? {
            cache.restart();
        }
        Ok(())
    }

    // The call that came is made: it is answered, or it fails so. Whether it has failed already, before its answer or without one.
    fn make_call(
        &mut self,
        wire: &mut Sockets,
        failing: Option<Manner>,
        cache: &mut Cache,
        moment: UnixTime,
    ) -> Result<bool, AllocError> {
        self.is_late = false;
        if failing == Some(Manner::Before) {
            self.close(wire);
            return Ok(true);
        }
        let Some(link) = self.link.as_mut() else {
            return Ok(false);
        };
        link.serve(cache, moment)?;
        if failing == Some(Manner::After) {
            self.is_late = true;
            return Ok(true);
        }
        self.is_last = break_answer(&mut link.conn.unsent.text, failing)?;
        Ok(false)
    }

    // Sends what the connection takes now. The answer is how many bytes that were.
    fn send(&mut self, wire: &mut Sockets) -> usize {
        let Some(link) = self.link.as_mut() else {
            return 0;
        };
        if self.is_late {
            return 0;
        }
        let before = link.conn.unsent.len();
        link.conn.writable = true;
        for _ in 0..WRITES {
            match link.conn.send_once(wire) {
                Sent::Bytes => {}
                Sent::Nothing | Sent::Failed => break,
            }
        }
        before.saturating_sub(link.conn.unsent.len())
    }

    // The connection is closed where nothing more is to come over it.
    fn close_last(&mut self, wire: &mut Sockets) {
        let is_sent = match &self.link {
            Some(link) => link.conn.unsent.is_empty(),
            None => true,
        };
        if self.is_last && is_sent {
            self.close(wire);
        }
    }
}

/// All servers' ends.
#[derive(Drop)]
pub struct ServerEnds {
    alloc: Global,
    caches: Vec<Cache>,
    ends: Vec<ServerEnd>,
    calls: Calls,
    moment: UnixTime,
    // Whether `flush_all` empties one of them.
    flushes: bool,
    // How many bytes came and were sent.
    moved: u64,
}

// So many empty caches.
fn empty_caches(alloc: Global, servers: usize) -> Result<Vec<Cache>, AllocError> {
    let mut caches = Vec::new(alloc);
    for _ in 0..servers {
        caches.push(Cache::new(alloc, CAPACITY)?)?;
    }
    Ok(caches)
}

// So many ends, each of which listens at a port of its own that the system picks.
fn listen_all<N: Net>(
    net: &N,
    alloc: Global,
    servers: usize,
    address: SocketAddr,
) -> io::Result<Vec<ServerEnd>> {
    let mut ends = Vec::new(alloc);
    for _ in 0..servers {
        ends.push(ServerEnd::listen(net, address)?)?;
    }
    Ok(ends)
}

// There is one more server, at this address, where none of these is yet.
fn add_server(alloc: Global, servers: &mut Servers, address: SocketAddr) -> io::Result<()> {
    let text = format!(in alloc; "{address}")?;
    if servers.len() >= MAX_SERVERS || servers.find(text.as_str()).is_some() {
        return Err(io::Error::from(ErrorKind::AlreadyExists));
    }
    servers.push(alloc, text.as_str())?;
    Ok(())
}

// A moment of a script; one before the first is that one.
fn moment_of(seconds: i64) -> UnixTime {
    let seconds = u64::try_from(seconds).unwrap_or(0);
    let seconds = i64::try_from(seconds).unwrap_or(i64::MAX);
    UnixTime { seconds }
}

impl ServerEnds {
    /// So many servers, each of which holds nothing and listens at this address, at a port that the system picks. `flush_all` empties one,
    /// or is an `ERROR`.
    pub fn listen<N: Net>(
        net: &N,
        alloc: Global,
        servers: usize,
        address: SocketAddr,
        flushes: bool,
    ) -> io::Result<ServerEnds> {
        Ok(ServerEnds {
            alloc,
            caches: empty_caches(alloc, servers)?,
            ends: listen_all(net, alloc, servers, address)?,
            calls: Calls::new(alloc),
            moment: moment_of(0),
            flushes,
            moved: 0,
        })
    }

    /// Where they listen, in their order.
    pub fn addresses(&self) -> io::Result<Servers> {
        let mut servers = Servers::new(self.alloc);
        for end in self.ends.as_slice() {
            add_server(self.alloc, &mut servers, end.listener.local_addr()?)?;
        }
        Ok(servers)
    }

    /// How many calls were made.
    pub fn calls(&self) -> u64 {
        self.calls.made()
    }

    /// How many bytes came and were sent.
    pub fn moved(&self) -> u64 {
        self.moved
    }

    /// The server holds these data under the key.
    pub fn hold(&mut self, server: ServerId, key: &Key, data: &[u8]) -> Result<(), AllocError> {
        if data.len() > DATA_LIMIT as usize {
            return Ok(());
        }
        match self.caches.get_mut(server.number() as usize) {
            Some(cache) => cache.hold(key, data),
            None => Ok(()),
        }
    }

    /// The call of this turn from here, which is 1 for the next one, fails.
    pub fn fail(&mut self, turn: u32, manner: Manner) -> Result<(), AllocError> {
        self.calls.fail(turn, manner)
    }

    /// What this loss names is lost just before the call of this turn from here.
    pub fn lose_at(&mut self, turn: u32, loss: Loss) -> Result<(), AllocError> {
        self.calls.lose_at(turn, loss)
    }

    /// What this loss names is lost now.
    pub fn lose(&mut self, loss: Loss) {
        lose_all(&mut self.caches, [loss].as_slice());
    }

    /// The time from now on, in seconds.
    pub fn set_moment(&mut self, seconds: i64) {
        self.moment = moment_of(seconds);
    }

    /// How many servers were asked and didn't answer yet.
    pub fn asked(&self) -> usize {
        self.ends.iter().filter(|end| end.is_asked()).count()
    }

    /// The least number of a server that was asked and didn't answer yet.
    pub fn first_asked(&self) -> Option<usize> {
        self.ends.iter().position(|end| end.is_asked())
    }

    /// Whether the server of this number was asked and didn't answer yet.
    pub fn is_asked(&self, at: usize) -> bool {
        match self.ends.get(at) {
            Some(end) => end.is_asked(),
            None => false,
        }
    }

    /// The call that the server of this number was asked is made. Whether it has failed already, so that the proxy's connection is to be dropped.
    pub fn make_call(&mut self, wire: &mut Sockets, at: usize) -> Result<bool, AllocError> {
        let failing = self.calls.begin(&mut self.caches);
        match (self.ends.get_mut(at), self.caches.get_mut(at)) {
            (Some(end), Some(cache)) => end.make_call(wire, failing, cache, self.moment),
            _ => Ok(false),
        }
    }

    /// One turn of all servers: what came is read, and what is to be sent is sent.
    pub fn turn(&mut self, wire: &mut Sockets) -> Result<(), AllocError> {
        for at in 0..self.ends.len() {
            let read = self.read(wire, at)?;
            self.note_moved(read);
            self.flush(at)?;
            let sent = self.send(wire, at);
            self.note_moved(sent);
            self.close_last(wire, at);
        }
        Ok(())
    }

    fn note_moved(&mut self, count: usize) {
        self.moved = self.moved.saturating_add(count as u64);
    }

    fn read(&mut self, wire: &mut Sockets, at: usize) -> Result<usize, AllocError> {
        let Some(end) = self.ends.get_mut(at) else {
            return Ok(0);
        };
        end.accept(self.alloc, wire);
        end.read(wire)
    }

    fn flush(&mut self, at: usize) -> Result<(), AllocError> {
        match (self.ends.get_mut(at), self.caches.get_mut(at)) {
            (Some(end), Some(cache)) if self.flushes => end.flush(cache),
            _ => Ok(()),
        }
    }

    fn send(&mut self, wire: &mut Sockets, at: usize) -> usize {
        match self.ends.get_mut(at) {
            Some(end) => end.send(wire),
            None => 0,
        }
    }

    fn close_last(&mut self, wire: &mut Sockets, at: usize) {
        if let Some(end) = self.ends.get_mut(at) {
            end.close_last(wire);
        }
    }
}
