//! The clients that ask: their connections, of which there are 16 at most, each for 5 seconds.

use crate::connections::{Connection, Connections, Conversation};
use crate::http::exchange::{Answering, Asking, Exchange, Waiting};
use crate::http::request::Page;
use crate::places::PLACES;
use mio::net::{TcpListener, TcpStream};
use std::alloc::Global;
use std::io;
use std::io::{ErrorKind, Read};
use std::net::{Net, Shutdown, SocketAddr};
use std::os::fd::RawFd;

// A client that has its answer is closed once it sent so much in a turn.
const LINGERING_READS: usize = 8;

// What it sends is dropped. Where it stands, if it stays.
fn linger(mut stream: &TcpStream) -> io::Result<Option<Exchange>> {
    let mut part = [0u8; 4096];
    for _ in 0..LINGERING_READS {
        match stream.read(&mut part) {
            Ok(0) => return Ok(None),
            Ok(_) => {}
            Err(error) if error.kind() == ErrorKind::WouldBlock => {
                return Ok(Some(Exchange::Lingering));
            }
            Err(error) => return Err(error),
        }
    }
    Ok(None)
}

// All was sent to it.
fn end(stream: &TcpStream) -> io::Result<Option<Exchange>> {
    stream.shutdown(Shutdown::Write)?;
    linger(stream)
}

// It is sent what it takes. Where it stands then, if it stays.
fn send(mut stream: &TcpStream, answering: Answering) -> io::Result<Option<Exchange>> {
    let mut answering = answering;
    if answering.send(&mut stream)? {
        return Ok(Some(Exchange::Answering(answering)));
    }
    end(stream)
}

// It is sent its answer, if it has one.
fn send_if_answered(stream: &TcpStream, exchange: Exchange) -> io::Result<Option<Exchange>> {
    match exchange {
        Exchange::Answering(answering) => send(stream, answering),
        exchange => Ok(Some(exchange)),
    }
}

// What it sent is read. Where it stands then, if it stays. A read takes all that has come, or as much as a request may have.
fn read(alloc: Global, mut stream: &TcpStream, asking: Asking) -> io::Result<Option<Exchange>> {
    let mut part = [0u8; 8192];
    let room = asking.room();
    match stream.read(&mut part[..room]) {
        Ok(0) => Ok(None),
        Ok(count) => {
            let exchange = asking.take(alloc, &part[..count])?;
            send_if_answered(stream, exchange)
        }
        Err(error) if error.kind() == ErrorKind::WouldBlock => Ok(Some(Exchange::Asking(asking))),
        Err(error) => Err(error),
    }
}

impl Conversation<TcpStream> for Exchange {
    fn begun(alloc: Global) -> Exchange {
        Exchange::Asking(Asking::new(alloc))
    }

    fn go_on(self, alloc: Global, stream: &TcpStream) -> io::Result<Option<Exchange>> {
        match self {
            Exchange::Asking(asking) => read(alloc, stream, asking),
            Exchange::Waiting(waiting) => Ok(Some(Exchange::Waiting(waiting))),
            Exchange::Answering(answering) => send(stream, answering),
            Exchange::Lingering => linger(stream),
        }
    }

    fn is_owed(&self) -> bool {
        false
    }
}

// It is answered by this body of the page for which it waits. Where it stands then, if it stays.
fn answer(
    alloc: Global,
    stream: &TcpStream,
    waiting: Waiting,
    body: &[u8],
) -> io::Result<Option<Exchange>> {
    let answering = waiting.answer(alloc, body)?;
    send(stream, answering)
}

// If it waits for a page, it is answered by this body of that; else it stays where it stands. Where it stands then, if it stays.
fn answer_if_waiting(
    alloc: Global,
    stream: &TcpStream,
    exchange: Exchange,
    body: &[u8],
) -> io::Result<Option<Exchange>> {
    match exchange {
        Exchange::Waiting(waiting) => answer(alloc, stream, waiting, body),
        exchange => Ok(Some(exchange)),
    }
}

// The page for which a client waits that stands there.
fn page_of(exchange: &Exchange) -> Option<Page> {
    match exchange {
        Exchange::Waiting(waiting) => Some(waiting.page),
        Exchange::Asking(_) | Exchange::Answering(_) | Exchange::Lingering => None,
    }
}

/// The clients that ask, and where they are listened for. Nothing here waits.
#[derive(Drop)]
pub struct Visitors {
    alloc: Global,
    connections: Connections<TcpListener, Exchange>,
    // How many were answered by a page.
    answered: u64,
}

impl Visitors {
    /// None is there, and they are listened for at this address. An error comes where they can't be, or memory was refused.
    pub fn listen<R: Net + AllocGlobal>(rt: &R, address: SocketAddr) -> io::Result<Visitors> {
        Ok(Visitors {
            alloc: rt.alloc(),
            connections: Connections::new(rt, TcpListener::bind(rt, address)?)?,
            answered: 0,
        })
    }

    /// Where they are listened for.
    pub fn local_addr(&self) -> io::Result<SocketAddr> {
        self.connections.listener().local_addr()
    }

    /// A descriptor that is readable once one of them can go on.
    pub fn descriptor(&self) -> RawFd {
        self.connections.descriptor()
    }

    /// How many were answered by a page.
    pub fn answered(&self) -> u64 {
        self.answered
    }

    /// When a turn is due though the descriptor isn't readable, in the milliseconds that turns are told.
    pub fn limit(&self) -> Option<u64> {
        self.connections.limit()
    }

    /// Those that wait are accepted, each goes on as far as it can, and those whose time is up are closed. `now` is in milliseconds. An
    /// error comes where the system doesn't tell which can go on.
    pub fn turn(&mut self, now: u64) -> io::Result<()> {
        self.connections.turn(now)
    }

    /// The place of one that waits for a page, and which page that is.
    pub fn next_page(&self) -> Option<(usize, Page)> {
        for place in 0..PLACES {
            if let Some(page) = self.page_at(place) {
                return Some((place, page));
            }
        }
        None
    }

    fn page_at(&self, place: usize) -> Option<Page> {
        page_of(self.connections.exchange_at(place)?)
    }

    /// The one at this place that waits for a page is answered by this body. Where memory is refused for the answer it is closed.
    pub fn answer(&mut self, place: usize, body: &[u8]) {
        if let Some(connection) = self.connections.take(place) {
            let Connection {
                stream,
                exchange,
                until,
            } = connection;
            let gone_on = answer_if_waiting(self.alloc, &stream, exchange, body);
            self.connections
                .put(place, Connection::of(stream, gone_on, until));
            self.answered = self.answered.saturating_add(1);
        }
    }

    /// The one at this place is closed.
    pub fn close(&mut self, place: usize) {
        self.connections.put(place, None);
    }
}
