//! Those who ask: their connections, of which there are 16 at most. A line has 5 seconds to come, and an answer 5 to be taken.

use crate::connections::{Connection, Connections, Conversation};
use crate::control::answers::Ruling;
use crate::control::exchange::{Exchange, answering};
use crate::places::PLACES;
use crate::sending::Sending;
use mio::net::{UnixListener, UnixStream};
use std::alloc::Global;
use std::io;
use std::io::{ErrorKind, Read};
use std::net::Net;
use std::os::fd::RawFd;

// What it sent is read. Where it stands then, if it stays.
fn read(alloc: Global, mut stream: &UnixStream, came: Vec<u8>) -> io::Result<Option<Exchange>> {
    let mut part = [0u8; 4096];
    match stream.read(&mut part) {
        Ok(0) => Ok(None),
        Ok(count) => {
            let mut came = came;
            came.extend_from_slice(&part[..count])?;
            Ok(Some(Exchange::of(alloc, came)?))
        }
        Err(error) if error.kind() == ErrorKind::WouldBlock => Ok(Some(Exchange::Asking(came))),
        Err(error) => Err(error),
    }
}

// It is sent what it takes. Where it stands then, if it stays: not once all was sent.
fn send(mut stream: &UnixStream, sending: Sending) -> io::Result<Option<Exchange>> {
    let mut sending = sending;
    if sending.send(&mut stream)? {
        return Ok(Some(Exchange::Answering(sending)));
    }
    Ok(None)
}

impl Conversation<UnixStream> for Exchange {
    fn begun(alloc: Global) -> Exchange {
        Exchange::Asking(Vec::new(alloc))
    }

    fn go_on(self, alloc: Global, stream: &UnixStream) -> io::Result<Option<Exchange>> {
        match self {
            Exchange::Asking(came) => read(alloc, stream, came),
            Exchange::Asked(text) => Ok(Some(Exchange::Asked(text))),
            Exchange::Owed => Ok(Some(Exchange::Owed)),
            Exchange::Answering(sending) => send(stream, sending),
        }
    }

    fn is_owed(&self) -> bool {
        match self {
            Exchange::Asked(_) | Exchange::Owed => true,
            Exchange::Asking(_) | Exchange::Answering(_) => false,
        }
    }
}

// It is answered so. Where it stands then, if it stays.
fn answer(
    alloc: Global,
    stream: &UnixStream,
    verdict: Ruling,
    text: &[u8],
) -> io::Result<Option<Exchange>> {
    let sending = answering(alloc, verdict, text)?;
    send(stream, sending)
}

// Where one stands then, and its line, if it waits for an answer, which is owed to it from now on.
fn owing(exchange: Exchange) -> (Exchange, Option<Vec<u8>>) {
    match exchange {
        Exchange::Asked(text) => (Exchange::Owed, Some(text)),
        exchange => (exchange, None),
    }
}

/// Those who ask, and where they are listened for. Nothing here waits.
#[derive(Drop)]
pub struct Callers {
    alloc: Global,
    connections: Connections<UnixListener, Exchange>,
}

impl Callers {
    /// None is there, and they are listened for by this listener. An error comes where memory was refused, or the system doesn't watch it.
    pub fn new<R: Net + AllocGlobal>(rt: &R, listener: UnixListener) -> io::Result<Callers> {
        Ok(Callers {
            alloc: rt.alloc(),
            connections: Connections::new(rt, listener)?,
        })
    }

    /// A descriptor that is readable once one of them can go on.
    pub fn descriptor(&self) -> RawFd {
        self.connections.descriptor()
    }

    /// When a turn is due though the descriptor isn't readable, in the milliseconds that turns are told.
    pub fn limit(&self) -> Option<u64> {
        self.connections.limit()
    }

    /// Those that wait are accepted, each goes on as far as it can, and those whose time is up are closed. `now` is in milliseconds. An
    /// error comes where the system doesn't tell which can go on.
    pub fn turn(&mut self, now: u64) -> io::Result<()> {
        self.connections.turn(now)
    }

    /// The place of one that waits for an answer, and its line; from now on the answer is owed to it, and it stays until it has it.
    pub fn next_line(&mut self) -> Option<(usize, Vec<u8>)> {
        for place in 0..PLACES {
            if let Some(text) = self.line_at(place) {
                return Some((place, text));
            }
        }
        None
    }

    fn line_at(&mut self, place: usize) -> Option<Vec<u8>> {
        let Connection {
            stream,
            exchange,
            until,
        } = self.connections.take(place)?;
        let (exchange, text) = owing(exchange);
        let connection = Connection {
            stream,
            exchange,
            until,
        };
        self.connections.put(place, Some(connection));
        text
    }

    /// The one at this place is answered so, and stays until it has taken that, for 5 seconds at most. Where memory is refused for the
    /// answer it is closed.
    pub fn answer(&mut self, place: usize, verdict: Ruling, text: &[u8]) {
        let until = self.connections.until();
        if let Some(connection) = self.connections.take(place) {
            let gone_on = answer(self.alloc, &connection.stream, verdict, text);
            self.connections
                .put(place, Connection::of(connection.stream, gone_on, until));
        }
    }
}
