//! Those who are connected, of whom there are 16 at most, and where they are listened for.

ghost use Rattle.std.specs.Prelude.{◌≡◌, length};

use crate::places::{ACCEPTS, EVENTS, LISTENER, MOST_MS, PLACES, free_places};
use mio::event::Source;
use mio::net::{TcpListener, TcpStream, UnixListener, UnixStream};
use mio::{Events, Interest, Poll, Token};
use std::alloc::Global;
use std::io;
use std::net::Net;
use std::os::fd::{AsRawFd, RawFd};
use std::time::Duration;

/// A socket that listens and doesn't wait.
pub trait Accepts: Source + Drop {
    /// What it accepts.
    type Stream: Source + Drop;

    /// The next one that waits to be accepted. The errors are the system's, `WouldBlock` where none waits.
    fn accept_next(&self) -> io::Result<Self::Stream>;
}

impl Accepts for TcpListener {
    type Stream = TcpStream;

    fn accept_next(&self) -> io::Result<TcpStream> {
        let (stream, _) = self.accept()?;
        Ok(stream)
    }
}

impl Accepts for UnixListener {
    type Stream = UnixStream;

    fn accept_next(&self) -> io::Result<UnixStream> {
        let (stream, _) = self.accept()?;
        Ok(stream)
    }
}

/// What comes and goes over such a stream.
pub trait Conversation<S>: Drop {
    /// Nothing has come.
    fn begun(alloc: Global) -> Self;

    /// It goes on as far as it can. What it is then, if the stream stays.
    fn go_on(self, alloc: Global, stream: &S) -> io::Result<Option<Self>>;

    /// Whether an answer is owed, for which the stream stays however long that takes.
    fn is_owed(&self) -> bool;
}

/// One who is connected.
#[derive(Drop)]
pub struct Connection<S: Drop, E: Drop> {
    pub stream: S,
    pub exchange: E,
    /// When it is closed, unless an answer is owed to it, in the milliseconds that turns are told.
    pub until: u64,
}

impl<S: Drop, E: Drop> Connection<S, E> {
    /// It has gone on so, if it stays.
    pub fn of(stream: S, gone_on: io::Result<Option<E>>, until: u64) -> Option<Connection<S, E>> {
        match gone_on {
            Ok(Some(exchange)) => Some(Connection {
                stream,
                exchange,
                until,
            }),
            Ok(None) | Err(_) => None,
        }
    }
}

// It goes on, if it stays.
fn go_on<S: Drop, E: Conversation<S>>(
    alloc: Global,
    connection: Connection<S, E>,
) -> Option<Connection<S, E>> {
    let Connection {
        stream,
        exchange,
        until,
    } = connection;
    let gone_on = exchange.go_on(alloc, &stream);
    Connection::of(stream, gone_on, until)
}

/// Those who are connected, and where they are listened for. Nothing here waits.
#[derive(Drop)]
pub struct Connections<L: Accepts, E: Conversation<L::Stream>> {
    alloc: Global,
    poll: Poll,
    events: Events,
    listener: L,
    places: Vec<Option<Connection<L::Stream, E>>>,
    // Whether more may wait to be accepted.
    has_more: bool,
    // What was told last of the time, in milliseconds.
    now: u64,
    ghost bounded: { length places.items ≡ 16 },
}

impl<L: Accepts, E: Conversation<L::Stream>> Connections<L, E> {
    /// None is there, and they are listened for by this listener. An error comes where memory was refused, or the system doesn't watch it.
    pub fn new<R: Net + AllocGlobal>(rt: &R, listener: L) -> io::Result<Connections<L, E>> {
        let alloc = rt.alloc();
        let poll = Poll::new(rt)?;
        let mut listener = listener;
        poll.registry()
            .register(&mut listener, LISTENER, Interest::READABLE)?;
        Ok(Connections {
            alloc,
            poll,
            events: Events::with_capacity(alloc, EVENTS)?,
            listener,
            places: free_places(alloc)?,
            has_more: false,
            now: 0,
        })
    }

    /// What they are listened for by.
    pub fn listener(&self) -> &L {
        &self.listener
    }

    /// A descriptor that is readable once one of them can go on.
    pub fn descriptor(&self) -> RawFd {
        self.poll.as_raw_fd()
    }

    /// When a turn is due though the descriptor isn't readable, in the milliseconds that turns are told.
    pub fn limit(&self) -> Option<u64> {
        if self.has_more {
            return Some(0);
        }
        let mut first = None;
        for connection in self.places.iter().flatten() {
            if !connection.exchange.is_owed()
                && first.is_none_or(|limit| connection.until < limit)
            {
                first = Some(connection.until);
            }
        }
        first
    }

    /// When one is closed whose time begins now.
    pub fn until(&self) -> u64 {
        self.now.saturating_add(MOST_MS)
    }

    /// What comes and goes with the one at this place.
    pub fn exchange_at(&self, place: usize) -> Option<&E> {
        match self.places.get(place)? {
            Some(connection) => Some(&connection.exchange),
            None => None,
        }
    }

    /// The one at this place, which is free from now on.
    pub fn take(&mut self, place: usize) -> Option<Connection<L::Stream, E>> {
        self.places.get_mut(place)?.take()
    }

    /// This one is at this place from now on, if it stays.
    pub fn put(&mut self, place: usize, connection: Option<Connection<L::Stream, E>>) {
        if let Some(free) = self.places.get_mut(place) {
            *free = connection;
        }
    }

    // A free place.
    fn free_place(&self) -> Option<usize> {
        self.places.iter().position(|place| place.is_none())
    }

    // It is there from now on. Where no place is free, or the system refuses to watch it, it is closed.
    fn admit(&mut self, stream: L::Stream) {
        let mut stream = stream;
        let Some(place) = self.free_place() else {
            return;
        };
        let both = Interest::READABLE | Interest::WRITABLE;
        let watched = self
            .poll
            .registry()
            .register(&mut stream, Token(place), both);
        if watched.is_err() {
            return;
        }
        let connection = Connection {
            stream,
            exchange: E::begun(self.alloc),
            until: self.until(),
        };
        self.put(place, Some(connection));
    }

    // Those that wait are accepted.
    fn accept(&mut self) {
        self.has_more = false;
        for _ in 0..ACCEPTS {
            match self.listener.accept_next() {
                Ok(stream) => self.admit(stream),
                Err(_) => return,
            }
        }
        self.has_more = true;
    }

    // The one at this place goes on, or is closed if its time is up.
    fn go_on_at(&mut self, place: usize) {
        if let Some(connection) = self.take(place) {
            if connection.exchange.is_owed() || self.now < connection.until {
                let connection = go_on(self.alloc, connection);
                self.put(place, connection);
            }
        }
    }

    /// Those that wait are accepted, each goes on as far as it can, and those whose time is up are closed. `now` is in milliseconds. An
    /// error comes where the system doesn't tell which can go on.
    pub fn turn(&mut self, now: u64) -> io::Result<()> {
        self.now = now;
        self.poll
            .poll(&mut self.events, Some(Duration::from_millis(0)))?;
        self.accept();
        for place in 0..PLACES {
            self.go_on_at(place);
        }
        Ok(())
    }
}
