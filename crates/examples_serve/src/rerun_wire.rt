//! A wire for a loop that is run again and again: each run names the descriptors by which waits are to end, which only the first run may over a
//! wire alone. Its waits are counted, too.

use bytes::BytesMut;
use serve_wire::{Accepted, Connected, Lead, Listens, ReadOutcome, Report, Wire, WriteOutcome};
use std::io;
use std::io::{ErrorKind, IoSlice};
use std::net::{Net, SocketAddr};
use std::os::fd::RawFd;
use std::rt::Clock;
use std::time::Duration;

/// A wire, and how often it has waited.
#[derive(Drop)]
pub struct RerunWire<W> {
    wire: W,
    waits: u32,
}

impl<W: Wire> RerunWire<W> {
    /// It hasn't waited yet.
    pub fn new(wire: W) -> RerunWire<W> {
        RerunWire { wire, waits: 0 }
    }

    /// How often it has waited.
    pub fn waits(&self) -> u32 {
        self.waits
    }
}

impl<W: Wire> Wire for RerunWire<W> {
    ghost history = { λ s. W.history s.wire };

    fn millis<C: Clock>(&mut self, clock: &C) -> io::Result<u64> {
        self.wire.millis(clock)
    }

    fn last_millis(&self) -> u64 {
        self.wire.last_millis()
    }

    fn last_micros(&self) -> u64 {
        self.wire.last_micros()
    }

    fn wait(&mut self, limit: Option<Duration>) -> io::Result<usize> {
        self.waits = self.waits.saturating_add(1);
        self.wire.wait(limit)
    }

    fn report(&self, at: usize) -> Option<Report> {
        self.wire.report(at)
    }

    fn accept(&mut self) -> Accepted {
        self.wire.accept()
    }

    fn admit(&mut self, conn: usize, client: usize) -> io::Result<()> {
        self.wire.admit(conn, client)
    }

    fn stop_accepting(&mut self) {
        self.wire.stop_accepting()
    }

    fn resolve<N: Net>(&mut self, net: &N, text: &[u8]) -> io::Result<()> {
        self.wire.resolve(net, text)
    }

    fn look_again<N: Net>(&self, net: &N, text: &[u8]) -> io::Result<Lead> {
        self.wire.look_again(net, text)
    }

    fn connect<N: Net>(&mut self, net: &N, server: usize, text: &[u8]) -> Connected {
        self.wire.connect(net, server, text)
    }

    fn is_connected(&self, conn: usize) -> bool {
        self.wire.is_connected(conn)
    }

    fn read(&mut self, conn: usize, into: &mut BytesMut) -> ReadOutcome {
        self.wire.read(conn, into)
    }

    fn write(&mut self, conn: usize, bytes: &[u8]) -> WriteOutcome {
        self.wire.write(conn, bytes)
    }

    fn write_parts(&mut self, conn: usize, parts: &[IoSlice<'_>]) -> WriteOutcome {
        self.wire.write_parts(conn, parts)
    }

    fn shut_writes(&mut self, conn: usize) {
        self.wire.shut_writes(conn)
    }

    fn close(&mut self, conn: usize) {
        self.wire.close(conn)
    }
}

impl<W: Listens> Listens for RerunWire<W> {
    fn listens_at(&self) -> io::Result<SocketAddr> {
        self.wire.listens_at()
    }

    fn wake_up_by(&self, descriptor: RawFd) -> io::Result<()> {
        match self.wire.wake_up_by(descriptor) {
            Err(error) if error.kind() == ErrorKind::AlreadyExists => Ok(()),
            watched => watched,
        }
    }

    fn is_woken(&self) -> bool {
        self.wire.is_woken()
    }
}
