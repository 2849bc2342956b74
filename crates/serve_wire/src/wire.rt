//! The trait.

ghost use Rattle.std.specs.Prelude.{◌≡◌, ◌<◌, None, List, ◌∷◌, length, IfOk, OnOk, OnErr};
ghost use Rattle.std.specs.Io.Slices.{io_slices_bytes};
ghost use Rattle.serve_wire.specs.Events.{WireEvent, admits, ticks, looks_up, role, time};
ghost use Rattle.serve_wire.specs.Calls.{Accepts, Connects, ReadsBehind, Writes, Closes};

use crate::outcomes::{Accepted, Connected, Lead, ReadOutcome, Report, WriteOutcome};
use bytes::BytesMut;
use std::io;
use std::io::IoSlice;
use std::net::Net;
use std::rt::Clock;
use std::time::Duration;

/// Connections to and from the outside, by numbers that are never used again, and the clock.
///
/// Source: mcgate's own.
pub trait Wire {
    /// All that has happened, newest first.
    ghost history: { Self → List WireEvent };

    /// How many milliseconds have gone by.
    fn millis<C: Clock>(&mut self, clock: &C) -> io::Result<u64>
        ensures ok { IfOk result (λ t. history self.new ≡ ticks t ∷ history self.old) }
        ensures err { OnErr result (history self.new ≡ history self.old) };

    /// What the clock showed last, in milliseconds; 0 where it wasn't looked at yet.
    fn last_millis(&self) -> u64
        ensures { result ≡ time (history self.now) };

    /// What the clock showed last, in microseconds.
    fn last_micros(&self) -> u64;

    /// Waits until something is ready, and this long at most: how many reports there are.
    fn wait(&mut self, limit: Option<Duration>) -> io::Result<usize>
        ensures { history self.new ≡ history self.old };

    /// A report of the last wait. It may be spurious, and come after the connection was closed.
    fn report(&self, at: usize) -> Option<Report>;

    /// Accepts a peer. Nothing is reported of it until it is admitted.
    fn accept(&mut self) -> Accepted
        ensures { Accepts result (history self.old) (history self.new) };

    /// The connection is this client's from now on, and is reported as such.
    fn admit(&mut self, conn: usize, client: usize) -> io::Result<()>
        requires { role conn (history self.old) ≡ None }
        ensures ok { OnOk result (history self.new ≡ admits conn client ∷ history self.old) }
        ensures err { OnErr result (history self.new ≡ history self.old) };

    /// Nobody is accepted from now on, and who would connect is refused.
    fn stop_accepting(&mut self)
        ensures { history self.new ≡ history self.old };

    /// Looks up the address in a server's name, which is where connections to it go from now on, so that they can be begun without a wait.
    fn resolve<N: Net>(&mut self, net: &N, text: &[u8]) -> io::Result<()>
        ensures { history self.new ≡ looks_up text.now ∷ history self.old };

    /// Where the address in a server's name leads now, beside the machine to which connections go. Nothing changes by that. An error comes where it leads nowhere.
    fn look_again<N: Net>(&self, net: &N, text: &[u8]) -> io::Result<Lead>;

    /// Begins a connection to this server, where the address in its name was found to lead. It is reported as this server's.
    fn connect<N: Net>(&mut self, net: &N, server: usize, text: &[u8]) -> Connected
        ensures { Connects result server text.now (history self.old) (history self.new) };

    /// Whether a connection that was begun stands.
    fn is_connected(&self, conn: usize) -> bool;

    /// One read into the spare room of a buffer.
    fn read(&mut self, conn: usize, into: &mut BytesMut) -> ReadOutcome
        requires { 0 < into.old.spare }
        ensures { ReadsBehind conn result into.old.items into.new.items into.old.spare into.new.spare (history self.old) (history self.new) };

    /// One write of bytes.
    fn write(&mut self, conn: usize, bytes: &[u8]) -> WriteOutcome
        requires { 0 < length bytes.now }
        ensures { Writes conn result bytes.now (history self.old) (history self.new) };

    /// One write of the first of these pieces, up to four of them.
    fn write_parts(&mut self, conn: usize, parts: &[IoSlice<'_>]) -> WriteOutcome
        requires { 0 < length (io_slices_bytes parts.now) }
        ensures { Writes conn result (io_slices_bytes parts.now) (history self.old) (history self.new) };

    /// Says to the peer that nothing more is sent over a connection. What comes is still read.
    fn shut_writes(&mut self, conn: usize)
        ensures { history self.new ≡ history self.old };

    /// Closes a connection. What is reported of it later is ignored.
    fn close(&mut self, conn: usize)
        ensures { Closes conn (history self.old) (history self.new) };
}
