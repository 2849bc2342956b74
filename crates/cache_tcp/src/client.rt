//! One client: what it sent is served, and what that gives is to be sent to it.

ghost use Rattle.std.specs.Prelude.{◌≡◌, true, false, [], ◌<◌, ◌≤◌, ◌++◌, ◌⊎◌, ℕ, List, length, drop, IfOk, OnOk, OnErr};
ghost use Rattle.serve_wire.specs.Agreement.{TouchesOnly};
ghost use Rattle.wire_parts.specs.declared.skip.Skip.TheVariants.{Nothing};
ghost use Rattle.wire_parts.specs.Sending.{bytes_of};
ghost use Rattle.wire_parts.specs.Stream.{Stands, Closed};
ghost use Rattle.cache_tcp.specs.Steps.{RunsOn, StopsForMemory, IsAnsweredSoFar, IsWithin, at_front};
ghost use Rattle.cache_tcp.specs.Serving.{FeedsStream, ServesHeld, StopsIn, IsServed, Waits};
ghost use Rattle.cache_tcp.specs.Flushing.{flush_line, PassesIf, TakesIf};

use crate::clock::UnixTime;
use crate::connection::uses::Uses;
use crate::connection::{Cache, Served};
use memchr::memchr;
use serve_wire::conn::{Conn, Got, Sent};
use serve_wire::{Ready, Wire};
use std::alloc::{AllocError, Global};
use wire_parts::to_send::SendBuffer;

// The room of one read, in bytes.
const READ_ROOM: usize = 16_384;

// How long the line is by which a client empties its server.
const FLUSH_LEN: usize = 11;

// An empty buffer is given back where it has more room than this, in bytes.
const KEPT_ROOM: usize = 262_144;

/// What becomes of a client after its turn.
#[derive(Clone, Copy, PartialEq, Eq)]
pub enum AfterTurn {
    /// Something is left to do for it now.
    More,
    /// It is ready for nothing.
    Waits,
    /// It is done, or its connection has failed, or memory was refused for it.
    Done,
}

/// A client: its end of the connection, and where its stream stands in what it sends.
#[derive(Drop)]
pub struct CacheClient {
    pub conn: Conn,
    pub served: Served,
    /// The keys that it asked for.
    pub uses: Uses,
    // It sends no more, and all that it sent was read.
    ended: bool,
    // It was served up to a backlog, so that something of its stream may be left to serve.
    stopped: bool,
    /// Whether it stands in the list of those that are served in the next turn.
    pub listed: bool,
    alloc: Global,
}

// How many bytes there are up to the end of the first line, or in all where no line ends.
fn piece_len(bytes: &[u8]) -> usize
    ensures within { result ≤ length bytes.now }
    ensures some { 0 < length bytes.now → 0 < result }
{
    match memchr(b'\n', bytes) {
        Some(at) => at + 1,
        None => bytes.len(),
    }
}

// Whether these bytes begin with the line by which a client empties its server.
fn begins_flush(bytes: &[u8]) -> bool
    ensures { result ≡ true → bytes.now ≡ flush_line ++ drop (length flush_line) bytes.now }
{
    bytes.starts_with(b"flush_all\r\n".as_slice())
}

// What is complete of this stream is served, up to a backlog of so many bytes.
fn serve_at(
    served: &mut Served,
    cache: &mut Cache,
    moment: UnixTime,
    uses: &mut Uses,
    out: &mut SendBuffer,
    most: usize,
) -> Result<(), AllocError>
    ensures ok { OnOk result (RunsOn moment.seconds served.old cache.old (bytes_of out.old) served.new cache.new (bytes_of out.new)) }
    ensures all { OnOk result (IsAnsweredSoFar most served.new.place (bytes_of out.new)) }
    ensures stops { OnErr result (StopsForMemory moment.seconds served.old cache.old cache.new) }
    ensures within { IsWithin most (bytes_of out.old) → IsWithin most (bytes_of out.new) }
{
    served.serve(cache, moment.seconds, uses, out, most)
}

impl CacheClient {
    /// A client that has said nothing yet. It takes no memory.
    pub fn new(alloc: Global, conn: Conn) -> CacheClient
        ensures conn { result.conn ≡ conn }
        ensures served { result.served ≡ at_front (Stands Nothing []) }
    {
        CacheClient {
            conn,
            served: Served::new(alloc),
            uses: Uses::new(alloc),
            ended: false,
            stopped: false,
            listed: false,
            alloc,
        }
    }

    /// The wire reported this of its connection. The answer is whether the client has to be served for it.
    pub fn note(&mut self, ready: Ready) -> bool {
        let drains = ready.writes && !self.conn.writable;
        self.conn.note(ready);
        ready.reads || drains
    }

    // What is complete of the stream is served, up to a backlog.
    fn serve_stream(&mut self, cache: &mut Cache, moment: UnixTime) -> Result<(), AllocError>
        ensures ok { OnOk result (RunsOn moment.seconds self.old.served cache.old (bytes_of self.old.conn.unsent) self.new.served cache.new (bytes_of self.new.conn.unsent)) }
        ensures all { OnOk result (IsAnsweredSoFar self.old.conn.limits.unsent self.new.served.place (bytes_of self.new.conn.unsent)) }
        ensures err { OnErr result (StopsForMemory moment.seconds self.old.served cache.old cache.new) }
        ensures within { IsWithin self.old.conn.limits.unsent (bytes_of self.old.conn.unsent) → IsWithin self.old.conn.limits.unsent (bytes_of self.new.conn.unsent) }
        ensures held { self.new.conn.held ≡ self.old.conn.held }
        ensures limits { self.new.conn.limits ≡ self.old.conn.limits }
        ensures number { self.new.conn.number ≡ self.old.conn.number }
    {
        let most = self.conn.limits.unsent;
        serve_at(
            &mut self.served,
            cache,
            moment,
            &mut self.uses,
            &mut self.conn.unsent,
            most,
        )
    }

    // Whether what is held is to come to the stream, which has no whole message.
    fn may_feed(&self) -> bool
        ensures left { result ≡ true → 0 < length self.now.conn.held.items }
        ensures done { result ≡ false → IsAnsweredSoFar self.now.conn.limits.unsent self.now.served.place (bytes_of self.now.conn.unsent) → IsServed self.now.conn.limits.unsent self.now.conn.held.items (bytes_of self.now.conn.unsent) self.now.served }
    {
        !self.conn.held.is_empty() && !self.conn.has_backlog() && !self.served.is_closed()
    }

    // The first line that is held comes to the stream, or all where no line ends there.
    fn feed_piece(&mut self) -> Result<(), AllocError>
        requires { 0 < length self.old.conn.held.items }
        ensures ok { OnOk result (FeedsStream self.old.conn.held.items self.old.served self.new.conn.held.items self.new.served) }
        ensures err { OnErr result (self.new ≡ self.old) }
        ensures shorter { OnOk result (length self.new.conn.held.items < length self.old.conn.held.items) }
        ensures unsent { self.new.conn.unsent ≡ self.old.conn.unsent }
        ensures limits { self.new.conn.limits ≡ self.old.conn.limits }
        ensures number { self.new.conn.number ≡ self.old.conn.number }
    {
        let count = piece_len(self.conn.held.as_slice());
        self.served.feed(&self.conn.held.as_slice()[..count])?;
        self.conn.use_held(count);
        Ok(())
    }

    /// All that is held is served at this moment, piece by piece, up to a backlog or the end of the stream: it comes to the stream in order,
    /// none left out, each ask of it is answered in order, and what that gives goes after what is to be sent. What is served goes on where it
    /// stopped at the backlog before, be it between two asks of one message.
    ///
    /// The only error is running out of memory, which may break off a message; then the client is to be closed.
    ///
    /// Source: mcgate's own.
    pub fn serve(&mut self, cache: &mut Cache, moment: UnixTime) -> Result<(), AllocError>
        ensures ok { OnOk result (ServesHeld moment.seconds self.old.conn.held.items (bytes_of self.old.conn.unsent) self.old.served cache.old self.new.conn.held.items (bytes_of self.new.conn.unsent) self.new.served cache.new) }
        ensures all { OnOk result (IsServed self.old.conn.limits.unsent self.new.conn.held.items (bytes_of self.new.conn.unsent) self.new.served) }
        ensures err { OnErr result (StopsIn moment.seconds self.old.conn.held.items self.old.served cache.old cache.new) }
        ensures within { IsWithin self.old.conn.limits.unsent (bytes_of self.old.conn.unsent) → IsWithin self.old.conn.limits.unsent (bytes_of self.new.conn.unsent) }
        ensures limits { self.new.conn.limits ≡ self.old.conn.limits }
        ensures number { self.new.conn.number ≡ self.old.conn.number }
    {
        loop {
            self.serve_stream(cache, moment)?;
            if !self.may_feed() {
                return Ok(());
            }
            self.feed_piece()?;
        }
    }

    // One write, where it takes something.
    fn send<W: Wire>(&mut self, wire: &mut W) -> Sent
        ensures unsent { IsWithin self.old.conn.limits.unsent (bytes_of self.old.conn.unsent) → IsWithin self.old.conn.limits.unsent (bytes_of self.new.conn.unsent) }
        ensures held { self.new.conn.held.items ≡ self.old.conn.held.items }
        ensures served { self.new.served ≡ self.old.served }
        ensures limits { self.new.conn.limits ≡ self.old.conn.limits }
        ensures number { self.new.conn.number ≡ self.old.conn.number }
        ensures only { TouchesOnly self.old.conn.number (W.history wire.old) (W.history wire.new) }
    {
        if !self.conn.writable {
            return Sent::Nothing;
        }
        let sent = self.conn.send_once(wire);
        self.conn.give_back(self.alloc, KEPT_ROOM);
        sent
    }

    // Whether something of what it sent is left to serve, or may be.
    fn has_left(&self) -> bool {
        !self.served.is_closed() && (self.stopped || !self.conn.held.is_empty())
    }

    // Whether there may be something to read.
    fn may_read(&self) -> bool {
        self.conn.readable && !self.ended
    }

    // One read, where there may be something to read and nothing is left to serve. `false` where the client has to be dropped.
    fn read<W: Wire>(&mut self, wire: &mut W) -> bool
        ensures held { (self.old.served.place ≡ Closed) ⊎ ((more : List ℕ) × (self.new.conn.held.items ≡ self.old.conn.held.items ++ more)) }
        ensures served { self.new.served ≡ self.old.served }
        ensures unsent { self.new.conn.unsent ≡ self.old.conn.unsent }
        ensures limits { self.new.conn.limits ≡ self.old.conn.limits }
        ensures number { self.new.conn.number ≡ self.old.conn.number }
        ensures only { TouchesOnly self.old.conn.number (W.history wire.old) (W.history wire.new) }
    {
        if !self.may_read() || self.has_left() {
            return true;
        }
        let got = self.conn.read_once(wire, READ_ROOM);
        if self.served.is_closed() {
            // What comes after the end is dropped. Left unread, it would take the last replies with it when the socket is closed.
            self.conn.held.clear();
        }
        match got {
            Ok(Got::Bytes | Got::Nothing | Got::Full) => true,
            Ok(Got::Ended) => {
                self.ended = true;
                true
            }
            Ok(Got::Failed) | Err(_) => false,
        }
    }

    // Where it leaves no backlog: one read, and what is whole is answered, up to a backlog. `false` where the client has to be dropped.
    fn take_in<W: Wire>(&mut self, wire: &mut W, cache: &mut Cache, moment: UnixTime) -> bool
        ensures within { IsWithin self.old.conn.limits.unsent (bytes_of self.old.conn.unsent) → IsWithin self.old.conn.limits.unsent (bytes_of self.new.conn.unsent) }
        ensures waits { self.old.conn.limits.unsent ≤ length (bytes_of self.old.conn.unsent) → Waits self.old.conn.held.items self.old.served cache.old self.new.conn.held.items self.new.served cache.new }
        ensures limits { self.new.conn.limits ≡ self.old.conn.limits }
        ensures number { self.new.conn.number ≡ self.old.conn.number }
        ensures only { TouchesOnly self.old.conn.number (W.history wire.old) (W.history wire.new) }
    {
        if self.conn.has_backlog() {
            return true;
        }
        if !self.read(wire) {
            return false;
        }
        let served = self.serve(cache, moment);
        self.stopped = self.conn.has_backlog();
        served.is_ok()
    }

    /// Whether what is held begins with `flush_all`, and no message is begun before it: then the line is used up, and `OK` is to be sent.
    /// The line counts where it comes in one piece.
    ///
    /// The only error is running out of memory, which changes nothing.
    pub fn pass_flush(&mut self) -> Result<bool, AllocError>
        ensures ok { IfOk result (λ passed. PassesIf passed self.old.served self.old.conn.held.items (bytes_of self.old.conn.unsent) self.new.conn.held.items (bytes_of self.new.conn.unsent)) }
        ensures held { OnErr result (self.new.conn.held.items ≡ self.old.conn.held.items) }
        ensures unsent { OnErr result (bytes_of self.new.conn.unsent ≡ bytes_of self.old.conn.unsent) }
        ensures served { self.new.served ≡ self.old.served }
        ensures limits { self.new.conn.limits ≡ self.old.conn.limits }
        ensures number { self.new.conn.number ≡ self.old.conn.number }
    {
        if !self.served.is_between() || !begins_flush(self.conn.held.as_slice()) {
            return Ok(false);
        }
        self.conn.unsent.text.extend_from_slice(b"OK\r\n")?;
        self.conn.use_held(FLUSH_LEN);
        Ok(true)
    }

    /// One read, where nothing is left to serve. Whether what the client sent begins with `flush_all` then: that is used up, and `OK` is to be sent.
    ///
    /// The only error is running out of memory; then the client is to be closed.
    pub fn take_flush<W: Wire>(&mut self, wire: &mut W) -> Result<bool, AllocError>
        ensures ok { IfOk result (λ taken. TakesIf taken self.old.served self.old.conn.held.items (bytes_of self.old.conn.unsent) self.new.conn.held.items (bytes_of self.new.conn.unsent)) }
        ensures unsent { OnErr result (bytes_of self.new.conn.unsent ≡ bytes_of self.old.conn.unsent) }
        ensures served { self.new.served ≡ self.old.served }
        ensures limits { self.new.conn.limits ≡ self.old.conn.limits }
        ensures number { self.new.conn.number ≡ self.old.conn.number }
        ensures only { TouchesOnly self.old.conn.number (W.history wire.old) (W.history wire.new) }
    {
        if self.conn.has_backlog() || !self.read(wire) {
            return Ok(false);
        }
        self.pass_flush()
    }

    // Whether nothing of what it sent is left to serve, or can come.
    fn is_over(&self) -> bool {
        if self.served.is_closed() {
            !self.may_read()
        } else {
            self.ended && !self.has_left()
        }
    }

    // What becomes of it after this write.
    fn next(&self, sent: Sent) -> AfterTurn {
        let is_sent = self.conn.unsent.is_empty();
        if sent == Sent::Failed || (is_sent && self.is_over()) {
            return AfterTurn::Done;
        }
        if !is_sent && self.conn.writable {
            return AfterTurn::More;
        }
        if !self.conn.has_backlog() && (self.may_read() || self.has_left()) {
            return AfterTurn::More;
        }
        AfterTurn::Waits
    }

    /// The client's part of a turn: one read, what is whole is answered at this moment, up to a backlog, and one write.
    ///
    /// A client that leaves a backlog untaken is neither read nor served. So at most a backlog is to be sent, and after it the one reply that
    /// passes it.
    ///
    /// Source: mcgate's own.
    pub fn turn<W: Wire>(&mut self, wire: &mut W, cache: &mut Cache, moment: UnixTime) -> AfterTurn
        ensures within { IsWithin self.old.conn.limits.unsent (bytes_of self.old.conn.unsent) → IsWithin self.new.conn.limits.unsent (bytes_of self.new.conn.unsent) }
        ensures waits { self.old.conn.limits.unsent ≤ length (bytes_of self.old.conn.unsent) → Waits self.old.conn.held.items self.old.served cache.old self.new.conn.held.items self.new.served cache.new }
        ensures limits { self.new.conn.limits ≡ self.old.conn.limits }
        ensures number { self.new.conn.number ≡ self.old.conn.number }
        ensures only { TouchesOnly self.old.conn.number (W.history wire.old) (W.history wire.new) }
    {
        if !self.take_in(wire, cache, moment) {
            return AfterTurn::Done;
        }
        let sent = self.send(wire);
        self.next(sent)
    }
}
