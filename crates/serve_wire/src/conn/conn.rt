//! What is held of a connection and what is to be sent over it: a read goes after what is held, a write takes from the front of what is
//! to be sent.

ghost use Rattle.std.specs.Prelude.{◌≡◌, false, ◌↔◌, ◌+◌, ◌<◌, ◌≤◌, ◌==◌, ◌++◌, ◌||◌, [], length, drop, min, IsTrue, IfOk, OnOk, OnErr, MatchResult};
ghost use Rattle.wire_parts.specs.Sending.{bytes_of};
ghost use Rattle.serve_wire.specs.Ends.{HasRoomAgain, HoldsAnew, ReadsConnection, Sends, StaysReadable, StaysWritable};

use crate::{ReadOutcome, Ready, Wire, WriteOutcome};
use bytes::BytesMut;
use std::alloc::{AllocError, Global};
use std::mem;
use wire_parts::to_send::SendBuffer;

// From so many bytes on, what is held is copied as a whole where it has to move.
const MOVED_FROM: usize = 64;

// What is copied gets room for so much more at most, where no read wants more: large data pass through the processor's caches several
// times, and leave them where the buffers are larger.
const MOVED_ROOM: usize = 1_048_576;

/// How much an end keeps, in bytes.
#[derive(Clone, Copy)]
pub struct Limits {
    /// Nothing is read where so many bytes or more are held. One read can go past it, by the room of its buffer.
    pub held: usize,
    /// So many bytes that are to be sent, or more, are a backlog.
    pub unsent: usize,
}

/// What one read gave.
#[derive(Clone, Copy, PartialEq, Eq)]
pub enum Got {
    /// Bytes, one at least.
    Bytes,
    /// There is nothing to read now.
    Nothing,
    /// Nothing was read, since too much is held.
    Full,
    /// The peer sends no more, and all that it sent was read.
    Ended,
    /// The connection has failed.
    Failed,
}

/// What one write did.
#[derive(Clone, Copy, PartialEq, Eq)]
pub enum Sent {
    /// Bytes were taken, one at least.
    Bytes,
    /// There is nothing to send, or nothing is taken now.
    Nothing,
    /// The connection has failed.
    Failed,
}

/// An end of a connection. Whoever lets go of it closes the connection first.
#[derive(Drop)]
pub struct Conn {
    /// The connection's number on its wire.
    pub number: usize,
    /// What came and isn't used yet.
    pub held: BytesMut,
    // Where what is held goes when it has to move. What stands in it is of no account.
    other: BytesMut,
    // Whether what was cut from the other buffer may still share it.
    is_cut: bool,
    /// What is to be sent.
    pub unsent: SendBuffer,
    pub limits: Limits,
    /// Whether a read may give something. A report of the system sets it.
    pub readable: bool,
    /// Whether a write may take something. A report of the system sets it.
    pub writable: bool,
    /// Whether the peer said that it sends no more; what it sent before may still be read.
    pub closing: bool,
}

// So many bytes go from the front. Where none is left all of the room is free again, so that nothing has to move for what comes next.
fn take_front(buffer: &mut BytesMut, count: usize)
    requires { count ≤ length buffer.old.items }
    ensures { buffer.new.items ≡ drop count buffer.old.items }
{
    buffer.advance(count);
    if buffer.is_empty() {
        buffer.clear();
    }
}

// Nothing stands in the buffer any more, and it has room for so many bytes. Where its own is too little it is made anew, as `reserve` would move
// what stood in it, byte by byte.
fn empty_for(buffer: &mut BytesMut, room: usize) -> Result<(), AllocError>
    ensures none { buffer.new.items ≡ [] }
    ensures room { OnOk result (room ≤ buffer.new.spare) }
{
    buffer.clear();
    if buffer.try_reclaim(room) {
        return Ok(());
    }
    *buffer = BytesMut::new(*buffer.allocator());
    buffer.reserve(room)
}

// These bytes in a new buffer, with room for so many more after them at least.
fn moved(held: &BytesMut, room: usize, more: usize) -> Result<BytesMut, AllocError>
    ensures held { IfOk result (λ new. new.items ≡ held.now.items) }
    ensures room { IfOk result (λ new. room ≤ new.spare) }
{
    let mut new = BytesMut::new(*held.allocator());
    new.reserve(held.len().saturating_add(room.max(more)))?;
    new.extend_from_slice(held.as_slice())?;
    // This takes no memory: the room is there.
    new.reserve(room)?;
    Ok(new)
}

// The room of a buffer goes back where nothing stands in it, and it is more than so many bytes. What was cut off and is gone again is room
// of it too.
fn give_back(alloc: Global, kept: usize, buffer: &mut BytesMut)
    ensures { buffer.new.items ≡ buffer.old.items }
{
    if buffer.is_empty() && buffer.try_reclaim(kept.saturating_add(1)) {
        *buffer = BytesMut::new(alloc);
    }
}

impl Conn {
    /// An end that has read nothing and has nothing to send. It takes no memory.
    pub fn new(alloc: Global, number: usize, limits: Limits) -> Conn
        ensures number { result.number ≡ number }
        ensures held { result.held.items ≡ [] }
        ensures unsent { bytes_of result.unsent ≡ [] }
        ensures limits { result.limits ≡ limits }
        ensures flags { (IsTrue result.readable × IsTrue result.writable) × (result.closing ≡ false) }
    {
        Conn {
            number,
            held: BytesMut::new(alloc),
            other: BytesMut::new(alloc),
            is_cut: false,
            unsent: SendBuffer::new(alloc),
            limits,
            readable: true,
            writable: true,
            closing: false,
        }
    }

    /// Whether what is to be sent is a backlog.
    pub fn has_backlog(&self) -> bool
        ensures { IsTrue result ↔ (self.now.limits.unsent ≤ length (bytes_of self.now.unsent)) }
    {
        self.unsent_len() >= self.limits.unsent
    }

    /// How many bytes are to be sent, or `usize::MAX` where they are more than that. Mostly they are text alone, which needn't be added up.
    pub fn unsent_len(&self) -> usize
        ensures { result ≡ min (length (bytes_of self.now.unsent)) usize.MAX }
    {
        if self.unsent.pieces.is_empty() {
            return self.unsent.text.len();
        }
        self.unsent.len()
    }

    /// Whether nothing is to be sent.
    pub fn is_all_sent(&self) -> bool
        ensures { result ≡ (length (bytes_of self.now.unsent) == 0) }
    {
        if self.unsent.pieces.is_empty() {
            return self.unsent.text.is_empty();
        }
        self.unsent.is_empty()
    }

    /// Whether the room of the other buffer is free: what was cut from it before ([`Conn::hold_again`]) is gone. While it isn't, nothing more is to be cut,
    /// so that what is cut and waits keeps one buffer at most, however little it is.
    pub fn may_cut(&mut self) -> bool
        ensures free { IsTrue result ↔ (self.new.is_cut ≡ false) }
        ensures uncut { self.old.is_cut ≡ false → self.new ≡ self.old }
        ensures rest { self.new ≡ record self.old { other = self.new.other; is_cut = self.new.is_cut } }
    {
        if self.is_cut {
            // More than there is behind what was cut, so that it is the whole buffer that comes back.
            let more = self.other.capacity().saturating_add(1);
            self.is_cut = !self.other.try_reclaim(more);
        }
        !self.is_cut
    }

    // Makes room for so many bytes after what is held. Where much has to move for that, it is copied at once into the other buffer, if that is free, or
    // into a new one, in place of the moving byte by byte that `reserve` does. No room is taken anew while both are large enough.
    fn make_room(&mut self, room: usize) -> Result<(), AllocError>
        ensures held { self.new.held.items ≡ self.old.held.items }
        ensures room { OnOk result (room ≤ self.new.held.spare) }
        ensures err { OnErr result (self.new.held.items ≡ self.old.held.items) }
        ensures rest { self.new ≡ record self.old { held = self.new.held; other = self.new.other; is_cut = self.new.is_cut } }
    {
        let len = self.held.len();
        if room <= self.held.capacity() - len {
            return Ok(());
        }
        if len < MOVED_FROM && self.held.try_reclaim(room) {
            return Ok(());
        }
        // Four times as much, up to a bound, so that it seldom has to move again.
        let more = len.saturating_mul(4).min(MOVED_ROOM);
        if !self.may_cut() {
            self.held = moved(&self.held, room, more)?;
            return Ok(());
        }
        empty_for(&mut self.other, len.saturating_add(room.max(more)))?;
        self.other.extend_from_slice(self.held.as_slice())?;
        self.other.reserve(room)?;
        mem::swap(&mut self.held, &mut self.other);
        Ok(())
    }

    /// One read, into room for at least so many bytes after what is held. Nothing that came is lost, and nothing else is held.
    ///
    /// `readable` is cleared where the connection has nothing for now: the wire said so, or it gave less than there was room for and its peer
    /// isn't closing. The only error is running out of memory for the room; then nothing was read, and it can be tried again.
    ///
    /// Source: mcgate's own.
    pub fn read_once<W: Wire>(&mut self, wire: &mut W, room: usize) -> Result<Got, AllocError>
        requires { 0 < room }
        ensures ok { IfOk result (λ got. ReadsConnection self.old.number self.old.limits.held self.old.held.items got self.new.held.items (W.history wire.old) (W.history wire.new)) }
        ensures err { OnErr result ((self.new.held.items ≡ self.old.held.items) × (W.history wire.new ≡ W.history wire.old)) }
        ensures unsent { self.new.unsent ≡ self.old.unsent }
        ensures rest { (self.new.number ≡ self.old.number) × (self.new.limits ≡ self.old.limits) }
        ensures flags { (self.new.writable ≡ self.old.writable) × (self.new.closing ≡ self.old.closing) }
        ensures readable { MatchResult result (λ got. StaysReadable got self.old.closing self.new.held.spare self.old.readable self.new.readable) (λ _. self.new.readable ≡ self.old.readable) }
    {
        if self.held.len() >= self.limits.held {
            return Ok(Got::Full);
        }
        self.make_room(room)?;
        let room = self.held.capacity() - self.held.len();
        match wire.read(self.number, &mut self.held) {
            ReadOutcome::Bytes(count) => {
                if count < room && !self.closing {
                    self.readable = false;
                }
                Ok(Got::Bytes)
            }
            ReadOutcome::NotReady => {
                self.readable = false;
                Ok(Got::Nothing)
            }
            ReadOutcome::Interrupted => Ok(Got::Nothing),
            ReadOutcome::Ended => Ok(Got::Ended),
            ReadOutcome::Failed => Ok(Got::Failed),
        }
    }

    /// One write of the first bytes that are to be sent, as many as lie together: exactly what the connection took goes from their front, and
    /// more may be to be sent where it took them all. `writable` is cleared where the wire said that it takes nothing now.
    ///
    /// Source: mcgate's own.
    pub fn send_once<W: Wire>(&mut self, wire: &mut W) -> Sent
        ensures sent { Sends self.old.number (bytes_of self.old.unsent) result (bytes_of self.new.unsent) (W.history wire.old) (W.history wire.new) }
        ensures held { self.new.held ≡ self.old.held }
        ensures rest { (self.new.number ≡ self.old.number) × (self.new.limits ≡ self.old.limits) }
        ensures flags { (self.new.readable ≡ self.old.readable) × (self.new.closing ≡ self.old.closing) }
        ensures writable { StaysWritable result self.old.writable self.new.writable }
    {
        let front = self.unsent.front();
        if front.is_empty() {
            return Sent::Nothing;
        }
        match wire.write(self.number, front) {
            WriteOutcome::Bytes(count) => self.sent(count),
            WriteOutcome::NotReady => {
                self.writable = false;
                Sent::Nothing
            }
            WriteOutcome::Interrupted => Sent::Nothing,
            WriteOutcome::Failed => Sent::Failed,
        }
    }

    /// One write of the first pieces that are to be sent, up to four of them: exactly what the connection took goes from their front. `writable`
    /// is cleared where the wire said that it takes nothing now.
    ///
    /// Source: mcgate's own.
    pub fn send_parts<W: Wire>(&mut self, wire: &mut W) -> Sent
        ensures sent { Sends self.old.number (bytes_of self.old.unsent) result (bytes_of self.new.unsent) (W.history wire.old) (W.history wire.new) }
        ensures held { self.new.held ≡ self.old.held }
        ensures rest { (self.new.number ≡ self.old.number) × (self.new.limits ≡ self.old.limits) }
        ensures flags { (self.new.readable ≡ self.old.readable) × (self.new.closing ≡ self.old.closing) }
        ensures writable { StaysWritable result self.old.writable self.new.writable }
    {
        if self.unsent.pieces.is_empty() {
            return self.send_once(wire);
        }
        let parts = self.unsent.parts();
        // The call takes no pieces that are all empty. The first is hardly ever empty.
        if parts[0].as_slice().is_empty() {
            return self.send_once(wire);
        }
        match wire.write_parts(self.number, &parts) {
            WriteOutcome::Bytes(count) => self.sent(count),
            WriteOutcome::NotReady => {
                self.writable = false;
                Sent::Nothing
            }
            WriteOutcome::Interrupted => Sent::Nothing,
            WriteOutcome::Failed => Sent::Failed,
        }
    }

    // The connection took so many of the first bytes.
    fn sent(&mut self, count: usize) -> Sent
        requires { count ≤ length (bytes_of self.old.unsent) }
        ensures unsent { bytes_of self.new.unsent ≡ drop count (bytes_of self.old.unsent) }
        ensures sent { result ≡ Sent.Bytes }
        ensures rest { self.new ≡ record self.old { unsent = self.new.unsent } }
    {
        self.unsent.advance(count);
        Sent::Bytes
    }

    /// So many bytes of what is held are done with.
    pub fn use_held(&mut self, count: usize)
        requires { count ≤ length self.old.held.items }
        ensures held { self.new.held.items ≡ drop count self.old.held.items }
        ensures rest { self.new ≡ record self.old { held = self.new.held } }
    {
        take_front(&mut self.held, count);
    }

    /// So many bytes of what is held are done with, or all where fewer are held.
    pub fn use_up(&mut self, count: usize)
        ensures held { self.new.held.items ≡ drop count self.old.held.items }
        ensures rest { self.new ≡ record self.old { held = self.new.held } }
    {
        let count = count.min(self.held.len());
        self.use_held(count);
    }

    /// The other buffer has room for so many bytes, and nothing stands in it: what is cut off of what is held can be held again then
    /// ([`Conn::hold_again`]), whatever memory there is. What is held stays. The only error is running out of memory.
    ///
    /// Source: mcgate's own.
    pub fn make_again(&mut self, room: usize) -> Result<(), AllocError>
        ensures ok { OnOk result (HasRoomAgain room self.new) }
        ensures rest { self.new ≡ record self.old { other = self.new.other; is_cut = self.new.is_cut } }
    {
        if !self.may_cut() {
            self.other = BytesMut::new(*self.other.allocator());
            self.is_cut = false;
        }
        empty_for(&mut self.other, room)
    }

    /// These bytes, which were cut off from what was held, are held again in front of it. They are copied into the other buffer, in which room was made for
    /// them ([`Conn::make_again`]), so that what else was cut off may share this one: its room is used again once that is gone. It takes no memory.
    ///
    /// Source: mcgate's own.
    pub fn hold_again(&mut self, front: &[u8])
        requires { HasRoomAgain (length front.now + length self.old.held.items) self.old }
        ensures held { self.new.held.items ≡ front.now ++ self.old.held.items }
        ensures rest { HoldsAnew self.old self.new }
    {
        if self.other.extend_from_slice(front).is_err() {
            unreachable!();
        }
        if self.other.extend_from_slice(self.held.as_slice()).is_err() {
            unreachable!();
        }
        mem::swap(&mut self.held, &mut self.other);
        self.is_cut = true;
    }

    /// Buffers in which nothing stands give their room back, where it is more than so many bytes.
    pub fn give_back(&mut self, alloc: Global, kept: usize)
        ensures held { self.new.held.items ≡ self.old.held.items }
        ensures unsent { bytes_of self.new.unsent ≡ bytes_of self.old.unsent }
        ensures rest { self.new ≡ record self.old { held = self.new.held; other = self.new.other; is_cut = self.new.is_cut; unsent = self.new.unsent } }
    {
        give_back(alloc, kept, &mut self.held);
        if self.may_cut() {
            self.other.clear();
            give_back(alloc, kept, &mut self.other);
        }
        self.unsent.give_back(kept);
    }

    /// Whether a buffer has more room than so many bytes, or what is to be sent has room for many pieces.
    pub fn has_room_above(&self, kept: usize) -> bool {
        self.held.capacity() > kept
            || self.other.capacity() > kept
            || self.unsent.has_room_above(kept)
    }

    /// What a wait told of it.
    pub fn note(&mut self, told: Ready)
        ensures { self.new ≡ record self.old { readable = self.old.readable || told.reads; writable = self.old.writable || told.writes; closing = self.old.closing || told.closes } }
    {
        self.readable = self.readable || told.reads;
        self.writable = self.writable || told.writes;
        self.closing = self.closing || told.closes;
    }
}
