//! One client's bytes, from which messages are read.

ghost use Rattle.std.specs.Prelude.{◌≡◌, ◌≤◌, ◌↔◌, IsTrue, ℕ, List, [], drop, length, OnOk, OnErr};
ghost use Rattle.wire_parts.specs.declared.skip.Skip.TheVariants.{Nothing};
ghost use Rattle.wire_parts.specs.Stream.{Stands, Closed, skipped, extended};
ghost use Rattle.wire_stream.specs.Held.{bytes_at, HoldsNone, IsReadAt};

use crate::requests::{Read, read_request};
use std::alloc::{AllocError, Global};
use std::marker::Model;
use text_words::search::first_byte;
use wire_parts::Skip;
use wire_parts::received::{ReceiveBuffer, Received};

/// The bytes of one client that were not yet done: what isn't a whole message stays until more comes.
#[derive(Drop)]
pub struct TextStream {
    held: ReceiveBuffer,
    skip: Skip,
    closed: bool,
}

impl Model for TextStream {
    ghost use Rattle.wire_parts.specs.Stream.{Place};
    ghost use Rattle.wire_stream.specs.Held.{place_held_at, HoldsNone};

    ghost Value = { Place };

    ghost view = { λ s. place_held_at s.closed s.skip s.held };

    ghost invariant = { λ s. HoldsNone s.skip s.held };
}

/// What is still passed over, and how many bytes of the piece were.
#[derive(Clone, Copy)]
struct PassedOver {
    skip: Skip,
    count: usize,
}

fn passed(skip: Skip, count: usize) -> PassedOver
    ensures { result ≡ record { skip = skip; count = count } }
{
    PassedOver { skip, count }
}

// Passes over what it can of a piece.
fn pass_over(skip: Skip, piece: &[u8]) -> PassedOver
    ensures place { skipped skip piece.now ≡ Stands result.skip (drop result.count piece.now) }
    ensures within { result.count ≤ length piece.now }
    ensures held { HoldsNone result.skip (drop result.count piece.now) }
{
    match skip {
        Skip::Nothing => passed(Skip::Nothing, 0),
        Skip::Bytes(n) => {
            let len = piece.len() as u64;
            if len < n {
                passed(Skip::Bytes(n - len), piece.len())
            } else {
                passed(Skip::Nothing, n as usize)
            }
        }
        Skip::ThroughNewline => match first_byte(b'\n', piece) {
            Some(at) => passed(Skip::Nothing, at + 1),
            None => passed(Skip::ThroughNewline, piece.len()),
        },
    }
}

impl TextStream {
    /// The stream of a client that said nothing yet. It takes no memory.
    pub fn new(alloc: Global) -> TextStream
        ensures { result ≡ Stands Nothing [] }
    {
        TextStream {
            held: ReceiveBuffer::new(alloc),
            skip: Skip::Nothing,
            closed: false,
        }
    }

    /// Whether nothing is read any more: after `quit`, a line that was too long, or what was of another protocol.
    pub fn is_closed(&self) -> bool
        ensures { IsTrue result ↔ (self.now ≡ Closed) }
    {
        self.closed
    }

    /// The bytes that are held.
    pub fn held(&self) -> &[u8]
        ensures { result.now ≡ bytes_at self.now }
    {
        if self.closed {
            return b"".as_slice();
        }
        self.held.as_slice()
    }

    /// The bytes that are held, with the buffer that they stand in where large data may be cut from it.
    pub fn received(&self) -> Received
        ensures { result ≡ bytes_at self.now }
    {
        if self.closed {
            return Received::copied(b"".as_slice());
        }
        self.held.received()
    }

    /// From now on the data of the message at the front, which takes so many bytes, are cut from the buffer that they came in where they
    /// are large ([`ReceiveBuffer::share`]). Where memory is refused for that they are copied as before.
    pub fn share_front(&mut self, used: usize)
        ensures { self.new ≡ self.old }
    {
        self.held.share(used);
    }

    /// A piece came. The only error is running out of memory, which leaves the stream as it was.
    pub fn feed(&mut self, piece: &[u8]) -> Result<(), AllocError>
        ensures ok { OnOk result (self.new ≡ extended self.old piece.now) }
        ensures err { OnErr result (self.new ≡ self.old) }
    {
        if self.closed {
            return Ok(());
        }
        let passed = pass_over(self.skip, piece);
        self.held.append(&piece[passed.count..])?;
        self.skip = passed.skip;
        Ok(())
    }

    /// The message at the front, if a whole one is held: `Read::More` also where bytes are still to be passed over, and
    /// where the stream is closed. It takes no memory.
    pub fn read(&self) -> Read
        ensures { IsReadAt self.now result }
    {
        if self.closed {
            return Read::More;
        }
        match self.skip {
            Skip::Nothing => return read_request(self.held.as_slice()),
            Skip::Bytes(_) | Skip::ThroughNewline => Read::More,
        }
    }

    /// A request of so many bytes is done.
    pub fn pass_request(&mut self, used: usize)
        requires { used ≤ length (bytes_at self.old) }
        ensures passed { (held : List ℕ) → self.old ≡ Stands Nothing held → self.new ≡ Stands Nothing (drop used held) }
        ensures closed { self.old ≡ Closed → self.new ≡ Closed }
    {
        if !self.closed {
            self.held.advance(used);
        }
    }

    /// A refused message of so many bytes is done, and what `skip` says is passed over after them.
    pub fn pass_refused(&mut self, used: usize, skip: Skip)
        requires { used ≤ length (bytes_at self.old) }
        ensures passed { (held : List ℕ) → self.old ≡ Stands Nothing held → self.new ≡ skipped skip (drop used held) }
        ensures closed { self.old ≡ Closed → self.new ≡ Closed }
    {
        if self.closed {
            return;
        }
        let passed = pass_over(skip, &self.held.as_slice()[used..]);
        self.held.advance(used + passed.count);
        self.skip = passed.skip;
    }

    /// Where nothing is held, the room for it goes back: whether nothing is.
    pub fn give_back(&mut self, alloc: Global) -> bool
        ensures none { IsTrue result ↔ (bytes_at self.old ≡ []) }
        ensures same { self.new ≡ self.old }
    {
        let is_none = self.held().is_empty();
        if is_none {
            self.held = ReceiveBuffer::new(alloc);
        }
        is_none
    }

    /// Nothing is read any more.
    pub fn close(&mut self)
        ensures { self.new ≡ Closed }
    {
        self.closed = true;
    }
}
