//! The buffer that bytes come in.

ghost use Rattle.std.specs.Prelude.{◌≡◌, ◌≤◌, ◌++◌, [], drop, length, OnOk, OnErr};

use crate::received::received::{Received, SHARED_FROM};
use bytes::{Bytes, BytesMut};
use std::alloc::{AllocError, Global};
use std::marker::Model;

/// Bytes that come at the end and are done from the front. Contracts see the bytes.
///
/// While a large message stands in front, its data may be cut from it without a copy: all bytes are frozen then, until another piece comes. All of
/// them, so that they lie in one piece however many of them are done.
#[derive(Drop)]
pub struct ReceiveBuffer {
    // All bytes, where they are frozen; no others are held then.
    frozen: Option<Bytes>,
    growing: BytesMut,
}

impl Model for ReceiveBuffer {
    ghost use Rattle.std.specs.Prelude.{List, ℕ};
    ghost use Rattle.wire_parts.specs.Sources.{source_held, AreApart};

    ghost Value = { List ℕ };

    ghost view = { λ b. source_held b.frozen b.growing.items };

    ghost invariant = { λ b. AreApart b.frozen b.growing.items };
}

// Two slices at the end. The only error is running out of memory, which leaves the buffer as it was.
fn put_both(growing: &mut BytesMut, first: &[u8], second: &[u8]) -> Result<(), AllocError>
    ensures ok { OnOk result (growing.new.items ≡ growing.old.items ++ first.now ++ second.now) }
    ensures err { OnErr result (growing.new.items ≡ growing.old.items) }
{
    let len = growing.len();
    growing.reserve(first.len().saturating_add(second.len()))?;
    growing.extend_from_slice(first)?;
    let written = growing.extend_from_slice(second);
    if written.is_err() {
        growing.truncate(len);
    }
    written
}

// The least bytes of a piece for which a new buffer is made of them, in place of one that is first
// filled with zeros.
const MADE_FROM: usize = 16_384;

// Appends a slice. The only error is running out of memory, which leaves the buffer as it was.
fn grow(growing: &mut BytesMut, piece: &[u8]) -> Result<(), AllocError>
    ensures ok { OnOk result (growing.new.items ≡ growing.old.items ++ piece.now) }
    ensures err { OnErr result (growing.new.items ≡ growing.old.items) }
{
    if piece.len() < MADE_FROM || growing.try_reclaim(piece.len()) {
        return growing.extend_from_slice(piece);
    }
    let alloc = *growing.allocator();
    let len = growing.len();
    // Doubles the room at least, so that a message of many pieces is seldom copied.
    let mut bytes = Vec::with_capacity(alloc, len.saturating_add(piece.len().max(len)))?;
    bytes.extend_from_slice(growing.as_slice())?;
    bytes.extend_from_slice(piece)?;
    *growing = BytesMut::from_vec(bytes);
    Ok(())
}

impl ReceiveBuffer {
    /// No bytes. It takes no memory.
    pub fn new(alloc: Global) -> ReceiveBuffer
        ensures { result ≡ [] }
    {
        ReceiveBuffer {
            frozen: None,
            growing: BytesMut::new(alloc),
        }
    }

    /// The bytes.
    pub fn as_slice(&self) -> &[u8]
        ensures { result.now ≡ self.now }
    {
        match &self.frozen {
            None => self.growing.as_slice(),
            Some(frozen) => frozen.as_slice(),
        }
    }

    /// The bytes, with the buffer that they stand in where they are frozen: large data are cut from them then.
    pub fn received(&self) -> Received
        ensures { result ≡ self.now }
    {
        match &self.frozen {
            None => Received::copied(self.growing.as_slice()),
            Some(frozen) => Received::shared(frozen),
        }
    }

    /// A piece came. The only error is running out of memory, which leaves the bytes as they were.
    pub fn append(&mut self, piece: &[u8]) -> Result<(), AllocError>
        ensures ok { OnOk result (self.new ≡ self.old ++ piece.now) }
        ensures err { OnErr result (self.new ≡ self.old) }
    {
        match &self.frozen {
            None => grow(&mut self.growing, piece),
            Some(frozen) => {
                // The bytes have to lie in one piece, so what is frozen is copied.
                put_both(&mut self.growing, frozen.as_slice(), piece)?;
                self.frozen = None;
                Ok(())
            }
        }
    }

    /// The first so many bytes are done.
    pub fn advance(&mut self, count: usize)
        requires { count ≤ length self.old }
        ensures { self.new ≡ drop count self.old }
    {
        match &mut self.frozen {
            None => self.growing.advance(count),
            Some(frozen) if count < frozen.len() => frozen.advance(count),
            Some(_) => self.frozen = None,
        }
    }

    /// From now on data of the first so many bytes, which are a message, are cut from the buffer where they are large, instead of being
    /// copied. It takes little memory; where that is refused, or where so many more bytes are held that a copy of them would cost more
    /// than is won, all stays as it is.
    pub fn share(&mut self, message: usize)
        ensures { self.new ≡ self.old }
    {
        if message < SHARED_FROM || self.frozen.is_some() {
            return;
        }
        let len = self.growing.len();
        if len.saturating_sub(message) >= SHARED_FROM {
            return;
        }
        if let Ok(frozen) = self.growing.freeze_to(len) {
            self.frozen = Some(frozen);
        }
    }
}
