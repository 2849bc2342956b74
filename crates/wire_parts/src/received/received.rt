//! Bytes that came, and perhaps the shared buffer that they stand in.

ghost use Rattle.std.specs.Prelude.{◌≡◌, ◌<◌, ◌≤◌, ◌+◌, IfOk, drop, length, take, slice_range};

use bytes::Bytes;
use mc_types::{Body, LentData, SpareBodies};
use std::alloc::{AllocError, Global};
use std::marker::Model;

/// From so many bytes on, data are shared in place of being copied: with the buffer that they came in, where they are read, and with what
/// is to be sent, where they are written.
///
/// Shorter data are copied sooner than shared, and would keep all of the buffer that they came in for as long as they last.
pub const SHARED_FROM: usize = 65_536;

/// From so many bytes on, data of an answer are shared with the buffer that they came in, where that is shared: so short ones mostly last no longer
/// than until their reply is written, into which they are copied.
pub const CUT_FROM: usize = 2_048;

// Where the bytes are.
#[derive(Drop)]
enum Source<'a> {
    // Somewhere; data are copied from there.
    Copied(&'a [u8]),
    // In this shared buffer, from this place on.
    Shared(&'a Bytes, usize),
}

/// Bytes that a client or a server sent, and perhaps the shared buffer that they stand in. Contracts see the bytes.
#[derive(Drop)]
pub struct Received<'a> {
    source: Source<'a>,
}

// What stands from this place on.
fn rest_of(bytes: &[u8], at: usize) -> &[u8]
    ensures { result.now ≡ drop at bytes.now }
{
    if at >= bytes.len() {
        return b"".as_slice();
    }
    bytes.split_at(at).1
}

// The place after so many bytes that stand from another place on.
fn place_after(bytes: &Bytes, at: usize, count: usize) -> usize
    requires { count ≤ length (drop at bytes.now) }
    ensures { result ≡ at + count }
{
    if at >= bytes.len() {
        return at;
    }
    at + count
}

// So many bytes from this place on, which share the buffer.
fn part_at(bytes: &Bytes, at: usize, len: usize) -> Result<Bytes, AllocError>
    requires { (0 < len) × (len ≤ length (drop at bytes.now)) }
    ensures { IfOk result (λ part. part ≡ take len (drop at bytes.now)) }
{
    let end = place_after(bytes, at, len);
    bytes.slice(at..end)
}

// The part of these bytes that begins at `at` and has `len` bytes, as data.
fn cut_at(alloc: Global, bytes: &Bytes, at: usize, len: usize) -> Result<Body, AllocError>
    requires { (0 < len) × (len ≤ length (drop at bytes.now)) }
    ensures { IfOk result (λ body. body ≡ take len (drop at bytes.now)) }
{
    Body::cut(alloc, part_at(bytes, at, len)?)
}

impl<'a> Model for Received<'a> {
    ghost use Rattle.std.specs.Prelude.{List, ℕ};
    ghost use Rattle.wire_parts.specs.Sources.{bytes_from};

    ghost Value = { List ℕ };

    ghost view = { λ r. bytes_from r.source };
}

impl<'a> Received<'a> {
    /// These bytes, whose data are copied.
    pub fn copied(bytes: &'a [u8]) -> Received<'a>
        ensures { result ≡ bytes.now }
    {
        Received {
            source: Source::Copied(bytes),
        }
    }

    /// These bytes, whose data are shared where they are large: [`SHARED_FROM`] bytes where they are lent, [`CUT_FROM`] where they are kept.
    pub fn shared(bytes: &'a Bytes) -> Received<'a>
        ensures { result ≡ bytes.now }
    {
        Received {
            source: Source::Shared(bytes, 0),
        }
    }

    /// The bytes.
    pub fn bytes(&self) -> &[u8]
        ensures { result.now ≡ self.now }
    {
        match &self.source {
            Source::Copied(bytes) => bytes,
            Source::Shared(bytes, at) => rest_of(bytes.as_slice(), *at),
        }
    }

    /// Those from one place up to another.
    pub fn between(&self, start: usize, end: usize) -> &[u8]
        requires { (start ≤ end) × (end ≤ length self.now) }
        ensures { result.now ≡ slice_range self.now start end }
    {
        &self.bytes()[start..end]
    }

    /// What stands after so many of them.
    pub fn after(&self, count: usize) -> Received<'a>
        requires { count ≤ length self.now }
        ensures { result ≡ drop count self.now }
    {
        let source = match &self.source {
            Source::Copied(bytes) => Source::Copied(rest_of(bytes, count)),
            Source::Shared(bytes, at) => Source::Shared(bytes, place_after(bytes, *at, count)),
        };
        Received { source }
    }

    /// The first so many of them, as data: a part of the shared buffer where they are [`CUT_FROM`] or more, else a copy. Both are made in the memory of
    /// a spare body where one is free, but for parts of [`SHARED_FROM`] bytes or more, of which none is spare. The only error is running out of memory.
    pub fn data(
        &self,
        alloc: Global,
        spares: &mut SpareBodies,
        len: usize,
    ) -> Result<Body, AllocError>
        requires { len ≤ length self.now }
        ensures { IfOk result (λ body. body ≡ take len self.now) }
    {
        match &self.source {
            Source::Shared(bytes, at) if len >= SHARED_FROM => cut_at(alloc, bytes, *at, len),
            Source::Shared(bytes, at) if len >= CUT_FROM => {
                spares.cut_of(alloc, part_at(bytes, *at, len)?)
            }
            _ => spares.copy_of(alloc, &self.bytes()[..len]),
        }
    }

    /// Those from one place up to another, as data that are lent: a part of the shared buffer where they are [`SHARED_FROM`] or more, else where
    /// they are, which takes no memory. The only error is running out of memory.
    pub fn lent(&self, alloc: Global, start: usize, end: usize) -> Result<LentData<'_>, AllocError>
        requires { (start ≤ end) × (end ≤ length self.now) }
        ensures { IfOk result (λ lent. lent ≡ slice_range self.now start end) }
    {
        let len = end - start;
        match &self.source {
            Source::Shared(bytes, at) if len >= SHARED_FROM => {
                let at = place_after(bytes, *at, start);
                Ok(LentData::shared(cut_at(alloc, bytes, at, len)?))
            }
            _ => Ok(LentData::copied(self.between(start, end))),
        }
    }
}
