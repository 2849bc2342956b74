//! The room of buffers, and whether they keep it.

ghost use Rattle.std.specs.Prelude.{◌≡◌, true, []};
ghost use Rattle.wire_parts.specs.Sending.{bytes_of};

use bytes::BytesMut;
use std::alloc::Global;
use wire_parts::to_send::SendBuffer;

/// An empty buffer with more room than this isn't kept by its end, in bytes.
pub const KEPT_ROOM: usize = 262_144;

/// Nor is one of a client's with more room than this, in bytes, where clients were not served for a while.
pub const IDLE_ROOM: usize = 1_024;

/// What a client has for its replies is for all clients while nothing is left in it, if it has more room than this, in bytes. The one that
/// was given back last is taken first.
pub const OWN_ROOM: usize = 32_768;

// Of two buffers the second is the one with more room from now on.
fn keep_larger(held: &mut BytesMut, input: &mut BytesMut)
    ensures { held.old.items ≡ [] → input.old.items ≡ [] → input.new.items ≡ [] }
{
    if input.capacity() < held.capacity() {
        std::mem::swap(held, input);
    }
}

/// A buffer in which nothing is left is the one for the next client, if it has more room than that has.
pub fn give_back(alloc: Global, held: &mut BytesMut, input: &mut BytesMut)
    ensures held { held.new.items ≡ held.old.items }
    ensures input { input.old.items ≡ [] → input.new.items ≡ [] }
{
    if !held.is_empty() {
        return;
    }
    keep_larger(held, input);
    *held = BytesMut::new(alloc);
}

/// Whether nothing is to be sent, and there is room for text that other clients can use.
pub fn has_spare(buffer: &SendBuffer) -> bool
    ensures { result ≡ true → bytes_of buffer.now ≡ [] }
{
    buffer.text.capacity() > OWN_ROOM && buffer.is_empty()
}
