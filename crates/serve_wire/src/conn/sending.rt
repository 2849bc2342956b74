//! All that can be sent now.

ghost use Rattle.std.specs.Prelude.{◌≡◌, true, false};
ghost use Rattle.wire_parts.specs.Sending.{bytes_of};
ghost use Rattle.serve_wire.specs.Flow.{SendsOn, Stands, HasJustFailed};

use crate::Wire;
use crate::conn::conn::{Conn, Sent};

// So many writes are made at once at most, and one more for each piece that is to be sent.
const WRITES: usize = 64;

/// Sends what the connection takes, all of it where it takes all: a wait tells of it only when that changes. Whether it stands still.
///
/// Source: mcgate's own.
pub fn send<W: Wire>(conn: &mut Conn, wire: &mut W) -> bool
    ensures sends { SendsOn conn.old.number (bytes_of conn.old.unsent) (bytes_of conn.new.unsent) (W.history wire.old) (W.history wire.new) }
    ensures stands { result ≡ true → Stands conn.old.number (W.history wire.old) (W.history wire.new) }
    ensures failed { result ≡ false → HasJustFailed conn.old.number (W.history wire.new) }
    ensures held { conn.new.held ≡ conn.old.held }
    ensures rest { (conn.new.number ≡ conn.old.number) × (conn.new.limits ≡ conn.old.limits) }
    ensures flags { (conn.new.readable ≡ conn.old.readable) × (conn.new.closing ≡ conn.old.closing) }
{
    for _ in 0..conn.unsent.pieces.len().saturating_add(WRITES) {
        if !conn.writable || conn.is_all_sent() {
            return true;
        }
        match conn.send_parts(wire) {
            Sent::Bytes | Sent::Nothing => {}
            Sent::Failed => return false,
        }
    }
    true
}
