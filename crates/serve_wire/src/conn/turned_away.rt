//! Clients for which there is no room.

ghost use Rattle.std.specs.Prelude.{◌≡◌, false};
ghost use Rattle.serve_wire.specs.Events.{role, is_open};
ghost use Rattle.serve_wire.specs.Agreement.{TouchesOnly};

use crate::Wire;
use bytes::BytesMut;
use std::alloc::Global;

const TOO_MANY: &[u8] = b"SERVER_ERROR too many clients\r\n";

// How much of what it sent is read first: left unread, it would take the line with it.
const READ: usize = 4_096;

/// A client that was accepted is told that there are too many, and its connection is closed.
pub fn turn_away<W: Wire>(alloc: Global, wire: &mut W, conn: usize)
    ensures only { TouchesOnly conn (W.history wire.old) (W.history wire.new) }
    ensures shut { is_open conn (W.history wire.new) ≡ false }
    ensures role { role conn (W.history wire.new) ≡ role conn (W.history wire.old) }
{
    let mut read = BytesMut::new(alloc);
    if read.reserve(READ).is_ok() {
        let _ = wire.read(conn, &mut read);
    }
    let _ = wire.write(conn, TOO_MANY);
    wire.close(conn);
}
