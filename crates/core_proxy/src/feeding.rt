//! A piece of a client's bytes comes.

ghost use Rattle.std.specs.Prelude.{◌≡◌, OnOk, OnErr, IfErr};
ghost use Rattle.core_proxy.specs.Feeding.{TakesInPiece, HoldsAtMost, RoomFault};

use crate::fault::CoreFault;
use core_client::Client;

/// A piece came; a client that has ended takes none of it.
///
/// `InputFull` where what is held and the piece are more bytes than may be held; `NoMemory`. Both leave the client as
/// it was.
pub fn feed_within(client: &mut Client, limit: usize, piece: &[u8]) -> Result<(), CoreFault>
    ensures ok { OnOk result (HoldsAtMost limit client.old piece.now × TakesInPiece client.old piece.now client.new) }
    ensures err { IfErr result (λ fault. RoomFault limit client.old piece.now fault) }
    ensures same { OnErr result (client.new ≡ client.old) }
{
    if client.is_ended() {
        return Ok(());
    }
    let held = client.stream.held_len();
    if limit < held || limit - held < piece.len() {
        return Err(CoreFault::InputFull);
    }
    match client.feed(piece) {
        Ok(()) => Ok(()),
        Err(_) => Err(CoreFault::NoMemory),
    }
}
