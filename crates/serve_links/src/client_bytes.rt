//! A client's bytes: read, given to the core, shown by it and sent.

ghost use Rattle.std.specs.Prelude.{◌≡◌, ◌++◌, true, false, OnOk, OnErr};
ghost use Rattle.wire_parts.specs.Sending.{bytes_of};
ghost use Rattle.core_proxy.specs.CoreState.{client_at, output_by};
ghost use Rattle.serve_links.specs.CoreSteps.{Gave, Does, GoesOn};
ghost use Rattle.serve_wire.specs.Agreement.{TouchesOnly};
ghost use Rattle.serve_clients.specs.Agrees.{GoesOnAgreeing};
ghost use Rattle.serve_links.specs.Pieces.{FeedsPiece, FeedsHeld};

use crate::tally::Tally;
use core_accepted::ServedCore;
use core_proxy::CoreFault;
use serve_clients::{Client, Departure};
use serve_wire::Wire;
use serve_wire::conn::{Got, send};

/// One read of the client's connection, and of no other: its end goes on to agree with what came over that. Where the read fails, or there is no
/// memory for what came, the client is broken off.
///
/// Source: mcgate's own.
#[tactic(auto, using(crate::proofs::Reading::came, crate::proofs::Reading::reads_now, crate::proofs::Reading::lost_now))]
pub fn read_once<W: Wire>(client: &mut Client, wire: &mut W, tally: &mut Tally)
    requires { client.old.is_ended ≡ false }
    ensures agrees { GoesOnAgreeing (W.history wire.old) (W.history wire.new) client.old client.new }
    ensures elsewhere { TouchesOnly client.old.conn.number (W.history wire.old) (W.history wire.new) }
    ensures number { client.new.conn.number ≡ client.old.conn.number }
    ensures broken { client.old.is_broken ≡ true → client.new.is_broken ≡ true }
{
    let room = client.read_room();
    match client.conn.read_once(wire, room).unwrap_or(Got::Failed) {
        Got::Ended => client.is_ended = true,
        Got::Failed => client.break_off(Departure::Broken),
        Got::Bytes => {
            client.has_read();
            tally.note_read(client.conn.held.len());
        }
        Got::Nothing | Got::Full => {}
    }
}

// What is to be sent to the client goes out, as far as it is taken. What was shown of one that is broken off is lost.
#[tactic(auto, using(crate::proofs::Reading::only_none, crate::proofs::Reading::breaks_now, crate::proofs::Reading::sends_now, crate::proofs::Reading::fails_now))]
fn send_unsent<W: Wire>(client: &mut Client, wire: &mut W)
    ensures agrees { GoesOnAgreeing (W.history wire.old) (W.history wire.new) client.old client.new }
    ensures elsewhere { TouchesOnly client.old.conn.number (W.history wire.old) (W.history wire.new) }
    ensures number { client.new.conn.number ≡ client.old.conn.number }
    ensures broken { client.old.is_broken ≡ true → client.new.is_broken ≡ true }
{
    if client.is_broken {
        client.break_off(Departure::Broken);
        return;
    }
    if send(&mut client.conn, wire) {
        return;
    }
    client.break_off(Departure::Broken);
}

/// What is to be sent to the client goes out over its connection, and nothing over another, as far as it is taken: its end goes on to agree with what
/// was taken. Whether the client is to be served for that: it takes what is shown to it again, or it has ended, and all is sent. One that is broken
/// off stays so.
///
/// Source: mcgate's own.
pub fn send_once<W: Wire>(core: &ServedCore, id: usize, client: &mut Client, wire: &mut W) -> bool
    ensures agrees { GoesOnAgreeing (W.history wire.old) (W.history wire.new) client.old client.new }
    ensures elsewhere { TouchesOnly client.old.conn.number (W.history wire.old) (W.history wire.new) }
    ensures number { client.new.conn.number ≡ client.old.conn.number }
    ensures broken { client.old.is_broken ≡ true → client.new.is_broken ≡ true }
{
    client.has_output = false;
    let was_full = !client.has_room();
    send_unsent(client, wire);
    let is_over = client.conn.is_all_sent() && (client.is_ended || core.is_closed(id));
    is_over || (was_full && client.has_room())
}

/// What the client's end holds is given to the core: all of it, as one piece, and it is held no more; or none of it. Then the core is as it was, and the
/// end holds it still, or is broken off.
pub fn feed_held(core: &mut ServedCore, id: usize, client: &mut Client)
    ensures core { GoesOn core.old core.new }
    ensures piece { FeedsPiece id client.old.conn.held.items core.old core.new }
    ensures held { FeedsHeld id client.old client.new core.old core.new }
{
    if client.conn.held.is_empty() {
        return;
    }
    match core.feed(id, client.conn.held.as_slice()) {
        Ok(()) => client.conn.held.clear(),
        // The core takes it when it has done what it holds.
        Err(CoreFault::InputFull) => {}
        Err(_) => client.break_off(Departure::NoRoom),
    }
}

/// What the core has for the client goes after what is to be sent, and the core has it no more: how many bytes that is. Nothing else of the client's end
/// changes. After an error what is to be sent is the same, and the core is as it was.
pub fn show(core: &mut ServedCore, id: usize, client: &mut Client) -> Result<usize, CoreFault>
    ensures core { GoesOn core.old core.new }
    ensures bytes { OnOk result (bytes_of client.new.conn.unsent ≡ bytes_of client.old.conn.unsent ++ output_by (client_at core.old.core id)) }
    ensures kept { OnErr result (bytes_of client.new.conn.unsent ≡ bytes_of client.old.conn.unsent) }
    ensures rest { client.new ≡ record client.old { conn = record client.old.conn { unsent = client.new.conn.unsent } } }
    ensures gives { OnOk result (Does (Gave id (output_by (client_at core.old.core id))) core.old core.new) }
    ensures same { OnErr result (core.new ≡ core.old) }
{
    let unsent = client.conn.unsent_len();
    core.move_output(id, &mut client.conn.unsent)?;
    Ok(client.conn.unsent_len().saturating_sub(unsent))
}
