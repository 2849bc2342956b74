//! What the core has for a client goes to its end, and the room for that comes and goes.

ghost use Rattle.std.specs.Prelude.{List};
ghost use Rattle.serve_wire.specs.Events.{WireEvent};
ghost use Rattle.serve_links.specs.CoreSteps.{IsOfTurn};
ghost use Rattle.serve_links.specs.Story.{OneGoes};
ghost use Rattle.serve_proxy.specs.Ends.{Stay, AllGoOn};

use crate::sockets::Sockets;
use core_accepted::ServedCore;
use core_proxy::CoreFault;
use serve_clients::{Client, Departure};
use serve_links::{KEPT_ROOM, show};
use serve_wire::Wire;
use wire_parts::to_send::SendBuffer;

/// What the core has for the client goes after what is to be sent.
pub fn show_client<W: Wire>(core: &mut ServedCore, sockets: &mut Sockets<W>, id: usize)
    ensures ends { AllGoOn W.history core.old sockets.old core.new sockets.new }
{
    let Some(client) = sockets.clients.get_mut(id) else {
        return;
    };
    let shown = show_end(core, id, client);
    sockets.note_shown(id, shown)
}

// What the core has for the client goes after what is to be sent by its end: how many bytes that is. Where memory is refused for it, the
// client is broken off.
fn show_end(core: &mut ServedCore, id: usize, client: &mut Client) -> usize
    ensures one { (h : List WireEvent) → OneGoes IsOfTurn id core.old h client.old core.new h client.new }
{
    match show(core, id, client) {
        Ok(shown) => {
            client.has_shown(shown);
            shown
        }
        Err(CoreFault::NoMemory) => {
            client.break_off(Departure::NoRoom);
            0
        }
        Err(_) => 0,
    }
}

impl<W: Wire> Sockets<W> {
    // So many bytes more are to be sent to the client.
    fn note_shown(&mut self, id: usize, count: usize)
        ensures ends { Stay W.history self.old self.new }
    {
        if count == 0 {
            return;
        }
        self.tally.note_shown(count);
        self.rooms.note(count > KEPT_ROOM, false, self.time);
        self.clients.mark_output(id);
    }
}

/// The core writes the replies to the client into a spare buffer, if one is there: it has the room that large ones want. Whether one is.
pub fn lend_room<W: Wire>(core: &mut ServedCore, sockets: &mut Sockets<W>, id: usize) -> bool
    ensures ends { AllGoOn W.history core.old sockets.old core.new sockets.new }
{
    if !sockets.rooms.has_spare() {
        return false;
    }
    if !sockets.has_settled(id) {
        return false;
    }
    // What the core has for the client now is shown first, so that what it gives for the spare buffer is room alone.
    show_client(core, sockets, id);
    match sockets.rooms.take_spare() {
        Some(spare) => {
            exchange_room(core, sockets, id, spare);
            true
        }
        None => false,
    }
}

// The core, which has nothing for the client, writes into this buffer from now on. What it wrote into so far is spare.
fn exchange_room<W: Wire>(
    core: &mut ServedCore,
    sockets: &mut Sockets<W>,
    id: usize,
    buffer: SendBuffer,
)
    ensures ends { AllGoOn W.history core.old sockets.old core.new sockets.new }
{
    let mut buffer = buffer;
    exchange_at(core, sockets, id, &mut buffer);
    sockets.rooms.keep_spare(buffer, sockets.time);
}

// The core, which has nothing for the client, writes into this buffer from now on, and what it wrote into so far is left in the buffer. Without the
// client's end the core keeps what it has.
fn exchange_at<W: Wire>(
    core: &mut ServedCore,
    sockets: &mut Sockets<W>,
    id: usize,
    buffer: &mut SendBuffer,
)
    ensures ends { AllGoOn W.history core.old sockets.old core.new sockets.new }
{
    if let Some(client) = sockets.clients.get_mut(id) {
        exchange_end(core, id, client, buffer);
    }
}

// The core, which has nothing for the client of this end, writes into this buffer from now on, and what it wrote into so far is left in the buffer. Where
// it has something for the client after all, that is lost, and so the client is broken off.
fn exchange_end(core: &mut ServedCore, id: usize, client: &mut Client, buffer: &mut SendBuffer)
    ensures one { (h : List WireEvent) → OneGoes IsOfTurn id core.old h client.old core.new h client.new }
{
    let _ = core.move_output(id, buffer);
    if buffer.is_empty() {
        return;
    }
    client.break_off(Departure::NoRoom);
}

/// What was done for the client is shown to it, and the core keeps no room that was lent.
pub fn show_lent<W: Wire>(core: &mut ServedCore, sockets: &mut Sockets<W>, id: usize, is_lent: bool)
    ensures ends { AllGoOn W.history core.old sockets.old core.new sockets.new }
{
    show_client(core, sockets, id);
    end_lent(core, sockets, id, is_lent);
    sockets.take_room(id);
}

// The core gets other room for the client, if some was lent.
fn end_lent<W: Wire>(core: &mut ServedCore, sockets: &mut Sockets<W>, id: usize, is_lent: bool)
    ensures ends { AllGoOn W.history core.old sockets.old core.new sockets.new }
{
    if is_lent {
        let buffer = SendBuffer::new(sockets.alloc);
        exchange_room(core, sockets, id, buffer);
    }
}

/// A client that has nothing to send keeps no large room for it, and neither does the core, whose room goes to the client's end with what is
/// shown.
pub fn take_rooms<W: Wire>(core: &mut ServedCore, sockets: &mut Sockets<W>, id: usize)
    ensures ends { AllGoOn W.history core.old sockets.old core.new sockets.new }
{
    sockets.take_room(id);
    show_client(core, sockets, id);
    sockets.take_room(id);
}

/// Where nothing large came for a while, the room that was for it goes back, and so does what clients that wait for nothing have.
pub fn give_back_room<W: Wire>(core: &mut ServedCore, sockets: &mut Sockets<W>)
    ensures ends { AllGoOn W.history core.old sockets.old core.new sockets.new }
{
    if !sockets.rooms.are_due(sockets.time) {
        return;
    }
    sockets.rooms.clear();
    let has_room = sockets.links.give_back();
    let is_held = give_back_clients(core, sockets);
    sockets.rooms.note(false, has_room || is_held, sockets.time);
}

// Room of all clients goes back. Whether something that one of them sent isn't done.
fn give_back_clients<W: Wire>(core: &mut ServedCore, sockets: &mut Sockets<W>) -> bool
    ensures ends { AllGoOn W.history core.old sockets.old core.new sockets.new }
{
    let mut is_held = false;
    for id in 0..sockets.clients.len() {
        if !give_back_client(core, sockets, id) {
            is_held = true;
        }
    }
    is_held
}

/// The room for what is to be sent to a client goes back where nothing is, and the core's for what it sent where all is done: whether all
/// is.
pub fn give_back_client<W: Wire>(core: &mut ServedCore, sockets: &mut Sockets<W>, id: usize) -> bool
    ensures ends { AllGoOn W.history core.old sockets.old core.new sockets.new }
{
    sockets.give_back_end(id);
    // What the core has for it, mostly room alone, goes to its end.
    show_client(core, sockets, id);
    sockets.give_back_end(id);
    let is_done = core.give_back_room(id);
    sockets.end_input_if(id, is_done);
    is_done
}
