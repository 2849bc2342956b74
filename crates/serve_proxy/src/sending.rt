//! What is to be sent goes out: calls to servers, and replies to clients. Each end is written once.

ghost use Rattle.std.specs.Prelude.{ℕ};
ghost use Rattle.serve_proxy.specs.Ends.{Stay, broken_unless, GoAloneUnless, LineStandsUnless, AllGoOn, AllFailOn, AllGoBreaking};

use crate::calls::begin_waiting;
use crate::failing::fail_link;
use crate::showing::take_rooms;
use crate::sockets::Sockets;
use core_accepted::ServedCore;
use serve_links::{Cause, KEPT_ROOM, Link, has_spare, send_once};
use serve_wire::Wire;
use serve_wire::conn::send;

// So many times at most a link is written and calls that waited for it go out, in one turn.
const LINK_SENDS: usize = 64;

/// Links that have something to send are written.
pub fn send_links<W: Wire>(core: &mut ServedCore, sockets: &mut Sockets<W>)
    ensures ends { AllFailOn W.history core.old sockets.old core.new sockets.new }
{
    if sockets.links.with_output.is_empty() {
        return;
    }
    let links = sockets.work.take(&mut sockets.links.with_output);
    for at in links.as_slice() {
        send_link(core, sockets, *at);
        sockets.links.note_limit(*at);
    }
    sockets.work.end(links);
}

fn send_link<W: Wire>(core: &mut ServedCore, sockets: &mut Sockets<W>, at: usize)
    ensures ends { AllFailOn W.history core.old sockets.old core.new sockets.new }
{
    sockets.links.end_output(at);
    for _ in 0..LINK_SENDS {
        if !sockets.send_unsent(at) {
            return fail_link(core, sockets, at, Cause::Broken);
        }
        if !begin_waiting(core, sockets, at) {
            return;
        }
    }
    sockets.links.mark_output(at)
}

/// Clients that have something to send are written.
pub fn send_clients<W: Wire>(core: &mut ServedCore, sockets: &mut Sockets<W>)
    ensures ends { AllGoOn W.history core.old sockets.old core.new sockets.new }
{
    if sockets.clients.with_output.is_empty() {
        return;
    }
    let ids = sockets.work.take(&mut sockets.clients.with_output);
    for id in ids.as_slice() {
        send_client(core, sockets, *id);
    }
    sockets.work.end(ids);
}

fn send_client<W: Wire>(core: &mut ServedCore, sockets: &mut Sockets<W>, id: usize)
    ensures ends { AllGoOn W.history core.old sockets.old core.new sockets.new }
{
    if sockets.holds_back(id) {
        return sockets.hold_back(id);
    }
    let (is_more, has_spare) = write_client(core, sockets, id);
    sockets.note_written();
    sockets.mark_ready_if(id, is_more);
    if has_spare {
        return take_rooms(core, sockets, id);
    }
}

/// The client is written, if it is there: whether it is to be served for that, and whether it has spare room then.
pub fn write_client<W: Wire>(core: &ServedCore, sockets: &mut Sockets<W>, id: usize) -> (bool, bool)
    ensures ends { AllGoBreaking W.history id sockets.old sockets.new }
{
    match sockets.clients.get_mut(id) {
        Some(client) => {
            let before = client.conn.unsent_len();
            let is_more = send_once(core, id, client, &mut sockets.wire);
            let after = client.conn.unsent_len();
            sockets.stalls.note(id, before, after, sockets.time);
            (is_more, has_spare(&client.conn.unsent))
        }
        None => (false, false),
    }
}

impl<W: Wire> Sockets<W> {
    // The client has something to send in the next turn too.
    fn hold_back(&mut self, id: usize)
        ensures ends { Stay W.history self.old self.new }
    {
        self.clients.hold_back(id);
    }

    // What is to be sent to the server goes out, as far as it is taken. Whether the link stands still.
    fn send_unsent(&mut self, at: usize) -> bool
        ensures ends { GoAloneUnless at (broken_unless result) W.history self.old self.new }
    {
        match self.links.all.get_mut(at) {
            Some(link) => {
                self.rooms.note(has_much(link), false, self.time);
                send_line(link, &mut self.wire)
            }
            None => true,
        }
    }
}

// Whether the link has much to send.
fn has_much(link: &Link) -> bool {
    match &link.conn {
        Some(conn) => conn.unsent_len() > KEPT_ROOM,
        None => false,
    }
}

// What is to be sent over the link's connection goes out, as far as it is taken. Whether the link stands still.
fn send_line<W: Wire>(link: &mut Link, wire: &mut W) -> bool
    ensures stands { (at : ℕ) → LineStandsUnless (broken_unless result) at (W.history wire.old) (W.history wire.new) link.old link.new }
{
    match link.conn.as_mut() {
        Some(conn) => send(conn, wire),
        None => true,
    }
}
