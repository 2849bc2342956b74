//! Clients are served: what came of them goes to the core, their commands begin and go on, and their replies are shown.

ghost use Rattle.std.specs.Prelude.{◌≡◌, ◌==◌, ◌||◌, ℕ, List, true, length};
ghost use Rattle.wire_parts.specs.Sending.{bytes_of};
ghost use Rattle.serve_wire.specs.Events.{WireEvent};
ghost use Rattle.core_accepted.specs.declared.served.ServedCore.{ServedCore};
ghost use Rattle.serve_links.specs.CoreSteps.{IsOfTurn, Broke};
ghost use Rattle.serve_clients.specs.Agrees.{end_said_of, KeepsEnds};
ghost use Rattle.serve_links.specs.Story.{OneGoes};
ghost use Rattle.serve_proxy.specs.Ends.{Stay, AllGoOn, AllClose, AllGiven, OneGives, IsClosing, IsAllSent, IsAllSentTo};

use crate::accepting::Accepting;
use crate::calls::send_call;
use crate::clients::Rest;
use crate::rooms::Rooms;
use crate::sending::send_links;
use crate::showing::{lend_room, show_lent};
use crate::sockets::Sockets;
use core_accepted::ServedCore;
use core_proxy::{CoreFault, Poll as Polled};
use serve_clients::{Client, Clients, Departure};
use serve_links::{Tally, feed_held, read_once, show};
use serve_wire::Wire;
use std::net::Net;

/// What clients ask goes out before answers are read, so that servers work on it while replies are shown, and their answers are mostly
/// whole when they are read. In rounds all comes in its own order.
pub fn serve_asks<W: Wire, N: Net>(net: &N, core: &mut ServedCore, sockets: &mut Sockets<W>)
    ensures ends { AllGoOn W.history core.old sockets.old core.new sockets.new }
{
    if sockets.in_rounds {
        return;
    }
    serve_ready(net, core, sockets);
    send_links(core, sockets)
}

/// Clients are served, in rounds or not.
pub fn serve_all<W: Wire, N: Net>(net: &N, core: &mut ServedCore, sockets: &mut Sockets<W>)
    ensures ends { AllGoOn W.history core.old sockets.old core.new sockets.new }
{
    if sockets.in_rounds {
        return serve_round(net, core, sockets);
    }
    // (who waits longest takes what became free, before those whose calls were just settled go on)
    serve_busy(net, core, sockets);
    serve_ready(net, core, sockets)
}

// Clients that are ready.
fn serve_ready<W: Wire, N: Net>(net: &N, core: &mut ServedCore, sockets: &mut Sockets<W>)
    ensures ends { AllGoOn W.history core.old sockets.old core.new sockets.new }
{
    if sockets.clients.ready.is_empty() {
        return;
    }
    let ids = sockets.work.take(&mut sockets.clients.ready);
    serve_list(net, core, sockets, ids)
}

// Clients that wait for a key or a server, if one became free.
fn serve_busy<W: Wire, N: Net>(net: &N, core: &mut ServedCore, sockets: &mut Sockets<W>)
    ensures ends { AllGoOn W.history core.old sockets.old core.new sockets.new }
{
    if !sockets.is_freed {
        return;
    }
    sockets.is_freed = false;
    let ids = sockets.work.take(&mut sockets.clients.busy);
    for id in ids.as_slice() {
        let _ = sockets.clients.end_busy(*id);
        serve_client(net, core, sockets, *id);
    }
    sockets.work.end(ids);
}

// Those that wait for a key or a server are put behind these. Those for which memory was refused are listed again in the next turn.
fn add_busy(clients: &mut Clients, ids: &mut Vec<usize>)
    ensures ends { KeepsEnds clients.old clients.new }
{
    if clients.move_busy(ids).is_err() {
        clients.is_short = true;
    }
}

// A round: all that are ready, and all that wait for a key or a server.
fn serve_round<W: Wire, N: Net>(net: &N, core: &mut ServedCore, sockets: &mut Sockets<W>)
    ensures ends { AllGoOn W.history core.old sockets.old core.new sockets.new }
{
    sockets.is_freed = false;
    let mut ids = sockets.work.take(&mut sockets.clients.ready);
    add_busy(&mut sockets.clients, &mut ids);
    ids.sort_unstable();
    serve_list(net, core, sockets, ids)
}

// These clients, each of which is ready no longer.
fn serve_list<W: Wire, N: Net>(
    net: &N,
    core: &mut ServedCore,
    sockets: &mut Sockets<W>,
    ids: Vec<usize>,
)
    ensures ends { AllGoOn W.history core.old sockets.old core.new sockets.new }
{
    for id in ids.as_slice() {
        sockets.clients.end_ready(*id);
        serve_client(net, core, sockets, *id);
    }
    sockets.work.end(ids);
}

fn serve_client<W: Wire, N: Net>(
    net: &N,
    core: &mut ServedCore,
    sockets: &mut Sockets<W>,
    id: usize,
)
    ensures ends { AllGoOn W.history core.old sockets.old core.new sockets.new }
{
    read_client(core, sockets, id);
    let is_lent = lend_room(core, sockets, id);
    let rest = poll_client(net, core, sockets, id);
    show_lent(core, sockets, id, is_lent);
    close_client(core, sockets, id, rest);
    sockets.mark_rest(id, rest)
}

// One read of the client, and what it holds is given to the core.
fn read_client<W: Wire>(core: &mut ServedCore, sockets: &mut Sockets<W>, id: usize)
    ensures ends { AllGoOn W.history core.old sockets.old core.new sockets.new }
{
    let Some(client) = sockets.clients.get_mut(id) else {
        return;
    };
    read_end(
        client,
        &mut sockets.wire,
        &mut sockets.rooms,
        &mut sockets.tally,
    );
    feed_end(core, id, client, &mut sockets.rooms);
}

// One read of it, if it may give something, into room that is lent for that.
fn read_end<W: Wire>(client: &mut Client, wire: &mut W, rooms: &mut Rooms, tally: &mut Tally)
    ensures one { (id : ℕ) (core : ServedCore) → OneGoes (λ step. step ≡ Broke id) id core (W.history wire.old) client.old core (W.history wire.new) client.new }
{
    if client.can_read() {
        rooms.lend_input(&mut client.conn.held);
        read_once(client, wire, tally);
    }
}

// What it holds is given to the core, and the room that was lent comes back.
fn feed_end(core: &mut ServedCore, id: usize, client: &mut Client, rooms: &mut Rooms)
    ensures one { (h : List WireEvent) → OneGoes IsOfTurn id core.old h client.old core.new h client.new }
{
    let before = client.conn.held.len();
    feed_held(core, id, client);
    note_fed(client, before);
    rooms.take_input(&mut client.conn.held);
}

// Of so many bytes that its end held the core was given those that it holds no more.
fn note_fed(client: &mut Client, before: usize)
    ensures said { end_said_of client.new ≡ end_said_of client.old }
{
    let fed = before.saturating_sub(client.conn.held.len());
    if fed > 0 {
        client.has_fed(fed);
    }
}

// What can be done for the client is done.
fn poll_client<W: Wire, N: Net>(
    net: &N,
    core: &mut ServedCore,
    sockets: &mut Sockets<W>,
    id: usize,
) -> Rest
    ensures ends { AllGoOn W.history core.old sockets.old core.new sockets.new }
{
    for _ in 0..sockets.polls() {
        if !sockets.may_go_on(id) {
            leave_line(core, sockets, id);
            return sockets.rest_of(id);
        }
        match poll_once(net, core, sockets, id) {
            Rest::More => {}
            rest => return rest,
        }
    }
    Rest::More
}

// Nobody waits behind a client that isn't polled until it has taken what it was sent.
fn leave_line<W: Wire>(core: &mut ServedCore, sockets: &mut Sockets<W>, id: usize)
    ensures ends { AllGoOn W.history core.old sockets.old core.new sockets.new }
{
    if core.leave_line(id) {
        sockets.is_freed = true;
        sockets.times.leave_line(id);
    }
}

// One thing is done for the client, if one can be: what is left after it.
fn poll_once<W: Wire, N: Net>(
    net: &N,
    core: &mut ServedCore,
    sockets: &mut Sockets<W>,
    id: usize,
) -> Rest
    ensures ends { AllGoOn W.history core.old sockets.old core.new sockets.new }
{
    let now = sockets.wire.last_micros();
    match core.poll(id) {
        Ok(Polled::Call(ticket)) => {
            sockets.note_called(id);
            sockets.times.begin(id, ticket.number, now);
            send_call(net, core, sockets, id, ticket);
            Rest::More
        }
        Ok(Polled::Did(note)) => {
            sockets.note_went_on(id);
            sockets.times.end(id, note.number, now);
            sockets.is_freed = true;
            Rest::More
        }
        Ok(Polled::Own) => {
            sockets.note_passed(id);
            Rest::More
        }
        Ok(Polled::Refused) => {
            sockets.note_refused(id, core.is_closed(id));
            Rest::More
        }
        Ok(Polled::Idle) => Rest::Idle,
        Ok(Polled::Waiting) => Rest::Waiting,
        Ok(Polled::Queued) => {
            sockets.times.queue(id, now);
            Rest::Busy
        }
        Ok(Polled::Busy) => Rest::Busy,
        Err(CoreFault::NoMemory) => {
            sockets.is_freed = true;
            sockets.end_client(id, Departure::NoRoom);
            Rest::More
        }
        Err(_) => {
            sockets.end_client(id, Departure::NoRoom);
            Rest::Idle
        }
    }
}

// A client that has ended, for which nothing is left to do, is gone once all was sent to it; so is one that is broken off, if no command of it is
// under way.
fn close_client<W: Wire>(core: &mut ServedCore, sockets: &mut Sockets<W>, id: usize, rest: Rest)
    ensures ends { AllClose W.history id core.old sockets.old core.new sockets.new }
{
    if !is_over(core, sockets, id, rest) {
        return;
    }
    if !has_all(core, sockets, id) {
        return;
    }
    let why = sockets.clients.departure(id, core.is_closed(id));
    match core.close(id) {
        Ok(()) => {
            sockets.remove_client(id, why);
            sockets.accepting = Accepting::Now;
        }
        Err(_) => {}
    }
}

// Whether it has ended, and nothing is left to do for it.
fn is_over<W: Wire>(core: &ServedCore, sockets: &mut Sockets<W>, id: usize, rest: Rest) -> bool
    ensures ends { Stay W.history sockets.old sockets.new }
{
    match sockets.clients.get_mut(id) {
        Some(client) => is_done(core, id, client, rest),
        None => false,
    }
}

// Whether the client of this end has ended, and nothing is left to do for it.
fn is_done(core: &ServedCore, id: usize, client: &Client, rest: Rest) -> bool {
    // Bytes that were left unread would take the last replies with them when the socket is closed.
    let is_read = client.is_ended || !client.conn.readable;
    client.is_broken || (rest == Rest::Idle && is_read && (client.is_ended || core.is_closed(id)))
}

// Whether the core has no more for it, and all was sent to it.
fn has_all<W: Wire>(core: &mut ServedCore, sockets: &mut Sockets<W>, id: usize) -> bool
    ensures ends { AllClose W.history id core.old sockets.old core.new sockets.new }
    ensures given { result ≡ true → AllGiven W.history id core.old sockets.old core.new sockets.new }
    ensures sent { result ≡ true → IsAllSentTo id sockets.new.clients }
{
    match sockets.clients.get_mut(id) {
        Some(client) => end_has_all(core, id, client),
        None => false,
    }
}

// Whether the core has no more for the client of this end, and all was sent to it.
fn end_has_all(core: &mut ServedCore, id: usize, client: &mut Client) -> bool
    ensures one { (h : List WireEvent) → OneGoes (IsClosing id) id core.old h client.old core.new h client.new }
    ensures given { result ≡ true → (h : List WireEvent) → OneGives id core.old h client.old core.new h client.new }
    ensures sent { result ≡ true → IsAllSent client.new }
{
    match show(core, id, client) {
        Ok(_) => is_all_sent(client),
        Err(_) => false,
    }
}

// Whether nothing is to be sent to it, or it is broken off.
fn is_all_sent(client: &Client) -> bool
    ensures { result ≡ (client.now.is_broken || (length (bytes_of client.now.conn.unsent) == 0)) }
{
    client.is_broken || client.conn.is_all_sent()
}
