//! A call that the core makes goes to its server's link: it is written there, waits there, or has failed.

ghost use Rattle.std.specs.Prelude.{◌≡◌, ◌≤◌, ◌⊎◌, true, false};
ghost use Rattle.serve_links.specs.Story.{AgreesSent, AgreesDue};
ghost use Rattle.serve_proxy.specs.Ends.{Stay, AgreesTicket, AllSendFrom, AllFailOn};
ghost use Rattle.serve_proxy.specs.Unsent.{IsRefusedAt, IsHinderedAt, WaitsTooLongAt};
ghost use Rattle.serve_wire.specs.Events.{time};

use crate::failing::look_at_idle;
use crate::sockets::Sockets;
use core_accepted::ServedCore;
use core_proxy::Ticket;
use serve_links::calls::{SentCall, fail_call};
use serve_links::{NotSent, Placed};
use serve_wire::Wire;
use std::net::Net;

/// The call is written to its server's link or waits for it, or has failed. Where nothing is out there, what came over the link's
/// connection is looked at before.
pub fn send_call<W: Wire, N: Net>(
    net: &N,
    core: &mut ServedCore,
    sockets: &mut Sockets<W>,
    id: usize,
    ticket: Ticket,
)
    ensures ends { AllSendFrom (AgreesTicket ticket) W.history core.old sockets.old core.new sockets.new }
{
    look_at_idle(core, sockets, ticket.server.number() as usize);
    send_looked(net, core, sockets, id, ticket)
}

// The call is written to its server's link or waits for it, or has failed, now that what came while nothing was out there was looked at.
fn send_looked<W: Wire, N: Net>(
    net: &N,
    core: &mut ServedCore,
    sockets: &mut Sockets<W>,
    id: usize,
    ticket: Ticket,
)
    ensures ends { AllSendFrom (AgreesTicket ticket) W.history core.old sockets.old core.new sockets.new }
{
    let at = ticket.server.number() as usize;
    let opened = sockets.links.takes_call(net, &mut sockets.wire, at);
    let bulk = sockets.bulk_of(id, at, &ticket);
    let call = SentCall {
        ticket,
        client: id,
        since: sockets.wire.last_millis(),
        paced: sockets.links.pace(),
        bulk,
        dialect: sockets.links.dialect_of(at),
    };
    if let Err(why) = opened {
        return refuse(core, sockets, at, NotSent { call, why });
    }
    if sockets.links.is_full(at, bulk) {
        return let_wait(core, sockets, at, call);
    }
    let _ = begin_call(core, sockets, at, call);
    sockets.links.mark_output(at)
}

// However long the call waited, it has half of a call's time for its answer at least, of which so many bytes are expected by now.
fn renewed(call: SentCall, bulk: usize, time: u64, call_ms: u64) -> SentCall
    ensures rest { result ≡ record call { since = result.since; bulk = result.bulk } }
    ensures since { call.since ≤ result.since }
{
    let mut call = call;
    call.bulk = bulk;
    call.since = call.since.max(time.saturating_sub(call_ms / 2));
    call
}

impl<W: Wire> Sockets<W> {
    // How many bytes the answer to this client's call is expected to take, where it is bulk; else 0.
    fn bulk_of(&self, id: usize, at: usize, ticket: &Ticket) -> usize {
        self.links
            .bulk_of(at, ticket.ask.get(), self.clients.expects(id))
    }

    // A call of this client waits for its server.
    fn note_waits(&mut self, at: usize, client: usize)
        ensures ends { Stay W.history self.old self.new }
    {
        self.links.note_limit(at);
        self.clients.mark_waiting(client);
    }
}

// The call waits until its server takes more, or has failed. Until then none of its client's commands begins.
fn let_wait<W: Wire>(core: &mut ServedCore, sockets: &mut Sockets<W>, at: usize, call: SentCall)
    ensures ends { AllSendFrom (AgreesSent at call) W.history core.old sockets.old core.new sockets.new }
{
    let client = call.client;
    match sockets.links.let_wait(at, call) {
        Ok(()) => sockets.note_waits(at, client),
        Err(it) => refuse(core, sockets, at, it),
    }
}

// The call is written to its server's link, or has failed. Where memory is refused for writing it it waits for that, before all others, and it is told so.
fn begin_call<W: Wire>(
    core: &mut ServedCore,
    sockets: &mut Sockets<W>,
    at: usize,
    call: SentCall,
) -> bool
    ensures ends { AllSendFrom (AgreesSent at call) W.history core.old sockets.old core.new sockets.new }
{
    let now = sockets.wire.last_micros();
    let client = call.client;
    match sockets.links.write_call(at, call, now) {
        Ok(Placed::Sent) => false,
        Ok(Placed::Waits) => {
            sockets.note_waits(at, client);
            sockets.links.mark_output(at);
            true
        }
        Err(it) => {
            refuse(core, sockets, at, it);
            false
        }
    }
}

// The call has failed, and was never sent, for a reason that what was said over its server's connection tells, or the calls that wait for it.
fn refuse<W: Wire>(core: &mut ServedCore, sockets: &mut Sockets<W>, at: usize, it: NotSent)
    requires { IsHinderedAt it.why at it.call.since (time (W.history sockets.old.wire)) sockets.old.links.all.items }
    ensures ends { AllSendFrom (AgreesDue it.call.ticket.number at it.call.since) W.history core.old sockets.old core.new sockets.new }
{
    let client = it.call.client;
    fail_call(core, it.call.ticket);
    sockets.links.note_unsent(at, 1);
    sockets.clients.mark_settled(client);
}

/// Calls that waited are written to the link, up to a backlog. Whether one was.
pub fn begin_waiting<W: Wire>(core: &mut ServedCore, sockets: &mut Sockets<W>, at: usize) -> bool
    ensures ends { AllFailOn W.history core.old sockets.old core.new sockets.new }
{
    let mut has_begun = false;
    for _ in 0..sockets.links.waiting(at) {
        if !begin_next(core, sockets, at) {
            return has_begun;
        }
        has_begun = true;
    }
    has_begun
}

// The first call that waits is written to the link, if it may go out. Whether it did.
fn begin_next<W: Wire>(core: &mut ServedCore, sockets: &mut Sockets<W>, at: usize) -> bool
    ensures ends { AllFailOn W.history core.old sockets.old core.new sockets.new }
{
    match sockets.links.next_waiting(at, &sockets.clients) {
        None => false,
        Some(call) => begin_waited(core, sockets, at, call),
    }
}

// The call that waited is written to its server's link, or has failed. Whether it waits no longer.
fn begin_waited<W: Wire>(
    core: &mut ServedCore,
    sockets: &mut Sockets<W>,
    at: usize,
    call: SentCall,
) -> bool
    ensures ends { AllSendFrom (AgreesSent at call) W.history core.old sockets.old core.new sockets.new }
{
    sockets.clients.end_waiting(call.client);
    let bulk = sockets.bulk_of(call.client, at, &call.ticket);
    let call = renewed(call, bulk, sockets.time, sockets.links.call_ms(at));
    !begin_call(core, sockets, at, call)
}

/// Calls that have waited too long for the link fail, who waited longest first. The link stays as it is.
pub fn fail_waited<W: Wire>(core: &mut ServedCore, sockets: &mut Sockets<W>, at: usize)
    ensures ends { AllFailOn W.history core.old sockets.old core.new sockets.new }
    ensures late { WaitsTooLongAt at sockets.old.links.pace sockets.old.links.all.items ⊎ (core.new ≡ core.old) }
{
    for _ in 0..sockets.links.waiting(at) {
        if !fail_next(core, sockets, at) {
            return;
        }
    }
}

// The first call that waits has failed, if it has waited too long. Whether it has.
fn fail_next<W: Wire>(core: &mut ServedCore, sockets: &mut Sockets<W>, at: usize) -> bool
    ensures ends { AllFailOn W.history core.old sockets.old core.new sockets.new }
    ensures late { result ≡ true → WaitsTooLongAt at sockets.old.links.pace sockets.old.links.all.items }
    ensures none { result ≡ false → core.new ≡ core.old }
{
    let now = sockets.wire.last_millis();
    match sockets.links.next_too_late(at, now) {
        None => false,
        Some(it) => refuse_waited(core, sockets, at, it),
    }
}

// The call that waited has failed, and was never sent. It tells `true`.
fn refuse_waited<W: Wire>(
    core: &mut ServedCore,
    sockets: &mut Sockets<W>,
    at: usize,
    it: NotSent,
) -> bool
    requires { IsRefusedAt it.why at it.call.since (time (W.history sockets.old.wire)) sockets.old.links.all.items }
    ensures ends { AllSendFrom (AgreesSent at it.call) W.history core.old sockets.old core.new sockets.new }
    ensures told { result ≡ true }
{
    sockets.clients.end_waiting(it.call.client);
    refuse(core, sockets, at, it);
    true
}

/// Calls that waited for the link go out as far as it takes them, where one was settled or the link stands.
pub fn begin_settled<W: Wire>(core: &mut ServedCore, sockets: &mut Sockets<W>, at: usize)
    ensures ends { AllFailOn W.history core.old sockets.old core.new sockets.new }
{
    if sockets.links.waiting(at) == 0 {
        return;
    }
    if begin_waiting(core, sockets, at) {
        return sockets.links.mark_output(at);
    }
}
