//! Links are read, and whole answers settle the calls that are out.

ghost use Rattle.std.specs.Prelude.{◌≡◌, ◌≢◌, ◌<◌, ℕ, false, [], None, Some, IfSome, IfOk, OnErr};
ghost use Rattle.serve_clients.specs.Agrees.{KeepsEnds};
ghost use Rattle.serve_wire.specs.Ends.{ReadsConnection};
ghost use Rattle.serve_links.specs.Story.{line_of, HoldsMost};
ghost use Rattle.serve_proxy.specs.Ends.{LineStandsUnless, LineGoesUnless, over_by, over_of, unless_full, AgreesUnless, Stay, GoAloneUnless, HoldsMostAt, AllFailOn, AllGoOn, AllGoUnless, AllGoFromUnless};

use crate::calls::begin_settled;
use crate::failing::fail_link;
use crate::sockets::Sockets;
use core_accepted::ServedCore;
use serve_clients::Clients;
use serve_links::{Cause, KEPT_ROOM, Left, Link, MOST_HELD, settle_held, vain};
use serve_wire::Wire;
use serve_wire::conn::{Conn, Got};
use std::alloc::AllocError;

// One read has room for so many bytes where memory is refused for more.
const LEAST_READ: usize = 512;

/// Links that are ready are read.
pub fn read_links<W: Wire>(core: &mut ServedCore, sockets: &mut Sockets<W>)
    ensures ends { AllGoOn W.history core.old sockets.old core.new sockets.new }
{
    if sockets.links.ready.is_empty() {
        return;
    }
    let links = sockets.work.take(&mut sockets.links.ready);
    for at in links.as_slice() {
        sockets.links.end_ready(*at);
        serve_link(core, sockets, *at);
    }
    sockets.work.end(links);
}

/// The link is read, and fails where it has failed by that. The connection of it whose end is awaited, if there is one, is read too.
pub fn serve_link<W: Wire>(core: &mut ServedCore, sockets: &mut Sockets<W>, at: usize)
    ensures ends { AllGoOn W.history core.old sockets.old core.new sockets.new }
{
    sockets.drain(at);
    serve_used(core, sockets, at)
}

// The link's connection in use is read, and the link fails where it has failed by that.
fn serve_used<W: Wire>(core: &mut ServedCore, sockets: &mut Sockets<W>, at: usize)
    ensures ends { AllGoOn W.history core.old sockets.old core.new sockets.new }
{
    match read_link(core, sockets, at) {
        Some(cause) => fail_link(core, sockets, at, cause),
        None => go_on_with(core, sockets, at),
    }
}

// Calls that waited go out in the places of those that were settled, and what is left is read.
fn go_on_with<W: Wire>(core: &mut ServedCore, sockets: &mut Sockets<W>, at: usize)
    ensures ends { AllFailOn W.history core.old sockets.old core.new sockets.new }
{
    begin_settled(core, sockets, at);
    sockets.links.mark_rest(at)
}

// One read, and all whole answers are settled. Why the link fails by that, if it does.
fn read_link<W: Wire>(core: &mut ServedCore, sockets: &mut Sockets<W>, at: usize) -> Option<Cause>
    ensures ends { AllGoUnless at result W.history core.old sockets.old core.new sockets.new }
{
    match sockets.read_link_once(at) {
        Some(got) => take_read(core, sockets, at, got),
        None => take_unread(core, sockets, at),
    }
}

// What the link holds is read where memory was refused for that before. Why the link fails by that, if it does.
fn take_unread<W: Wire>(core: &mut ServedCore, sockets: &mut Sockets<W>, at: usize) -> Option<Cause>
    ensures ends { AllGoUnless at result W.history core.old sockets.old core.new sockets.new }
{
    if !sockets.links.has_unread(at) {
        return None;
    }
    take_said_at(core, sockets, at)
}

// A read of the link brought nothing. What it holds is read where memory was refused for that before. Why the link fails by that, if it does.
fn take_nothing<W: Wire>(
    core: &mut ServedCore,
    sockets: &mut Sockets<W>,
    at: usize,
) -> Option<Cause>
    ensures ends { AllGoUnless at result W.history core.old sockets.old core.new sockets.new }
{
    if !sockets.links.has_unread(at) {
        return sockets.read_in_vain(at);
    }
    take_said_at(core, sockets, at)
}

// A read of the link gave this, and all whole answers are settled. Why the link fails by that, if it does.
fn take_read<W: Wire>(
    core: &mut ServedCore,
    sockets: &mut Sockets<W>,
    at: usize,
    got: Got,
) -> Option<Cause>
    requires full { got ≡ Got.Full → HoldsMostAt at sockets.old.links.all.items }
    ensures ends { AllGoFromUnless (AgreesUnless at (over_by got)) at result W.history core.old sockets.old core.new sockets.new }
{
    match got {
        Got::Bytes => {
            sockets.note_came(at);
            take_said_at(core, sockets, at)
        }
        Got::Nothing => take_nothing(core, sockets, at),
        Got::Full => Some(Cause::NoRoom),
        Got::Ended => Some(Cause::Closed),
        Got::Failed => Some(Cause::Broken),
    }
}

// What the server says to what it was asked first comes before all answers to calls. Why the link fails by that, if it does.
fn take_said_at<W: Wire>(
    core: &mut ServedCore,
    sockets: &mut Sockets<W>,
    at: usize,
) -> Option<Cause>
    ensures ends { AllGoUnless at result W.history core.old sockets.old core.new sockets.new }
{
    let polls = sockets.links.settings.polls;
    let Some(link) = sockets.links.all.get_mut(at) else {
        return None;
    };
    link.has_unread = false;
    take_said(
        link,
        core,
        &mut sockets.clients,
        &mut sockets.is_freed,
        polls,
    )
}

// Whether the server is to answer something else before calls: what it was asked first, or calls that are late.
fn awaits_other(link: &Link) -> bool {
    link.awaits_greeting() || link.awaits_late()
}

// What the server says to what it was asked first is taken from what the link holds, and then late answers, which are thrown away. All whole answers
// that come after those are settled. Why the link fails by that, if it does.
fn take_said(
    link: &mut Link,
    core: &mut ServedCore,
    clients: &mut Clients,
    is_freed: &mut bool,
    polls: Option<u32>,
) -> Option<Cause>
    ensures goes { LineGoesUnless result core.old link.old core.new link.new }
    ensures ends { KeepsEnds clients.old clients.new }
{
    let has_answered = awaits_other(link);
    if !link.learn() {
        return Some(Cause::ForeignAnswer);
    }
    if link.awaits_greeting() {
        return vain(link.has_read(false, polls));
    }
    if let Some(left) = link.throw_late() {
        return match left {
            Left::Begun => None,
            Left::NoAnswer => Some(Cause::ForeignAnswer),
            Left::NoMemory => put_off(link),
        };
    }
    take_answers(link, core, clients, is_freed, has_answered, polls)
}

// Memory was refused for reading what the link holds: it is read again in the next turn. Nothing fails by that.
fn put_off(link: &mut Link) -> Option<Cause>
    ensures line { line_of link.new ≡ line_of link.old }
    ensures none { result ≡ None }
{
    link.has_unread = true;
    None
}

// Whether the server has said something whole: what comes before answers, or an answer that settled a call.
fn is_any(has_answered: bool, has_settled: bool) -> bool
    ensures { result ≡ false → has_settled ≡ false }
{
    has_answered || has_settled
}

// All whole answers are settled, after another whole answer or not. Why the link fails by that, if it does.
fn take_answers(
    link: &mut Link,
    core: &mut ServedCore,
    clients: &mut Clients,
    is_freed: &mut bool,
    has_answered: bool,
    polls: Option<u32>,
) -> Option<Cause>
    requires told { link.old.awaits_dialect ≡ None }
    requires alone { link.old.late.items ≡ [] }
    ensures goes { LineGoesUnless result core.old link.old core.new link.new }
    ensures ends { KeepsEnds clients.old clients.new }
{
    let Some(conn) = link.conn.as_mut() else {
        return None;
    };
    let answers = settle_held(&mut link.calls, core, clients, is_freed, conn);
    link.awaited = answers.awaited;
    let has_failed = link.has_read(is_any(has_answered, answers.has_settled), polls);
    match answers.left {
        Left::Begun => vain(has_failed),
        Left::NoAnswer => Some(Cause::ForeignAnswer),
        Left::NoMemory => put_off(link),
    }
}

impl<W: Wire> Sockets<W> {
    // One read of the link, if something may have come over it: what it gave, if it was made.
    fn read_link_once(&mut self, at: usize) -> Option<Got>
        ensures ends { GoAloneUnless at (over_of result) W.history self.old self.new }
        ensures full { result ≡ Some Got.Full → HoldsMostAt at self.new.links.all.items }
    {
        match self.links.all.get_mut(at) {
            Some(link) => {
                let got = read_line(link, &mut self.wire);
                self.stalls.note_short(link.lacks_memory());
                got
            }
            None => None,
        }
    }

    // Something came over the link, which stands by that.
    fn note_came(&mut self, at: usize)
        ensures ends { Stay W.history self.old self.new }
    {
        let now = self.wire.last_micros();
        let Some(link) = self.links.all.get_mut(at) else {
            return;
        };
        let (is_large, has_room) = note_room(link);
        let is_news = has_come(link, now);
        self.links.note_news(at, is_news);
        self.rooms.note(is_large, has_room, self.time);
    }

    // A read of the link brought no whole answer. Why the link fails by that, if it does.
    fn read_in_vain(&mut self, at: usize) -> Option<Cause>
        ensures ends { GoAloneUnless at result W.history self.old self.new }
    {
        let polls = self.links.settings.polls;
        let Some(link) = self.links.all.get_mut(at) else {
            return None;
        };
        vain(link.has_read(false, polls))
    }
}

// What a read gave of an end that holds less than it may: nothing is full.
fn unless_full(got: Got) -> Option<Got>
    ensures { result ≡ unless_full got }
{
    match got {
        Got::Full => None,
        Got::Bytes | Got::Nothing | Got::Ended | Got::Failed => Some(got),
    }
}

// One read, into little room where memory is refused for so much.
fn read_into<W: Wire>(conn: &mut Conn, wire: &mut W, room: usize) -> Result<Got, AllocError>
    requires { 0 < room }
    ensures ok { IfOk result (λ got. ReadsConnection conn.old.number conn.old.limits.held conn.old.held.items got conn.new.held.items (W.history wire.old) (W.history wire.new)) }
    ensures err { OnErr result ((conn.new.held.items ≡ conn.old.held.items) × (W.history wire.new ≡ W.history wire.old)) }
    ensures unsent { conn.new.unsent ≡ conn.old.unsent }
    ensures number { conn.new.number ≡ conn.old.number }
{
    match conn.read_once(wire, room) {
        Ok(got) => Ok(got),
        Err(_) => conn.read_once(wire, LEAST_READ),
    }
}

/// One read of the link, if something may have come over its connection: what it gave, if it was made. Where memory is refused for it it is made again later,
/// and no call goes out before. `Got::Full` comes where [`MOST_HELD`] bytes or more are held.
pub fn read_line<W: Wire>(link: &mut Link, wire: &mut W) -> Option<Got>
    ensures stands { (at : ℕ) → LineStandsUnless (over_of result) at (W.history wire.old) (W.history wire.new) link.old link.new }
    ensures came { result ≡ Some Got.Bytes → IfSome link.new.conn (λ conn. conn.held.items ≢ []) }
    ensures full { result ≡ Some Got.Full → HoldsMost link.new }
    ensures rest { link.new ≡ record link.old { conn = link.new.conn; is_starved = link.new.is_starved } }
{
    let room = link.read_room();
    let Some(conn) = link.conn.as_mut() else {
        return None;
    };
    if !conn.readable {
        return None;
    }
    if conn.held.len() >= MOST_HELD {
        return Some(Got::Full);
    }
    match read_into(conn, wire, room) {
        Ok(got) => {
            link.is_starved = false;
            unless_full(got)
        }
        Err(_) => {
            link.is_starved = true;
            None
        }
    }
}

// Whether it holds much, and whether it has much room.
fn note_room(link: &Link) -> (bool, bool) {
    match &link.conn {
        Some(conn) => (conn.held.len() > KEPT_ROOM, conn.has_room_above(KEPT_ROOM)),
        None => (false, false),
    }
}

// Something came over it now, in microseconds: whether that may be news, as it stands by that, or its server was down.
#[tactic(auto, using(crate::proofs::Staying::kept_line))]
fn has_come(link: &mut Link, now: u64) -> bool
    ensures line { line_of link.new ≡ line_of link.old }
{
    link.calls.note_came(now);
    link.reads_long = link.may_have_more();
    let has_stood = link.stand();
    has_stood || link.may_come_back()
}
