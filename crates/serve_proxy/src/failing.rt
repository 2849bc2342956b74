//! Links fail: their connections broke, brought what is no answer, or took too long.

ghost use Rattle.std.specs.Prelude.{◌≡◌, ◌⊎◌, ℕ, true, Some, IsSome};
ghost use Rattle.serve_wire.specs.Events.{time};
ghost use Rattle.serve_links.specs.Lateness.{HasLateAt, AllLetStoresWait, IsConnectLateAt, LinkIsRead};
ghost use Rattle.serve_links.specs.Links.{IsDownAt, IsClosedAt};
ghost use Rattle.serve_links.specs.Talks.{Apart, Ending};
ghost use Rattle.serve_proxy.specs.Ends.{idle_cause, AwaitsNothing, GoAlone, GoAloneUnless, LineStands, AllSendFrom, AllFailOn, AllGiveUp, AllLeave, AllGoOn};
ghost use Rattle.serve_links.specs.Story.{AgreesBut, LineFails};

use crate::answers::{read_line, serve_link};
use crate::calls::fail_waited;
use crate::sockets::{Sockets, close_if_any, shut_if_any};
use core_accepted::ServedCore;
use serve_links::{Cause, Lateness, Link, fail_all, fail_late as fail_out};
use serve_wire::Wire;
use serve_wire::conn::Got;

// So many reads at most are made at once of a connection whose end is awaited.
const DRAIN_READS: usize = 64;

// So many reads at most are made of a link that is late, before it fails.
const LATE_READS: usize = 1_024;

/// The link's calls have all failed, and no connection is in use. One that can't be kept is closed once its end has come.
pub fn fail_link<W: Wire>(core: &mut ServedCore, sockets: &mut Sockets<W>, at: usize, cause: Cause)
    ensures ends { AllGiveUp at cause W.history core.old sockets.old core.new sockets.new }
{
    let waiting = sockets.links.waiting(at);
    leave_link(core, sockets, at, cause);
    sockets.links.note_unsent(at, waiting)
}

// The link's calls have all failed, and its connection is closed, or used no more until its end has come.
fn leave_link<W: Wire>(core: &mut ServedCore, sockets: &mut Sockets<W>, at: usize, cause: Cause)
    ensures ends { AllSendFrom (AgreesBut (LineFails (Some cause)) at) W.history core.old sockets.old core.new sockets.new }
{
    if !cause.drains() {
        return shut_link(core, sockets, at, cause);
    }
    drain_link(core, sockets, at, cause);
    sockets.drain_now(at)
}

// The link's calls have all failed, and its connection, which can't be kept, is used no more: nothing more is sent over it.
fn drain_link<W: Wire>(core: &mut ServedCore, sockets: &mut Sockets<W>, at: usize, cause: Cause)
    ensures ends { AllLeave Ending at W.history core.old sockets.old core.new sockets.new }
{
    match sockets.links.all.get_mut(at) {
        None => {}
        Some(link) => {
            let drained = link.drain(cause, sockets.time);
            shut_if_any(&mut sockets.wire, drained);
            sockets.links.has_news = true;
            sockets.is_freed = true;
            fail_all(link, core, &mut sockets.clients)
        }
    }
}

/// The link's calls have all failed, and its connection was closed.
pub fn shut_link<W: Wire>(core: &mut ServedCore, sockets: &mut Sockets<W>, at: usize, cause: Cause)
    ensures ends { AllLeave Apart at W.history core.old sockets.old core.new sockets.new }
    ensures down { IsDownAt at sockets.new.links.all.items }
    ensures closed { IsClosedAt at sockets.new.links.all.items }
{
    match sockets.links.all.get_mut(at) {
        None => {}
        Some(link) => {
            let closed = link.close(cause, sockets.time);
            close_if_any(&mut sockets.wire, closed);
            sockets.links.has_news = true;
            sockets.is_freed = true;
            fail_all(link, core, &mut sockets.clients)
        }
    }
}

/// What came over the link's connection while no call was out is no answer, and a connection that has ended takes no call: the link fails by
/// either before a call goes out, so that the call goes to a new connection.
pub fn look_at_idle<W: Wire>(core: &mut ServedCore, sockets: &mut Sockets<W>, at: usize)
    ensures ends { AllFailOn W.history core.old sockets.old core.new sockets.new }
{
    match sockets.read_idle(at) {
        Some(cause) => fail_link(core, sockets, at, cause),
        None => {}
    }
}

/// Links whose connections have taken too long fail, if one may have, and so do calls that have, with all others of their links that aren't awaited however long they take. What has come over them is read and settled before: the system was asked for it
/// after the clock was looked at, and had nothing.
pub fn fail_late<W: Wire>(core: &mut ServedCore, sockets: &mut Sockets<W>)
    ensures ends { AllGoOn W.history core.old sockets.old core.new sockets.new }
{
    sockets.links.look(sockets.time);
    if !sockets.links.may_be_late(sockets.time) {
        return;
    }
    for at in 0..sockets.links.all.len() {
        fail_if_late(core, sockets, at);
    }
    sockets.links.note_limits();
}

fn fail_if_late<W: Wire>(core: &mut ServedCore, sockets: &mut Sockets<W>, at: usize)
    ensures ends { AllGoOn W.history core.old sockets.old core.new sockets.new }
{
    read_late(core, sockets, at);
    match sockets.lateness(at) {
        Some(late) => fail_by(core, sockets, at, late),
        None => fail_waited(core, sockets, at),
    }
}

// What the link has waited for has taken too long.
fn fail_by<W: Wire>(core: &mut ServedCore, sockets: &mut Sockets<W>, at: usize, late: Lateness)
    requires read { LinkIsRead at (time (W.history sockets.old.wire)) sockets.old.links.all.items }
    ensures ends { AllFailOn W.history core.old sockets.old core.new sockets.new }
{
    match late {
        Lateness::Connection => fail_unconnected(core, sockets, at),
        Lateness::Call => fail_calls(core, sockets, at),
        Lateness::Answer => give_up(core, sockets, at),
    }
}

// The link's late answers didn't come for too long, or not that to a store, or not the end of its connection: that is kept no longer.
fn give_up<W: Wire>(core: &mut ServedCore, sockets: &mut Sockets<W>, at: usize)
    requires read { LinkIsRead at (time (W.history sockets.old.wire)) sockets.old.links.all.items }
    ensures ends { AllFailOn W.history core.old sockets.old core.new sockets.new }
{
    sockets.stop_draining(at);
    if !sockets.links.is_late(at) {
        return;
    }
    fail_link(core, sockets, at, Cause::AnswerLate)
}

// If the link's connection has taken too long to stand, by what the clock showed last, it is given up.
fn fail_unconnected<W: Wire>(core: &mut ServedCore, sockets: &mut Sockets<W>, at: usize)
    requires read { LinkIsRead at (time (W.history sockets.old.wire)) sockets.old.links.all.items }
    ensures ends { AllFailOn W.history core.old sockets.old core.new sockets.new }
    ensures late { IsConnectLateAt at (time (W.history sockets.old.wire)) sockets.old.links.all.items ⊎ ((sockets.new ≡ sockets.old) × (core.new ≡ core.old)) }
{
    let now = sockets.wire.last_millis();
    if !sockets.links.is_connect_late(at, now) {
        return;
    }
    fail_link(core, sockets, at, Cause::ConnectLate)
}

// The link's calls have all failed, but stores and those behind them where stores are awaited however long they take. Those that are out keep their
// places, so that their answers meet no other calls; until these have come, further calls fail at once.
fn fail_calls<W: Wire>(core: &mut ServedCore, sockets: &mut Sockets<W>, at: usize)
    requires read { LinkIsRead at (time (W.history sockets.old.wire)) sockets.old.links.all.items }
    ensures ends { AllFailOn W.history core.old sockets.old core.new sockets.new }
{
    fail_sent(core, sockets, at);
    fail_waited(core, sockets, at)
}

// If one of the calls that are out on the link is late by what the clock showed last, all that are out have failed, but stores and those behind them where
// stores are awaited however long they take. Else the core stays as it is.
fn fail_sent<W: Wire>(core: &mut ServedCore, sockets: &mut Sockets<W>, at: usize)
    requires read { LinkIsRead at (time (W.history sockets.old.wire)) sockets.old.links.all.items }
    ensures ends { AllFailOn W.history core.old sockets.old core.new sockets.new }
    ensures late { HasLateAt at (time (W.history sockets.old.wire)) sockets.old.links.all.items ⊎ (core.new ≡ core.old) }
    ensures stores { AllLetStoresWait sockets.old.links.all.items sockets.new.links.all.items }
{
    let now = sockets.wire.last_millis();
    match sockets.links.all.get_mut(at) {
        None => {}
        Some(link) => {
            sockets.links.has_news = true;
            sockets.is_freed = true;
            fail_out(link, core, &mut sockets.clients, now);
        }
    }
}

// What has come over a link that is late is read, until it is late no longer or nothing more is there, or memory is refused for it.
fn read_late<W: Wire>(core: &mut ServedCore, sockets: &mut Sockets<W>, at: usize)
    ensures ends { AllGoOn W.history core.old sockets.old core.new sockets.new }
{
    for _ in 0..LATE_READS {
        if !sockets.is_overdue(at) {
            return;
        }
        look_again(core, sockets, at);
        if sockets.links.is_read(at) {
            return;
        }
    }
}

// The system is asked whether the link's connection stands, or for what has come over it, though it told of nothing.
fn look_again<W: Wire>(core: &mut ServedCore, sockets: &mut Sockets<W>, at: usize)
    ensures ends { AllGoOn W.history core.old sockets.old core.new sockets.new }
{
    let now = sockets.wire.last_millis();
    if sockets.links.look_again(&sockets.wire, at, now) {
        return;
    }
    serve_link(core, sockets, at)
}

// One read of the link's connection whose end is awaited, if it has one: it is closed where that has come. Whether more may be there.
fn drain_line<W: Wire>(link: &mut Link, wire: &mut W) -> bool
    ensures stands { (at : ℕ) → LineStands at (W.history wire.old) (W.history wire.new) link.old link.new }
{
    match link.read_draining(wire) {
        Some(_cause) => {
            let ended = link.end_draining();
            close_if_any(wire, ended);
            false
        }
        None => link.may_drain(),
    }
}

// The end of the link's connection is awaited no longer, if it was: it is closed.
fn stop_line<W: Wire>(link: &mut Link, wire: &mut W)
    ensures stands { (at : ℕ) → LineStands at (W.history wire.old) (W.history wire.new) link.old link.new }
{
    if link.conn.is_some() {
        return;
    }
    let stopped = link.end_draining();
    close_if_any(wire, stopped);
}

// Whether the link's connection stands, nothing is out on it or waits for it, and no late answer is awaited.
fn is_idle(link: &Link) -> bool
    ensures { result ≡ true → AwaitsNothing link.now }
{
    let is_awaited = link.awaits_greeting() || link.awaits_late();
    link.is_connected && !is_awaited && link.calls.is_empty() && link.waiting() == 0
}

// Why a link fails on which nothing is out, by what one read gave.
fn idle_fault(got: Got) -> Option<Cause>
    ensures { result ≡ idle_cause got }
{
    match got {
        Got::Nothing => None,
        Got::Bytes => Some(Cause::ForeignAnswer),
        Got::Full => Some(Cause::NoRoom),
        Got::Ended => Some(Cause::Closed),
        Got::Failed => Some(Cause::Broken),
    }
}

impl<W: Wire> Sockets<W> {
    // One read of the link, where nothing is out on its connection and something may have come over it. Why it fails by that, if it does.
    fn read_idle(&mut self, at: usize) -> Option<Cause>
        ensures ends { GoAloneUnless at result W.history self.old self.new }
    {
        let Some(link) = self.links.all.get_mut(at) else {
            return None;
        };
        if !is_idle(link) {
            return None;
        }
        match read_line(link, &mut self.wire) {
            Some(got) => idle_fault(got),
            None => None,
        }
    }

    // One read of the link's connection whose end is awaited, if it has one. Whether more may be there.
    fn drain_once(&mut self, at: usize) -> bool
        ensures ends { GoAlone W.history self.old self.new }
    {
        match self.links.all.get_mut(at) {
            Some(link) => drain_line(link, &mut self.wire),
            None => false,
        }
    }

    /// What has come over the link's connection whose end is awaited is thrown away, if it has one. Where more may be there it is to be read again.
    pub(crate) fn drain(&mut self, at: usize)
        ensures ends { GoAlone W.history self.old self.new }
    {
        if self.drain_once(at) {
            self.links.mark_ready(at);
        }
    }

    // What has come over the link's connection that was just given up, and whose end is awaited, is thrown away: the end may be there at once. Where more
    // may be there it is to be read again.
    fn drain_now(&mut self, at: usize)
        ensures ends { GoAlone W.history self.old self.new }
    {
        for _ in 0..DRAIN_READS {
            if !self.drain_once(at) {
                self.links.note_limit(at);
                return;
            }
        }
        self.links.note_limit(at);
        self.links.mark_ready(at)
    }

    // The end of the link's connection is awaited no longer, if it was.
    fn stop_draining(&mut self, at: usize)
        ensures ends { GoAlone W.history self.old self.new }
    {
        match self.links.all.get_mut(at) {
            Some(link) => stop_line(link, &mut self.wire),
            None => {}
        }
    }

    // Whether the link has waited for something too long by now, so far as it was read.
    fn is_overdue(&self, at: usize) -> bool {
        self.links.is_overdue(at, self.wire.last_millis())
    }

    // What the link has waited for too long by what the clock showed last. Then all that had come over it was read.
    fn lateness(&self, at: usize) -> Option<Lateness>
        ensures read { IsSome result → LinkIsRead at (time (W.history self.now.wire)) self.now.links.all.items }
    {
        self.links.lateness(at, self.wire.last_millis())
    }
}
