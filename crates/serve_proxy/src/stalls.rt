//! Clients that take nothing of much that is to be sent to them, or for whom too much is held: since when, and which are closed for that; and
//! each one's share, where much is held for all.

ghost use Rattle.std.specs.Prelude.{IfSome, IsSome, MatchOption, [], ◌≡◌, ◌≢◌, ◌↔◌, ℕ, ◌<◌, ◌≤◌, ◌-◌, IsTrue, false, OnOk, None, length, slice_set};
ghost use Rattle.serve_proxy.specs.Ends.{Stay, AllGoOn, AllGoBreaking};
ghost use Rattle.serve_proxy.specs.Stalls.{since_of, since_by, HasStalled, OnlyStalled, HasMost, OnlyMost, greater_of, held_by_all, holders};
ghost use Rattle.serve_proxy.specs.Shares.{three_quarters, share_if, share_by};
ghost use Rattle.serve_clients.specs.Marks.{client_of};
ghost use Rattle.serve_clients.specs.Holdings.{held_at};

use crate::clock::earlier;
use crate::sending::write_client;
use crate::sockets::Sockets;
use core_accepted::ServedCore;
use serve_clients::{Client, Departure, SHARE};
use serve_wire::Wire;
use std::alloc::{AllocError, Global};

// More bytes than these are much.
const MUCH: usize = 1_048_576;

// How many milliseconds a client may take nothing, where nothing else is set.
const USUAL_MS: u64 = 10_000;

/// How many bytes are held for all clients at most, where nothing else is set.
pub const USUAL_MOST: usize = 1_073_741_824;

// What is to be told is told once in so many milliseconds at most.
const QUIET_MS: u64 = 1_000;

// Where memory is refused for what servers send, one client is broken off in so many milliseconds.
const SHORT_MS: u64 = 10;

/// Since when clients take nothing of much that is to be sent to them.
#[derive(Drop)]
pub struct Stalls {
    // How many milliseconds a client may take nothing.
    ms: u64,
    // By their ids, in milliseconds.
    since: Vec<Option<u64>>,
    /// Of how many bytes of replies each client has its share, by what was held for all after the last turn.
    pub share: usize,
    /// Whether more than three quarters of what may be were held then.
    pub is_scarce: bool,
    // Whether memory was refused for what a server sent.
    is_short: bool,
    // Until when nobody is broken off for that again, in milliseconds.
    short_until: u64,
    // Nobody has stalled before this time.
    late_from: Option<u64>,
    // How many were closed and not told of.
    closed: u64,
    // Before this time nothing is told.
    quiet_until: u64,
}

// Since when a client takes nothing of much, by a write of it now: so many bytes were to be sent before, and so many are after.
fn since_after(before: usize, after: usize, now: u64, since: Option<u64>) -> Option<u64>
    ensures { result ≡ since_by before after now since }
{
    if after <= MUCH {
        return None;
    }
    if after < before {
        return Some(now);
    }
    match since {
        Some(from) => Some(from),
        None => Some(now),
    }
}

// Whether much is to be sent to the client, and it has taken nothing for so many milliseconds.
fn has_stalled(client: &Client, since: Option<u64>, now: u64, ms: u64) -> bool
    ensures { IsTrue result ↔ HasStalled ms now since client.now }
{
    match since {
        Some(from) => client.conn.unsent_len() > MUCH && from <= now && ms <= now - from,
        None => false,
    }
}

impl Stalls {
    /// Nobody is noted yet.
    pub fn new(alloc: Global) -> Stalls {
        Stalls {
            ms: USUAL_MS,
            since: Vec::new(alloc),
            share: SHARE,
            is_scarce: false,
            is_short: false,
            short_until: 0,
            late_from: None,
            closed: 0,
            quiet_until: 0,
        }
    }

    /// A client that takes nothing of much for so many milliseconds has stalled.
    pub fn bound(&mut self, ms: u64)
        ensures { self.new ≡ record self.old { ms = ms } }
    {
        self.ms = ms;
    }

    /// A client of this id can be noted.
    pub fn make_place(&mut self, id: usize) -> Result<(), AllocError>
        ensures there { OnOk result (id < length self.new.since.items) }
        ensures same { (other : ℕ) → since_of self.new other ≡ since_of self.old other }
    {
        for _ in self.since.len()..=id {
            self.since.push(None)?;
        }
        Ok(())
    }

    /// Memory was refused for what a server sent, if it is so.
    pub fn note_short(&mut self, is_so: bool)
        ensures { self.new ≡ record self.old { is_short = self.new.is_short } }
    {
        self.is_short = self.is_short || is_so;
    }

    // Whether memory was refused for what a server sent, since that was asked last, and some is held for clients: once in so many milliseconds at most,
    // as what is let go for that takes its time.
    fn was_short(&mut self, now: u64, is_any: bool) -> bool
        ensures { self.new ≡ record self.old { is_short = false; short_until = self.new.short_until } }
    {
        let was_short = self.is_short && is_any && self.short_until <= now;
        self.is_short = false;
        if was_short {
            self.short_until = now.saturating_add(SHORT_MS);
        }
        was_short
    }

    // Nobody has stalled before this time, either.
    fn note_late(&mut self, late_from: u64)
        ensures { self.new ≡ record self.old { late_from = self.new.late_from } }
    {
        self.late_from = earlier(self.late_from, Some(late_from));
    }

    /// The client was written now, as far as it took something: so many bytes were to be sent before, and so many are after. It has stalled
    /// when it took nothing for so long as is set.
    pub fn note(&mut self, id: usize, before: usize, after: usize, now: u64)
        ensures since { self.new.since.items ≡ slice_set self.old.since.items id (since_by before after now (since_of self.old id)) }
    {
        self.note_since(id, before, after, now);
        self.note_if_none(after > MUCH, now.saturating_add(self.ms));
    }

    // The client was written now: since when it takes nothing of much is noted, by how many bytes were to be sent before and are after.
    fn note_since(&mut self, id: usize, before: usize, after: usize, now: u64)
        ensures since { self.new.since.items ≡ slice_set self.old.since.items id (since_by before after now (since_of self.old id)) }
    {
        if let Some(since) = self.since.get_mut(id) {
            *since = since_after(before, after, now, *since);
        }
    }

    // If it is so, nobody has stalled before this time, unless somebody has before.
    fn note_if_none(&mut self, is_so: bool, late_from: u64)
        ensures { self.new ≡ record self.old { late_from = self.new.late_from } }
    {
        if is_so && self.late_from.is_none() {
            self.late_from = Some(late_from);
        }
    }

    /// The client is gone.
    pub fn forget(&mut self, id: usize)
        ensures since { self.new.since.items ≡ slice_set self.old.since.items id None }
    {
        if let Some(since) = self.since.get_mut(id) {
            *since = None;
        }
    }

    // Since when the client takes nothing of much.
    fn since(&self, id: usize) -> Option<u64>
        ensures { result ≡ since_of self.now id }
    {
        match self.since.get(id) {
            Some(since) => *since,
            None => None,
        }
    }

    // Whether somebody may have stalled by now.
    fn may_be_late(&self, now: u64) -> bool {
        match self.late_from {
            Some(late_from) => late_from <= now,
            None => false,
        }
    }

    // When the client will have stalled is noted, if it hasn't by now.
    fn note_later(&mut self, id: usize, now: u64)
        ensures { self.new ≡ record self.old { late_from = self.new.late_from } }
    {
        if let Some(from) = self.since(id) {
            let late_from = from.saturating_add(self.ms);
            if late_from > now {
                self.note_late(late_from);
            }
        }
    }

    // One more was closed, if it is so.
    fn note_closed(&mut self, is_closed: bool)
        ensures { self.new ≡ record self.old { closed = self.new.closed } }
    {
        if is_closed {
            self.closed = self.closed.saturating_add(1);
        }
    }

    /// When something is to be done or told.
    pub fn limit(&self) -> Option<u64> {
        if self.closed == 0 {
            return self.late_from;
        }
        earlier(self.late_from, Some(self.quiet_until))
    }

    /// How many were closed since that was told, if some were and it may be told by now.
    pub fn next_closed(&mut self, now: u64) -> Option<u64>
        ensures told { MatchOption result (self.new ≡ self.old) (λ closed. (closed ≡ self.old.closed) × (self.old.closed ≢ 0) × (self.new.closed ≡ 0)) }
        ensures due { (self.old.closed ≢ 0) → self.old.quiet_until ≤ now → IsSome result }
    {
        if self.closed == 0 || now < self.quiet_until {
            return None;
        }
        let closed = self.closed;
        self.closed = 0;
        self.quiet_until = now.saturating_add(QUIET_MS);
        Some(closed)
    }
}

/// After all clients were written, those that have stalled are broken off, and those for which most is held, until no more than so many bytes
/// are held for all. Each one's share is by what is left then.
pub fn close_slow<W: Wire>(core: &ServedCore, sockets: &mut Sockets<W>, most: usize)
    ensures ends { AllGoOn W.history core.now sockets.old core.now sockets.new }
    ensures bounded { held_by_all sockets.new.clients ≤ most }
    ensures share { sockets.new.stalls.share ≡ share_by most (held_by_all sockets.new.clients) sockets.new.links.settings.clients }
{
    end_stalled(core, sockets);
    shed(core, sockets, most);
    sockets.note_share(most);
}

// Three quarters of a number, and at most three more.
fn three_quarters(n: usize) -> usize
    ensures { result ≡ three_quarters n }
{
    n - n / 4
}

// Of how many bytes of replies each of so many clients has its share, where so many may be held for all: its part of three quarters, where it is so.
fn share_if(is_scarce: bool, most: usize, clients: usize) -> usize
    ensures { result ≡ share_if is_scarce most clients }
{
    if is_scarce {
        let part = three_quarters(most) / clients.max(1);
        part.max(1).min(SHARE)
    } else {
        SHARE
    }
}

// Where more bytes than these are held for all clients, the client for which most are is broken off, until no more are than that; and once where
// memory was refused for what a server sent.
fn shed<W: Wire>(core: &ServedCore, sockets: &mut Sockets<W>, most: usize)
    ensures ends { AllGoOn W.history core.now sockets.old core.now sockets.new }
    ensures bounded { held_by_all sockets.new.clients ≤ most }
{
    for _ in 0..sockets.clients.len() {
        if !sockets.has_too_much(most) {
            return;
        }
        shed_one(core, sockets);
    }
}

// The client for which most is held is broken off.
fn shed_one<W: Wire>(core: &ServedCore, sockets: &mut Sockets<W>)
    ensures ends { AllGoOn W.history core.now sockets.old core.now sockets.new }
    ensures only { OnlyMost sockets.old.clients sockets.new.clients }
    ensures fewer { holders sockets.new.clients ≤ holders sockets.old.clients - 1 }
{
    let Some(id) = sockets.greatest() else {
        return;
    };
    sockets.break_client(id);
    sockets.stalls.note_closed(true);
    sockets.mark_ready_if(id, true)
}

// Of the client with the most bytes so far and this one with so many, that with more.
fn greater(best: Option<(usize, usize)>, id: usize, count: usize) -> Option<(usize, usize)>
    ensures { result ≡ greater_of best id count }
{
    match best {
        Some(best) if count <= best.1 => Some(best),
        _ => Some((id, count)),
    }
}

// Clients that have stalled are broken off, if one may have.
fn end_stalled<W: Wire>(core: &ServedCore, sockets: &mut Sockets<W>)
    ensures ends { AllGoOn W.history core.now sockets.old core.now sockets.new }
{
    if !sockets.stalls.may_be_late(sockets.time) {
        return;
    }
    sockets.stalls.late_from = None;
    for id in 0..sockets.clients.len() {
        end_if_stalled(core, sockets, id);
    }
}

fn end_if_stalled<W: Wire>(core: &ServedCore, sockets: &mut Sockets<W>, id: usize)
    ensures ends { AllGoOn W.history core.now sockets.old core.now sockets.new }
{
    let may_have = sockets.may_have_stalled(id);
    write_again_if(core, sockets, id, may_have);
    sockets.note_later(id);
}

fn write_again_if<W: Wire>(core: &ServedCore, sockets: &mut Sockets<W>, id: usize, is_so: bool)
    ensures ends { AllGoOn W.history core.now sockets.old core.now sockets.new }
{
    if is_so {
        return write_again(core, sockets, id);
    }
}

// The client is written once more, as it may take something that the system didn't tell of before the clock was looked at. If it takes
// nothing still it is broken off.
fn write_again<W: Wire>(core: &ServedCore, sockets: &mut Sockets<W>, id: usize)
    ensures ends { AllGoOn W.history core.now sockets.old core.now sockets.new }
{
    let (is_more, _) = write_client(core, sockets, id);
    let is_broken = sockets.break_stalled(id);
    sockets.stalls.note_closed(is_broken);
    sockets.mark_ready_if(id, is_more || is_broken)
}

impl<W: Wire> Sockets<W> {
    // Whether more bytes than these are held for all clients, or some are and memory was refused since that was asked last.
    fn has_too_much(&mut self, most: usize) -> bool
        ensures ends { Stay W.history self.old self.new }
        ensures bounded { result ≡ false → held_by_all self.old.clients ≤ most }
        ensures clients { self.new.clients ≡ self.old.clients }
    {
        let is_any = self.clients.hold_more(0);
        let is_more = self.clients.hold_more(most);
        self.stalls.was_short(self.time, is_any) || is_more
    }

    // The client for which most bytes are held. There is none only where nobody is there.
    fn greatest(&self) -> Option<usize>
        ensures most { IfSome result (HasMost self.now.clients) }
        ensures none { result ≡ None → self.now.clients.all.items ≡ [] }
    {
        match self.greatest_with() {
            Some((id, _)) => Some(id),
            None => None,
        }
    }

    // The client for which most bytes are held, and how many. There is none only where nobody is there.
    fn greatest_with(&self) -> Option<(usize, usize)>
        ensures most { IfSome result (λ found. HasMost self.now.clients found.0) }
        ensures none { result ≡ None → self.now.clients.all.items ≡ [] }
    {
        let mut best = None;
        for id in 0..self.clients.len() {
            best = greater(best, id, self.clients.held(id));
        }
        best
    }

    // Of how many bytes of replies each client has its share until this is asked again is noted, by what is held for all now and how much may be. Where
    // that was scarce and is no longer, clients that wait for it can go on.
    fn note_share(&mut self, most: usize)
        ensures ends { Stay W.history self.old self.new }
        ensures share { self.new.stalls.share ≡ share_by most (held_by_all self.old.clients) self.new.links.settings.clients }
        ensures clients { self.new.clients ≡ self.old.clients }
    {
        let is_scarce = self.clients.hold_more(three_quarters(most));
        self.is_freed = self.is_freed || (self.stalls.is_scarce && !is_scarce);
        self.stalls.is_scarce = is_scarce;
        self.stalls.share = share_if(is_scarce, most, self.links.settings.clients);
    }

    /// A client was written. While much is held for all, those that wait for their share may go on by that.
    pub(crate) fn note_written(&mut self)
        ensures ends { Stay W.history self.old self.new }
    {
        self.is_freed = self.is_freed || self.stalls.is_scarce;
    }

    // The client is broken off, and no other.
    fn break_client(&mut self, id: usize)
        ensures ends { AllGoBreaking W.history id self.old self.new }
        ensures others { (other : ℕ) → other ≢ id → client_of self.new.clients other ≡ client_of self.old.clients other }
        ensures none { held_at self.new.clients id ≡ 0 }
        ensures places { length self.new.clients.all.items ≡ length self.old.clients.all.items }
    {
        match self.clients.get_mut(id) {
            Some(client) => client.break_off(Departure::MostHeld),
            None => {}
        }
    }

    // Whether the client has stalled, by what the system told. If it has, the system is asked by the next write.
    fn may_have_stalled(&mut self, id: usize) -> bool
        ensures ends { Stay W.history self.old self.new }
    {
        let since = self.stalls.since(id);
        let Some(client) = self.clients.get_mut(id) else {
            return false;
        };
        if !has_stalled(client, since, self.time, self.stalls.ms) {
            return false;
        }
        client.conn.writable = true;
        true
    }

    // If the client has stalled it is broken off: whether it has.
    fn break_stalled(&mut self, id: usize) -> bool
        ensures ends { AllGoBreaking W.history id self.old self.new }
        ensures only { OnlyStalled self.old.time self.old.stalls self.old.clients self.new.clients }
    {
        let since = self.stalls.since(id);
        let Some(client) = self.clients.get_mut(id) else {
            return false;
        };
        if !has_stalled(client, since, self.time, self.stalls.ms) {
            return false;
        }
        client.break_off(Departure::Stalled);
        true
    }

    // When the client will have stalled is noted, if it hasn't by now.
    fn note_later(&mut self, id: usize)
        ensures ends { Stay W.history self.old self.new }
    {
        self.stalls.note_later(id, self.time);
    }
}
