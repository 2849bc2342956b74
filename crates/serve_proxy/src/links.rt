//! The links to the servers, by their numbers: which of them are to be read and written, when they are late, and what there is to tell
//! of them. Nothing here knows the core.

ghost use Rattle.std.specs.Prelude.{◌≡◌, ◌↔◌, ℕ, IfSome, Bool, true, false, None, Some, [], ◌∷◌, ◌++◌, drop, take, length, IsTrue, IsSome, IfOk, IfErr, OnOk, OnErr, MatchOption, slice_get};
ghost use Rattle.serve_links.specs.declared.link.Link.{Link};
ghost use Rattle.serve_clients.specs.declared.clients.Clients.{Clients};
ghost use Rattle.serve_links.specs.Lateness.{IsConnectLateAt, LinkIsRead};
ghost use Rattle.serve_links.specs.Links.{calls_out};
ghost use Rattle.serve_links.specs.Epochs.{LinkIsQuiet};
ghost use Rattle.serve_proxy.specs.Epochs.{share_address, HaveEnded, IsNeeded, EpochIsInTurn, EpochsAreInTurn, Retires};
ghost use Rattle.serve_proxy.specs.Bringing.{HaveOneAt, BeginWith, RefusesServers};
ghost use Rattle.serve_proxy.specs.Emptying.{AddsEach, EmptiesAt};
ghost use Rattle.serve_proxy.specs.Limiting.{value_limits, limited_by};
ghost use Rattle.serve_proxy.specs.Unsent.{IsRefusedAt, IsHinderedAt, TakesCallsAt, WaitsTooLongAt};
ghost use Rattle.serve_wire.specs.Events.{time};
ghost use Rattle.serde_json.specs.View.{view};
ghost use Rattle.serve_links.specs.Story.{line_of, texts_of, LineIsForeign};
ghost use Rattle.serve_links.specs.Unsent.{IsRefused, IsHindered};
ghost use Rattle.serve_links.specs.Dialects.{awaits_flush};
ghost use Rattle.serve_proxy.specs.Ends.{link_lines, LinksTake, LinksGive, LineStands, LineTakes, AwaitsNothing, HoldsAwaited, HoldsAwaitedAt, IsOpenAt, AsksIn, AwaitsLateAt, AwaitsNoneAt, EndsGo, AddsLines};

use crate::clock::earlier;
use crate::limiting::limit_links;
use crate::texts::{is_over, share_address, text_at};
use core_accepted::LoadFault;
use gate_check::ReloadFault;
use mc_types::{Ask, Dialect};
use route_json::addresses::Servers;
use serde_json::Value;
use serve_links::calls::SentCall;
use serve_links::{
    Cause, KEPT_ROOM, Lateness, Link, LinkLimits, LinkNews, NotSent, Opening, Placed, Refusal,
    Settings,
};
use serve_wire::{Ready, Wire};
use std::alloc::{AllocError, Global};
use std::net::Net;

// What the system told of a link's connection, if it has one: whether it stands by that, which may be news.
#[tactic(auto, using(crate::proofs::Staying::kept_line))]
fn note_told(link: &mut Link, told: Ready) -> Option<bool>
    ensures line { line_of link.new ≡ line_of link.old }
{
    let Some(conn) = link.conn.as_mut() else {
        return if link.note_draining(told) {
            Some(false)
        } else {
            None
        };
    };
    conn.note(told);
    Some(told.writes && !told.closes && link.stand())
}

// Whether something is to be sent over its connection, if it has one.
fn has_unsent(link: &Link) -> bool {
    match &link.conn {
        Some(conn) => !conn.is_all_sent(),
        None => false,
    }
}

// The system is asked by now whether its connection stands: whether it does, which may be news.
#[tactic(auto, using(crate::proofs::Staying::kept_line))]
fn look_at<W: Wire>(link: &mut Link, wire: &W, now: u64) -> bool
    ensures line { line_of link.new ≡ line_of link.old }
{
    link.look_again(wire, now)
}

// A connection of the link is begun. Where it can't be, its calls fail for a while.
fn begin<W: Wire, N: Net>(
    link: &mut Link,
    alloc: Global,
    net: &N,
    wire: &mut W,
    at: usize,
    time: u64,
    settings: &Settings,
) -> Opening
    requires { link.old.conn ≡ None }
    ensures stands { LineStands at (W.history wire.old) (W.history wire.new) link.old link.new }
    ensures conn { result ≡ Opening.Begun → IsSome link.new.conn }
    ensures none { (result ≡ Opening.Begun → ⊥) → link.new.conn ≡ None }
{
    match link.connect(alloc, net, wire, at, settings.server_dialect) {
        Opening::Failed => {
            let _ = link.close(Cause::Unreachable, time);
            Opening::Failed
        }
        opening => opening,
    }
}

// Whether nothing is awaited over its connection.
fn awaits_none(link: &Link) -> bool
    ensures { IsTrue result ↔ AwaitsNothing link.now }
{
    let is_late = link.awaits_late();
    if is_late {
        return false;
    }
    match link.awaits_dialect {
        Some(_) => false,
        None => link.calls.is_empty(),
    }
}

// Whether bytes are held of its connection though nothing is awaited over it.
fn holds_unasked(link: &Link) -> bool
    ensures none { result ≡ false → HoldsAwaited link.now }
    ensures foreign { result ≡ true → LineIsForeign link.now }
{
    match &link.conn {
        Some(conn) => awaits_none(link) && !conn.held.is_empty(),
        None => false,
    }
}

// Why no call is written to the link, if none is: it has no connection, late answers are awaited, the server is still to empty itself, or bytes are held that no call asked for.
fn barred(link: &Link) -> Option<Refusal>
    ensures refused { IfSome result (λ why. (since now : ℕ) → IsRefused why since now link.now) }
    ensures free { result ≡ None → IsSome link.now.conn × (link.now.late.items ≡ []) × (awaits_flush link.now.awaits_dialect ≡ false) × HoldsAwaited link.now }
{
    if link.conn.is_none() {
        return Some(Refusal::NoConnection);
    }
    if link.awaits_late() {
        return Some(Refusal::ServerLate);
    }
    if link.awaits_flush() {
        return Some(Refusal::Emptying);
    }
    if holds_unasked(link) {
        return Some(Refusal::ForeignCame);
    }
    None
}

// As many calls wait for the link as there is always room for.
fn crowded(call: SentCall) -> NotSent
    ensures { result ≡ record { call = call; why = Refusal.ManyWait } }
{
    NotSent {
        call,
        why: Refusal::ManyWait,
    }
}

// The call waits until the link takes more, or is given back.
fn wait_for(link: &mut Link, call: SentCall) -> Result<(), NotSent>
    ensures ok { OnOk result (LineTakes call link.old link.new) }
    ensures err { IfErr result (λ it. (it.call ≡ call) × (line_of link.new ≡ line_of link.old)) }
    ensures why { IfErr result (λ it. (since at : ℕ) → IsHindered it.why since at link.new) }
{
    match link.let_wait(call) {
        Ok(()) => Ok(()),
        Err(call) => Err(crowded(call)),
    }
}

// The call, for which memory was refused, waits before all others, or is given back.
fn wait_first(link: &mut Link, call: SentCall) -> Result<Placed, NotSent>
    ensures rest { link.new ≡ record link.old { waiting = link.new.waiting } }
    ensures ok { OnOk result (link.new.waiting ≡ call ∷ link.old.waiting) }
    ensures err { IfErr result (λ it. (it.call ≡ call) × (line_of link.new ≡ line_of link.old)) }
    ensures why { IfErr result (λ it. (since at : ℕ) → IsHindered it.why since at link.new) }
{
    match link.wait_first(call) {
        Ok(()) => Ok(Placed::Waits),
        Err(call) => Err(crowded(call)),
    }
}

// The call is written to the link, which takes calls; or it waits for that, where memory is refused for it, or is given back.
fn ask_over(link: &mut Link, call: SentCall, now: u64) -> Result<Placed, NotSent>
    requires late { link.old.late.items ≡ [] }
    requires emptied { awaits_flush link.old.awaits_dialect ≡ false }
    ensures ok { OnOk result (LineTakes call link.old link.new) }
    ensures err { IfErr result (λ it. (it.call ≡ call) × (line_of link.new ≡ line_of link.old)) }
    ensures why { IfErr result (λ it. (since at : ℕ) → IsHindered it.why since at link.new) }
{
    let Some(conn) = link.conn.as_mut() else {
        return Err(NotSent {
            call,
            why: Refusal::NoConnection,
        });
    };
    match link.calls.begin(call, now, &mut conn.unsent) {
        Ok(()) => Ok(Placed::Sent),
        Err(call) => wait_first(link, call),
    }
}

// The call is written to the link, or waits for that, or is given back with why it isn't sent. `now` is in microseconds.
fn write_to(link: &mut Link, call: SentCall, now: u64) -> Result<Placed, NotSent>
    ensures ok { OnOk result (LineTakes call link.old link.new) }
    ensures awaited { OnOk result (HoldsAwaited link.old) }
    ensures err { IfErr result (λ it. (it.call ≡ call) × (line_of link.new ≡ line_of link.old)) }
    ensures why { IfErr result (λ it. (since at : ℕ) → IsHindered it.why since at link.new) }
{
    match barred(link) {
        Some(why) => Err(NotSent { call, why }),
        None => ask_over(link, call, now),
    }
}

// When it is to be looked at if nothing comes: it fails then, or a call may have waited too long for it, by whose clock at most so much passes between two looks.
fn limit_of(link: &Link, settings: &Settings, looked: u64) -> Option<u64> {
    let waits = match link.waiting_limit() {
        Some(limit) => Some(limit.max(looked.saturating_add(most_passed(settings)))),
        None => None,
    };
    earlier(link.time_limit(settings), waits)
}

// How much passes at most by the clock of calls that wait between two looks, in milliseconds.
fn most_passed(settings: &Settings) -> u64 {
    (settings.call_ms / 8).saturating_add(1)
}

// Whether the link is to the server of this number.
fn is_to(link: &Link, servers: &Servers, at: usize) -> bool
    ensures { IsTrue result ↔ (slice_get servers.now at ≡ Some link.now.text.items) }
{
    match text_at(servers, at) {
        Some(text) => link.text.as_slice() == text.as_bytes(),
        None => false,
    }
}

// The link gives back the room that it doesn't need now. Whether it has much that it needs.
fn give_back_line(link: &mut Link, alloc: Global) -> bool
    ensures line { line_of link.new ≡ line_of link.old }
{
    link.calls.let_go();
    match link.conn.as_mut() {
        Some(conn) => {
            conn.give_back(alloc, KEPT_ROOM);
            conn.has_room_above(KEPT_ROOM)
        }
        None => false,
    }
}

// The link's number comes to the end of these. Where memory is refused for that, one is missing there.
fn list(ids: &mut Vec<usize>, at: usize, is_short: &mut bool) {
    if ids.push(at).is_err() {
        *is_short = true;
    }
}

/// The links, and the lists of those that are marked.
#[derive(Drop)]
pub struct Links {
    alloc: Global,
    pub settings: Settings,
    pub all: Vec<Link>,
    /// Those that are to be read.
    pub ready: Vec<usize>,
    pub with_output: Vec<usize>,
    /// Whether one may be missing in a list, as memory was refused for that.
    pub is_short: bool,
    /// Until then no link is late, so that only those that are touched are looked at; `None` where none can be.
    pub late_from: Option<u64>,
    /// Whether there may be something to tell of a link.
    pub has_news: bool,
    // Whether servers that get a link from now on are emptied before their first call.
    flushes_new: bool,
    // What the clock showed when calls that wait were looked at last, and their own clock, which goes on by little where much time has passed since: then the process stood still.
    looked: u64,
    pace: u64,
}

impl Links {
    /// One link to each server, without a connection. None of these servers is emptied.
    pub fn to(alloc: Global, servers: &Servers, settings: Settings) -> Result<Links, AllocError>
        ensures kept { IfOk result (λ links. AddsEach false [] links.all.items) }
        ensures texts { IfOk result (λ links. texts_of links.all.items ≡ servers.now) }
        ensures down { IfOk result (λ links. AddsLines [] links.all.items) }
    {
        let mut links = Links::none(alloc, settings);
        links.add(servers)?;
        links.flushes_new = settings.flushes_new;
        Ok(links)
    }

    fn none(alloc: Global, settings: Settings) -> Links
        ensures all { result.all.items ≡ [] }
        ensures kept { result.flushes_new ≡ false }
    {
        Links {
            alloc,
            settings,
            all: Vec::new(alloc),
            ready: Vec::new(alloc),
            with_output: Vec::new(alloc),
            is_short: false,
            late_from: None,
            has_news: false,
            flushes_new: false,
            looked: 0,
            pace: 0,
        }
    }

    /// The clock shows this.
    pub fn look(&mut self, time: u64)
        ensures lines { link_lines self.new.all.items ≡ link_lines self.old.all.items }
    {
        let passed = time.saturating_sub(self.looked);
        self.looked = time;
        self.pace = self
            .pace
            .saturating_add(passed.min(most_passed(&self.settings)));
    }

    /// What the clock of calls that wait shows.
    pub fn pace(&self) -> u64 {
        self.pace
    }

    /// Servers that have no link yet get one, without a connection. They are emptied before their first call, where that is set.
    pub fn add(&mut self, servers: &Servers) -> Result<(), AllocError>
        ensures emptied { AddsEach self.old.flushes_new self.old.all.items self.new.all.items }
        ensures set { self.new.flushes_new ≡ self.old.flushes_new }
        ensures texts { OnOk result (texts_of self.new.all.items ≡ texts_of self.old.all.items ++ drop (length self.old.all.items) servers.now) }
        ensures adds { AddsLines self.old.all.items self.new.all.items }
    {
        for at in self.all.len()..servers.len() {
            if let Some(text) = text_at(servers, at) {
                self.add_one(text)?;
            }
        }
        Ok(())
    }

    // Whether there is a link of this number, and it is to the server of this number.
    fn is_of(&self, servers: &Servers, at: usize) -> bool
        ensures { IsTrue result ↔ HaveOneAt at (texts_of self.now.all.items) servers.now }
    {
        match self.all.get(at) {
            Some(link) => is_to(link, servers, at),
            None => false,
        }
    }

    // Whether there is a link to each of these servers, in their order, and to no others.
    fn are_of(&self, servers: &Servers) -> bool
        ensures { IsTrue result ↔ (texts_of self.now.all.items ≡ servers.now) }
    {
        if self.all.len() != servers.len() {
            return false;
        }
        for at in 0..self.all.len() {
            if !self.is_of(servers, at) {
                return false;
            }
        }
        true
    }

    /// Only the first so many links are left.
    pub fn go_back(&mut self, before: usize)
        ensures { self.new.all.items ≡ take before self.old.all.items }
    {
        self.all.truncate(before);
    }

    /// From now on there is a link to each of these servers, in their order, and to no others: those that have none yet get one, as [`Links::add`] says.
    ///
    /// After a fault links are as they were. `OtherServers` comes where the first of these aren't the servers that have links, `NoMemory` where there was no memory for more links:
    /// that no clause can say, so `NoMemory` may come for any servers.
    #[tactic(auto, using(crate::proofs::Growing::gone_back))]
    pub fn bring(&mut self, servers: &Servers) -> Result<(), LoadFault>
        ensures begins { OnOk result (BeginWith (texts_of self.old.all.items) servers.now) }
        ensures faults { IfErr result (λ fault. RefusesServers (texts_of self.old.all.items) servers.now fault) }
        ensures texts { OnOk result (texts_of self.new.all.items ≡ servers.now) }
        ensures adds { OnOk result (AddsLines self.old.all.items self.new.all.items) }
        ensures kept { OnErr result (link_lines self.new.all.items ≡ link_lines self.old.all.items) }
    {
        let before = self.all.len();
        if self.add(servers).is_err() {
            self.go_back(before);
            return Err(LoadFault::Refused(ReloadFault::NoMemory));
        }
        if !self.are_of(servers) {
            self.go_back(before);
            return Err(LoadFault::OtherServers);
        }
        Ok(())
    }

    // The server whose address this text names gets one, at the end.
    #[tactic(auto, using(crate::proofs::LinkTexts::added))]
    fn add_one(&mut self, text: &str) -> Result<(), AllocError>
        ensures emptied { AddsEach self.old.flushes_new self.old.all.items self.new.all.items }
        ensures set { self.new.flushes_new ≡ self.old.flushes_new }
        ensures texts { OnOk result (texts_of self.new.all.items ≡ texts_of self.old.all.items ++ text.now ∷ []) }
        ensures adds { AddsLines self.old.all.items self.new.all.items }
    {
        let limits = self.settings.link_limits();
        let link = Link::new(self.alloc, text.as_bytes(), self.flushes_new, limits)?;
        self.all.push(link)?;
        Ok(())
    }

    /// The server of this number is emptied before its first call.
    pub fn empty_first(&mut self, at: usize)
        ensures emptied { EmptiesAt at self.old.all.items self.new.all.items }
        ensures lines { link_lines self.new.all.items ≡ link_lines self.old.all.items }
    {
        if let Some(link) = self.all.get_mut(at) {
            link.empty_first();
        }
    }

    /// Each server has the limits that the value of a configuration says of it, and these where it says none, from now on.
    pub fn limit(&mut self, usual: LinkLimits, said: &Value)
        ensures { self.new.all.items ≡ limited_by (value_limits usual (view said.now)) self.old.all.items }
    {
        limit_links(&mut self.all, usual, said);
        self.note_limits()
    }

    /// How many milliseconds a call to this server may take.
    pub fn call_ms(&self, at: usize) -> u64 {
        match self.all.get(at) {
            Some(link) => link.limits.call_ms,
            None => self.settings.call_ms,
        }
    }

    // No call goes out to this server from now on, or some may again.
    fn retire(&mut self, at: usize, is_retired: bool)
        ensures retired { Retires at is_retired self.old.all.items self.new.all.items }
        ensures lines { link_lines self.new.all.items ≡ link_lines self.old.all.items }
    {
        if let Some(link) = self.all.get_mut(at) {
            link.retire(is_retired);
        }
    }

    // Whether no call is out at this server or waits for it, and none is late there.
    fn is_quiet(&self, at: usize) -> bool
        ensures quiet { result ≡ true → (link : Link) → slice_get self.now.all.items at ≡ Some link → LinkIsQuiet link }
        ensures busy { result ≡ false → (link : Link) → slice_get self.now.all.items at ≡ Some link → LinkIsQuiet link → ⊥ }
    {
        match self.all.get(at) {
            Some(link) => link.is_quiet(),
            None => true,
        }
    }

    // Whether the first of these servers isn't at the address of the other, or has no calls any more.
    fn has_left(&self, servers: &Servers, earlier: usize, at: usize) -> bool
        ensures { result ≡ true → share_address servers.now earlier at ≡ true → (link : Link) → slice_get self.now.all.items earlier ≡ Some link → LinkIsQuiet link }
    {
        !share_address(servers, earlier, at) || self.is_quiet(earlier)
    }

    // Whether earlier servers at the address of this one have no calls any more.
    fn have_ended(&self, servers: &Servers, at: usize) -> bool
        ensures { result ≡ true → HaveEnded servers.now at self.now.all.items }
    {
        for earlier in 0..at {
            if !self.has_left(servers, earlier, at) {
                return false;
            }
        }
        true
    }

    // Whether a later server has the address of this one, which has no calls any more.
    fn is_done(&self, servers: &Servers, at: usize) -> bool
        ensures { result ≡ false → (link : Link) → slice_get self.now.all.items at ≡ Some link → IsNeeded servers.now at link }
    {
        is_over(servers, at) && self.is_quiet(at)
    }

    // Whether calls may go to this server: no later one has its address, or it has calls still, and earlier ones there have none any more.
    fn is_in_turn(&self, servers: &Servers, at: usize) -> bool
        ensures { result ≡ true → ((link : Link) → slice_get self.now.all.items at ≡ Some link → IsNeeded servers.now at link) × HaveEnded servers.now at self.now.all.items }
    {
        !self.is_done(servers, at) && self.have_ended(servers, at)
    }

    // Whether this server isn't to wait for earlier ones at its address: they have no calls any more, or a later one has it.
    fn waits_for_none(&self, servers: &Servers, at: usize) -> bool {
        is_over(servers, at) || self.have_ended(servers, at)
    }

    // Calls of this server go out where they may.
    fn keep_epoch(&mut self, servers: &Servers, at: usize)
        ensures turn { EpochIsInTurn servers.now self.new.all.items at }
        ensures retired { (retired : Bool) × Retires at retired self.old.all.items self.new.all.items }
        ensures lines { link_lines self.new.all.items ≡ link_lines self.old.all.items }
    {
        let is_in_turn = self.is_in_turn(servers, at);
        self.retire(at, !is_in_turn);
    }

    /// Where servers have epochs: calls go to each once earlier ones at its address have none any more, and where a later one has its address until it has none any more itself. All others
    /// fail: at once where there is no connection, else when they have waited. Whether none is waited for.
    pub fn keep_epochs(&mut self, servers: &Servers) -> bool
        ensures turns { EpochsAreInTurn servers.now self.new.all.items }
        ensures lines { link_lines self.new.all.items ≡ link_lines self.old.all.items }
    {
        if !servers.have_epochs() {
            return true;
        }
        let mut have_begun = true;
        for at in 0..servers.len() {
            self.keep_epoch(servers, at);
            let waits_for_none = self.waits_for_none(servers, at);
            have_begun = waits_for_none && have_begun;
        }
        have_begun
    }

    /// Whether so many calls are out: sent, or waiting to be sent.
    pub fn are_out(&self, calls: usize) -> bool
        ensures { IsTrue result ↔ (calls_out self.now.all.items ≡ calls) }
    {
        let mut left = calls;
        for link in self.all.as_slice() {
            match link.without_calls(left) {
                Some(rest) => left = rest,
                None => return false,
            }
        }
        left == 0
    }

    /// What the system told of a link.
    pub fn note(&mut self, at: usize, told: Ready)
        ensures lines { link_lines self.new.all.items ≡ link_lines self.old.all.items }
    {
        let Some(link) = self.all.get_mut(at) else {
            return;
        };
        let Some(is_news) = note_told(link, told) else {
            return;
        };
        self.note_news(at, is_news);
        self.mark_told(at, told)
    }

    /// There may be news of the link of this number, where that is so.
    pub fn note_news(&mut self, at: usize, is_news: bool)
        ensures lines { link_lines self.new.all.items ≡ link_lines self.old.all.items }
    {
        if is_news {
            self.has_stood(at);
        }
    }

    // The link is to be read and written, where that was told. (the system also tells that a connection takes more whenever something comes over it)
    fn mark_told(&mut self, at: usize, told: Ready)
        ensures lines { link_lines self.new.all.items ≡ link_lines self.old.all.items }
    {
        if told.reads {
            self.mark_ready(at);
        }
        if told.writes && self.may_write(at) {
            self.mark_output(at);
        }
    }

    // Whether something is to be sent over the link of this number, or calls wait for it.
    fn may_write(&self, at: usize) -> bool {
        match self.all.get(at) {
            Some(link) => has_unsent(link) || link.waiting() > 0,
            None => false,
        }
    }

    /// The link of this number is to be read.
    pub fn mark_ready(&mut self, at: usize)
        ensures lines { link_lines self.new.all.items ≡ link_lines self.old.all.items }
    {
        if let Some(link) = self.all.get_mut(at) {
            if !link.is_ready {
                link.is_ready = true;
                list(&mut self.ready, at, &mut self.is_short);
            }
        }
    }

    /// The link of this number is marked as one to be read no longer.
    pub fn end_ready(&mut self, at: usize)
        ensures lines { link_lines self.new.all.items ≡ link_lines self.old.all.items }
    {
        if let Some(link) = self.all.get_mut(at) {
            link.is_ready = false;
        }
    }

    /// The link of this number has something to send.
    pub fn mark_output(&mut self, at: usize)
        ensures lines { link_lines self.new.all.items ≡ link_lines self.old.all.items }
    {
        if let Some(link) = self.all.get_mut(at) {
            if !link.has_output {
                link.has_output = true;
                list(&mut self.with_output, at, &mut self.is_short);
            }
        }
    }

    /// Where one may be missing in a list, all that are marked are listed anew, as far as memory is there for that.
    pub fn list_again(&mut self)
        ensures lines { link_lines self.new.all.items ≡ link_lines self.old.all.items }
    {
        if !self.is_short {
            return;
        }
        self.is_short = false;
        self.ready.clear();
        self.with_output.clear();
        for at in 0..self.all.len() {
            self.list_one(at);
        }
    }

    // The link of this number is listed where it is marked.
    fn list_one(&mut self, at: usize)
        ensures { self.new.all ≡ self.old.all }
    {
        let Some(link) = self.all.get(at) else {
            return;
        };
        let (is_ready, has_output) = (link.is_ready, link.has_output);
        if is_ready {
            list(&mut self.ready, at, &mut self.is_short);
        }
        if has_output {
            list(&mut self.with_output, at, &mut self.is_short);
        }
    }

    /// The link of this number is marked as one that has something to send no longer.
    pub fn end_output(&mut self, at: usize)
        ensures lines { link_lines self.new.all.items ≡ link_lines self.old.all.items }
    {
        if let Some(link) = self.all.get_mut(at) {
            link.has_output = false;
        }
    }

    /// Whether more may have come over the link of this number than was read.
    pub fn may_have_more(&self, at: usize) -> bool {
        match self.all.get(at) {
            Some(link) => link.may_have_more(),
            None => false,
        }
    }

    /// Whether nothing more is to be read of the link of this number now.
    pub fn is_read(&self, at: usize) -> bool {
        match self.all.get(at) {
            Some(link) => link.is_read(),
            None => true,
        }
    }

    /// Whether what the link holds is to be read again, as memory was refused for that.
    pub fn has_unread(&self, at: usize) -> bool {
        match self.all.get(at) {
            Some(link) => link.has_unread,
            None => false,
        }
    }

    /// The link of this number is to be read again, where that may give more.
    pub fn mark_rest(&mut self, at: usize)
        ensures lines { link_lines self.new.all.items ≡ link_lines self.old.all.items }
    {
        if self.may_have_more(at) || self.has_unread(at) {
            self.mark_ready(at);
        }
    }

    /// The link's connection stands, or its server answers, which may be news.
    pub fn has_stood(&mut self, at: usize)
        ensures lines { link_lines self.new.all.items ≡ link_lines self.old.all.items }
    {
        self.has_news = true;
        self.note_limit(at);
    }

    /// The system is asked by now whether the link's connection stands, though it told of nothing: whether it does, which may be news, and it
    /// is to be read and written. Where it stood before, it is to be read at once.
    pub fn look_again<W: Wire>(&mut self, wire: &W, at: usize, now: u64) -> bool
        ensures lines { link_lines self.new.all.items ≡ link_lines self.old.all.items }
    {
        let Some(link) = self.all.get_mut(at) else {
            return false;
        };
        if !look_at(link, wire, now) {
            return false;
        }
        self.has_stood(at);
        self.mark_output(at);
        self.mark_ready(at);
        true
    }

    /// A call may go out on the link, which has a connection, or one was begun; or why it isn't sent.
    pub fn takes_call<W: Wire, N: Net>(
        &mut self,
        net: &N,
        wire: &mut W,
        at: usize,
    ) -> Result<(), Refusal>
        ensures ends { (clients : Clients) → EndsGo (W.history wire.old) (W.history wire.new) clients clients self.old.all.items self.new.all.items }
        ensures there { OnOk result (IsOpenAt at self.new.all.items) }
        ensures free { OnOk result (TakesCallsAt at (time (W.history wire.old)) self.old.all.items) }
        ensures refused { IfErr result (λ why. (since : ℕ) → IsRefusedAt why at since (time (W.history wire.new)) self.new.all.items) }
    {
        let now = wire.last_millis();
        let Some(link) = self.all.get_mut(at) else {
            return Err(Refusal::NoConnection);
        };
        let refusal = link.refusal(now);
        if let Some(why) = refusal {
            return Err(why);
        }
        if link.conn.is_some() {
            return Ok(());
        }
        match begin(link, self.alloc, net, wire, at, now, &self.settings) {
            Opening::Begun => {
                self.note_limit(at);
                Ok(())
            }
            Opening::NoAddress | Opening::NoMemory => Err(Refusal::NoConnection),
            Opening::Failed => {
                self.has_news = true;
                Err(Refusal::NoConnection)
            }
        }
    }

    /// In which dialect its server is asked from now on.
    pub fn dialect_of(&self, at: usize) -> Dialect
        ensures { AsksIn result at self.now.all.items }
    {
        match self.all.get(at) {
            Some(link) => link.dialect,
            None => Dialect::Classic,
        }
    }

    /// How many bytes the answer to this call is expected to take, where it is bulk, for a client that expects so many; else 0.
    pub fn bulk_of(&self, at: usize, ask: &Ask, expects: Option<usize>) -> usize {
        match self.all.get(at) {
            Some(link) => link.calls.bulk_of(ask, expects),
            None => 0,
        }
    }

    /// Whether a further call, of whose answer so many bytes are expected, has to wait until the server takes more.
    pub fn is_full(&self, at: usize, bulk: usize) -> bool {
        match self.all.get(at) {
            Some(link) => link.is_full(self.settings.places, bulk),
            None => false,
        }
    }

    /// The call waits until its server takes more, or is given back with why it isn't sent.
    pub fn let_wait(&mut self, at: usize, call: SentCall) -> Result<(), NotSent>
        ensures ok { OnOk result (LinksTake at call self.old.all.items self.new.all.items) }
        ensures err { IfErr result (λ it. (it.call ≡ call) × (link_lines self.new.all.items ≡ link_lines self.old.all.items)) }
        ensures why { IfErr result (λ it. (since now : ℕ) → IsHinderedAt it.why at since now self.new.all.items) }
    {
        match self.all.get_mut(at) {
            Some(link) => wait_for(link, call),
            None => Err(NotSent {
                call,
                why: Refusal::NoConnection,
            }),
        }
    }

    /// How many calls wait for it.
    pub fn waiting(&self, at: usize) -> usize {
        match self.all.get(at) {
            Some(link) => link.waiting(),
            None => 0,
        }
    }

    /// So many calls of the link of this number have failed that never went out.
    pub fn note_unsent(&mut self, at: usize, count: usize)
        ensures lines { link_lines self.new.all.items ≡ link_lines self.old.all.items }
    {
        if let Some(link) = self.all.get_mut(at) {
            link.tally.note_unsent(count);
        }
    }

    /// Of the calls that wait for it the first that may go out.
    pub fn next_waiting(&mut self, at: usize, clients: &serve_clients::Clients) -> Option<SentCall>
        ensures call { MatchOption result (link_lines self.new.all.items ≡ link_lines self.old.all.items) (λ call. LinksGive at call self.old.all.items self.new.all.items) }
    {
        let places = self.settings.places;
        self.all.get_mut(at)?.next_to_go(places, clients)
    }

    /// The first of the calls that wait for it, if that has waited too long to go out when the clock shows `now`, or none goes out for now; and why.
    pub fn next_too_late(&mut self, at: usize, now: u64) -> Option<NotSent>
        ensures call { MatchOption result (link_lines self.new.all.items ≡ link_lines self.old.all.items) (λ it. LinksGive at it.call self.old.all.items self.new.all.items) }
        ensures refused { IfSome result (λ it. IsRefusedAt it.why at it.call.since now self.new.all.items) }
        ensures late { IsSome result → WaitsTooLongAt at self.old.pace self.old.all.items }
    {
        let pace = self.pace;
        self.all.get_mut(at)?.next_too_late(pace, now)
    }

    /// The call is written to the link, or waits before all others where memory is refused for that, or is given back with why it isn't sent. `now` is in
    /// microseconds.
    pub fn write_call(&mut self, at: usize, call: SentCall, now: u64) -> Result<Placed, NotSent>
        ensures ok { OnOk result (LinksTake at call self.old.all.items self.new.all.items) }
        ensures awaited { OnOk result (HoldsAwaitedAt at self.old.all.items) }
        ensures err { IfErr result (λ it. (it.call ≡ call) × (link_lines self.new.all.items ≡ link_lines self.old.all.items)) }
        ensures why { IfErr result (λ it. (since clock : ℕ) → IsHinderedAt it.why at since clock self.new.all.items) }
    {
        match self.all.get_mut(at) {
            Some(link) => write_to(link, call, now),
            None => Err(NotSent {
                call,
                why: Refusal::NoConnection,
            }),
        }
    }

    /// Whether answers are still to come of calls of the link that were late.
    pub fn is_late(&self, at: usize) -> bool
        ensures late { result ≡ true → AwaitsLateAt at self.now.all.items }
        ensures none { result ≡ false → AwaitsNoneAt at self.now.all.items }
    {
        match self.all.get(at) {
            Some(link) => link.is_late(),
            None => false,
        }
    }

    /// Whether the link's connection was begun longer ago than one may take to stand, and doesn't.
    pub fn is_connect_late(&self, at: usize, now: u64) -> bool
        ensures { result ≡ true → IsConnectLateAt at now self.now.all.items }
    {
        match self.all.get(at) {
            Some(link) => link.is_connect_late(now),
            None => false,
        }
    }

    /// Whether the link has waited for something too long by now, so far as it was read.
    pub fn is_overdue(&self, at: usize, now: u64) -> bool {
        match self.all.get(at) {
            Some(link) => link.is_overdue(now, &self.settings),
            None => false,
        }
    }

    /// What the link has waited for too long by now. It isn't late before all that has come over it by now was read for which memory was there.
    pub fn lateness(&self, at: usize, now: u64) -> Option<Lateness>
        ensures read { IsSome result → LinkIsRead at now self.now.all.items }
    {
        match self.all.get(at) {
            Some(link) => link.lateness(now, &self.settings),
            None => None,
        }
    }

    /// The link may be late before the others, by what happened to it: it was opened, or stands, or calls went out.
    pub fn note_limit(&mut self, at: usize)
        ensures all { self.new.all ≡ self.old.all }
        ensures lines { link_lines self.new.all.items ≡ link_lines self.old.all.items }
    {
        if let Some(link) = self.all.get(at) {
            let limit = limit_of(link, &self.settings, self.looked);
            self.late_from = earlier(self.late_from, limit);
        }
    }

    /// Whether one may be late by now.
    pub fn may_be_late(&self, time: u64) -> bool {
        match self.late_from {
            Some(limit) => limit < time,
            None => false,
        }
    }

    /// All were looked at: none is late before the first of them is.
    pub fn note_limits(&mut self)
        ensures all { self.new.all ≡ self.old.all }
        ensures lines { link_lines self.new.all.items ≡ link_lines self.old.all.items }
    {
        let mut first = None;
        for link in self.all.as_slice() {
            first = earlier(first, limit_of(link, &self.settings, self.looked));
        }
        self.late_from = first;
    }

    // When the first news of a link may be told.
    fn news_limit(&self) -> Option<u64> {
        let mut first = None;
        for link in self.all.as_slice() {
            first = earlier(first, link.news_limit());
        }
        first
    }

    /// When one may be late, or news may be told.
    pub fn next_limit(&self) -> Option<u64> {
        if self.has_news {
            return earlier(self.late_from, self.news_limit());
        }
        self.late_from
    }

    /// What happened to a link, and its server's number, if that may be told by now.
    pub fn next_news(&mut self, time: u64) -> Option<(usize, LinkNews)>
        ensures lines { link_lines self.new.all.items ≡ link_lines self.old.all.items }
    {
        if !self.has_news {
            return None;
        }
        for at in 0..self.all.len() {
            if let Some(news) = self.take_news(at, time) {
                return Some((at, news));
            }
        }
        self.has_news = self.news_limit().is_some();
        None
    }

    // What happened to this link, if that may be told by now.
    fn take_news(&mut self, at: usize, time: u64) -> Option<LinkNews>
        ensures lines { link_lines self.new.all.items ≡ link_lines self.old.all.items }
    {
        self.all.get_mut(at)?.take_news(time)
    }

    /// The links give back the room that they don't need now. Whether one has much that it needs.
    pub fn give_back(&mut self) -> bool
        ensures lines { link_lines self.new.all.items ≡ link_lines self.old.all.items }
    {
        let mut has_room = false;
        for at in 0..self.all.len() {
            has_room = self.give_back_at(at) || has_room;
        }
        has_room
    }

    // The link of this number gives back the room that it doesn't need now. Whether it has much that it needs.
    fn give_back_at(&mut self, at: usize) -> bool
        ensures lines { link_lines self.new.all.items ≡ link_lines self.old.all.items }
    {
        match self.all.get_mut(at) {
            Some(link) => give_back_line(link, self.alloc),
            None => false,
        }
    }
}
