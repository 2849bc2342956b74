//! One server's link: its connection, if it has one, and the calls that are out.

ghost use Rattle.std.specs.Prelude.{◌≡◌, ℕ, ◌≢◌, ◌⊎◌, not, true, IfSome, IsSome, ◌+◌, ◌<◌, ◌≤◌, ◌++◌, false, ◌∷◌, [], None, length, MatchOption, IfOk, IfErr, OnOk, OnErr, option_map};
ghost use Rattle.mc_types.specs.declared.ask.Dialect.TheVariants.{Classic};
ghost use Rattle.serve_links.specs.Links.{IsDown, CallIsTaken, least_waiting, vain_cause};
ghost use Rattle.serve_links.specs.Calls.{stores_first};
ghost use Rattle.serve_links.specs.Lateness.{HasLate, awaits_store, AwaitsLate, IsUnready, IsConnectLate, IsReadBy, may_give, lacks_memory};
ghost use Rattle.wire_parts.specs.Sending.{bytes_of};
ghost use Rattle.serve_links.specs.Dialects.{awaits_flush};
ghost use Rattle.serve_links.specs.Talks.{HasWaited};
ghost use Rattle.serve_links.specs.Unsent.{IsStoreLate, IsServerLate, IsHeld, IsLeftAlone, HoldsBack, TakesCalls, WaitsTooLong, IsRefused, FirstIs};
ghost use Rattle.serve_links.specs.Epochs.{is_retired, with_retired, LinkIsQuiet};
ghost use Rattle.serve_links.specs.Lines.{dialect_asked, flush_asked, first_asked_of, asks_dialect, awaits_first, first_dialect, greeting_of, KeepsLines, HasNewEnd, OpensLink, Learns, ended_by_read, DrainsOne, DrainsBy};
ghost use Rattle.serve_links.specs.Story.{said_asks, line_of, LineIsForeign};
ghost use Rattle.serve_links.specs.Shut.{conn_of};

use crate::calls::{LateCall, LinkCalls, SentCall};
use crate::greeting::{read_greeting, write_flush};
use crate::news::{Cause, LinkNews};
use crate::refusal::{NotSent, Refusal};
use crate::settings::{Greeting, LinkLimits, ServerDialect, Settings};
use crate::tally::LinkTally;
use crate::waiting::WaitLine;
use mc_types::Dialect;
use serve_clients::Clients;
use serve_wire::conn::{Conn, Got, Limits};
use serve_wire::{Connected, Ready, Wire};
use std::alloc::{AllocError, Global};
use std::collections::VecDeque;
use std::net::Net;
use wire_stream::meta_gets::{DialectRead, write_noop};

/// Where so many bytes are held of a connection, in which no whole answer stands, it is given up: an answer is shorter.
pub const MOST_HELD: usize = 4_194_304;

// No further call goes out while so much is to be sent.
const LIMITS: Limits = Limits {
    held: MOST_HELD,
    unsent: 1_048_576,
};

// One read has room for so many bytes, besides what is missing of an answer with large data: for sixteen answers of 4 KiB with their lines, so that
// those to one client mostly come whole.
const LINK_READ: usize = 73_728;

// One read has room for so many bytes where the read before filled its room: for the answers to two such clients.
const LONG_READ: usize = 147_456;

// One read has room for so many bytes where what comes is thrown away.
const DRAIN_READ: usize = 16_384;

// Of each link news are told once in so many milliseconds at most.
const NEWS_MS: u64 = 1_000;

// Why a connection that didn't stand yet failed.
fn unconnected(cause: Cause) -> Cause {
    match cause {
        Cause::Closed | Cause::Broken => Cause::Unreachable,
        other => other,
    }
}

// In which dialect the first calls go out.
fn first_dialect(dialect: ServerDialect) -> Dialect
    ensures { result ≡ first_dialect dialect }
{
    match dialect {
        ServerDialect::Auto | ServerDialect::Classic => Dialect::Classic,
        ServerDialect::Meta => Dialect::Meta,
    }
}

/// Why a link failed, if too many reads were in vain.
pub fn vain(has_failed: bool) -> Option<Cause>
    ensures { result ≡ vain_cause has_failed }
{
    if has_failed {
        Some(Cause::VainReads)
    } else {
        None
    }
}

// Whether its server is asked for its dialects.
fn asks_dialect(dialect: ServerDialect) -> bool
    ensures { result ≡ asks_dialect dialect }
{
    match dialect {
        ServerDialect::Auto => true,
        ServerDialect::Classic | ServerDialect::Meta => false,
    }
}

// What its server was asked first, where it answers that before calls.
fn awaits_first(greeting: Greeting) -> Option<Greeting>
    ensures { result ≡ awaits_first greeting }
{
    if greeting.flushes || asks_dialect(greeting.dialect) {
        Some(greeting)
    } else {
        None
    }
}

// The number of a connection on its wire.
fn number_of(conn: &Option<Conn>) -> Option<usize>
    ensures { result ≡ option_map (λ x. x.number) conn.now }
{
    match conn {
        Some(conn) => Some(conn.number),
        None => None,
    }
}

// That its server empties itself is to be sent, where it is to do that.
fn ask_flush(flushes: bool, conn: &mut Conn) -> Result<(), AllocError>
    ensures ok { OnOk result (bytes_of conn.new.unsent ≡ bytes_of conn.old.unsent ++ flush_asked flushes) }
    ensures rest { conn.new ≡ record conn.old { unsent = conn.new.unsent } }
{
    if !flushes {
        return Ok(());
    }
    write_flush(&mut conn.unsent.text)
}

// What it speaks is to be asked, where it is asked for that.
fn ask_dialect(dialect: ServerDialect, conn: &mut Conn) -> Result<(), AllocError>
    ensures ok { OnOk result (bytes_of conn.new.unsent ≡ bytes_of conn.old.unsent ++ dialect_asked dialect) }
    ensures rest { conn.new ≡ record conn.old { unsent = conn.new.unsent } }
{
    match dialect {
        ServerDialect::Auto => write_noop(&mut conn.unsent.text),
        ServerDialect::Classic | ServerDialect::Meta => Ok(()),
    }
}

// What a server is asked first is to be sent.
fn ask_first(greeting: Greeting, conn: &mut Conn) -> Result<(), AllocError>
    ensures ok { OnOk result (bytes_of conn.new.unsent ≡ bytes_of conn.old.unsent ++ first_asked_of greeting) }
    ensures rest { conn.new ≡ record conn.old { unsent = conn.new.unsent } }
{
    ask_flush(greeting.flushes, conn)?;
    ask_dialect(greeting.dialect, conn)
}

// Nothing is held of a connection, and nothing is to be sent.
fn emptied(conn: Conn) -> Conn
    ensures { result.number ≡ conn.number }
{
    let mut conn = conn;
    conn.held.clear();
    conn.unsent.clear();
    conn
}

// Why a connection is over by what a read gave, if it is.
fn ended_by(got: Got) -> Option<Cause>
    ensures { result ≡ ended_by_read got }
{
    match got {
        Got::Bytes | Got::Nothing | Got::Full => None,
        Got::Ended => Some(Cause::Closed),
        Got::Failed => Some(Cause::Broken),
    }
}

// One read of a connection whose end is awaited: what came is thrown away. Why it is to be closed, if that is so. Where memory is refused for the read
// it is made again.
fn read_away<W: Wire>(conn: &mut Conn, wire: &mut W) -> Option<Cause>
    ensures reads { DrainsOne result conn.old conn.new (W.history wire.old) (W.history wire.new) }
{
    conn.held.clear();
    match conn.read_once(wire, DRAIN_READ) {
        Ok(got) => ended_by(got),
        Err(_) => None,
    }
}

/// What became of the attempt to connect to a server.
#[derive(Clone, Copy, PartialEq, Eq)]
pub enum Opening {
    /// A connection was begun. It stands once it is reported writable.
    Begun,
    /// Its server's text names no address that is known.
    NoAddress,
    /// It was refused.
    Failed,
    /// A connection was begun, and closed, as memory was refused for its end.
    NoMemory,
}

/// What a link has waited for too long.
#[derive(Clone, Copy, PartialEq, Eq)]
pub enum Lateness {
    /// Its connection is to stand, or its server is to say that it has emptied itself.
    Connection,
    /// A call is to be answered.
    Call,
    /// Late answers are to come, or the answer to a store that is awaited however long it takes, or the end of a connection.
    Answer,
}

/// One server's link.
#[derive(Drop)]
pub struct Link {
    /// What names its server's address.
    pub text: Vec<u8>,
    pub conn: Option<Conn>,
    /// One that can't be kept, and over which nothing more goes: what comes over it is thrown away, and no other is begun before its end. Until
    /// then calls fail at once.
    pub draining: Option<Conn>,
    pub calls: LinkCalls,
    /// Calls that went out before those and were late: they have failed, and their answers are still to come. While there are any, further calls
    /// fail at once.
    pub late: VecDeque<LateCall>,
    // When a call was late last, or since when the end of a connection is awaited, in milliseconds.
    late_since: u64,
    // Calls that wait until the server takes more, the one that came first in front. Some are out while one waits.
    waiting: WaitLine,
    /// In which dialect calls go out from now on.
    pub dialect: Dialect,
    /// What its server was asked first, where the answer to that is still to come, before those to all calls.
    pub awaits_dialect: Option<Greeting>,
    /// Whether its server is to be emptied before its first call: a connection begins with that until it was answered.
    pub flushes: bool,
    // Whether no call goes out to its server any more.
    is_retired: bool,
    /// How long its server is waited for, and after how many failures it is left alone.
    pub limits: LinkLimits,
    /// What the wire's clock showed when the connection was begun, in milliseconds.
    pub opened: u64,
    /// Whether it has stood since.
    pub is_connected: bool,
    /// When the system was last asked for what has come over it, though it told of nothing, in milliseconds.
    pub asked_at: u64,
    /// How many times in a row it failed since its server last answered: also where no connection could be begun.
    failures: u32,
    /// How many of its connections in a row were given up since its server last answered.
    lost: u32,
    /// What has become of it so far.
    pub tally: LinkTally,
    /// Where those are as many as are allowed: until then its calls fail at once.
    held_until: u64,
    /// How many reads in a row brought no whole answer.
    pub vain_reads: u32,
    /// Whether memory was refused for the last read of its connection: until one is made no call goes out over it.
    pub is_starved: bool,
    /// Whether memory was refused for reading the answer in front of what is held: until it is read no call goes out over it.
    pub has_unread: bool,
    /// How many bytes the answer takes whose begin is held, where it has large data and its first line told so.
    pub awaited: Option<usize>,
    /// Whether the last read filled its room, so that more is there.
    pub reads_long: bool,
    pub is_ready: bool,
    pub has_output: bool,
    /// What happened last, if that wasn't told yet.
    news: Option<LinkNews>,
    /// From when on it may be told.
    news_from: u64,
    /// Whether a connection failed, or a call was late, since its server last answered.
    was_down: bool,
}

impl Link {
    /// A link without a connection, to the server whose address this text names, which is emptied before its first call or isn't, and has these
    /// limits.
    pub fn new(
        alloc: Global,
        text: &[u8],
        flushes: bool,
        limits: LinkLimits,
    ) -> Result<Link, AllocError>
        ensures down { IfOk result IsDown }
        ensures drained { IfOk result (λ link. link.draining ≡ None) }
        ensures awaits { IfOk result (λ link. link.awaits_dialect ≡ None) }
        ensures dialect { IfOk result (λ link. link.dialect ≡ Classic) }
        ensures late { IfOk result (λ link. link.late.items ≡ []) }
        ensures text { IfOk result (λ link. link.text.items ≡ text.now) }
        ensures flushes { IfOk result (λ link. link.flushes ≡ flushes) }
        ensures limits { IfOk result (λ link. link.limits ≡ limits) }
        ensures opened { IfOk result (λ link. link.opened ≡ 0) }
        ensures lost { IfOk result (λ link. link.lost ≡ 0) }
    {
        let text = text.to_vec(alloc)?;
        let waiting = WaitLine::new(alloc)?;
        Ok(Link::of(alloc, text, flushes, limits, waiting))
    }

    fn of(
        alloc: Global,
        text: Vec<u8>,
        flushes: bool,
        limits: LinkLimits,
        waiting: WaitLine,
    ) -> Link
        requires { waiting ≡ [] }
        ensures down { IsDown result }
        ensures drained { result.draining ≡ None }
        ensures awaits { result.awaits_dialect ≡ None }
        ensures dialect { result.dialect ≡ Classic }
        ensures late { result.late.items ≡ [] }
        ensures text { result.text ≡ text }
        ensures flushes { result.flushes ≡ flushes }
        ensures limits { result.limits ≡ limits }
        ensures opened { result.opened ≡ 0 }
        ensures lost { result.lost ≡ 0 }
    {
        Link {
            text,
            conn: None,
            draining: None,
            calls: LinkCalls::new(alloc),
            late: VecDeque::new(alloc),
            late_since: 0,
            waiting,
            dialect: Dialect::Classic,
            awaits_dialect: None,
            flushes,
            is_retired: false,
            limits,
            opened: 0,
            is_connected: false,
            asked_at: 0,
            failures: 0,
            lost: 0,
            tally: LinkTally::new(),
            held_until: 0,
            vain_reads: 0,
            is_starved: false,
            has_unread: false,
            awaited: None,
            reads_long: false,
            is_ready: false,
            has_output: false,
            news: None,
            news_from: 0,
            was_down: false,
        }
    }

    /// Whether answers are still to come of calls that have failed.
    pub fn awaits_late(&self) -> bool
        ensures none { result ≡ false → self.now.late.items ≡ [] }
        ensures some { result ≡ true → self.now.late.items ≢ [] }
    {
        !self.late.is_empty()
    }

    // Whether stores are awaited however long they take, and one is the first of the calls that are out.
    pub(crate) fn awaits_store(&self) -> bool
        ensures { result ≡ awaits_store self.now }
    {
        self.limits.stores_wait && self.calls.awaits_store()
    }

    // Whether a call is out that was late already.
    fn has_been_late(&self) -> bool
        ensures { result ≡ true → HasWaited self.now.limits.call_ms self.now.late_since (said_asks self.now.calls.sent.items) }
    {
        match self.calls.oldest() {
            Some(since) => self.was_late(since),
            None => false,
        }
    }

    // Whether a call that began then had waited too long when one was late last.
    fn was_late(&self, since: u64) -> bool
        ensures { result ≡ true → since + self.now.limits.call_ms < self.now.late_since }
    {
        since.saturating_add(self.limits.call_ms) < self.late_since
    }

    // Whether a call that is out was late already, and is still awaited, as the first one is a store.
    fn is_stalled(&self) -> bool
        ensures store { result ≡ true → stores_first self.now.calls.sent.items ≡ true }
        ensures stalled { result ≡ true → IsStoreLate self.now }
    {
        self.awaits_store() && self.has_been_late()
    }

    /// Whether its server is late: answers are still to come of calls that have failed, or a call that was late is still awaited.
    pub fn is_late(&self) -> bool
        ensures late { result ≡ true → AwaitsLate self.now }
        ensures server { result ≡ true → IsServerLate self.now }
        ensures none { result ≡ false → self.now.late.items ≡ [] }
    {
        if self.awaits_late() {
            return true;
        }
        self.is_stalled()
    }

    /// Whether the next answer may be news: its server is late, or was, or a connection failed, and it hasn't answered since.
    pub fn may_come_back(&self) -> bool
        ensures may { result ≡ true → (self.now.was_down ≡ true) ⊎ AwaitsLate self.now }
        ensures none { result ≡ false → (self.now.was_down ≡ false) × (self.now.late.items ≡ []) }
    {
        self.was_down || self.is_late()
    }

    /// Whether its server is still to answer what it was asked first.
    pub fn awaits_greeting(&self) -> bool
        ensures { result ≡ false → self.now.awaits_dialect ≡ None }
    {
        match self.awaits_dialect {
            Some(_) => true,
            None => false,
        }
    }

    /// Whether its server is still to say that it has emptied itself. Until then no call goes out.
    pub fn awaits_flush(&self) -> bool
        ensures { result ≡ awaits_flush self.now.awaits_dialect }
    {
        match self.awaits_dialect {
            Some(greeting) => greeting.flushes,
            None => false,
        }
    }

    /// Its server is to be emptied before its first call.
    pub fn empty_first(&mut self)
        ensures flushes { self.new.flushes ≡ true }
        ensures line { line_of self.new ≡ line_of self.old }
    {
        self.flushes = true;
    }

    /// From now on no call goes out over it, or some may again: while it is retired they wait where it has a connection, and fail at once where it has none.
    pub fn retire(&mut self, is_retired: bool)
        ensures retired { self.new ≡ with_retired is_retired self.old }
        ensures line { line_of self.new ≡ line_of self.old }
    {
        self.is_retired = is_retired;
    }

    /// Its server has these limits from now on.
    pub fn limit(&mut self, limits: LinkLimits)
        ensures { self.new ≡ record self.old { limits = limits } }
    {
        self.limits = limits;
    }

    /// Whether no call is out or waits, none is late, and no end of a connection is awaited.
    pub fn is_quiet(&self) -> bool
        ensures quiet { result ≡ true → LinkIsQuiet self.now }
        ensures busy { result ≡ false → LinkIsQuiet self.now → ⊥ }
    {
        self.calls.is_empty()
            && self.waiting.is_empty()
            && self.late.is_empty()
            && self.draining.is_none()
    }

    // Whether what is to be sent is a backlog.
    fn has_backlog(&self) -> bool
        ensures { self.now.conn ≡ None → result ≡ false }
    {
        match &self.conn {
            Some(conn) => conn.has_backlog(),
            None => false,
        }
    }

    /// Whether memory was refused for what came over its connection, and that is still to be read.
    pub fn lacks_memory(&self) -> bool
        ensures { result ≡ lacks_memory self.now }
    {
        self.is_starved || self.has_unread
    }

    // Whether it takes calls: it isn't retired, its server needn't empty itself first, it has places, no backlog, and what came over it was read.
    fn takes_calls(&self, places: usize) -> bool
        ensures { is_retired self.now ≡ true → result ≡ false }
    {
        if self.is_retired || self.lacks_memory() || self.awaits_flush() {
            return false;
        }
        self.calls.len() < places && !self.has_backlog()
    }

    // Whether the call that has waited longest is bulk, and has no room.
    fn holds_bulk(&self) -> bool {
        match self.waiting.front() {
            Some(call) => !self.calls.has_room_for(call.bulk),
            None => false,
        }
    }

    /// Whether a further call, of whose answer so many bytes are expected, has to wait: others than bulk ones pass those that wait. All have to
    /// while it is retired.
    pub fn is_full(&self, places: usize, bulk: usize) -> bool
        ensures { is_retired self.now ≡ true → result ≡ true }
    {
        if !self.takes_calls(places) || !self.calls.has_room_for(bulk) {
            return true;
        }
        !self.waiting.is_empty() && (bulk > 0 || !self.holds_bulk())
    }

    /// The call waits, behind all others. It is given back only where memory was refused, and [`crate::LEAST_WAITING`] calls wait or more.
    pub fn let_wait(&mut self, call: SentCall) -> Result<(), SentCall>
        ensures rest { self.new ≡ record self.old { waiting = self.new.waiting } }
        ensures ok { OnOk result (self.new.waiting ≡ self.old.waiting ++ call ∷ []) }
        ensures err { IfErr result (λ given. (given ≡ call) × (self.new.waiting ≡ self.old.waiting) × (least_waiting ≤ length self.old.waiting)) }
    {
        self.waiting.push_back(call)
    }

    /// The call waits, before all others. It is given back only where memory was refused, and [`crate::LEAST_WAITING`] calls wait or more.
    pub fn wait_first(&mut self, call: SentCall) -> Result<(), SentCall>
        ensures rest { self.new ≡ record self.old { waiting = self.new.waiting } }
        ensures ok { OnOk result (self.new.waiting ≡ call ∷ self.old.waiting) }
        ensures err { IfErr result (λ given. (given ≡ call) × (self.new.waiting ≡ self.old.waiting) × (least_waiting ≤ length self.old.waiting)) }
    {
        self.waiting.push_front(call)
    }

    /// The first of the calls that wait.
    pub fn next_waiting(&mut self) -> Option<SentCall>
        ensures waiting { MatchOption result (self.new.waiting ≡ self.old.waiting) (λ call. self.old.waiting ≡ call ∷ self.new.waiting) }
        ensures none { result ≡ None → self.old.waiting ≡ [] }
        ensures rest { self.new ≡ record self.old { waiting = self.new.waiting } }
    {
        self.waiting.pop_front()
    }

    // Whether a call that waits has room: by what is known of its client now, where its answer was expected to be bulk.
    fn has_room_now(&self, call: &SentCall, clients: &Clients) -> bool {
        if self.calls.has_room_for(call.bulk) {
            return true;
        }
        let expects = clients.expects(call.client);
        let bulk = self.calls.bulk_of(call.ticket.ask.get(), expects);
        bulk < call.bulk && self.calls.has_room_for(bulk)
    }

    // The place of the first that may go out: those that are bulk may have no room.
    fn place_to_go(&self, clients: &Clients) -> Option<usize> {
        let mut place = 0usize;
        for call in self.waiting.all().iter() {
            if self.has_room_now(call, clients) {
                return Some(place);
            }
            place = place.saturating_add(1);
        }
        None
    }

    /// Of the calls that wait the first that may go out now: none while it is retired.
    #[tactic(auto, using(crate::proofs::Taking::taken))]
    pub fn next_to_go(&mut self, places: usize, clients: &Clients) -> Option<SentCall>
        ensures retired { is_retired self.old ≡ true → result ≡ None }
        ensures waiting { MatchOption result (self.new.waiting ≡ self.old.waiting) (λ call. CallIsTaken self.old.waiting call self.new.waiting) }
        ensures rest { self.new ≡ record self.old { waiting = self.new.waiting } }
    {
        if !self.takes_calls(places) {
            return None;
        }
        let place = self.place_to_go(clients)?;
        self.waiting.remove(place)
    }

    /// The first of the calls that wait, if it has waited too long to go out, by the clock of calls that wait and by the wire's, which shows `now`, or none goes out for now; and why.
    pub fn next_too_late(&mut self, pace: u64, now: u64) -> Option<NotSent>
        ensures waiting { MatchOption result (self.new.waiting ≡ self.old.waiting) (λ it. self.old.waiting ≡ it.call ∷ self.new.waiting) }
        ensures refused { IfSome result (λ it. IsRefused it.why it.call.since now self.new) }
        ensures late { IsSome result → WaitsTooLong pace self.old }
        ensures rest { self.new ≡ record self.old { waiting = self.new.waiting } }
    {
        let why = self.first_refusal(pace, now)?;
        let call = self.next_waiting()?;
        Some(NotSent { call, why })
    }

    // Why the first of those that wait waits no longer, if it doesn't.
    fn first_refusal(&self, pace: u64, now: u64) -> Option<Refusal>
        ensures refused { IfSome result (λ why. FirstIs (λ call. IsRefused why call.since now self.now) self.now.waiting) }
        ensures late { IsSome result → WaitsTooLong pace self.now }
    {
        match self.line_refusal(now) {
            None if self.has_waited_long(pace, now) => Some(Refusal::WaitedLong),
            refusal => refusal,
        }
    }

    // Why no call goes out for now by what is out there, if none does: there is no connection, or the server is late.
    fn line_refusal(&self, now: u64) -> Option<Refusal>
        ensures refused { IfSome result (λ why. (since : ℕ) → IsRefused why since now self.now) }
        ensures late { IsSome result → (self.now.conn ≡ None) ⊎ IsServerLate self.now }
        ensures none { result ≡ None → IsSome self.now.conn × (self.now.late.items ≡ []) }
    {
        if self.conn.is_none() {
            return Some(Refusal::NoConnection);
        }
        if self.awaits_late() {
            return Some(Refusal::ServerLate);
        }
        if self.is_stalled() && self.has_late(now) {
            return Some(Refusal::StoreLate);
        }
        None
    }

    // Whether the first of those that wait has waited so long by both clocks.
    fn has_waited_long(&self, pace: u64, now: u64) -> bool
        ensures paced { result ≡ true → FirstIs (λ call. call.paced + self.now.limits.call_ms < pace) self.now.waiting × (self.now.waiting ≢ []) }
        ensures since { result ≡ true → FirstIs (λ call. call.since + self.now.limits.call_ms < now) self.now.waiting }
    {
        let Some(call) = self.waiting.front() else {
            return false;
        };
        let most = self.limits.call_ms;
        call.paced.saturating_add(most) < pace && call.since.saturating_add(most) < now
    }

    /// Until when the first of those that wait may wait, in milliseconds.
    pub fn waiting_limit(&self) -> Option<u64> {
        match self.waiting.front() {
            Some(call) => Some(call.since.saturating_add(self.limits.call_ms)),
            None => None,
        }
    }

    /// How many calls wait.
    pub fn waiting(&self) -> usize
        ensures { result ≡ length self.now.waiting }
    {
        self.waiting.len()
    }

    /// What is left of a number after the calls that are out, if they are no more than that.
    pub fn without_calls(&self, count: usize) -> Option<usize>
        ensures { MatchOption result (count < length self.now.calls.sent.items + length self.now.waiting) (λ left. length self.now.calls.sent.items + length self.now.waiting + left ≡ count) }
    {
        let sent = self.calls.len();
        if count < sent {
            return None;
        }
        let left = count - sent;
        let waiting = self.waiting();
        if left < waiting {
            return None;
        }
        Some(left - waiting)
    }

    // When it is given up if no late answers come, or not the end of its connection, in milliseconds.
    fn give_up_limit(&self, settings: &Settings) -> Option<u64>
        ensures { self.now.late.items ≡ [] → self.now.draining ≡ None → result ≡ None }
    {
        if !self.awaits_late() && self.draining.is_none() {
            return None;
        }
        self.late_limit(settings)
    }

    // When it is given up if it stays late, in milliseconds.
    fn late_limit(&self, settings: &Settings) -> Option<u64> {
        Some(self.late_since.saturating_add(settings.give_up_ms?))
    }

    /// When it is late if nothing comes, in milliseconds: its first call, or its connection, has taken too long then, or late answers have, or the end of
    /// a connection. A connection takes until its server has emptied itself, where that is to be. A store that is awaited however long it takes is late once.
    pub fn time_limit(&self, settings: &Settings) -> Option<u64>
        ensures { self.now.is_connected ≡ true → awaits_flush self.now.awaits_dialect ≡ false → self.now.calls.sent.items ≡ [] → self.now.late.items ≡ [] → self.now.draining ≡ None → result ≡ None }
    {
        if self.conn.is_none() {
            return self.give_up_limit(settings);
        }
        if self.is_unready() {
            return Some(self.opened.saturating_add(self.limits.connect_ms));
        }
        if self.is_stalled() {
            return self.late_limit(settings);
        }
        match self.calls.oldest() {
            Some(since) => Some(since.saturating_add(self.limits.call_ms)),
            None => self.give_up_limit(settings),
        }
    }

    // What it waits for.
    fn awaited_first(&self) -> Lateness {
        if self.conn.is_none() {
            Lateness::Answer
        } else if self.is_unready() {
            Lateness::Connection
        } else if self.calls.is_empty() || self.is_stalled() {
            Lateness::Answer
        } else {
            Lateness::Call
        }
    }

    /// Whether it has waited for something too long by now, so far as it was read: the system may not have been asked for what has come since.
    pub fn is_overdue(&self, now: u64, settings: &Settings) -> bool {
        match self.time_limit(settings) {
            Some(limit) => limit < now && self.is_read(),
            None => false,
        }
    }

    /// Whether nothing more is to be read of it now: all that was told of was read for which memory was there.
    pub fn is_read(&self) -> bool
        ensures { result ≡ true → (may_give self.now.conn ≡ false) ⊎ (lacks_memory self.now ≡ true) }
    {
        self.lacks_memory() || !self.may_have_more()
    }

    // Whether all that has come over its connection by now was read for which memory was there.
    fn is_read_by(&self, now: u64) -> bool
        ensures { result ≡ true → IsReadBy now self.now }
    {
        now <= self.asked_at && self.is_read()
    }

    /// What it has waited for too long by now. It isn't late before all that has come over its connection by now was read for which memory was there.
    pub fn lateness(&self, now: u64, settings: &Settings) -> Option<Lateness>
        ensures read { IsSome result → IsReadBy now self.now }
    {
        if !self.is_read_by(now) {
            return None;
        }
        if self.is_overdue(now, settings) {
            Some(self.awaited_first())
        } else {
            None
        }
    }

    /// Whether a call that is out began longer ago than a call may take.
    pub fn has_late(&self, now: u64) -> bool
        ensures { result ≡ true → HasLate now self.now }
    {
        self.calls.has_late(self.limits.call_ms, now)
    }

    // Whether its connection doesn't stand, or its server is still to say that it has emptied itself: neither takes calls.
    fn is_unready(&self) -> bool
        ensures ready { result ≡ false → (self.now.is_connected ≡ true) × (awaits_flush self.now.awaits_dialect ≡ false) }
        ensures unready { result ≡ true → IsUnready self.now }
    {
        !self.is_connected || self.awaits_flush()
    }

    /// Whether its connection was begun longer ago than one may take to stand, and to empty its server where that is to be, and doesn't take calls yet.
    pub fn is_connect_late(&self, now: u64) -> bool
        ensures { result ≡ true → IsConnectLate now self.now }
    {
        self.is_unready() && self.opened.saturating_add(self.limits.connect_ms) < now
    }

    /// Whether more may have come over it than was read.
    pub fn may_have_more(&self) -> bool
        ensures { result ≡ may_give self.now.conn }
    {
        match &self.conn {
            Some(conn) => conn.readable,
            None => false,
        }
    }

    /// The wire is asked by now whether its connection stands, though it told of nothing: whether it does, and didn't before. Where it stood
    /// before, a read may give something.
    pub fn look_again<W: Wire>(&mut self, wire: &W, now: u64) -> bool
        ensures lines { KeepsLines self.old self.new }
        ensures asked { self.old.is_connected ≡ true → IfSome self.new.conn (λ conn. conn.readable ≡ true) }
    {
        self.asked_at = now;
        let Some(conn) = self.conn.as_mut() else {
            return false;
        };
        if self.is_connected {
            conn.readable = true;
            return false;
        }
        if !wire.is_connected(conn.number) {
            return false;
        }
        conn.readable = true;
        conn.writable = true;
        self.stand()
    }

    /// Why a call fails at once, if it does: never as memory was refused. Without a connection none is begun while the server is late, the end of one is awaited, no call goes out any more,
    /// or the server failed too many times in a row and isn't to be tried yet. With one none goes out while the server is late, or as many connections in a row were given up, and a call tries it.
    pub fn refusal(&self, now: u64) -> Option<Refusal>
        ensures refused { IfSome result (λ why. (since : ℕ) → IsRefused why since now self.now) }
        ensures free { result ≡ None → TakesCalls now self.now }
    {
        if self.conn.is_none() {
            return if self.is_held_back(now) {
                Some(Refusal::NoConnection)
            } else {
                None
            };
        }
        match self.line_refusal(now) {
            None if self.is_left_alone() => Some(Refusal::LeftAlone),
            refusal => refusal,
        }
    }

    // Whether no connection is begun for now.
    fn is_held_back(&self, now: u64) -> bool
        ensures back { result ≡ true → HoldsBack now self.now }
        ensures free { self.now.conn ≡ None → result ≡ false → TakesCalls now self.now }
        ensures retired { is_retired self.now ≡ true → result ≡ true }
    {
        if self.is_late() || self.draining.is_some() || self.is_retired {
            return true;
        }
        self.is_held(now)
    }

    // Whether its server failed as many times in a row as is allowed, and isn't tried again yet.
    fn is_held(&self, now: u64) -> bool
        ensures held { result ≡ true → IsHeld now self.now }
        ensures free { result ≡ false → (self.now.failures < self.now.limits.fail_limit) ⊎ (self.now.held_until ≤ now) }
    {
        self.limits.fail_limit <= self.failures && now < self.held_until
    }

    // Whether its server is left alone, as so many of its connections in a row were given up as are allowed, and a call tries it.
    fn is_left_alone(&self) -> bool
        ensures alone { result ≡ true → IsLeftAlone self.now }
        ensures free { result ≡ false → (self.now.lost < self.now.limits.fail_limit) ⊎ (self.now.calls.sent.items ≡ []) }
    {
        self.limits.fail_limit <= self.lost && !self.calls.is_empty()
    }

    /// A read brought whole answers, or none. Whether it has failed by that: where calls are out, and so many reads in a row brought none. That its
    /// server has answered is news where it was down.
    pub fn has_read(&mut self, has_settled: bool, polls: Option<u32>) -> bool
        ensures failed { result ≡ true → self.new.calls.sent.items ≢ [] }
        ensures answered { has_settled ≡ true → self.new.lost ≡ 0 }
        ensures vain { has_settled ≡ false → self.new.lost ≡ self.old.lost }
        ensures rest { self.new ≡ record self.old { failures = self.new.failures; lost = self.new.lost; vain_reads = self.new.vain_reads; news = self.new.news; was_down = self.new.was_down } }
    {
        if has_settled {
            self.failures = 0;
            self.lost = 0;
            self.vain_reads = 0;
            self.tell_back();
            return false;
        }
        if self.calls.is_empty() {
            self.vain_reads = 0;
            return false;
        }
        self.vain_reads = self.vain_reads.saturating_add(1);
        match polls {
            Some(polls) => polls <= self.vain_reads,
            None => false,
        }
    }

    /// A connection to its server is begun, at the address that its text names; its time counts from what the wire's clock showed last. Where the server is to tell its dialects, calls go out in the
    /// classic one until it has. Where memory is refused for its end, the connection is closed. While it has one, or the end of
    /// one is awaited, or calls are out or late, none is begun.
    ///
    /// Source: mcgate's own.
    pub fn connect<N: Net, W: Wire>(
        &mut self,
        alloc: Global,
        net: &N,
        wire: &mut W,
        server: usize,
        dialect: ServerDialect,
    ) -> Opening
        ensures opens { OpensLink server dialect result self.old self.new (W.history wire.old) (W.history wire.new) }
    {
        if self.conn.is_some()
            || self.draining.is_some()
            || !self.calls.is_empty()
            || self.awaits_late()
        {
            return Opening::Failed;
        }
        let now = wire.last_millis();
        match wire.connect(net, server, &self.text) {
            Connected::Begun(number) => {
                if self
                    .open(alloc, number, now, self.greeting(dialect))
                    .is_ok()
                {
                    return Opening::Begun;
                }
                wire.close(number);
                Opening::NoMemory
            }
            Connected::NoAddress => Opening::NoAddress,
            Connected::Failed => Opening::Failed,
        }
    }

    // What its server is asked first over a new connection.
    fn greeting(&self, dialect: ServerDialect) -> Greeting
        ensures { result ≡ greeting_of self.now dialect }
    {
        Greeting {
            flushes: self.flushes,
            dialect,
        }
    }

    // The connection of this number was begun.
    fn open(
        &mut self,
        alloc: Global,
        number: usize,
        now: u64,
        greeting: Greeting,
    ) -> Result<(), AllocError>
        requires unlinked { self.old.conn ≡ None }
        requires drained { self.old.draining ≡ None }
        requires none_out { self.old.calls.sent.items ≡ [] }
        requires none_late { self.old.late.items ≡ [] }
        ensures ok { OnOk result (HasNewEnd number now greeting self.old self.new) }
        ensures err { OnErr result (KeepsLines self.old self.new) }
    {
        let mut conn = Conn::new(alloc, number, LIMITS);
        conn.readable = false;
        conn.writable = false;
        ask_first(greeting, &mut conn)?;
        self.awaits_dialect = awaits_first(greeting);
        self.dialect = first_dialect(greeting.dialect);
        self.conn = Some(conn);
        self.opened = now;
        self.vain_reads = 0;
        self.is_starved = false;
        self.has_unread = false;
        self.awaited = None;
        self.reads_long = false;
        self.is_connected = false;
        Ok(())
    }

    /// For how many bytes the next read makes room: for the rest of an answer with large data too, so that it comes into one buffer of
    /// its size.
    pub fn read_room(&self) -> usize
        ensures { 0 < result }
    {
        let Some(conn) = &self.conn else {
            return LINK_READ;
        };
        match self.awaited {
            Some(len) => len
                .saturating_sub(conn.held.len())
                .saturating_add(LINK_READ),
            None => {
                if self.reads_long {
                    LONG_READ
                } else {
                    LINK_READ
                }
            }
        }
    }

    /// What its server says to what it was asked first is taken from its bytes, where that is still to come and whole. Whether it can be that.
    pub fn learn(&mut self) -> bool
        ensures learns { Learns result self.old self.new }
        ensures foreign { result ≡ false → LineIsForeign self.new }
    {
        let Some(greeting) = self.awaits_dialect else {
            return true;
        };
        let Some(conn) = self.conn.as_mut() else {
            return true;
        };
        match read_greeting(greeting, conn.held.as_slice()) {
            DialectRead::More => true,
            DialectRead::Neither => false,
            DialectRead::Told(dialect, used) => {
                conn.use_up(used);
                self.dialect = dialect;
                self.awaits_dialect = None;
                self.flushes = false;
                true
            }
        }
    }

    /// Its connection stands. Whether it didn't before, which is news but where its server was down: that it is back is news once it has answered.
    pub fn stand(&mut self) -> bool
        ensures lines { KeepsLines self.old self.new }
        ensures stands { self.new.is_connected ≡ true }
        ensures anew { result ≡ not self.old.is_connected }
    {
        if self.is_connected {
            return false;
        }
        self.is_connected = true;
        self.tally.note_stood();
        if self.was_down {
            return true;
        }
        self.news = Some(LinkNews::Opened);
        true
    }

    /// A call of it took too long by now, which is news.
    pub fn turn_late(&mut self, now: u64)
        ensures { self.new ≡ record self.old { late_since = self.new.late_since; tally = self.new.tally; news = self.new.news; was_down = self.new.was_down } }
    {
        self.late_since = now;
        self.tally.note_late();
        self.news = Some(LinkNews::Late);
        self.was_down = true;
    }

    /// Its server has answered, after calls were late, which is news.
    pub fn come_back(&mut self)
        ensures { self.new ≡ record self.old { failures = self.new.failures; lost = 0; vain_reads = self.new.vain_reads; awaited = self.new.awaited; news = self.new.news; was_down = self.new.was_down } }
    {
        self.failures = 0;
        self.lost = 0;
        self.vain_reads = 0;
        self.awaited = None;
        self.tell_back();
    }

    // That its server has answered is news where it was down, and isn't late any more.
    fn tell_back(&mut self)
        ensures { self.new ≡ record self.old { news = self.new.news; was_down = self.new.was_down } }
    {
        if self.was_down && !self.is_late() {
            self.was_down = false;
            self.news = Some(LinkNews::Back);
        }
    }

    /// The connection is of no use any more, or could not be made: the number of the one that is to be closed. Late answers are awaited no longer.
    pub fn close(&mut self, cause: Cause, now: u64) -> Option<usize>
        ensures number { result ≡ option_map (λ x. x.number) self.old.conn }
        ensures conn { self.new.conn ≡ None }
        ensures draining { MatchOption self.old.conn (self.new.draining ≡ self.old.draining) (λ _. self.new.draining ≡ None) }
        ensures text { self.new.text ≡ self.old.text }
        ensures limits { self.new.limits ≡ self.old.limits }
        ensures calls { self.new.calls ≡ self.old.calls }
        ensures late { self.new.late.items ≡ [] }
        ensures waiting { self.new.waiting ≡ self.old.waiting }
        ensures lost { MatchOption self.old.conn (self.new.lost ≡ self.old.lost) (λ _. self.new.lost ≤ self.old.lost + 1) }
    {
        let number = self.let_go();
        self.note_failed(cause, now);
        number
    }

    // It has no connection then: the number of the one that was in use. (while one is, none is there whose end is awaited)
    fn let_go(&mut self) -> Option<usize>
        ensures number { result ≡ option_map (λ x. x.number) self.old.conn }
        ensures draining { MatchOption self.old.conn (self.new.draining ≡ self.old.draining) (λ _. self.new.draining ≡ None) }
        ensures lost { MatchOption self.old.conn (self.new.lost ≡ self.old.lost) (λ _. self.new.lost ≤ self.old.lost + 1) }
        ensures rest { self.new ≡ record self.old { conn = None; draining = self.new.draining; lost = self.new.lost } }
    {
        let conn = self.conn.take()?;
        self.lost = self.lost.saturating_add(1);
        self.draining = None;
        Some(conn.number)
    }

    /// The connection can't be kept, and its end is awaited: its number. Late answers are awaited no longer.
    pub fn drain(&mut self, cause: Cause, now: u64) -> Option<usize>
        ensures number { result ≡ option_map (λ x. x.number) self.old.conn }
        ensures conn { self.new.conn ≡ None }
        ensures drains { conn_of self.new ≡ conn_of self.old }
        ensures draining { self.old.conn ≡ None → self.new.draining ≡ self.old.draining }
        ensures text { self.new.text ≡ self.old.text }
        ensures limits { self.new.limits ≡ self.old.limits }
        ensures calls { self.new.calls ≡ self.old.calls }
        ensures late { self.new.late.items ≡ [] }
        ensures waiting { self.new.waiting ≡ self.old.waiting }
        ensures lost { MatchOption self.old.conn (self.new.lost ≡ self.old.lost) (λ _. self.new.lost ≤ self.old.lost + 1) }
    {
        let number = self.hold_back();
        self.late_since = now;
        self.note_failed(cause, now);
        number
    }

    // The end of its connection is awaited: its number.
    fn hold_back(&mut self) -> Option<usize>
        ensures number { result ≡ option_map (λ x. x.number) self.old.conn }
        ensures drains { conn_of self.new ≡ conn_of self.old }
        ensures draining { self.old.conn ≡ None → self.new.draining ≡ self.old.draining }
        ensures lost { MatchOption self.old.conn (self.new.lost ≡ self.old.lost) (λ _. self.new.lost ≤ self.old.lost + 1) }
        ensures rest { self.new ≡ record self.old { conn = None; draining = self.new.draining; lost = self.new.lost } }
    {
        let conn = self.conn.take()?;
        self.lost = self.lost.saturating_add(1);
        let number = conn.number;
        self.draining = Some(emptied(conn));
        Some(number)
    }

    /// What the system told of the connection whose end is awaited: whether there is one.
    pub fn note_draining(&mut self, told: Ready) -> bool
        ensures { KeepsLines self.old self.new }
    {
        match self.draining.as_mut() {
            Some(conn) => {
                conn.note(told);
                true
            }
            None => false,
        }
    }

    /// Whether more may have come over the connection whose end is awaited.
    pub fn may_drain(&self) -> bool {
        match &self.draining {
            Some(conn) => conn.readable,
            None => false,
        }
    }

    /// One read of the connection whose end is awaited, while it has no other: what came is thrown away. Why it is to be closed, if that is so: it has
    /// ended, or has failed.
    pub fn read_draining<W: Wire>(&mut self, wire: &mut W) -> Option<Cause>
        ensures reads { DrainsBy result self.old self.new (W.history wire.old) (W.history wire.new) }
    {
        if self.conn.is_some() {
            return None;
        }
        read_away(self.draining.as_mut()?, wire)
    }

    /// The end of its connection is awaited no longer: the number of the one that is to be closed.
    pub fn end_draining(&mut self) -> Option<usize>
        ensures number { result ≡ option_map (λ x. x.number) self.old.draining }
        ensures rest { self.new ≡ record self.old { draining = None } }
    {
        let number = number_of(&self.draining);
        self.draining = None;
        number
    }

    // What becomes of it where a connection is given up: late answers are awaited no longer, and that it failed is news.
    fn note_failed(&mut self, cause: Cause, now: u64)
        ensures conn { self.new.conn ≡ self.old.conn }
        ensures draining { self.new.draining ≡ self.old.draining }
        ensures text { self.new.text ≡ self.old.text }
        ensures limits { self.new.limits ≡ self.old.limits }
        ensures calls { self.new.calls ≡ self.old.calls }
        ensures late { self.new.late.items ≡ [] }
        ensures waiting { self.new.waiting ≡ self.old.waiting }
        ensures lost { self.new.lost ≡ self.old.lost }
    {
        self.late.clear();
        let cause = if self.is_connected {
            cause
        } else {
            unconnected(cause)
        };
        self.is_connected = false;
        self.is_starved = false;
        self.has_unread = false;
        self.was_down = true;
        self.failures = self.failures.saturating_add(1);
        self.tally.note_failed(cause);
        self.held_until = now.saturating_add(self.limits.retry_ms);
        self.news = Some(LinkNews::Failed(cause, self.failures));
    }

    /// When its news may be told, if there are any.
    pub fn news_limit(&self) -> Option<u64> {
        if self.news.is_none() {
            return None;
        }
        Some(self.news_from)
    }

    /// Its news, if they may be told now. Of several the last is told.
    pub fn take_news(&mut self, now: u64) -> Option<LinkNews>
        ensures { KeepsLines self.old self.new }
    {
        if now < self.news_from {
            return None;
        }
        let news = self.news?;
        self.news = None;
        self.news_from = now.saturating_add(NEWS_MS);
        Some(news)
    }
}
