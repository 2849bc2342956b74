//! The clients' ends, by their ids in the core, and which of them are to be served.

ghost use Rattle.std.specs.Prelude.{◌≡◌, ◌≢◌, ◌↔◌, IsTrue, ℕ, ◌+◌, ◌-◌, ◌<◌, ◌++◌, ◌∷◌, [], OnOk, OnErr, Some, None, if◌then◌else◌, true, false, length, min, nat_lt, filter, slice_get, slice_set};
ghost use Rattle.std.specs.Option.{option_map, option_flatten, option_copied_mut};
ghost use Rattle.std.specs.List.{sum_by};
ghost use Rattle.std.specs.Borrow.{sem};
ghost use Rattle.wire_parts.specs.Sending.{bytes_of};
ghost use Rattle.serve_clients.specs.Marks.{client_of, Changes, AreAlike, EndsBusy, ids_with, ids_if, client_is_idle, is_marked, HasMarked, AreListed, with_ready, with_unsent, with_busy, ready_if, unsent_if, with_told, noted, will_send, one_settled, one_got, one_answered, one_waits, one_waited};
ghost use Rattle.serve_clients.specs.Agrees.{Breaks, KeepsEnds};
ghost use Rattle.serve_clients.specs.Lending.{LendsClient};
ghost use Rattle.serve_clients.specs.Waits.{waits_a_turn};
ghost use Rattle.serve_clients.specs.Holdings.{unshown, reply_bytes, input_left, held_for, held_of, held_at, MayBegin, MayGoOn, ClientIsQuiet};
ghost use Rattle.serve_clients.specs.declared.clients.TheConstants.{HELD_BACK, INPUT};

use crate::departures::Departure;
use crate::places::Places;
use serve_wire::Ready;
use serve_wire::conn::{Conn, Limits};
use std::alloc::{AllocError, Global};

/// From so many bytes on that are held of replies to a client none of its commands begins, and nothing is read of it.
pub const SHARE: usize = 1_048_576;

// What is kept of a client, and for one that does not read it.
const LIMITS: Limits = Limits {
    held: 1_048_576,
    unsent: SHARE,
};

// The core holds so many bytes at most of what a client sent.
const INPUT: usize = 2_097_152;

// How much room a client's read has at least, and where long data come.
const READ: usize = 16_384;

const LONG_READ: usize = 262_144;

// So many bytes are expected of each further get of a client until its first one is answered.
const EXPECTED_FIRST: usize = 524_288;

// So many bytes or more that are to be sent aren't held back.
const HELD_BACK: usize = 65_536;

/// One client's end.
#[derive(Drop)]
pub struct Client {
    pub conn: Conn,
    /// Whether its last read filled its room, so that long data come.
    reads_long: bool,
    /// How many of its commands can go on since their calls were settled: so many polls begin none.
    pub settled: usize,
    /// How many of its calls wait until their server takes more.
    waiting: usize,
    /// How many of its calls have no outcome yet.
    calls_out: usize,
    // How many bytes the answer to its next get is expected to take, once one was answered.
    expects: Option<usize>,
    // How many bytes of answers to its gets were not shown yet, at most.
    answered: usize,
    // How many bytes of what it sent the core holds, at most, and how many it was given last.
    input: usize,
    fed: usize,
    /// Whether what is to be sent to it was held back in the turn before.
    is_held_back: bool,
    /// It sends no more, or nothing more is read of it.
    pub is_ended: bool,
    /// It is broken off: nothing more goes to it either.
    pub is_broken: bool,
    // Why it goes, but for what its connection or the core shows when it is gone.
    leaves: Option<Departure>,
    pub is_ready: bool,
    pub has_output: bool,
    /// A command of it waits for a key or a server.
    pub is_busy: bool,
    /// More of it is wanted: the core has no message of it that waits for a key, for a server or for its turn.
    pub wants_more: bool,
}

impl Client {
    /// A client that has just connected, by the connection of this number.
    pub fn new(alloc: Global, number: usize) -> Client
        ensures number { result.conn.number ≡ number }
        ensures none { (result.conn.held.items ≡ []) × (bytes_of result.conn.unsent ≡ []) }
        ensures stands { (result.is_ended ≡ false) × (result.is_broken ≡ false) }
    {
        Client {
            conn: Conn::new(alloc, number, LIMITS),
            reads_long: false,
            settled: 0,
            waiting: 0,
            calls_out: 0,
            expects: None,
            answered: 0,
            input: 0,
            fed: 0,
            is_held_back: false,
            is_ended: false,
            is_broken: false,
            leaves: None,
            is_ready: false,
            has_output: false,
            is_busy: false,
            wants_more: true,
        }
    }

    /// Whether it takes what is shown to it.
    pub fn has_room(&self) -> bool {
        !self.conn.has_backlog()
    }

    // How many bytes of answers to its gets wait to be shown, at most. Without a call that is out none does.
    fn unshown(&self) -> usize
        ensures { result ≡ unshown self.now }
    {
        if self.calls_out == 0 {
            0
        } else {
            self.answered
        }
    }

    // How many bytes of replies are held for it.
    fn replies(&self) -> usize
        ensures { result ≡ min (reply_bytes self.now) usize.MAX }
    {
        self.conn.unsent_len().saturating_add(self.unshown())
    }

    // Whether a command of it may begin where so many bytes of replies are its share: none of its calls waits, and less is held.
    fn may_begin(&self, share: usize) -> bool
        ensures { IsTrue result ↔ MayBegin share self.now }
    {
        self.waiting == 0 && self.replies() < share
    }

    /// Whether one of its commands may go on, or begin where so many bytes of replies are its share: none of its calls waits, and less is
    /// held.
    ///
    /// Source: mcgate's own.
    pub fn may_go_on(&self, share: usize) -> bool
        ensures { IsTrue result ↔ MayGoOn share self.now }
    {
        self.settled > 0 || self.may_begin(share)
    }

    /// How many bytes are held for it: of what it sent, at most, and of replies. Of one that is broken off none are counted.
    ///
    /// Source: mcgate's own.
    pub fn held(&self) -> usize
        ensures { result ≡ held_for self.now }
    {
        if self.is_broken {
            return 0;
        }
        self.conn
            .held
            .len()
            .saturating_add(self.replies())
            .saturating_add(self.input)
    }

    /// Whether something may be read of it: only where all that was read before went to the core, and it hasn't ended. Nor is anything read
    /// behind a message that waits, of which no clause tells: the core would move it, byte by byte, when that message is done.
    pub fn can_read(&self) -> bool
        ensures { result ≡ true → (self.now.conn.held.items ≡ []) × (self.now.is_ended ≡ false) }
    {
        self.conn.readable
            && self.wants_more
            && !self.is_ended
            && self.conn.held.is_empty()
            && self.may_begin(SHARE)
    }

    /// Whether nothing of it is under way, as far as its end shows: no call of it waits, is out or was settled just now, nothing that was read
    /// waits for the core, nothing is to be sent to it, and all that came was read.
    ///
    /// Source: mcgate's own.
    pub fn is_quiet(&self) -> bool
        ensures { IsTrue result ↔ ClientIsQuiet self.now }
    {
        self.conn.held.is_empty()
            && self.conn.is_all_sent()
            && self.waiting == 0
            && self.calls_out == 0
            && self.settled == 0
            && !self.conn.readable
    }

    /// Whether bytes that were read wait for room in the core.
    pub fn has_held(&self) -> bool {
        !self.conn.held.is_empty()
    }

    /// How much room its next read has at least.
    pub fn read_room(&self) -> usize
        ensures { 0 < result }
    {
        if self.reads_long { LONG_READ } else { READ }
    }

    /// A read gave something: how much room the next one has goes by that, and nothing else changes.
    pub fn has_read(&mut self)
        ensures { self.new ≡ record self.old { reads_long = self.new.reads_long } }
    {
        self.reads_long = self.conn.held.len() >= self.read_room();
    }

    /// The core was given so many bytes of what it sent.
    pub fn has_fed(&mut self, count: usize)
        ensures { self.new ≡ record self.old { input = min (self.old.input + count) INPUT; fed = count } }
    {
        self.input = self.input.saturating_add(count).min(INPUT);
        self.fed = count;
    }

    /// The core is done with a message of it: before what it was given last it holds nothing more.
    pub fn has_passed(&mut self)
        ensures { self.new ≡ record self.old { input = min self.old.input self.old.fed } }
    {
        self.input = self.input.min(self.fed);
    }

    /// The core has refused a message of it, and is done with that. Whether it closed the client for it.
    pub fn has_refused(&mut self, is_closed: bool)
        ensures { self.new ≡ record self.old { input = min self.old.input self.old.fed; leaves = self.new.leaves } }
    {
        self.has_passed();
        self.leaves = match self.leaves {
            None if is_closed => Some(Departure::NotMemcached),
            leaves => leaves,
        };
    }

    /// The core holds nothing of what it sent.
    pub fn end_input(&mut self)
        ensures { self.new ≡ record self.old { input = 0 } }
    {
        self.input = 0;
    }

    // How many bytes of what it sent the core holds at most after one of its commands went on, or began.
    fn input_left(&self) -> usize
        ensures { result ≡ input_left self.now }
    {
        if self.settled == 0 {
            self.input.min(self.fed)
        } else {
            self.input
        }
    }

    /// One of its commands went on, or began and needs no call.
    pub fn went_on(&mut self)
        ensures { self.new ≡ record self.old { input = input_left self.old; settled = self.old.settled - 1 } }
    {
        self.input = self.input_left();
        self.settled = self.settled.saturating_sub(1);
    }

    /// One of its commands went on, or began, by a call.
    pub fn has_called(&mut self)
        ensures { self.new ≡ record self.old { input = input_left self.old; settled = self.old.settled - 1; calls_out = min (self.old.calls_out + 1) usize.MAX } }
    {
        self.went_on();
        self.calls_out = self.calls_out.saturating_add(1);
    }

    /// So many bytes of replies were shown to it.
    pub fn has_shown(&mut self, count: usize)
        ensures { self.new ≡ record self.old { answered = unshown self.old - count } }
    {
        self.answered = self.unshown().saturating_sub(count);
    }

    // One of its gets was answered by so many bytes.
    fn has_got(&mut self, len: usize)
        ensures { self.new ≡ one_got len self.old }
    {
        let before = self.expects.unwrap_or(0);
        self.expects = Some(len.max(before / 4));
        self.answered = self.answered.saturating_add(len);
    }

    // One of its calls was settled, or has failed.
    fn has_settled(&mut self)
        ensures { self.new ≡ one_settled self.old }
    {
        self.settled = self.settled.saturating_add(1);
        self.calls_out = self.calls_out.saturating_sub(1);
    }

    // How many bytes the answer to its next get is expected to take, if that can be said.
    fn expects(&self) -> Option<usize> {
        match self.expects {
            None if self.calls_out > 1 => Some(EXPECTED_FIRST),
            expects => expects,
        }
    }

    // One of its calls waits no longer.
    fn has_waited(&mut self)
        ensures { self.new ≡ one_waited self.old }
    {
        self.waiting = self.waiting.saturating_sub(1);
    }

    // Whether few bytes are to be sent to it.
    fn has_few(&self) -> bool
        ensures { result ≡ nat_lt (length (bytes_of self.now.conn.unsent)) HELD_BACK }
    {
        self.conn.unsent_len() < HELD_BACK
    }

    /// Whether what is to be sent to it is held back in this turn: where few bytes are to be sent and calls of it are out, whose replies then
    /// go out by the same write if they come in the next turn. What was held back isn't again.
    pub fn holds_back(&mut self) -> bool
        ensures waits { result ≡ waits_a_turn self.old }
        ensures noted { self.new ≡ record self.old { is_held_back = result } }
    {
        self.is_held_back = !self.is_held_back
            && !self.is_ended
            && 0 < self.calls_out
            && self.has_few();
        self.is_held_back
    }

    /// Nothing more is read of it. Unless it had ended, that is why it goes.
    pub fn end(&mut self, why: Departure)
        ensures { self.new ≡ record self.old { is_ended = true; leaves = self.new.leaves } }
    {
        self.leaves = if self.is_ended {
            self.leaves
        } else {
            Some(why)
        };
        self.is_ended = true;
    }

    // Why it goes, now that it is gone; whether the core has closed it.
    fn departure(&self, is_closed: bool) -> Departure {
        match self.leaves {
            Some(why) => why,
            None if is_closed => Departure::Quit,
            None => Departure::Ended,
        }
    }

    /// Its connection is gone, or is of no use any more: what was read and is still held, and what is still to be sent, are lost. Unless it was
    /// broken off before, that is why it goes.
    pub fn break_off(&mut self, why: Departure)
        ensures broken { Breaks self.old self.new }
    {
        self.leaves = if self.is_broken {
            self.leaves
        } else {
            Some(why)
        };
        self.is_ended = true;
        self.is_broken = true;
        self.conn.held.clear();
        self.conn.unsent.clear();
    }
}

// A flag is set, and where it wasn't, the id comes to the end of these. Where memory is refused for that, one is missing there.
fn mark(flag: &mut bool, ids: &mut Vec<usize>, id: usize, is_short: &mut bool)
    ensures flag { flag.new ≡ true }
    ensures listed { is_short.new ≡ false → ids.new.items ≡ (if flag.old then ids.old.items else ids.old.items ++ id ∷ []) }
    ensures short { is_short.new ≡ false → is_short.old ≡ false }
{
    if *flag {
        return;
    }
    *flag = true;
    if ids.push(id).is_err() {
        *is_short = true;
    }
}

// The client of this place, if there is one, is to be served.
fn mark_ready_at(place: &mut Option<Client>, ids: &mut Vec<usize>, id: usize, is_short: &mut bool)
    ensures client { place.new ≡ option_map (with_ready true) place.old }
    ensures listed { is_short.new ≡ false → ids.new.items ≡ ids_with (λ x. x.is_ready) place.old id ids.old.items }
    ensures short { is_short.new ≡ false → is_short.old ≡ false }
{
    match place {
        Some(client) => mark(&mut client.is_ready, ids, id, is_short),
        None => {}
    }
}

// The client of this place, if there is one, has something to send.
fn mark_output_at(place: &mut Option<Client>, ids: &mut Vec<usize>, id: usize, is_short: &mut bool)
    ensures client { place.new ≡ option_map (with_unsent true) place.old }
    ensures listed { is_short.new ≡ false → ids.new.items ≡ ids_with (λ x. x.has_output) place.old id ids.old.items }
    ensures short { is_short.new ≡ false → is_short.old ≡ false }
{
    match place {
        Some(client) => mark(&mut client.has_output, ids, id, is_short),
        None => {}
    }
}

// A command of the client of this place, if there is one, waits.
fn mark_busy_at(place: &mut Option<Client>, ids: &mut Vec<usize>, id: usize, is_short: &mut bool)
    ensures client { place.new ≡ option_map (with_busy true) place.old }
    ensures listed { is_short.new ≡ false → ids.new.items ≡ ids_with (λ x. x.is_busy) place.old id ids.old.items }
    ensures short { is_short.new ≡ false → is_short.old ≡ false }
{
    match place {
        Some(client) => mark(&mut client.is_busy, ids, id, is_short),
        None => {}
    }
}

// A call of the client of this place, if there is one, was settled, or has failed: the client is to be served.
fn mark_settled_at(place: &mut Option<Client>, ids: &mut Vec<usize>, id: usize, is_short: &mut bool)
    ensures client { place.new ≡ option_map (λ x. with_ready true (one_settled x)) place.old }
    ensures listed { is_short.new ≡ false → ids.new.items ≡ ids_with (λ x. x.is_ready) place.old id ids.old.items }
    ensures short { is_short.new ≡ false → is_short.old ≡ false }
{
    match place {
        Some(client) => {
            client.has_settled();
            mark(&mut client.is_ready, ids, id, is_short);
        }
        None => {}
    }
}

// A get of the client of this place, if there is one, was answered by so many bytes: the client is to be served.
fn mark_got_at(
    place: &mut Option<Client>,
    ids: &mut Vec<usize>,
    id: usize,
    len: usize,
    is_short: &mut bool,
)
    ensures client { place.new ≡ option_map (λ x. with_ready true (one_settled (one_got len x))) place.old }
    ensures listed { is_short.new ≡ false → ids.new.items ≡ ids_with (λ x. x.is_ready) place.old id ids.old.items }
    ensures short { is_short.new ≡ false → is_short.old ≡ false }
{
    match place {
        Some(client) => {
            client.has_got(len);
            client.has_settled();
            mark(&mut client.is_ready, ids, id, is_short);
        }
        None => {}
    }
}

// A call of the client of this place, if there is one, waits no longer: the client is to be served.
fn end_waiting_at(place: &mut Option<Client>, ids: &mut Vec<usize>, id: usize, is_short: &mut bool)
    ensures client { place.new ≡ option_map (λ x. with_ready true (one_waited x)) place.old }
    ensures listed { is_short.new ≡ false → ids.new.items ≡ ids_with (λ x. x.is_ready) place.old id ids.old.items }
    ensures short { is_short.new ≡ false → is_short.old ≡ false }
{
    match place {
        Some(client) => {
            client.has_waited();
            mark(&mut client.is_ready, ids, id, is_short);
        }
        None => {}
    }
}

// A call of the client of this place, if there is one, waits until its server takes more.
fn mark_waiting_at(place: &mut Option<Client>)
    ensures { place.new ≡ option_map one_waits place.old }
{
    if let Some(client) = place {
        client.waiting = client.waiting.saturating_add(1);
    }
}

// The client of this place, if there is one, is ready no longer.
fn end_ready_at(place: &mut Option<Client>)
    ensures { place.new ≡ option_map (with_ready false) place.old }
{
    if let Some(client) = place {
        client.is_ready = false;
    }
}

// The client of this place, if there is one, is busy no longer: whether there is one, and it isn't ready.
fn end_busy_at(place: &mut Option<Client>) -> bool
    ensures client { place.new ≡ option_map (with_busy false) place.old }
    ensures idle { result ≡ client_is_idle place.old }
{
    match place {
        Some(client) => {
            client.is_busy = false;
            !client.is_ready
        }
        None => false,
    }
}

// What the system told of the socket of this place's client, if there is one: whether something can be sent to it, and is there.
fn note_at(place: &mut Option<Client>, told: Ready) -> bool
    ensures client { place.new ≡ option_map (with_told told) place.old }
    ensures sends { result ≡ will_send told place.old }
{
    match place {
        Some(client) => {
            client.conn.note(told);
            told.writes && !client.conn.is_all_sent()
        }
        None => false,
    }
}

// There are places up to this one at least, and nobody stands at a new one.
fn make_place(all: &mut Places, id: usize) -> Result<(), AllocError>
    ensures there { OnOk result (id < length all.new.items) }
    ensures same { (other : ℕ) → option_flatten (slice_get all.new.items other) ≡ option_flatten (slice_get all.old.items other) }
{
    for _ in all.len()..=id {
        all.push_none()?;
    }
    Ok(())
}

// The client stands at this place.
fn put_at(all: &mut Places, id: usize, client: Client)
    requires { id < length all.old.items }
    ensures { all.new.items ≡ slice_set all.old.items id (Some client) }
{
    if let Some(place) = all.get_mut(id) {
        *place = Some(client);
    }
}

// Nobody stands at this place any more: the number of the connection of who stood there.
fn empty(place: &mut Option<Client>) -> Option<usize>
    ensures conn { result ≡ option_map (λ x. x.conn.number) place.old }
    ensures gone { place.new ≡ None }
{
    let number = match place {
        Some(client) => Some(client.conn.number),
        None => None,
    };
    *place = None;
    number
}

// How a client is marked.
#[derive(Clone, Copy)]
enum Marking {
    // It is to be served.
    Ready,
    // It has something to send.
    Unsent,
    // A command of it waits for a key or a server.
    Busy,
}

// Whether a client stands there that is marked so.
fn is_marked(place: &Option<Client>, mark: Marking) -> bool
    ensures { result ≡ is_marked mark place.now }
{
    let Some(client) = place else {
        return false;
    };
    match mark {
        Marking::Ready => client.is_ready,
        Marking::Unsent => client.has_output,
        Marking::Busy => client.is_busy,
    }
}

// The id comes to the end of these where its client is marked so. Whether memory was there for that.
fn list_if_marked(place: &Option<Client>, mark: Marking, ids: &mut Vec<usize>, id: usize) -> bool
    ensures { result ≡ true → ids.new.items ≡ (if is_marked mark place.now then ids.old.items ++ id ∷ [] else ids.old.items) }
{
    if is_marked(place, mark) {
        return ids.push(id).is_ok();
    }
    true
}

// These are all that are marked so from now on, or some of them where memory is refused: whether they are all.
fn list_marked(all: &[Option<Client>], mark: Marking, ids: &mut Vec<usize>) -> bool
    ensures { result ≡ true → HasMarked mark all.now ids.new.items }
{
    ids.clear();
    for id in 0..all.len() {
        if !list_if_marked(&all[id], mark, ids, id) {
            return false;
        }
    }
    true
}

/// All clients, by their ids in the core, and lists of the ids of those that are ready, that have something to send, and of which a command
/// waits. Where memory is refused for a list, [`is_short`](Clients::is_short) tells that one may be missing.
#[derive(Drop)]
pub struct Clients {
    all: Places,
    pub ready: Vec<usize>,
    pub with_output: Vec<usize>,
    pub busy: Vec<usize>,
    /// Whether one may be missing in a list, as memory was refused for that.
    pub is_short: bool,
}

impl Clients {
    /// No clients.
    pub fn new(alloc: Global) -> Clients
        ensures none { result.all.items ≡ [] }
    {
        Clients {
            all: Places::new(alloc),
            ready: Vec::new(alloc),
            with_output: Vec::new(alloc),
            busy: Vec::new(alloc),
            is_short: false,
        }
    }

    /// The ids of clients are below this.
    pub fn len(&self) -> usize
        ensures { result ≡ length self.now.all.items }
    {
        self.all.len()
    }

    /// How many clients there are.
    pub fn count(&self) -> usize {
        self.all.as_slice().iter().flatten().count()
    }

    /// The client of this id. It stays as the borrower leaves it, and all else stays as it is.
    pub fn get_mut(&mut self, id: usize) -> Option<&mut Client>
        ensures* writes_back { sem 𝓛 (LendsClient self.entry id result) }
        ensures value { option_copied_mut result ≡ client_of self.old id }
    {
        self.all.get_mut(id)?.as_mut()
    }

    /// The client of this id is this one from now on, and is to be served. No other client changes. The only error: memory was refused, and
    /// those that are to be served stay the same.
    pub fn insert(&mut self, id: usize, client: Client) -> Result<(), AllocError>
        ensures there { OnOk result (client_of self.new id ≡ Some (with_ready true client)) }
        ensures listed { OnOk result (self.new.is_short ≡ false → self.new.ready.items ≡ ids_with (λ x. x.is_ready) (Some client) id self.old.ready.items) }
        ensures unlisted { OnErr result (self.new.ready.items ≡ self.old.ready.items) }
        ensures others { (other : ℕ) → other ≢ id → client_of self.new other ≡ client_of self.old other }
        ensures rest { self.new ≡ record self.old { all = self.new.all; ready = self.new.ready; is_short = self.new.is_short } }
    {
        make_place(&mut self.all, id)?;
        put_at(&mut self.all, id, client);
        self.mark_ready(id);
        Ok(())
    }

    /// The client of this id is gone: the number of its connection, which is to be closed. Without such a client nothing changes.
    pub fn remove(&mut self, id: usize) -> Option<usize>
        ensures conn { result ≡ option_map (λ x. x.conn.number) (client_of self.old id) }
        ensures gone { self.new.all.items ≡ slice_set self.old.all.items id None }
        ensures rest { self.new ≡ record self.old { all = self.new.all } }
    {
        match self.all.get_mut(id) {
            Some(place) => empty(place),
            None => None,
        }
    }

    /// The client of this id, if there is one, is to be served: unless it was already, its id comes to the end of those that are.
    pub fn mark_ready(&mut self, id: usize)
        ensures client { Changes (with_ready true) id self.old self.new }
        ensures listed { self.new.is_short ≡ false → self.new.ready.items ≡ ids_with (λ x. x.is_ready) (client_of self.old id) id self.old.ready.items }
        ensures short { self.new.is_short ≡ false → self.old.is_short ≡ false }
        ensures rest { self.new ≡ record self.old { all = self.new.all; ready = self.new.ready; is_short = self.new.is_short } }
    {
        match self.all.get_mut(id) {
            Some(place) => mark_ready_at(place, &mut self.ready, id, &mut self.is_short),
            None => {}
        }
    }

    /// The client of this id, if there is one, has something to send: unless it had already, its id comes to the end of those that have.
    pub fn mark_output(&mut self, id: usize)
        ensures client { Changes (with_unsent true) id self.old self.new }
        ensures listed { self.new.is_short ≡ false → self.new.with_output.items ≡ ids_with (λ x. x.has_output) (client_of self.old id) id self.old.with_output.items }
        ensures short { self.new.is_short ≡ false → self.old.is_short ≡ false }
        ensures rest { self.new ≡ record self.old { all = self.new.all; with_output = self.new.with_output; is_short = self.new.is_short } }
    {
        match self.all.get_mut(id) {
            Some(place) => mark_output_at(place, &mut self.with_output, id, &mut self.is_short),
            None => {}
        }
    }

    /// A command of the client of this id, if there is one, waits for a key or a server: unless one did already, its id comes to the end of
    /// those that wait so.
    pub fn mark_busy(&mut self, id: usize)
        ensures client { Changes (with_busy true) id self.old self.new }
        ensures listed { self.new.is_short ≡ false → self.new.busy.items ≡ ids_with (λ x. x.is_busy) (client_of self.old id) id self.old.busy.items }
        ensures short { self.new.is_short ≡ false → self.old.is_short ≡ false }
        ensures rest { self.new ≡ record self.old { all = self.new.all; busy = self.new.busy; is_short = self.new.is_short } }
    {
        match self.all.get_mut(id) {
            Some(place) => mark_busy_at(place, &mut self.busy, id, &mut self.is_short),
            None => {}
        }
    }

    /// The ids of those that wait for a key or a server go after these, but for those that are ready too. They wait no longer then. All ends
    /// stay as they are, for the wire. The only error: memory was refused.
    #[tactic(auto, using(crate::proofs::Agreeing::keeps_none))]
    pub fn move_busy(&mut self, to: &mut Vec<usize>) -> Result<(), AllocError>
        ensures ends { KeepsEnds self.old self.new }
        ensures moved { OnOk result (to.new.items ≡ to.old.items ++ filter (λ id. client_is_idle (client_of self.old id)) self.old.busy.items) }
        ensures clients { OnOk result (EndsBusy self.old.busy.items self.old self.new) }
        ensures none { OnOk result (self.new.busy.items ≡ []) }
        ensures rest { self.new ≡ record self.old { all = self.new.all; busy = self.new.busy } }
    {
        for i in 0..self.busy.len() {
            let id = self.busy[i];
            self.move_one(id, to)?;
        }
        self.busy.clear();
        Ok(())
    }

    // The client of this id waits for a key or a server no longer, and its id goes after these if it isn't ready. Where memory is refused for that, nothing changes.
    #[tactic(auto, using(crate::proofs::Agreeing::moved_keeps))]
    fn move_one(&mut self, id: usize, to: &mut Vec<usize>) -> Result<(), AllocError>
        ensures ends { KeepsEnds self.old self.new }
        ensures client { OnOk result (Changes (with_busy false) id self.old self.new) }
        ensures moved { OnOk result (to.new.items ≡ (if client_is_idle (client_of self.old id) then to.old.items ++ id ∷ [] else to.old.items)) }
        ensures rest { self.new ≡ record self.old { all = self.new.all } }
    {
        if self.is_idle(id) {
            to.push(id)?;
        }
        let _ = self.end_busy(id);
        Ok(())
    }

    // Whether there is a client of this id, and it isn't ready.
    fn is_idle(&self, id: usize) -> bool
        ensures { result ≡ client_is_idle (client_of self.now id) }
    {
        match self.all.as_slice().get(id) {
            Some(Some(client)) => !client.is_ready,
            _ => false,
        }
    }

    /// What was to be sent to the client of this id was held back: its id comes to the end of those that have something to send, for the next
    /// turn.
    pub fn hold_back(&mut self, id: usize)
        ensures listed { self.new.is_short ≡ false → self.new.with_output.items ≡ self.old.with_output.items ++ id ∷ [] }
        ensures short { self.new.is_short ≡ false → self.old.is_short ≡ false }
        ensures rest { self.new ≡ record self.old { with_output = self.new.with_output; is_short = self.new.is_short } }
    {
        if self.with_output.push(id).is_err() {
            self.is_short = true;
        }
    }

    /// Where one may be missing in a list, all that are marked are listed anew, as far as memory is there for that.
    pub fn list_again(&mut self)
        ensures listed { self.old.is_short ≡ true → self.new.is_short ≡ false → AreListed self.new }
        ensures same { self.old.is_short ≡ false → self.new ≡ self.old }
        ensures clients { self.new.all ≡ self.old.all }
    {
        if !self.is_short {
            return;
        }
        let are_ready = list_marked(self.all.as_slice(), Marking::Ready, &mut self.ready);
        let are_unsent = list_marked(self.all.as_slice(), Marking::Unsent, &mut self.with_output);
        let are_busy = list_marked(self.all.as_slice(), Marking::Busy, &mut self.busy);
        self.is_short = !(are_ready && are_unsent && are_busy);
    }

    /// The client of this id, if there is one, is marked as ready no longer. The list stays as it is.
    pub fn end_ready(&mut self, id: usize)
        ensures client { Changes (with_ready false) id self.old self.new }
        ensures rest { self.new ≡ record self.old { all = self.new.all } }
    {
        if let Some(place) = self.all.get_mut(id) {
            end_ready_at(place);
        }
    }

    /// The client of this id, if there is one, is marked as one that waits no longer. The list stays as it is. Whether it is to be served for
    /// that: whether there is one, and it isn't ready.
    pub fn end_busy(&mut self, id: usize) -> bool
        ensures client { Changes (with_busy false) id self.old self.new }
        ensures idle { result ≡ client_is_idle (client_of self.old id) }
        ensures rest { self.new ≡ record self.old { all = self.new.all } }
    {
        match self.all.get_mut(id) {
            Some(place) => end_busy_at(place),
            None => false,
        }
    }

    /// A call of the client of this id, if there is one, was settled, or has failed: one of its commands can go on, and it is to be served.
    #[tactic(auto, using(crate::proofs::Agreeing::settled_keeps))]
    pub fn mark_settled(&mut self, id: usize)
        ensures ends { KeepsEnds self.old self.new }
        ensures client { Changes (λ x. with_ready true (one_settled x)) id self.old self.new }
        ensures listed { self.new.is_short ≡ false → self.new.ready.items ≡ ids_with (λ x. x.is_ready) (client_of self.old id) id self.old.ready.items }
        ensures short { self.new.is_short ≡ false → self.old.is_short ≡ false }
        ensures rest { self.new ≡ record self.old { all = self.new.all; ready = self.new.ready; is_short = self.new.is_short } }
    {
        match self.all.get_mut(id) {
            Some(place) => mark_settled_at(place, &mut self.ready, id, &mut self.is_short),
            None => {}
        }
    }

    // A get of the client of this id, if there is one, was answered by so many bytes: one of its commands can go on, and it is to be served.
    fn mark_got(&mut self, id: usize, len: usize)
        ensures client { Changes (λ x. with_ready true (one_settled (one_got len x))) id self.old self.new }
        ensures listed { self.new.is_short ≡ false → self.new.ready.items ≡ ids_with (λ x. x.is_ready) (client_of self.old id) id self.old.ready.items }
        ensures short { self.new.is_short ≡ false → self.old.is_short ≡ false }
        ensures rest { self.new ≡ record self.old { all = self.new.all; ready = self.new.ready; is_short = self.new.is_short } }
    {
        match self.all.get_mut(id) {
            Some(place) => mark_got_at(place, &mut self.ready, id, len, &mut self.is_short),
            None => {}
        }
    }

    /// A call of the client of this id, if there is one, was settled by an answer of so many bytes: one of its commands can go on, and it is to be served.
    /// They are held for it until they are shown, if it is to a get; and then the answer to its next get is expected to take as many, or a quarter of what
    /// was expected of this one where that is more.
    #[tactic(auto, using(crate::proofs::Agreeing::answered_keeps))]
    pub fn mark_answered(&mut self, id: usize, is_get: bool, len: usize)
        ensures ends { KeepsEnds self.old self.new }
        ensures client { Changes (λ x. with_ready true (one_answered is_get len x)) id self.old self.new }
        ensures listed { self.new.is_short ≡ false → self.new.ready.items ≡ ids_with (λ x. x.is_ready) (client_of self.old id) id self.old.ready.items }
        ensures short { self.new.is_short ≡ false → self.old.is_short ≡ false }
        ensures rest { self.new ≡ record self.old { all = self.new.all; ready = self.new.ready; is_short = self.new.is_short } }
    {
        if is_get {
            self.mark_got(id, len)
        } else {
            self.mark_settled(id)
        }
    }

    /// How many bytes are held for the client of this id ([`Client::held`]).
    pub fn held(&self, id: usize) -> usize
        ensures { result ≡ held_at self.now id }
    {
        match self.all.as_slice().get(id) {
            Some(Some(client)) => client.held(),
            _ => 0,
        }
    }

    /// Whether more bytes than these are held for all clients together. Only those that were lent since that was asked last are looked at.
    pub fn hold_more(&mut self, most: usize) -> bool
        ensures more { IsTrue result ↔ (most < sum_by held_of self.old.all.items) }
        ensures same { self.new ≡ self.old }
    {
        self.all.held() > most as u128
    }

    /// Why the client of this id goes, now that it is gone; whether the core has closed it.
    pub fn departure(&self, id: usize, is_closed: bool) -> Departure {
        match self.all.as_slice().get(id) {
            Some(Some(client)) => client.departure(is_closed),
            _ => Departure::Ended,
        }
    }

    /// How many bytes the answer to the next get of the client of this id is expected to take: much where calls of it are out and none of its gets was
    /// answered yet, and nothing is known where it is its first call.
    pub fn expects(&self, id: usize) -> Option<usize> {
        match self.all.as_slice().get(id) {
            Some(Some(client)) => client.expects(),
            _ => None,
        }
    }

    /// A call of the client of this id, if there is one, waits until its server takes more.
    pub fn mark_waiting(&mut self, id: usize)
        ensures client { Changes one_waits id self.old self.new }
        ensures rest { self.new ≡ record self.old { all = self.new.all } }
    {
        if let Some(place) = self.all.get_mut(id) {
            mark_waiting_at(place);
        }
    }

    /// A call of the client of this id, if there is one, waits no longer, and the client is to be served.
    #[tactic(auto, using(crate::proofs::Agreeing::waited_keeps))]
    pub fn end_waiting(&mut self, id: usize)
        ensures ends { KeepsEnds self.old self.new }
        ensures client { Changes (λ x. with_ready true (one_waited x)) id self.old self.new }
        ensures listed { self.new.is_short ≡ false → self.new.ready.items ≡ ids_with (λ x. x.is_ready) (client_of self.old id) id self.old.ready.items }
        ensures short { self.new.is_short ≡ false → self.old.is_short ≡ false }
        ensures rest { self.new ≡ record self.old { all = self.new.all; ready = self.new.ready; is_short = self.new.is_short } }
    {
        match self.all.get_mut(id) {
            Some(place) => end_waiting_at(place, &mut self.ready, id, &mut self.is_short),
            None => {}
        }
    }

    /// What the system told of the socket of the client of this id, if there is one, is noted beside what it told before, and the client is to be served
    /// where something can be read, and has something to send where something can be sent and is there. No other client changes.
    pub fn note(&mut self, id: usize, told: Ready)
        ensures ends { KeepsEnds self.old self.new }
        ensures client { Changes (noted told) id self.old self.new }
        ensures served { self.new.is_short ≡ false → self.new.ready.items ≡ ids_if told.reads (λ x. x.is_ready) (client_of self.old id) id self.old.ready.items }
        ensures unsent { self.new.is_short ≡ false → self.new.with_output.items ≡ ids_if (will_send told (client_of self.old id)) (λ x. x.has_output) (client_of self.old id) id self.old.with_output.items }
        ensures others { (other : ℕ) → other ≢ id → client_of self.new other ≡ client_of self.old other }
        ensures rest { self.new ≡ record self.old { all = self.new.all; ready = self.new.ready; with_output = self.new.with_output; is_short = self.new.is_short } }
    {
        let sends = self.note_told(id, told);
        self.mark_ready_if(id, told.reads);
        self.mark_output_if(id, sends);
    }

    // What the system told of the socket of the client of this id is noted: whether something can be sent to it, and is there.
    fn note_told(&mut self, id: usize, told: Ready) -> bool
        ensures client { Changes (with_told told) id self.old self.new }
        ensures sends { result ≡ will_send told (client_of self.old id) }
        ensures rest { self.new ≡ record self.old { all = self.new.all } }
    {
        match self.all.get_mut(id) {
            Some(place) => note_at(place, told),
            None => false,
        }
    }

    // The client of this id, if there is one, is to be served where `reads` holds.
    fn mark_ready_if(&mut self, id: usize, reads: bool)
        ensures client { Changes (ready_if reads) id self.old self.new }
        ensures listed { self.new.is_short ≡ false → self.new.ready.items ≡ ids_if reads (λ x. x.is_ready) (client_of self.old id) id self.old.ready.items }
        ensures short { self.new.is_short ≡ false → self.old.is_short ≡ false }
        ensures rest { self.new ≡ record self.old { all = self.new.all; ready = self.new.ready; is_short = self.new.is_short } }
    {
        if reads {
            self.mark_ready(id);
        }
    }

    // The client of this id, if there is one, has something to send where `writes` holds.
    fn mark_output_if(&mut self, id: usize, writes: bool)
        ensures client { Changes (unsent_if writes) id self.old self.new }
        ensures listed { self.new.is_short ≡ false → self.new.with_output.items ≡ ids_if writes (λ x. x.has_output) (client_of self.old id) id self.old.with_output.items }
        ensures short { self.new.is_short ≡ false → self.old.is_short ≡ false }
        ensures rest { self.new ≡ record self.old { all = self.new.all; with_output = self.new.with_output; is_short = self.new.is_short } }
    {
        if writes {
            self.mark_output(id);
        }
    }
}
