//! The calls of one server that are out, the one that went out first in front.

ghost use Rattle.std.specs.Prelude.{◌≡◌, ◌⊎◌, None, [], ◌∷◌, ◌++◌, ◌↔◌, true, false, IsTrue, OnOk, OnErr, IfOk, IfErr, IfSome, length, option_map};
ghost use Rattle.mc_types.specs.Asks.{IsAsk};
ghost use Rattle.wire_stream.specs.Spelling.{spelling_of};
ghost use Rattle.wire_parts.specs.Sending.{bytes_of};
ghost use Rattle.mc_types.specs.declared.ask.Dialect.TheVariants.{Meta};
ghost use Rattle.wire_stream.specs.Usual.{IsUsualTo};
ghost use Rattle.serve_links.specs.Dialects.{asked_in};
ghost use Rattle.serve_links.specs.Stores.{changes_data};
ghost use Rattle.core_accepted.specs.Results.{IsSettled};
ghost use Rattle.serve_links.specs.Calls.{IsReadFor, IsReadNext, IsFirstLate, IsReadLate, as_late, first_asked, stores_first, FitsFirst, SettlesFirst, SettlesNext};
ghost use Rattle.mc_types.specs.declared.call.Outcome.TheVariants.{Failed};
ghost use Rattle.std.specs.List.{Any};
ghost use Rattle.serve_links.specs.Lateness.{IsLate};
ghost use Rattle.serve_links.specs.Unsent.{HasSince};
ghost use Rattle.serve_links.specs.Counting.{with_first, with_first_error, with_next};

use crate::calls::late_call::LateCall;
use crate::calls::sending::send_ask;
use crate::calls::times::CallTimes;
use crate::tally::CallTally;
use core_accepted::ServedCore;
use core_proxy::Ticket;
use mc_types::{Ask, Dialect, Op, Outcome, SpareBodies};
use std::alloc::{AllocError, Global};
use std::collections::VecDeque;
use wire_answers::laws::spelled_answers_fit;
use wire_parts::to_send::SendBuffer;
use wire_stream::meta_gets::form::is_retrieval;
use wire_stream::meta_gets::{
    MetaForms, UsualHit, is_plain_get, read_hit, read_in_meta, usual_hit, write_get, write_in_meta,
};
use wire_stream::{AnswerRead, Received, read_received};

// A get is bulk of whose answer more bytes than these are expected.
const BULK_FROM: usize = 65_536;

// No further get that is bulk goes out while so many bytes are expected of those that are out.
const BULK_OUT: usize = 1_310_720;

// What the first get of a client is expected to take falls by such a part at each answer that is smaller.
const EXPECTS_PART: usize = 64;

/// A call that went out to a server.
#[derive(Drop)]
pub struct SentCall {
    pub ticket: Ticket,
    /// Whose command it is.
    pub client: usize,
    /// When it began, in milliseconds: also where it waited before it went out.
    pub since: u64,
    /// When it began by the clock of calls that wait, in milliseconds, which doesn't count how long the process stood still.
    pub paced: u64,
    /// How many bytes its answer is expected to take, where that is much; 0 for all other calls.
    pub bulk: usize,
    /// In which dialect its server is asked for a classic get; all else is asked as it is.
    pub dialect: Dialect,
}

/// What is left of a server's bytes, in which no further whole answer stands.
#[derive(Clone, Copy, PartialEq, Eq)]
pub enum Left {
    /// Nothing, or the begin of the answer to the first call whose answer is to come.
    Begun,
    /// What begins no answer to that call, or what no call asked for.
    NoAnswer,
    /// What couldn't be read, as memory was refused for that: it may be read again.
    NoMemory,
}

/// What was done with a server's bytes.
#[derive(Clone, Copy)]
pub enum Next {
    /// The first call of those that are out was settled: it was this client's, and its answer so many bytes.
    Settled { client: usize, used: usize },
    /// None was: the bytes begin with no whole answer to it.
    Left(Left),
}

/// The calls of one server that are out, in the order in which they went out.
#[derive(Drop)]
pub struct LinkCalls {
    alloc: Global,
    sent: VecDeque<SentCall>,
    // How many bytes are expected of those among them whose answers are large.
    bulk_out: usize,
    // How many bytes the answer to the first get of a client is expected to take.
    expects: usize,
    // Those of the last gets that were asked in the meta dialect.
    forms: MetaForms,
    // Bodies of earlier answers, for later ones.
    spares: SpareBodies,
    times: CallTimes,
}

/// A call that could not go out has failed.
pub fn fail_call(core: &mut ServedCore, ticket: Ticket)
    ensures { IsSettled core.old ticket.number Failed core.new }
{
    let _ = core.settle(ticket, Outcome::Failed);
}

// Whether a call of this operation may put an item, or change the data of one. A touch or a gat that a
// server applies late changes only when an item expires, and a late delete takes one away: after the item
// was deleted and stored again, neither mixes other data into it.
fn changes_data(op: Op) -> bool
    ensures { result ≡ changes_data op }
{
    match op {
        Op::Set | Op::Add | Op::Replace => true,
        Op::Append | Op::Prepend | Op::Cas => true,
        Op::Incr | Op::Decr => true,
        Op::Get | Op::Gat | Op::Touch | Op::Delete => false,
    }
}

// Appends what a server is asked that speaks the meta dialect.
#[tactic(auto, using(crate::proofs::CallOrder::asked_else))]
fn send_in_meta(
    alloc: Global,
    forms: &mut MetaForms,
    ask: &Ask,
    out: &mut SendBuffer,
) -> Result<(), AllocError>
    requires { IsAsk ask.now }
    ensures ok { OnOk result (bytes_of out.new ≡ bytes_of out.old ++ spelling_of (asked_in Meta ask.now)) }
    ensures err { OnErr result (bytes_of out.new ≡ bytes_of out.old) }
{
    if is_retrieval(ask) {
        return write_in_meta(alloc, forms, ask, &mut out.text);
    }
    send_ask(ask, out)
}

// Appends what a server is asked in this dialect.
fn send_in(
    dialect: Dialect,
    alloc: Global,
    forms: &mut MetaForms,
    ask: &Ask,
    out: &mut SendBuffer,
) -> Result<(), AllocError>
    requires { IsAsk ask.now }
    ensures ok { OnOk result (bytes_of out.new ≡ bytes_of out.old ++ spelling_of (asked_in dialect ask.now)) }
    ensures err { OnErr result (bytes_of out.new ≡ bytes_of out.old) }
{
    match dialect {
        Dialect::Classic => send_ask(ask, out),
        Dialect::Meta => send_in_meta(alloc, forms, ask, out),
    }
}

// Appends what a server is asked in this dialect: whether it was. A get without an expiry in the meta dialect is most of what is asked.
#[tactic(auto, using(crate::proofs::CallOrder::asked_get))]
fn send_any(
    dialect: Dialect,
    alloc: Global,
    forms: &mut MetaForms,
    ask: &Ask,
    out: &mut SendBuffer,
) -> bool
    requires { IsAsk ask.now }
    ensures sent { result ≡ true → bytes_of out.new ≡ bytes_of out.old ++ spelling_of (asked_in dialect ask.now) }
    ensures refused { result ≡ false → bytes_of out.new ≡ bytes_of out.old }
{
    if dialect == Dialect::Meta && is_plain_get(ask) {
        return write_get(ask, &mut out.text).is_ok();
    }
    send_in(dialect, alloc, forms, ask, out).is_ok()
}

// The hit that the bytes begin with, where they are spelled as servers mostly do.
fn hit_in(dialect: Dialect, ask: &Ask, bytes: &[u8]) -> Option<UsualHit>
    ensures { IfSome result (λ hit. (dialect ≡ Meta) × IsUsualTo ask.now bytes.now hit) }
{
    match dialect {
        Dialect::Classic => None,
        Dialect::Meta => usual_hit(ask, bytes),
    }
}

// What the bytes say to the ask, as it was asked in this dialect.
#[tactic(auto, using(crate::proofs::CallOrder::read_classic, crate::proofs::CallOrder::read_meta))]
fn read_in(
    dialect: Dialect,
    alloc: Global,
    forms: &mut MetaForms,
    spares: &mut SpareBodies,
    ask: &Ask,
    received: &Received,
) -> Result<AnswerRead, AllocError>
    requires { IsAsk ask.now }
    ensures { IfOk result (IsReadFor dialect ask.now received.now) }
{
    spelled_answers_fit();
    match dialect {
        Dialect::Classic => read_received(alloc, spares, ask, received),
        Dialect::Meta => read_in_meta(alloc, forms, spares, ask, received),
    }
}

// What the bytes say to the ask, as it was asked in this dialect; `None` where memory was refused for reading it.
#[tactic(auto, using(crate::proofs::CallOrder::read_meta))]
fn read_for(
    dialect: Dialect,
    alloc: Global,
    forms: &mut MetaForms,
    spares: &mut SpareBodies,
    ask: &Ask,
    received: &Received,
) -> Option<AnswerRead>
    requires { IsAsk ask.now }
    ensures { IfSome result (IsReadFor dialect ask.now received.now) }
{
    if let Some(hit) = hit_in(dialect, ask, received.bytes()) {
        return read_hit(alloc, spares, ask, hit, received).ok();
    }
    read_in(dialect, alloc, forms, spares, ask, received).ok()
}

// What the bytes say to the core's call of this number, as it was asked in this dialect: where none is out, they are foreign. `None` where memory
// was refused for reading it.
#[tactic(auto, using(crate::proofs::CallOrder::read_next, crate::proofs::CallOrder::read_nothing))]
fn read_next(
    dialect: Dialect,
    alloc: Global,
    forms: &mut MetaForms,
    spares: &mut SpareBodies,
    core: &ServedCore,
    number: u64,
    received: &Received,
) -> Option<AnswerRead>
    ensures { IfSome result (IsReadNext dialect core.now.core number received.now) }
{
    match core.asked(number) {
        None => Some(AnswerRead::Foreign),
        Some(ask) => read_for(dialect, alloc, forms, spares, ask, received),
    }
}

// Whether the call began more than so many milliseconds before now.
fn is_late(call: &SentCall, most: u64, now: u64) -> bool
    ensures { result ≡ true → IsLate most now call.now }
{
    call.since.saturating_add(most) < now
}

// The call as one that is late. The only error is that its ask can't be shared once more.
#[tactic(auto, using(crate::proofs::CallOrder::same_is_ask, crate::proofs::CallOrder::same_late))]
fn late_of(call: &SentCall) -> Result<LateCall, AllocError>
    ensures { IfOk result (λ late. late ≡ as_late call.now) }
{
    let ask = call.ticket.ask.copy()?;
    Ok(LateCall {
        number: call.ticket.number,
        dialect: call.dialect,
        since: call.since,
        ask,
    })
}

impl LinkCalls {
    /// No call is out. It takes no memory.
    pub fn new(alloc: Global) -> LinkCalls
        ensures { result.sent.items ≡ [] }
    {
        LinkCalls {
            alloc,
            sent: VecDeque::new(alloc),
            bulk_out: 0,
            expects: 0,
            forms: MetaForms::new(),
            spares: SpareBodies::new(alloc),
            times: CallTimes::new(alloc),
        }
    }

    /// How many calls are out.
    pub fn len(&self) -> usize
        ensures { result ≡ length self.now.sent.items }
    {
        self.sent.len()
    }

    /// Whether none is out.
    pub fn is_empty(&self) -> bool
        ensures { IsTrue result ↔ (self.now.sent.items ≡ []) }
    {
        self.sent.is_empty()
    }

    /// When the first of those that are out began: the one in front, but where bulk calls are out, which others passed.
    pub fn oldest(&self) -> Option<u64>
        ensures none { self.now.sent.items ≡ [] → result ≡ None }
        ensures one { IfSome result (λ since. HasSince since self.now.sent.items) }
    {
        match self.sent.front() {
            Some(call) if self.bulk_out == 0 => Some(call.since),
            Some(call) => Some(self.oldest_of_all(call.since)),
            None => None,
        }
    }

    // The earliest time at which one of those that are out began, or this.
    fn oldest_of_all(&self, since: u64) -> u64
        ensures { (result ≡ since) ⊎ HasSince result self.now.sent.items }
    {
        let mut oldest = since;
        for call in self.sent.iter() {
            oldest = oldest.min(call.since);
        }
        oldest
    }

    // Whether one is out at this place that began more than so many milliseconds before now.
    #[tactic(auto, using(crate::proofs::CallOrder::late_there))]
    fn is_late_at(&self, at: usize, most: u64, now: u64) -> bool
        ensures { result ≡ true → Any (IsLate most now) self.now.sent.items }
    {
        match self.sent.get(at) {
            None => false,
            Some(call) => is_late(call, most, now),
        }
    }

    /// Whether one of those that are out began more than so many milliseconds before now.
    pub fn has_late(&self, most: u64, now: u64) -> bool
        ensures { result ≡ true → Any (IsLate most now) self.now.sent.items }
    {
        for at in 0..self.sent.len() {
            if self.is_late_at(at, most, now) {
                return true;
            }
        }
        false
    }

    /// Whether the call in front is a get.
    pub fn awaits_get(&self) -> bool {
        match self.sent.front() {
            Some(call) => call.ticket.ask.get().op == Op::Get,
            None => false,
        }
    }

    /// Whether the call in front is a store: a set, an add, a replace, an append, a prepend, a cas, an incr or
    /// a decr, in either dialect.
    pub fn awaits_store(&self) -> bool
        ensures { result ≡ stores_first self.now.sent.items }
    {
        match self.sent.front() {
            Some(call) => changes_data(call.ticket.ask.get().op),
            None => false,
        }
    }

    // How many bytes are expected after the answer to the call in front, which takes so many.
    fn expects_after(&self, used: usize) -> usize {
        if !self.awaits_get() {
            return self.expects;
        }
        let kept = self.expects.saturating_sub(self.expects / EXPECTS_PART);
        used.max(kept)
    }

    /// How many bytes the answer to this call is expected to take, where that is much, and 0 else: where it is a get of a client that expects
    /// so many. Where nothing is known of the client as many are expected as the answers to other gets of this server took lately.
    pub fn bulk_of(&self, ask: &Ask, expects: Option<usize>) -> usize {
        let expects = expects.unwrap_or(self.expects);
        if ask.op == Op::Get && expects > BULK_FROM {
            expects
        } else {
            0
        }
    }

    /// Whether a call may go out of which so many bytes are expected: all may but where much is expected of those that are out.
    pub fn has_room_for(&self, bulk: usize) -> bool {
        bulk == 0 || self.bulk_out < BULK_OUT
    }

    // The number of the call that went out first, and the dialect in which it was asked.
    fn first_asked(&self) -> Option<(u64, Dialect)>
        ensures { result ≡ first_asked self.now.sent.items }
    {
        match self.sent.front() {
            None => None,
            Some(call) => Some((call.ticket.number, call.dialect)),
        }
    }

    /// The call's ask is appended in its dialect to what is to be sent, and the call is after those that are out. Large data of a store
    /// aren't copied, as [`send_ask`] says.
    ///
    /// Where memory was refused the call is given back, and nothing has changed. `now` is in microseconds.
    ///
    /// Source: mcgate's own.
    #[tactic(auto, using(crate::proofs::CallOrder::same_is_ask))]
    pub fn begin(&mut self, call: SentCall, now: u64, out: &mut SendBuffer) -> Result<(), SentCall>
        ensures ok { OnOk result ((self.new.sent.items ≡ self.old.sent.items ++ call ∷ []) × (bytes_of out.new ≡ bytes_of out.old ++ spelling_of (asked_in call.dialect call.ticket.ask))) }
        ensures err { IfErr result (λ given. (given ≡ call) × (self.new.sent.items ≡ self.old.sent.items) × (bytes_of out.new ≡ bytes_of out.old)) }
    {
        if self.sent.reserve(1).is_err() || self.times.reserve().is_err() {
            return Err(call);
        }
        let ask = call.ticket.ask.get();
        if !send_any(call.dialect, self.alloc, &mut self.forms, ask, out) {
            return Err(call);
        }
        self.bulk_out = self.bulk_out.saturating_add(call.bulk);
        self.sent.push_back_reserved(call);
        self.times.note_gone(now);
        Ok(())
    }

    /// Bytes of the server came now, in microseconds.
    pub fn note_came(&mut self, now: u64)
        ensures { self.new.sent ≡ self.old.sent }
    {
        self.times.note_came(now);
    }

    /// What has become of those that were out.
    pub fn tally(&self) -> CallTally
        ensures { result ≡ self.now.times.tally }
    {
        self.times.tally()
    }

    /// How many of those that were answered were answered by an error: `ERROR`, `CLIENT_ERROR` or `SERVER_ERROR`.
    pub fn errors(&self) -> u64
        ensures { result ≡ self.now.times.errors }
    {
        self.times.errors()
    }

    // The first call had this outcome: whose it was.
    #[tactic(auto, using(crate::proofs::CallOrder::popped, crate::proofs::CallOrder::fits_popped, crate::proofs::Counted::counts_first, crate::proofs::Counted::counts_none, crate::proofs::Counted::error_first, crate::proofs::Counted::error_none))]
    fn give_first(&mut self, core: &mut ServedCore, outcome: Outcome) -> Option<usize>
        requires { FitsFirst self.old.sent.items core.old.core outcome }
        ensures settles { SettlesFirst self.old.sent.items core.old outcome result self.new.sent.items core.new }
        ensures counts { self.new.times.tally ≡ with_first self.old.sent.items outcome self.old.times }
        ensures errors { self.new.times.errors ≡ with_first_error self.old.sent.items outcome self.old.times.errors }
    {
        match self.sent.pop_front() {
            None => None,
            Some(call) => {
                let client = call.client;
                self.bulk_out = self.bulk_out.saturating_sub(call.bulk);
                self.times.note_settled(&outcome);
                let _ = core.settle(call.ticket, outcome);
                Some(client)
            }
        }
    }

    /// The first of the calls that are out is settled by its answer, where the bytes begin with one, in the dialect in which it was
    /// asked: nothing else is, and the core goes on by that alone. Without one nothing has changed: more has to come, or none begins so whatever
    /// follows, or memory was refused for reading it.
    ///
    /// Of the gets that were asked in the meta dialect the first takes memory for its form, and the first `gets` does, where their answers
    /// aren't hits that are spelled as servers mostly do; later ones are read by the form that is kept. Data are copied, or share the buffer that they came in, as [`Received::data`] says.
    ///
    /// Source: mcgate's own.
    pub fn settle_next(&mut self, core: &mut ServedCore, received: &Received) -> Next
        ensures settles { SettlesNext self.old.sent.items received.now core.old result self.new.sent.items core.new }
        ensures counts { self.new.times.tally ≡ with_next result self.old.times }
    {
        let Some((number, dialect)) = self.first_asked() else {
            return Next::Left(Left::NoAnswer);
        };
        let Some(read) = read_next(
            dialect,
            self.alloc,
            &mut self.forms,
            &mut self.spares,
            core,
            number,
            received,
        ) else {
            return Next::Left(Left::NoMemory);
        };
        match read {
            AnswerRead::More => Next::Left(Left::Begun),
            AnswerRead::Foreign => Next::Left(Left::NoAnswer),
            AnswerRead::Answer(answer, used) => {
                let expects = self.expects_after(used);
                match self.give_first(core, Outcome::Answered(answer)) {
                    Some(client) => {
                        self.expects = expects;
                        Next::Settled { client, used }
                    }
                    None => unreachable!(),
                }
            }
        }
    }

    /// The first of the calls that are out, as one that is late. The only error is that its ask can't be shared once more.
    pub fn first_late(&self) -> Result<Option<LateCall>, AllocError>
        ensures { IfOk result (IsFirstLate self.now.sent.items) }
    {
        let Some(call) = self.sent.front() else {
            return Ok(None);
        };
        Ok(Some(late_of(call)?))
    }

    /// How many of these bytes are the answer to a call that is late; or what they are, where they don't begin with it.
    #[tactic(auto, using(crate::proofs::CallOrder::same_is_ask))]
    pub fn read_late(&mut self, call: &LateCall, received: &Received) -> Result<usize, Left>
        ensures sent { self.new.sent ≡ self.old.sent }
        ensures read { IsReadLate call.now received.now result }
    {
        let Some(read) = read_for(
            call.dialect,
            self.alloc,
            &mut self.forms,
            &mut self.spares,
            call.ask.get(),
            received,
        ) else {
            return Err(Left::NoMemory);
        };
        match read {
            AnswerRead::Answer(_answer, used) => Ok(used),
            AnswerRead::More => Err(Left::Begun),
            AnswerRead::Foreign => Err(Left::NoAnswer),
        }
    }

    /// Buffers in which answers came whose data nobody has any more are let go, so that their room can be used again.
    pub fn let_go(&mut self)
        ensures { self.new.sent ≡ self.old.sent }
    {
        self.spares.let_go();
    }

    /// The first of the calls that are out has failed, if one is: whose it was.
    pub fn fail_next(&mut self, core: &mut ServedCore) -> Option<usize>
        ensures { SettlesFirst self.old.sent.items core.old Failed result self.new.sent.items core.new }
    {
        self.give_first(core, Outcome::Failed)
    }
}
