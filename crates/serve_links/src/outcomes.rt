//! The outcomes of a link's calls, for the core and the clients: answers settle them, or they fail.

ghost use Rattle.std.specs.Prelude.{◌≡◌, ◌≢◌, ◌⊎◌, ◌≤◌, ◌+◌, ℕ, List, length, false, ◌++◌, [], drop, None, Some, IfSome};
ghost use Rattle.serve_wire.specs.Ends.{HasRoomAgain, HoldsAnew};
ghost use Rattle.serve_clients.specs.Agrees.{KeepsEnds};
ghost use Rattle.serve_wire.specs.Events.{WireEvent, time};
ghost use Rattle.serve_links.specs.CoreSteps.{GoesBy, IsSettlement, IsSending, OnlyFails};
ghost use Rattle.serve_links.specs.Story.{LineGoes};
ghost use Rattle.core_accepted.specs.declared.served.ServedCore.{ServedCore};
ghost use Rattle.serve_links.specs.Lateness.{HasLate, HasOneLate, LetsStoresWait};
ghost use Rattle.serve_links.specs.Links.{AllFail, FailsTo, IsDown};
ghost use Rattle.serve_links.specs.Settled.{HoldsNoAnswer, HoldsForeign, SettlesSome};

use crate::calls::{Left, LinkCalls, Next, fail_call};
use crate::link::Link;
use bytes::Bytes;
use core_accepted::ServedCore;
use serve_clients::Clients;
use serve_wire::conn::Conn;
use wire_stream::{CUT_FROM, Received, SHARED_FROM, large_len};

// Where so many bytes or more are held, long data share them.
const MUCH_HELD: usize = 16_384;

// For so many bytes there is room after what is held again: as many as the longest read of answers that aren't large has.
const ROOM_AFTER: usize = 147_456;

// The calls that are out on a link have failed.
fn fail_sent(calls: &mut LinkCalls, core: &mut ServedCore, clients: &mut Clients)
    ensures core { OnlyFails core.old core.new }
    ensures none { calls.new.sent.items ≡ [] }
    ensures all { AllFail calls.old.sent.items core.old core.new }
    ensures first { FailsTo calls.old.sent.items calls.new.sent.items core.old core.new }
    ensures ends { KeepsEnds clients.old clients.new }
{
    for _ in 0..calls.len() {
        let Some(client) = calls.fail_next(core) else {
            return;
        };
        clients.mark_settled(client);
    }
}

// The calls that wait for the link have failed.
fn fail_waiting(link: &mut Link, core: &mut ServedCore, clients: &mut Clients)
    requires { link.old.conn ≡ None }
    ensures core { OnlyFails core.old core.new }
    ensures none { link.new.waiting ≡ [] }
    ensures all { AllFail link.old.waiting core.old core.new }
    ensures first { FailsTo link.old.waiting link.new.waiting core.old core.new }
    ensures rest { link.new ≡ record link.old { waiting = link.new.waiting } }
    ensures ends { KeepsEnds clients.old clients.new }
{
    for _ in 0..link.waiting() {
        let Some(call) = link.next_waiting() else {
            return;
        };
        let client = call.client;
        fail_call(core, call.ticket);
        clients.end_waiting(client);
        clients.mark_settled(client);
    }
}

/// All calls of the link, which has no connection, have failed: those that are out, and then those that wait.
pub fn fail_all(link: &mut Link, core: &mut ServedCore, clients: &mut Clients)
    requires { link.old.conn ≡ None }
    ensures core { OnlyFails core.old core.new }
    ensures down { IsDown link.new }
    ensures all { AllFail (link.old.calls.sent.items ++ link.old.waiting) core.old core.new }
    ensures closed { link.new.conn ≡ None }
    ensures draining { link.new.draining ≡ link.old.draining }
    ensures text { link.new.text ≡ link.old.text }
    ensures limits { link.new.limits ≡ link.old.limits }
    ensures lost { link.new.lost ≡ link.old.lost }
    ensures first { (mid : ServedCore) × FailsTo link.old.calls.sent.items link.new.calls.sent.items core.old mid × FailsTo link.old.waiting link.new.waiting mid core.new }
    ensures ends { KeepsEnds clients.old clients.new }
{
    fail_sent(&mut link.calls, core, clients);
    fail_waiting(link, core, clients)
}

/// If a call that is out on the link is late by now, all that are have failed, and keep their places: those before the first store, where stores are
/// awaited however long they take. Else nothing is done.
pub fn fail_late(link: &mut Link, core: &mut ServedCore, clients: &mut Clients, now: u64)
    ensures goes { (at : ℕ) (h : List WireEvent) → time h ≡ now → LineGoes IsSending at core.old h link.old core.new h link.new }
    ensures late { HasLate now link.old ⊎ ((link.new ≡ link.old) × (core.new ≡ core.old)) }
    ensures stores { LetsStoresWait link.old link.new }
    ensures ends { KeepsEnds clients.old clients.new }
{
    if !link.has_late(now) {
        return;
    }
    fail_all_late(link, core, clients, now)
}

// The calls that are out on the link have failed, and keep their places, as one of them is late.
fn fail_all_late(link: &mut Link, core: &mut ServedCore, clients: &mut Clients, now: u64)
    ensures goes { (at : ℕ) (h : List WireEvent) → HasOneLate (time h) link.old → LineGoes IsSending at core.old h link.old core.new h link.new }
    ensures stores { LetsStoresWait link.old link.new }
    ensures ends { KeepsEnds clients.old clients.new }
{
    link.turn_late(now);
    for _ in 0..link.calls.len() {
        let Ok(Some(client)) = link.fail_late(core) else {
            return;
        };
        clients.mark_settled(client);
    }
}

/// What came of the answers that a link holds.
#[derive(Clone, Copy)]
pub struct HeldAnswers {
    /// Whether one was settled at least.
    pub has_settled: bool,
    /// What is left of what is held.
    pub left: Left,
    /// How many bytes the next one takes, where its first line is there and tells of large data.
    pub awaited: Option<usize>,
}

// At which answers settling stops before their end.
#[derive(Clone, Copy, PartialEq, Eq)]
enum Stops {
    // At none: what is held is shared.
    Never,
    // At those with long data.
    AtLong,
    // At those with large data.
    AtLarge,
}

// What the answers that were settled end with.
#[derive(Clone, Copy)]
enum HeldStop {
    // What is left of the bytes.
    Left(Left),
    // The next one has long data, and is there: they are to be shared, and so are those of the ones after it.
    Long,
    // The next one has large data, and is there: it takes so many bytes, if it is spelled as usual.
    Large(usize),
}

// What stands from this place on.
fn rest_of(bytes: &[u8], at: usize) -> &[u8]
    ensures { result.now ≡ drop at bytes.now }
{
    bytes.get(at..).unwrap_or(b"".as_slice())
}

// Whether the answer in front may have long data, by its first bytes: after `VA` a length of four digits follows at once. Among many small answers no
// further word of them is read for that. A classic one tells its length later, and is looked at only where much is held.
fn may_be_long(held: &[u8]) -> bool {
    match held {
        [b'V', b'A', b' ', _, _, _, digit, ..] => digit.is_ascii_digit(),
        _ => held.len() >= SHARED_FROM && held.starts_with(b"VALUE "),
    }
}

// How many bytes the answer in front takes, where it has so many bytes of data or more and is there.
fn whole_front(from: usize, held: &[u8]) -> Option<usize> {
    if held.len() < from || !may_be_long(held) {
        return None;
    }
    let len = large_len(from, held)?;
    if held.len() < len {
        return None;
    }
    Some(len)
}

// What stands in front, if that is an answer to stop at.
fn front_stop(stops: Stops, held: &[u8]) -> Option<HeldStop>
    ensures begun { IfSome result (λ stop. stop ≢ HeldStop.Left Left.Begun) }
    ensures foreign { IfSome result (λ stop. stop ≢ HeldStop.Left Left.NoAnswer) }
{
    let from = match stops {
        Stops::Never => return None,
        Stops::AtLong => CUT_FROM,
        Stops::AtLarge => SHARED_FROM,
    };
    match whole_front(from, held) {
        None => None,
        Some(len) if len > SHARED_FROM => Some(HeldStop::Large(len)),
        Some(_) => Some(HeldStop::Long),
    }
}

// Whole answers in these bytes are settled, up to one to stop at: how many bytes they are, and what follows.
fn settle_in(
    calls: &mut LinkCalls,
    core: &mut ServedCore,
    clients: &mut Clients,
    is_freed: &mut bool,
    received: &Received,
    stops: Stops,
) -> (usize, HeldStop)
    ensures core { GoesBy IsSettlement core.old core.new }
    ensures left { result.1 ≡ HeldStop.Left Left.Begun → HoldsNoAnswer calls.new.sent.items (drop result.0 received.now) core.new }
    ensures foreign { result.1 ≡ HeldStop.Left Left.NoAnswer → HoldsForeign calls.new.sent.items (drop result.0 received.now) core.new }
    ensures settled { SettlesSome calls.old.sent.items received.now core.old calls.new.sent.items (drop result.0 received.now) core.new }
    ensures ends { KeepsEnds clients.old clients.new }
{
    let end = received.bytes().len();
    let mut used = 0usize;
    for _ in 0..end {
        let rest = received.after(used.min(end));
        if rest.bytes().is_empty() {
            return (used, HeldStop::Left(Left::Begun));
        }
        if let Some(stop) = front_stop(stops, rest.bytes()) {
            return (used, stop);
        }
        let is_get = calls.awaits_get();
        match calls.settle_next(core, &rest) {
            Next::Settled { client, used: len } => {
                used = used.saturating_add(len);
                *is_freed = true;
                clients.mark_answered(client, is_get, len);
            }
            Next::Left(left) => return (used, HeldStop::Left(left)),
        }
    }
    // No answer is empty, so nothing is left here.
    if used < end {
        return (used, HeldStop::Left(Left::NoMemory));
    }
    (used, HeldStop::Left(Left::Begun))
}

// The answer in front is settled by a copy of its data, and is held no more; or what is left.
fn take_copied(
    calls: &mut LinkCalls,
    core: &mut ServedCore,
    clients: &mut Clients,
    is_freed: &mut bool,
    conn: &mut Conn,
) -> Option<Left>
    ensures core { GoesBy IsSettlement core.old core.new }
    ensures left { result ≡ Some Left.Begun → HoldsNoAnswer calls.new.sent.items conn.new.held.items core.new }
    ensures foreign { result ≡ Some Left.NoAnswer → HoldsForeign calls.new.sent.items conn.new.held.items core.new }
    ensures settled { SettlesSome calls.old.sent.items conn.old.held.items core.old calls.new.sent.items conn.new.held.items core.new }
    ensures ends { KeepsEnds clients.old clients.new }
    ensures rest { HoldsAnew conn.old conn.new }
{
    if conn.held.is_empty() {
        return Some(Left::Begun);
    }
    let is_get = calls.awaits_get();
    match calls.settle_next(core, &Received::copied(conn.held.as_slice())) {
        Next::Settled { client, used } => {
            conn.use_up(used);
            *is_freed = true;
            clients.mark_answered(client, is_get, used);
            None
        }
        Next::Left(left) => Some(left),
    }
}

// What these bytes, which were cut off from what was held, have besides so many is held again, in the room that was made for it.
fn hold_rest(conn: &mut Conn, front: &Bytes, used: usize)
    requires { HasRoomAgain (length front.now + length conn.old.held.items) conn.old }
    ensures held { conn.new.held.items ≡ drop used front.now ++ conn.old.held.items }
    ensures rest { HoldsAnew conn.old conn.new }
{
    conn.hold_again(rest_of(front.as_slice(), used))
}

// What these bytes, which were cut off from what was held, have besides so many, if they have more, is held again, in the room that was made for it.
fn hold_any(conn: &mut Conn, front: &Bytes, used: usize)
    requires { HasRoomAgain (length front.now + length conn.old.held.items) conn.old }
    ensures held { conn.new.held.items ≡ drop used front.now ++ conn.old.held.items }
    ensures rest { HoldsAnew conn.old conn.new }
{
    if used < front.len() {
        hold_rest(conn, front, used)
    }
}

// The first so many bytes of what is held, which are cut off from it, where there is room for holding them again. `None` where memory was refused for that.
fn cut_front(conn: &mut Conn, len: usize) -> Option<Bytes>
    requires { len ≤ length conn.old.held.items }
    ensures front { IfSome result (λ front. conn.old.held.items ≡ front ++ conn.new.held.items) }
    ensures left { IfSome result (λ _. conn.new.held.items ≡ drop len conn.old.held.items) }
    ensures room { IfSome result (λ front. HasRoomAgain (length front + length conn.new.held.items) conn.new) }
    ensures none { result ≡ None → conn.new.held.items ≡ conn.old.held.items }
    ensures rest { HoldsAnew conn.old conn.new }
{
    let room = conn.held.len().saturating_add(ROOM_AFTER);
    conn.make_again(room).ok()?;
    conn.held.freeze_to(len).ok()
}

// What is left after the answers that were settled from a part that was cut off. They stop at no data.
fn left_after(stop: HeldStop) -> Left
    ensures begun { result ≡ Left.Begun → stop ≡ HeldStop.Left Left.Begun }
    ensures foreign { result ≡ Left.NoAnswer → stop ≡ HeldStop.Left Left.NoAnswer }
{
    match stop {
        HeldStop::Left(left) => left,
        _ => Left::NoMemory,
    }
}

// Whole answers are settled, and long data of them share the buffer that they came in: what is left. Where memory is refused for that, the one in
// front is settled by a copy.
fn take_long(
    calls: &mut LinkCalls,
    core: &mut ServedCore,
    clients: &mut Clients,
    is_freed: &mut bool,
    conn: &mut Conn,
) -> Option<Left>
    ensures core { GoesBy IsSettlement core.old core.new }
    ensures left { result ≡ Some Left.Begun → HoldsNoAnswer calls.new.sent.items conn.new.held.items core.new }
    ensures foreign { result ≡ Some Left.NoAnswer → HoldsForeign calls.new.sent.items conn.new.held.items core.new }
    ensures settled { SettlesSome calls.old.sent.items conn.old.held.items core.old calls.new.sent.items conn.new.held.items core.new }
    ensures ends { KeepsEnds clients.old clients.new }
    ensures rest { HoldsAnew conn.old conn.new }
{
    let held = conn.held.len();
    let Some(front) = cut_front(conn, held) else {
        return take_copied(calls, core, clients, is_freed, conn);
    };
    let (used, stop) = settle_in(
        calls,
        core,
        clients,
        is_freed,
        &Received::shared(&front),
        Stops::Never,
    );
    hold_rest(conn, &front, used);
    Some(left_after(stop))
}

// The answer in front, which takes so many bytes if it is spelled as usual, is settled, and its data share the buffer that they came in.
// Where memory is refused for that, or it is spelled otherwise, they are copied.
fn take_large(
    calls: &mut LinkCalls,
    core: &mut ServedCore,
    clients: &mut Clients,
    is_freed: &mut bool,
    conn: &mut Conn,
    len: usize,
) -> Option<Left>
    ensures core { GoesBy IsSettlement core.old core.new }
    ensures left { result ≡ Some Left.Begun → HoldsNoAnswer calls.new.sent.items conn.new.held.items core.new }
    ensures foreign { result ≡ Some Left.NoAnswer → HoldsForeign calls.new.sent.items conn.new.held.items core.new }
    ensures settled { SettlesSome calls.old.sent.items conn.old.held.items core.old calls.new.sent.items conn.new.held.items core.new }
    ensures ends { KeepsEnds clients.old clients.new }
    ensures rest { HoldsAnew conn.old conn.new }
{
    let len = len.min(conn.held.len());
    let Some(front) = cut_front(conn, len) else {
        return take_copied(calls, core, clients, is_freed, conn);
    };
    let (used, _) = settle_in(
        calls,
        core,
        clients,
        is_freed,
        &Received::shared(&front),
        Stops::Never,
    );
    hold_any(conn, &front, used);
    if used == 0 {
        return take_copied(calls, core, clients, is_freed, conn);
    }
    None
}

// At which answers settling stops: sharing long data is worth its cost where much is held, and what was cut off before must be gone.
fn stops_for(calls: &mut LinkCalls, conn: &mut Conn) -> Stops
    ensures calls { calls.new.sent ≡ calls.old.sent }
    ensures held { conn.new.held ≡ conn.old.held }
    ensures rest { HoldsAnew conn.old conn.new }
{
    if conn.held.len() < MUCH_HELD {
        return Stops::AtLarge;
    }
    calls.let_go();
    if conn.may_cut() {
        Stops::AtLong
    } else {
        Stops::AtLarge
    }
}

fn told(has_settled: bool, left: Left, held: &[u8]) -> HeldAnswers
    ensures left { result.left ≡ left }
    ensures settled { result.has_settled ≡ has_settled }
{
    HeldAnswers {
        has_settled,
        left,
        awaited: large_len(SHARED_FROM, held),
    }
}

// What is left where nothing should be.
fn left_of(conn: &Conn) -> Left
    ensures begun { result ≡ Left.Begun → conn.now.held.items ≡ [] }
    ensures known { result ≢ Left.NoAnswer }
{
    if conn.held.is_empty() {
        Left::Begun
    } else {
        Left::NoMemory
    }
}

/// All whole answers that the link's connection holds are settled, one after another, and are held no more: nothing is left, or the begin of the next one,
/// or what begins none, or what couldn't be read as memory was refused: that is held as it was, to be read again. Large data, of [`SHARED_FROM`] bytes or more, share the buffer that they came in. So do long
/// ones, of [`CUT_FROM`] bytes or more, where 16,384 bytes or more are held and none that shared another buffer before is in use. All others are copied.
pub fn settle_held(
    calls: &mut LinkCalls,
    core: &mut ServedCore,
    clients: &mut Clients,
    is_freed: &mut bool,
    conn: &mut Conn,
) -> HeldAnswers
    ensures core { GoesBy IsSettlement core.old core.new }
    ensures left { result.left ≡ Left.Begun → HoldsNoAnswer calls.new.sent.items conn.new.held.items core.new }
    ensures foreign { result.left ≡ Left.NoAnswer → HoldsForeign calls.new.sent.items conn.new.held.items core.new }
    ensures settled { SettlesSome calls.old.sent.items conn.old.held.items core.old calls.new.sent.items conn.new.held.items core.new }
    ensures none { result.has_settled ≡ false → length calls.old.sent.items ≤ length calls.new.sent.items }
    ensures ends { KeepsEnds clients.old clients.new }
    ensures rest { HoldsAnew conn.old conn.new }
{
    let stops = stops_for(calls, conn);
    let out = calls.len();
    for _ in 0..conn.held.len() {
        let (used, stop) = settle_in(
            calls,
            core,
            clients,
            is_freed,
            &Received::copied(conn.held.as_slice()),
            stops,
        );
        conn.use_up(used);
        let left = match stop {
            HeldStop::Left(left) => Some(left),
            HeldStop::Long => take_long(calls, core, clients, is_freed, conn),
            HeldStop::Large(len) => take_large(calls, core, clients, is_freed, conn, len),
        };
        if let Some(left) = left {
            return told(calls.len() < out, left, conn.held.as_slice());
        }
    }
    // Nothing is held here either.
    told(calls.len() < out, left_of(conn), conn.held.as_slice())
}
