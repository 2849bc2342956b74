//! Clients are accepted.

ghost use Rattle.std.specs.Prelude.{◌≡◌, ◌≢◌, ℕ, ◌↔◌, ◌∷◌, [], IsTrue, true, false, Some, None};
ghost use Rattle.std.specs.Option.{option_map};
ghost use Rattle.serve_wire.specs.Events.{admits, role};
ghost use Rattle.serve_clients.specs.Marks.{client_of};
ghost use Rattle.serve_clients.specs.Agrees.{end_said_of};
ghost use Rattle.serve_proxy.specs.Ends.{AllGoOn, AllGoAccepted, AllGoOpened, MayAdmit};
ghost use Rattle.serve_proxy.specs.Stillness.{MayAccept};

use crate::sockets::Sockets;
use core_accepted::ServedCore;
use serve_clients::{Client, Departure};
use serve_wire::conn::turn_away;
use serve_wire::{Accepted, Wire};

// So many are accepted in one turn at most.
const ACCEPTS: usize = 64;

// How long accepting pauses after it has failed, in milliseconds.
const ACCEPT_PAUSE: u64 = 100;

/// Whether clients may wait to be accepted.
#[derive(Clone, Copy, PartialEq, Eq)]
pub enum Accepting {
    /// There may be some now.
    Now,
    /// There may be some, but the system refused to accept them: not before this time.
    From(u64),
    /// There are none.
    Idle,
}

impl Accepting {
    /// Whether it is time to accept.
    pub fn is_due(self, time: u64) -> bool
        ensures { IsTrue result ↔ MayAccept self time }
    {
        match self {
            Accepting::Now => true,
            Accepting::From(from) => from <= time,
            Accepting::Idle => false,
        }
    }

    /// When accepting is tried again, if it has failed.
    pub fn limit(self) -> Option<u64> {
        match self {
            Accepting::From(from) => Some(from),
            Accepting::Now | Accepting::Idle => None,
        }
    }
}

/// Clients that wait are accepted, if it is time.
pub fn accept_ready<W: Wire>(core: &mut ServedCore, sockets: &mut Sockets<W>)
    ensures ends { AllGoOn W.history core.old sockets.old core.new sockets.new }
{
    if sockets.accepting.is_due(sockets.time) {
        accept_some(core, sockets);
    }
}

fn accept_some<W: Wire>(core: &mut ServedCore, sockets: &mut Sockets<W>)
    ensures ends { AllGoOn W.history core.old sockets.old core.new sockets.new }
{
    for _ in 0..ACCEPTS {
        if !accept_one(core, sockets) {
            return;
        }
    }
}

// Whether another may be accepted now.
fn accept_one<W: Wire>(core: &mut ServedCore, sockets: &mut Sockets<W>) -> bool
    ensures ends { AllGoOn W.history core.old sockets.old core.new sockets.new }
{
    match sockets.wire.accept() {
        Accepted::Peer(conn) => {
            take_client(core, sockets, conn);
            true
        }
        Accepted::Gone => true,
        Accepted::Nobody => {
            sockets.accepting = Accepting::Idle;
            false
        }
        Accepted::Refused => {
            sockets.tally.note_unaccepted();
            let again = sockets.time.saturating_add(ACCEPT_PAUSE);
            sockets.accepting = Accepting::From(again);
            false
        }
    }
}

// A client came: it is one more, or is told that there are too many. One for which there is no memory is closed.
fn take_client<W: Wire>(core: &mut ServedCore, sockets: &mut Sockets<W>, conn: usize)
    requires { role conn (W.history sockets.old.wire) ≡ None }
    ensures ends { AllGoAccepted W.history conn core.old sockets.old core.new sockets.new }
{
    match core.open_client() {
        Ok(id) => keep_client(core, sockets, id, conn),
        Err(_) => turn_away(sockets.alloc, &mut sockets.wire, conn),
    }
}

// It is kept by its id, in place of one of that id, which no core opens while it has it. Where it can't be, the core closes it.
fn keep_client<W: Wire>(core: &mut ServedCore, sockets: &mut Sockets<W>, id: usize, conn: usize)
    requires { role conn (W.history sockets.old.wire) ≡ None }
    ensures ends { AllGoOpened W.history id conn core.old sockets.old core.new sockets.new }
{
    sockets.drop_end(id);
    if sockets.insert_client(id, conn) {
        return;
    }
    let _ = sockets.clients.remove(id);
    sockets.wire.close(conn);
    let _ = core.close(id);
    sockets.tally.gone.note(Departure::NoRoom);
}

impl<W: Wire> Sockets<W> {
    // The client's end is one of the clients'. Whether it could be.
    fn insert_client(&mut self, id: usize, conn: usize) -> bool
        requires { role conn (W.history self.old.wire) ≡ None }
        ensures begins { result ≡ true → option_map end_said_of (client_of self.new.clients id) ≡ Some (conn, [], [], false, false) }
        ensures admitted { result ≡ true → W.history self.new.wire ≡ admits conn id ∷ W.history self.old.wire }
        ensures may { MayAdmit conn id (W.history self.old.wire) (W.history self.new.wire) }
        ensures others { (other : ℕ) → other ≢ id → client_of self.new.clients other ≡ client_of self.old.clients other }
        ensures links { self.new.links ≡ self.old.links }
    {
        if self.stalls.make_place(id).is_err() {
            return false;
        }
        match self.wire.admit(conn, id) {
            Ok(()) => self.insert_new(id, conn),
            Err(_) => false,
        }
    }

    // The end of this client, by this connection, is one of the clients', and nothing else changes. Whether it could be.
    fn insert_new(&mut self, id: usize, conn: usize) -> bool
        ensures begins { result ≡ true → option_map end_said_of (client_of self.new.clients id) ≡ Some (conn, [], [], false, false) }
        ensures others { (other : ℕ) → other ≢ id → client_of self.new.clients other ≡ client_of self.old.clients other }
        ensures rest { self.new ≡ record self.old { clients = self.new.clients } }
    {
        let client = Client::new(self.alloc, conn);
        match self.clients.insert(id, client) {
            Ok(()) => true,
            Err(_) => false,
        }
    }
}
