//! Calls that are late: they have failed, and keep their places on their link's connection. Their answers come before all others, and nobody gets them;
//! they are the sign that the server is back.

ghost use Rattle.std.specs.Prelude.{◌≡◌, ℕ, List, None, Some, Err, []};
ghost use Rattle.serve_wire.specs.Events.{WireEvent, time};
ghost use Rattle.core_accepted.specs.declared.served.ServedCore.{ServedCore};
ghost use Rattle.serve_links.specs.Calls.{PassesOver};
ghost use Rattle.serve_links.specs.Lateness.{HasOneLate, LetsStoresWait};
ghost use Rattle.serve_links.specs.CoreSteps.{IsOfTurn, IsSending};
ghost use Rattle.serve_links.specs.Story.{LineGoes, LineIsForeign};

use crate::calls::{LateCall, Left, LinkCalls};
use crate::link::Link;
use core_accepted::ServedCore;
use serve_wire::conn::Conn;
use std::alloc::AllocError;
use std::collections::VecDeque;
use wire_stream::{Received, SHARED_FROM, large_len};

// The answer to the first of these calls is held no more, where what is held begins with it: how many bytes it was.
fn pass_over(
    late: &mut VecDeque<LateCall>,
    calls: &mut LinkCalls,
    conn: &mut Conn,
) -> Result<usize, Left>
    ensures passes { PassesOver late.old.items conn.old.held.items result late.new.items conn.new.held.items }
    ensures sent { calls.new.sent ≡ calls.old.sent }
    ensures rest { conn.new ≡ record conn.old { held = conn.new.held } }
{
    let Some(call) = late.front() else {
        return Err(Left::Begun);
    };
    match calls.read_late(call, &Received::copied(conn.held.as_slice())) {
        Ok(used) => {
            conn.use_up(used);
            let _ = late.pop_front();
            Ok(used)
        }
        Err(left) => Err(left),
    }
}

impl Link {
    /// The first of the calls that are out has failed and keeps its place, as one of them is late, or one that was late before: whose it was.
    /// Without a connection nothing is done, nor where it is a store and stores are awaited however long they take.
    pub(crate) fn fail_late(&mut self, core: &mut ServedCore) -> Result<Option<usize>, AllocError>
        ensures goes { (at : ℕ) (h : List WireEvent) → HasOneLate (time h) self.old → LineGoes IsSending at core.old h self.old core.new h self.new }
        ensures late { (now : ℕ) → HasOneLate now self.old → HasOneLate now self.new }
        ensures stores { LetsStoresWait self.old self.new }
    {
        if self.conn.is_none() {
            return Ok(None);
        }
        if self.awaits_store() {
            return Ok(None);
        }
        let Some(call) = self.calls.first_late()? else {
            return Ok(None);
        };
        self.late.push_back(call)?;
        Ok(self.calls.fail_next(core))
    }

    // The answer to the first call that is late is thrown away, where what is held begins with it: how many bytes it was.
    fn throw_first(&mut self) -> Result<usize, Left>
        requires { self.old.awaits_dialect ≡ None }
        ensures goes { (at : ℕ) (core : ServedCore) (h : List WireEvent) → LineGoes IsOfTurn at core h self.old core h self.new }
        ensures foreign { result ≡ Err Left.NoAnswer → LineIsForeign self.new }
        ensures told { self.new.awaits_dialect ≡ None }
    {
        let Some(conn) = self.conn.as_mut() else {
            return Err(Left::Begun);
        };
        pass_over(&mut self.late, &mut self.calls, conn)
    }

    /// Late answers that are held whole are thrown away, one after another, where the server has answered what it was asked first. They settle nothing:
    /// the core stays as it is. What is left where more are to come; after `None` no call is late any more. After `Left::NoAnswer` what is held begins no
    /// answer to the first call whose answer is to come.
    pub fn throw_late(&mut self) -> Option<Left>
        requires { self.old.awaits_dialect ≡ None }
        ensures goes { (at : ℕ) (core : ServedCore) (h : List WireEvent) → LineGoes IsOfTurn at core h self.old core h self.new }
        ensures over { result ≡ None → self.new.late.items ≡ [] }
        ensures foreign { result ≡ Some Left.NoAnswer → LineIsForeign self.new }
        ensures told { self.new.awaits_dialect ≡ None }
    {
        if !self.awaits_late() {
            return None;
        }
        for _ in 0..self.late.len() {
            if let Err(left) = self.throw_first() {
                self.awaited = self.awaited_len();
                return Some(left);
            }
        }
        if self.awaits_late() {
            return Some(Left::Begun);
        }
        self.come_back();
        None
    }

    // How many bytes the answer takes whose begin is held, where its first line tells of large data.
    fn awaited_len(&self) -> Option<usize> {
        match &self.conn {
            Some(conn) => large_len(SHARED_FROM, conn.held.as_slice()),
            None => None,
        }
    }
}
