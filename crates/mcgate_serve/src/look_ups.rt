//! Servers' names are looked up: those of new servers, and later again, where connections go to the
//! machine that is found.

ghost use Rattle.std.specs.Prelude.{◌≡◌, ◌⊎◌, true, false, OnOk, ℕ, List, Some, ◌∷◌, length, slice_get};
ghost use Rattle.serve_wire.specs.Events.{looks_up};
ghost use Rattle.serve_wire.specs.declared.outcomes.Lead.TheVariants.{Other};
ghost use Rattle.serve_links.specs.Story.{HasHappened};
ghost use Rattle.serve_proxy.specs.Ends.{Stay};
ghost use Rattle.mcgate_serve.specs.LooksUp.{AreLookedUp};
ghost use Rattle.mcgate_serve.specs.Emptied.{FlushesAt};
ghost use Rattle.mcgate_serve.specs.Names.{follows};

use crate::emptying::{Emptying, note_moved};
use crate::names::follows;
use crate::operating::Operating;
use mcgate_ends::serve_job::ServeJob;
use mcgate_notes::lines::Lines;
use mcgate_notes::name_news::{NameNews, tell_name};
use route_json::addresses::Servers;
use serve_proxy::{Sockets, text_at};
use serve_wire::{Lead, Wire};
use std::io;
use std::io::ErrorKind;
use std::net::{Net, SocketAddr, ToSocketAddrs};
use std::rt::{Clock, Files};
use std::time::Instant;

/// The first address that a text names, or why it names none.
pub fn resolve<N: Net>(net: &N, text: &str) -> io::Result<SocketAddr> {
    match text.to_socket_addrs(net)?.next() {
        Some(address) => Ok(address),
        None => Err(io::Error::from(ErrorKind::AddrNotAvailable)),
    }
}

/// After a server's text was looked up: whether it names a host. If it doesn't that is told, and
/// the server's calls will fail.
pub fn tell_if_unknown<R: Eprint>(
    rt: &R,
    lines: &mut Lines,
    text: &str,
    found: io::Result<()>,
) -> io::Result<bool> {
    match found {
        Ok(()) => Ok(true),
        Err(error) if error.kind() == ErrorKind::OutOfMemory => Err(error),
        Err(_) => {
            tell_name(rt, lines, text, NameNews::Unknown);
            Ok(false)
        }
    }
}

// For how many milliseconds it has gone on; 0 where the clock doesn't tell.
fn millis_since<R: Clock>(rt: &R, began: io::Result<Instant>) -> u64 {
    let Ok(began) = began else {
        return 0;
    };
    match began.elapsed(rt) {
        Ok(passed) => u64::try_from(passed.as_millis()).unwrap_or(u64::MAX),
        Err(_) => 0,
    }
}

// Where the name of the server of this number leads now.
fn lead_of<R: Net, W: Wire>(
    rt: &R,
    sockets: &Sockets<W>,
    servers: &Servers,
    at: usize,
) -> io::Result<Lead> {
    match text_at(servers, at) {
        Some(text) => sockets.look_again(rt, text),
        None => Err(io::Error::from(ErrorKind::NotFound)),
    }
}

// Whether the connection to this server was asked something first that isn't answered yet.
fn is_asked_first<W: Wire>(sockets: &Sockets<W>, at: usize) -> bool {
    match sockets.link(at) {
        Some(link) => link.conn.is_some() && link.awaits_greeting(),
        None => false,
    }
}

impl Operating {
    /// Looks up those of these servers that weren't in use before.
    pub(crate) fn resolve<R: Net + AllocGlobal + Eprint, W: Wire>(
        &mut self,
        rt: &R,
        sockets: &mut Sockets<W>,
        in_use: &Servers,
        servers: &Servers,
    ) -> io::Result<()>
        ensures looked { OnOk result (AreLookedUp (length in_use.now) servers.now (W.history sockets.new.wire)) }
        ensures ends { Stay W.history sockets.old sockets.new }
    {
        for at in in_use.len()..servers.len() {
            self.resolve_at(rt, sockets, servers, at)?;
        }
        Ok(())
    }

    // Looks up the server of this number, if there is one.
    #[tactic(auto, using(crate::proofs::Loads::stays_still))]
    fn resolve_at<R: Net + AllocGlobal + Eprint, W: Wire>(
        &mut self,
        rt: &R,
        sockets: &mut Sockets<W>,
        servers: &Servers,
        at: usize,
    ) -> io::Result<()>
        ensures looked { (text : List ℕ) → slice_get servers.now at ≡ Some text → HasHappened (looks_up text) (W.history sockets.new.wire) }
        ensures ends { Stay W.history sockets.old sockets.new }
    {
        match text_at(servers, at) {
            Some(text) => self.resolve_one(rt, sockets, text),
            None => Ok(()),
        }
    }

    fn resolve_one<R: Net + AllocGlobal + Eprint, W: Wire>(
        &mut self,
        rt: &R,
        sockets: &mut Sockets<W>,
        text: &str,
    ) -> io::Result<()>
        ensures looked { W.history sockets.new.wire ≡ looks_up text.now ∷ W.history sockets.old.wire }
        ensures ends { Stay W.history sockets.old sockets.new }
    {
        let found = sockets.resolve(rt, text);
        let is_found = tell_if_unknown(rt, &mut self.lines, text, found)?;
        self.seen.note_found(rt.alloc(), text, is_found);
        Ok(())
    }

    // Whether calls may go by this server's name: it has a connection, or never had one, or its
    // connection has just failed.
    fn goes_by_name<W: Wire>(&self, sockets: &Sockets<W>, at: usize) -> bool {
        match sockets.link(at) {
            Some(link) => {
                link.conn.is_some() || link.tally.stood == 0 || self.names.has_failed(at)
            }
            None => false,
        }
    }

    /// The name of a server is looked up again, if one is due.
    #[tactic(auto, using(crate::proofs::Loads::stays_still))]
    pub(crate) fn look_names<R: Files + Net + Clock + AllocGlobal + Eprint, W: Wire>(
        &mut self,
        rt: &R,
        job: &ServeJob<'_>,
        sockets: &mut Sockets<W>,
        servers: &Servers,
        emptying: &mut Option<Emptying>,
    )
        ensures { Stay W.history sockets.old sockets.new }
    {
        let now = sockets.wire.last_millis();
        match self.names.next_due(servers, now, job.resolve_s) {
            Some(at) => self.look_if_called(rt, job, sockets, servers, emptying, at, now),
            None => {}
        }
    }

    // The name of this server is looked up again, where calls may go by it.
    #[tactic(auto, using(crate::proofs::Loads::stays_still))]
    fn look_if_called<R: Files + Net + Clock + AllocGlobal + Eprint, W: Wire>(
        &mut self,
        rt: &R,
        job: &ServeJob<'_>,
        sockets: &mut Sockets<W>,
        servers: &Servers,
        emptying: &mut Option<Emptying>,
        at: usize,
        now: u64,
    )
        ensures { Stay W.history sockets.old sockets.new }
    {
        let is_called = self.goes_by_name(sockets, at);
        self.names.note_looked(at, now);
        if is_called {
            let began = Instant::now(rt);
            self.look_at_name(rt, job, sockets, servers, emptying, at, now);
            self.names.note_took(now, millis_since(rt, began));
        }
    }

    #[tactic(auto, using(crate::proofs::Loads::stays_still))]
    fn look_at_name<R: Files + Net + AllocGlobal + Eprint, W: Wire>(
        &mut self,
        rt: &R,
        job: &ServeJob<'_>,
        sockets: &mut Sockets<W>,
        servers: &Servers,
        emptying: &mut Option<Emptying>,
        at: usize,
        now: u64,
    )
        ensures { Stay W.history sockets.old sockets.new }
    {
        match lead_of(rt, sockets, servers, at) {
            Ok(lead) => self.take_lead(rt, job, sockets, servers, emptying, at, now, lead),
            Err(_) => self.tell_name(rt, servers, at, now, NameNews::NotFound),
        }
    }

    // The name of this server leads so now: that is followed, or told if that is to be known.
    #[tactic(auto, using(crate::proofs::Loads::stays_still))]
    fn take_lead<R: Files + Net + AllocGlobal + Eprint, W: Wire>(
        &mut self,
        rt: &R,
        job: &ServeJob<'_>,
        sockets: &mut Sockets<W>,
        servers: &Servers,
        emptying: &mut Option<Emptying>,
        at: usize,
        now: u64,
        lead: Lead,
    )
        ensures kept { follows job.now.begun.added job.now.any job.now.fleet lead ≡ false → sockets.new ≡ sockets.old }
        ensures ends { Stay W.history sockets.old sockets.new }
    {
        if follows(job.begun, job.any, job.fleet, lead) {
            let flushes = job.settings.flushes_new;
            self.follow(rt, flushes, sockets, servers, emptying, at, now, lead)
        } else {
            self.tell_kept(rt, servers, at, now, lead)
        }
    }

    // Another machine isn't called, which is told.
    fn tell_kept<R: Eprint>(&mut self, rt: &R, servers: &Servers, at: usize, now: u64, lead: Lead) {
        match lead {
            Lead::Other => self.tell_name(rt, servers, at, now, NameNews::Kept),
            Lead::Same | Lead::First => {}
        }
    }

    // A line of this server, and for a while no other of its name.
    fn tell_name<R: Eprint>(
        &mut self,
        rt: &R,
        servers: &Servers,
        at: usize,
        now: u64,
        news: NameNews,
    ) {
        if !self.names.may_tell(at, now) {
            return;
        }
        if let Some(text) = text_at(servers, at) {
            tell_name(rt, &mut self.lines, text, news);
        }
    }

    // Connections to this server that are begun from now on go where its name leads. Where new
    // servers are emptied first another machine is, too, or none goes there.
    fn follow<R: Files + Net + AllocGlobal + Eprint, W: Wire>(
        &mut self,
        rt: &R,
        flushes: bool,
        sockets: &mut Sockets<W>,
        servers: &Servers,
        emptying: &mut Option<Emptying>,
        at: usize,
        now: u64,
        lead: Lead,
    )
        ensures emptied { flushes ≡ true → lead ≡ Other → (sockets.new ≡ sockets.old) ⊎ FlushesAt at sockets.new.links.all.items }
        ensures ends { Stay W.history sockets.old sockets.new }
    {
        match lead {
            Lead::Other => self.follow_other(rt, flushes, sockets, servers, emptying, at, now),
            Lead::Same | Lead::First => self.move_to(rt, sockets, servers, at, NameNews::Known),
        }
    }

    // Connections to this server that are begun from now on go to another machine, where its name
    // leads now. Where new servers are emptied first it is, too, or none goes there.
    fn follow_other<R: Files + Net + AllocGlobal + Eprint, W: Wire>(
        &mut self,
        rt: &R,
        flushes: bool,
        sockets: &mut Sockets<W>,
        servers: &Servers,
        emptying: &mut Option<Emptying>,
        at: usize,
        now: u64,
    )
        ensures emptied { flushes ≡ true → (sockets.new ≡ sockets.old) ⊎ FlushesAt at sockets.new.links.all.items }
        ensures ends { Stay W.history sockets.old sockets.new }
    {
        if flushes {
            self.follow_emptied(rt, sockets, servers, emptying, at, now)
        } else {
            self.move_to(rt, sockets, servers, at, NameNews::Moved)
        }
    }

    // Connections to this server that are begun from now on go to another machine, where its name
    // leads now, which is emptied before its first call; or none goes there, where that couldn't be
    // written or isn't possible yet.
    #[tactic(auto, using(crate::proofs::Loads::stays_still))]
    fn follow_emptied<R: Files + Net + AllocGlobal + Eprint, W: Wire>(
        &mut self,
        rt: &R,
        sockets: &mut Sockets<W>,
        servers: &Servers,
        emptying: &mut Option<Emptying>,
        at: usize,
        now: u64,
    )
        ensures emptied { (sockets.new ≡ sockets.old) ⊎ FlushesAt at sockets.new.links.all.items }
        ensures ends { Stay W.history sockets.old sockets.new }
    {
        if !self.notes_moved(rt, sockets, servers, emptying, at, now) {
            return;
        }
        sockets.empty_first(at);
        self.move_to(rt, sockets, servers, at, NameNews::Moved)
    }

    // It is written that this server is to be emptied. Whether it was: where it can't be that is
    // told, and while what its connection was asked first isn't answered it isn't, since the one
    // before would be taken for emptied by that answer.
    fn notes_moved<R: Files + AllocGlobal + Eprint, W: Wire>(
        &mut self,
        rt: &R,
        sockets: &Sockets<W>,
        servers: &Servers,
        emptying: &mut Option<Emptying>,
        at: usize,
        now: u64,
    ) -> bool {
        if is_asked_first(sockets, at) {
            self.names.note_failed(at);
            return false;
        }
        if note_moved(rt, emptying, servers, at).is_ok() {
            return true;
        }
        self.tell_name(rt, servers, at, now, NameNews::Unwritten);
        false
    }

    // Connections to this server that are begun from now on go where its name leads, which is told.
    #[tactic(auto, using(crate::proofs::Loads::stays_still))]
    fn move_to<R: Net + AllocGlobal + Eprint, W: Wire>(
        &mut self,
        rt: &R,
        sockets: &mut Sockets<W>,
        servers: &Servers,
        at: usize,
        news: NameNews,
    )
        ensures links { sockets.new.links ≡ sockets.old.links }
        ensures ends { Stay W.history sockets.old sockets.new }
    {
        match text_at(servers, at) {
            Some(text) => {
                if sockets.resolve(rt, text).is_ok() {
                    self.seen.note_found(rt.alloc(), text, true);
                    tell_name(rt, &mut self.lines, text, news);
                }
            }
            None => {}
        }
    }
}
