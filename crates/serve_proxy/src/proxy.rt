//! The proxy's end, and its turns: what is ready is read, what was asked goes to the links and what was answered to the
//! clients, and then each end that has something to send is written once.

ghost use Rattle.std.specs.Prelude.{◌≡◌, ◌↔◌, ◌≤◌, [], IsTrue, IfOk, IfErr, OnOk, OnErr};
ghost use Rattle.core_accepted.specs.Loading.{IsLoaded};
ghost use Rattle.serde_json.specs.View.{view};
ghost use Rattle.serve_links.specs.CoreSteps.{GoesOn, OnlyFails};
ghost use Rattle.serve_links.specs.Links.{IsDownAt, IsClosedAt};
ghost use Rattle.serve_links.specs.Story.{Agrees, texts_of};
ghost use Rattle.serve_proxy.specs.Ends.{Stay, end_of, AllGoOn, AllDrop, AllLoad, HasNoConns};
ghost use Rattle.core_accepted.specs.Logs.{TreesAreSound, CountsBegun};
ghost use Rattle.serve_proxy.specs.LogsGoOn.{LogsAreFresh};
ghost use Rattle.serve_proxy.specs.Stalls.{held_by_all};
ghost use Rattle.serve_proxy.specs.Shares.{share_by};
ghost use Rattle.serve_proxy.specs.Stillness.{EndIsStill};
ghost use Rattle.serve_proxy.specs.Beginning.{BeginsFresh, BeginsUnchecked};
ghost use Rattle.serve_proxy.specs.Bringing.{BeginWith, RefusesBoth};
ghost use Rattle.serve_proxy.specs.Limiting.{value_limits};

use crate::accepting::accept_ready;
use crate::answers::read_links;
use crate::beginning::{fresh_core, unchecked_core};
use crate::clock::at_most;
use crate::draining::end_quiet;
use crate::failing::{fail_late, shut_link};
use crate::links::Links;
use crate::sending::{send_clients, send_links};
use crate::serving::{serve_all, serve_asks};
use crate::showing::give_back_room;
use crate::sockets::Sockets;
use crate::stalls::{USUAL_MOST, close_slow};
use core_accepted::laws::{accepted_trees_are_sound, begun_core_is_fresh};
use core_accepted::{Beginnings, CoreTally, LoadFault, ServedCore};
use gate_check::Accepted;
use route_json::Config;
use route_json::addresses::Servers;
use route_tree::Tree;
use serde_json::Value;
use serve_links::{Cause, LinkLimits, Settings};
use serve_wire::Wire;
use std::alloc::{AllocError, Global};
use std::io;
use std::net::Net;
use std::rt::Clock;
use std::time::Duration;

/// The proxy's end.
#[derive(Drop)]
pub struct ProxyEnd<W: Wire> {
    // On the heap, so that whoever owns an end drops it by one call.
    core: Box<ServedCore>,
    /// All but the core. Whoever runs the end tells these what concerns no command: limits, names to look up, that nobody is accepted any more.
    pub sockets: Sockets<W>,
    // How many bytes are held for all clients after a turn at most. Each one's share is a part of that.
    most: usize,
}

// The stages of a turn.
fn run_turn<W: Wire, R: Net + Clock>(
    rt: &R,
    core: &mut ServedCore,
    sockets: &mut Sockets<W>,
    limit: Option<Duration>,
    most: usize,
) -> io::Result<()>
    ensures ends { AllGoOn W.history core.old sockets.old core.new sockets.new }
    ensures bounded { OnOk result (held_by_all sockets.new.clients ≤ most) }
    ensures share { OnOk result (sockets.new.stalls.share ≡ share_by most (held_by_all sockets.new.clients) sockets.new.links.settings.clients) }
    ensures refused { OnErr result (core.new ≡ core.old) }
{
    // Something is waited for, and what is ready is noted.
    sockets.wait(rt, limit)?;
    sockets.list_again();
    // Room that nothing needed for a while goes back.
    give_back_room(core, sockets);
    // Clients come.
    accept_ready(core, sockets);
    // Clients are read, and their calls go out.
    serve_asks(rt, core, sockets);
    // Servers are read, and their answers settle calls.
    read_links(core, sockets);
    // Calls fail that have taken too long.
    fail_late(core, sockets);
    // Clients go on whose calls were settled, and those that waited for a key or a server.
    serve_all(rt, core, sockets);
    // Calls go out.
    send_links(core, sockets);
    // Replies go out.
    send_clients(core, sockets);
    // Clients are closed that take too little.
    close_slow(core, sockets, most);
    Ok(())
}

impl<W: Wire + Drop> ProxyEnd<W> {
    /// An end over a wire that listens, where servers began so. No server has a connection: each is begun when the first call is to go out
    /// on it, at the address that the server's text was found to name. The calls of one whose text names none fail.
    pub fn new(
        alloc: Global,
        wire: W,
        accepted: Accepted,
        begun: Beginnings,
        servers: &Servers,
        settings: Settings,
    ) -> Result<ProxyEnd<W>, AllocError>
        ensures core { IfOk result (λ end. BeginsFresh accepted begun settings end.core.value) }
        ensures ends { IfOk result (λ end. HasNoConns (W.history wire) → Agrees [] (end_of W.history end.core.value end.sockets)) }
        ensures texts { IfOk result (λ end. texts_of end.sockets.links.all.items ≡ servers.now) }
        ensures wire { IfOk result (λ end. end.sockets.wire ≡ wire) }
    {
        let links = Links::to(alloc, servers, settings)?;
        let core = fresh_core(alloc, accepted, begun, settings)?;
        Ok(ProxyEnd::of(alloc, core, wire, links))
    }

    /// An end on a tree of which no gate was asked: nothing is promised of what replies show.
    pub fn unchecked(
        alloc: Global,
        wire: W,
        tree: Tree,
        servers: &Servers,
        settings: Settings,
    ) -> Result<ProxyEnd<W>, AllocError>
        ensures core { IfOk result (λ end. BeginsUnchecked tree settings end.core.value) }
        ensures ends { IfOk result (λ end. HasNoConns (W.history wire) → Agrees [] (end_of W.history end.core.value end.sockets)) }
        ensures texts { IfOk result (λ end. texts_of end.sockets.links.all.items ≡ servers.now) }
        ensures wire { IfOk result (λ end. end.sockets.wire ≡ wire) }
    {
        let links = Links::to(alloc, servers, settings)?;
        let core = unchecked_core(alloc, tree, servers.len(), settings)?;
        Ok(ProxyEnd::of(alloc, core, wire, links))
    }
}

impl<W: Wire> ProxyEnd<W> {
    fn of(alloc: Global, core: Box<ServedCore>, wire: W, links: Links) -> ProxyEnd<W>
        ensures core { result.core ≡ core }
        ensures links { result.sockets.links ≡ links }
        ensures none { result.sockets.clients.all.items ≡ [] }
        ensures wire { result.sockets.wire ≡ wire }
    {
        ProxyEnd {
            core,
            sockets: Sockets::new(alloc, wire, links),
            most: USUAL_MOST,
        }
    }

    /// Commands that begin from now on run by this configuration's tree, and those that are under way end on the trees on which they
    /// began. It gives the number of the generation. `servers` are all its servers: those in use first, by the names that they have.
    ///
    /// Each server has the limits then that the value of the configuration says of it, and these where it says none.
    ///
    /// After a fault the tree in use is kept, and so are the servers with their limits. `OtherServers` also comes where `servers` doesn't begin with those in use: only there
    /// and where the core refuses it as [`ServedCore::load`] says, and they are never loaded there. `NoMemory` also comes where there was no memory for links to new ones: what
    /// memory is there no clause can say, so it may come in place of each other answer.
    pub fn load(
        &mut self,
        config: Config,
        servers: &Servers,
        usual: LinkLimits,
        said: &Value,
    ) -> Result<u32, LoadFault>
        ensures loaded { IfOk result (λ generation. IsLoaded self.old.core.value config generation self.new.core.value) }
        ensures begins { OnOk result (BeginWith (texts_of self.old.sockets.links.all.items) servers.now) }
        ensures faults { IfErr result (λ fault. RefusesBoth (texts_of self.old.sockets.links.all.items) servers.now self.old.core.value config fault) }
        ensures refused { OnErr result (self.new.core.value ≡ self.old.core.value) }
        ensures ends { AllLoad W.history config servers.now (value_limits usual (view said.now)) self.old.core.value self.old.sockets self.new.core.value self.new.sockets }
        ensures wire { self.new.sockets.wire ≡ self.old.sockets.wire }
        ensures texts { OnOk result (texts_of self.new.sockets.links.all.items ≡ servers.now) }
    {
        let before = self.sockets.links.all.len();
        self.sockets.links.bring(servers)?;
        match self.core.load(self.sockets.alloc, config) {
            Ok(generation) => {
                self.sockets.links.limit(usual, said);
                Ok(generation)
            }
            Err(fault) => {
                self.sockets.links.go_back(before);
                Err(fault)
            }
        }
    }

    /// A client is closed that takes nothing for so many milliseconds, while more than 1 MiB is to be sent to it; and where more bytes than these
    /// are held for all, the client for which most are. Without it, ten seconds and 1 GiB.
    pub fn bound_clients(&mut self, ms: u64, most: usize)
        ensures rest { self.new ≡ record self.old { most = most; sockets = self.new.sockets } }
        ensures ends { Stay W.history self.old.sockets self.new.sockets }
    {
        self.most = most;
        self.sockets.stalls.bound(ms);
    }

    /// Where the gate accepted its trees, they are sound, and each log that may have led to the core is fresh, if servers began as is said. A
    /// law: it does nothing.
    pub fn logs_are_fresh(&self)
        ensures fresh { LogsAreFresh self.now.core.value }
        ensures sound { TreesAreSound self.now.core.value }
    {
        let core = self.core.as_ref();
        begun_core_is_fresh(core);
        accepted_trees_are_sound(core);
    }

    /// Nothing more is read of clients of which nothing is under way: all that came of them is done, and all replies were sent. The next turn closes
    /// each of them. By calls of the core, loads aside, all ends go on.
    pub fn end_quiet(&mut self)
        ensures core { GoesOn self.old.core.value self.new.core.value }
        ensures ends { AllGoOn W.history self.old.core.value self.old.sockets self.new.core.value self.new.sockets }
    {
        end_quiet(self.core.as_mut(), &mut self.sockets)
    }

    /// What its core has done so far: clients opened and turned away, messages refused, commands ended, in all and of each operation by their
    /// replies, and calls given out, answered and failed, in all and of each server. Each count is of just that, as far as it goes
    /// ([`serve_links::laws::steps_are_counted`], [`serve_links::laws::steps_are_counted_by_server`]).
    pub fn core_tally(&self) -> &CoreTally
        ensures { result.now ≡ self.now.core.value.tally }
    {
        self.core.tally()
    }

    /// How many commands have begun, one for each key of a message: as many as in each log that may have led to its core.
    pub fn commands_begun(&self) -> u64
        ensures exact { result ≡ self.now.core.value.core.number }
        ensures counted { CountsBegun self.now.core.value result }
    {
        self.core.begun()
    }

    /// Whether so many calls are out, and nothing is left to do until something comes.
    pub fn is_still(&self, calls: usize) -> bool
        ensures { IsTrue result ↔ EndIsStill calls self.now }
    {
        self.sockets.is_still(calls)
    }

    /// The connection to a server is closed, and what came over it is never read: the calls that are out on it have failed.
    pub fn drop_link(&mut self, server: usize)
        ensures core { OnlyFails self.old.core.value self.new.core.value }
        ensures ends { AllDrop W.history self.old.core.value self.old.sockets self.new.core.value self.new.sockets }
        ensures down { IsDownAt server self.new.sockets.links.all.items }
        ensures closed { IsClosedAt server self.new.sockets.links.all.items }
    {
        shut_link(self.core.as_mut(), &mut self.sockets, server, Cause::Broken)
    }

    /// One turn: a wait until something is ready or late, and then all that is ready is done.
    ///
    /// By calls of the core, loads aside, all ends go on: where they agreed with all calls before the turn, they agree with all calls after it. At the
    /// end of the turn no more bytes are held for all clients together than [`bound_clients`](ProxyEnd::bound_clients) sets, and until the end of the next
    /// one the replies that are held for a client are within its share before a command of it begins: where more than three quarters are held, by its part
    /// of these.
    ///
    /// The only error is the system's, of its clock or of the wait: the core is then as it was. Where memory is refused for what is done, a client
    /// is closed or its commands fail.
    pub fn turn<R: Net + Clock>(&mut self, rt: &R) -> io::Result<()>
        ensures core { GoesOn self.old.core.value self.new.core.value }
        ensures ends { AllGoOn W.history self.old.core.value self.old.sockets self.new.core.value self.new.sockets }
        ensures bounded { OnOk result (held_by_all self.new.sockets.clients ≤ self.old.most) }
        ensures share { OnOk result (self.new.sockets.stalls.share ≡ share_by self.old.most (held_by_all self.new.sockets.clients) self.new.sockets.links.settings.clients) }
        ensures most { self.new.most ≡ self.old.most }
        ensures refused { OnErr result (self.new.core ≡ self.old.core) }
    {
        let limit = self.sockets.wait_limit(rt)?;
        run_turn(rt, self.core.as_mut(), &mut self.sockets, limit, self.most)
    }

    /// One turn whose wait ends after this long at the latest, so that several ends can be turned in one thread.
    ///
    /// By calls of the core, loads aside, all ends go on: where they agreed with all calls before the turn, they agree with all calls after it. At the
    /// end of the turn no more bytes are held for all clients together than [`bound_clients`](ProxyEnd::bound_clients) sets, and until the end of the next
    /// one the replies that are held for a client are within its share before a command of it begins: where more than three quarters are held, by its part
    /// of these.
    ///
    /// The only error is the system's, of its clock or of the wait: the core is then as it was. Where memory is refused for what is done, a client
    /// is closed or its commands fail.
    pub fn turn_within<R: Net + Clock>(&mut self, rt: &R, most: Duration) -> io::Result<()>
        ensures core { GoesOn self.old.core.value self.new.core.value }
        ensures ends { AllGoOn W.history self.old.core.value self.old.sockets self.new.core.value self.new.sockets }
        ensures bounded { OnOk result (held_by_all self.new.sockets.clients ≤ self.old.most) }
        ensures share { OnOk result (self.new.sockets.stalls.share ≡ share_by self.old.most (held_by_all self.new.sockets.clients) self.new.sockets.links.settings.clients) }
        ensures most { self.new.most ≡ self.old.most }
        ensures refused { OnErr result (self.new.core ≡ self.old.core) }
    {
        let limit = self.sockets.wait_limit(rt)?;
        let limit = Some(at_most(limit, most));
        run_turn(rt, self.core.as_mut(), &mut self.sockets, limit, self.most)
    }

    /// What was held back goes to its clients, as far as they take it: for whoever turns it no more. By calls of the core, loads aside, all ends go
    /// on: where they agreed with all calls before, they agree with all calls after.
    pub fn end_turns(&mut self)
        ensures core { GoesOn self.old.core.value self.new.core.value }
        ensures ends { AllGoOn W.history self.old.core.value self.old.sockets self.new.core.value self.new.sockets }
    {
        send_clients(self.core.as_mut(), &mut self.sockets)
    }
}
