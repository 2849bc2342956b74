//! What whoever runs an end tells its sockets and asks of them: where servers are, how long they are waited for, what happened to them, and
//! who is accepted. Nothing here knows the core.

ghost use Rattle.std.specs.Prelude.{◌≡◌, ◌≢◌, ◌≤◌, ◌∷◌, true, IsSome, MatchOption, option_map, slice_get};
ghost use Rattle.serde_json.specs.View.{view};
ghost use Rattle.serve_wire.specs.Events.{looks_up};
ghost use Rattle.serve_links.specs.Lateness.{usual_limits};
ghost use Rattle.serve_links.specs.Story.{servers_of};
ghost use Rattle.serve_proxy.specs.Ends.{Stay, StayButLimits};
ghost use Rattle.serve_proxy.specs.Emptying.{EmptiesAt};
ghost use Rattle.serve_proxy.specs.Epochs.{EpochsAreInTurn};
ghost use Rattle.serve_proxy.specs.Limiting.{value_limits, AreLimited};

use crate::sockets::Sockets;
use route_json::addresses::Servers;
use serde_json::Value;
use serve_links::{CallTally, Link, LinkLimits, LinkNews};
use serve_wire::{Lead, Wire};
use std::io;
use std::net::Net;

impl<W: Wire> Sockets<W> {
    /// Looks up the address in a server's name. Connections to it that are begun from now on go there.
    pub fn resolve<N: Net>(&mut self, net: &N, text: &str) -> io::Result<()>
        ensures looked { W.history self.new.wire ≡ looks_up text.now ∷ W.history self.old.wire }
        ensures links { self.new.links ≡ self.old.links }
        ensures ends { Stay W.history self.old self.new }
    {
        self.wire.resolve(net, text.as_bytes())
    }

    /// Where the address in a server's name leads now, beside the machine to which connections are begun. Nothing changes by that. An error comes
    /// where it leads nowhere.
    pub fn look_again<N: Net>(&self, net: &N, text: &str) -> io::Result<Lead> {
        self.wire.look_again(net, text.as_bytes())
    }

    /// The server of this number is emptied, by `flush_all`, before its first call.
    pub fn empty_first(&mut self, server: usize)
        ensures emptied { EmptiesAt server self.old.links.all.items self.new.links.all.items }
        ensures ends { Stay W.history self.old self.new }
    {
        self.links.empty_first(server);
    }

    /// Each server has the limits that the value of a configuration says of it, and these where it says none, from now on.
    pub fn limit(&mut self, usual: LinkLimits, said: &Value)
        ensures limited { AreLimited (value_limits usual (view said.now)) (servers_of self.new.links.all.items) }
        ensures ends { StayButLimits W.history self.old self.new }
    {
        self.links.limit(usual, said);
    }

    /// The limits of a server of which nothing is said.
    pub fn usual_limits(&self) -> LinkLimits
        ensures { result ≡ usual_limits self.now.links.settings }
    {
        self.links.settings.link_limits()
    }

    /// Where servers have epochs: calls go to a server once the earlier ones at its address have none any more, and where a later one has its address until it has none any more
    /// itself; all others fail. Whether none is waited for. It is asked after a load, and after each turn until it says so.
    pub fn keep_epochs(&mut self, servers: &Servers) -> bool
        ensures turns { EpochsAreInTurn servers.now self.new.links.all.items }
        ensures ends { Stay W.history self.old self.new }
    {
        self.links.keep_epochs(servers)
    }

    /// What happened to a server's link, and the server's number; of each server once a second at most, and of several things the
    /// last. It is asked after each turn until there is none.
    pub fn next_news(&mut self) -> Option<(usize, LinkNews)>
        ensures ends { Stay W.history self.old self.new }
    {
        self.links.next_news(self.time)
    }

    /// How many clients were closed as they took nothing for too long, or as too much was held and most for them
    /// ([`bound_clients`](crate::ProxyEnd::bound_clients)), since that was told last. It is told once a second at most.
    pub fn next_stalled(&mut self) -> Option<u64>
        ensures ends { Stay W.history self.old self.new }
        ensures told { MatchOption result (self.new.stalls ≡ self.old.stalls) (λ closed. (closed ≡ self.old.stalls.closed) × (self.old.stalls.closed ≢ 0) × (self.new.stalls.closed ≡ 0)) }
        ensures due { (self.old.stalls.closed ≢ 0) → self.old.stalls.quiet_until ≤ self.old.time → IsSome result }
    {
        self.stalls.next_closed(self.time)
    }

    /// Nobody is accepted from now on, and who would connect is refused. Clients that are there stay.
    pub fn stop_accepting(&mut self)
        ensures ends { Stay W.history self.old self.new }
    {
        self.wire.stop_accepting();
    }

    /// From now on clients are polled in rounds, as those of a script are: each once, in the order in which they were accepted. Without it
    /// a client is polled until it waits, and who waits for a server comes after who waited before it.
    pub fn poll_in_rounds(&mut self)
        ensures { self.new ≡ record self.old { in_rounds = true } }
    {
        self.in_rounds = true;
    }

    /// How long commands took that have ended, from when each began or came to the line of its key: as many as that are `answered`.
    pub fn command_times(&self) -> CallTally
        ensures { result ≡ self.now.times.tally }
    {
        self.times.tally()
    }

    /// The link to the server of this number.
    pub fn link(&self, server: usize) -> Option<&Link>
        ensures { option_map (λ link. link.now) result ≡ slice_get self.now.links.all.items server }
    {
        self.links.all.get(server)
    }
}
