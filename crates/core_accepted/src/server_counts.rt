//! Counts by server, each at the place of the server's number. A count that reaches the greatest number stays there.

ghost use Rattle.std.specs.Prelude.{◌≡◌, [], nat_lt, slice_index, length};
ghost use Rattle.core_accepted.specs.Tallies.{more_at, AddsPlaces};

use std::alloc::Global;
use std::marker::Model;

/// How many there were at each server that has a place here; others have none.
#[derive(Drop)]
pub struct ServerCounts {
    counts: Vec<u64>,
}

impl Model for ServerCounts {
    ghost use Rattle.std.specs.Prelude.{ℕ, List};

    ghost Value = { List ℕ };

    ghost view = { λ c. c.counts.items };
}

impl ServerCounts {
    /// No server has a place. It takes no memory.
    pub fn new(alloc: Global) -> ServerCounts
        ensures { result ≡ [] }
    {
        ServerCounts {
            counts: Vec::new(alloc),
        }
    }

    /// The servers below this number have places, with no count where they had none, if no memory is refused.
    pub fn make_places(&mut self, servers: usize)
        ensures { AddsPlaces self.old self.new }
    {
        if self.counts.len() < servers {
            let _ = self.counts.resize(servers, 0);
        }
    }

    /// How many there were at this server.
    pub fn of(&self, server: usize) -> u64
        ensures { result ≡ slice_index self.now server }
    {
        match self.counts.get(server) {
            None => 0,
            Some(count) => *count,
        }
    }

    /// There is one more at this server, if it has a place. Whether it has. It takes no memory.
    pub fn count_one(&mut self, server: usize) -> bool
        ensures place { result ≡ nat_lt server (length self.old) }
        ensures counted { self.new ≡ more_at server self.old }
    {
        if self.counts.len() <= server {
            return false;
        }
        self.counts[server] = self.counts[server].saturating_add(1);
        true
    }
}
