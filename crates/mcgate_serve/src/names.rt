//! Servers' names that are looked up again: when that was done last of each, which one is due, and which are followed.

ghost use Rattle.std.specs.Prelude.{◌≡◌};
ghost use Rattle.mcgate_serve.specs.Names.{follows};
ghost use Rattle.serve_wire.specs.declared.outcomes.Lead.TheVariants.{Other};

use core_accepted::{Beginning, Beginnings};
use route_json::addresses::{Servers, address_in};
use serve_proxy::text_at;
use serve_wire::Lead;
use std::alloc::Global;

// The name of a server whose connection failed is looked up again after so many milliseconds.
const SOON_MS: u64 = 1_000;

// Of a name that isn't followed is told once in so many milliseconds.
const QUIET_MS: u64 = 60_000;

// After a look-up there is none for so many times as long as it took, of so many milliseconds at most.
const REST: u64 = 4;

const LONGEST_MS: u64 = 30_000;

/// Whether calls go where a server's name leads from now on. Another machine may hold anything, unless it is said that new servers begin
/// empty, or nothing is promised; and others of a fleet may still call the one before.
pub fn follows(begun: Beginnings, any: bool, fleet: bool, lead: Lead) -> bool
    ensures { result ≡ follows begun.added any fleet lead }
{
    match lead {
        Lead::Same => false,
        Lead::First => true,
        Lead::Other => follows_other(begun.added, any, fleet),
    }
}

// Whether calls go to another machine from now on, where a server's name leads there.
fn follows_other(added: Beginning, any: bool, fleet: bool) -> bool
    ensures { result ≡ follows added any fleet Other }
{
    match (fleet, added) {
        (true, _) => false,
        (false, Beginning::Own) => true,
        (false, Beginning::Any) => any,
    }
}

fn has_digits_alone(host: &str) -> bool {
    host.as_bytes()
        .iter()
        .all(|b| *b == b'.' || b.is_ascii_digit())
}

// Whether an address is a path, or has a machine's number, so that nobody is asked where it leads.
fn is_fixed(address: &str) -> bool {
    if address.starts_with("unix:/") || address.starts_with("[") {
        return true;
    }
    match address.rsplit_once(':') {
        Some((host, _)) => has_digits_alone(host),
        None => false,
    }
}

// Whether the address of the server of this number is a path, or has a machine's number, so that nobody is asked where it leads; also where there is no
// such server.
fn is_fixed_at(servers: &Servers, at: usize) -> bool {
    match text_at(servers, at) {
        Some(text) => is_fixed(address_in(text)),
        None => true,
    }
}

// The name of a server.
#[derive(Clone, Copy)]
struct Name {
    is_fixed: bool,
    // When it was looked up last, in milliseconds.
    looked: u64,
    // Whether its server's connection has failed since.
    has_failed: bool,
    // Until then nothing more is told of it.
    quiet_until: u64,
}

impl Name {
    // When it is due, if it is looked up each so many milliseconds.
    fn due_from(&self, every: u64) -> u64 {
        if self.is_fixed {
            u64::MAX
        } else if self.has_failed {
            self.looked.saturating_add(every.min(SOON_MS))
        } else {
            self.looked.saturating_add(every)
        }
    }
}

/// The names of servers, by the servers' numbers.
#[derive(Drop)]
pub struct Names {
    all: Vec<Name>,
    // None is due before.
    due_from: u64,
    // Until then there is no look-up.
    rests_until: u64,
}

impl Names {
    /// The names of these servers, which were looked up when the clock showed 0.
    pub fn of(alloc: Global, servers: &Servers) -> Names {
        let mut names = Names {
            all: Vec::new(alloc),
            due_from: 0,
            rests_until: 0,
        };
        names.make_places(servers, 0);
        names
    }

    // There is one for each of these servers, unless memory was refused. Those that come now were just looked up.
    fn make_places(&mut self, servers: &Servers, now: u64) {
        for at in self.all.len()..servers.len() {
            let name = Name {
                is_fixed: is_fixed_at(servers, at),
                looked: now,
                has_failed: false,
                quiet_until: 0,
            };
            if self.all.push(name).is_err() {
                return;
            }
            self.due_from = 0;
        }
    }

    // The one that is due first, and when.
    fn first(&self, every: u64) -> (usize, u64) {
        let mut first = 0usize;
        let mut from = u64::MAX;
        for at in 0..self.all.len() {
            if let Some(name) = self.all.get(at) {
                let due_from = name.due_from(every);
                if due_from < from {
                    first = at;
                    from = due_from;
                }
            }
        }
        (first, from)
    }

    // The one that is due first, if it is due by now.
    fn first_by(&mut self, now: u64, every: u64) -> Option<usize> {
        let (at, from) = self.first(every);
        self.due_from = from;
        if from <= now { Some(at) } else { None }
    }

    /// The number of a server whose name is to be looked up now, where each is after so many seconds, and after a failure.
    pub fn next_due(&mut self, servers: &Servers, now: u64, every_s: u32) -> Option<usize> {
        let every = u64::from(every_s).saturating_mul(1_000);
        self.make_places(servers, now);
        if now < self.due_from || now < self.rests_until {
            return None;
        }
        self.first_by(now, every)
    }

    /// The connection of this server failed: its name is due soon.
    pub fn note_failed(&mut self, at: usize) {
        if let Some(name) = self.all.get_mut(at) {
            name.has_failed = true;
            self.due_from = self.due_from.min(name.due_from(u64::MAX));
        }
    }

    /// Whether the connection of this server failed since its name was looked up.
    pub fn has_failed(&self, at: usize) -> bool {
        match self.all.get(at) {
            Some(name) => name.has_failed,
            None => false,
        }
    }

    /// The name of this server is looked up now, or needn't be.
    pub fn note_looked(&mut self, at: usize, now: u64) {
        if let Some(name) = self.all.get_mut(at) {
            name.looked = now;
            name.has_failed = false;
        }
    }

    /// A look-up took so many milliseconds, in which nothing else was done: so there is no other one for a while.
    pub fn note_took(&mut self, now: u64, took: u64) {
        let rest = took.min(LONGEST_MS).saturating_mul(REST);
        self.rests_until = now.saturating_add(took).saturating_add(rest);
    }

    /// Whether it is told now of this server that its name isn't followed; if so, it isn't told again for a while.
    pub fn may_tell(&mut self, at: usize, now: u64) -> bool {
        match self.all.get_mut(at) {
            Some(name) if now < name.quiet_until => false,
            Some(name) => {
                name.quiet_until = now.saturating_add(QUIET_MS);
                true
            }
            None => true,
        }
    }
}
