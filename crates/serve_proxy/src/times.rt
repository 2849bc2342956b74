//! How long clients' commands take: when each began that is under way, and how long those took that have ended. Nothing here knows the core.
//!
//! Times are what the clock of an end showed last, in microseconds. A command that waits for its key counts from when it came to the line of
//! that. Where memory is refused for what is noted here, the command is in no count.

ghost use Rattle.std.specs.Prelude.{◌≡◌, ◌<◌, length, IfSome};
ghost use Rattle.serve_proxy.specs.Times.{with_ended};

use serve_links::CallTally;
use std::alloc::{AllocError, Global};

/// A command that is under way.
#[derive(Clone, Copy)]
struct Begun {
    // The core's number of it.
    number: u64,
    // When it began.
    micros: u64,
}

/// The commands of a client.
#[derive(Drop)]
struct ClientTimes {
    // The last number of one that began.
    last: u64,
    // When the next one came to the line of its key, where it stands in that.
    queued: Option<u64>,
    // One that is under way, and further ones.
    one: Option<Begun>,
    others: Vec<Begun>,
}

/// The commands of all clients.
#[derive(Drop)]
pub struct CommandTimes {
    alloc: Global,
    // Those that are under way, by their clients' ids.
    clients: Vec<ClientTimes>,
    // How long those took that have ended.
    tally: CallTally,
}

// Where the command of this number stands among these.
fn place_of(number: u64, begun: &[Begun]) -> Option<usize>
    ensures { IfSome result (λ place. place < length begun.now) }
{
    begun.iter().position(|it| it.number == number)
}

// Clients up to this id can be noted.
fn add_places(alloc: Global, clients: &mut Vec<ClientTimes>, id: usize) -> Result<(), AllocError> {
    for _ in clients.len()..=id {
        clients.push(ClientTimes::new(alloc))?;
    }
    Ok(())
}

impl ClientTimes {
    // None is under way. It takes no memory.
    fn new(alloc: Global) -> ClientTimes {
        ClientTimes {
            last: 0,
            queued: None,
            one: None,
            others: Vec::new(alloc),
        }
    }

    // From when the next one counts, which begins now.
    fn from_when(&mut self, now: u64) -> u64 {
        self.queued.take().unwrap_or(now)
    }

    // The command of this number goes on by a call: by its first one it begins.
    fn begin(&mut self, number: u64, now: u64) {
        if number <= self.last {
            return;
        }
        self.last = number;
        let micros = self.from_when(now);
        self.keep(Begun { number, micros });
    }

    fn keep(&mut self, begun: Begun) {
        if self.one.is_none() {
            self.one = Some(begun);
            return;
        }
        let _ = self.others.push(begun);
    }

    // From when the command of this number counts, which ends now: one that made no call begins now, too.
    fn end(&mut self, number: u64, now: u64) -> Option<u64> {
        if number > self.last {
            self.last = number;
            return Some(self.from_when(now));
        }
        match self.one {
            Some(begun) if begun.number == number => {
                self.one = None;
                Some(begun.micros)
            }
            _ => self.end_other(number),
        }
    }

    fn end_other(&mut self, number: u64) -> Option<u64> {
        let place = place_of(number, self.others.as_slice())?;
        Some(self.others.swap_remove(place).micros)
    }
}

impl CommandTimes {
    /// None has begun. It takes no memory.
    pub fn new(alloc: Global) -> CommandTimes {
        CommandTimes {
            alloc,
            clients: Vec::new(alloc),
            tally: CallTally::new(),
        }
    }

    // A client of this id can be noted, if memory is there for that.
    fn make_place(&mut self, id: usize)
        ensures { self.new ≡ record self.old { clients = self.new.clients } }
    {
        if id < self.clients.len() {
            return;
        }
        let _ = add_places(self.alloc, &mut self.clients, id);
    }

    /// The client's next command comes to the line of its key now.
    pub fn queue(&mut self, id: usize, now: u64)
        ensures { self.new.tally ≡ self.old.tally }
    {
        self.make_place(id);
        if let Some(client) = self.clients.get_mut(id) {
            client.queued = Some(now);
        }
    }

    /// It leaves that line without having begun.
    pub fn leave_line(&mut self, id: usize)
        ensures { self.new.tally ≡ self.old.tally }
    {
        if let Some(client) = self.clients.get_mut(id) {
            client.queued = None;
        }
    }

    /// The client's command of this number goes on by a call now: by its first one it begins.
    pub fn begin(&mut self, id: usize, number: u64, now: u64)
        ensures { self.new.tally ≡ self.old.tally }
    {
        self.make_place(id);
        if let Some(client) = self.clients.get_mut(id) {
            client.begin(number, now);
        }
    }

    // From when the client's command of this number counts, which ends now.
    fn take(&mut self, id: usize, number: u64, now: u64) -> Option<u64>
        ensures { self.new.tally ≡ self.old.tally }
    {
        self.make_place(id);
        match self.clients.get_mut(id) {
            Some(client) => client.end(number, now),
            None => None,
        }
    }

    // A command ends now that counts from then, if that is known.
    fn note(&mut self, from: Option<u64>, now: u64)
        ensures { self.new ≡ with_ended from now self.old }
    {
        match from {
            Some(from) => self.tally.note_answered(now.saturating_sub(from)),
            None => {}
        }
    }

    /// The client's command of this number ends now.
    pub fn end(&mut self, id: usize, number: u64, now: u64) {
        let from = self.take(id, number, now);
        self.note(from, now)
    }

    /// The client is gone, and another one may have its id.
    pub fn forget(&mut self, id: usize)
        ensures { self.new.tally ≡ self.old.tally }
    {
        if let Some(client) = self.clients.get_mut(id) {
            *client = ClientTimes::new(self.alloc);
        }
    }

    /// The memory for commands that ended goes back.
    pub fn shrink(&mut self, id: usize)
        ensures { self.new.tally ≡ self.old.tally }
    {
        if let Some(client) = self.clients.get_mut(id) {
            if client.others.is_empty() {
                client.others = Vec::new(self.alloc);
            }
        }
    }

    /// How long commands took that have ended.
    pub fn tally(&self) -> CallTally
        ensures { result ≡ self.now.tally }
    {
        self.tally
    }
}
