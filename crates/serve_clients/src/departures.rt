//! Why clients go, and how many have gone for what.

ghost use Rattle.std.specs.Prelude.{◌<◌};

/// Why a client goes.
#[derive(Clone, Copy, PartialEq, Eq)]
pub enum Departure {
    /// It ended its connection.
    Ended,
    /// It said `quit`.
    Quit,
    /// It sent what ends a conversation, as it is none of memcached's: a line that is too long, the binary protocol, or HTTP.
    NotMemcached,
    /// Its connection failed.
    Broken,
    /// It took nothing for too long, while much was to be sent to it.
    Stalled,
    /// Too much was held for all clients, or memory was refused for what a server sent, and most was held for this one.
    MostHeld,
    /// Nothing of it was under way while the proxy drained.
    Drained,
    /// Memory was refused for it.
    NoRoom,
}

/// All of them.
pub const DEPARTURES: [Departure; 8] = [
    Departure::Ended,
    Departure::Quit,
    Departure::NotMemcached,
    Departure::Broken,
    Departure::Stalled,
    Departure::MostHeld,
    Departure::Drained,
    Departure::NoRoom,
];

/// How many clients have gone for what. A count that reaches the greatest number stays there.
#[derive(Clone, Copy)]
pub struct Departures {
    // By the place of the cause.
    counts: [u64; 8],
}

impl Departure {
    /// Its name where clients that have gone are counted.
    pub fn name(self) -> &'static str {
        match self {
            Departure::Ended => "ended",
            Departure::Quit => "quit",
            Departure::NotMemcached => "foreign",
            Departure::Broken => "broken",
            Departure::Stalled => "stalled",
            Departure::MostHeld => "most_held",
            Departure::Drained => "drained",
            Departure::NoRoom => "no_room",
        }
    }

    // Its place among all.
    fn place(self) -> usize
        ensures { result < 8 }
    {
        match self {
            Departure::Ended => 0,
            Departure::Quit => 1,
            Departure::NotMemcached => 2,
            Departure::Broken => 3,
            Departure::Stalled => 4,
            Departure::MostHeld => 5,
            Departure::Drained => 6,
            Departure::NoRoom => 7,
        }
    }
}

impl Departures {
    /// None yet.
    pub fn new() -> Departures {
        Departures { counts: [0; 8] }
    }

    /// One has gone for this.
    pub fn note(&mut self, why: Departure) {
        let place = why.place();
        self.counts[place] = self.counts[place].saturating_add(1);
    }

    /// How many have gone for this.
    pub fn of(&self, why: Departure) -> u64 {
        self.counts[why.place()]
    }
}
