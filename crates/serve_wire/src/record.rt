//! A history that only clauses read. It takes no memory, and its functions do nothing.

ghost use Rattle.std.specs.Prelude.{◌≡◌, List, [], ◌∷◌};
ghost use Rattle.std.specs.Borrow.{ftrue};
ghost use Rattle.serve_wire.specs.Events.{WireEvent, event_of, with_more};

use std::marker::{Model, PhantomData};

/// What has happened, newest first.
#[derive(Drop)]
pub struct Record {
    marker: PhantomData<u8>,
    pub ghost events: { List WireEvent },
}

impl Model for Record {
    ghost also_owns = { λ _. ftrue };
}

impl Record {
    /// Nothing has happened.
    pub fn new() -> Record
        ensures { result.events ≡ [] }
    {
        Record {
            marker: PhantomData,
        }
    }

    /// One event more: its kind, its connection, one more number, and bytes.
    pub fn note(&mut self, _numbers: &[u64], _bytes: &[u8])
        ensures { self.new.events ≡ event_of _numbers.now _bytes.now ∷ self.old.events }
    {}

    /// The newest event has these bytes too, behind its own. No number is read.
    pub fn extend(&mut self, _numbers: &[u64], _bytes: &[u8])
        ensures { self.new.events ≡ with_more _bytes.now self.old.events }
    {}
}
