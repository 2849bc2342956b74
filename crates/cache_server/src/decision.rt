//! What a call finds, and what it does to what is held.

ghost use Rattle.std.specs.Prelude.{◌≡◌, Some, None, if◌then◌else◌};
ghost use Rattle.cache_server.specs.Table.{classic_answer, finds, needs_number, settled, shown_cas};

use crate::item::{CacheItem, Entry};
use mc_types::{Answer, ErrorText, OwnText};

/// What a call finds, whichever dialect it is asked in.
#[derive(Drop)]
pub enum Verdict {
    Hit(Entry),
    Miss,
    Stored,
    NotStored,
    Exists,
    NotFound,
    Deleted,
    Touched,
    Counted(u64),
    /// The data to count are no number.
    NotNumeric,
    /// The joined data would be too long.
    TooLarge,
    /// No cas number is left.
    OutOfMemory,
}

/// What a call does to what is held of its key.
#[derive(Drop)]
pub enum Change {
    /// Nothing, but that it was used.
    Leaves,
    /// Nothing is held any more.
    Removes,
    /// This entry is held, under the cas number that it had.
    Renews(Entry),
    /// This item is held, under the next cas number.
    Stores(CacheItem),
}

/// What a call finds and changes.
#[derive(Drop)]
pub struct Decision {
    pub verdict: Verdict,
    pub change: Change,
}

fn hit(entry: Entry, with_cas: bool) -> Answer
    ensures { result ≡ classic_answer with_cas (Verdict.Hit entry) }
{
    let Entry { item, cas } = entry;
    let CacheItem { body, flags, .. } = item;
    Answer::Hit {
        flags,
        body,
        cas: if with_cas { Some(cas) } else { None },
    }
}

impl Verdict {
    /// The answer to a classic ask. It takes no memory.
    pub fn classic_answer(self, with_cas: bool) -> Answer
        ensures { result ≡ classic_answer with_cas self }
    {
        match self {
            Verdict::Hit(entry) => hit(entry, with_cas),
            Verdict::Miss => Answer::Miss,
            Verdict::Stored => Answer::Stored,
            Verdict::NotStored => Answer::NotStored,
            Verdict::Exists => Answer::Exists,
            Verdict::NotFound => Answer::NotFound,
            Verdict::Deleted => Answer::Deleted,
            Verdict::Touched => Answer::Touched,
            Verdict::Counted(number) => Answer::Number(number),
            Verdict::NotNumeric => Answer::ClientError(ErrorText::own(OwnText::NotNumeric)),
            Verdict::TooLarge => Answer::ServerError(ErrorText::own(OwnText::TooLarge)),
            Verdict::OutOfMemory => Answer::ServerError(ErrorText::own(OwnText::OutOfMemory)),
        }
    }
}

impl Decision {
    /// The call changes nothing, but that the key was used.
    pub fn finds(verdict: Verdict) -> Decision
        ensures { result ≡ finds verdict }
    {
        Decision {
            verdict,
            change: Change::Leaves,
        }
    }

    fn needs_number(&self) -> bool
        ensures { result ≡ needs_number self.now.change }
    {
        match &self.change {
            Change::Stores(_) => true,
            Change::Leaves | Change::Removes | Change::Renews(_) => false,
        }
    }

    /// The decision as it is taken: what needs a cas number is refused where this is the last one.
    pub fn settled(self, counter: u64) -> Decision
        ensures { result ≡ settled counter self }
    {
        if self.needs_number() && counter == u64::MAX {
            return Decision::finds(Verdict::OutOfMemory);
        }
        self
    }
}
