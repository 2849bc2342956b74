//! What the calls of commands under way found.

ghost use Rattle.std.specs.Prelude.{◌≡◌, ℕ, ◌++◌, ◌∷◌, [], if◌then◌else◌, nat_eq, OnOk, OnErr};
ghost use Rattle.script_events.specs.Found.{stamp_at, stamp_given};

use mc_types::Origin;
use std::alloc::{AllocError, Global};
use std::collections::BTreeMap;

/// The stamps of the items that calls of commands under way found, by the commands' numbers: `None` where a call failed or found
/// nothing.
#[derive(Drop)]
pub struct FoundStamps {
    alloc: Global,
    stamps: BTreeMap<u64, Vec<Option<u64>>>,
}

impl FoundStamps {
    ghost use Rattle.script_run.specs.Finding.{found_of};

    /// No command is under way.
    pub fn new(alloc: Global) -> FoundStamps
        ensures { (n : ℕ) → found_of result n ≡ [] }
    {
        FoundStamps {
            alloc,
            stamps: BTreeMap::new(alloc),
        }
    }

    /// There is room for one more call of this command. The only error is running out of memory.
    pub fn make_room(&mut self, number: u64) -> Result<(), AllocError>
        ensures ok { OnOk result ((n : ℕ) → found_of self.new n ≡ found_of self.old n) }
        ensures err { OnErr result ((n : ℕ) → found_of self.new n ≡ found_of self.old n) }
    {
        if let Some(stamps) = self.stamps.get_mut(&number) {
            return stamps.reserve(1);
        }
        let mut stamps = Vec::new(self.alloc);
        stamps.reserve(1)?;
        match self.stamps.insert(number, stamps) {
            Ok(_) => Ok(()),
            Err(_) => Err(AllocError),
        }
    }

    /// The next call of this command found an item of this stamp, if any. The only error is running out of memory, which doesn't
    /// come where there is room.
    pub fn note(&mut self, number: u64, stamp: Option<u64>) -> Result<(), AllocError>
        ensures ok { OnOk result ((n : ℕ) → found_of self.new n ≡ (if nat_eq number n then found_of self.old n ++ stamp ∷ [] else found_of self.old n)) }
        ensures err { OnErr result ((n : ℕ) → found_of self.new n ≡ found_of self.old n) }
    {
        if let Some(stamps) = self.stamps.get_mut(&number) {
            return match stamps.push(stamp) {
                Ok(()) => Ok(()),
                Err(_) => Err(AllocError),
            };
        }
        let mut stamps = Vec::new(self.alloc);
        if stamps.push(stamp).is_err() {
            return Err(AllocError);
        }
        match self.stamps.insert(number, stamps) {
            Ok(_) => Ok(()),
            Err(_) => Err(AllocError),
        }
    }

    /// The stamp of the item that this call of the command found, counted from 0.
    pub fn stamp_at(&self, number: u64, call: u64) -> Option<u64>
        ensures { result ≡ stamp_at (found_of self.now number) call }
    {
        let stamps = self.stamps.get(&number)?;
        *stamps.get(call as usize)?
    }

    /// The stamp of what a call of this origin stores: the command's number, or that of the item that it copies, and 0 where no
    /// item was found.
    pub fn stamp_of(&self, number: u64, origin: Origin) -> u64
        ensures { result ≡ stamp_given (found_of self.now number) number origin }
    {
        match origin {
            Origin::Client => number,
            Origin::CopyOf(call) => self.stamp_at(number, call).unwrap_or(0),
        }
    }

    /// The command is over.
    pub fn forget(&mut self, number: u64)
        ensures { (n : ℕ) → found_of self.new n ≡ (if nat_eq number n then [] else found_of self.old n) }
    {
        let _stamps = self.stamps.remove(&number);
    }
}
