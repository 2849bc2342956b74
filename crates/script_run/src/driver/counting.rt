//! The count of commands that ended, and of those that showed what a delete had cleared.

ghost use Rattle.std.specs.Prelude.{◌≡◌, ℕ, ◌<◌, ◌≤◌, List, Some, None, IfOk, OnOk, if◌then◌else◌, bytes_eq};
ghost use Rattle.script_run.specs.Laws.{is_as_old};

use crate::driver::tally::Tally;
use mc_types::Key;
use script_events::servers::FleetFault;
use std::alloc::{AllocError, Global};
use std::collections::BTreeMap;

/// What is counted, and the number of the last acknowledged delete of each key that had one.
#[derive(Drop)]
pub struct Counts {
    tally: Tally,
    gone: BTreeMap<Key, u64>,
}

// Whether an item of the stamp is as old as the delete of the number.
fn is_outlived(last: Option<u64>, shown: Option<u64>) -> bool
    ensures { result ≡ is_as_old last shown }
{
    match (last, shown) {
        (Some(number), Some(stamp)) => stamp <= number,
        _ => false,
    }
}

// What a command adds to the count of stale ones.
fn stale_by(last: Option<u64>, shown: Option<u64>) -> u64
    ensures stale { result ≡ (if is_as_old last shown then 1 else 0) }
    ensures once { result ≤ 1 }
{
    if is_outlived(last, shown) { 1 } else { 0 }
}

impl Counts {
    ghost use Rattle.script_run.specs.Counting.{last_delete_of, IsCounted};

    /// No command ended.
    pub fn new(alloc: Global) -> Counts
        ensures commands { result.tally.commands ≡ 0 }
        ensures stale { result.tally.stale ≡ 0 }
        ensures last { (key : List ℕ) → last_delete_of result key ≡ None }
    {
        Counts {
            tally: Tally {
                commands: 0,
                stale: 0,
            },
            gone: BTreeMap::new(alloc),
        }
    }

    /// How many commands ended, and how many of them were stale.
    pub fn tally(&self) -> Tally
        ensures { result ≡ self.now.tally }
    {
        self.tally
    }

    /// The command of this number and key ended; its reply shows an item of this stamp, if it shows one, and acknowledged a delete,
    /// or not. The errors are running out of memory, and `Spent` where 2^64 - 1 commands ended.
    pub fn count(
        &mut self,
        number: u64,
        key: &Key,
        shown: Option<u64>,
        acknowledged: bool,
    ) -> Result<(), FleetFault>
        ensures { OnOk result (IsCounted self.old number key.now shown acknowledged self.new) }
    {
        let last = self.gone.get(key).copied();
        self.tally = self.tally.one_more(stale_by(last, shown))?;
        if acknowledged {
            self.note(key, number)?;
        }
        Ok(())
    }

    // The delete of this number and key was acknowledged.
    fn note(&mut self, key: &Key, number: u64) -> Result<(), AllocError>
        ensures last { OnOk result ((k : List ℕ) → last_delete_of self.new k ≡ (if bytes_eq key.now k then Some number else last_delete_of self.old k)) }
        ensures rest { self.new ≡ record self.old { gone = self.new.gone } }
    {
        match self.gone.insert(*key, number) {
            Ok(_) => Ok(()),
            Err(_) => Err(AllocError),
        }
    }
}
