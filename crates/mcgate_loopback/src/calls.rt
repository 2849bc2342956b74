//! The calls of servers in the order in which they are made: which of them fail, and what is lost just before one.

use cache_tcp::connection::Cache;
use script_events::servers::losing::{add_loss, lose_all};
use script_events::servers::{Loss, Manner};
use std::alloc::{AllocError, Global};
use std::collections::BTreeMap;

/// How many calls were made, which of those to come are to fail, and what is lost before them, by their numbers, counted from 1.
#[derive(Drop)]
pub struct Calls {
    alloc: Global,
    made: u64,
    failures: BTreeMap<u64, Manner>,
    losses: BTreeMap<u64, Vec<Loss>>,
}

impl Calls {
    /// None was made, and none is to fail.
    pub fn new(alloc: Global) -> Calls {
        Calls {
            alloc,
            made: 0,
            failures: BTreeMap::new(alloc),
            losses: BTreeMap::new(alloc),
        }
    }

    /// How many were made.
    pub fn made(&self) -> u64 {
        self.made
    }

    // The number of the call of this turn from here, which is 1 for the next one.
    fn number_at(&self, turn: u32) -> u64 {
        self.made.saturating_add(u64::from(turn))
    }

    /// The call of this turn from here fails. The last that is said of a call counts.
    pub fn fail(&mut self, turn: u32, manner: Manner) -> Result<(), AllocError> {
        let number = self.number_at(turn);
        match self.failures.insert(number, manner) {
            Ok(_) => Ok(()),
            Err(_) => Err(AllocError),
        }
    }

    /// What this loss names is lost just before the call of this turn from here, after what was named before.
    pub fn lose_at(&mut self, turn: u32, loss: Loss) -> Result<(), AllocError> {
        let number = self.number_at(turn);
        add_loss(self.alloc, &mut self.losses, number, loss)
    }

    /// The next call is made: what is named to be lost just before it is lost. The answer is how it is to fail, if it is.
    pub fn begin(&mut self, caches: &mut Vec<Cache>) -> Option<Manner> {
        self.made = self.made.saturating_add(1);
        if let Some(losses) = self.losses.get(&self.made) {
            lose_all(caches, losses.as_slice());
        }
        self.failures.get(&self.made).copied()
    }
}
