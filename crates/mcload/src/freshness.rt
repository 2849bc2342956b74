//! Whether a get showed a value that was deleted.
//!
//! Moments are counted: each beginning and each end of a command is one. A command begins before its first byte is sent, and has
//! ended when its answer was read; so what is counted here is stale, however long commands and answers were under way.

use std::alloc::{AllocError, Global};

/// What is known of each key and each value. A value belongs to the key that its number tells of: the number modulo that of the keys.
#[derive(Drop)]
pub struct Freshness {
    keys: u64,
    now: u64,
    // By key, when the last delete began that was acknowledged; 0 where there is none.
    deleted: Vec<u64>,
    // By value, when its set was answered `STORED`.
    stored: Vec<Option<u64>>,
    stale: u64,
}

/// A command that began.
#[derive(Clone, Copy)]
pub struct BegunCommand {
    at: u64,
    // When the last delete of its key began that had been acknowledged then.
    deleted: u64,
}

impl Freshness {
    /// Of so many keys.
    pub fn new(alloc: Global, keys: usize) -> Result<Freshness, AllocError> {
        let mut deleted = Vec::new(alloc);
        deleted.resize(keys, 0)?;
        Ok(Freshness {
            keys: keys as u64,
            now: 0,
            deleted,
            stored: Vec::new(alloc),
            stale: 0,
        })
    }

    /// How many gets showed a value that was deleted: one that was stored before a delete began that was acknowledged before the get
    /// began.
    pub fn stale(&self) -> u64 {
        self.stale
    }

    fn tick(&mut self) -> u64 {
        self.now = self.now.saturating_add(1);
        self.now
    }

    // Where a value stands in `stored`.
    fn place_of(&self, value: u64) -> usize {
        value.checked_div(self.keys).unwrap_or(0) as usize
    }

    /// A command on this key begins.
    pub fn begin(&mut self, key: u64) -> BegunCommand {
        BegunCommand {
            at: self.tick(),
            deleted: self.deleted.get(key as usize).copied().unwrap_or(0),
        }
    }

    /// A set was answered `STORED`.
    pub fn has_stored(&mut self, value: u64) -> Result<(), AllocError> {
        let at = self.tick();
        let place = self.place_of(value);
        if place >= self.stored.len() {
            self.stored.resize(place.saturating_add(1), None)?;
        }
        if let Some(stored) = self.stored.get_mut(place) {
            *stored = Some(at);
        }
        Ok(())
    }

    /// A delete of this key was acknowledged.
    pub fn has_deleted(&mut self, key: u64, begun: BegunCommand) {
        self.tick();
        if let Some(deleted) = self.deleted.get_mut(key as usize) {
            *deleted = begun.at.max(*deleted);
        }
    }

    /// A get showed this value.
    pub fn has_shown(&mut self, value: u64, begun: BegunCommand) {
        self.tick();
        if let Some(Some(stored)) = self.stored.get(self.place_of(value)) {
            if *stored < begun.deleted {
                self.stale = self.stale.saturating_add(1);
            }
        }
    }
}
