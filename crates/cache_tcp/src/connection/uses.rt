//! Which keys were asked for.

use mc_types::Key;
use std::alloc::Global;
use std::mem;

/// The keys that were asked for, one after another, where that is noted.
#[derive(Drop)]
pub struct Uses {
    keys: Vec<Key>,
    is_noted: bool,
    // A key is missing, since memory was refused for it.
    is_lost: bool,
    alloc: Global,
}

impl Uses {
    /// No key was asked for, and none is noted. It takes no memory.
    pub fn new(alloc: Global) -> Uses {
        Uses {
            keys: Vec::new(alloc),
            is_noted: false,
            is_lost: false,
            alloc,
        }
    }

    /// Keys are noted from now on.
    pub fn begin(&mut self) {
        self.is_noted = true;
    }

    /// This key was asked for.
    pub fn note(&mut self, key: &Key) {
        if self.is_noted && self.keys.push(*key).is_err() {
            self.is_lost = true;
        }
    }

    /// The keys that were asked for since they were taken last, in order, or none where one is missing.
    pub fn take(&mut self) -> Option<Vec<Key>> {
        let keys = mem::replace(&mut self.keys, Vec::new(self.alloc));
        if self.is_lost {
            self.is_lost = false;
            return None;
        }
        Some(keys)
    }
}
