//! Servers that are down: when that was told last of each.

use std::alloc::Global;

// Of a server that stays down is told once in so many milliseconds.
const QUIET_MS: u64 = 60_000;

/// When it was told last that a server is down, by its number, in milliseconds; 0 where it isn't down.
#[derive(Drop)]
pub struct Outages {
    told: Vec<u64>,
}

impl Outages {
    /// None is down.
    pub fn new(alloc: Global) -> Outages {
        Outages {
            told: Vec::new(alloc),
        }
    }

    // There is a place for a server of this number, unless memory was refused.
    fn make_place(&mut self, at: usize) {
        for _ in self.told.len()..=at {
            if self.told.push(0).is_err() {
                return;
            }
        }
    }

    /// The server is down: whether that is to be told now.
    pub fn note_down(&mut self, at: usize, now: u64) -> bool {
        self.make_place(at);
        match self.told.get_mut(at) {
            Some(told) if *told != 0 && now < told.saturating_add(QUIET_MS) => false,
            Some(told) => {
                *told = now.max(1);
                true
            }
            None => true,
        }
    }

    /// The server isn't down.
    pub fn note_up(&mut self, at: usize) {
        if let Some(told) = self.told.get_mut(at) {
            *told = 0;
        }
    }
}
