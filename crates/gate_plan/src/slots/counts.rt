//! How many slots servers have.

ghost use Rattle.std.specs.Prelude.{◌≡◌, ◌≤◌, length};
ghost use Rattle.gate_plan.specs.Slots.{slots_of_server};

use mc_types::ServerId;
use std::alloc::{AllocError, Global};

/// How many of these slots a server has.
pub fn count_of(slots: &[ServerId], server: ServerId) -> usize
    ensures count { result ≡ slots_of_server server slots.now }
    ensures few { result ≤ length slots.now }
{
    match slots {
        [] => 0,
        [holder, rest @ ..] => {
            if server == *holder {
                1 + count_of(rest, server)
            } else {
                count_of(rest, server)
            }
        }
    }
}

/// How many slots each server has, by its number.
#[derive(Drop)]
pub struct SlotCounts {
    counts: Vec<u32>,
}

impl SlotCounts {
    /// The counts of these slots. The only error is that memory was refused.
    pub fn of(alloc: Global, slots: &[ServerId]) -> Result<SlotCounts, AllocError> {
        let mut counts = SlotCounts {
            counts: Vec::new(alloc),
        };
        for server in slots {
            counts.reach(*server)?;
            counts.add(*server);
        }
        Ok(counts)
    }

    /// Has room for the count of a server. The only error is that memory was refused.
    pub fn reach(&mut self, server: ServerId) -> Result<(), AllocError> {
        let held = self.counts.len();
        for _missing in held as u64..server.number() as u64 + 1 {
            self.counts.push(0)?;
        }
        Ok(())
    }

    /// The count of a server.
    pub fn of_server(&self, server: ServerId) -> u32 {
        match self.counts.get(server.number() as usize) {
            Some(count) => *count,
            None => 0,
        }
    }

    /// The server has one slot more.
    pub fn add(&mut self, server: ServerId) {
        if let Some(count) = self.counts.get_mut(server.number() as usize) {
            *count = count.saturating_add(1);
        }
    }

    /// The server has one slot less.
    pub fn take(&mut self, server: ServerId) {
        if let Some(count) = self.counts.get_mut(server.number() as usize) {
            *count = count.saturating_sub(1);
        }
    }
}
