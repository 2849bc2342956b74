//! How soon commands were answered.

use std::alloc::{AllocError, Global};

// At most so many times are kept.
const KEPT: u64 = 1_000_000;

/// The times of one of every so many commands, in nanoseconds.
#[derive(Drop)]
pub struct Latencies {
    every: u64,
    // How many commands are passed over before the next one.
    passes: u64,
    times: Vec<u64>,
}

impl Latencies {
    /// For so many commands.
    pub fn new(alloc: Global, commands: u64) -> Latencies {
        Latencies {
            every: commands / KEPT,
            passes: 0,
            times: Vec::new(alloc),
        }
    }

    /// One more command was answered.
    pub fn add(&mut self, nanos: u64) -> Result<(), AllocError> {
        if self.passes > 0 {
            self.passes -= 1;
            return Ok(());
        }
        self.passes = self.every;
        self.times.push(nanos)?;
        Ok(())
    }

    /// Has [`Latencies::percentile`] tell of all that were added.
    pub fn sort(&mut self) {
        self.times.sort_unstable();
    }

    /// Of a hundred times so many are less, in nanoseconds; 0 where there are none.
    pub fn percentile(&self, percent: usize) -> u64 {
        let at = self.times.len().saturating_mul(percent) / 100;
        self.times.get(at).copied().unwrap_or(0)
    }
}
