//! The end of a proxy: since when it takes no more clients, and how long those that are there may stay.

use std::io;
use std::rt::Clock;
use std::time::Instant;

/// Since when it drains, and for how long at most.
#[derive(Clone, Copy)]
pub struct Draining {
    since: Instant,
    most_ms: u64,
}

impl Draining {
    /// From now on, for so many milliseconds at most.
    pub fn new<R: Clock>(rt: &R, most_ms: u64) -> io::Result<Draining> {
        Ok(Draining {
            since: Instant::now(rt)?,
            most_ms,
        })
    }

    /// For how many milliseconds it may go on.
    pub fn rest<R: Clock>(&self, rt: &R) -> io::Result<u64> {
        let millis = self.since.elapsed(rt)?.as_millis();
        let millis = u64::try_from(millis).unwrap_or(u64::MAX);
        Ok(self.most_ms.saturating_sub(millis))
    }
}
