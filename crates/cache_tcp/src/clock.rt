//! The moments at which clients are answered.

ghost use Rattle.std.specs.Prelude.{◌≡◌, pos, ◌≤ℤ◌};

use std::io;
use std::rt::Clock;
use std::time::{Duration, Instant, SystemTime, UNIX_EPOCH};

/// A moment in seconds since 1970, 0 or later.
#[derive(Clone, Copy)]
pub struct UnixTime {
    pub seconds: i64,
    ghost begun: { pos 0 ≤ℤ seconds },
}

/// A clock that was set once and doesn't go back when the system's is set back.
#[derive(Clone, Copy)]
pub struct SetClock {
    set_to: u64,
    set_at: Instant,
}

// A moment past the last one that can be told is that one.
fn moment_of(seconds: u64) -> UnixTime {
    let seconds = i64::try_from(seconds).unwrap_or(i64::MAX);
    UnixTime { seconds }
}

impl SetClock {
    /// A clock that is set by the system's. The errors are the system's.
    pub fn new<R: Clock>(rt: &R) -> io::Result<SetClock> {
        let now = SystemTime::now(rt)?;
        let since = now.duration_since(UNIX_EPOCH).unwrap_or(Duration::ZERO);
        Ok(SetClock {
            set_to: since.as_secs(),
            set_at: Instant::now(rt)?,
        })
    }

    /// The moment. The errors are the system's.
    pub fn now<R: Clock>(&self, rt: &R) -> io::Result<UnixTime> {
        let passed = self.set_at.elapsed(rt)?;
        Ok(moment_of(self.set_to.saturating_add(passed.as_secs())))
    }
}
