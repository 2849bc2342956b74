//! Times on the clock of an end, in milliseconds.

use std::time::Duration;

/// How long it is from one time until another one is over.
pub fn until(time: u64, limit: u64) -> Duration {
    Duration::from_millis(limit.saturating_sub(time).saturating_add(1))
}

/// The first of two times, of which each may be none.
pub fn earlier(limit: Option<u64>, other: Option<u64>) -> Option<u64> {
    match (limit, other) {
        (Some(a), Some(b)) => Some(a.min(b)),
        (Some(a), None) => Some(a),
        (None, other) => other,
    }
}

/// As long as this, if it is so long at most.
pub fn at_most(limit: Option<Duration>, most: Duration) -> Duration {
    match limit {
        Some(limit) if limit < most => limit,
        _ => most,
    }
}
