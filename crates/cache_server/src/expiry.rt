//! Expiry times: when an item is gone, and how long it has left.

ghost use Rattle.std.specs.Prelude.{◌≡◌, ◌<◌, ◌^◌, IfSome};
ghost use Rattle.cache_server.specs.Expiry.{moment_of, expiry_after, ttl_of};

/// The longest exptime that counts seconds from now: 30 days.
pub const RELATIVE_LIMIT: u64 = 2_592_000;

fn moment_of_exptime(now: u64, exptime: i64) -> Option<u64>
    requires { now < 2 ^ 63 }
    ensures { result ≡ moment_of now exptime }
{
    if exptime == 0 {
        return None;
    }
    if exptime < 0 {
        return Some(0);
    }
    let seconds = exptime as u64;
    if seconds <= RELATIVE_LIMIT {
        return Some((now + seconds).min(i64::MAX as u64));
    }
    Some(seconds)
}

/// The moment, in seconds, at which an item is gone after an ask with this exptime; without one, its expiry stays.
///
/// Source: memcached's protocol.txt, "Expiration times": 0 is never, up to 30 days are seconds from now, more is a Unix
/// moment. A negative one is the moment 0, and a sum above 2^63 - 1 stays there.
pub fn expiry_after_ask(now: u64, exptime: Option<i64>, before: Option<u64>) -> Option<u64>
    requires { now < 2 ^ 63 }
    ensures { result ≡ expiry_after now exptime before }
{
    match exptime {
        Some(exptime) => moment_of_exptime(now, exptime),
        None => before,
    }
}

/// The seconds until the expiry, 0 where it has come; -1 where there is none.
///
/// Source: memcached's protocol.txt, "Meta Get", the flag `t`.
pub fn seconds_left(now: u64, expiry: Option<u64>) -> i64
    requires { IfSome expiry (λ expiry. expiry < 2 ^ 63) }
    ensures { result ≡ ttl_of now expiry }
{
    match expiry {
        Some(expiry) => expiry.saturating_sub(now) as i64,
        None => -1,
    }
}
