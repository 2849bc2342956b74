//! How long the system lets a connection stand whose far end is gone.

use libc::net::{
    IPPROTO_TCP, SO_KEEPALIVE, SOL_SOCKET, TCP_KEEPIDLE, TCP_KEEPINTVL, TCP_USER_TIMEOUT,
    setsockopt,
};
use std::os::fd::RawFd;

// The most seconds: those whose milliseconds the system takes.
const MOST: u32 = 2_000_000;

// A number as the system takes it.
fn value_of(number: u32) -> [u8; 16] {
    let mut value = [0u8; 16];
    value[..4].copy_from_slice(&number.to_ne_bytes());
    value
}

/// The connection fails once its far end has acknowledged nothing for so many seconds, one at least: neither what was sent nor, where nothing is
/// sent, the system's asking, which begins after half that time. Where the system refuses that, it stands as long as the system lets it.
///
/// Source: tcp(7), `TCP_USER_TIMEOUT` and `TCP_KEEPIDLE`.
pub fn end_if_gone(socket: RawFd, seconds: u32) {
    let seconds = seconds.clamp(1, MOST);
    let (idle, every) = ((seconds / 2).max(1), (seconds / 6).max(1));
    let (on, idle, every) = (value_of(1), value_of(idle), value_of(every));
    let most = value_of(seconds * 1_000);
    let _ = unsafe { setsockopt(socket, SOL_SOCKET, SO_KEEPALIVE, &on, 4) };
    let _ = unsafe { setsockopt(socket, IPPROTO_TCP, TCP_KEEPIDLE, &idle, 4) };
    let _ = unsafe { setsockopt(socket, IPPROTO_TCP, TCP_KEEPINTVL, &every, 4) };
    let _ = unsafe { setsockopt(socket, IPPROTO_TCP, TCP_USER_TIMEOUT, &most, 4) };
}
