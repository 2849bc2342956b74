//! A port at which several processes listen. The system shares its connections out among them.

ghost use Rattle.std.specs.Prelude.{◌≡◌, ◌≤◌, ◌⊎◌};

use libc::net::{
    _SS_SIZE, AF_INET, AF_INET6, SO_REUSEADDR, SO_REUSEPORT, SOCK_CLOEXEC, SOCK_NONBLOCK,
    SOCK_STREAM, SOL_SOCKET, bind, listen, setsockopt, socket,
};
use mio::net::TcpListener;
use os::FromRawFd;
use std::io;
use std::net::{Net, SocketAddr};
use std::os::fd::{AsRawFd, OwnedFd};

// An address as the system takes it: its family, its bytes, and how many these are.
#[derive(Drop)]
struct Bytes {
    family: i32,
    raw: [u8; _SS_SIZE],
    len: u32,
}

// The bytes of an address.
fn bytes_of(address: SocketAddr) -> Bytes
    ensures family { (result.family ≡ AF_INET) ⊎ (result.family ≡ AF_INET6) }
    ensures len { result.len ≤ 28 }
{
    let mut raw = [0u8; _SS_SIZE];
    raw[2..4].copy_from_slice(&address.port().to_be_bytes());
    match address {
        SocketAddr::V4(v4) => {
            raw[..2].copy_from_slice(&2u16.to_ne_bytes());
            raw[4..8].copy_from_slice(&v4.ip().octets());
            Bytes {
                family: AF_INET,
                raw,
                len: 16,
            }
        }
        SocketAddr::V6(v6) => {
            raw[..2].copy_from_slice(&10u16.to_ne_bytes());
            raw[8..24].copy_from_slice(&v6.ip().octets());
            raw[24..28].copy_from_slice(&v6.scope_id().to_ne_bytes());
            Bytes {
                family: AF_INET6,
                raw,
                len: 28,
            }
        }
    }
}

fn check(status: i32) -> io::Result<()> {
    if status < 0 {
        Err(io::Error::from_raw_os_error(os::errno()))
    } else {
        Ok(())
    }
}

// The value of an option that is on.
fn on() -> [u8; 16] {
    let mut value = [0u8; 16];
    value[..4].copy_from_slice(&1i32.to_ne_bytes());
    value
}

// How many connections may wait, as the system takes it: it cuts what is greater.
fn length_of(backlog: u32) -> i32 {
    i32::try_from(backlog).unwrap_or(i32::MAX)
}

/// So many connections may wait there to be accepted, as far as the system lets them (`net.core.somaxconn`).
pub fn let_wait(listener: &TcpListener, backlog: u32) -> io::Result<()> {
    check(listen(listener.as_raw_fd(), length_of(backlog)))
}

/// It listens at an address where others may listen too that ask for the same, as the same user.
///
/// Source: socket(7), `SO_REUSEPORT`.
pub fn listen_beside<N: Net>(
    _net: &N,
    address: SocketAddr,
    backlog: u32,
) -> io::Result<TcpListener> {
    let bytes = bytes_of(address);
    let kind = SOCK_STREAM | SOCK_NONBLOCK | SOCK_CLOEXEC;
    let descriptor = unsafe { socket(bytes.family, kind, 0) };
    if descriptor < 0 {
        return Err(io::Error::from_raw_os_error(os::errno()));
    }
    let owned = unsafe { OwnedFd::from_raw_fd(descriptor) };
    check(unsafe { setsockopt(descriptor, SOL_SOCKET, SO_REUSEADDR, &on(), 4) })?;
    check(unsafe { setsockopt(descriptor, SOL_SOCKET, SO_REUSEPORT, &on(), 4) })?;
    check(unsafe { bind(descriptor, &bytes.raw, bytes.len) })?;
    check(listen(descriptor, length_of(backlog)))?;
    Ok(TcpListener::from(owned))
}
