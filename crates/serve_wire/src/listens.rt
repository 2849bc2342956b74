//! What a proxy that serves wants of a wire, beside what its end does.

use crate::Wire;
use crate::sockets::Sockets;
use std::io;
use std::net::SocketAddr;
use std::os::fd::RawFd;

/// A wire that listens at an address, and whose waits end for others too. None of this adds to its history.
pub trait Listens: Wire {
    /// Where the first of what listens does. An error comes where that is no address.
    fn listens_at(&self) -> io::Result<SocketAddr>;

    /// From now on a wait also ends once this descriptor is readable, which only [`is_woken`](Listens::is_woken) tells. An error comes where
    /// the system doesn't watch it.
    fn wake_up_by(&self, descriptor: RawFd) -> io::Result<()>;

    /// Whether such a descriptor may have become readable by the end of the last wait.
    fn is_woken(&self) -> bool;
}

impl Listens for Sockets {
    fn listens_at(&self) -> io::Result<SocketAddr> {
        self.local_addr()
    }

    fn wake_up_by(&self, descriptor: RawFd) -> io::Result<()> {
        self.wake_by(descriptor)
    }

    fn is_woken(&self) -> bool {
        self.was_woken()
    }
}
