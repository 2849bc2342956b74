//! What listens: for peers that come over TCP, or by a path of this machine.

use mio::net::{TcpListener, TcpStream, UnixListener};
use std::io;
use std::io::ErrorKind;
use std::net::SocketAddr;
use std::os::fd::{AsRawFd, OwnedFd, RawFd};

/// A socket that listens, and doesn't wait.
#[derive(Drop)]
pub enum Listener {
    Tcp(TcpListener),
    /// By a path. Its peers' streams are read and written as others are.
    Unix(UnixListener),
}

fn accept_tcp(listener: &TcpListener) -> io::Result<TcpStream> {
    let (stream, _) = listener.accept()?;
    // Without it short replies may come later, and no others.
    let _ = stream.set_nodelay(true);
    Ok(stream)
}

fn accept_unix(listener: &UnixListener) -> io::Result<TcpStream> {
    let (stream, _) = listener.accept()?;
    Ok(TcpStream::from(OwnedFd::from(stream)))
}

impl Listener {
    // The next peer that waits to be accepted here.
    pub(crate) fn accept(&self) -> io::Result<TcpStream> {
        match self {
            Listener::Tcp(listener) => accept_tcp(listener),
            Listener::Unix(listener) => accept_unix(listener),
        }
    }

    /// What the system watches.
    pub fn descriptor(&self) -> RawFd {
        match self {
            Listener::Tcp(listener) => listener.as_raw_fd(),
            Listener::Unix(listener) => listener.as_raw_fd(),
        }
    }

    /// Where it listens. An error comes for a path.
    pub fn local_addr(&self) -> io::Result<SocketAddr> {
        match self {
            Listener::Tcp(listener) => listener.local_addr(),
            Listener::Unix(_) => Err(io::Error::from(ErrorKind::Unsupported)),
        }
    }
}

/// The next peer that waits to be accepted at one of these.
pub fn accept_at(listeners: &[Listener]) -> io::Result<TcpStream> {
    for listener in listeners {
        match listener.accept() {
            Err(error) if error.kind() == ErrorKind::WouldBlock => {}
            accepted => return accepted,
        }
    }
    Err(io::Error::from(ErrorKind::WouldBlock))
}
