//! The clients' ends of their connections to the proxy.

use serve_wire::conn::{Conn, Got, Limits, Sent};
use serve_wire::{Connected, Wire};
use std::alloc::{AllocError, Global};
use std::io;
use std::io::ErrorKind;
use std::net::Net;

// A client takes all that it gets.
const LIMITS: Limits = Limits {
    held: usize::MAX,
    unsent: usize::MAX,
};

/// The room of one read, in bytes.
pub(crate) const READ_ROOM: usize = 65_536;

// So many reads, and so many writes, are made in one turn at most.
const STEPS: usize = 64;

/// One client's end.
#[derive(Drop)]
pub struct ClientEnd {
    conn: Conn,
    is_ended: bool,
}

impl ClientEnd {
    /// A connection is begun, to the address that this text was found to name. It doesn't wait for it to stand.
    pub fn connect<W: Wire, N: Net>(
        net: &N,
        alloc: Global,
        wire: &mut W,
        place: usize,
        text: &[u8],
    ) -> io::Result<ClientEnd> {
        match wire.connect(net, place, text) {
            Connected::Begun(number) => Ok(ClientEnd {
                conn: Conn::new(alloc, number, LIMITS),
                is_ended: false,
            }),
            Connected::NoAddress | Connected::Failed => Err(io::Error::from(
                ErrorKind::ConnectionRefused,
            )),
        }
    }

    /// Whether its connection has ended: it can send no more, and nothing comes.
    pub fn is_ended(&self) -> bool {
        self.is_ended
    }

    /// Whether all that it was to send was taken.
    pub fn has_sent_all(&self) -> bool {
        self.conn.unsent.is_empty()
    }

    /// This is to be sent, unless its connection has ended.
    pub fn feed(&mut self, piece: &[u8]) -> Result<(), AllocError> {
        if self.is_ended {
            return Ok(());
        }
        self.conn.unsent.text.extend_from_slice(piece)
    }

    /// Sends what the connection takes now. The answer is how many bytes that were.
    pub fn send<W: Wire>(&mut self, wire: &mut W) -> usize {
        let before = self.conn.unsent.len();
        self.conn.writable = true;
        for _ in 0..STEPS {
            match self.conn.send_once(wire) {
                Sent::Bytes => {}
                Sent::Nothing => break,
                Sent::Failed => {
                    // What came before may still be read; the end is told after it.
                    break;
                }
            }
        }
        before.saturating_sub(self.conn.unsent.len())
    }

    /// Reads what came. The answer is how many bytes that were.
    pub fn read<W: Wire>(&mut self, wire: &mut W) -> Result<usize, AllocError> {
        let before = self.conn.held.len();
        for _ in 0..STEPS {
            if self.is_ended {
                break;
            }
            match self.conn.read_once(wire, READ_ROOM)? {
                Got::Bytes => {}
                Got::Nothing | Got::Full => break,
                Got::Ended | Got::Failed => self.is_ended = true,
            }
        }
        Ok(self.conn.held.len().saturating_sub(before))
    }

    /// What it got since this was last asked.
    pub fn take(&mut self, alloc: Global) -> Result<Vec<u8>, AllocError> {
        let mut given = Vec::new(alloc);
        given.extend_from_slice(self.conn.held.as_slice())?;
        self.conn.held.clear();
        Ok(given)
    }
}
