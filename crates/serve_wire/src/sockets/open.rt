//! One open stream with its number, and one address with its text. Each notes what it is itself, so that a call on another one than is
//! meant can't show its contract.

ghost use Rattle.std.specs.Prelude.{◌≡◌, ◌∷◌, ◌<◌, ◌≤◌, ◌++◌, length, take};
ghost use Rattle.std.specs.Io.Slices.{io_slices_bytes};
ghost use Rattle.serve_wire.specs.Events.{takes};
ghost use Rattle.serve_wire.specs.Calls.{Adds, FitsOffer, ReadsBehind, Writes};

use crate::{ReadOutcome, Record, WriteOutcome};
use bytes::BytesMut;
use mio::net::TcpStream;
use std::io::{ErrorKind, IoSlice, Write};
use std::net::SocketAddr;

const DELIVERS: u64 = 2;

const TAKES: u64 = 3;

const ENDS: u64 = 4;

const FAILS: u64 = 5;

/// Whose a connection is.
#[derive(Clone, Copy, PartialEq, Eq)]
pub enum Owner {
    Nobody,
    Client(usize),
    Server(usize),
}

/// A stream, its connection's number, whose it is, and whether it was begun by a path, and so stands at once.
#[derive(Drop)]
pub struct Open {
    pub number: usize,
    pub owner: Owner,
    pub stream: TcpStream,
    pub is_local: bool,
}

/// Where a server is: at a host and a port, or at a path of this machine.
#[derive(Drop)]
pub enum Location {
    Host(SocketAddr),
    Path(String),
}

/// The place that a text names.
#[derive(Drop)]
pub struct Address {
    pub text: Vec<u8>,
    pub place: Location,
}

fn read_some(mut stream: &TcpStream, into: &mut BytesMut) -> ReadOutcome
    requires { 0 < into.old.spare }
    ensures { Adds result into.old.items into.new.items into.old.spare into.new.spare }
{
    match into.read_from(&mut stream) {
        Ok(0) => ReadOutcome::Ended,
        Ok(count) => ReadOutcome::Bytes(count),
        Err(error) => match error.kind() {
            ErrorKind::WouldBlock => ReadOutcome::NotReady,
            ErrorKind::Interrupted => ReadOutcome::Interrupted,
            _ => ReadOutcome::Failed,
        },
    }
}

fn write_some(mut stream: &TcpStream, bytes: &[u8]) -> WriteOutcome
    ensures { FitsOffer result bytes.now }
{
    match stream.write(bytes) {
        Ok(0) => WriteOutcome::Failed,
        Ok(count) => WriteOutcome::Bytes(count),
        Err(error) => match error.kind() {
            ErrorKind::WouldBlock => WriteOutcome::NotReady,
            ErrorKind::Interrupted => WriteOutcome::Interrupted,
            _ => WriteOutcome::Failed,
        },
    }
}

fn write_some_parts(stream: &TcpStream, parts: &[IoSlice<'_>]) -> WriteOutcome
    ensures { FitsOffer result (io_slices_bytes parts.now) }
{
    match stream.write_vectored(parts) {
        Ok(0) => WriteOutcome::Failed,
        Ok(count) => WriteOutcome::Bytes(count),
        Err(error) => match error.kind() {
            ErrorKind::WouldBlock => WriteOutcome::NotReady,
            ErrorKind::Interrupted => WriteOutcome::Interrupted,
            _ => WriteOutcome::Failed,
        },
    }
}

impl Open {
    /// One read, noted under its own number.
    pub fn read(&self, log: &mut Record, into: &mut BytesMut) -> ReadOutcome
        requires { 0 < into.old.spare }
        ensures { ReadsBehind self.now.number result into.old.items into.new.items into.old.spare into.new.spare log.old.events log.new.events }
    {
        let len = into.len();
        let outcome = read_some(&self.stream, into);
        match outcome {
            ReadOutcome::Bytes(_) => {
                log.note(&[DELIVERS, self.number as u64, 0], &into.as_slice()[len..])
            }
            ReadOutcome::NotReady | ReadOutcome::Interrupted => {}
            ReadOutcome::Ended => log.note(&[ENDS, self.number as u64, 0], &[]),
            ReadOutcome::Failed => log.note(&[FAILS, self.number as u64, 0], &[]),
        }
        outcome
    }

    /// One write, noted under its own number.
    pub fn write(&self, log: &mut Record, bytes: &[u8]) -> WriteOutcome
        ensures { Writes self.now.number result bytes.now log.old.events log.new.events }
    {
        let outcome = write_some(&self.stream, bytes);
        match outcome {
            WriteOutcome::Bytes(count) => {
                log.note(&[TAKES, self.number as u64, 0], &bytes[..count])
            }
            WriteOutcome::NotReady | WriteOutcome::Interrupted => {}
            WriteOutcome::Failed => log.note(&[FAILS, self.number as u64, 0], &[]),
        }
        outcome
    }

    /// Several pieces are written, as many of their first bytes as are taken at once.
    pub fn write_parts(&self, log: &mut Record, parts: &[IoSlice<'_>]) -> WriteOutcome
        ensures { Writes self.now.number result (io_slices_bytes parts.now) log.old.events log.new.events }
    {
        let outcome = write_some_parts(&self.stream, parts);
        match outcome {
            WriteOutcome::Bytes(count) => self.note_parts(log, parts, count),
            WriteOutcome::NotReady | WriteOutcome::Interrupted => {}
            WriteOutcome::Failed => log.note(&[FAILS, self.number as u64, 0], &[]),
        }
        outcome
    }

    // It took so many of the first bytes of these pieces.
    fn note_parts(&self, log: &mut Record, parts: &[IoSlice<'_>], count: usize)
        requires { count ≤ length (io_slices_bytes parts.now) }
        ensures { log.new.events ≡ takes self.now.number (take count (io_slices_bytes parts.now)) ∷ log.old.events }
    {
        log.note(&[TAKES, self.number as u64, 0], &[]);
        let mut left = count;
        for part in parts {
            let bytes = part.as_slice();
            let taken = bytes.len().min(left);
            log.extend(&[], &bytes[..taken]);
            left -= taken;
        }
    }
}
