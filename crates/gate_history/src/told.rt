//! Tells in words what is remembered, and why a text is no history.

use crate::fault::HistoryFault;
use crate::history::History;
use crate::remembered::{LeftAt, State, remembered};
use gate_check::Gap;
use gate_coverage::prefixes::prefix_text;
use gate_growth::ledger::Unsound;
use mc_types::ServerId;
use route_json::Servers;
use std::alloc::Global;
use std::fmt::Display;
use std::io;
use std::io::{ErrorKind, Write};
use text_words::escapes::Escaped;

// Where keys are that a gap is of, and the end of the line.
fn write_place<W: Write>(gap: &Gap, out: &mut W) -> io::Result<()> {
    let prefix = Escaped(prefix_text(&gap.place.prefix));
    write!(out, " prefix={prefix}")?;
    let residue = gap.place.residue;
    let modulus = gap.place.modulus;
    writeln!(out, " residue={residue}/{modulus}")
}

// What is left, where first, and since when.
fn write_left<W: Write>(left: &LeftAt, out: &mut W) -> io::Result<()> {
    let generation = left.generation;
    write!(out, "left generation={generation}")?;
    write_place(&left.gap, out)
}

// The line of one server.
fn write_server<W: Write>(address: &str, state: &State, out: &mut W) -> io::Result<()> {
    let address = Escaped(address.as_bytes());
    write!(out, "server={address} ")?;
    match state {
        State::Clean => writeln!(out, "clean"),
        State::Held => writeln!(out, "held"),
        State::Left(left) => write_left(left, out),
    }
}

// The lines of the servers.
fn write_states<W: Write>(servers: &Servers, states: &[State], out: &mut W) -> io::Result<()> {
    let mut number = 0u32;
    for state in states {
        let address = servers.get(ServerId::new(number)).unwrap_or("");
        write_server(address, state, out)?;
        number = number.saturating_add(1);
    }
    Ok(())
}

/// Writes what the words of these lines mean.
pub fn write_meaning<W: Write>(out: &mut W) -> io::Result<()> {
    writeln!(out, "# clean: nothing was put there. Keys may move to it.")?;
    writeln!(
        out,
        "# held: it holds items; every delete of them went there. Keys may move to it while deletes go there too."
    )?;
    writeln!(
        out,
        "# left: since that generation deletes of some keys, first those of that place, don't go there."
    )?;
    writeln!(
        out,
        "# These keys may not move to it, unless it is emptied and has another address."
    )
}

// Why what is remembered can't be told.
fn stopped(unsound: Unsound) -> io::Error {
    match unsound {
        Unsound::NoMemory => io::Error::from(ErrorKind::OutOfMemory),
        _ => io::Error::from(ErrorKind::InvalidData),
    }
}

/// Writes what each server may hold after the generations: of each a line `server=A clean`, `server=A held` or
/// `server=A left generation=G prefix=P residue=R/L`. The format is mcgate's own.
pub fn write_remembered<W: Write>(alloc: Global, history: History, out: &mut W) -> io::Result<()> {
    let servers = match history.servers(alloc) {
        Ok(servers) => servers,
        Err(_) => return Err(io::Error::from(ErrorKind::OutOfMemory)),
    };
    match remembered(alloc, history, &servers) {
        Ok(states) => write_states(&servers, &states, out),
        Err(unsound) => Err(stopped(unsound)),
    }
}

// What is wrong with a line, and the end of the line.
fn write_line_fault<W: Write, T: Display + Drop>(
    line: u32,
    what: T,
    out: &mut W,
) -> io::Result<()> {
    writeln!(out, "history: line {line}: {what}")
}

// Why the tree of a line may not follow those before it.
fn write_refused<W: Write>(line: u32, unsound: &Unsound, out: &mut W) -> io::Result<()> {
    match unsound {
        Unsound::TooManyGenerations => write_line_fault(line, "too many generations", out),
        Unsound::TooManyPlaces => write_line_fault(line, "too many places", out),
        Unsound::Left(generation, gap) => {
            write!(out, "history: line {line}: refused generation={generation}")?;
            write_place(gap, out)
        }
        Unsound::NoMemory => Ok(()),
    }
}

/// Writes why a text is no history: `history: line N: WHY`. Running out of memory has no line. The format is mcgate's own.
pub fn write_fault<W: Write>(fault: &HistoryFault, out: &mut W) -> io::Result<()> {
    match fault {
        HistoryFault::Torn(line) => write_line_fault(*line, "no line end", out),
        HistoryFault::Edited(line) => write_line_fault(*line, "wrong sum", out),
        HistoryFault::OutOfOrder(line) => write_line_fault(*line, "not of this generation", out),
        HistoryFault::Config(line, fault) => write_line_fault(*line, fault, out),
        HistoryFault::Refused(line, unsound) => write_refused(*line, unsound, out),
        HistoryFault::TooManyLines => writeln!(out, "history: too many lines"),
        HistoryFault::NoMemory => Ok(()),
    }
}

/// What to do about a fault; running out of memory has no advice.
pub fn advice_on(fault: &HistoryFault) -> Option<&'static str> {
    match fault {
        HistoryFault::Torn(_) => Some(
            "it was cut off while it was copied: put back a copy of it; or empty all servers that were ever used, take it away, and start anew",
        ),
        HistoryFault::Edited(_) | HistoryFault::OutOfOrder(_) | HistoryFault::Config(_, _) => Some(
            "it was edited, or lines are lost: put back a copy of it; or empty all servers that were ever used, take it away, and start anew",
        ),
        HistoryFault::Refused(_, _) | HistoryFault::TooManyLines => Some(
            "no run of mcgate wrote it as it is: put back a copy of it; or empty all servers that were ever used, take it away, and start anew",
        ),
        HistoryFault::NoMemory => None,
    }
}
