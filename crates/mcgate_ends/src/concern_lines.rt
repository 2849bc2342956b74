//! What is said of a configuration that may not follow a history: which servers its reads may show, where, and what to do.

use gate_coverage::prefixes::prefix_text;
use gate_gaps::pool_words::write_server;
use gate_gaps::{ConfigPool, read_pools};
use gate_growth::ledger::Beginning;
use gate_history::{Concern, Concerns, History, find_concerns};
use route_json::{Config, ConfigFault, read_config_after};
use route_tree::Place;
use std::alloc::{AllocError, Global};
use std::io;
use std::io::Write;
use text_words::escapes::Escaped;

// So many servers are named.
const NAMED: usize = 10;

// What to do.
fn advice() -> &'static str {
    "to change: keys may move to a server that never had them, and back to one that had them if all deletes went there meanwhile
- while keys move let deletes go to both, the servers that had them and those that get them: mcgate plan tells the steps
- make the list a table of slots first, by which no key moves: mcgate slots prints it, and then what a new server takes of each
- a server that was emptied is a new one by another epoch, as HOST:PORT#2, with --new-servers empty
- say --opened own, if since they were last empty the first servers got nothing but what the first tree puts there"
}

// The first place.
fn write_place<W: Write>(place: &Place, out: &mut W) -> io::Result<()> {
    let prefix = Escaped(prefix_text(&place.prefix));
    write!(out, " prefix={prefix}")?;
    let residue = place.residue;
    let modulus = place.modulus;
    write!(out, " residue={residue}/{modulus}")
}

// Which server, in which pools, since when, at how many places, and which is the first.
fn write_concern<W: Write>(
    config: &Config,
    pools: &[ConfigPool],
    concern: &Concern,
    place: &Place,
    out: &mut W,
) -> io::Result<()> {
    write!(out, "- server ")?;
    write_server(config.servers(), pools, concern.server, out)?;
    write!(
        out,
        ": generation={} places={}",
        concern.generation, concern.places
    )?;
    write_place(place, out)
}

fn server_line(
    alloc: Global,
    config: &Config,
    pools: &[ConfigPool],
    concern: &Concern,
    place: &Place,
) -> io::Result<String> {
    let mut line = Vec::new(alloc);
    write_concern(config, pools, concern, place, &mut line)?;
    Ok(String::from_utf8_lossy(alloc, line.as_slice())?)
}

// The line of how many servers there are.
fn count_line(alloc: Global, count: usize, servers: usize) -> Result<String, AllocError> {
    format!(in alloc; "its reads may show what deletes left on {count} of {servers} servers:")
}

// The first of the servers.
fn server_lines(
    alloc: Global,
    config: &Config,
    pools: &[ConfigPool],
    concerns: &Concerns,
) -> io::Result<Vec<String>> {
    let mut lines = Vec::new(alloc);
    for found in concerns.all() {
        if let Some(concern) = found {
            if lines.len() < NAMED {
                let place = concerns.place(concern);
                lines.push(server_line(alloc, config, pools, concern, &place)?)?;
            }
        }
    }
    Ok(lines)
}

// How many there are.
fn count_of(concerns: &Concerns) -> usize {
    concerns
        .all()
        .iter()
        .filter(|found| found.is_some())
        .count()
}

// What to do, line by line.
fn push_advice(alloc: Global, lines: &mut Vec<String>) -> Result<(), AllocError> {
    for line in advice().lines() {
        lines.push(String::from_str(alloc, line)?)?;
    }
    Ok(())
}

// The first of the servers, and how many more there are.
fn push_servers(
    alloc: Global,
    config: &Config,
    pools: &[ConfigPool],
    concerns: &Concerns,
    count: usize,
    lines: &mut Vec<String>,
) -> io::Result<()> {
    for line in server_lines(alloc, config, pools, concerns)? {
        lines.push(line)?;
    }
    if count > NAMED {
        lines.push(format!(in alloc; "- and {} more", count - NAMED)?)?;
    }
    Ok(())
}

// How many servers there are, the first of them, and what to do.
fn all_lines(
    alloc: Global,
    config: &Config,
    pools: &[ConfigPool],
    concerns: &Concerns,
) -> io::Result<Vec<String>> {
    let count = count_of(concerns);
    let mut lines = Vec::new(alloc);
    lines.push(count_line(alloc, count, config.servers().len())?)?;
    push_servers(alloc, config, pools, concerns, count, &mut lines)?;
    push_advice(alloc, &mut lines)?;
    Ok(lines)
}

// The lines on a configuration with this text.
fn lines_of(
    alloc: Global,
    history: &History,
    text: &str,
    config: &Config,
    new: Beginning,
) -> io::Result<Vec<String>> {
    match find_concerns(alloc, history, config, new)? {
        Some(concerns) => {
            let pools = read_pools(alloc, text, config.servers())?;
            all_lines(alloc, config, &pools, &concerns)
        }
        None => Ok(Vec::new(alloc)),
    }
}

/// Of a text whose configuration may not follow the history, if its new servers began so: on how many servers something is left that its
/// reads may show, the first ten of them, with their pools, the generation that left it first and where, and what to do. No line where
/// there are too many places. The only error is running out of memory.
///
/// Source: mcgate's own.
pub fn lines_of_concerns(
    alloc: Global,
    history: &History,
    text: &str,
    new: Beginning,
) -> io::Result<Vec<String>> {
    match read_config_after(alloc, history.servers(alloc)?, text) {
        Ok(config) => lines_of(alloc, history, text, &config, new),
        Err(ConfigFault::NoMemory) => Err(io::Error::from(AllocError)),
        Err(_) => Ok(Vec::new(alloc)),
    }
}
