//! What is said on standard error of a tree that the gate refuses: which server of which pool, and what to change.

use gate_check::places::PLACE_LIMIT;
use gate_check::{Gap, Reason, Refused, judge};
use gate_coverage::prefixes::prefix_text;
use gate_gaps::names::{delete_name, op_name};
use gate_gaps::pool_words::write_server;
use gate_gaps::{ConfigPool, read_pools, write_changes};
use route_json::{Config, ConfigFault, read_config};
use std::alloc::{AllocError, Global};
use std::fmt::Display;
use std::io::Write;
use std::{fmt, io};

/// Where a configuration stands; no file is standard input.
#[derive(Clone, Copy)]
pub enum Origin<'a> {
    /// It is the whole of it.
    Whole(Option<&'a str>),
    /// It is the first line of a script.
    FirstLine(Option<&'a str>),
}

/// The command that tells more of a refusal.
impl Display for Origin<'_> {
    fn fmt<W: fmt::Write>(&self, f: &mut fmt::Formatter<W>) -> fmt::Result {
        match self {
            Origin::Whole(Some(file)) => write!(f, "mcgate check --explain {file}"),
            Origin::Whole(None) => f.write_str("mcgate check --explain"),
            Origin::FirstLine(Some(file)) => {
                write!(f, "head -n 1 {file} | mcgate check --explain")
            }
            Origin::FirstLine(None) => f.write_str("mcgate check --explain of the first line"),
        }
    }
}

// Which server the gap leaves, by what it is read, and which deletes leave it.
fn write_left<W: Write>(
    name: &str,
    config: &Config,
    pools: &[ConfigPool],
    gap: &Gap,
    out: &mut W,
) -> io::Result<()> {
    write!(out, "mcgate: {name}: server {} is ", gap.server.number())?;
    write_server(config.servers(), pools, gap.server, out)?;
    let read = op_name(gap.op);
    write!(out, ": {read} can show or copy what it holds, and ")?;
    let delete = delete_name(gap.deleting);
    write!(out, "{delete} can be acknowledged without clearing it")
}

fn server_line(
    alloc: Global,
    name: &str,
    config: &Config,
    pools: &[ConfigPool],
    gap: &Gap,
) -> io::Result<String> {
    let mut line = Vec::new(alloc);
    write_left(name, config, pools, gap, &mut line)?;
    Ok(String::from_utf8_lossy(alloc, line.as_slice())?)
}

// By which route deletes go, and what to change there, as comments of a script.
fn changes_of(
    alloc: Global,
    config: &Config,
    pools: &[ConfigPool],
    gap: &Gap,
) -> io::Result<String> {
    let mut changes = Vec::new(alloc);
    write_changes(
        config.servers(),
        pools,
        gap.server,
        prefix_text(&gap.place.prefix),
        config.tree(),
        &mut changes,
    )?;
    Ok(String::from_utf8_lossy(alloc, changes.as_slice())?)
}

// The first two of these changes come behind the line, without the marks of comments, each with a semicolon behind it.
fn push_changes(line: &mut String, changes: &str) -> Result<(), AllocError> {
    for change in changes.lines().take(2) {
        line.push_str(change.strip_prefix("# ").unwrap_or(change))?;
        line.push_str("; ")?;
    }
    Ok(())
}

// What to change, as one line, and which command tells more.
fn change_line(
    alloc: Global,
    name: &str,
    origin: Origin<'_>,
    changes: &str,
) -> Result<String, AllocError> {
    let mut line = format!(in alloc; "mcgate: {name}: ")?;
    push_changes(&mut line, changes)?;
    write!(line, "{origin} says more")?;
    Ok(line)
}

fn lines_of_gap(
    alloc: Global,
    name: &str,
    origin: Origin<'_>,
    text: &str,
    config: &Config,
    gap: &Gap,
) -> io::Result<Vec<String>> {
    let pools = read_pools(alloc, text, config.servers())?;
    let changes = changes_of(alloc, config, &pools, gap)?;
    let mut lines = Vec::new(alloc);
    lines.push(server_line(alloc, name, config, &pools, gap)?)?;
    lines.push(change_line(alloc, name, origin, changes.as_str())?)?;
    Ok(lines)
}

fn lines_of_places(alloc: Global, name: &str) -> io::Result<Vec<String>> {
    let line = format!(in alloc;
        "mcgate: {name}: more than {PLACE_LIMIT} places; to change: pools whose sizes share divisors, such as 1,024 and 1,024 in place of 1,023 and 1,024"
    )?;
    Ok(vec![in alloc; line]?)
}

fn lines_of_refused(
    alloc: Global,
    name: &str,
    origin: Origin<'_>,
    text: &str,
    refused: &Refused,
) -> io::Result<Vec<String>> {
    match &refused.reason {
        Reason::Uncovered(gap) => lines_of_gap(alloc, name, origin, text, &refused.config, gap),
        Reason::TooManyPlaces => lines_of_places(alloc, name),
        Reason::BadCertificate(_) => Ok(Vec::new(alloc)),
        Reason::NoMemory => Err(io::Error::from(AllocError)),
    }
}

fn lines_of_config(
    alloc: Global,
    name: &str,
    origin: Origin<'_>,
    text: &str,
    config: Config,
) -> io::Result<Vec<String>> {
    match judge(alloc, config) {
        Ok(_accepted) => Ok(Vec::new(alloc)),
        Err(refused) => lines_of_refused(alloc, name, origin, text, &refused),
    }
}

/// What is said of a text whose configuration the gate refuses: which server of which pools a read may show, which deletes leave it,
/// and what to change. No line where it doesn't refuse it. The only error is running out of memory.
///
/// Source: mcgate's own.
pub fn lines_of_refusal(
    alloc: Global,
    name: &str,
    origin: Origin<'_>,
    text: &str,
) -> io::Result<Vec<String>> {
    match read_config(alloc, text) {
        Ok(config) => lines_of_config(alloc, name, origin, text, config),
        Err(ConfigFault::NoMemory) => Err(io::Error::from(AllocError)),
        Err(_) => Ok(Vec::new(alloc)),
    }
}
