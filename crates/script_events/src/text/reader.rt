//! Scripts as text: their first line, and their events.
ghost use Rattle.std.specs.Prelude.{◌≡◌, ◌+◌, ◌≤◌, ◌<◌, ◌^◌, Ok, IfOk, IfSome, map, length};
ghost use Rattle.serde_json.specs.Read.{read};
ghost use Rattle.script_events.specs.Reloads.{ReloadsInOrder};
ghost use Rattle.script_events.specs.Scripted.{scripted_of};
ghost use Rattle.route_json.specs.Configs.{read_or, read_after};
ghost use Rattle.script_events.specs.LinesAfter.{lines_after};
ghost use Rattle.script_events.specs.FirstLine.{size_said, pool_said, pool_or_bad, read_or_fault, first_said, ReadsFirst};
ghost use Rattle.script_events.specs.Events.{event_said};
ghost use Rattle.script_events.specs.Told.{said_or_not, loads_or_not, line_means, servers_known, told_from, text_told, told_over, bad_event_line, AreChainedFrom, ReadsScript};
ghost use Rattle.script_events.specs.Lines.{lines_of};
ghost use Rattle.script_events.specs.Read.{line_meaning, ReadsLines};

use crate::text::configured::{ConfiguredScript, ScriptFault, servers_known};
use crate::text::event::read_event;
use crate::text::fault::LineFault;
use crate::text::front::front_of;
use crate::text::meaning::{Meaning, Reading};
use crate::text::words::{cut, number_under, reload_json};
use crate::{Reload, Script, first_bad_event};
use route_json::{Config, Servers, read_config, read_config_after};
use route_tree::POOL_LIMIT;
use std::alloc::{AllocError, Global};

fn read_size(word: &[u8]) -> Option<u32>
    ensures size { result ≡ size_said word.now }
    ensures limits { IfSome result (λ size. (0 < size) × (size ≤ POOL_LIMIT)) }
{
    match number_under(POOL_LIMIT as u64 + 1, word) {
        Some(0) | None => None,
        Some(size) => Some(size as u32),
    }
}

fn read_pool(line: &[u8]) -> Option<u32>
    ensures size { result ≡ pool_said line.now }
    ensures limits { IfSome result (λ size. (0 < size) × (size ≤ POOL_LIMIT)) }
{
    match cut(line) {
        Some(parts) if parts.word == b"pool".as_slice() => read_size(parts.rest),
        _ => None,
    }
}

fn pool_config(alloc: Global, line: &[u8]) -> Result<Config, ScriptFault>
    ensures { ReadsFirst (pool_or_bad (pool_said line.now)) result }
{
    match read_pool(line) {
        Some(servers) => Ok(Config::of_pool(alloc, servers)?),
        None => Err(ScriptFault::BadLine(1)),
    }
}

fn json_config(alloc: Global, line: &str) -> Result<Config, ScriptFault>
    ensures { ReadsFirst (read_or_fault (read_or (read line.now))) result }
{
    Ok(read_config(alloc, line)?)
}

/// The configuration that a first line says: `pool N`, where it begins with `pool`, or else one in JSON.
///
/// [`ScriptFault::BadLine`] of 1 comes where it begins with `pool` and is no pool line, [`ScriptFault::Config`] where the configuration has
/// a fault, and otherwise running out of memory is the only error. The lines are mcgate's own.
pub fn read_first(alloc: Global, line: &str) -> Result<Config, ScriptFault>
    ensures { ReadsFirst (first_said line.now) result }
{
    if line.as_bytes().starts_with(b"pool".as_slice()) {
        pool_config(alloc, line.as_bytes())
    } else {
        json_config(alloc, line)
    }
}

fn json_config_after(alloc: Global, servers: Servers, json: &str) -> Result<Config, ScriptFault>
    ensures { ReadsFirst (read_or_fault (read_after servers (read json.now))) result }
{
    Ok(read_config_after(alloc, servers, json)?)
}

fn read_reload(alloc: Global, known: &Servers, json: &str) -> Result<Meaning, AllocError>
    ensures { IfOk result (λ m. line_meaning m ≡ loads_or_not (read_or_fault (read_after known.now (read json.now)))) }
{
    match json_config_after(alloc, known.copy(alloc)?, json) {
        Ok(config) => Ok(Meaning::Loads(config)),
        Err(ScriptFault::NoMemory) => Err(AllocError),
        Err(ScriptFault::Config(_)) | Err(ScriptFault::BadLine(_)) => Ok(Meaning::Unreadable),
    }
}

fn read_said(alloc: Global, line: &[u8]) -> Result<Meaning, AllocError>
    ensures { IfOk result (λ m. line_meaning m ≡ said_or_not (event_said line.now)) }
{
    match read_event(alloc, line) {
        Ok(event) => Ok(Meaning::Says(event)),
        Err(LineFault::Unreadable) => Ok(Meaning::Unreadable),
        Err(LineFault::NoMemory) => Err(AllocError),
    }
}

fn read_line(alloc: Global, known: &Servers, line: &str) -> Result<Meaning, AllocError>
    ensures { IfOk result (λ m. line_meaning m ≡ line_means known.now line.now) }
{
    let bytes = line.as_bytes();
    if bytes.is_empty() || bytes[0] == b'#' {
        return Ok(Meaning::Nothing);
    }
    match reload_json(line) {
        Some(json) => read_reload(alloc, known, json),
        None => read_said(alloc, bytes),
    }
}

/// What lines say over the servers known before them, after so many other lines, which are counted too. The only error is running
/// out of memory.
pub fn read_further(
    alloc: Global,
    servers: &Servers,
    above: usize,
    further: Option<&str>,
) -> Result<Reading, AllocError>
    requires { above + length (lines_after further) < 2 ^ 64 }
    ensures { IfOk result (ReadsLines servers.now (above + 1) (lines_after further.entry)) }
{
    let mut events = Vec::new(alloc);
    let mut reloads = Vec::new(alloc);
    let mut lines = Vec::new(alloc);
    let mut number = above;
    let mut rest = further;
    while let Some(text) = rest {
        let front = front_of(text);
        number += 1;
        rest = front.rest;
        match read_line(alloc, servers_known(servers, &reloads), front.line)? {
            Meaning::Nothing => {}
            Meaning::Says(event) => {
                events.push(event)?;
                lines.push(number)?;
            }
            Meaning::Loads(config) => {
                let at = events.len();
                reloads.push(Reload { at, config })?;
            }
            Meaning::Unreadable => {
                return Ok(Reading {
                    events,
                    reloads,
                    lines,
                    unreadable: Some(number),
                });
            }
        }
    }
    Ok(Reading {
        events,
        reloads,
        lines,
        unreadable: None,
    })
}

fn bad_event_line(script: &ConfiguredScript) -> Option<usize>
    ensures { result ≡ bad_event_line (length (servers_known script.now.config.servers script.now.reloads.items)) (map scripted_of script.now.script.events.items) script.now.lines.items }
{
    match first_bad_event(script.server_count(), &script.script) {
        Some(event) => script.line_of(event),
        None => None,
    }
}

/// The script that lines say over a configuration, after so many other lines, which are counted too.
///
/// [`ScriptFault::BadLine`] comes as of [`read_script`]'s further lines, and otherwise running out of memory is the only error.
pub fn read_lines_after(
    alloc: Global,
    config: Config,
    above: usize,
    further: Option<&str>,
) -> Result<ConfiguredScript, ScriptFault>
    requires { above + length (lines_after further) < 2 ^ 64 }
    ensures script { ReadsScript (Ok (told_from (above + 1) config (lines_after further.entry))) result }
    ensures order { IfOk result (λ s. ReloadsInOrder (length s.script.events.items) (length (servers_known s.config.servers s.reloads.items)) 0 s.reloads.items) }
    ensures chained { IfOk result (λ s. AreChainedFrom s.config.servers s.reloads.items) }
{
    let Reading {
        events,
        reloads,
        lines,
        unreadable,
    } = read_further(alloc, config.servers(), above, further)?;
    let script = ConfiguredScript {
        config,
        script: Script { events },
        reloads,
        lines,
    };
    match unreadable {
        None => Ok(script),
        Some(line) => Err(ScriptFault::BadLine(bad_event_line(&script).unwrap_or(line))),
    }
}

/// The script that a text says, with the number of each event's line.
///
/// The first line is `pool N` (N in 1..=1024), which means one pool of the servers `s0:1`, `s1:1`, .., or a configuration in JSON.
/// A line that begins with `pool` is meant to be the first of these, every other the second. Each further line is one event, or
/// `reload JSON`, which loads the configuration in JSON there: its servers are numbered after those of the configuration or reload
/// line before it, so that a server known keeps its number. Empty lines and those that begin with `#` are neither. The format is
/// mcgate's own.
///
/// Faults are looked for in this order, and running out of memory is the only other error:
/// - [`ScriptFault::BadLine`] of 1 where the first line begins with `pool` and is no pool line.
/// - [`ScriptFault::Config`], the first fault of a configuration.
/// - [`ScriptFault::BadLine`] where a further line can't be read, as a reload line whose JSON is no configuration. It has the number
///   of the first line that is bad: where an event before the unreadable line is one that the run would refuse, it is that event's
///   line; a server is unknown to it where no configuration read before the unreadable line has it. Such an event alone is no fault here:
///   [`ConfiguredScript::line_of`] tells its line once the run has refused it.
pub fn read_script(alloc: Global, text: &str) -> Result<ConfiguredScript, ScriptFault>
    ensures script { ReadsScript (text_told text.now) result }
    ensures order { IfOk result (λ s. ReloadsInOrder (length s.script.events.items) (length (servers_known s.config.servers s.reloads.items)) 0 s.reloads.items) }
    ensures chained { IfOk result (λ s. AreChainedFrom s.config.servers s.reloads.items) }
{
    let front = front_of(text);
    let config = read_first(alloc, front.line)?;
    read_lines_after(alloc, config, 1, front.rest)
}

/// The script that a text says over a configuration from elsewhere: each line of the text is as [`read_script`]'s further ones, and
/// the first has the number 1. The lines are mcgate's own.
///
/// [`ScriptFault::BadLine`] comes as of [`read_script`]'s further lines, and otherwise running out of memory is the only error.
pub fn read_events(
    alloc: Global,
    config: Config,
    text: &str,
) -> Result<ConfiguredScript, ScriptFault>
    ensures script { ReadsScript (Ok (told_over config text.now)) result }
    ensures order { IfOk result (λ s. ReloadsInOrder (length s.script.events.items) (length (servers_known s.config.servers s.reloads.items)) 0 s.reloads.items) }
    ensures chained { IfOk result (λ s. AreChainedFrom s.config.servers s.reloads.items) }
{
    read_lines_after(alloc, config, 0, Some(text))
}
