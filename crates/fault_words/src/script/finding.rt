//! The first bad line of a script, and what is wrong with it.

ghost use Rattle.std.specs.Prelude.{◌≡◌, ◌+◌, ◌<◌, ◌^◌, IfOk, IfSome, Ok, length, map, option_map};
ghost use Rattle.script_events.specs.LinesAfter.{lines_after};
ghost use Rattle.script_events.specs.Scripted.{scripted_of};
ghost use Rattle.script_events.specs.Told.{either, bad_event_line, bad_line, servers_said, told_from};
ghost use Rattle.script_events.specs.Lines.{lines_of};
ghost use Rattle.fault_words.specs.Finding.{IsWrongLine, IsWrong, FindsBadLine, bytes_said};
ghost use Rattle.fault_words.specs.Lines.{line_numbered};
ghost use Rattle.fault_words.specs.Misfits.{bytes_before_bad};

use crate::script::lines::line_numbered;
use crate::script::misfit::{Misfit, bytes_before_bad, misfit_of};
use crate::script::trouble::{Halt, Trouble, check_line};
use route_json::Config;
use script_events::text::configured::{ScriptFault, servers_known};
use script_events::text::event::read_event;
use script_events::text::fault::LineFault;
use script_events::text::front::front_of;
use script_events::text::meaning::Reading;
use script_events::text::reader::{read_first, read_further};
use script_events::{Script, first_bad_event};
use std::alloc::{AllocError, Global};

/// What is wrong with a line.
#[derive(Clone, Copy)]
pub enum Wrong<'a> {
    /// It begins with `pool`, and is no pool line.
    Pool,
    /// It says no event, and loads no configuration.
    Unread(Trouble<'a>),
    /// It says an event that can't be.
    Unfit(Misfit),
}

/// A bad line.
#[derive(Clone, Copy)]
pub struct BadLine<'a> {
    /// Counted from 1 over all lines of the script, as in `script: bad line N`.
    pub number: usize,
    pub wrong: Wrong<'a>,
}

// What is wrong with a line of events over so many servers, with so many bytes in the pieces before it.
fn wrong_line(
    alloc: Global,
    servers: u32,
    before: usize,
    line: &[u8],
) -> Result<Wrong<'_>, AllocError>
    ensures { IfOk result (IsWrongLine servers before line.now) }
{
    match check_line(alloc, line) {
        Err(Halt::Trouble(trouble)) => Ok(Wrong::Unread(trouble)),
        Err(Halt::NoMemory) => Err(AllocError),
        Ok(()) => match read_event(alloc, line) {
            Ok(event) => Ok(Wrong::Unfit(misfit_of(servers, before, &event))),
            Err(_) => Err(AllocError),
        },
    }
}

// The place of a bad line: its number, how many servers are known there, and how many bytes the pieces have before the first event that
// can't be.
#[derive(Clone, Copy)]
struct LinePlace {
    number: usize,
    servers: u32,
    before: usize,
}

// The first bad line of what was read, over so many servers.
fn bad_place(servers: u32, reading: Reading) -> Option<LinePlace>
    ensures number { option_map (λ place. place.number) result ≡ either (bad_event_line servers (map scripted_of reading.events.items) reading.lines.items) reading.unreadable }
    ensures servers { IfSome result (λ place. place.servers ≡ servers) }
    ensures before { IfSome result (λ place. place.before ≡ bytes_before_bad servers (map scripted_of reading.events.items)) }
{
    let Reading {
        events,
        reloads: _,
        lines,
        unreadable,
    } = reading;
    let script = Script { events };
    let before = bytes_before_bad(servers, &script);
    let number = match first_bad_event(servers, &script) {
        Some(event) => lines.get(event).copied().or(unreadable),
        None => unreadable,
    };
    match number {
        Some(number) => Some(LinePlace {
            number,
            servers,
            before,
        }),
        None => None,
    }
}

// The place of the first bad line over a configuration, after so many other lines.
fn bad_place_after(
    alloc: Global,
    config: Config,
    above: usize,
    further: Option<&str>,
) -> Result<Option<LinePlace>, AllocError>
    requires { above + length (lines_after further) < 2 ^ 64 }
    ensures number { IfOk result (λ found. bad_line (Ok (told_from (above + 1) config (lines_after further.entry))) ≡ option_map (λ place. place.number) found) }
    ensures servers { IfOk result (λ found. IfSome found (λ place. place.servers ≡ servers_said (told_from (above + 1) config (lines_after further.entry)))) }
    ensures before { IfOk result (λ found. IfSome found (λ place. place.before ≡ bytes_said (told_from (above + 1) config (lines_after further.entry)))) }
{
    let reading = read_further(alloc, config.servers(), above, further)?;
    let servers = servers_known(config.servers(), &reading.reloads).len() as u32;
    Ok(bad_place(servers, reading))
}

// The first bad line over a configuration, after so many other lines, and what is wrong with it.
fn bad_line_after<'a>(
    alloc: Global,
    config: Config,
    above: usize,
    further: Option<&'a str>,
) -> Result<Option<BadLine<'a>>, AllocError>
    requires { above + length (lines_after further) < 2 ^ 64 }
    ensures { IfOk result (IsWrong (above + 1) (lines_after further.entry) config) }
{
    let found = bad_place_after(alloc, config, above, further)?;
    let Some(place) = found else {
        return Ok(None);
    };
    let number = place.number;
    let line = line_numbered(above, further, number);
    let wrong = wrong_line(alloc, place.servers, place.before, line.as_bytes())?;
    Ok(Some(BadLine { number, wrong }))
}

/// The first bad line of a script that begins with its configuration, and what is wrong with it; `None` where none is bad, and where
/// its configuration has a fault. The only error is running out of memory.
///
/// Source: mcgate's own.
pub fn bad_line_in_script(alloc: Global, text: &str) -> Result<Option<BadLine<'_>>, AllocError>
    ensures { IfOk result (FindsBadLine text.now) }
{
    let front = front_of(text);
    match read_first(alloc, front.line) {
        Ok(config) => bad_line_after(alloc, config, 1, front.rest),
        Err(ScriptFault::BadLine(number)) => Ok(Some(BadLine {
            number,
            wrong: Wrong::Pool,
        })),
        Err(ScriptFault::Config(_)) => Ok(None),
        Err(ScriptFault::NoMemory) => Err(AllocError),
    }
}

/// The first bad line of a script without a configuration, over a configuration from elsewhere.
///
/// Source: mcgate's own.
pub fn bad_line_in_events<'a>(
    alloc: Global,
    config: Config,
    text: &'a str,
) -> Result<Option<BadLine<'a>>, AllocError>
    ensures { IfOk result (IsWrong 1 (lines_of text.now) config) }
{
    bad_line_after(alloc, config, 0, Some(text))
}
