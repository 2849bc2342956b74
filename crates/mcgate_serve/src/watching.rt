//! What a proxy that runs tells over HTTP of what it counts.

ghost use Rattle.std.specs.Prelude.{◌≡◌, IfOk, OnOk, flat_map};
ghost use Rattle.mc_types.specs.Asks.{all_ops};
ghost use Rattle.watch_admin.specs.Told.{command_counts};
ghost use Rattle.watch_admin.specs.declared.http.request.Page.TheVariants.{Metrics, Stats};
ghost use Rattle.mcgate_serve.specs.Told.{op_counts, IsToldOf, AreOfServers, HasTally, IsInPrometheus, IsInJson, TellsInPrometheus, TellsInJson};

use crate::build::IS_PROVED;
use crate::look_ups::resolve;
use crate::seen::{LastFailure, Seen};
use core_accepted::CoreTally;
use gate_gaps::names::op_name;
use mc_types::Op;
use route_json::addresses::Servers;
use serve_links::{CAUSES, Link, SPANS};
use serve_proxy::{DEPARTURES, ProxyEnd, text_at};
use serve_wire::Wire;
use std::alloc::{AllocError, Global};
use std::io;
use std::io::Write;
use std::net::{Net, SocketAddr};
use std::os::fd::RawFd;
use std::rt::{Clock, Files};
use std::time::Instant;
use watch_admin::families::Amount;
use watch_admin::http::home::home_text;
use watch_admin::http::request::Page;
use watch_admin::http::visitors::Visitors;
use watch_admin::json::write_json;
use watch_admin::numbers::{
    CallNumbers, CauseNumbers, ClientNumbers, CommandNumbers, CommandTimes, LimitNumbers, Numbers,
    ProcessNumbers, ServerNumbers, SpanNumbers, families_of, families_with_lines,
};
use watch_admin::places::PLACES;
use watch_admin::prometheus::write_prometheus;

/// Who asks for the numbers, and since when it runs.
#[derive(Drop)]
pub struct Watching {
    visitors: Visitors,
    began: Instant,
}

// What the system tells of the process.
#[derive(Clone, Copy)]
struct Used {
    processor_ms: u64,
    resident_bytes: u64,
}

// The number at this place of words.
fn number_at(words: &str, place: usize) -> Option<u64> {
    words.split(' ').nth(place)?.parse::<u64>().ok()
}

// What a text tells that the system has of a process: after its name come words, of which the 12th and 13th are ticks of processor time, and
// the 22nd pages of memory.
fn used_in(text: &str) -> Option<Used> {
    let (_, words) = text.rsplit_once(") ")?;
    let ticks = number_at(words, 11)?.saturating_add(number_at(words, 12)?);
    let second = u64::try_from(libc::sysconf(libc::_SC_CLK_TCK)).ok()?;
    let page = u64::try_from(libc::sysconf(libc::_SC_PAGESIZE)).ok()?;
    Some(Used {
        processor_ms: ticks.saturating_mul(1000).checked_div(second)?,
        resident_bytes: number_at(words, 21)?.saturating_mul(page),
    })
}

// What the process has used so far; nothing where the system doesn't tell.
fn process_use<R: Files + AllocGlobal>(rt: &R) -> Used {
    let nothing = Used {
        processor_ms: 0,
        resident_bytes: 0,
    };
    match std::fs::read_to_string(rt, "/proc/self/stat") {
        Ok(text) => used_in(text.as_str()).unwrap_or(nothing),
        Err(_) => nothing,
    }
}

fn clients_of<W: Wire>(end: &ProxyEnd<W>) -> ClientNumbers
    ensures accepted { result.accepted ≡ end.now.core.value.tally.opened }
    ensures refused { result.refused ≡ end.now.core.value.tally.refused }
    ensures bad_messages { result.bad_messages ≡ end.now.core.value.tally.bad_messages }
{
    let tally = end.sockets.tally;
    let of_core = end.core_tally();
    ClientNumbers {
        connected: end.sockets.clients.count() as u64,
        accepted: of_core.opened,
        refused: of_core.refused,
        bad_messages: of_core.bad_messages,
        unaccepted: tally.unaccepted,
        read_bytes: tally.read,
        sent_bytes: tally.shown,
    }
}

// How many clients have gone, for each cause.
fn departures_of<W: Wire>(
    alloc: Global,
    end: &ProxyEnd<W>,
) -> Result<Vec<CauseNumbers>, AllocError> {
    let gone = end.sockets.tally.gone;
    let mut departures = Vec::new(alloc);
    for why in DEPARTURES {
        departures.push(CauseNumbers {
            cause: why.name(),
            count: gone.of(why),
        })?;
    }
    Ok(departures)
}

// How many commands of these operations have ended.
fn numbers_of_ops(
    alloc: Global,
    tally: &CoreTally,
    ops: &[Op],
) -> Result<Vec<CommandNumbers>, AllocError>
    ensures { IfOk result (λ commands. flat_map command_counts commands.items ≡ flat_map (op_counts tally.now) ops.now) }
{
    let mut commands = Vec::new(alloc);
    for op in ops {
        let of_op = tally.of(*op);
        commands.push(CommandNumbers {
            op: op_name(*op),
            items: of_op.items,
            acknowledged: of_op.acknowledged,
            errors: of_op.errors,
            others: of_op.others,
        })?;
    }
    Ok(commands)
}

fn commands_of<W: Wire>(alloc: Global, end: &ProxyEnd<W>) -> Result<Vec<CommandNumbers>, AllocError>
    ensures { IfOk result (λ commands. flat_map command_counts commands.items ≡ flat_map (op_counts end.now.core.value.tally) all_ops) }
{
    let ops = Op::all();
    numbers_of_ops(alloc, end.core_tally(), &ops)
}

// What its core counts of calls, of all servers together.
fn calls_of<W: Wire>(end: &ProxyEnd<W>) -> CallNumbers
    ensures made { result.made ≡ end.now.core.value.tally.calls }
    ensures answered { result.answered ≡ end.now.core.value.tally.answered }
    ensures failed { result.failed ≡ end.now.core.value.tally.failed }
    ensures unplaced { result.unplaced ≡ end.now.core.value.tally.unplaced }
{
    let of_core = end.core_tally();
    CallNumbers {
        made: of_core.calls,
        answered: of_core.answered,
        failed: of_core.failed,
        unplaced: of_core.unplaced,
    }
}

// These microseconds in seconds, if they are among those that are told apart: a page has them for each server.
fn known_seconds(micros: u64) -> Option<&'static str> {
    match micros {
        100 => Some("0.0001"),
        250 => Some("0.00025"),
        500 => Some("0.0005"),
        1_000 => Some("0.001"),
        2_500 => Some("0.0025"),
        5_000 => Some("0.005"),
        10_000 => Some("0.01"),
        50_000 => Some("0.05"),
        250_000 => Some("0.25"),
        1_000_000 => Some("1"),
        _ => None,
    }
}

// Microseconds in seconds, without zeros at the end.
fn seconds_of(alloc: Global, micros: u64) -> Result<String, AllocError> {
    if let Some(seconds) = known_seconds(micros) {
        return String::from_str(alloc, seconds);
    }
    let micros = Amount::Micros(micros);
    let text = format!(in alloc; "{micros}")?;
    String::from_str(alloc, text.trim_end_matches('0').trim_end_matches('.'))
}

// The longest time at this place of those that are told apart, in seconds.
fn most_of(alloc: Global, place: usize) -> Result<String, AllocError> {
    match SPANS.get(place) {
        Some(micros) => seconds_of(alloc, *micros),
        None => String::from_str(alloc, "+Inf"),
    }
}

// How many answers of a server, or commands, took how long.
fn spans_of(alloc: Global, counts: &[u64]) -> Result<Vec<SpanNumbers>, AllocError> {
    let mut spans = Vec::new(alloc);
    for (place, count) in counts.iter().enumerate() {
        spans.push(SpanNumbers {
            most: most_of(alloc, place)?,
            count: *count,
        })?;
    }
    Ok(spans)
}

// How long commands took that have ended.
fn command_times_of<W: Wire>(alloc: Global, end: &ProxyEnd<W>) -> Result<CommandTimes, AllocError> {
    let times = end.sockets.command_times();
    Ok(CommandTimes {
        ended: times.answered,
        micros: times.micros,
        spans: spans_of(alloc, times.spans())?,
    })
}

// How often the link of a server failed, for each cause.
fn failures_by_cause(alloc: Global, link: &Link) -> Result<Vec<CauseNumbers>, AllocError> {
    let mut failures = Vec::new(alloc);
    failures.push(CauseNumbers {
        cause: "call_late",
        count: link.tally.late,
    })?;
    for cause in CAUSES {
        failures.push(CauseNumbers {
            cause: cause.name(),
            count: link.tally.failed(cause),
        })?;
    }
    Ok(failures)
}

// What limits a server has.
fn limits_told(link: &Link) -> LimitNumbers {
    let limits = link.limits;
    LimitNumbers {
        call_ms: limits.call_ms,
        connect_ms: limits.connect_ms,
        failures: u64::from(limits.fail_limit),
        retry_ms: limits.retry_ms,
    }
}

// What is counted of the server of this number and text, to which this is the link.
fn server_of<W: Wire>(
    alloc: Global,
    end: &ProxyEnd<W>,
    seen: &Seen,
    server: usize,
    text: &str,
    link: &Link,
) -> Result<ServerNumbers, AllocError>
    ensures { IfOk result (IsToldOf end.now.core.value.tally server text.now) }
{
    let of_core = end.core_tally().of_server(server);
    let calls = link.calls.tally();
    let unsent = link.tally.unsent;
    let is_unknown = seen.is_unknown(text);
    Ok(ServerNumbers {
        text: String::from_str(alloc, text)?,
        limits: limits_told(link),
        is_up: link.is_connected && !link.is_late(),
        is_late: link.is_late(),
        is_unknown,
        fails_at_once: is_unknown || link.refusal(end.sockets.wire.last_millis()).is_some(),
        connections: link.tally.stood,
        calls_out: link.calls.len() as u64,
        failures: failures_by_cause(alloc, link)?,
        made: of_core.calls,
        answered: of_core.answered,
        errors: link.calls.errors(),
        failed: of_core.failed.saturating_sub(unsent),
        unsent,
        timed: calls.answered,
        answer_micros: calls.micros,
        spans: spans_of(alloc, calls.spans())?,
    })
}

// Adds what is counted of the server of this number, if it has a text and a link.
fn add_server<W: Wire>(
    alloc: Global,
    end: &ProxyEnd<W>,
    servers: &Servers,
    seen: &Seen,
    server: usize,
    told: &mut Vec<ServerNumbers>,
) -> Result<(), AllocError>
    ensures { OnOk result (AreOfServers end.now.core.value.tally servers.now told.old.items → AreOfServers end.now.core.value.tally servers.now told.new.items) }
{
    let Some(text) = text_at(servers, server) else {
        return Ok(());
    };
    let Some(link) = end.sockets.link(server) else {
        return Ok(());
    };
    told.push(server_of(alloc, end, seen, server, text, link)?)?;
    Ok(())
}

fn servers_of<W: Wire>(
    alloc: Global,
    end: &ProxyEnd<W>,
    servers: &Servers,
    seen: &Seen,
) -> Result<Vec<ServerNumbers>, AllocError>
    ensures { IfOk result (λ told. AreOfServers end.now.core.value.tally servers.now told.items) }
{
    let mut told = Vec::new(alloc);
    for server in 0..servers.len() {
        add_server(alloc, end, servers, seen, server, &mut told)?;
    }
    Ok(told)
}

/// How long the program has run, how many requests over HTTP were answered, and how many lines were lost.
#[derive(Clone, Copy)]
pub struct Times {
    pub uptime_ms: u64,
    pub scrapes: u64,
    pub lost_lines: u64,
}

// What there is to tell.
fn numbers_of<R: Files + AllocGlobal, W: Wire>(
    rt: &R,
    end: &ProxyEnd<W>,
    servers: &Servers,
    seen: &Seen,
    times: Times,
) -> io::Result<Numbers>
    ensures { IfOk result (HasTally end.now.core.value servers.now) }
{
    let used = process_use(rt);
    Ok(Numbers {
        process: ProcessNumbers {
            version: String::from_str(rt.alloc(), "1")?,
            proved: IS_PROVED,
            uptime_ms: times.uptime_ms,
            processor_ms: used.processor_ms,
            resident_bytes: used.resident_bytes,
            lost_lines: times.lost_lines,
        },
        config: seen.config,
        config_sum: seen.sum(rt.alloc())?,
        refusal: seen.refusal(rt.alloc())?,
        clients: clients_of(end),
        departures: departures_of(rt.alloc(), end)?,
        begun: end.commands_begun(),
        commands: commands_of(rt.alloc(), end)?,
        command_times: command_times_of(rt.alloc(), end)?,
        calls: calls_of(end),
        servers: servers_of(rt.alloc(), end, servers, seen)?,
        scrapes: times.scrapes,
    })
}

/// All numbers in JSON, as the text of a page: what the core counts stands at its names, that of a server at the server's text.
pub fn stats_of<R: Files + AllocGlobal, W: Wire>(
    rt: &R,
    end: &ProxyEnd<W>,
    servers: &Servers,
    seen: &Seen,
    times: Times,
) -> io::Result<Vec<u8>>
    ensures { IfOk result (λ text. TellsInJson end.now.core.value servers.now text.items) }
{
    json_of(rt.alloc(), &numbers_of(rt, end, servers, seen, times)?)
}

// How a server is whose link is so, and whose name leads to no machine or does.
fn state_of(link: &Link, is_unknown: bool) -> &'static str {
    if link.is_late() {
        "late"
    } else if link.is_connected {
        "up"
    } else if is_unknown {
        "unknown"
    } else if link.tally.stood == 0 && failures_of(link) == 0 {
        "unused"
    } else {
        "down"
    }
}

// How often it has failed.
fn failures_of(link: &Link) -> u64 {
    let mut count = link.tally.late;
    for cause in CAUSES {
        count = count.saturating_add(link.tally.failed(cause));
    }
    count
}

// The line of a server: how it is, its calls that are out, its connections, its failures and its limits.
fn write_server<O: Write>(
    link: &Link,
    text: &str,
    is_unknown: bool,
    out: &mut O,
) -> io::Result<()> {
    write!(
        out,
        "server {text} {} calls_out={} connections={} failures={} call_ms={} connect_ms={} fail_limit={} retry_ms={}",
        state_of(link, is_unknown),
        link.calls.len(),
        link.tally.stood,
        failures_of(link),
        link.limits.call_ms,
        link.limits.connect_ms,
        link.limits.fail_limit,
        link.limits.retry_ms
    )
}

// What follows on it: what went wrong last, how many seconds ago, and whether the server is still to be emptied.
fn write_trouble<O: Write>(
    link: &Link,
    failure: Option<LastFailure>,
    now: u64,
    out: &mut O,
) -> io::Result<()> {
    if let Some(LastFailure { cause, at }) = failure {
        let seconds = now.saturating_sub(at) / 1_000;
        write!(out, " last_failure={cause} last_failure_s={seconds}")?;
    }
    if link.flushes {
        write!(out, " flush_all=due")?;
    }
    writeln!(out)
}

/// Writes a line for each server: how it is, its calls that are out, its connections, failures and limits, and what went wrong last.
pub fn write_servers<O: Write, W: Wire>(
    end: &ProxyEnd<W>,
    servers: &Servers,
    seen: &Seen,
    out: &mut O,
) -> io::Result<()> {
    let now = end.sockets.wire.last_millis();
    for server in 0..servers.len() {
        let (Some(link), Some(text)) = (end.sockets.link(server), text_at(servers, server)) else {
            return Ok(());
        };
        write_server(link, text, seen.is_unknown(text), out)?;
        write_trouble(link, seen.last_failure(server), now, out)?;
    }
    Ok(())
}

// These numbers in Prometheus' text format.
fn prometheus_of(alloc: Global, numbers: &Numbers) -> io::Result<Vec<u8>>
    ensures { IfOk result (λ text. IsInPrometheus numbers.now text.items) }
{
    let mut body = Vec::new(alloc);
    write_prometheus(families_of(alloc, numbers)?.as_slice(), &mut body)?;
    Ok(body)
}

// These numbers in JSON, with the line of the last text that was refused.
fn json_of(alloc: Global, numbers: &Numbers) -> io::Result<Vec<u8>>
    ensures { IfOk result (λ text. IsInJson numbers.now text.items) }
{
    let mut body = Vec::new(alloc);
    write_json(families_with_lines(alloc, numbers)?.as_slice(), &mut body)?;
    Ok(body)
}

impl Watching {
    /// They are listened for at this address, a host and a port, and it runs since now. An error comes where nothing can listen there, or memory
    /// was refused.
    pub fn listen<R: Net + Clock + AllocGlobal>(rt: &R, address: &str) -> io::Result<Watching> {
        Ok(Watching {
            visitors: Visitors::listen(rt, resolve(rt, address)?)?,
            began: Instant::now(rt)?,
        })
    }

    /// A descriptor that is readable once one of them can go on.
    pub fn descriptor(&self) -> RawFd {
        self.visitors.descriptor()
    }

    /// Where they are listened for.
    pub fn local_addr(&self) -> io::Result<SocketAddr> {
        self.visitors.local_addr()
    }

    // For how many milliseconds it has run.
    fn uptime<R: Clock>(&self, rt: &R) -> io::Result<u64> {
        let millis = self.began.elapsed(rt)?.as_millis();
        Ok(u64::try_from(millis).unwrap_or(u64::MAX))
    }

    /// In how many milliseconds a turn is due though none of them can go on.
    pub fn rest<R: Clock>(&self, rt: &R) -> io::Result<Option<u64>> {
        match self.visitors.limit() {
            Some(limit) => Ok(Some(limit.saturating_sub(self.uptime(rt)?))),
            None => Ok(None),
        }
    }

    /// Whether a turn is due though none of them can go on.
    pub fn is_due<R: Clock>(&self, rt: &R) -> bool {
        matches!(self.rest(rt), Ok(Some(0)))
    }

    /// How many were answered.
    pub fn answered(&self) -> u64 {
        self.visitors.answered()
    }

    // What there is to tell.
    fn numbers<R: Files + Clock + AllocGlobal, W: Wire>(
        &self,
        rt: &R,
        end: &ProxyEnd<W>,
        servers: &Servers,
        seen: &Seen,
        lost_lines: u64,
    ) -> io::Result<Numbers>
        ensures { IfOk result (HasTally end.now.core.value servers.now) }
    {
        let times = Times {
            uptime_ms: self.uptime(rt)?,
            scrapes: self.visitors.answered(),
            lost_lines,
        };
        numbers_of(rt, end, servers, seen, times)
    }

    // The text of a page, by what there is to tell: what the core counts stands at its names, that of a server at the server's text.
    fn page<R: Files + Clock + AllocGlobal, W: Wire>(
        &self,
        rt: &R,
        page: Page,
        end: &ProxyEnd<W>,
        servers: &Servers,
        seen: &Seen,
        lost_lines: u64,
        text: &str,
    ) -> io::Result<Vec<u8>>
        ensures metrics { page ≡ Metrics → IfOk result (λ told. TellsInPrometheus end.now.core.value servers.now told.items) }
        ensures stats { page ≡ Stats → IfOk result (λ told. TellsInJson end.now.core.value servers.now told.items) }
    {
        let alloc = rt.alloc();
        match page {
            Page::Home => Ok(home_text().as_bytes().to_vec(alloc)?),
            Page::Config => Ok(text.as_bytes().to_vec(alloc)?),
            Page::Metrics => {
                prometheus_of(alloc, &self.numbers(rt, end, servers, seen, lost_lines)?)
            }
            Page::Stats => json_of(alloc, &self.numbers(rt, end, servers, seen, lost_lines)?),
        }
    }

    /// Each of them goes on as far as it can; those that wait for a page get it, also of the text that says the configuration in use. One for whose
    /// page memory is refused is closed.
    pub fn turn<R: Files + Clock + AllocGlobal, W: Wire>(
        &mut self,
        rt: &R,
        end: &ProxyEnd<W>,
        servers: &Servers,
        seen: &Seen,
        lost_lines: u64,
        text: &str,
    ) -> io::Result<()> {
        let now = self.uptime(rt)?;
        self.visitors.turn(now)?;
        for _ in 0..PLACES {
            let Some((place, page)) = self.visitors.next_page() else {
                return Ok(());
            };
            match self.page(rt, page, end, servers, seen, lost_lines, text) {
                Ok(body) => self.visitors.answer(place, body.as_slice()),
                Err(_) => self.visitors.close(place),
            }
        }
        Ok(())
    }
}
