//! The arguments of `mcgate serve`, and what they ask for.

use crate::arguments::{ArgumentsFault, Job, count_of, texts_of};
use crate::beginning_arguments::{begun_of, flushes_new};
use crate::log_arguments::log_of;
use clap::ArgMatches;
use core_accepted::Beginnings;
use mcgate_ends::ServeJob;
use serve_links::{ServerDialect, Settings, VersionText};
use std::alloc::{AllocError, Global};

// How many milliseconds a client may take nothing.
const STALL_MS: u64 = 10_000;

// How many connections may wait to be accepted.
const TCP_BACKLOG: u32 = 1_024;

// How many seconds a server's host may acknowledge nothing.
const KEEPALIVE_S: u32 = 60;

// After how many seconds a server's name is looked up again.
const RESOLVE_S: u32 = 60;

// How many milliseconds it may drain.
const DRAIN_MS: u64 = 10_000;

// How many MiB may be to be sent to all clients.
const MEMORY_MB: usize = 1_024;

const MIB: usize = 1_048_576;

pub const SERVE_HELP: &str =
    "usage: mcgate serve --config FILE --listen HOST:PORT [--fleet | --any] [--check] [FLAG N ..]

Reads a configuration in JSON, of FILE, and asks the gate. A tree that it accepts is served at HOST:PORT: what clients send goes
to the configuration's servers, at their addresses. Lines on standard error tell when it listens, and when a server's connection
opens, fails or comes back.
  --listen unix:PATH     clients of this machine connect at PATH; --listen fd:0: to the socket that standard input is, which listens
                         already; with several --listen, or places with a comma between two, HOST:PORT,unix:PATH, at each of them
  --unix-mode WORD       who may connect at PATH: 600, the user that it runs as, 660, its group too, or 666, everybody; 600
  --tcp-backlog N        so many connections may wait to be accepted at HOST:PORT, 1024
  --reuse-port           others of the fleet may listen at the same HOST:PORT, and connections are shared out; with --fleet alone
  --clients N            at most so many clients at once, 1024 where it is left out
  --client-window N      at most so many commands of one client without a shown reply, 32
  --link-window N        at most so many calls out at one server, 256
  --call-ms N            a call that takes longer than so many milliseconds has failed, 1000
  --connect-ms N         so has a connection to a server that takes longer to stand, 1000
  --fail-limit N         the calls of a server that failed so many times in a row fail at once, 3
  --retry-ms N           for so long, and then one call tries, 1000
  --stores-wait          what may put or change an item (a set, add, replace, append, prepend, cas, incr, decr, ms or ma) that a server
                         was asked is awaited however long it takes, with all behind it; once it took too long further calls fail at
                         once
  --give-up-ms N         a server's connection is kept for so long while late answers are to come; without it, until it ends
  --keepalive-s N        a server's connection has ended once its host has acknowledged nothing for so many seconds, 60
  --resolve-s N          servers' names are looked up again after so many seconds, and after a failure; a name that leads to another
                         machine is followed with --new-servers empty or flush, and told of else, 60
  --polls N              after so many reads of a server in a row without a whole answer its calls have failed; without it, any number
  --stall-ms N           a client that takes nothing for so many milliseconds, while more than 1 MiB is to be sent to it, is closed, 10000
  --memory-mb N          where more than so many MiB are to be sent to all clients, the client to which most are is closed, 1024
  --metrics HOST:PORT    answers there over HTTP what it counts: / for people, /metrics in Prometheus' text format, /stats.json in JSON
  --control PATH         it is told things there by mcgate tell: to drain, to reload, and what it counts
  --drain-ms N           when it is told to drain it ends after so many milliseconds at most, 10000
  --drain-on-eof         it drains once standard input has ended: a pipe, a socket or a terminal; what is read there is of no account
  --log-level WORD       each line on standard error begins with a time and a level, and those of WORD and more urgent ones are told:
                         error, warn, info or debug; without it and the next one, all, as they are
  --log-json             each is an object in JSON with that
  --server-dialect WORD  how servers are asked for classic gets: classic, meta, or auto, by what each answers to an mn; auto
  --version-text TEXT    version is answered by VERSION TEXT, for clients that read a number there: 1 to 64 bytes of ASCII, printed ones
                         and spaces, the first and the last no space; mcgate-1
  --opened WORD          what the servers of the first configuration held before: any, or own: of each key nothing but what its tree
                         may put on them; any
  --new-servers WORD     what servers held that a reload brings: any, or empty: nothing, or flush: each is emptied by flush_all before
                         its first call; any
  --reload-ms N          FILE is read again each N milliseconds; without it and the next one, it isn't
  --reload-every N       FILE is read again each N turns
  --turns N              ends after so many turns; without it, it doesn't end
  --history FILE         the configurations that were accepted so far stand in FILE: the first one and each new text is judged after
                         them, and written there before it is used; without it, what is promised begins with this start
  --fleet                it is one of several mcgates before the same servers: a tree by which a get copies is refused, and each new
                         one is judged both ways beside the one in use; not with --any, --opened or --new-servers
  --any                  serves a tree that the gate refuses too: nothing is promised then
  --certificate FILE     at the start the tree is accepted by this certificate, as mcgate-verify tests it, or refused; not with --any
  --check                serves nothing: it tests the words, FILE, its tree, and that all addresses are known, and ends
Each N is 1..=4294967295.
A tree that the gate refuses isn't served, and its refused: line is printed.
A text of FILE that is new is judged against each configuration that was loaded, and one of these lines is printed:
  reload accepted generation=G     commands that begin from now on run by its tree
  reload unchanged generation=G    it says the configuration in use, and nothing is done
  reload refused ..                or config: .., and the tree in use is kept
Exit status: 0 done, 1 refused by the gate, 2 bad arguments or no configuration, 3 memory or a device failed, also where it can't listen there.
";

// The number after a flag, or the usual one.
fn size_of(given: &ArgMatches<'_>, name: &str, usual: usize) -> Result<usize, ArgumentsFault> {
    Ok(count_of(given, name)?.map_or(usual, |count| count as usize))
}

// The milliseconds after a flag, or the usual ones.
fn millis_of(given: &ArgMatches<'_>, name: &str, usual: u64) -> Result<u64, ArgumentsFault> {
    Ok(count_of(given, name)?.map_or(usual, u64::from))
}

// The dialect after its flag, or the usual one.
fn dialect_of(
    given: &ArgMatches<'_>,
    usual: ServerDialect,
) -> Result<ServerDialect, ArgumentsFault> {
    let Some(word) = given.get_str("server-dialect") else {
        return Ok(usual);
    };
    match word {
        "auto" => Ok(ServerDialect::Auto),
        "classic" => Ok(ServerDialect::Classic),
        "meta" => Ok(ServerDialect::Meta),
        _ => Err(ArgumentsFault::Refused),
    }
}

// The text after its flag by which clients are told the version, if one is given.
fn version_of(given: &ArgMatches<'_>) -> Result<Option<VersionText>, ArgumentsFault> {
    let Some(text) = given.get_str("version-text") else {
        return Ok(None);
    };
    match VersionText::read(text.as_bytes()) {
        Some(version) => Ok(Some(version)),
        None => Err(ArgumentsFault::Refused),
    }
}

// The mode after its flag, or the usual one: for the user that it runs as, for its group too, or for everybody.
fn mode_of(given: &ArgMatches<'_>) -> Result<u32, ArgumentsFault> {
    match given.get_str("unix-mode") {
        None | Some("600") => Ok(0o600),
        Some("660") => Ok(0o660),
        Some("666") => Ok(0o666),
        Some(_) => Err(ArgumentsFault::Refused),
    }
}

// The settings with what the flags say of clients, and of how many calls may be out.
fn with_sizes(given: &ArgMatches<'_>, usual: Settings) -> Result<Settings, ArgumentsFault> {
    Ok(Settings {
        clients: size_of(given, "clients", usual.clients)?,
        client_window: size_of(given, "client-window", usual.client_window)?,
        places: size_of(given, "link-window", usual.places)?,
        ..usual
    })
}

// The settings with what the flags say of times.
fn with_times(given: &ArgMatches<'_>, usual: Settings) -> Result<Settings, ArgumentsFault> {
    Ok(Settings {
        call_ms: millis_of(given, "call-ms", usual.call_ms)?,
        connect_ms: millis_of(given, "connect-ms", usual.connect_ms)?,
        retry_ms: millis_of(given, "retry-ms", usual.retry_ms)?,
        give_up_ms: count_of(given, "give-up-ms")?.map(u64::from),
        ..usual
    })
}

fn settings_of(given: &ArgMatches<'_>) -> Result<Settings, ArgumentsFault> {
    let usual = with_times(given, with_sizes(given, Settings::usual())?)?;
    Ok(Settings {
        fail_limit: count_of(given, "fail-limit")?.unwrap_or(usual.fail_limit),
        stores_wait: given.get_flag("stores-wait"),
        polls: count_of(given, "polls")?,
        server_dialect: dialect_of(given, usual.server_dialect)?,
        flushes_new: flushes_new(given),
        version: version_of(given)?,
        ..usual
    })
}

// Whether it is one of a fleet. What a fleet's servers held before is never known, and its trees are judged.
fn fleet_of(given: &ArgMatches<'_>) -> Result<bool, ArgumentsFault> {
    if !given.get_flag("fleet") {
        return Ok(false);
    }
    if given.get_flag("any") || given.contains_id("opened") || given.contains_id("new-servers") {
        return Err(ArgumentsFault::Refused);
    }
    Ok(true)
}

// Whether others may listen there too, which stand before the same servers: so they are a fleet.
fn shares_port(given: &ArgMatches<'_>) -> Result<bool, ArgumentsFault> {
    if given.get_flag("reuse-port") && !given.get_flag("fleet") {
        return Err(ArgumentsFault::Refused);
    }
    Ok(given.get_flag("reuse-port"))
}

// The file of what is remembered. Of trees that no gate accepted nothing is.
fn history_of<'a>(given: &ArgMatches<'a>) -> Result<Option<&'a str>, ArgumentsFault> {
    match given.get_str("history") {
        Some(_) if given.get_flag("any") => Err(ArgumentsFault::Refused),
        history => Ok(history),
    }
}

// Whether it drains once standard input has ended, which isn't where it listens then.
fn drains_on_eof(given: &ArgMatches<'_>, listen: &[&str]) -> Result<bool, ArgumentsFault> {
    let drains = given.get_flag("drain-on-eof");
    for places in listen {
        if drains && has_input(places) {
            return Err(ArgumentsFault::Refused);
        }
    }
    Ok(drains)
}

// Whether standard input is among these places.
fn has_input(places: &str) -> bool {
    for place in places.split(',') {
        if place == "fd:0" {
            return true;
        }
    }
    false
}

// How it listens.
#[derive(Clone, Copy)]
struct Listening {
    unix_mode: u32,
    tcp_backlog: u32,
    reuse_port: bool,
    drain_on_eof: bool,
}

fn listening_of(given: &ArgMatches<'_>, listen: &[&str]) -> Result<Listening, ArgumentsFault> {
    Ok(Listening {
        unix_mode: mode_of(given)?,
        tcp_backlog: count_of(given, "tcp-backlog")?.unwrap_or(TCP_BACKLOG),
        reuse_port: shares_port(given)?,
        drain_on_eof: drains_on_eof(given, listen)?,
    })
}

// After which times it gives something up, or does it again.
#[derive(Clone, Copy)]
struct Times {
    drain_ms: u64,
    stall_ms: u64,
    keepalive_s: u32,
    resolve_s: u32,
}

fn times_of(given: &ArgMatches<'_>) -> Result<Times, ArgumentsFault> {
    Ok(Times {
        drain_ms: millis_of(given, "drain-ms", DRAIN_MS)?,
        stall_ms: millis_of(given, "stall-ms", STALL_MS)?,
        keepalive_s: count_of(given, "keepalive-s")?.unwrap_or(KEEPALIVE_S),
        resolve_s: count_of(given, "resolve-s")?.unwrap_or(RESOLVE_S),
    })
}

// When the file is read again, and when it ends.
#[derive(Clone, Copy)]
struct Turns {
    reload_every: Option<u32>,
    reload_ms: Option<u32>,
    turns: Option<u32>,
}

fn turns_of(given: &ArgMatches<'_>) -> Result<Turns, ArgumentsFault> {
    Ok(Turns {
        reload_every: count_of(given, "reload-every")?,
        reload_ms: count_of(given, "reload-ms")?,
        turns: count_of(given, "turns")?,
    })
}

// How its trees are judged.
#[derive(Clone, Copy)]
struct Judgement<'a> {
    begun: Beginnings,
    any: bool,
    fleet: bool,
    certificate: Option<&'a str>,
    history: Option<&'a str>,
}

fn judgement_of<'a>(given: &ArgMatches<'a>) -> Result<Judgement<'a>, ArgumentsFault> {
    let (any, certificate) = (given.get_flag("any"), given.get_str("certificate"));
    if any && certificate.is_some() {
        return Err(ArgumentsFault::Refused);
    }
    Ok(Judgement {
        begun: begun_of(given)?,
        any,
        fleet: fleet_of(given)?,
        certificate,
        history: history_of(given)?,
    })
}

/// What the arguments after `serve` ask for, and each text that says where to listen. The job itself has the first of them: [`all_places`]
/// makes one of all.
pub fn serve_job<'a>(alloc: Global, given: &ArgMatches<'a>) -> Result<Job<'a>, ArgumentsFault> {
    let listen = texts_of(alloc, given, "listen")?;
    let job = serve_job_at(given, listen.as_slice())?;
    Ok(Job::Serve(job, listen))
}

/// These texts of places as one, with a comma between two. The only error is running out of memory.
pub fn all_places(alloc: Global, texts: &[&str]) -> Result<String, AllocError> {
    let mut places = String::new(alloc);
    for text in texts {
        if !places.is_empty() {
            places.push_str(",")?;
        }
        places.push_str(text)?;
    }
    Ok(places)
}

// The job with these texts that say where to listen.
fn serve_job_at<'a>(
    given: &ArgMatches<'a>,
    places: &[&'a str],
) -> Result<ServeJob<'a>, ArgumentsFault> {
    let (Some(file), Some(listen)) = (given.get_str("config"), places.first().copied()) else {
        return Err(ArgumentsFault::Refused);
    };
    let listening = listening_of(given, places)?;
    let times = times_of(given)?;
    let turns = turns_of(given)?;
    let judged = judgement_of(given)?;
    Ok(ServeJob {
        file,
        listen,
        unix_mode: listening.unix_mode,
        tcp_backlog: listening.tcp_backlog,
        reuse_port: listening.reuse_port,
        metrics: given.get_str("metrics"),
        control: given.get_str("control"),
        log: log_of(given)?,
        drain_ms: times.drain_ms,
        drain_on_eof: listening.drain_on_eof,
        settings: settings_of(given)?,
        keepalive_s: times.keepalive_s,
        resolve_s: times.resolve_s,
        begun: judged.begun,
        any: judged.any,
        fleet: judged.fleet,
        certificate: judged.certificate,
        history: judged.history,
        check: given.get_flag("check"),
        stall_ms: times.stall_ms,
        memory: size_of(given, "memory-mb", MEMORY_MB)?.saturating_mul(MIB),
        reload_every: turns.reload_every,
        reload_ms: turns.reload_ms,
        turns: turns.turns,
    })
}
