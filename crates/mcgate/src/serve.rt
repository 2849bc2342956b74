//! `mcgate serve`: the configuration is read and judged, and then served.

ghost use Rattle.std.specs.Prelude.{◌≡◌, IfOk, false, [], ℕ, List, Some, slice_get, OnOk, ◌∷◌, string_bytes};
ghost use Rattle.serve_wire.specs.Events.{looks_up};
ghost use Rattle.serve_links.specs.Story.{HasHappened, Agrees, texts_of};
ghost use Rattle.serve_proxy.specs.Ends.{HasNoConns, WireIsQuiet};
ghost use Rattle.mcgate.specs.Judging.{JudgesToServe, JudgesText};
ghost use Rattle.mcgate_serve.specs.LooksUp.{AreLookedUp};
ghost use Rattle.mcgate_serve.specs.Serves.{proxy_of};
ghost use Rattle.mcgate.specs.Served.{HasTree, ServesIn, IsUsedFirst, BeginsToServe, HasServers, BeginsServing, HasServed, StaysFresh, history_of};

use crate::listening::{ListenPlace, place_of};
use crate::sharing::sharing_for;
use gate_check::{Accepted, judge};
use mcgate_args::details::Explaining;
use mcgate_check::checking::print_refused;
use mcgate_ends::details::Details;
use mcgate_ends::ends::Stop;
use mcgate_ends::fleets::members::refused_first;
use mcgate_ends::serve_job::ServeJob;
use mcgate_lines::faults::print_fault;
use mcgate_lines::status::DONE;
use mcgate_notes::controlling::Controlling;
use mcgate_notes::events::{Field, LogEvent, Subject};
use mcgate_notes::folders::look_for_socket;
use mcgate_notes::lines::Lines;
use mcgate_serve::look_ups::{resolve, tell_if_unknown};
use mcgate_serve::operating::Operating;
use mcgate_serve::seen::Seen;
use mcgate_serve::serving::Serving;
use mcgate_serve::started::Started;
use mcgate_serve::watching::Watching;
use route_json::addresses::{Servers, address_in};
use route_json::{Config, read_config};
use serve_proxy::{Beginnings, ProxyEnd, Settings, text_at};
use serve_wire::Wire;
use serve_wire::sockets::{Listener, Sockets};
use std::alloc::{AllocError, Global};
use std::io;
use std::io::Write;
use std::net::Net;
use std::rt::{Clock, Files};

// The end of a proxy over sockets.
type Proxy = ProxyEnd<Sockets>;

/// A configuration that may be served.
#[derive(Drop)]
pub enum Servable {
    /// The gate accepted it.
    Accepted(Accepted),
    /// No gate was asked.
    Unchecked(Config),
}

/// What came of a text: a configuration that may be served, or the exit status of what was printed instead.
#[derive(Drop)]
pub enum Judged {
    Servable(Servable),
    Printed(u8),
}

impl Servable {
    /// How many servers it has.
    pub fn len(&self) -> usize {
        match self {
            Servable::Accepted(accepted) => accepted.config().servers().len(),
            Servable::Unchecked(config) => config.servers().len(),
        }
    }

    // Its configuration: the last one that was accepted.
    fn config(&self) -> &Config
        ensures { HasTree self.now result.now.tree }
    {
        match self {
            Servable::Accepted(accepted) => accepted.config(),
            Servable::Unchecked(config) => config,
        }
    }

    // Its configuration once more, where the proxy is one of a fleet.
    fn used_first(&self, alloc: Global, fleet: bool) -> Result<Option<Config>, AllocError>
        ensures { IfOk result (IsUsedFirst fleet self.now) }
    {
        if !fleet {
            return Ok(None);
        }
        Ok(Some(self.config().copy(alloc)?))
    }

    // The servers of its configuration.
    fn servers(&self, alloc: Global) -> Result<Servers, AllocError>
        ensures { IfOk result (λ servers. HasServers self.now servers) }
    {
        match self {
            Servable::Accepted(accepted) => accepted.config().servers().copy(alloc),
            Servable::Unchecked(config) => config.servers().copy(alloc),
        }
    }
}

// The configuration, if the gate accepts it; else why not is printed, as `mcgate check` prints it before a script.
fn judge_config<W: Write>(alloc: Global, config: Config, out: &mut W) -> Result<Judged, Stop>
    ensures { JudgesToServe false config (W.contents out.old) (W.contents out.new) result }
{
    match judge(alloc, config) {
        Ok(accepted) => Ok(Judged::Servable(Servable::Accepted(accepted))),
        Err(refused) => Ok(Judged::Printed(print_refused(&refused.config, &refused.reason, out)?)),
    }
}

// The configuration, if the gate accepts it, or with `any` whatever the gate would say; else why not is printed.
fn take_config<W: Write>(
    alloc: Global,
    any: bool,
    config: Config,
    out: &mut W,
) -> Result<Judged, Stop>
    ensures { JudgesToServe any config (W.contents out.old) (W.contents out.new) result }
{
    if any {
        return Ok(Judged::Servable(Servable::Unchecked(config)));
    }
    judge_config(alloc, config, out)
}

/// The configuration of a text, if the gate accepts it, or with `any` of whichever tree; else why not is printed.
pub fn judge_text<W: Write>(
    alloc: Global,
    any: bool,
    text: &str,
    out: &mut W,
) -> Result<Judged, Stop>
    ensures { JudgesText any text.now (W.contents out.old) (W.contents out.new) result }
{
    match read_config(alloc, text) {
        Ok(config) => take_config(alloc, any, config, out),
        Err(fault) => Ok(Judged::Printed(print_fault(text, &fault, out)?)),
    }
}

/// What may be served of this file: in a fleet no tree by which a get copies, of which is printed why.
pub fn serve_in<W: Write>(
    alloc: Global,
    file: &str,
    fleet: bool,
    servable: Servable,
    out: &mut W,
) -> Result<Judged, Stop>
    ensures { IfOk result (ServesIn fleet servable) }
{
    if !fleet {
        return Ok(Judged::Servable(servable));
    }
    match refused_first(alloc, file, servable.config(), out)? {
        None => Ok(Judged::Servable(servable)),
        Some(status) => Ok(Judged::Printed(status)),
    }
}

// The end that serves it, where servers began so.
fn end_over(
    alloc: Global,
    wire: Sockets,
    servable: Servable,
    servers: &Servers,
    begun: Beginnings,
    settings: Settings,
) -> Result<Proxy, AllocError>
    ensures core { IfOk result (λ end. BeginsToServe servable begun settings end.core.value) }
    ensures ends { IfOk result (λ end. HasNoConns (history_of wire) → Agrees [] (proxy_of history_of end)) }
    ensures texts { IfOk result (λ end. texts_of end.sockets.links.all.items ≡ servers.now) }
    ensures wire { IfOk result (λ end. end.sockets.wire ≡ wire) }
{
    let mut settings = settings;
    match servable {
        Servable::Accepted(accepted) => {
            settings.sharing = sharing_for(accepted.config().tree());
            ProxyEnd::new(alloc, wire, accepted, begun, servers, settings)
        }
        Servable::Unchecked(config) => {
            let tree = config.tree().copy()?;
            settings.sharing = sharing_for(&tree);
            ProxyEnd::unchecked(alloc, wire, tree, servers, settings)
        }
    }
}

// A wire that listens by these.
fn open_wire<R: Net + Clock + AllocGlobal>(
    rt: &R,
    job: &ServeJob<'_>,
    listeners: Vec<Listener>,
) -> io::Result<Sockets>
    ensures { IfOk result (λ wire. history_of wire ≡ []) }
{
    let mut wire = Sockets::listen_by(rt, listeners)?;
    wire.end_those_gone(job.keepalive_s);
    Ok(wire)
}

// The wire looks up these servers. Those that name no host are told of, and that is seen.
fn look_up<R: Net + AllocGlobal + Eprint>(
    rt: &R,
    lines: &mut Lines,
    seen: &mut Seen,
    wire: &mut Sockets,
    servers: &Servers,
) -> io::Result<()>
    ensures quiet { WireIsQuiet (history_of wire.old) (history_of wire.new) }
    ensures looked { OnOk result (AreLookedUp 0 servers.now (history_of wire.new)) }
{
    for at in 0..servers.len() {
        look_up_at(rt, lines, seen, wire, servers, at)?;
    }
    Ok(())
}

// The wire looks up the server of this number, if there is one. If it names no host that is told, and seen.
fn look_up_at<R: Net + AllocGlobal + Eprint>(
    rt: &R,
    lines: &mut Lines,
    seen: &mut Seen,
    wire: &mut Sockets,
    servers: &Servers,
    at: usize,
) -> io::Result<()>
    ensures quiet { WireIsQuiet (history_of wire.old) (history_of wire.new) }
    ensures looked { (text : List ℕ) → slice_get servers.now at ≡ Some text → HasHappened (looks_up text) (history_of wire.new) }
{
    match text_at(servers, at) {
        Some(text) => look_up_text(rt, lines, seen, wire, text),
        None => Ok(()),
    }
}

// The wire looks up the server of this text. If it names no host that is told, and seen.
fn look_up_text<R: Net + AllocGlobal + Eprint>(
    rt: &R,
    lines: &mut Lines,
    seen: &mut Seen,
    wire: &mut Sockets,
    text: &str,
) -> io::Result<()>
    ensures { history_of wire.new ≡ looks_up text.now ∷ history_of wire.old }
{
    let found = wire.resolve(rt, text.as_bytes());
    let is_found = tell_if_unknown(rt, lines, text, found)?;
    seen.note_found(rt.alloc(), text, is_found);
    Ok(())
}

// Whether a server's address leads anywhere. A path does, and names need not be looked up for that.
fn look_up_server<N: Net>(net: &N, address: &str) -> io::Result<()> {
    if !address.starts_with("unix:/") {
        let _ = resolve(net, address)?;
    }
    Ok(())
}

// Looks up these servers where there is no wire, and tells those that name no host: how many these are.
fn tell_unknown<R: Net + Eprint>(
    rt: &R,
    lines: &mut Lines,
    servers: &Servers,
) -> io::Result<usize> {
    let mut unknown = 0usize;
    for at in 0..servers.len() {
        if let Some(text) = text_at(servers, at) {
            let found = look_up_server(rt, address_in(text));
            if !tell_if_unknown(rt, lines, text, found)? {
                unknown = unknown.saturating_add(1);
            }
        }
    }
    Ok(unknown)
}

// A wire that listens by these, and has looked up these servers. Which of them name no host is told before why it can't listen.
fn listen<R: Net + Clock + AllocGlobal + Eprint>(
    rt: &R,
    lines: &mut Lines,
    seen: &mut Seen,
    job: &ServeJob<'_>,
    listeners: Vec<Listener>,
    servers: &Servers,
) -> io::Result<Sockets>
    ensures none { IfOk result (λ wire. HasNoConns (history_of wire)) }
    ensures looked { IfOk result (λ wire. AreLookedUp 0 servers.now (history_of wire)) }
{
    match open_wire(rt, job, listeners) {
        Ok(mut wire) => {
            look_up(rt, lines, seen, &mut wire, servers)?;
            Ok(wire)
        }
        Err(error) => {
            tell_unknown(rt, lines, servers)?;
            Err(error)
        }
    }
}

// The end that serves it by these listeners, with these servers.
fn open<R: Net + Clock + AllocGlobal + Eprint>(
    rt: &R,
    lines: &mut Lines,
    seen: &mut Seen,
    job: &ServeJob<'_>,
    listeners: Vec<Listener>,
    servable: Servable,
    servers: &Servers,
) -> io::Result<Proxy>
    ensures core { IfOk result (λ end. BeginsToServe servable job.now.begun job.now.settings end.core.value) }
    ensures ends { IfOk result (λ end. Agrees [] (proxy_of history_of end)) }
    ensures texts { IfOk result (λ end. texts_of end.sockets.links.all.items ≡ servers.now) }
    ensures looked { IfOk result (λ end. AreLookedUp 0 servers.now (history_of end.sockets.wire)) }
{
    let wire = listen(rt, lines, seen, job, listeners, servers)?;
    Ok(end_over(rt.alloc(), wire, servable, servers, job.begun, job.settings)?)
}

// What serves it, and what operates that.
fn start<R: Net + Clock + AllocGlobal + Eprint>(
    rt: &R,
    job: &ServeJob<'_>,
    listeners: Vec<Listener>,
    servable: Servable,
    started: Started,
    lines: Lines,
    watching: Option<Watching>,
    controlling: Option<Controlling>,
) -> io::Result<(Serving<Sockets>, Operating)>
    ensures begins { IfOk result (λ begun. BeginsServing servable job.now.begun job.now.settings begun.0.end) }
    ensures in_use { IfOk result (λ begun. IsUsedFirst job.now.fleet servable begun.0.in_use) }
    ensures text { IfOk result (λ begun. begun.0.text ≡ started.text) }
{
    let servers = servable.servers(rt.alloc())?;
    let in_use = servable.used_first(rt.alloc(), job.fleet)?;
    let mut lines = lines;
    let mut seen = Seen::new(rt.alloc());
    let end = open(
        rt, &mut lines, &mut seen, job, listeners, servable, &servers,
    )?;
    let serving = Serving::new(end, servers, in_use, started);
    let operating = Operating::new(rt, &serving, lines, seen, watching, controlling)?;
    Ok((serving, operating))
}

/// Serves a configuration to those who come to these listeners, which starts so, and tells it; who asks for numbers gets them, and who
/// tells it things is answered, where it listens for them. What it was in the end comes with the exit status after the turns that were asked, or once it
/// has drained, or with why it ended before.
///
/// Whatever clients and servers did (`served`): it began with a new core of that configuration and each link to its server, and only turns, and loads of
/// configurations that texts said, led to what it was in the end. What came and went over the connections of its clients and servers agrees with these
/// calls of the core, and what it counted is just what they were.
///
/// Where the gate accepted the configuration, servers held at first what the job says, and nobody else wrote them, no command that began after a delete of
/// its key was acknowledged showed an item of a store that was over when the delete began (`served` says so of each log that goes on by just these calls,
/// `fresh` of each that may have led to the core in the end). That is so also where servers applied late what had failed, each in the order of its
/// connections.
///
/// Each server has the limits that its pools say in the text in use, which is `started`'s at first, and the settings' where they say none: by these each
/// late call was late, and each connection that was given up had its time (`served`).
///
/// [`Stop::Device`] comes where the system's wait or clock fails, and [`Stop::Memory`] where memory was refused for a configuration that is
/// read while it runs, or for the limits of the first one. An error comes where the system doesn't watch the listeners, or memory was refused for the proxy
/// itself.
pub fn serve_to_end<R: Files + Input + Net + Clock + AllocGlobal + Print + Eprint>(
    rt: &R,
    job: &ServeJob<'_>,
    listeners: Vec<Listener>,
    servable: Servable,
    started: Started,
    lines: Lines,
    watching: Option<Watching>,
    controlling: Option<Controlling>,
) -> io::Result<(Serving<Sockets>, Result<u8, Stop>)>
    ensures served { IfOk result (λ ended. HasServed servable (string_bytes started.text) job.now.begun job.now.settings ended.0.end) }
    ensures fresh { IfOk result (λ ended. StaysFresh servable job.now.begun ended.0.end.core.value) }
{
    let (mut serving, mut operating) = start(
        rt,
        job,
        listeners,
        servable,
        started,
        lines,
        watching,
        controlling,
    )?;
    let ended = serving.tell_and_run(rt, &mut operating, job);
    serving.logs_are_fresh();
    Ok((serving, ended))
}

/// Which servers of a configuration name no host is told, where it can't be served.
pub fn tell_unknown_of<R: Net + AllocGlobal + Eprint>(
    rt: &R,
    lines: &mut Lines,
    servable: &Servable,
) -> io::Result<()> {
    let servers = servable.servers(rt.alloc())?;
    tell_unknown(rt, lines, &servers)?;
    Ok(())
}

// Looks up where it would listen. Where no such address is known, a line of detail says why.
fn look_up_own<R: Net + AllocGlobal>(
    rt: &R,
    address: &str,
    details: &mut Details,
) -> Result<(), Stop> {
    match resolve(rt, address) {
        Ok(_) => Ok(()),
        Err(error) => {
            details.add_listen(rt.alloc(), address, &error);
            Err(Stop::from(error))
        }
    }
}

// Whether it could listen at a path of this name, as far as that is known without a socket there. If not, a line of detail says why.
fn look_at_path<R: Files + AllocGlobal>(
    rt: &R,
    name: &str,
    path: &str,
    details: &mut Details,
) -> Result<(), Stop> {
    match look_for_socket(rt, path) {
        Ok(()) => Ok(()),
        Err(error) => {
            details.add_path(rt.alloc(), name, &error);
            Err(Stop::from(error))
        }
    }
}

// Looks up where it would listen at this place, a host and a port or a path. Where it couldn't, as far as that is known, a line of detail says why.
fn look_at_place<R: Files + Net + AllocGlobal>(
    rt: &R,
    text: &str,
    details: &mut Details,
) -> Result<(), Stop> {
    match place_of(text) {
        ListenPlace::Address(address) => look_up_own(rt, address, details),
        ListenPlace::Path(path) => look_at_path(rt, text, path, details),
        ListenPlace::Input => Ok(()),
    }
}

// Looks up where it would listen at each of these places. Where it couldn't at one, as far as that is known, a line of detail says why.
fn look_up_places<R: Files + Net + AllocGlobal>(
    rt: &R,
    places: &str,
    details: &mut Details,
) -> Result<(), Stop> {
    for text in places.split(',') {
        look_at_place(rt, text, details)?;
    }
    Ok(())
}

// What is said where some servers' addresses aren't known.
fn unknown_line(alloc: Global, unknown: usize, servers: usize) -> Result<String, AllocError> {
    format!(in alloc; "mcgate: of {servers} servers {unknown} have no known address")
}

/// Serves nothing: looks up where a configuration would be served, and its servers. The answer is status 0 where all are known, of which a line
/// on standard error tells.
///
/// [`Stop::Device`] comes where an address isn't known, or no socket can stand at a path, of which a line tells, and [`Stop::Memory`] where memory was refused.
pub fn look_up_only<R: Files + Net + AllocGlobal + Eprint>(
    rt: &R,
    job: ServeJob<'_>,
    servable: &Servable,
    lines: &mut Lines,
    details: &mut Details,
) -> Result<u8, Stop> {
    let Ok(servers) = servable.servers(rt.alloc()) else {
        return Err(Stop::Memory);
    };
    let unknown = tell_unknown(rt, lines, &servers)?;
    look_up_places(rt, job.listen, details)?;
    if let Some(metrics) = job.metrics {
        look_up_own(rt, metrics, details)?;
    }
    if let Some(control) = job.control {
        look_at_path(rt, control, control, details)?;
    }
    if unknown > 0 {
        details.add(unknown_line(rt.alloc(), unknown, servers.len()));
        return Err(Stop::Device);
    }
    let line = format_args!(
        "mcgate: {} can be served on {}, {} servers",
        job.file,
        job.listen,
        servers.len()
    );
    let fields = [
        Field::event("can_be_served"),
        Field::text("file", job.file),
        Field::text("at", job.listen),
        Field::count("servers", servers.len() as u64),
    ];
    lines.tell(rt, LogEvent::info(Subject::Process, &fields), line);
    Ok(DONE)
}
