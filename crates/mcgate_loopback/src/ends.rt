//! All ends together, which are turned by turns until all is done that can be done without a further result of a call.

use crate::clients::ClientEnd;
use crate::entries::RunEntry;
use crate::servers::ServerEnds;
use core_accepted::LoadFault;
use core_proxy::Sharing;
use gate_check::{Accepted, ReloadFault};
use mc_types::limits::SCRIPT_CLIENTS;
use route_json::Config;
use route_json::addresses::Servers;
use script_events::{Event, Output, PIECE_CUT, Reload, Script};
use serde_json::Value;
use serve_proxy::{Beginning, Beginnings, ProxyEnd, ServerDialect, Settings, text_at};
use serve_wire::Wire;
use serve_wire::sockets::Sockets;
use std::alloc::{AllocError, Global};
use std::io;
use std::io::ErrorKind;
use std::net::{IpAddr, Ipv4Addr, Net, SocketAddr};
use std::rt::Clock;
use std::time::Duration;

// How long one turn waits at most where nothing is ready, in milliseconds.
const WAIT_MS: u64 = 1;

// After so many turns in a row in which nothing moved the system is held to have failed.
const STILL_TURNS: u32 = 10_000;

/// How many commands and how many calls a run had.
#[derive(Clone, Copy)]
pub struct Counts {
    pub commands: u64,
    pub calls: u64,
}

/// The proxy's end, its clients and its servers.
#[derive(Drop)]
pub struct Loop {
    alloc: Global,
    proxy: ProxyEnd<Sockets>,
    // Where the proxy listens: the text by which the wire knows it.
    address: String,
    // The wire of the servers and the clients, none of which is waited for.
    wire: Sockets,
    servers: ServerEnds,
    clients: Vec<Option<ClientEnd>>,
    // How many bytes all clients together have sent.
    sent: u64,
    // How many came to them.
    received: u64,
    // The number of the configuration in use, counted from 1.
    generation: u32,
    // How many configurations are held at most.
    most: u32,
}

// 127.0.0.1, at a port that the system picks.
fn any_port() -> SocketAddr {
    SocketAddr::new(IpAddr::V4(Ipv4Addr::LOCALHOST), 0)
}

// A wire for the proxy, which has looked up these servers.
fn listen<R: Net + Clock + AllocGlobal>(rt: &R, servers: &Servers) -> io::Result<Sockets> {
    let mut wire = Sockets::listen(rt, any_port())?;
    for at in 0..servers.len() {
        if let Some(text) = text_at(servers, at) {
            wire.resolve(rt, text.as_bytes())?;
        }
    }
    Ok(wire)
}

// A wire for the servers and the clients, which has looked up the proxy at this address.
fn far_wire<R: Net + Clock + AllocGlobal>(rt: &R, proxy: &str) -> io::Result<Sockets> {
    let mut wire = Sockets::listen_by(rt, Vec::new(rt.alloc()))?;
    wire.resolve(rt, proxy.as_bytes())?;
    Ok(wire)
}

// One command of a client at a time, each key for one command alone, and one call: so calls are made in the order in which a run of the script makes them, each as the client wrote it. No call is ever late, and
// no server is held back.
fn settings() -> Settings {
    Settings {
        clients: SCRIPT_CLIENTS,
        client_window: 1,
        link_window: 1,
        places: 1,
        sharing: Sharing::Alone,
        call_ms: u64::MAX,
        connect_ms: u64::MAX,
        fail_limit: u32::MAX,
        retry_ms: 0,
        stores_wait: false,
        give_up_ms: None,
        polls: None,
        server_dialect: ServerDialect::Classic,
        flushes_new: false,
        version: None,
    }
}

// How servers began: of those that a reload brings nothing is left where they are emptied first.
fn begun(flushes_new: bool) -> Beginnings {
    if flushes_new {
        Beginnings {
            opened: Beginning::Any,
            added: Beginning::Own,
        }
    } else {
        Beginnings::any()
    }
}

// Servers behind the first so many are emptied before their first call: each has its link from the beginning, also where a reload brings it.
fn empty_new(proxy: &mut ProxyEnd<Sockets>, first: usize, servers: usize) {
    for at in first..servers {
        proxy.sockets.empty_first(at);
    }
}

// No client is connected.
fn no_clients(alloc: Global) -> Result<Vec<Option<ClientEnd>>, AllocError> {
    let mut clients = Vec::new(alloc);
    for _ in 0..SCRIPT_CLIENTS {
        clients.push(None)?;
    }
    Ok(clients)
}

// In how many turns in a row nothing moved, by whether it did in the last one.
fn still_turns(before: u32, is_still: bool) -> u32 {
    if is_still {
        before.saturating_add(1)
    } else {
        0
    }
}

fn add(count: u64, more: usize) -> u64 {
    count.saturating_add(more as u64)
}

// New output of a client is shown, if there is any.
fn push_output(place: usize, bytes: Vec<u8>, shown: &mut Vec<RunEntry>) -> Result<(), AllocError> {
    match u8::try_from(place) {
        Ok(client) if !bytes.is_empty() => {
            shown.push(RunEntry::Shown(Output { client, bytes }))?;
            Ok(())
        }
        _ => Ok(()),
    }
}

impl Loop {
    /// A proxy over an accepted configuration and so many servers, which hold nothing. Each listens at a port that the system picks. Those that a reload
    /// brings are emptied by `flush_all` before their first call, or none is. So many configurations are held at most.
    pub fn open<R: Net + Clock + AllocGlobal>(
        rt: &R,
        accepted: Accepted,
        servers: usize,
        flushes_new: bool,
        most: u32,
    ) -> io::Result<Loop> {
        let alloc = rt.alloc();
        let servers = ServerEnds::listen(rt, alloc, servers, any_port(), flushes_new)?;
        let addresses = servers.addresses()?;
        let wire = listen(rt, &addresses)?;
        let first = accepted.config().servers().len();
        let mut proxy = ProxyEnd::new(
            alloc,
            wire,
            accepted,
            begun(flushes_new),
            &addresses,
            settings(),
        )?;
        proxy.sockets.poll_in_rounds();
        if flushes_new {
            empty_new(&mut proxy, first, addresses.len());
        }
        let listens = proxy.sockets.wire.local_addr()?;
        let address = format!(in alloc; "{listens}")?;
        let wire = far_wire(rt, address.as_str())?;
        Loop::of(alloc, proxy, address, wire, servers, most)
    }

    fn of(
        alloc: Global,
        proxy: ProxyEnd<Sockets>,
        address: String,
        wire: Sockets,
        servers: ServerEnds,
        most: u32,
    ) -> io::Result<Loop> {
        let clients = no_clients(alloc)?;
        Ok(Loop {
            alloc,
            proxy,
            address,
            wire,
            servers,
            clients,
            sent: 0,
            received: 0,
            generation: 1,
            most,
        })
    }

    /// How many commands and calls there were.
    pub fn counts(&self) -> Counts {
        Counts {
            commands: self.proxy.core_tally().ended,
            calls: self.servers.calls(),
        }
    }

    /// One event of a script. What clients get by it goes after what is shown.
    pub fn take_up<R: Net + Clock + AllocGlobal>(
        &mut self,
        rt: &R,
        event: &Event,
        shown: &mut Vec<RunEntry>,
    ) -> io::Result<()> {
        match event {
            Event::Piece(client, bytes) => self.serve(rt, *client as usize, bytes.as_slice())?,
            Event::Add(client, bytes) => self.add(rt, *client as usize, bytes.as_slice())?,
            Event::Result(server) => self.give_result(rt, server.number() as usize)?,
            Event::Hold(server, key, data) => self.servers.hold(*server, key, data.as_slice())?,
            Event::Fail(turn, manner) => self.servers.fail(*turn, *manner)?,
            Event::At(turn, loss) => self.servers.lose_at(*turn, *loss)?,
            Event::Now(loss) => self.servers.lose(*loss),
            Event::Moment(seconds) => self.servers.set_moment(*seconds),
        }
        Ok(self.give_all(shown)?)
    }

    /// The script has ended: each call that is out has its result. What clients get by it goes after what is shown.
    pub fn finish<R: Net + Clock>(&mut self, rt: &R, shown: &mut Vec<RunEntry>) -> io::Result<()> {
        self.settle_all(rt)?;
        Ok(self.give_all(shown)?)
    }

    /// A configuration is to be in use. The answer is the number of its generation, or why it was refused: as in a run of `mcgate_replay`
    /// where as many are held as may be.
    pub fn load(&mut self, config: &Config) -> io::Result<Result<u32, ReloadFault>> {
        if self.generation >= self.most {
            return Ok(Err(ReloadFault::TooManyGenerations));
        }
        self.load_next(config)
    }

    fn load_next(&mut self, config: &Config) -> io::Result<Result<u32, ReloadFault>> {
        let addresses = self.servers.addresses()?;
        let config = config.copy(self.alloc)?;
        // A script's servers have no limits of their own.
        let usual = self.proxy.sockets.usual_limits();
        match self.proxy.load(config, &addresses, usual, &Value::Null) {
            Ok(generation) => {
                self.generation = generation;
                Ok(Ok(generation))
            }
            Err(LoadFault::Refused(ReloadFault::NoMemory)) => Err(io::Error::from(
                ErrorKind::OutOfMemory,
            )),
            Err(LoadFault::Refused(fault)) => Ok(Err(fault)),
            // A script numbers the servers of each configuration after those before it.
            Err(LoadFault::OtherServers) => Err(io::Error::from(ErrorKind::InvalidInput)),
        }
    }

    // A piece comes from a client, in cuts as a replay makes them: after each, each call that is out has its result.
    fn serve<R: Net + Clock>(&mut self, rt: &R, place: usize, piece: &[u8]) -> io::Result<()> {
        let mut rest = piece;
        while rest.len() > PIECE_CUT {
            let (cut, more) = rest.split_at(PIECE_CUT);
            self.add(rt, place, cut)?;
            self.settle_all(rt)?;
            rest = more;
        }
        self.add(rt, place, rest)?;
        self.settle_all(rt)
    }

    // Bytes come from a client, and all that can be done without a result is done.
    fn add<R: Net + Clock>(&mut self, rt: &R, place: usize, bytes: &[u8]) -> io::Result<()> {
        self.feed(place, bytes)?;
        self.turn_until_still(rt, Some(place))
    }

    // Each call that is out has its result, that of the least server first.
    fn settle_all<R: Net + Clock>(&mut self, rt: &R) -> io::Result<()> {
        for _ in 0..u64::MAX {
            match self.servers.first_asked() {
                Some(server) => self.make_call(rt, server)?,
                None => return Ok(()),
            }
        }
        Ok(())
    }

    // The call that is out at the server has its result, where there is one.
    fn give_result<R: Net + Clock>(&mut self, rt: &R, server: usize) -> io::Result<()> {
        if self.servers.is_asked(server) {
            self.make_call(rt, server)?;
        }
        Ok(())
    }

    // The call that is out at the server has its result, and all that can be done without another is done.
    fn make_call<R: Net + Clock>(&mut self, rt: &R, server: usize) -> io::Result<()> {
        if self.servers.make_call(&mut self.wire, server)? {
            self.proxy.drop_link(server);
        }
        self.turn_until_still(rt, None)
    }

    // Each client is given what it got, in rising number.
    fn give_all(&mut self, shown: &mut Vec<RunEntry>) -> Result<(), AllocError> {
        for place in 0..self.clients.len() {
            let bytes = self.take_output(place)?;
            push_output(place, bytes, shown)?;
        }
        Ok(())
    }

    /// So many clients are connected, in the order of their numbers.
    pub fn connect_all<N: Net>(&mut self, net: &N, clients: usize) -> io::Result<()> {
        for place in 0..clients {
            self.connect(net, place)?;
        }
        Ok(())
    }

    // The client is connected.
    fn connect<N: Net>(&mut self, net: &N, place: usize) -> io::Result<()> {
        if let Some(client) = self.clients.get_mut(place) {
            let proxy = self.address.as_bytes();
            let end = ClientEnd::connect(net, self.alloc, &mut self.wire, place, proxy)?;
            *client = Some(end);
        }
        Ok(())
    }

    fn client(&mut self, place: usize) -> Option<&mut ClientEnd> {
        self.clients.get_mut(place)?.as_mut()
    }

    fn feed(&mut self, place: usize, piece: &[u8]) -> Result<(), AllocError> {
        match self.client(place) {
            Some(client) => client.feed(piece),
            None => Ok(()),
        }
    }

    fn take_output(&mut self, place: usize) -> Result<Vec<u8>, AllocError> {
        let alloc = self.alloc;
        match self.client(place) {
            Some(client) => client.take(alloc),
            None => Ok(Vec::new(alloc)),
        }
    }

    // Whether the proxy has read all that was sent, of which the last came from this client. It reads no more of a client whose
    // connection has ended.
    fn is_read(&mut self, fed: Option<usize>) -> bool {
        let is_sent = match self.fed_client(fed) {
            Some(client) if client.is_ended() => return true,
            Some(client) => client.has_sent_all(),
            None => true,
        };
        is_sent && self.proxy.sockets.tally.read == self.sent
    }

    fn fed_client(&mut self, fed: Option<usize>) -> Option<&mut ClientEnd> {
        match fed {
            Some(place) => self.client(place),
            None => None,
        }
    }

    // Whether all is done that can be done without a result, and the clients have got all that there is for them.
    fn is_still(&mut self, fed: Option<usize>) -> bool {
        self.is_read(fed)
            && self.proxy.sockets.tally.shown == self.received
            && self.proxy.is_still(self.servers.asked())
    }

    // How much was done so far: it grows with each step.
    fn moved(&self) -> u64 {
        let tally = self.proxy.sockets.tally;
        self.sent
            .saturating_add(self.received)
            .saturating_add(tally.read)
            .saturating_add(tally.shown)
            .saturating_add(self.proxy.core_tally().ended)
            .saturating_add(self.servers.calls())
            .saturating_add(self.servers.moved())
    }

    // Turns until all is still after this client, or none, has sent more. Where nothing moves for long that is an error.
    fn turn_until_still<R: Net + Clock>(&mut self, rt: &R, fed: Option<usize>) -> io::Result<()> {
        let mut still = 0u32;
        for _ in 0..u64::MAX {
            if self.is_still(fed) {
                break;
            }
            let before = self.moved();
            self.turn(rt)?;
            still = still_turns(still, self.moved() == before);
            if still == STILL_TURNS {
                return Err(io::Error::from(ErrorKind::TimedOut));
            }
        }
        self.note_end(fed);
        Ok(())
    }

    // One turn of each end.
    fn turn<R: Net + Clock>(&mut self, rt: &R) -> io::Result<()> {
        for place in 0..self.clients.len() {
            self.turn_client(place)?;
        }
        self.proxy.turn_within(rt, Duration::from_millis(WAIT_MS))?;
        Ok(self.servers.turn(&mut self.wire)?)
    }

    fn turn_client(&mut self, place: usize) -> Result<(), AllocError> {
        let Some(Some(client)) = self.clients.get_mut(place) else {
            return Ok(());
        };
        let sent = client.send(&mut self.wire);
        let received = client.read(&mut self.wire)?;
        self.sent = add(self.sent, sent);
        self.received = add(self.received, received);
        Ok(())
    }

    // Where the connection of the client that sent more has ended the proxy reads no more of that.
    fn note_end(&mut self, fed: Option<usize>) {
        let is_ended = match self.fed_client(fed) {
            Some(client) => client.is_ended(),
            None => false,
        };
        if is_ended {
            self.sent = self.proxy.sockets.tally.read;
        }
    }
}

// Loads the configuration of a reload, of this number. What came of that is shown.
fn take_reload(
    ends: &mut Loop,
    number: usize,
    reload: &Reload,
    shown: &mut Vec<RunEntry>,
) -> io::Result<()> {
    let entry = match ends.load(&reload.config)? {
        Ok(generation) => RunEntry::Loaded(generation),
        Err(fault) => RunEntry::Kept(number, fault),
    };
    shown.push(entry)?;
    Ok(())
}

// How many clients there are up to the last one that speaks.
fn clients_of(script: &Script) -> usize {
    let mut clients = 0;
    for event in script.events.as_slice() {
        clients = clients.max(speakers(event));
    }
    clients
}

// How many clients there are up to the one that speaks by the event.
fn speakers(event: &Event) -> usize {
    match event {
        Event::Piece(client, _) | Event::Add(client, _) => (*client as usize).saturating_add(1),
        Event::Result(_)
        | Event::Hold(_, _, _)
        | Event::Fail(_, _)
        | Event::At(_, _)
        | Event::Now(_)
        | Event::Moment(_) => 0,
    }
}

/// Takes up the events and the reloads of a script, each reload before the event of its place.
pub fn drive<R: Net + Clock + AllocGlobal>(
    rt: &R,
    ends: &mut Loop,
    script: &Script,
    reloads: &[Reload],
    shown: &mut Vec<RunEntry>,
) -> io::Result<()> {
    ends.connect_all(rt, clients_of(script))?;
    let mut loaded = 0;
    for (place, event) in script.events.as_slice().iter().enumerate() {
        loaded = load_due(ends, reloads, loaded, place, shown)?;
        ends.take_up(rt, event, shown)?;
    }
    load_due(ends, reloads, loaded, usize::MAX, shown)?;
    ends.finish(rt, shown)
}

// Loads those reloads from this number on that come before the event of this place. The answer is the number of the first that is left.
fn load_due(
    ends: &mut Loop,
    reloads: &[Reload],
    loaded: usize,
    place: usize,
    shown: &mut Vec<RunEntry>,
) -> io::Result<usize> {
    for number in loaded..reloads.len() {
        match reloads.get(number) {
            Some(reload) if reload.at <= place => take_reload(ends, number, reload, shown)?,
            _ => return Ok(number),
        }
    }
    Ok(reloads.len())
}
