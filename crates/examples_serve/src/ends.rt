//! Ends on 127.0.0.1 that are turned by turns: cache servers, proxies, the program's loop, and the clients' ends of connections.

use crate::heard::{Heard, is_whole};
use crate::rerun_wire::RerunWire;
use crate::served::{Askers, ServeLoop};
use cache_tcp::CacheEnd;
use examples_memory::acts::bytes_of;
use examples_proxy::starts::looked_up;
use examples_tables::configs::with_configs;
use examples_tables::playing::{
    Stage, cut, first_line, numbered, plain, play_lines, shown, yes_or_no,
};
use examples_tables::tellers::written_out;
use gate_check::{Accepted, judge};
use mcgate_notes::controlling::Controlling;
use mcgate_serve::watching::Watching;
use route_json::addresses::Servers;
use route_json::addresses::servers::MAX_SERVERS;
use route_json::{Config, read_config, read_config_after};
use serde_json::Value;
use serve_proxy::{Beginnings, LinkNews, ProxyEnd, Settings, VersionText, text_at};
use serve_wire::sockets::Sockets;
use serve_wire::{Listens, Wire};
use std::alloc::{AllocError, Global};
use std::io::{ErrorKind, Read, Write};
use std::net::{IpAddr, Ipv4Addr, Shutdown, SocketAddr, TcpListener, TcpStream};
use std::os::fd::OwnedFd;
use std::os::unix::net::UnixStream;
use std::test::Fail;
use std::time::{Duration, Instant};
use std::{fs, io, thread};

type Cache = CacheEnd<Sockets>;

type Proxy = ProxyEnd<Sockets>;

/// The files of a program's loop, in the folder in which the tests run.
#[derive(Clone, Copy)]
pub struct LoopFiles {
    /// Whose texts it serves.
    pub served: &'static str,
    /// Where its control socket stands.
    pub control: &'static str,
    /// Where that socket is moved to once it has begun, as each run of the loop ends by removing what stands at `control`.
    pub told: &'static str,
}

/// The files of a loop that nobody asks.
pub const SOCKETS: LoopFiles = LoopFiles {
    served: "sockets.json",
    control: "sockets.control",
    told: "sockets.told",
};

// What is to end does within so many turns.
const MOST_TURNS: u32 = 4_000;

/// The ends. One that is gone is none any more.
#[derive(Drop)]
pub struct TurnedEnds<'a> {
    rt: &'a HostRuntime,
    caches: Vec<Option<Cache>>,
    // Those of the caches that aren't turned: they read nothing.
    stalled: Vec<usize>,
    // Where the one listened that was killed last.
    gone: Option<SocketAddr>,
    // Clients connect to the last one.
    proxies: Vec<Proxy>,
    // A proxy that isn't turned any more. Its connections stand.
    ended: Option<Proxy>,
    // The program's loop, to which clients connect once it has begun.
    served: ServeLoop<'a, RerunWire<Sockets>>,
    files: LoopFiles,
    // Where a loop that is asked for numbers listened for clients when it began, and where it listens for who asks.
    entered: Option<SocketAddr>,
    visited: Option<SocketAddr>,
    // What it answered.
    heard: Heard,
    // The text of the configuration by which the last proxy began.
    config: String,
    // When news were asked for last.
    asked: Option<Instant>,
    // Where a server listens whose part the example plays.
    played: Option<TcpListener>,
    // Clients, and what such a server accepted.
    streams: Vec<Option<TcpStream>>,
}

fn listen(rt: &HostRuntime, settings: cache_tcp::Settings) -> io::Result<Cache> {
    CacheEnd::listen(rt, "127.0.0.1:0", settings)
}

fn listen_at(rt: &HostRuntime, address: SocketAddr) -> Result<Cache, Fail> {
    let address = format!(in rt.alloc(); "{address}")?;
    Ok(CacheEnd::listen(rt, address.as_str(), sixteen())?)
}

// The settings of a cache of 16 items.
fn sixteen() -> cache_tcp::Settings {
    cache_tcp::Settings::of(16)
}

fn drop_cache(_cache: Cache) {}

// 127.0.0.1, at a port that the system picks.
fn any_port() -> SocketAddr {
    SocketAddr::new(IpAddr::V4(Ipv4Addr::LOCALHOST), 0)
}

// The configuration that a text is.
fn read(alloc: Global, text: &str) -> Result<Config, Fail> {
    Ok(read_config(alloc, text)?)
}

// The configuration that a text has, its servers numbered on from those of another one.
fn read_after(alloc: Global, first: &Config, text: &str) -> Result<Config, Fail> {
    let servers = first.servers().copy(alloc)?;
    Ok(read_config_after(alloc, servers, text)?)
}

fn judged(alloc: Global, config: Config) -> Result<Accepted, Fail> {
    match judge(alloc, config) {
        Ok(accepted) => Ok(accepted),
        Err(_) => Err("the gate refuses the configuration")?,
    }
}

// There is one more server, where none of these is there yet.
fn add_server(alloc: Global, servers: &mut Servers, text: &str) -> Result<(), Fail> {
    if servers.len() >= MAX_SERVERS || servers.find(text).is_some() {
        return Err("there is a server of this address")?;
    }
    servers.push(alloc, text)?;
    Ok(())
}

// The first of these servers, as many as the configuration has.
fn used(alloc: Global, config: &Config, servers: &Servers) -> Result<Servers, Fail> {
    let mut first = Servers::new(alloc);
    for at in 0..config.servers().len() {
        if let Some(text) = text_at(servers, at) {
            add_server(alloc, &mut first, text)?;
        }
    }
    Ok(first)
}

// A wire that listens, and has looked up these servers.
fn listening(rt: &HostRuntime, servers: &Servers) -> io::Result<Sockets> {
    let mut wire = Sockets::listen(rt, any_port())?;
    for at in 0..servers.len() {
        if let Some(text) = text_at(servers, at) {
            let _ = wire.resolve(rt, text.as_bytes());
        }
    }
    Ok(wire)
}

fn proxy(
    rt: &HostRuntime,
    accepted: Accepted,
    servers: &Servers,
    settings: Settings,
) -> io::Result<Proxy> {
    let wire = listening(rt, servers)?;
    Ok(ProxyEnd::new(
        rt.alloc(),
        wire,
        accepted,
        Beginnings::any(),
        servers,
        settings,
    )?)
}

// A proxy over as many of these servers as the configuration has, on its tree.
fn proxy_by(
    rt: &HostRuntime,
    text: &str,
    servers: &Servers,
    settings: Settings,
) -> Result<Proxy, Fail> {
    let config = read(rt.alloc(), text)?;
    let servers = used(rt.alloc(), &config, servers)?;
    let accepted = judged(rt.alloc(), config)?;
    Ok(proxy(rt, accepted, &servers, settings)?)
}

// Drops the configuration.
fn drop_config(_config: Config) {}

// Servers are looked up.
fn resolve(rt: &HostRuntime, proxy: &mut Proxy, servers: &Servers) {
    for at in 0..servers.len() {
        if let Some(text) = text_at(servers, at) {
            let _ = proxy.sockets.resolve(rt, text);
        }
    }
}

// The number of the generation that a configuration is.
fn load(
    alloc: Global,
    proxy: &mut Proxy,
    config: Config,
    servers: &Servers,
) -> Result<String, Fail> {
    let usual = proxy.sockets.usual_limits();
    match proxy.load(config, servers, usual, &Value::Null) {
        Ok(number) => Ok(number.to_string(alloc)?),
        Err(_) => Ok("refused".to_string(alloc)?),
    }
}

// What says that a call to the server of this name may take 200 milliseconds.
fn said_of(alloc: Global, name: &str) -> Result<Value, Fail> {
    let pool = format!(in alloc; "\"servers\":[\"{name}\"],\"call_ms\":200")?;
    let said = format!(in alloc; "{{\"pools\":{{\"A\":{{{pool}}}}}}}")?;
    Ok(Value::from_str(alloc, said.as_str())?)
}

fn limited(alloc: Global, servers: &Servers, server: usize) -> Result<Value, Fail> {
    match text_at(servers, server) {
        Some(name) => said_of(alloc, name),
        None => Err("no such server")?,
    }
}

fn address(end: &Option<Cache>) -> io::Result<Option<SocketAddr>> {
    match end {
        Some(end) => Ok(Some(end.address()?)),
        None => Ok(None),
    }
}

// The address of a server as a text. One that is gone, of this number, has none: its name is no host's.
fn text_of(alloc: Global, address: Option<SocketAddr>, at: usize) -> Result<String, Fail> {
    match address {
        Some(address) => Ok(format!(in alloc; "{address}")?),
        None => Ok(format!(in alloc; "gone{at}.invalid:1")?),
    }
}

// The last of some proxies.
fn last_of(proxies: &mut Vec<Proxy>) -> Option<&mut Proxy> {
    match proxies.len().checked_sub(1) {
        Some(at) => proxies.get_mut(at),
        None => None,
    }
}

fn turn_cache(rt: &HostRuntime, end: &mut Option<Cache>, most: Duration) -> io::Result<()> {
    match end {
        Some(end) => end.turn_within(rt, most),
        None => Ok(()),
    }
}

// One read. The answer is whether there is more to come.
fn read_some(stream: &mut TcpStream, given: &mut Vec<u8>) -> io::Result<bool> {
    let mut part = [0; 65_536];
    match stream.read(&mut part) {
        Ok(count) => {
            given.extend_from_slice(&part[..count])?;
            Ok(count > 0)
        }
        Err(error) if error.kind() == ErrorKind::WouldBlock => Ok(true),
        Err(error) => Err(error),
    }
}

// A text so often.
fn times(alloc: Global, count: usize, text: &str) -> Result<String, AllocError> {
    let mut all = String::new(alloc);
    for _ in 0..count {
        all.push_str(text)?;
    }
    Ok(all)
}

// Bytes as a text.
fn text_in(alloc: Global, bytes: &[u8]) -> Result<String, Fail> {
    let text = std::str::from_utf8(bytes)?;
    Ok(text.to_string(alloc)?)
}

// Whether who would connect there is refused.
fn is_refused_at(rt: &HostRuntime, address: SocketAddr) -> bool {
    match TcpStream::connect(rt, address) {
        Ok(_stream) => false,
        Err(error) => error.kind() == ErrorKind::ConnectionRefused,
    }
}

// How many bytes these are, and the last ten.
fn counted(alloc: Global, bytes: &[u8]) -> Result<String, Fail> {
    let (_, last) = bytes.split_at(bytes.len().saturating_sub(10));
    let count = bytes.len();
    let last = shown(alloc, last)?;
    Ok(format!(in alloc; "{count} bytes, at the end {last}")?)
}

impl<'a> TurnedEnds<'a> {
    /// No end. A loop has these files.
    pub fn new(rt: &'a HostRuntime, files: LoopFiles) -> TurnedEnds<'a> {
        TurnedEnds {
            rt,
            caches: Vec::new(rt.alloc()),
            stalled: Vec::new(rt.alloc()),
            gone: None,
            proxies: Vec::new(rt.alloc()),
            ended: None,
            served: ServeLoop::new(rt, files.served, 1),
            files,
            entered: None,
            visited: None,
            heard: Heard::new(rt.alloc()),
            config: String::new(rt.alloc()),
            asked: None,
            played: None,
            streams: Vec::new(rt.alloc()),
        }
    }

    // Where the servers listen: the caches, or the one that the example plays.
    fn servers(&self) -> Result<Servers, Fail> {
        let mut servers = Servers::new(self.rt.alloc());
        for at in 0..self.caches.len() {
            let text = self.text_of(at)?;
            add_server(self.rt.alloc(), &mut servers, text.as_str())?;
        }
        if let Some(listener) = &self.played {
            let text = text_of(self.rt.alloc(), Some(listener.local_addr()?), 0)?;
            add_server(self.rt.alloc(), &mut servers, text.as_str())?;
        }
        Ok(servers)
    }

    fn text_of(&self, at: usize) -> Result<String, Fail> {
        text_of(self.rt.alloc(), self.address_of(at)?, at)
    }

    // Where clients connect: to the program's loop or the last proxy, or to the first cache where there is none.
    fn front(&self) -> Result<SocketAddr, Fail> {
        if let Some(wire) = self.served.wire() {
            return Ok(wire.listens_at()?);
        }
        if let Some(proxy) = self.proxies.last() {
            return Ok(proxy.sockets.wire.local_addr()?);
        }
        self.cache_address(0)
    }

    fn cache_address(&self, at: usize) -> Result<SocketAddr, Fail> {
        match self.address_of(at)? {
            Some(address) => Ok(address),
            None => Err("there is no end to connect to")?,
        }
    }

    fn turn_proxies(&mut self) -> io::Result<()> {
        for proxy in self.proxies.as_mut_slice() {
            proxy.turn_within(self.rt, Duration::from_millis(1))?;
        }
        self.served.serve(1)
    }

    // Whether so many of the last proxy's calls are out, and nothing is left for it to do.
    fn is_still(&self, calls: usize) -> bool {
        match self.proxies.last() {
            Some(proxy) => proxy.is_still(calls),
            None => false,
        }
    }

    // Proxies are turned until it is so, or until it isn't any more.
    fn turn_until(&mut self, calls: usize, is_still: bool) -> Result<(), Fail> {
        for _ in 0..4_000 {
            if self.is_still(calls) == is_still {
                return Ok(());
            }
            self.turn_proxies()?;
        }
        Err("the proxy didn't come to it")?
    }

    // So many of the last proxy's calls are out when the caches answer. The turn that settles one of them is the proxy's last: its turns end with
    // what is held back.
    fn end_turns(&mut self, calls: usize) -> Result<(), Fail> {
        self.turn_until(calls, true)?;
        for end in self.caches.as_mut_slice() {
            turn_cache(self.rt, end, Duration::from_millis(5))?;
        }
        self.turn_until(calls, false)?;
        if let Some(mut proxy) = self.proxies.pop() {
            proxy.end_turns();
            self.ended = Some(proxy);
        }
        Ok(())
    }

    // How long a cache waits in a turn where nothing is ready.
    fn wait(&self) -> Duration {
        Duration::from_millis(if self.proxies.is_empty() { 5 } else { 1 })
    }

    fn turn(&mut self) -> io::Result<()> {
        self.turn_proxies()?;
        let wait = self.wait();
        for at in 0..self.caches.len() {
            self.turn_cache(at, wait)?;
        }
        Ok(())
    }

    // One that is stalled isn't turned.
    fn turn_cache(&mut self, at: usize, most: Duration) -> io::Result<()> {
        if self.stalled.as_slice().contains(&at) {
            return Ok(());
        }
        match self.caches.get_mut(at) {
            Some(end) => turn_cache(self.rt, end, most),
            None => Ok(()),
        }
    }

    fn stream(&mut self, at: usize) -> Option<&mut TcpStream> {
        self.streams.get_mut(at)?.as_mut()
    }

    fn read(&mut self, at: usize, given: &mut Vec<u8>) -> io::Result<bool> {
        match self.stream(at) {
            Some(stream) => read_some(stream, given),
            None => Ok(false),
        }
    }

    // What comes by a stream in turns: so many bytes, or fewer where its connection ends before.
    fn given(&mut self, at: usize, count: usize) -> io::Result<Vec<u8>> {
        let mut given = Vec::new(self.rt.alloc());
        for _ in 0..4_000 {
            self.turn()?;
            if !self.read(at, &mut given)? || given.len() >= count {
                break;
            }
        }
        Ok(given)
    }

    // Whether a connection ends, and nothing comes before.
    fn is_closed(&mut self, at: usize) -> io::Result<bool> {
        let given = self.given(at, 1)?;
        Ok(given.is_empty())
    }

    fn listen(&mut self, settings: cache_tcp::Settings) -> Result<(), Fail> {
        let cache = listen(self.rt, settings)?;
        if self.caches.push(Some(cache)).is_err() {
            return Err("no memory")?;
        }
        Ok(())
    }

    fn play_server(&mut self) -> Result<(), Fail> {
        let listener = TcpListener::bind(self.rt, "127.0.0.1:0")?;
        listener.set_nonblocking(true)?;
        self.played = Some(listener);
        Ok(())
    }

    // A server to which no connection stands any more: its system has room for 128 that it doesn't accept. Those that come then are given up.
    fn play_full_server(&mut self) -> Result<(), Fail> {
        let listener = TcpListener::bind(self.rt, "127.0.0.1:0")?;
        let address = listener.local_addr()?;
        for _ in 0..250 {
            let _ = TcpStream::connect_timeout(self.rt, &address, Duration::from_millis(1));
        }
        self.played = Some(listener);
        Ok(())
    }

    fn begin_proxy(&mut self, text: &str, settings: Settings) -> Result<(), Fail> {
        let servers = self.servers()?;
        let proxy = proxy_by(self.rt, text, &servers, settings)?;
        if self.proxies.push(proxy).is_err() {
            return Err("no memory")?;
        }
        self.config = text.to_string(self.rt.alloc())?;
        Ok(())
    }

    // The file has this text, in which the first two caches' addresses stand for those of two servers.
    fn put_text(&mut self, text: &str) -> Result<(), Fail> {
        let alloc = self.rt.alloc();
        let first = self.text_of(0)?;
        let second = self.text_of(1)?;
        let text = text.replace(alloc, "127.0.0.1:5001", first.as_str())?;
        let text = text
            .as_str()
            .replace(alloc, "127.0.0.1:5002", second.as_str())?;
        self.served.set("file", text.as_str())
    }

    // The program's loop begins by the text that the file has, and listens for these. Servers that a reload brings are empty.
    fn begin_loop(&mut self, askers: Askers) -> Result<(), Fail> {
        self.served.set("new", "empty")?;
        let text = self.served.text()?;
        let wire = Sockets::listen(self.rt, any_port())?;
        let wire = looked_up(self.rt, RerunWire::new(wire), text.as_str())?;
        self.served.begin(wire, text, askers)
    }

    // The program's loop begins, which is asked for numbers and told things.
    fn begin_watched_loop(&mut self) -> Result<(), Fail> {
        let askers = self.askers()?;
        self.begin_loop(askers)?;
        self.entered = Some(self.front()?);
        self.name_servers()
    }

    fn askers(&mut self) -> Result<Askers, Fail> {
        let controlling = self.listen_for_words()?;
        let watching = self.listen_for_visits()?;
        Ok(Askers {
            watching: Some(watching),
            controlling: Some(controlling),
        })
    }

    fn listen_for_visits(&mut self) -> Result<Watching, Fail> {
        let watching = Watching::listen(self.rt, "127.0.0.1:0")?;
        self.visited = Some(watching.local_addr()?);
        Ok(watching)
    }

    fn listen_for_words(&self) -> Result<Controlling, Fail> {
        let controlling = Controlling::listen(self.rt, self.files.control)?;
        fs::rename(self.rt, self.files.control, self.files.told)?;
        Ok(controlling)
    }

    // In answers the names of the first two caches are those that texts have for them.
    fn name_servers(&mut self) -> Result<(), Fail> {
        let first = self.text_of(0)?;
        let second = self.text_of(1)?;
        self.heard.name(first, second);
        Ok(())
    }

    // Its number. What is sent by it comes in the pieces in which it was sent.
    fn keep(&mut self, stream: TcpStream) -> Result<usize, Fail> {
        stream.set_nodelay(true)?;
        self.keep_any(stream)
    }

    fn keep_any(&mut self, stream: TcpStream) -> Result<usize, Fail> {
        stream.set_nonblocking(true)?;
        if self.streams.push(Some(stream)).is_err() {
            return Err("no memory")?;
        }
        Ok(self.streams.len() - 1)
    }

    fn connect(&mut self) -> Result<usize, Fail> {
        let address = self.front()?;
        self.connect_to(address)
    }

    fn connect_to(&mut self, address: SocketAddr) -> Result<usize, Fail> {
        let stream = TcpStream::connect(self.rt, address)?;
        self.keep(stream)
    }

    // A client of the cache of this number.
    fn connect_to_cache(&mut self, at: usize) -> Result<usize, Fail> {
        let address = self.cache_address(at)?;
        self.connect_to(address)
    }

    fn accepted(&self) -> Result<TcpStream, Fail> {
        match &self.played {
            Some(listener) => Ok(listener.accept()?.0),
            None => Err("no server is played")?,
        }
    }

    // Proxies are turned until a connection to the server has come: a few turns, as time limits pass meanwhile.
    fn accept(&mut self) -> Result<usize, Fail> {
        self.turn_often(10)?;
        let stream = self.accepted()?;
        self.keep(stream)
    }

    fn turn_often(&mut self, count: usize) -> io::Result<()> {
        for _ in 0..count {
            self.turn()?;
        }
        Ok(())
    }

    // Nothing is turned for so many milliseconds.
    fn pause(&self, millis: usize) -> Result<(), Fail> {
        thread::sleep(self.rt, Duration::from_millis(millis as u64));
        Ok(())
    }

    fn write(&mut self, at: usize, bytes: &[u8]) -> Result<(), Fail> {
        match self.stream(at) {
            Some(stream) => Ok(stream.write_all(bytes)?),
            None => Err("no stream has this number")?,
        }
    }

    fn send(&mut self, at: usize, text: &str) -> Result<(), Fail> {
        let piece = plain(self.rt.alloc(), text)?;
        self.write(at, piece.as_bytes())
    }

    fn send_often(&mut self, at: usize, text: &str) -> Result<(), Fail> {
        let (count, text) = numbered(text)?;
        let text = plain(self.rt.alloc(), text)?;
        let all = times(self.rt.alloc(), count, text.as_str())?;
        self.write(at, all.as_bytes())
    }

    // A client sends a text so many times over in pieces that end anywhere, with a turn after each.
    fn send_in_pieces(&mut self, at: usize, text: &str) -> Result<(), Fail> {
        let (count, text) = numbered(text)?;
        let text = plain(self.rt.alloc(), text)?;
        let all = times(self.rt.alloc(), count, text.as_str())?;
        for piece in all.as_bytes().chunks(997) {
            self.write(at, piece)?;
            self.turn()?;
        }
        Ok(())
    }

    // So many clients connect, and each stores a million bytes under this key and its own number.
    fn store_all(&mut self, count: usize, key: &str) -> Result<(), Fail> {
        for _ in 0..count {
            let at = self.connect()?;
            let line = format!(in self.rt.alloc(); "set {key}{at} 0 0 1000000\r\n")?;
            self.write(at, line.as_bytes())?;
            self.send_often(at, "100000 xxxxxxxxxx")?;
            self.send(at, r"\r\n")?;
            self.turn()?;
        }
        Ok(())
    }

    fn shut(&mut self, at: usize) -> Result<(), Fail> {
        match self.stream(at) {
            Some(stream) => Ok(stream.shutdown(Shutdown::Write)?),
            None => Err("no stream has this number")?,
        }
    }

    fn leave(&mut self, at: usize) {
        if let Some(place) = self.streams.get_mut(at) {
            *place = None;
        }
    }

    fn address_of(&self, at: usize) -> io::Result<Option<SocketAddr>> {
        match self.caches.get(at) {
            Some(end) => address(end),
            None => Ok(None),
        }
    }

    fn put(&mut self, at: usize, cache: Cache) {
        match self.caches.get_mut(at) {
            Some(place) => *place = Some(cache),
            None => drop_cache(cache),
        }
    }

    // A cache reads nothing from now on, and answers nothing: its connections stand.
    fn stall(&mut self, at: usize) -> Result<(), Fail> {
        if self.stalled.push(at).is_err() {
            return Err("no memory")?;
        }
        Ok(())
    }

    // All caches read and answer again.
    fn go_on(&mut self) {
        self.stalled.clear();
    }

    fn kill(&mut self, at: usize) -> io::Result<()> {
        self.gone = self.address_of(at)?;
        if let Some(place) = self.caches.get_mut(at) {
            *place = None;
        }
        Ok(())
    }

    // A cache begins, empty, where the one listened that was killed last.
    fn begin_again(&mut self, at: usize) -> Result<(), Fail> {
        match self.gone {
            Some(address) => {
                let cache = listen_at(self.rt, address)?;
                self.put(at, cache);
                Ok(())
            }
            None => Err("no server was killed")?,
        }
    }

    // As many bytes as are wanted, and those that came with them.
    fn gets(&mut self, at: usize, want: &str) -> Result<String, Fail> {
        let count = plain(self.rt.alloc(), want)?.len();
        let given = self.given(at, count)?;
        shown(self.rt.alloc(), given.as_slice())
    }

    fn ask(&mut self, at: usize, text: &str, want: &str) -> Result<String, Fail> {
        self.send(at, text)?;
        self.gets(at, want)
    }

    // So many clients connect and say this.
    fn connect_all(&mut self, count: usize, text: &str) -> Result<(), Fail> {
        for _ in 0..count {
            let at = self.connect()?;
            self.send(at, text)?;
            self.turn()?;
        }
        Ok(())
    }

    // So many clients connect and say this, and then each reads. The answer is what all of them get, or the first other one.
    fn crowd(&mut self, count: usize, text: &str, want: &str) -> Result<String, Fail> {
        let first = self.streams.len();
        self.connect_all(count, text)?;
        for at in first..self.streams.len() {
            let got = self.gets(at, want)?;
            if got.as_str() != want {
                return Ok(got);
            }
        }
        Ok(want.to_string(self.rt.alloc())?)
    }

    fn count(&mut self, at: usize, text: &str) -> Result<String, Fail> {
        let given = self.given(at, text.parse::<usize>()?)?;
        counted(self.rt.alloc(), given.as_slice())
    }

    // Whether a text comes so often, and nothing else.
    fn gets_often(&mut self, at: usize, text: &str) -> Result<bool, Fail> {
        let (count, text) = numbered(text)?;
        let text = plain(self.rt.alloc(), text)?;
        let all = times(self.rt.alloc(), count, text.as_str())?;
        let given = self.given(at, all.len())?;
        Ok(given.as_slice() == all.as_bytes())
    }

    fn clients(&self) -> usize {
        match self.caches.first() {
            Some(Some(cache)) => cache.clients(),
            _ => 0,
        }
    }

    // Who asks the loop for numbers.
    fn visit(&mut self) -> Result<usize, Fail> {
        match self.visited {
            Some(address) => self.connect_to(address),
            None => Err("nobody is told numbers")?,
        }
    }

    // Who tells the loop things.
    fn call(&mut self) -> Result<usize, Fail> {
        let stream = UnixStream::connect(self.rt, self.files.told)?;
        self.keep_any(TcpStream::from(OwnedFd::from(stream)))
    }

    // Pieces between which a stroke stands, with turns after each.
    fn send_each(&mut self, at: usize, text: &str) -> Result<(), Fail> {
        for piece in text.split('|') {
            let bytes = bytes_of(self.rt.alloc(), piece)?;
            self.write(at, bytes.as_slice())?;
            self.turn_often(2)?;
        }
        Ok(())
    }

    // Takes what comes by a stream in turns. Whether it ends.
    fn takes_all(&mut self, at: usize, given: &mut Vec<u8>) -> io::Result<bool> {
        for _ in 0..MOST_TURNS {
            if !self.read(at, given)? {
                return Ok(true);
            }
            self.turn()?;
        }
        Ok(false)
    }

    // What comes by a stream until it ends.
    fn given_to_end(&mut self, at: usize) -> Result<Vec<u8>, Fail> {
        let mut given = Vec::new(self.rt.alloc());
        if self.takes_all(at, &mut given)? {
            return Ok(given);
        }
        Err("the stream doesn't end")?
    }

    // The answer that comes by the last stream, of this number, which is free again.
    fn answer_by(&mut self, at: usize) -> Result<String, Fail> {
        let given = self.given_to_end(at)?;
        let _ = self.streams.pop();
        text_in(self.rt.alloc(), given.as_slice())
    }

    // An answer over HTTP, as long as its head says.
    fn whole_answer_by(&mut self, at: usize) -> Result<String, Fail> {
        let answer = self.answer_by(at)?;
        if is_whole(answer.as_str()) {
            return Ok(answer);
        }
        Err("the answer isn't as long as it says")?
    }

    // The answer is kept: its first line.
    fn note_answer(&mut self, answer: &str) -> Result<String, Fail> {
        let alloc = self.rt.alloc();
        self.heard.note(alloc, answer)?;
        Ok(self.heard.first_line().to_string(alloc)?)
    }

    // A request over HTTP, and the first line of its answer.
    fn request(&mut self, text: &str) -> Result<String, Fail> {
        let at = self.visit()?;
        self.send_each(at, text)?;
        let answer = self.whole_answer_by(at)?;
        self.note_answer(answer.as_str())
    }

    fn say(&mut self, at: usize, word: &str) -> Result<(), Fail> {
        let line = format!(in self.rt.alloc(); "{word}\n")?;
        self.write(at, line.as_bytes())
    }

    // The answer to a word: the status that it begins with.
    fn status_by(&mut self, at: usize) -> Result<String, Fail> {
        let answer = self.answer_by(at)?;
        self.note_answer(answer.as_str())
    }

    // The loop is told this word: the status that it answers.
    fn tell(&mut self, word: &str) -> Result<String, Fail> {
        let at = self.call()?;
        let word = written_out(self.rt.alloc(), word)?;
        self.say(at, word.as_str())?;
        self.status_by(at)
    }

    fn waits(&self) -> u32 {
        match self.served.wire() {
            Some(wire) => wire.waits(),
            None => 0,
        }
    }

    // The loop runs until it ends: its exit status.
    fn run_to_end(&mut self) -> Result<u8, Fail> {
        let before = self.waits();
        let status = self.served.serve_to_end(MOST_TURNS)?;
        if self.waits().saturating_sub(before) >= MOST_TURNS {
            return Err("the loop doesn't end")?;
        }
        Ok(status)
    }

    // The loop is told to drain, and runs until it has: its exit status, and the one that it answers.
    fn drain(&mut self) -> Result<String, Fail> {
        let at = self.call()?;
        self.say(at, "drain")?;
        let status = self.run_to_end()?;
        let answered = self.status_by(at)?;
        Ok(format!(in self.rt.alloc(); "ended with {status}, answered {answered}")?)
    }

    // Whether who would connect where the loop listened is refused.
    fn is_refused(&self) -> Result<bool, Fail> {
        match self.entered {
            Some(address) => Ok(is_refused_at(self.rt, address)),
            None => Err("no such loop has begun")?,
        }
    }

    fn next_config(&self, text: &str) -> Result<Config, Fail> {
        let first = read(self.rt.alloc(), self.config.as_str())?;
        read_after(self.rt.alloc(), &first, text)
    }

    fn loaded(&mut self, config: Config, servers: &Servers) -> Result<String, Fail> {
        let alloc = self.rt.alloc();
        match last_of(&mut self.proxies) {
            Some(proxy) => {
                resolve(self.rt, proxy, servers);
                load(alloc, proxy, config, servers)
            }
            None => {
                drop_config(config);
                Err("there is no proxy")?
            }
        }
    }

    fn load(&mut self, text: &str) -> Result<String, Fail> {
        let servers = self.servers()?;
        let config = self.next_config(text)?;
        self.loaded(config, &servers)
    }

    // The last proxy empties the server before its first call.
    fn empty_first(&mut self, server: usize) {
        if let Some(proxy) = last_of(&mut self.proxies) {
            proxy.sockets.empty_first(server);
        }
    }

    // A call of the last proxy to the server may take 200 milliseconds from now on, as its pool says it.
    fn limit(&mut self, server: usize) -> Result<(), Fail> {
        let said = limited(self.rt.alloc(), &self.servers()?, server)?;
        if let Some(proxy) = last_of(&mut self.proxies) {
            let usual = proxy.sockets.usual_limits();
            proxy.sockets.limit(usual, &said);
        }
        Ok(())
    }

    fn next_news(&mut self) -> Option<(usize, LinkNews)> {
        match last_of(&mut self.proxies) {
            Some(proxy) => proxy.sockets.next_news(),
            None => None,
        }
    }

    // What is told of a link next.
    fn news(&mut self) -> io::Result<Option<(usize, LinkNews)>> {
        for _ in 0..4_000 {
            self.turn()?;
            let news = self.next_news();
            if news.is_some() {
                return Ok(news);
            }
        }
        Ok(None)
    }

    // Whether news were asked for before, and a second has passed since: but for a millisecond, as the proxy counts whole ones.
    fn is_second_later(&self) -> io::Result<bool> {
        match self.asked {
            Some(asked) => Ok(Duration::from_millis(999) <= asked.elapsed(self.rt)?),
            None => Ok(false),
        }
    }

    fn news_text(&mut self) -> Result<String, Fail> {
        let alloc = self.rt.alloc();
        let now = Instant::now(self.rt)?;
        let Some((server, news)) = self.news()? else {
            return Ok("none".to_string(alloc)?);
        };
        let is_later = self.is_second_later()?;
        self.asked = Some(now);
        let later = if is_later { ", a second later" } else { "" };
        let text = format!(in alloc; "server {server}: {news}")?;
        Ok(format!(in alloc; "{text}{later}")?)
    }
}

impl TurnedEnds<'_> {
    // Events of servers, which give nothing.
    fn set_server(&mut self, verb: &str, text: &str) -> Result<(), Fail> {
        match verb {
            "cache" => self.listen(sixteen()),
            "small-cache" => self.listen(one_client()),
            "server" => self.play_server(),
            "full-server" => self.play_full_server(),
            "proxy" => self.begin_proxy(text, Settings::usual()),
            "small-proxy" => self.begin_proxy(text, one_client_of_a_proxy()),
            "patient-proxy" => self.begin_proxy(text, patient()),
            "strict-proxy" => self.begin_proxy(text, strict()),
            "slow-retry-proxy" => self.begin_proxy(text, retried_after(u64::MAX)),
            "quick-retry-proxy" => self.begin_proxy(text, retried_after(1)),
            "hasty-proxy" => self.begin_proxy(text, hasty()),
            "versioned-proxy" => self.begin_proxy(text, versioned()),
            "file" => self.put_text(text),
            "loop" => self.begin_loop(Askers::none()),
            "watched-loop" => self.begin_watched_loop(),
            _ => Err("no such event")?,
        }
    }

    // Events that give nothing, of what has this number.
    fn set(&mut self, verb: &str, at: usize, text: &str) -> Result<(), Fail> {
        match verb {
            "send" => self.send(at, text),
            "repeat" => self.send_often(at, text),
            "pieces" => self.send_in_pieces(at, text),
            "store" => self.store_all(at, text),
            "shut" => self.shut(at),
            "turn" => Ok(self.turn_often(at)?),
            "pause" => self.pause(at),
            "stall" => self.stall(at),
            "end" => self.end_turns(at),
            "leave" => {
                self.leave(at);
                Ok(())
            }
            "kill" => Ok(self.kill(at)?),
            "again" => self.begin_again(at),
            "empty" => {
                self.empty_first(at);
                Ok(())
            }
            "limit" => self.limit(at),
            _ => Err("no such event")?,
        }
    }

    // Events of streams.
    fn answer_of(&mut self, verb: &str, text: &str, want: &str) -> Result<String, Fail> {
        let (at, text) = numbered(text)?;
        match verb {
            "ask" => self.ask(at, text, want),
            "gets" => self.gets(at, want),
            "crowd" => self.crowd(at, text, want),
            "count" => self.count(at, text),
            "often" => Ok(yes_or_no(self.gets_often(at, text)?).to_string(self.rt.alloc())?),
            "closed" => Ok(yes_or_no(self.is_closed(at)?).to_string(self.rt.alloc())?),
            "to-cache" => Ok(self.connect_to_cache(at)?.to_string(self.rt.alloc())?),
            _ => {
                self.set(verb, at, text)?;
                Ok(String::new(self.rt.alloc()))
            }
        }
    }

    // Events of who asks a loop.
    fn heard_of(&mut self, verb: &str, text: &str) -> Result<String, Fail> {
        let alloc = self.rt.alloc();
        match verb {
            "metrics" => self.request(text),
            "tell" => self.tell(text),
            "line" => Ok(self.heard.line(alloc, text)?),
            "json" => self.heard.count(alloc, text),
            "fallen" => self.heard.fallen(alloc),
            "drain" => self.drain(),
            _ => Ok(yes_or_no(self.is_refused()?).to_string(alloc)?),
        }
    }

    fn number(&mut self, verb: &str) -> Result<usize, Fail> {
        match verb {
            "connect" => self.connect(),
            "accept" => self.accept(),
            _ => Ok(self.clients()),
        }
    }
}

// The settings of a cache that serves one client.
fn one_client() -> cache_tcp::Settings {
    cache_tcp::Settings {
        capacity: 16,
        clients: 1,
        flushes: false,
    }
}

// The settings of a proxy that serves one client.
fn one_client_of_a_proxy() -> Settings {
    Settings {
        clients: 1,
        ..Settings::usual()
    }
}

// So long that no call of an example is late.
const LONG: u64 = 3_600_000;

// The settings of a proxy that waits for answers as long as a busy machine needs for them.
fn patient() -> Settings {
    Settings {
        call_ms: LONG,
        ..Settings::usual()
    }
}

// The settings of a proxy whose links may be read three times in a row without a whole answer.
fn strict() -> Settings {
    Settings {
        call_ms: LONG,
        polls: Some(3),
        ..Settings::usual()
    }
}

// The settings of a proxy that tries a server again so many milliseconds after it failed twice in a row.
fn retried_after(retry_ms: u64) -> Settings {
    Settings {
        call_ms: LONG,
        fail_limit: 2,
        retry_ms,
        ..Settings::usual()
    }
}

// The settings of a proxy whose connections to servers may take 200 milliseconds to stand.
fn hasty() -> Settings {
    Settings {
        call_ms: LONG,
        connect_ms: 200,
        ..Settings::usual()
    }
}

// The settings of a proxy that tells of another version than mcgate's own.
fn versioned() -> Settings {
    Settings {
        version: VersionText::read(b"1.6.0 mcgate"),
        ..Settings::usual()
    }
}

impl Stage for TurnedEnds<'_> {
    fn answer(&mut self, event: &str, want: &str) -> Result<String, Fail> {
        let (verb, text) = cut(event);
        match verb {
            "cache"
            | "small-cache"
            | "server"
            | "full-server"
            | "proxy"
            | "small-proxy"
            | "patient-proxy"
            | "strict-proxy"
            | "slow-retry-proxy"
            | "quick-retry-proxy"
            | "hasty-proxy"
            | "versioned-proxy"
            | "file"
            | "loop"
            | "watched-loop" => {
                self.set_server(verb, text)?;
                Ok(String::new(self.rt.alloc()))
            }
            "connect" | "accept" | "clients" => Ok(self.number(verb)?.to_string(self.rt.alloc())?),
            "load" => self.load(text),
            "go-on" => {
                self.go_on();
                Ok(String::new(self.rt.alloc()))
            }
            "news" => self.news_text(),
            "metrics" | "tell" | "line" | "json" | "fallen" | "drain" | "refused" => {
                self.heard_of(verb, text)
            }
            _ => self.answer_of(verb, text, want),
        }
    }
}

// Plays an example: its name, and its events.
fn play(rt: &HostRuntime, files: LoopFiles, example: &str) -> Result<(), Fail> {
    let (name, lines) = first_line(example);
    let lines = with_configs(rt.alloc(), lines)?;
    let mut ends = TurnedEnds::new(rt, files);
    play_lines(&mut ends, name, lines.as_str())
}

/// Plays the examples of a text, between which a line is empty, by loops of these files.
pub fn play_loops(rt: &HostRuntime, files: LoopFiles, text: &str) -> Result<(), Fail> {
    for example in text.split("\n\n") {
        play(rt, files, example)?;
    }
    Ok(())
}

/// Plays the examples of a text.
pub fn play_all(rt: &HostRuntime, text: &str) -> Result<(), Fail> {
    play_loops(rt, SOCKETS, text)
}
