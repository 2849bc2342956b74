//! The loop of `mcgate serve` over a wire, and examples of it over one in memory: turns, between which its file gets new texts, and a history
//! that remembers them.

use examples_memory::acts::bytes_of;
use examples_memory::{Memory, Peers};
use examples_proxy::starts::{begin as begin_end, looked_up, servers_of, settings};
use examples_tables::configs::with_configs;
use examples_tables::playing::{Stage, cut, first_line, play_lines, shown, yes_or_no};
use mcgate_ends::details::Details;
use mcgate_ends::logs::{Level, Log};
use mcgate_ends::serve_job::ServeJob;
use mcgate_notes::controlling::Controlling;
use mcgate_notes::lines::Lines;
use mcgate_serve::operating::Operating;
use mcgate_serve::seen::Seen;
use mcgate_serve::serving::Serving;
use mcgate_serve::started::{Begun, Started};
use mcgate_serve::starting::begin;
use mcgate_serve::watching::Watching;
use route_json::addresses::Servers;
use serve_proxy::{Beginning, Beginnings, ProxyEnd, ServerDialect, Settings};
use serve_wire::{Lead, Listens, Wire};
use std::io::ErrorKind;
use std::test::Fail;
use std::{fs, io};

// The files of an example, in the folder in which the tests run.
const FILE: &str = "served.json";

const HISTORY: &str = "served.history";

// Beside it, the names of servers that are to be emptied.
const TO_EMPTY: &str = "served.history.flush";

// `file` puts a text into the file, and `serve` turns the loop so often, which begins by the text where it hasn't yet. A turn in which
// nothing comes takes a second. `moves` names a host whose name leads elsewhere once that has begun, and `new` says how new servers are.
fn texts() -> &'static str {
    r#"A text that brings a server is loaded, and deletes go to that one too. One that the gate refuses and one that is none change nothing.
host 127.0.0.1:5001
host 127.0.0.1:5002
peer 8
awaits 7
sends END\r\n
awaits 17
sends NOT_FOUND\r\n
awaits 27
sends NOT_FOUND\r\n
awaits 37
sends NOT_FOUND\r\n
answers 127.0.0.1:5001
peer 9
awaits 10
sends NOT_FOUND\r\n
answers 127.0.0.1:5002
peer 1
sends get a\r\n
until 60000
sends delete b\r\n
until 110000
sends delete c\r\n
until 170000
sends delete d\r\n
calls 0
file <one server>
serve 50
taken 1 => END\r\n
file <failover>
serve 50
taken 8 => get a\r\ndelete b\r\n
file {"pools":
serve 50
taken 8 => get a\r\ndelete b\r\ndelete c\r\n
taken 9 => nothing
file <A, both cleared>
serve 70
taken 8 => get a\r\ndelete b\r\ndelete c\r\ndelete d\r\n
taken 9 => delete d\r\n
taken 1 => END\r\nNOT_FOUND\r\nNOT_FOUND\r\nNOT_FOUND\r\n

A text lists a new server before the old one: the calls of each key go to its own server, deletes among them.
host 127.0.0.1:5001
host 127.0.0.1:5002
peer 8
awaits 7
sends END\r\n
awaits 17
sends DELETED\r\n
answers 127.0.0.1:5001
peer 9
awaits 10
sends NOT_FOUND\r\n
awaits 17
sends END\r\n
answers 127.0.0.1:5002
peer 1
sends get a\r\n
until 60000
sends delete b\r\ndelete a\r\nget b\r\n
calls 0
new empty
file <one server>
serve 50
taken 1 => END\r\n
file {"pools":{"B":{"servers":["127.0.0.1:5002"]},"A":{"servers":["127.0.0.1:5001"]}},"route":{"type":"PrefixSelectorRoute","policies":{"b":"PoolRoute|B"},"wildcard":"PoolRoute|A"}}
serve 50
taken 8 => get a\r\ndelete a\r\n
taken 9 => delete b\r\nget b\r\n
taken 1 => END\r\nNOT_FOUND\r\nDELETED\r\nEND\r\n

Servers of two dialects, and a write that fails half-way: by the new text its get goes to the other server, as that one is asked.
host 127.0.0.1:5001
host 127.0.0.1:5002
peer 8
breaks 15
awaits 11
sends MN\r\nEND\r\n
answers 127.0.0.1:5001
peer 9
awaits 11
sends ERROR\r\nVALUE b 7 2\r\nyz\r\nEND\r\n
answers 127.0.0.1:5002
peer 1
sends get a\r\n
until 60000
sends get b\r\n
calls 0
dialects
file <A, both cleared>
serve 50
taken 1 => END\r\n
file <failover>
serve 50
taken 8 => mn\r\nget a\r\nmg b
open 8 => no
taken 9 => mn\r\nget b\r\n
taken 1 => END\r\nVALUE b 7 2\r\nyz\r\nEND\r\n

A client asks for 800 KB at once and quits behind that. A text is loaded while it takes them slowly: it gets them all, and then its connection is closed.
host 127.0.0.1:5001
peer 9
awaits 7
sends END\r\n
-- 7, and eight times 8
awaits 71
sends «8 VALUE k# 0 100000\r\n<data>\r\nEND\r\n»
answers 127.0.0.1:5001
peer 1
window 20000
sends get a\r\n
awaits 5
sends «8 get k#\r\n»quit\r\nget b\r\n
calls 0
file <one server>
serve 20
open 1 => yes
file <A, both cleared>
serve 80
took 1 END\r\n«8 VALUE k# 0 100000\r\n<data>\r\nEND\r\n» => yes
open 1 => no
took 9 get a\r\n«8 get k#\r\n» => yes

A client sends 600 KB of stores at once, which come and go by the piece.
host 127.0.0.1:5001
peer 9
piece 59999
awaits 7
sends END\r\n
-- 7, and six times 19 + 100,000 + 2
awaits 600133
sends «6 STORED\r\n»
answers 127.0.0.1:5001
peer 1
piece 30001
sends get a\r\n
awaits 5
sends «6 set k# 0 0 100000\r\n<data>\r\n»
calls 0
file <one server>
serve 100
took 9 get a\r\n«6 set k# 0 0 100000\r\n<data>\r\n» => yes
took 1 END\r\n«6 STORED\r\n» => yes

A client sends 3 MB of stores at once, asks for all of them behind that, and quits. A text is loaded meanwhile: it gets all, and is closed.
host 127.0.0.1:5001
peer 9
piece 99991
awaits 7
sends END\r\n
-- 7, nine times 19 + 100,000 + 2, and 21 times 20 + 100,000 + 2
awaits 3000658
sends «30 STORED\r\n»
-- nine times 8 and 21 times 9 more
awaits 3000919
sends «30 VALUE k# 0 100000\r\n<data>\r\nEND\r\n»
answers 127.0.0.1:5001
peer 1
piece 70001
window 50000
sends get a\r\n
awaits 5
sends «30 set k# 0 0 100000\r\n<data>\r\n»«30 get k#\r\n»quit\r\n
calls 0
file <one server>
-- At most 40 times 50,000 bytes came by then.
serve 40
open 1 => yes
file <A, both cleared>
serve 400
took 9 get a\r\n«30 set k# 0 0 100000\r\n<data>\r\n»«30 get k#\r\n» => yes
took 1 END\r\n«30 STORED\r\n»«30 VALUE k# 0 100000\r\n<data>\r\nEND\r\n» => yes
open 1 => no

Each text that is loaded stands in the history before it is used, and one that is refused doesn't.
host 127.0.0.1:5001
host 127.0.0.1:5002
history
file <one server>
serve 5
remembered => 1
file <failover>
serve 5
remembered => 1
file <A, both cleared>
serve 5
remembered => 2

A name leads to another machine: where nothing is said of new servers that isn't followed, though the connection has failed.
host one:1
peer 8
awaits 7
sends END\r\n
until 5000
ends
answers one:1
peer 9
awaits 7
sends END\r\n
answers one:1
peer 1
sends get a\r\n
until 65000
sends get b\r\n
calls 0
moves one:1
file {"pools":{"A":{"servers":["one:1"]}},"route":"PoolRoute|A"}
serve 80
leads one:1 => elsewhere
taken 9 => get b\r\n

Where they are empty it is followed, within a minute.
host one:1
peer 8
awaits 7
sends END\r\n
answers one:1
peer 1
sends get a\r\n
calls 0
moves one:1
new empty
file {"pools":{"A":{"servers":["one:1"]}},"route":"PoolRoute|A"}
serve 55
leads one:1 => elsewhere
serve 25
leads one:1 => there
taken 8 => get a\r\n
open 8 => yes
named => no

It is after a failure of the connection, a second later at most.
host one:1
peer 8
awaits 7
sends END\r\n
until 5000
ends
answers one:1
peer 1
sends get a\r\n
calls 0
moves one:1
new empty
file {"pools":{"A":{"servers":["one:1"]}},"route":"PoolRoute|A"}
serve 4
leads one:1 => elsewhere
serve 12
leads one:1 => there

Where they are emptied first this one is: its name is written until it was.
host one:1
peer 8
awaits 7
sends END\r\n
until 70000
ends
answers one:1
peer 9
awaits 11
sends OK\r\n
awaits 18
sends END\r\n
answers one:1
peer 1
sends get a\r\n
until 80000
sends get b\r\n
calls 0
moves one:1
new flush
history
file {"pools":{"A":{"servers":["one:1"]}},"route":"PoolRoute|A"}
serve 68
leads one:1 => there
named => yes
taken 8 => get a\r\n
open 8 => yes
serve 35
taken 8 => get a\r\n
taken 9 => flush_all\r\nget b\r\n
taken 1 => END\r\nEND\r\n
named => no

A server comes back under another epoch while an answer of it is late: calls to the new one fail until that has come, and it is emptied first.
host 127.0.0.1:5001
host 127.0.0.1:5001#2
peer 8
awaits 7
sends END\r\n
awaits 14
until 60000
sends VALUE b 0 1\r\n1\r\nEND\r\n
answers 127.0.0.1:5001
peer 9
awaits 11
sends OK\r\n
awaits 18
sends END\r\n
answers 127.0.0.1:5001#2
peer 1
sends get a\r\n
until 5000
sends get b\r\n
until 70000
sends get d\r\n
calls 0
peer 2
until 40000
sends get c\r\n
calls 0
new flush
history
file <one server>
serve 25
taken 8 => get a\r\nget b\r\n
file {"pools":{"A":{"servers":["127.0.0.1:5001#2"]}},"route":"PoolRoute|A"}
serve 30
taken 2 => SERVER_ERROR call failed\r\n
taken 9 => nothing
serve 40
taken 1 => END\r\nSERVER_ERROR call failed\r\nEND\r\n
taken 8 => get a\r\nget b\r\n
taken 9 => flush_all\r\nget d\r\n

A command that began before a load comes to a server whose epoch is over by then, and which has no other calls: it waits there in vain.
host 127.0.0.1:5001
host 127.0.0.1:5001#2
host 127.0.0.1:5002
peer 7
awaits 10
sends NOT_FOUND\r\n
answers 127.0.0.1:5002
peer 8
awaits 10
sends NOT_FOUND\r\n
awaits 17
sends END\r\n
answers 127.0.0.1:5001
peer 9
awaits 11
sends OK\r\n
answers 127.0.0.1:5001#2
peer 1
sends delete a\r\n
until 5000
sends get a\r\n
calls 0
new flush
history
file {"pools":{"A":{"servers":["127.0.0.1:5001"]},"B":{"servers":["127.0.0.1:5002"],"call_ms":20000}},"route":{"type":"OperationSelectorRoute","default_policy":{"type":"FailoverRoute","children":["PoolRoute|B","PoolRoute|A"]},"operation_policies":{"delete":{"type":"AllSyncRoute","children":["PoolRoute|A","PoolRoute|B"]}}}}
serve 12
taken 7 => delete a\r\nget a\r\n
file {"pools":{"A":{"servers":["127.0.0.1:5001#2"]},"B":{"servers":["127.0.0.1:5002"],"call_ms":20000}},"route":{"type":"OperationSelectorRoute","default_policy":{"type":"FailoverRoute","children":["PoolRoute|B","PoolRoute|A"]},"operation_policies":{"delete":{"type":"AllSyncRoute","children":["PoolRoute|A","PoolRoute|B"]}}}}
serve 40
taken 1 => NOT_FOUND\r\nSERVER_ERROR call failed\r\n
taken 8 => delete a\r\n
open 8 => yes"#
}

// It is told what goes wrong, and nothing else.
const LOG: Log = Log {
    level: Level::Error,
    json: false,
};

// What is said of new servers.
#[derive(Clone, Copy, PartialEq, Eq)]
enum New {
    Any,
    Empty,
    Flush,
}

fn new_of(word: &str) -> New {
    match word {
        "empty" => New::Empty,
        "flush" => New::Flush,
        _ => New::Any,
    }
}

fn begun_of(new: New) -> Beginnings {
    let mut begun = Beginnings::any();
    if new != New::Any {
        begun.added = Beginning::Own;
    }
    begun
}

fn settings_of(dialect: ServerDialect, new: New) -> Settings {
    let mut settings = settings(dialect);
    settings.flushes_new = new == New::Flush;
    settings
}

/// No such file is left of a run before.
pub fn remove(rt: &HostRuntime, file: &str) -> Result<(), Fail> {
    match fs::remove_file(rt, file) {
        Err(error) if error.kind() != ErrorKind::NotFound => Err(error)?,
        _ => Ok(()),
    }
}

/// Who asks a loop for numbers, and who tells it things, where it listens for them.
#[derive(Drop)]
pub struct Askers {
    pub watching: Option<Watching>,
    pub controlling: Option<Controlling>,
}

impl Askers {
    /// It listens for none of them.
    pub fn none() -> Askers {
        Askers {
            watching: None,
            controlling: None,
        }
    }
}

// A proxy that is served, and what operates it.
#[derive(Drop)]
struct Served<W: Wire> {
    serving: Serving<W>,
    operating: Operating,
}

/// The program's loop, and how it is told to run.
#[derive(Drop)]
pub struct ServeLoop<'a, W: Wire> {
    rt: &'a HostRuntime,
    // What has its texts.
    file: &'static str,
    // For how long a turn waits in which nothing comes, in milliseconds.
    reload_ms: u32,
    served: Option<Served<W>>,
    dialect: ServerDialect,
    new: New,
    history: Option<&'static str>,
}

// The text begins to be served, after the history that is kept.
fn started_of(rt: &HostRuntime, job: &ServeJob<'_>, text: String) -> Result<Started, Fail> {
    let mut lines = Lines::new(rt.alloc(), job.log);
    let mut said = Vec::new(rt.alloc());
    let mut details = Details::new(rt.alloc());
    match begin(rt, job, text, &mut lines, &mut said, &mut details) {
        Ok(Begun::Started(started)) => Ok(started),
        _ => Err("the text isn't served")?,
    }
}

fn serving_of<W: Wire + Drop>(
    rt: &HostRuntime,
    end: ProxyEnd<W>,
    servers: Servers,
    started: Started,
    askers: Askers,
) -> Result<Served<W>, Fail> {
    let lines = Lines::new(rt.alloc(), Some(LOG));
    let seen = Seen::new(rt.alloc());
    let Askers {
        watching,
        controlling,
    } = askers;
    let serving = Serving::new(end, servers, None, started);
    let operating = Operating::new(rt, &serving, lines, seen, watching, controlling)?;
    Ok(Served { serving, operating })
}

fn serve_text<W: Wire + Drop>(
    rt: &HostRuntime,
    end: ProxyEnd<W>,
    job: &ServeJob<'_>,
    text: String,
    askers: Askers,
) -> Result<Served<W>, Fail> {
    let servers = servers_of(rt.alloc(), text.as_str())?;
    let started = started_of(rt, job, text)?;
    serving_of(rt, end, servers, started, askers)
}

fn begin_serving<W: Wire + Drop>(
    rt: &HostRuntime,
    wire: W,
    job: &ServeJob<'_>,
    text: String,
    askers: Askers,
) -> Result<Served<W>, Fail> {
    let end = begin_end(rt, wire, text.as_str(), job.begun, job.settings)?;
    serve_text(rt, end, job, text, askers)
}

impl<W: Listens> Served<W> {
    // The exit status.
    fn status(&mut self, rt: &HostRuntime, job: &ServeJob<'_>) -> io::Result<u8> {
        match self.serving.tell_and_run(rt, &mut self.operating, job) {
            Ok(status) => Ok(status),
            Err(_) => Err(io::Error::other("it broke off")),
        }
    }

    fn run(&mut self, rt: &HostRuntime, job: &ServeJob<'_>) -> io::Result<()> {
        self.status(rt, job)?;
        Ok(())
    }
}

impl<'a, W: Listens + Drop> ServeLoop<'a, W> {
    /// One that hasn't begun. The file has its texts, and is read again after each turn; a turn in which nothing comes waits for so many
    /// milliseconds.
    pub fn new(rt: &'a HostRuntime, file: &'static str, reload_ms: u32) -> ServeLoop<'a, W> {
        ServeLoop {
            rt,
            file,
            reload_ms,
            served: None,
            dialect: ServerDialect::Classic,
            new: New::Any,
            history: None,
        }
    }

    // So many turns of it.
    fn job(&self, turns: u32) -> ServeJob<'static> {
        ServeJob {
            file: self.file,
            listen: "here",
            unix_mode: 0o600,
            tcp_backlog: 1_024,
            reuse_port: false,
            metrics: None,
            control: None,
            log: Some(LOG),
            drain_ms: 1_000,
            drain_on_eof: false,
            settings: settings_of(self.dialect, self.new),
            keepalive_s: 60,
            resolve_s: 60,
            begun: begun_of(self.new),
            any: false,
            fleet: false,
            certificate: None,
            history: self.history,
            check: false,
            stall_ms: 10_000,
            memory: 1_073_741_824,
            reload_every: Some(1),
            reload_ms: Some(self.reload_ms),
            turns: Some(turns),
        }
    }

    /// The text that the file has.
    pub fn text(&self) -> Result<String, Fail> {
        Ok(fs::read_to_string(self.rt, self.file)?)
    }

    /// It begins by this text, on a wire on which its servers were looked up, and listens for these.
    pub fn begin(&mut self, wire: W, text: String, askers: Askers) -> Result<(), Fail> {
        let job = self.job(0);
        self.served = Some(begin_serving(self.rt, wire, &job, text, askers)?);
        Ok(())
    }

    /// So many turns, if it has begun.
    pub fn serve(&mut self, turns: u32) -> io::Result<()> {
        let rt = self.rt;
        let job = self.job(turns);
        match &mut self.served {
            Some(served) => served.run(rt, &job),
            None => Ok(()),
        }
    }

    /// Turns until it ends, so many at most: the exit status.
    pub fn serve_to_end(&mut self, most: u32) -> Result<u8, Fail> {
        let rt = self.rt;
        let job = self.job(most);
        match &mut self.served {
            Some(served) => Ok(served.status(rt, &job)?),
            None => Err("nothing is served")?,
        }
    }

    /// Its wire, if it has begun.
    pub fn wire(&self) -> Option<&W> {
        match &self.served {
            Some(served) => Some(&served.serving.end().sockets.wire),
            None => None,
        }
    }

    /// How it is told to run, and what its file has.
    pub fn set(&mut self, verb: &str, text: &str) -> Result<(), Fail> {
        match verb {
            "file" => fs::write(self.rt, self.file, text)?,
            "dialects" => self.dialect = ServerDialect::Auto,
            "history" => self.history = Some(HISTORY),
            "new" => self.new = new_of(text),
            _ => return Err("no such event")?,
        }
        Ok(())
    }
}

// The loop of an example over a wire in memory that is being scripted until it begins.
#[derive(Drop)]
struct ScriptedLoop<'a> {
    rt: &'a HostRuntime,
    peers: Peers,
    served: ServeLoop<'a, Memory>,
    // A host whose name leads elsewhere once it has begun.
    moved: Option<String>,
}

fn make_scripted_loop(rt: &HostRuntime) -> ScriptedLoop<'_> {
    ScriptedLoop {
        rt,
        peers: Peers::new(rt.alloc()),
        served: ServeLoop::new(rt, FILE, 1_000),
        moved: None,
    }
}

// The name of this host leads elsewhere from now on, if one is given.
fn with_moved(wire: Memory, moved: &Option<String>) -> Memory {
    let mut wire = wire;
    if let Some(name) = moved {
        wire.moves(name.as_bytes());
    }
    wire
}

impl ScriptedLoop<'_> {
    // The wire, on which the servers of the text were looked up.
    fn take_wire(&mut self, text: &str) -> Result<Memory, Fail> {
        let wire = looked_up(self.rt, self.peers.take()?, text)?;
        Ok(with_moved(wire, &self.moved))
    }

    fn begin_if_new(&mut self) -> Result<(), Fail> {
        if self.served.wire().is_some() {
            return Ok(());
        }
        let text = self.served.text()?;
        let wire = self.take_wire(text.as_str())?;
        self.served.begin(wire, text, Askers::none())
    }

    fn serve(&mut self, turns: u32) -> Result<(), Fail> {
        self.begin_if_new()?;
        Ok(self.served.serve(turns)?)
    }

    fn wire(&self) -> Result<&Memory, Fail> {
        match self.served.wire() {
            Some(wire) => Ok(wire),
            None => Err("nothing is served")?,
        }
    }

    // How many lines the history has.
    fn remembered(&self) -> Result<usize, Fail> {
        let text = fs::read_to_string(self.rt, HISTORY)?;
        Ok(text.as_str().lines().count())
    }

    // Where a name leads, beside the machine that is called.
    fn lead_of(&self, name: &str) -> Result<&'static str, Fail> {
        match self.wire()?.look_again(self.rt, name.as_bytes())? {
            Lead::Same => Ok("there"),
            Lead::First => Ok("somewhere"),
            Lead::Other => Ok("elsewhere"),
        }
    }

    // Whether a server is named beside the history, as one that is to be emptied.
    fn names_some(&self) -> bool {
        match fs::read_to_string(self.rt, TO_EMPTY) {
            Ok(text) => !text.is_empty(),
            Err(_) => false,
        }
    }

    // Events that give nothing.
    fn set(&mut self, verb: &str, text: &str) -> Result<(), Fail> {
        match verb {
            "serve" => self.serve(text.parse::<u32>()?),
            "file" | "dialects" | "history" | "new" => self.served.set(verb, text),
            "moves" => {
                self.moved = Some(text.to_string(self.rt.alloc())?);
                Ok(())
            }
            _ => self.peers.script(verb, text),
        }
    }

    // Whether this was sent to the far end of this name, and nothing else.
    fn took(&self, text: &str) -> Result<bool, Fail> {
        let (name, text) = cut(text);
        let all = bytes_of(self.rt.alloc(), text)?;
        Ok(self.wire()?.taken(name.parse::<u32>()?) == all.as_slice())
    }
}

impl Stage for ScriptedLoop<'_> {
    fn answer(&mut self, event: &str, _want: &str) -> Result<String, Fail> {
        let alloc = self.rt.alloc();
        let (verb, text) = cut(event);
        match verb {
            "taken" => shown(alloc, self.wire()?.taken(text.parse::<u32>()?)),
            "open" => {
                let is_open = self.wire()?.is_open(text.parse::<u32>()?);
                Ok(yes_or_no(is_open).to_string(alloc)?)
            }
            "took" => Ok(yes_or_no(self.took(text)?).to_string(alloc)?),
            "remembered" => Ok(self.remembered()?.to_string(alloc)?),
            "leads" => Ok(self.lead_of(text)?.to_string(alloc)?),
            "named" => Ok(yes_or_no(self.names_some()).to_string(alloc)?),
            _ => {
                self.set(verb, text)?;
                Ok(String::new(alloc))
            }
        }
    }
}

fn play(rt: &HostRuntime, example: &str) -> Result<(), Fail> {
    let (name, lines) = first_line(example);
    let lines = with_configs(rt.alloc(), lines)?;
    play_lines(&mut make_scripted_loop(rt), name, lines.as_str())
}

#[test]
fn loops_in_memory(rt: HostRuntime) -> Result<(), Fail> {
    for example in texts().split("\n\n") {
        remove(&rt, HISTORY)?;
        remove(&rt, TO_EMPTY)?;
        play(&rt, example)?;
    }
    remove(&rt, HISTORY)?;
    remove(&rt, TO_EMPTY)?;
    remove(&rt, FILE)
}
