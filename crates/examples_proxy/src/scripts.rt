//! Ends over a wire in memory.

use examples_memory::acts::put_act;
use examples_memory::{Memory, Peer};
use examples_tables::playing::{Stage, cut, first_line, numbered, play_lines, shown, yes_or_no};
use serve_wire::conn::{Conn, Got, Limits, Sent, turn_away};
use serve_wire::{Accepted, Connected, Ready, Report, Wire};
use std::alloc::{AllocError, Global};
use std::test::Fail;
use std::time::Duration;

// Far ends have names that are numbers, and connections are numbered from 0 as they are made. `peer` begins the script of a far end, which
// then calls at a time or answers a host's next connection.
fn texts() -> &'static str {
    r"Bytes come cut as they are sent and by the piece, and each once.
peer 1
sends abcde
sends fgh
piece 4
calls 0
wait 5 => listener
accept 3 => 0
accept 4 => nobody
wait 5 => client 3 reads writes
read 0 => bytes
held 0 => abcd
read 0 => bytes
held 0 => abcde
readable 0 => no
wait 5 => client 3 reads
read 0 => bytes
read 0 => nothing
held 0 => abcdefgh
-- The clock goes on by what was waited.
wait 5 => nothing
time => 5

A client that is full takes what is left at the next wait, and in all no more than it has room for.
peer 1
window 3
room 5
calls 0
accept 0 => 0
write 0 abcdef
send 0 => bytes
unsent 0 => def
send 0 => nothing
writable 0 => no
wait 1 => client 0 writes
send 0 => bytes
taken 1 => abcde
send 0 => nothing
wait 1 => nothing
unsent 0 => f

A write fails half-way.
peer 1
breaks 4
calls 0
accept 0 => 0
write 0 abcdef
send 0 => bytes
send 0 => failed
taken 1 => abcd
unsent 0 => ef

A server answers what it was asked, and ends.
host a:1
peer 9
awaits 3
sends END
ends
answers a:1
connect 2 a:1 => no address
resolve b:1 => no
resolve a:1 => yes
connect 2 a:1 => 0
connect 2 a:1 => failed
wait 5 => server 2 writes
read 0 => nothing
write 0 get
send 0 => bytes
wait 5 => server 2 reads
read 0 => bytes
held 0 => END
wait 5 => server 2 reads closes
read 0 => ended
close 0
open 9 => no
read 0 => nothing

Far ends come and do things in their time, and one fails.
peer 1
until 20
sends abc
until 30
fails
calls 10
wait none => listener
time => 10
accept 0 => 0
wait none => client 0 writes
wait 50 => client 0 reads
time => 20
read 0 => bytes
wait 50 => client 0 reads writes closes
read 0 => failed
send 0 => nothing
write 0 x
send 0 => failed
wait none => never

Who isn't wanted gets a line.
peer 1
sends get a
calls 0
away => 0
taken 1 => SERVER_ERROR too many clients\r\n
open 1 => no"
}

const LIMITS: Limits = Limits {
    held: 64,
    unsent: 64,
};

// A wire, and the ends of its connections by their numbers.
#[derive(Drop)]
struct WireEnds<'a> {
    rt: &'a HostRuntime,
    wire: Memory,
    ends: Vec<Conn>,
    // Whose script is being written.
    peer: Option<Peer>,
}

fn make_ends(rt: &HostRuntime) -> WireEnds<'_> {
    WireEnds {
        rt,
        wire: Memory::new(rt.alloc()),
        ends: Vec::new(rt.alloc()),
        peer: None,
    }
}

fn got_word(got: Got) -> &'static str {
    match got {
        Got::Bytes => "bytes",
        Got::Nothing => "nothing",
        Got::Full => "full",
        Got::Ended => "ended",
        Got::Failed => "failed",
    }
}

fn sent_word(sent: Sent) -> &'static str {
    match sent {
        Sent::Bytes => "bytes",
        Sent::Nothing => "nothing",
        Sent::Failed => "failed",
    }
}

fn push_ready(out: &mut String, ready: Ready) -> Result<(), AllocError> {
    if ready.reads {
        out.push_str(" reads")?;
    }
    if ready.writes {
        out.push_str(" writes")?;
    }
    if ready.closes {
        out.push_str(" closes")?;
    }
    Ok(())
}

fn push_report(alloc: Global, out: &mut String, report: Report) -> Result<(), AllocError> {
    if !out.is_empty() {
        out.push_str(", ")?;
    }
    match report {
        Report::Listener => out.push_str("listener"),
        Report::Client(id, ready) => {
            out.push_str(format!(in alloc; "client {id}")?.as_str())?;
            push_ready(out, ready)
        }
        Report::Server(server, ready) => {
            out.push_str(format!(in alloc; "server {server}")?.as_str())?;
            push_ready(out, ready)
        }
    }
}

fn limit_of(text: &str) -> Result<Option<Duration>, Fail> {
    if text == "none" {
        return Ok(None);
    }
    Ok(Some(Duration::from_millis(text.parse::<u64>()?)))
}

impl WireEnds<'_> {
    // The script is whole: the far end calls, or answers.
    fn place(&mut self, verb: &str, text: &str) -> Result<(), Fail> {
        let Some(peer) = self.peer.take() else {
            return Err("no peer")?;
        };
        if verb == "calls" {
            self.wire.will_connect(text.parse::<u64>()?, peer)?;
        } else {
            self.wire.will_answer(text.as_bytes(), peer)?;
        }
        Ok(())
    }

    fn script(&mut self, verb: &str, text: &str) -> Result<(), Fail> {
        match &mut self.peer {
            Some(peer) => put_act(self.rt.alloc(), peer, verb, text),
            None => Err("no peer")?,
        }
    }

    fn begin(&mut self, number: usize) -> Result<String, Fail> {
        let alloc = self.rt.alloc();
        self.ends.push(Conn::new(alloc, number, LIMITS))?;
        Ok(format!(in alloc; "{number}")?)
    }

    // Whoever waits is accepted, as this client.
    fn accept(&mut self, client: usize) -> Result<String, Fail> {
        let alloc = self.rt.alloc();
        let number = match self.wire.accept() {
            Accepted::Peer(number) => number,
            Accepted::Gone => return Ok("gone".to_string(alloc)?),
            Accepted::Nobody => return Ok("nobody".to_string(alloc)?),
            Accepted::Refused => return Ok("refused".to_string(alloc)?),
        };
        self.wire.admit(number, client)?;
        self.begin(number)
    }

    fn turn_away(&mut self) -> Result<String, Fail> {
        match self.wire.accept() {
            Accepted::Peer(number) => {
                turn_away(self.rt.alloc(), &mut self.wire, number);
                self.begin(number)
            }
            _ => Err("nobody came")?,
        }
    }

    fn connect(&mut self, text: &str) -> Result<String, Fail> {
        let (server, host) = numbered(text)?;
        match self.wire.connect(self.rt, server, host.as_bytes()) {
            Connected::Begun(number) => self.begin(number),
            Connected::NoAddress => Ok("no address".to_string(self.rt.alloc())?),
            Connected::Failed => Ok("failed".to_string(self.rt.alloc())?),
        }
    }

    fn wait(&mut self, text: &str) -> Result<String, Fail> {
        let alloc = self.rt.alloc();
        let Ok(count) = self.wire.wait(limit_of(text)?) else {
            return Ok("never".to_string(alloc)?);
        };
        let mut out = String::new(alloc);
        for at in 0..count {
            if let Some(report) = self.wire.report(at) {
                push_report(alloc, &mut out, report)?;
            }
        }
        if out.is_empty() {
            out.push_str("nothing")?;
        }
        Ok(out)
    }

    fn time(&mut self) -> Result<String, Fail> {
        let time = self.wire.millis(self.rt)?;
        Ok(format!(in self.rt.alloc(); "{time}")?)
    }

    fn read(&mut self, at: usize) -> Result<&'static str, Fail> {
        match self.ends.get_mut(at) {
            Some(end) => Ok(got_word(end.read_once(&mut self.wire, 8)?)),
            None => Err("no end has this number")?,
        }
    }

    fn send(&mut self, at: usize) -> Result<&'static str, Fail> {
        match self.ends.get_mut(at) {
            Some(end) => Ok(sent_word(end.send_once(&mut self.wire))),
            None => Err("no end has this number")?,
        }
    }

    fn write(&mut self, text: &str) -> Result<&'static str, Fail> {
        let (at, text) = numbered(text)?;
        match self.ends.get_mut(at) {
            Some(end) => {
                end.unsent.text.extend_from_slice(text.as_bytes())?;
                Ok("")
            }
            None => Err("no end has this number")?,
        }
    }

    fn begin_peer(&mut self, text: &str) -> Result<&'static str, Fail> {
        self.peer = Some(Peer::new(self.rt.alloc(), text.parse::<u32>()?));
        Ok("")
    }

    fn held(&self, at: usize) -> Result<String, Fail> {
        match self.ends.get(at) {
            Some(end) => shown(self.rt.alloc(), end.held.as_slice()),
            None => Err("no end has this number")?,
        }
    }

    fn unsent(&self, at: usize) -> Result<String, Fail> {
        match self.ends.get(at) {
            Some(end) => shown(
                self.rt.alloc(),
                end.unsent.to_vec(self.rt.alloc())?.as_slice(),
            ),
            None => Err("no end has this number")?,
        }
    }

    fn flag(&self, verb: &str, at: usize) -> Result<&'static str, Fail> {
        match self.ends.get(at) {
            Some(end) if verb == "readable" => Ok(yes_or_no(end.readable)),
            Some(end) => Ok(yes_or_no(end.writable)),
            None => Err("no end has this number")?,
        }
    }

    // Events that give a word, or nothing.
    fn word(&mut self, verb: &str, text: &str) -> Result<&'static str, Fail> {
        match verb {
            "peer" => self.begin_peer(text),
            "host" => {
                self.wire.add_host(text.as_bytes())?;
                Ok("")
            }
            "calls" | "answers" => {
                self.place(verb, text)?;
                Ok("")
            }
            "resolve" => { Ok(yes_or_no(self.wire.resolve(self.rt, text.as_bytes()).is_ok())) }
            "read" => self.read(text.parse::<usize>()?),
            "send" => self.send(text.parse::<usize>()?),
            "write" => self.write(text),
            "readable" | "writable" => self.flag(verb, text.parse::<usize>()?),
            "open" => Ok(yes_or_no(self.wire.is_open(text.parse::<u32>()?))),
            "close" => {
                self.wire.close(text.parse::<usize>()?);
                Ok("")
            }
            _ => {
                self.script(verb, text)?;
                Ok("")
            }
        }
    }
}

impl Stage for WireEnds<'_> {
    fn answer(&mut self, event: &str, _want: &str) -> Result<String, Fail> {
        let (verb, text) = cut(event);
        match verb {
            "accept" => self.accept(text.parse::<usize>()?),
            "away" => self.turn_away(),
            "connect" => self.connect(text),
            "wait" => self.wait(text),
            "time" => self.time(),
            "held" => self.held(text.parse::<usize>()?),
            "unsent" => self.unsent(text.parse::<usize>()?),
            "taken" => shown(self.rt.alloc(), self.wire.taken(text.parse::<u32>()?)),
            _ => Ok(self.word(verb, text)?.to_string(self.rt.alloc())?),
        }
    }
}

fn play(rt: &HostRuntime, name: &str, lines: &str) -> Result<(), Fail> {
    play_lines(&mut make_ends(rt), name, lines)
}

#[test]
fn wires_in_memory(rt: HostRuntime) -> Result<(), Fail> {
    for example in texts().split("\n\n") {
        let (name, lines) = first_line(example);
        play(&rt, name, lines)?;
    }
    Ok(())
}
