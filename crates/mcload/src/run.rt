//! The clients' connections, in turns: who is ready is read and answered commands are counted, and then each sends new ones.

use crate::LoadStop;
use crate::arguments::LoadSettings;
use crate::commands::{Answer, Codec};
use crate::plan::Plan;
use crate::tally::{Asked, LoadTally};
use serve_wire::conn::{Conn, Got, Limits, Sent};
use serve_wire::sockets::Sockets;
use serve_wire::{Connected, Report, Wire};
use std::alloc::Global;
use std::collections::VecDeque;
use std::io;
use std::net::Net;
use std::rt::Clock;
use std::time::{Duration, Instant};

// The room of one read, in bytes.
const READ_ROOM: usize = 65_536;

// So many reads and writes are made of a client in a turn.
const STEPS: usize = 64;

// More than one answer and what one read can bring.
const LIMITS: Limits = Limits {
    held: 4_194_304,
    unsent: 1_048_576,
};

// So long is waited for the last answers, in nanoseconds.
const LAST: u64 = 5_000_000_000;

/// A client.
#[derive(Drop)]
struct Peer {
    conn: Conn,
    // Its commands under way, the oldest first.
    asked: VecDeque<Asked>,
    // When it connects anew, in nanoseconds since the start, if its connection was lost.
    again: Option<u64>,
}

impl Peer {
    fn new(alloc: Global, number: usize) -> Peer {
        let mut conn = Conn::new(alloc, number, LIMITS);
        conn.readable = false;
        conn.writable = false;
        Peer {
            conn,
            asked: VecDeque::new(alloc),
            again: None,
        }
    }

    // Its connection was lost: nothing is done on it, until it connects anew at this time.
    fn lose(&mut self, wire: &mut Sockets, again: u64) {
        wire.close(self.conn.number);
        self.conn.readable = false;
        self.conn.writable = false;
        self.again = Some(again);
    }

    // Whether it connects anew now.
    fn is_due(&self, now: u64) -> bool {
        match self.again {
            Some(again) => again <= now,
            None => false,
        }
    }

    // Whether a read or a write may do something now.
    fn has_work(&self) -> bool {
        self.conn.readable || (self.conn.writable && !self.conn.unsent.is_empty())
    }

    // Whether it still has to send some of what it asked, or takes no more now.
    fn is_full(&self, depth: u64) -> bool {
        !self.conn.writable || self.asked.len() as u64 >= depth
    }

    // One read. Whether the connection stands.
    fn read(&mut self, wire: &mut Sockets) -> Result<bool, LoadStop> {
        if !self.conn.readable {
            return Ok(true);
        }
        match self.conn.read_once(wire, READ_ROOM)? {
            Got::Bytes | Got::Nothing => Ok(true),
            Got::Full | Got::Ended | Got::Failed => Ok(false),
        }
    }

    // Whether the connection stands.
    fn send(&mut self, wire: &mut Sockets) -> bool {
        for _ in 0..STEPS {
            if !self.conn.writable {
                return true;
            }
            match self.conn.send_once(wire) {
                Sent::Bytes => {}
                Sent::Nothing => return true,
                Sent::Failed => return false,
            }
        }
        true
    }
}

/// The clients and what came of their commands.
#[derive(Drop)]
struct LoadRun<'a> {
    settings: LoadSettings<'a>,
    wire: Sockets,
    peers: Vec<Peer>,
    codec: Codec,
    plan: Plan,
    tally: LoadTally,
    start: Instant,
    // In nanoseconds since the start.
    now: u64,
    begun: u64,
    has_work: bool,
}

// A connection of this client is begun: its number.
fn connect<N: Net>(
    net: &N,
    wire: &mut Sockets,
    address: &str,
    id: usize,
) -> Result<usize, LoadStop> {
    match wire.connect(net, id, address.as_bytes()) {
        Connected::Begun(number) => Ok(number),
        Connected::NoAddress | Connected::Failed => Err(LoadStop::Failed),
    }
}

fn connect_all<R: Net + AllocGlobal>(
    rt: &R,
    wire: &mut Sockets,
    settings: LoadSettings<'_>,
) -> Result<Vec<Peer>, LoadStop> {
    let mut peers = Vec::new(rt.alloc());
    for id in 0..settings.clients as usize {
        let number = connect(rt, wire, settings.address, id)?;
        if peers.push(Peer::new(rt.alloc(), number)).is_err() {
            return Err(LoadStop::Failed);
        }
    }
    Ok(peers)
}

impl<'a> LoadRun<'a> {
    fn new<R: Net + Clock + AllocGlobal>(
        rt: &R,
        settings: LoadSettings<'a>,
    ) -> Result<LoadRun<'a>, LoadStop> {
        let alloc = rt.alloc();
        let mut wire = Sockets::listen_by(rt, Vec::new(alloc))?;
        wire.resolve(rt, settings.address.as_bytes())?;
        let peers = connect_all(rt, &mut wire, settings)?;
        Ok(LoadRun {
            settings,
            wire,
            peers,
            codec: Codec::new(alloc, settings.size)?,
            plan: Plan::new(settings),
            tally: LoadTally::new(alloc, settings)?,
            start: Instant::now(rt)?,
            now: 0,
            begun: 0,
            has_work: false,
        })
    }

    fn look_at_clock<R: Clock>(&mut self, rt: &R) -> io::Result<()> {
        let nanos = self.start.elapsed(rt)?.as_nanos();
        self.now = u64::try_from(nanos).unwrap_or(u64::MAX);
        Ok(())
    }

    fn note_all(&mut self, reports: usize) {
        for at in 0..reports {
            if let Some(Report::Server(id, ready)) = self.wire.report(at) {
                if let Some(peer) = self.peers.get_mut(id) {
                    peer.conn.note(ready);
                }
            }
        }
    }

    // The answers of a client that are whole are counted.
    fn settle(&mut self, id: usize) -> Result<(), LoadStop> {
        let Some(peer) = self.peers.get_mut(id) else {
            return Ok(());
        };
        for _ in 0..peer.asked.len() {
            let Some(asked) = peer.asked.front().copied() else {
                break;
            };
            let Some((answer, len)) = self.codec.read(peer.conn.held.as_slice(), asked.command)?
            else {
                return Ok(());
            };
            peer.asked.pop_front();
            peer.conn.held.advance(len.min(peer.conn.held.len()));
            self.tally.end(asked, answer, self.now)?;
        }
        if peer.asked.is_empty() && !peer.conn.held.is_empty() {
            return Err(LoadStop::WrongAnswer);
        }
        Ok(())
    }

    // Whether new commands begin.
    fn is_going_on(&self) -> bool {
        self.begun < self.settings.commands
            && self.now < self.settings.seconds.saturating_mul(1_000_000_000)
    }

    // New commands of a client, as many as it may have under way.
    fn ask(&mut self, id: usize) -> Result<(), LoadStop> {
        for _ in 0..self.settings.depth {
            if !self.is_going_on() {
                break;
            }
            self.ask_once(id)?;
        }
        Ok(())
    }

    fn ask_once(&mut self, id: usize) -> Result<(), LoadStop> {
        let Some(peer) = self.peers.get_mut(id) else {
            return Ok(());
        };
        if peer.is_full(self.settings.depth) {
            return Ok(());
        }
        let command = self.plan.next();
        let asked = self.tally.begin(command, self.now);
        self.codec.write(&mut peer.conn.unsent.text, command)?;
        if peer.asked.push_back(asked).is_err() {
            return Err(LoadStop::Failed);
        }
        self.begun = self.begun.saturating_add(1);
        Ok(())
    }

    // The connection of a client was lost: what it asked counts as errors, and it connects anew later, if it is to.
    fn lose(&mut self, id: usize) -> Result<(), LoadStop> {
        let again_ms = self.settings.again_ms.ok_or(LoadStop::Lost)?;
        let Some(peer) = self.peers.get_mut(id) else {
            return Ok(());
        };
        let again = self.now.saturating_add(again_ms.saturating_mul(1_000_000));
        peer.lose(&mut self.wire, again);
        for _ in 0..peer.asked.len() {
            if let Some(asked) = peer.asked.pop_front() {
                self.tally.end(asked, Answer::Error, self.now)?;
            }
        }
        Ok(())
    }

    // A client connects anew, if its time has come.
    fn connect_again<R: Net + AllocGlobal>(&mut self, rt: &R, id: usize) -> Result<(), LoadStop> {
        let Some(peer) = self.peers.get_mut(id) else {
            return Ok(());
        };
        if !peer.is_due(self.now) {
            return Ok(());
        }
        match connect(rt, &mut self.wire, self.settings.address, id) {
            Ok(number) => *peer = Peer::new(rt.alloc(), number),
            Err(_) => return self.lose(id),
        }
        Ok(())
    }

    fn read_some<R: Clock>(&mut self, rt: &R, id: usize) -> Result<(), LoadStop> {
        for _ in 0..STEPS {
            let Some(peer) = self.peers.get_mut(id) else {
                break;
            };
            if !peer.conn.readable {
                break;
            }
            if !peer.read(&mut self.wire)? {
                return self.lose(id);
            }
            self.look_at_clock(rt)?;
            self.settle(id)?;
        }
        Ok(())
    }

    fn send(&mut self, id: usize) -> Result<(), LoadStop> {
        let Some(peer) = self.peers.get_mut(id) else {
            return Ok(());
        };
        if !peer.send(&mut self.wire) {
            return self.lose(id);
        }
        self.has_work = self.has_work || peer.has_work();
        Ok(())
    }

    fn turn<R: Net + Clock + AllocGlobal>(&mut self, rt: &R) -> Result<(), LoadStop> {
        let limit = if self.has_work { 0 } else { 100 };
        let reports = self.wire.wait(Some(Duration::from_millis(limit)))?;
        self.note_all(reports);
        self.look_at_clock(rt)?;
        self.has_work = false;
        for id in 0..self.peers.len() {
            self.connect_again(rt, id)?;
            self.read_some(rt, id)?;
            self.ask(id)?;
            self.send(id)?;
        }
        Ok(())
    }

    // Whether all that began is answered, or has taken too long.
    fn is_over(&self) -> bool {
        let limit = self.settings.seconds.saturating_mul(1_000_000_000);
        !self.is_going_on()
            && (self.begun <= self.tally.counts.all() || self.now > limit.saturating_add(LAST))
    }

    fn print<R: Print>(&mut self, rt: &R) -> io::Result<()> {
        self.tally.latencies.sort();
        let counts = self.tally.counts;
        let commands = counts.all();
        let rate = u128::from(commands) * 1_000_000_000 / u128::from(self.now.max(1));
        println!(rt;
            "commands={commands} nanos={} rate={rate} p50={} p99={} hits={} misses={} stored={} deleted={} errors={} stale={}",
            self.now,
            self.tally.latencies.percentile(50),
            self.tally.latencies.percentile(99),
            counts.hits,
            counts.misses,
            counts.stored,
            counts.deleted,
            counts.errors,
            self.tally.freshness.stale()
        )
    }
}

/// Runs what is asked for, and prints a line of what came of it. The times are nanoseconds, the rate commands a second.
pub fn run_job<R: Net + Clock + AllocGlobal + Print>(
    rt: &R,
    settings: LoadSettings<'_>,
) -> Result<(), LoadStop> {
    let mut run = LoadRun::new(rt, settings)?;
    for _ in 0..u64::MAX {
        run.turn(rt)?;
        if run.is_over() {
            break;
        }
    }
    run.print(rt)?;
    Ok(())
}
