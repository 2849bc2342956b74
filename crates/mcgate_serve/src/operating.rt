//! What operates a proxy that runs: its lines, what is kept of its servers, who asks it for numbers
//! and tells it things, and what is due. Nothing is promised of it. A method is given only the
//! parts of the proxy that it reads or changes: so all else stays as it was, and no clause says so.

use crate::names::Names;
use crate::seen::Seen;
use crate::serving::Serving;
use crate::watching::Watching;
use mcgate_ends::serve_job::ServeJob;
use mcgate_notes::client_news::{tell_refused, tell_unaccepted};
use mcgate_notes::controlling::Controlling;
use mcgate_notes::draining::Draining;
use mcgate_notes::input_end::InputEnd;
use mcgate_notes::lines::Lines;
use mcgate_notes::outages::Outages;
use mcgate_notes::process_news::{
    tell_control, tell_if_any, tell_if_giving_up, tell_if_new, tell_metrics, tell_serving,
    tell_unwatched,
};
use route_json::addresses::Servers;
use serve_proxy::ProxyEnd;
use serve_wire::{Listens, Wire};
use std::io;
use std::net::Net;
use std::rt::{Clock, Files};
use std::time::{Duration, Instant};

/// What operates a proxy that runs.
#[derive(Drop)]
pub struct Operating {
    pub(crate) lines: Lines,
    pub(crate) outages: Outages,
    /// When servers' names were looked up.
    pub(crate) names: Names,
    pub(crate) seen: Seen,
    /// Who asks for numbers, where it listens for them.
    pub(crate) watching: Option<Watching>,
    /// Who tells it things, where it listens for them.
    pub(crate) controlling: Option<Controlling>,
    /// Standard input, where it drains once that has ended.
    pub(crate) input: Option<InputEnd>,
    /// Since when it drains, if it does.
    pub(crate) draining: Option<Draining>,
    /// What the file had since the text in use, where that wasn't loaded.
    pub(crate) refused: Option<String>,
    // When the file was read last.
    since: Instant,
    // How many turns ago.
    turns: u32,
}

// The lesser of two, where there are two.
fn earlier(a: Option<u64>, b: Option<u64>) -> Option<u64> {
    match (a, b) {
        (Some(a), Some(b)) => Some(a.min(b)),
        (a, None) => a,
        (None, b) => b,
    }
}

impl Operating {
    /// What operates this proxy, which runs since now, and of which this was seen.
    pub fn new<R: Clock + AllocGlobal, W: Wire>(
        rt: &R,
        serving: &Serving<W>,
        lines: Lines,
        seen: Seen,
        watching: Option<Watching>,
        controlling: Option<Controlling>,
    ) -> io::Result<Operating> {
        let mut seen = seen;
        seen.config.generation = u64::from(serving.number());
        seen.note_in_use(serving.text.as_str());
        Ok(Operating {
            lines,
            outages: Outages::new(rt.alloc()),
            names: Names::of(rt.alloc(), &serving.servers),
            seen,
            watching,
            controlling,
            input: None,
            draining: None,
            refused: None,
            since: Instant::now(rt)?,
            turns: 0,
        })
    }

    /// Tells that it listens by this wire, and with a tree of which no gate was asked what that
    /// means. So many servers are in use, by the generation of this number.
    pub(crate) fn tell_start<R: Net + AllocGlobal + Eprint, W: Listens>(
        &mut self,
        rt: &R,
        job: &ServeJob<'_>,
        wire: &W,
        servers: usize,
        generation: u32,
    ) -> io::Result<()> {
        tell_if_any(rt, &mut self.lines, job);
        let address = wire.listens_at();
        tell_serving(rt, &mut self.lines, job, address, servers, generation);
        tell_if_new(rt, &mut self.lines, job);
        tell_if_giving_up(rt, &mut self.lines, job);
        self.begin_watching(rt, wire)?;
        self.begin_controlling(rt, wire)?;
        self.watch_input(rt, job, wire)
    }

    // From now on the wire wakes up for who asks for numbers, where it listens for them, which is
    // told.
    fn begin_watching<R: Eprint, W: Listens>(&mut self, rt: &R, wire: &W) -> io::Result<()> {
        let Some(watching) = &self.watching else {
            return Ok(());
        };
        wire.wake_up_by(watching.descriptor())?;
        let address = watching.local_addr()?;
        tell_metrics(rt, &mut self.lines, address);
        Ok(())
    }

    // From now on the wire wakes up for who tells it things, where it listens for them, which is
    // told.
    fn begin_controlling<R: Eprint, W: Listens>(&mut self, rt: &R, wire: &W) -> io::Result<()> {
        let Some(controlling) = &self.controlling else {
            return Ok(());
        };
        wire.wake_up_by(controlling.descriptor())?;
        tell_control(rt, &mut self.lines, controlling.path());
        Ok(())
    }

    // From now on the wire wakes up for the end of standard input, where it drains then. Where that
    // can't be watched, a line tells why.
    fn watch_input<R: Net + AllocGlobal + Eprint, W: Listens>(
        &mut self,
        rt: &R,
        job: &ServeJob<'_>,
        wire: &W,
    ) -> io::Result<()> {
        if !job.drain_on_eof {
            return Ok(());
        }
        match InputEnd::watch(rt) {
            Ok(input) => {
                wire.wake_up_by(input.descriptor())?;
                self.input = Some(input);
                Ok(())
            }
            Err(error) => {
                tell_unwatched(rt, &mut self.lines, &error);
                Err(error)
            }
        }
    }

    /// Who asks for numbers gets them, if there is somebody. Where the system doesn't tell, nothing
    /// is done.
    pub(crate) fn turn_watching<R: Files + Clock + AllocGlobal, W: Listens>(
        &mut self,
        rt: &R,
        end: &ProxyEnd<W>,
        servers: &Servers,
        text: &str,
    ) {
        let is_woken = end.sockets.wire.is_woken();
        let lost_lines = self.lines.lost();
        if let Some(watching) = &mut self.watching {
            if is_woken || watching.is_due(rt) {
                let _ = watching.turn(rt, end, servers, &self.seen, lost_lines, text);
            }
        }
    }

    /// One more turn begins.
    pub(crate) fn count_turn(&mut self) {
        self.turns = self.turns.saturating_add(1);
    }

    /// The file is read now.
    pub(crate) fn begin_look<R: Clock>(&mut self, rt: &R) -> io::Result<()> {
        self.turns = 0;
        self.since = Instant::now(rt)?;
        Ok(())
    }

    fn millis<R: Clock>(&self, rt: &R) -> io::Result<u64> {
        let millis = self.since.elapsed(rt)?.as_millis();
        Ok(u64::try_from(millis).unwrap_or(u64::MAX))
    }

    /// Whether the file is to be read again.
    pub(crate) fn is_due<R: Clock>(&self, rt: &R, job: &ServeJob<'_>) -> io::Result<bool> {
        if let Some(every) = job.reload_every {
            if every <= self.turns {
                return Ok(true);
            }
        }
        match job.reload_ms {
            None => Ok(false),
            Some(reload_ms) => Ok(u64::from(reload_ms) <= self.millis(rt)?),
        }
    }

    /// How long a turn may wait: until the file is to be read again, or who asked for numbers is to
    /// be closed.
    pub(crate) fn most_wait<R: Clock>(
        &self,
        rt: &R,
        job: &ServeJob<'_>,
    ) -> io::Result<Option<Duration>> {
        let until_watched = match &self.watching {
            Some(watching) => watching.rest(rt)?,
            None => None,
        };
        let until_read = match job.reload_ms {
            Some(reload_ms) => Some(u64::from(reload_ms).saturating_sub(self.millis(rt)?)),
            None => None,
        };
        let until_told = match &self.controlling {
            Some(controlling) => controlling.rest(rt)?,
            None => None,
        };
        let until_drained = match &self.draining {
            Some(draining) => Some(draining.rest(rt)?),
            None => None,
        };
        let until = earlier(
            earlier(until_watched, until_read),
            earlier(until_told, until_drained),
        );
        Ok(until.map(Duration::from_millis))
    }

    /// Tells how many weren't taken that came.
    pub(crate) fn tell_untaken<R: Eprint, W: Wire>(&mut self, rt: &R, end: &ProxyEnd<W>) {
        let now = end.sockets.wire.last_millis();
        self.tell_refused(rt, end.core_tally().refused, now);
        self.tell_unaccepted(rt, end.sockets.tally.unaccepted, now)
    }

    // Tells how often the system refused to accept a connection, of so often in all.
    fn tell_unaccepted<R: Eprint>(&mut self, rt: &R, unaccepted: u64, now: u64) {
        if let Some(count) = self.seen.next_unaccepted(unaccepted, now) {
            tell_unaccepted(rt, &mut self.lines, count);
        }
    }

    // Tells how many clients were turned away, as there were too many, of so many in all.
    fn tell_refused<R: Eprint>(&mut self, rt: &R, refused: u64, now: u64) {
        if let Some(count) = self.seen.next_refused(refused, now) {
            tell_refused(rt, &mut self.lines, count);
        }
    }
}
