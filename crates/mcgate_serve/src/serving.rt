//! A proxy that runs: its end, the configuration in use and what is remembered of those before it,
//! of which something is promised. What operates it stands in `operating.rt`: lines, names, numbers
//! and orders. How configurations are loaded stands in `loading.rt`, and how it is told what to do
//! in `orders.rt`.

ghost use Rattle.std.specs.Prelude.{◌≡◌, ◌≤◌, OnOk, string_bytes};
ghost use Rattle.serve_links.specs.Story.{servers_of};
ghost use Rattle.serve_links.specs.Lateness.{usual_limits};
ghost use Rattle.serve_proxy.specs.Ends.{Stay, StayButLimits, AllGoOn};
ghost use Rattle.serve_proxy.specs.Limiting.{text_limits, AreLimited};
ghost use Rattle.core_accepted.specs.Logs.{TreesAreSound};
ghost use Rattle.serve_proxy.specs.LogsGoOn.{LogsAreFresh};
ghost use Rattle.serve_proxy.specs.Stalls.{held_by_all};
ghost use Rattle.mcgate_serve.specs.Limits.{ServesByTexts, ServesFrom};

use crate::emptying::{Emptying, mark_emptying, settle_emptying};
use crate::operating::Operating;
use crate::started::Started;
use mcgate_ends::ends::Stop;
use mcgate_ends::serve_job::ServeJob;
use mcgate_lines::status::DONE;
use mcgate_notes::draining::Draining;
use mcgate_notes::remembering::Kept;
use route_json::Config;
use route_json::addresses::Servers;
use serde_json::Value;
use serve_proxy::{ProxyEnd, Sockets};
use serve_wire::{Listens, Wire};
use std::alloc::Global;
use std::io;
use std::net::Net;
use std::rt::{Clock, Files};

/// A proxy that runs.
#[derive(Drop)]
pub struct Serving<W: Wire> {
    pub(crate) end: ProxyEnd<W>,
    /// The servers in use.
    pub(crate) servers: Servers,
    /// What says the configuration in use.
    pub(crate) text: String,
    /// The configuration in use, where the proxy is one of a fleet.
    pub(crate) in_use: Option<Config>,
    /// Its generation, counted from the first one of this run.
    pub(crate) generation: u32,
    /// How many generations there were before the first one, where a history is kept.
    pub(crate) before: u32,
    /// The history, where one is kept.
    pub(crate) memory: Option<Kept>,
    /// Servers that are to be emptied before their first call.
    pub(crate) emptying: Option<Emptying>,
    /// Whether no server waits until those of earlier epochs at its address have no calls any more.
    pub(crate) have_begun: bool,
}

// How many generations there were before the last one.
fn before_of(memory: &Option<Kept>) -> u32 {
    match memory {
        None => 0,
        Some(kept) => u32::try_from(kept.count()).unwrap_or(0).saturating_sub(1),
    }
}

// Each server gets the limits that its pools say in the text.
fn limit_servers<W: Wire>(
    alloc: Global,
    job: &ServeJob<'_>,
    sockets: &mut Sockets<W>,
    text: &str,
) -> Result<(), Stop>
    ensures limited { OnOk result (AreLimited (text_limits (usual_limits job.now.settings) text.now) (servers_of sockets.new.links.all.items)) }
    ensures ends { StayButLimits W.history sockets.old sockets.new }
{
    match Value::from_str(alloc, text) {
        Ok(said) => {
            sockets.limit(job.settings.link_limits(), &said);
            Ok(())
        }
        Err(_) => Err(Stop::Memory),
    }
}

// Servers are emptied that are to be, and calls go to each while its epoch lasts.
fn keep_epochs<W: Wire>(
    sockets: &mut Sockets<W>,
    servers: &Servers,
    emptying: &Option<Emptying>,
    have_begun: &mut bool,
)
    ensures { Stay W.history sockets.old sockets.new }
{
    if *have_begun {
        return;
    }
    mark_emptying(sockets, servers, emptying);
    *have_begun = sockets.keep_epochs(servers);
}

impl<W: Wire> Serving<W> {
    /// Of this end, by a configuration of these servers, which starts so. Where the proxy is one of
    /// a fleet the configuration is given.
    pub fn new(
        end: ProxyEnd<W>,
        servers: Servers,
        in_use: Option<Config>,
        started: Started,
    ) -> Serving<W>
        ensures end { result.end ≡ end }
        ensures in_use { result.in_use ≡ in_use }
        ensures text { result.text ≡ started.text }
    {
        let (text, memory) = started.into_parts();
        let before = before_of(&memory);
        Serving {
            end,
            servers,
            text,
            in_use,
            generation: 1,
            before,
            memory,
            emptying: None,
            have_begun: false,
        }
    }

    /// Its end.
    pub fn end(&self) -> &ProxyEnd<W>
        ensures { result.now ≡ self.now.end }
    {
        &self.end
    }

    /// The number of the generation in use, where those of runs before are counted too.
    pub fn number(&self) -> u32 {
        self.generation.saturating_add(self.before)
    }

    /// Where the gate accepted its trees, they are sound, and each log that may have led to its
    /// core is fresh. A law: it does nothing.
    pub fn logs_are_fresh(&self)
        ensures fresh { LogsAreFresh self.now.end.core.value }
        ensures sound { TreesAreSound self.now.end.core.value }
    {
        self.end.logs_are_fresh();
    }

    // One turn, which doesn't wait longer than until something else is due. After it no more is
    // held for all clients than the job's memory.
    #[tactic(auto, using(crate::proofs::Loads::goes_still))]
    fn turn<R: Net + Clock>(
        &mut self,
        rt: &R,
        operating: &mut Operating,
        job: &ServeJob<'_>,
    ) -> io::Result<()>
        ensures ends { AllGoOn W.history self.old.end.core.value self.old.end.sockets self.new.end.core.value self.new.end.sockets }
        ensures bounded { OnOk result (held_by_all self.new.end.sockets.clients ≤ job.now.memory) }
    {
        operating.count_turn();
        self.end.bound_clients(job.stall_ms, job.memory);
        match operating.most_wait(rt, job)? {
            Some(most) => self.end.turn_within(rt, most),
            None => self.end.turn(rt),
        }
    }

    // Whether it drains, if it does so, and all clients are gone or its time is up. While it
    // drains, clients go of which nothing is under way.
    #[tactic(auto, using(crate::proofs::Loads::goes_still))]
    fn has_drained<R: Clock>(&mut self, rt: &R, draining: Option<Draining>) -> io::Result<bool>
        ensures ends { AllGoOn W.history self.old.end.core.value self.old.end.sockets self.new.end.core.value self.new.end.sockets }
    {
        let Some(draining) = draining else {
            return Ok(false);
        };
        let rest = draining.rest(rt)?;
        if rest == 0 || self.end.sockets.clients.count() == 0 {
            return Ok(true);
        }
        self.end.end_quiet();
        Ok(false)
    }

    // What is done after the last turn: what was held back goes to clients, and who waits for the
    // end is told that it has come.
    fn end_all<R: Files + AllocGlobal + Eprint>(&mut self, rt: &R, operating: &mut Operating) -> u8
        ensures ends { AllGoOn W.history self.old.end.core.value self.old.end.sockets self.new.end.core.value self.new.end.sockets }
    {
        self.end.end_turns();
        operating.end_controlling(rt, self.end.sockets.clients.count());
        DONE
    }
}

impl<W: Listens> Serving<W> {
    /// Tells that it listens, and then turns it as often as is asked; what happens to servers is
    /// told, and the file is read again, when that is due. The answer is the exit status.
    pub fn tell_and_run<R: Files + Input + Net + Clock + AllocGlobal + Print + Eprint>(
        &mut self,
        rt: &R,
        operating: &mut Operating,
        job: &ServeJob<'_>,
    ) -> Result<u8, Stop>
        ensures ends { ServesFrom W.history job.now.settings (string_bytes self.old.text) self.old.end self.new.end }
    {
        limit_servers(rt.alloc(), job, &mut self.end.sockets, self.text.as_str())?;
        let (servers, generation) = (self.servers.len(), self.number());
        operating.tell_start(rt, job, &self.end.sockets.wire, servers, generation)?;
        self.run(rt, operating, job)
    }

    // Turns it as often as is asked, or until it has drained; what happens to servers is told, and
    // the file is read again, when that is due. The answer is the exit status.
    fn run<R: Files + Input + Net + Clock + AllocGlobal + Print + Eprint>(
        &mut self,
        rt: &R,
        operating: &mut Operating,
        job: &ServeJob<'_>,
    ) -> Result<u8, Stop>
        ensures ends { ServesByTexts W.history job.now.settings self.old.end self.new.end }
    {
        let emptying = Emptying::read(rt, job.history, job.settings.flushes_new)?;
        self.emptying = Some(emptying);
        keep_epochs(
            &mut self.end.sockets,
            &self.servers,
            &self.emptying,
            &mut self.have_begun,
        );
        self.run_turns(rt, operating, job)?;
        Ok(self.end_all(rt, operating))
    }

    // As many turns as are asked, or until it has drained.
    fn run_turns<R: Files + Input + Net + Clock + AllocGlobal + Print + Eprint>(
        &mut self,
        rt: &R,
        operating: &mut Operating,
        job: &ServeJob<'_>,
    ) -> Result<(), Stop>
        ensures ends { ServesByTexts W.history job.now.settings self.old.end self.new.end }
    {
        for _ in 0..job.turns.map_or(u64::MAX, u64::from) {
            self.turn(rt, operating, job)?;
            let is_last = self.end_turn(rt, operating, job)?;
            if is_last {
                return Ok(());
            }
        }
        Ok(())
    }

    // What is done after a turn: whether that was the last one.
    #[tactic(auto, using(crate::proofs::Loads::serves_still))]
    fn end_turn<R: Files + Input + Net + Clock + AllocGlobal + Print + Eprint>(
        &mut self,
        rt: &R,
        operating: &mut Operating,
        job: &ServeJob<'_>,
    ) -> Result<bool, Stop>
        ensures ends { ServesByTexts W.history job.now.settings self.old.end self.new.end }
    {
        operating.lines.look(rt);
        operating.tell_news(rt, &mut self.end.sockets, &self.servers);
        operating.tell_untaken(rt, &self.end);
        operating.look_names(
            rt,
            job,
            &mut self.end.sockets,
            &self.servers,
            &mut self.emptying,
        );
        settle_emptying(
            rt,
            &mut operating.lines,
            &mut self.emptying,
            &self.end.sockets,
            &self.servers,
        );
        self.look_if_due(rt, operating, job)?;
        operating.turn_watching(rt, &self.end, &self.servers, self.text.as_str());
        self.take_orders(rt, operating, job)?;
        keep_epochs(
            &mut self.end.sockets,
            &self.servers,
            &self.emptying,
            &mut self.have_begun,
        );
        Ok(self.has_drained(rt, operating.draining)?)
    }
}
