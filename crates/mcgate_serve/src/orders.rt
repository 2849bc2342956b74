//! What a proxy that runs is told: it answers, drains, or reads its file again.

ghost use Rattle.serve_proxy.specs.Ends.{Stay};
ghost use Rattle.mcgate_serve.specs.Limits.{ServesByTexts};

use crate::loading::regular_text;
use crate::operating::Operating;
use crate::serving::Serving;
use crate::watching::{Times, stats_of, write_servers};
use mc_types::Key;
use mcgate_ends::details::Details;
use mcgate_ends::ends::{Stop, find_in_text};
use mcgate_ends::input_text::InputFault;
use mcgate_ends::logs::level_of;
use mcgate_ends::serve_job::ServeJob;
use mcgate_notes::draining::Draining;
use mcgate_notes::process_news::{tell_drained, tell_draining};
use route_json::addresses::Servers;
use serve_proxy::{ProxyEnd, Sockets};
use serve_wire::{Listens, Wire};
use std::alloc::{AllocError, Global};
use std::io;
use std::net::Net;
use std::rt::{Clock, Files};
use watch_admin::control::answers::Ruling;
use watch_admin::control::requests::{Request, request_of};
use watch_admin::places::PLACES;

// What is answered where a text was to be loaded and there is none, for these reasons.
fn failed_answer(alloc: Global, details: &Details) -> Result<String, AllocError> {
    let why = match details.lines() {
        [why, ..] => why.as_str(),
        [] => "FILE can't be read",
    };
    let why = why.strip_prefix("mcgate: ").unwrap_or(why);
    format!(in alloc; "reload failed: {why}\n")
}

impl Operating {
    // It drains once standard input has ended, where that is asked.
    #[tactic(auto, using(crate::proofs::Loads::stays_still))]
    fn drain_at_end<R: Input + Clock + Eprint, W: Listens>(
        &mut self,
        rt: &R,
        job: &ServeJob<'_>,
        sockets: &mut Sockets<W>,
    ) -> Result<(), Stop>
        ensures { Stay W.history sockets.old sockets.new }
    {
        if self.has_input_ended(rt, sockets.wire.is_woken()) {
            return self.begin_draining(rt, job, sockets);
        }
        Ok(())
    }

    // Whether standard input has ended, where that is asked.
    fn has_input_ended<R: Input>(&mut self, rt: &R, is_woken: bool) -> bool {
        match &mut self.input {
            Some(input) if is_woken => input.has_ended(rt),
            _ => false,
        }
    }

    fn turn_controlling<R: Clock>(&mut self, rt: &R, is_woken: bool) {
        if let Some(controlling) = &mut self.controlling {
            controlling.turn(rt, is_woken);
        }
    }

    fn next_line(&mut self) -> Option<(usize, Vec<u8>)> {
        match &mut self.controlling {
            Some(controlling) => controlling.next_line(),
            None => None,
        }
    }

    fn answer(&mut self, place: usize, verdict: Ruling, text: &[u8]) {
        if let Some(controlling) = &mut self.controlling {
            controlling.answer(place, verdict, text);
        }
    }

    // The one at this place is answered by this text, where it was written, or that memory was
    // refused for it.
    fn answer_written(&mut self, place: usize, written: io::Result<()>, text: &[u8]) {
        match written {
            Ok(()) => self.answer(place, Ruling::Done, text),
            Err(_) => self.answer(place, Ruling::Failed, b"out of memory\n"),
        }
    }

    // The one at this place is answered that nothing is loaded, for these reasons.
    fn answer_failed(&mut self, alloc: Global, place: usize, details: &Details) {
        match failed_answer(alloc, details) {
            Ok(told) => self.answer(place, Ruling::Failed, told.as_bytes()),
            Err(_) => self.answer(place, Ruling::Failed, b"out of memory\n"),
        }
    }

    // Lines of a level of this name and more urgent ones are written from now on.
    fn set_level(&mut self, place: usize, name: &[u8]) {
        match level_of(std::str::from_utf8(name).unwrap_or("")) {
            Some(level) => {
                self.lines.set_level(level);
                self.answer(place, Ruling::Done, b"log level set\n");
            }
            None => self.answer(place, Ruling::Unknown, b"no such level\n"),
        }
    }

    // The numbers that it counts, as a text.
    fn stats<R: Files + Clock + AllocGlobal, W: Wire>(
        &self,
        rt: &R,
        end: &ProxyEnd<W>,
        servers: &Servers,
    ) -> io::Result<Vec<u8>> {
        let uptime_ms = match &self.controlling {
            Some(controlling) => controlling.uptime(rt)?,
            None => 0,
        };
        let scrapes = match &self.watching {
            Some(watching) => watching.answered(),
            None => 0,
        };
        let times = Times {
            uptime_ms,
            scrapes,
            lost_lines: self.lines.lost(),
        };
        stats_of(rt, end, servers, &self.seen, times)
    }

    fn tell_status<R: Files + Clock + AllocGlobal, W: Wire>(
        &mut self,
        rt: &R,
        end: &ProxyEnd<W>,
        servers: &Servers,
        place: usize,
    ) {
        match self.stats(rt, end, servers) {
            Ok(text) => self.answer(place, Ruling::Done, text.as_slice()),
            Err(_) => self.answer(place, Ruling::Failed, b"out of memory\n"),
        }
    }

    fn tell_servers<R: AllocGlobal, W: Wire>(
        &mut self,
        rt: &R,
        end: &ProxyEnd<W>,
        servers: &Servers,
        place: usize,
    ) {
        let mut text = Vec::new(rt.alloc());
        let written = write_servers(end, servers, &self.seen, &mut text);
        self.answer_written(place, written, text.as_slice());
    }

    // Tells where a key's commands go by the text in use.
    fn tell_where<R: AllocGlobal>(&mut self, rt: &R, in_use: &str, place: usize, key: &[u8]) {
        let Ok(key) = Key::read(key) else {
            return self.answer(place, Ruling::Unknown, b"no key\n");
        };
        let mut text = Vec::new(rt.alloc());
        let keys = [key];
        let written = find_in_text(rt.alloc(), &keys, in_use, &mut text);
        match written {
            Ok(_) => self.answer(place, Ruling::Done, text.as_slice()),
            Err(_) => self.answer(place, Ruling::Failed, b"out of memory\n"),
        }
    }

    // Nobody is accepted from now on; who told that is answered when it ends.
    fn drain<R: Clock + Eprint, W: Wire>(
        &mut self,
        rt: &R,
        job: &ServeJob<'_>,
        sockets: &mut Sockets<W>,
        place: usize,
    ) -> Result<(), Stop>
        ensures { Stay W.history sockets.old sockets.new }
    {
        self.keep(place);
        self.begin_draining(rt, job, sockets)
    }

    // The one at this place is answered when it ends.
    fn keep(&mut self, place: usize) {
        if let Some(controlling) = &mut self.controlling {
            controlling.keep(place);
        }
    }

    // Nobody is accepted from now on, if that wasn't so before.
    #[tactic(auto, using(crate::proofs::Loads::stays_still))]
    fn begin_draining<R: Clock + Eprint, W: Wire>(
        &mut self,
        rt: &R,
        job: &ServeJob<'_>,
        sockets: &mut Sockets<W>,
    ) -> Result<(), Stop>
        ensures { Stay W.history sockets.old sockets.new }
    {
        if self.draining.is_some() {
            return Ok(());
        }
        let draining = Draining::new(rt, job.drain_ms)?;
        self.draining = Some(draining);
        tell_draining(rt, &mut self.lines, sockets.clients.count());
        sockets.stop_accepting();
        Ok(())
    }

    /// Who waits for the end is told that it has come, and how many clients were left.
    pub(crate) fn end_controlling<R: Files + AllocGlobal + Eprint>(
        &mut self,
        rt: &R,
        clients: usize,
    ) {
        self.tell_drained(rt, clients);
        if let Some(controlling) = &mut self.controlling {
            if clients == 0 {
                controlling.end(rt, Ruling::Done, b"drained\n");
            } else {
                controlling.end(rt, Ruling::Refused, b"drained, clients were left\n");
            }
        }
    }

    // Tells that it has drained, if it has.
    fn tell_drained<R: Eprint>(&mut self, rt: &R, clients: usize) {
        if self.draining.is_some() {
            tell_drained(rt, &mut self.lines, clients);
        }
    }
}

impl<W: Listens> Serving<W> {
    /// It drains once standard input has ended, where that is asked, and who tells it things is
    /// answered.
    #[tactic(auto, using(crate::proofs::Loads::serves_still))]
    pub(crate) fn take_orders<R: Files + Input + Net + Clock + AllocGlobal + Print + Eprint>(
        &mut self,
        rt: &R,
        operating: &mut Operating,
        job: &ServeJob<'_>,
    ) -> Result<(), Stop>
        ensures ends { ServesByTexts W.history job.now.settings self.old.end self.new.end }
    {
        operating.drain_at_end(rt, job, &mut self.end.sockets)?;
        self.take_words(rt, operating, job)
    }

    // Who tells it things is answered, if there is somebody.
    #[tactic(auto, using(crate::proofs::Loads::serves_still))]
    fn take_words<R: Files + Input + Net + Clock + AllocGlobal + Print + Eprint>(
        &mut self,
        rt: &R,
        operating: &mut Operating,
        job: &ServeJob<'_>,
    ) -> Result<(), Stop>
        ensures ends { ServesByTexts W.history job.now.settings self.old.end self.new.end }
    {
        operating.turn_controlling(rt, self.end.sockets.wire.is_woken());
        for _ in 0..PLACES {
            let Some((place, line)) = operating.next_line() else {
                return Ok(());
            };
            self.take_word(rt, operating, job, place, line.as_slice())?;
        }
        Ok(())
    }

    // The one at this place is answered, or waits until it ends.
    #[tactic(auto, using(crate::proofs::Loads::serves_still))]
    fn take_word<R: Files + Input + Net + Clock + AllocGlobal + Print + Eprint>(
        &mut self,
        rt: &R,
        operating: &mut Operating,
        job: &ServeJob<'_>,
        place: usize,
        line: &[u8],
    ) -> Result<(), Stop>
        ensures ends { ServesByTexts W.history job.now.settings self.old.end self.new.end }
    {
        match request_of(line) {
            Request::Drain => operating.drain(rt, job, &mut self.end.sockets, place),
            Request::Reload => self.reload(rt, operating, job, place),
            Request::Status => {
                operating.tell_status(rt, &self.end, &self.servers, place);
                Ok(())
            }
            Request::Servers => {
                operating.tell_servers(rt, &self.end, &self.servers, place);
                Ok(())
            }
            Request::Where(key) => {
                operating.tell_where(rt, self.text.as_str(), place, key);
                Ok(())
            }
            Request::Log(level) => {
                operating.set_level(place, level);
                Ok(())
            }
            Request::Unknown => {
                operating.answer(place, Ruling::Unknown, b"no such word\n");
                Ok(())
            }
        }
    }

    // The file is read now, whatever it had before, and who told that is answered what came of it.
    #[tactic(auto, using(crate::proofs::Loads::serves_still))]
    fn reload<R: Files + Input + Net + Clock + AllocGlobal + Print + Eprint>(
        &mut self,
        rt: &R,
        operating: &mut Operating,
        job: &ServeJob<'_>,
        place: usize,
    ) -> Result<(), Stop>
        ensures ends { ServesByTexts W.history job.now.settings self.old.end self.new.end }
    {
        operating.begin_look(rt)?;
        let mut details = Details::new(rt.alloc());
        match regular_text(rt, job.file, &mut details) {
            Ok(text) => self.reload_text(rt, operating, job, place, text),
            Err(InputFault::NoMemory) => Err(Stop::Memory),
            Err(_) => {
                operating.answer_failed(rt.alloc(), place, &details);
                Ok(())
            }
        }
    }

    #[tactic(auto, using(crate::proofs::Loads::serves_still))]
    fn reload_text<R: Files + Net + Clock + AllocGlobal + Print + Eprint>(
        &mut self,
        rt: &R,
        operating: &mut Operating,
        job: &ServeJob<'_>,
        place: usize,
        text: String,
    ) -> Result<(), Stop>
        ensures ends { ServesByTexts W.history job.now.settings self.old.end self.new.end }
    {
        let mut said = Vec::new(rt.alloc());
        let is_used = self.load_new(rt, operating, job, text, &mut said)?;
        let verdict = if is_used {
            Ruling::Done
        } else {
            Ruling::Refused
        };
        operating.answer(place, verdict, said.as_slice());
        Ok(())
    }
}
