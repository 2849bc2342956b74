//! Configurations are loaded while a proxy runs: its file is read, and what a text says is judged,
//! remembered and loaded, or refused, and what came of it is told.

ghost use Rattle.std.specs.Prelude.{◌≡◌, ◌⊎◌, IsTrue, IfOk, string_bytes, ℕ, Some, length};
ghost use Rattle.serve_links.specs.Lateness.{usual_limits};
ghost use Rattle.serde_json.specs.Read.{read};
ghost use Rattle.serde_json.specs.View.{view};
ghost use Rattle.serve_proxy.specs.Ends.{AllLoad};
ghost use Rattle.serve_proxy.specs.Limiting.{value_limits};
ghost use Rattle.core_accepted.specs.Loading.{IsLoaded};
ghost use Rattle.mcgate_serve.specs.Serves.{TextSaysAfter, MayLoad, MayLoadBeside, MayLoadText, LoadsOne, LoadsText};
ghost use Rattle.mcgate_serve.specs.Limits.{ServesByTexts};
ghost use Rattle.mcgate_serve.specs.InFleet.{StandsBeside, in_use_after};
ghost use Rattle.mcgate_notes.specs.Remembers.{StandsIn};
ghost use Rattle.mcgate_serve.specs.Remembers.{StandsIfLoaded};
ghost use Rattle.mcgate_serve.specs.LooksUp.{AreLookedUp};

use crate::bad_texts::{say_unread, say_why};
use crate::emptying::notes_new;
use crate::histories::input_of;
use crate::operating::Operating;
use crate::serving::Serving;
use core_accepted::LoadFault;
use gate_check::ReloadFault;
use mcgate_ends::details::Details;
use mcgate_ends::ends::Stop;
use mcgate_ends::fleets::members::may_follow;
use mcgate_ends::input_text::InputFault;
use mcgate_ends::serve_job::ServeJob;
use mcgate_lines::reload_lines::{write_kept, write_loaded, write_unchecked};
use mcgate_notes::lines::unix_millis;
use mcgate_notes::remembering::{Remembering, forget, remember};
use mcgate_notes::special::{is_special, special_line};
use mcgate_notes::verdict_news::tell_verdict;
use route_json::addresses::Servers;
use route_json::{Config, ConfigFault, read_config_after};
use serde_json::Value;
use serve_wire::Wire;
use std::alloc::Global;
use std::io;
use std::io::Write;
use std::net::Net;
use std::rt::{Clock, Files};

/// The text of a regular file; else a line of detail says why there is none. Of what is no such
/// file the program doesn't wait for a text.
pub fn regular_text<R: Files + Input + AllocGlobal>(
    rt: &R,
    file: &str,
    details: &mut Details,
) -> Result<String, InputFault> {
    if is_special(rt, file) {
        details.add(special_line(rt.alloc(), file));
        return Err(InputFault::Device);
    }
    let text = input_of(rt, file, details);
    if let Err(fault) = &text {
        details.add_input(rt.alloc(), file, *fault);
    }
    text
}

// The configuration that the text says, whose servers are numbered after these, its servers once
// more, and the text's value.
fn read_after(
    alloc: Global,
    servers: &Servers,
    text: &str,
) -> Result<(Config, Servers, Value), ConfigFault>
    ensures says { IfOk result (λ read. TextSaysAfter servers.now text.now read.0) }
    ensures servers { IfOk result (λ read. read.1 ≡ read.0.servers) }
    ensures value { IfOk result (λ given. read text.now ≡ Some (view given.2)) }
{
    let config = read_config_after(alloc, servers.copy(alloc)?, text)?;
    let servers = config.servers().copy(alloc)?;
    match Value::from_str(alloc, text) {
        Ok(said) => Ok((config, servers, said)),
        Err(_) => Err(ConfigFault::NoMemory),
    }
}

// Whether both texts say one JSON value. Where memory is refused they don't.
fn says_the_same(alloc: Global, text: &str, other: &str) -> bool {
    match (Value::from_str(alloc, text), Value::from_str(alloc, other)) {
        (Ok(value), Ok(other)) => value == other,
        _ => false,
    }
}

// Prints why a text is no configuration.
fn print_fault<W: Write>(fault: &ConfigFault, out: &mut W) -> Result<(), Stop> {
    match fault {
        ConfigFault::NoMemory => Err(Stop::Memory),
        told => Ok(writeln!(out, "config: {told}")?),
    }
}

// Prints that a configuration was loaded.
fn print_loaded<W: Write>(any: bool, generation: u32, out: &mut W) -> io::Result<()> {
    if any {
        write_unchecked(generation, out)
    } else {
        write_loaded(generation, out)
    }
}

// The fault, its generation counted after so many.
fn counted_after(before: u32, fault: ReloadFault) -> ReloadFault {
    match fault {
        ReloadFault::Uncovered(generation, gap) => {
            ReloadFault::Uncovered(before.saturating_add(generation), gap)
        }
        fault => fault,
    }
}

// Prints why a configuration was not loaded.
fn print_kept<W: Write>(
    servers: &Servers,
    before: u32,
    fault: LoadFault,
    out: &mut W,
) -> Result<(), Stop> {
    match fault {
        LoadFault::Refused(ReloadFault::NoMemory) => Err(Stop::Memory),
        LoadFault::Refused(fault) => {
            Ok(write_kept(servers, &counted_after(before, fault), out)?)
        }
        LoadFault::OtherServers => Ok(writeln!(out, "reload refused: other servers")?),
    }
}

impl Operating {
    // Tells why the file can't be read, if it could be before.
    fn tell_unread<R: Eprint>(&mut self, rt: &R, job: &ServeJob<'_>, details: &Details) {
        if !self.seen.is_unread {
            self.seen.is_unread = true;
            say_unread(rt, &mut self.lines, job, details);
        }
    }

    // Whether this is what the file had when it was read last, where the other text is in use.
    fn has_seen(&self, in_use: &str, text: &str) -> bool {
        match &self.refused {
            Some(refused) => refused.as_str() == text,
            None => in_use == text,
        }
    }

    // What was said of a text is printed, and where it isn't loaded, more of it.
    fn note_said<R: Clock + AllocGlobal + Print + Eprint>(
        &mut self,
        rt: &R,
        job: &ServeJob<'_>,
        text: &str,
        is_used: bool,
        said: &[u8],
    ) {
        self.lines.print(rt, said);
        self.tell_verdict(rt, is_used, said);
        say_why(rt, &mut self.lines, job, text, said);
        self.note_refused(rt, is_used, said);
    }

    // This is what the file has; it says the configuration in use, which is the generation of this
    // number, or was refused.
    fn note_text(&mut self, generation: u32, in_use: &mut String, text: String, is_used: bool) {
        self.seen.note_text(generation, is_used);
        if is_used {
            self.seen.note_in_use(text.as_str());
            *in_use = text;
            self.refused = None;
        } else {
            self.refused = Some(text);
        }
    }

    // Tells what came of a text on standard error too, where lines have a time.
    fn tell_verdict<R: Eprint>(&mut self, rt: &R, is_used: bool, said: &[u8]) {
        if !self.lines.have_time() {
            return;
        }
        let Ok(said) = std::str::from_utf8(said) else {
            return;
        };
        tell_verdict(rt, &mut self.lines, is_used, said.trim_end());
    }

    // What was said of a text that isn't loaded is kept.
    fn note_refused<R: Clock + AllocGlobal>(&mut self, rt: &R, is_used: bool, said: &[u8]) {
        if !is_used {
            let now = unix_millis(rt).unwrap_or(0);
            self.seen.note_refused(rt.alloc(), said, now);
        }
    }
}

impl<W: Wire> Serving<W> {
    /// Reads the file again, if that is due.
    #[tactic(auto, using(crate::proofs::Loads::serves_still))]
    pub(crate) fn look_if_due<R: Files + Input + Net + Clock + AllocGlobal + Print + Eprint>(
        &mut self,
        rt: &R,
        operating: &mut Operating,
        job: &ServeJob<'_>,
    ) -> Result<(), Stop>
        ensures ends { ServesByTexts W.history job.now.settings self.old.end self.new.end }
    {
        if operating.is_due(rt, job)? {
            return self.look(rt, operating, job);
        }
        Ok(())
    }

    // Reads the file. A text that it hadn't before is loaded; where it can't be read that is told
    // once.
    #[tactic(auto, using(crate::proofs::Loads::serves_still))]
    fn look<R: Files + Input + Net + Clock + AllocGlobal + Print + Eprint>(
        &mut self,
        rt: &R,
        operating: &mut Operating,
        job: &ServeJob<'_>,
    ) -> Result<(), Stop>
        ensures ends { ServesByTexts W.history job.now.settings self.old.end self.new.end }
    {
        operating.begin_look(rt)?;
        let mut details = Details::new(rt.alloc());
        match regular_text(rt, job.file, &mut details) {
            Ok(text) => {
                operating.seen.is_unread = false;
                self.take_text(rt, operating, job, text)
            }
            Err(InputFault::NoMemory) => Err(Stop::Memory),
            Err(_) => {
                operating.tell_unread(rt, job, &details);
                Ok(())
            }
        }
    }

    #[tactic(auto, using(crate::proofs::Loads::serves_still, crate::proofs::Loads::loads_still))]
    fn take_text<R: Files + Net + Clock + AllocGlobal + Print + Eprint>(
        &mut self,
        rt: &R,
        operating: &mut Operating,
        job: &ServeJob<'_>,
        text: String,
    ) -> Result<(), Stop>
        ensures core { MayLoadText self.old.in_use self.old.servers (string_bytes text) self.old.end.core.value self.new.end.core.value }
        ensures ends { ServesByTexts W.history job.now.settings self.old.end self.new.end }
        ensures remembered { StandsIfLoaded self.old.end.core.value self.new.end.core.value self.new.memory (string_bytes text) }
        ensures in_use { IfOk result (λ _. LoadsText self.old.in_use self.new.in_use self.old.servers (string_bytes text) self.old.end.core.value self.new.end.core.value) }
    {
        if operating.has_seen(self.text.as_str(), text.as_str()) {
            return Ok(());
        }
        let mut said = Vec::new(rt.alloc());
        self.load_new(rt, operating, job, text, &mut said)?;
        Ok(())
    }

    /// Judges a text, which the file may have had before, and loads what it says: whether the
    /// configuration in use is that of the text then. What came of it is added to what was said,
    /// and printed.
    #[tactic(auto, using(crate::proofs::Loads::serves_still))]
    pub(crate) fn load_new<R: Files + Net + Clock + AllocGlobal + Print + Eprint>(
        &mut self,
        rt: &R,
        operating: &mut Operating,
        job: &ServeJob<'_>,
        text: String,
        said: &mut Vec<u8>,
    ) -> Result<bool, Stop>
        ensures core { MayLoadText self.old.in_use self.old.servers (string_bytes text) self.old.end.core.value self.new.end.core.value }
        ensures ends { ServesByTexts W.history job.now.settings self.old.end self.new.end }
        ensures remembered { StandsIfLoaded self.old.end.core.value self.new.end.core.value self.new.memory (string_bytes text) }
        ensures in_use { IfOk result (λ _. LoadsText self.old.in_use self.new.in_use self.old.servers (string_bytes text) self.old.end.core.value self.new.end.core.value) }
    {
        let is_used = self.judge_text(rt, operating, job, text.as_str(), said)?;
        operating.note_said(rt, job, text.as_str(), is_used, said.as_slice());
        let generation = self.number();
        operating.note_text(generation, &mut self.text, text, is_used);
        Ok(is_used)
    }

    // Loads the configuration of the text, unless the text says what the one in use says, and
    // prints what came of that. Whether the configuration in use is that of the text then.
    #[tactic(auto, using(crate::proofs::Loads::serves_still, crate::proofs::Loads::loads_still))]
    fn judge_text<R: Files + Net + AllocGlobal + Eprint, O: Write>(
        &mut self,
        rt: &R,
        operating: &mut Operating,
        job: &ServeJob<'_>,
        text: &str,
        out: &mut O,
    ) -> Result<bool, Stop>
        ensures core { MayLoadText self.old.in_use self.old.servers text.now self.old.end.core.value self.new.end.core.value }
        ensures ends { ServesByTexts W.history job.now.settings self.old.end self.new.end }
        ensures remembered { StandsIfLoaded self.old.end.core.value self.new.end.core.value self.new.memory text.now }
        ensures in_use { IfOk result (λ _. LoadsText self.old.in_use self.new.in_use self.old.servers text.now self.old.end.core.value self.new.end.core.value) }
    {
        if says_the_same(rt.alloc(), self.text.as_str(), text) {
            let generation = self.number();
            writeln!(out, "reload unchanged generation={generation}")?;
            return Ok(true);
        }
        self.remember_and_load(rt, operating, job, text, out)
    }

    // Loads the configuration of the text, once it stands in the history, where one is kept.
    // Whether it was loaded.
    #[tactic(auto, using(crate::proofs::Loads::serves_still, crate::proofs::Loads::loads_still))]
    fn remember_and_load<R: Files + Net + AllocGlobal + Eprint, O: Write>(
        &mut self,
        rt: &R,
        operating: &mut Operating,
        job: &ServeJob<'_>,
        text: &str,
        out: &mut O,
    ) -> Result<bool, Stop>
        ensures core { MayLoadText self.old.in_use self.old.servers text.now self.old.end.core.value self.new.end.core.value }
        ensures ends { ServesByTexts W.history job.now.settings self.old.end self.new.end }
        ensures remembered { StandsIfLoaded self.old.end.core.value self.new.end.core.value self.new.memory text.now }
        ensures in_use { IfOk result (λ _. LoadsText self.old.in_use self.new.in_use self.old.servers text.now self.old.end.core.value self.new.end.core.value) }
    {
        if !notes_new(
            rt,
            &mut operating.lines,
            &mut self.emptying,
            &self.servers,
            text,
            out,
        )? {
            return Ok(false);
        }
        match remember(rt, &mut operating.lines, &mut self.memory, text, out)? {
            Remembering::Refused => Ok(false),
            Remembering::Stands(old) => self.load_remembered(rt, operating, job, text, old, out),
        }
    }

    // Loads the configuration of a text that stands there. What isn't loaded is forgotten.
    #[tactic(auto, using(crate::proofs::Loads::stands_still, crate::proofs::Loads::stands_unused))]
    fn load_remembered<R: Files + Net + AllocGlobal + Eprint, O: Write>(
        &mut self,
        rt: &R,
        operating: &mut Operating,
        job: &ServeJob<'_>,
        text: &str,
        old: Option<String>,
        out: &mut O,
    ) -> Result<bool, Stop>
        requires stands { StandsIn self.old.memory text.now }
        ensures core { MayLoadText self.old.in_use self.old.servers text.now self.old.end.core.value self.new.end.core.value }
        ensures ends { ServesByTexts W.history job.now.settings self.old.end self.new.end }
        ensures remembered { StandsIfLoaded self.old.end.core.value self.new.end.core.value self.new.memory text.now }
        ensures in_use { IfOk result (λ _. LoadsText self.old.in_use self.new.in_use self.old.servers text.now self.old.end.core.value self.new.end.core.value) }
    {
        if self.load_text(rt, operating, job, text, out)? {
            return Ok(true);
        }
        forget(rt, &mut operating.lines, &mut self.memory, old)?;
        Ok(false)
    }

    // Loads the configuration of the text, and prints what came of that, or why the text is none.
    // Whether it was loaded.
    #[tactic(auto, using(crate::proofs::Loads::serves_still, crate::proofs::Loads::loads_still))]
    fn load_text<R: Net + AllocGlobal + Eprint, O: Write>(
        &mut self,
        rt: &R,
        operating: &mut Operating,
        job: &ServeJob<'_>,
        text: &str,
        out: &mut O,
    ) -> Result<bool, Stop>
        ensures core { MayLoadText self.old.in_use self.old.servers text.now self.old.end.core.value self.new.end.core.value }
        ensures ends { ServesByTexts W.history job.now.settings self.old.end self.new.end }
        ensures memory { self.new.memory ≡ self.old.memory }
        ensures unused { IfOk result (λ used. IsTrue used ⊎ (self.new.end.core.value ≡ self.old.end.core.value)) }
        ensures in_use { IfOk result (λ _. LoadsText self.old.in_use self.new.in_use self.old.servers text.now self.old.end.core.value self.new.end.core.value) }
    {
        match read_after(rt.alloc(), &self.servers, text) {
            Ok((config, servers, said)) => self.load_beside(
                rt, operating, job, config, servers, &said, out,
            ),
            Err(fault) => {
                print_fault(&fault, out)?;
                Ok(false)
            }
        }
    }

    // Loads a configuration of these servers, if it may follow the one in use; else why not is
    // printed. Whether it was loaded.
    #[tactic(auto, using(crate::proofs::Loads::load_still, crate::proofs::Loads::loads_none))]
    fn load_beside<R: Net + AllocGlobal + Eprint, O: Write>(
        &mut self,
        rt: &R,
        operating: &mut Operating,
        job: &ServeJob<'_>,
        config: Config,
        servers: Servers,
        said: &Value,
        out: &mut O,
    ) -> Result<bool, Stop>
        ensures core { MayLoadBeside self.old.in_use config self.old.end.core.value self.new.end.core.value }
        ensures ends { AllLoad W.history config servers (value_limits (usual_limits job.now.settings) (view said.now)) self.old.end.core.value self.old.end.sockets self.new.end.core.value self.new.end.sockets }
        ensures memory { self.new.memory ≡ self.old.memory }
        ensures unused { IfOk result (λ used. IsTrue used ⊎ (self.new.end.core.value ≡ self.old.end.core.value)) }
        ensures in_use { IfOk result (λ used. LoadsOne used config self.old.in_use self.new.in_use self.old.end.core.value self.new.end.core.value) }
    {
        if self.may_follow(rt.alloc(), &config, out)? {
            return self.load_next(rt, operating, job, config, servers, said, out);
        }
        Ok(false)
    }

    // Whether a configuration may follow the one in use: in a fleet others run by that meanwhile.
    // If not, why is printed.
    fn may_follow<O: Write>(
        &self,
        alloc: Global,
        config: &Config,
        out: &mut O,
    ) -> Result<bool, Stop>
        ensures { IfOk result (λ may. IsTrue may → StandsBeside self.now.in_use config.now) }
    {
        match &self.in_use {
            Some(in_use) => Ok(may_follow(alloc, "reload", in_use, config, out)?),
            None => Ok(true),
        }
    }

    // Loads a configuration of these servers, which may follow the one in use, and prints what came
    // of that. In a fleet it is in use then. Whether it was loaded.
    #[tactic(auto, using(crate::proofs::Loads::load_still, crate::proofs::Loads::may_load_beside))]
    fn load_next<R: Net + AllocGlobal + Eprint, O: Write>(
        &mut self,
        rt: &R,
        operating: &mut Operating,
        job: &ServeJob<'_>,
        config: Config,
        servers: Servers,
        said: &Value,
        out: &mut O,
    ) -> Result<bool, Stop>
        requires beside { StandsBeside self.old.in_use config }
        ensures core { MayLoadBeside self.old.in_use config self.old.end.core.value self.new.end.core.value }
        ensures ends { AllLoad W.history config servers (value_limits (usual_limits job.now.settings) (view said.now)) self.old.end.core.value self.old.end.sockets self.new.end.core.value self.new.end.sockets }
        ensures memory { self.new.memory ≡ self.old.memory }
        ensures unused { IfOk result (λ used. IsTrue used ⊎ (self.new.end.core.value ≡ self.old.end.core.value)) }
        ensures in_use { IfOk result (λ used. LoadsOne used config self.old.in_use self.new.in_use self.old.end.core.value self.new.end.core.value) }
    {
        let next = self.in_use_after(rt.alloc(), &config)?;
        if self.load(rt, operating, job, config, servers, said, out)? {
            self.in_use = next;
            return Ok(true);
        }
        Ok(false)
    }

    // What is in use, as far as it is known, once a configuration was loaded.
    fn in_use_after(&self, alloc: Global, config: &Config) -> io::Result<Option<Config>>
        ensures { IfOk result (λ used. used ≡ in_use_after self.now.in_use config.now) }
    {
        match &self.in_use {
            Some(_) => Ok(Some(config.copy(alloc)?)),
            None => Ok(None),
        }
    }

    // Loads a configuration of these servers, once those that weren't in use before were looked up,
    // and prints what came of that. Whether it was loaded.
    fn load<R: Net + AllocGlobal + Eprint, O: Write>(
        &mut self,
        rt: &R,
        operating: &mut Operating,
        job: &ServeJob<'_>,
        config: Config,
        servers: Servers,
        said: &Value,
        out: &mut O,
    ) -> Result<bool, Stop>
        ensures core { MayLoad config self.old.end.core.value self.new.end.core.value }
        ensures ends { AllLoad W.history config servers (value_limits (usual_limits job.now.settings) (view said.now)) self.old.end.core.value self.old.end.sockets self.new.end.core.value self.new.end.sockets }
        ensures memory { self.new.memory ≡ self.old.memory }
        ensures in_use { self.new.in_use ≡ self.old.in_use }
        ensures looked { IfOk result (λ used. IsTrue used → AreLookedUp (length self.old.servers) servers (W.history self.new.end.sockets.wire)) }
        ensures noted { IfOk result (λ used. IsTrue used → self.new.servers ≡ servers) }
        ensures loaded { IfOk result (λ used. IsTrue used → (generation : ℕ) × IsLoaded self.old.end.core.value config generation self.new.end.core.value) }
        ensures unused { IfOk result (λ used. IsTrue used ⊎ (self.new.end.core.value ≡ self.old.end.core.value)) }
    {
        operating.resolve(rt, &mut self.end.sockets, &self.servers, &servers)?;
        match self
            .end
            .load(config, &servers, job.settings.link_limits(), said)
        {
            Ok(generation) => {
                self.servers = servers;
                self.have_begun = false;
                self.generation = generation;
                print_loaded(job.any, self.number(), out)?;
                Ok(true)
            }
            Err(fault) => {
                print_kept(&servers, self.before, fault, out)?;
                Ok(false)
            }
        }
    }
}
