//! The core, what it can't know, and its calls at the servers of a script.

ghost use Rattle.std.specs.Prelude.{◌≡◌, ℕ, ◌<◌, ◌≤◌, ◌+◌, ◌++◌, ◌∷◌, ◌↔◌, [], nat_eq, if◌then◌else◌, IsTrue, IfOk, IfErr, OnOk, MatchOption};
ghost use Rattle.std.specs.List.{position};
ghost use Rattle.mc_types.specs.Asks.{IsAsk};
ghost use Rattle.script_events.specs.declared.servers.event.FleetFault.TheVariants.{NoMemory};
ghost use Rattle.core_proxy.specs.CoreState.{IsOut};
ghost use Rattle.core_proxy.specs.Polls.{Polls};
ghost use Rattle.core_commands.specs.declared.sharing.Sharing.TheVariants.{Alone};
ghost use Rattle.script_events.specs.Servers.{count_of_servers, turn_of, Answers};
ghost use Rattle.script_run.specs.Laws.{stamp_shown, CountsPoll, CountsOne, IsBegin};
ghost use Rattle.script_run.specs.Standing.{log_calls_at};
ghost use Rattle.script_run.specs.Breaking.{fleet_fault_of, AreGivenAll};
ghost use Rattle.script_run.specs.Finding.{found_of};
ghost use Rattle.script_run.specs.Progressing.{both_gave};
ghost use Rattle.script_run.specs.Turns.{IsLeast, IsLesser};

use crate::driver::counting::Counts;
use crate::driver::found::FoundStamps;
use crate::driver::tally::Tally;
use crate::log::laws::{
    feeds_go_on, gives_go_on, loads_go_on, openings_go_on, polls_go_on, results_go_on,
};
use core_proxy::{Core, CoreFault, CoreLimits, Note, Poll, Ticket};
use mc_types::{Ask, ServerId};
use route_tree::Tree;
use script_events::servers::{FleetFault, Made, ScriptServers};
use std::alloc::Global;

/// The core, and what it can't know: how many clients were opened, which calls are out, in the order in which they went out, what
/// calls found, and the counts.
///
/// Each call keeps a log of all that happened: what stands beside it in `Stands` is what a runner and its servers keep. That the
/// core numbers its clients from 0 is tested as they are opened, and that nothing is left to do where no call is out; with the faults that
/// can't come (these, a client that isn't there, more bytes than may be held, a ticket that isn't out) it ends as it does out of memory, so
/// that `Spent` says that numbers are spent, and nothing else.
#[derive(Drop)]
pub struct Runner {
    core: Core,
    clients: usize,
    out: Vec<Ticket>,
    found: FoundStamps,
    counts: Counts,
}

// What polls of clients gave.
#[derive(Clone, Copy)]
enum Progress {
    // Nothing is left to do for them.
    Idle,
    // Something is waited for.
    Waits,
    // Something was done.
    Moved,
}

// What two polls together gave.
fn joined(one: Progress, other: Progress) -> Progress
    ensures { result ≡ both_gave one other }
{
    match (one, other) {
        (Progress::Idle, other) => other,
        (Progress::Waits, Progress::Moved) => Progress::Moved,
        (Progress::Waits, _) => Progress::Waits,
        (Progress::Moved, _) => Progress::Moved,
    }
}

// What stops a run where the core has a fault.
fn fault_of(fault: CoreFault) -> FleetFault
    ensures { result ≡ fleet_fault_of fault }
{
    match fault {
        CoreFault::Spent => FleetFault::Spent,
        CoreFault::NoMemory
        | CoreFault::TooManyClients
        | CoreFault::NoClient
        | CoreFault::InputFull
        | CoreFault::UnderWay
        | CoreFault::NoTicket => FleetFault::NoMemory,
    }
}

// What the server answers to a call, where it is there.
fn answer(
    servers: &mut ScriptServers,
    stamp: u64,
    server: ServerId,
    ask: &Ask,
) -> Result<Made, FleetFault>
    requires { IsAsk ask.now }
    ensures ok { IfOk result (λ made. Answers stamp servers.old server ask.now made servers.new) }
    ensures rest { servers.new ≡ record servers.old { caches = servers.new.caches; turn = servers.new.turn } }
    ensures count { count_of_servers servers.new ≡ count_of_servers servers.old }
    ensures err { IfErr result (λ fault. (turn_of servers.new ≡ turn_of servers.old) × AreGivenAll fault servers.old) }
{
    if server.number() as usize >= servers.servers() {
        return Err(FleetFault::NoMemory);
    }
    servers.answer(stamp, server, ask)
}

// What a call of the command found is known.
fn note(found: &mut FoundStamps, number: u64, stamp: Option<u64>) -> Result<(), FleetFault>
    ensures ok { OnOk result ((n : ℕ) → found_of found.new n ≡ (if nat_eq number n then found_of found.old n ++ stamp ∷ [] else found_of found.old n)) }
    ensures fault { IfErr result (λ fault. fault ≡ NoMemory) }
{
    match found.note(number, stamp) {
        Ok(()) => Ok(()),
        Err(_) => Err(FleetFault::NoMemory),
    }
}

// Whether these are one server.
fn is_same(one: ServerId, other: ServerId) -> bool
    ensures { IsTrue result ↔ (one ≡ other) }
{
    one.number() == other.number()
}

// The lesser of two servers, or the only one.
fn lesser(one: Option<ServerId>, other: ServerId) -> ServerId
    ensures { IsLesser one other result }
{
    match one {
        None => other,
        Some(server) => {
            if server.number() <= other.number() {
                server
            } else {
                other
            }
        }
    }
}

impl Runner {
    ghost use Rattle.script_run.specs.Running.{kept_of, Moves, Stays, MovesByOne, MovesAt, MovesFed, MovesFedAtOnce, MovesGiven, IsLoadedBy, AllAreIdle, AreStalled, KeepStalled, RunnerRests, AreAskedYet};
    ghost use Rattle.script_run.specs.Progressing.{TakesSo, LeavesSo, LeavesAllStill};
    ghost use Rattle.script_run.specs.Breaking.{IsLastBegun, StopsAt, StopsFed, StopsGiving, BreaksOffAfter};
    ghost use Rattle.script_run.specs.Turns.{TakesFirst, MovesInTurn};

    /// No client was opened; commands begin on this tree.
    pub fn new(alloc: Global, tree: Tree) -> Runner
        ensures begin { (servers : ScriptServers) → turn_of servers ≡ 0 → IsBegin tree (kept_of result servers) }
        ensures clients { result.clients ≡ 0 }
    {
        Runner {
            core: Core::unchecked(alloc, tree, CoreLimits::of_scripts()),
            clients: 0,
            out: Vec::new(alloc),
            found: FoundStamps::new(alloc),
            counts: Counts::new(alloc),
        }
    }

    /// How many clients were opened.
    pub fn clients(&self) -> usize
        ensures { result ≡ self.now.clients }
    {
        self.clients
    }

    /// What is counted of commands that ended.
    pub fn tally(&self) -> Tally
        ensures { result ≡ self.now.counts.tally }
    {
        self.counts.tally()
    }

    /// Whether a command is under way.
    pub fn is_out(&self) -> bool
        ensures { IsTrue result ↔ IsOut self.now.core }
    {
        self.core.is_out()
    }

    // One more client.
    fn open_next(&mut self) -> Result<(), FleetFault>
        ensures stays { OnOk result ((servers : ScriptServers) → Stays self.old servers self.new servers) }
        ensures clients { OnOk result (self.new.clients ≡ self.old.clients + 1) }
        ensures fault { IfErr result (λ fault. fault ≡ NoMemory) }
    {
        openings_go_on();
        match self.core.open_client() {
            Err(fault) => Err(fault_of(fault)),
            Ok(place) => {
                if place != self.clients || place == usize::MAX {
                    return Err(FleetFault::NoMemory);
                }
                self.clients = place + 1;
                Ok(())
            }
        }
    }

    /// Clients are opened up to this one, counted from 0. The only error is running out of memory.
    pub fn open(&mut self, client: usize) -> Result<(), FleetFault>
        ensures stays { OnOk result ((servers : ScriptServers) → Stays self.old servers self.new servers) }
        ensures opened { OnOk result ((client < self.new.clients) × (self.old.clients ≤ self.new.clients)) }
        ensures fault { IfErr result (λ fault. fault ≡ NoMemory) }
    {
        while self.clients <= client {
            self.open_next()?;
        }
        Ok(())
    }

    /// A client's bytes come, and nothing is done of them yet. The only error is running out of memory.
    pub fn feed(&mut self, client: usize, piece: &[u8]) -> Result<(), FleetFault>
        ensures fed { OnOk result ((servers : ScriptServers) → MovesFedAtOnce client piece.now self.old servers self.new servers) }
        ensures clients { self.new.clients ≡ self.old.clients }
        ensures fault { IfErr result (λ fault. fault ≡ NoMemory) }
    {
        feeds_go_on();
        match self.core.feed(client, piece) {
            Ok(()) => Ok(()),
            Err(fault) => Err(fault_of(fault)),
        }
    }

    // The stamp of the item that the command's reply shows, if it shows one.
    fn stamp_shown(&self, note: &Note) -> Option<u64>
        ensures { result ≡ stamp_shown (found_of self.now.found note.now.number) note.now.from }
    {
        match note.from {
            None => None,
            Some(call) => self.found.stamp_at(note.number, call),
        }
    }

    // A command ended. (each had a number, so that there is one for their count)
    fn count(&mut self, note: &Note) -> Result<(), FleetFault>
        ensures fault { IfErr result (λ fault. fault ≡ NoMemory) }
        ensures counts { OnOk result ((self.new.core ≡ self.old.core) × ((servers : ScriptServers) → CountsOne note.now (kept_of self.old servers) (kept_of self.new servers))) }
        ensures clients { self.new.clients ≡ self.old.clients }
    {
        let shown = self.stamp_shown(note);
        let counted = self
            .counts
            .count(note.number, note.ask.key(), shown, note.acknowledged);
        match counted {
            Ok(()) => {
                self.found.forget(note.number);
                Ok(())
            }
            Err(_) => Err(FleetFault::NoMemory),
        }
    }

    // A call went out.
    fn put_out(&mut self, ticket: Ticket) -> Result<(), FleetFault>
        ensures out { OnOk result (self.new.out.items ≡ self.old.out.items ++ ticket ∷ []) }
        ensures rest { self.new ≡ record self.old { out = self.new.out } }
        ensures fault { IfErr result (λ fault. fault ≡ NoMemory) }
    {
        match self.out.push(ticket) {
            Ok(()) => Ok(()),
            Err(_) => Err(FleetFault::NoMemory),
        }
    }

    // What was done for a client.
    fn take_poll(&mut self, poll: Poll) -> Result<Progress, FleetFault>
        ensures counts { OnOk result ((self.new.core ≡ self.old.core) × ((servers : ScriptServers) → CountsPoll poll (kept_of self.old servers) (kept_of self.new servers))) }
        ensures clients { self.new.clients ≡ self.old.clients }
        ensures still { IfOk result (λ progress. TakesSo poll progress self.old self.new) }
        ensures fault { IfErr result (λ fault. fault ≡ NoMemory) }
    {
        match poll {
            Poll::Idle => Ok(Progress::Idle),
            Poll::Waiting => Ok(Progress::Waits),
            Poll::Busy => Ok(Progress::Waits),
            Poll::Own | Poll::Refused | Poll::Queued => Ok(Progress::Moved),
            Poll::Did(note) => {
                self.count(&note)?;
                Ok(Progress::Moved)
            }
            Poll::Call(ticket) => {
                self.put_out(ticket)?;
                Ok(Progress::Moved)
            }
        }
    }

    // The next thing is done for a client.
    fn poll(&mut self, client: usize) -> Result<Progress, FleetFault>
        ensures moves { OnOk result ((servers : ScriptServers) → Moves self.old servers self.new servers) }
        ensures clients { self.new.clients ≡ self.old.clients }
        ensures still { IfOk result (λ progress. LeavesSo progress client self.old self.new) }
        ensures spent { IfErr result (λ fault. IsLastBegun fault self.old.core) }
    {
        polls_go_on();
        match self.core.poll(client) {
            Ok(poll) => self.take_poll(poll),
            Err(fault) => Err(fault_of(fault)),
        }
    }

    // Each client is polled once, in rising number.
    fn poll_round(&mut self) -> Result<Progress, FleetFault>
        ensures moves { OnOk result ((servers : ScriptServers) → Moves self.old servers self.new servers) }
        ensures clients { OnOk result (self.new.clients ≡ self.old.clients) }
        ensures still { IfOk result (λ progress. LeavesAllStill progress self.new) }
        ensures err { IfErr result (λ fault. StopsAt self.old fault) }
    {
        let mut progress = Progress::Idle;
        for client in 0..self.clients {
            let one = self.poll(client)?;
            progress = joined(progress, one);
        }
        Ok(progress)
    }

    // Clients are polled until a whole round gives nothing, so that nothing can be done for any of them without a result: whether nothing is
    // left to do for them. (each round does something, of which there is less than 2^64 - 1)
    fn poll_all(&mut self) -> Result<bool, FleetFault>
        ensures moves { OnOk result ((servers : ScriptServers) → Moves self.old servers self.new servers) }
        ensures clients { OnOk result (self.new.clients ≡ self.old.clients) }
        ensures stalled { OnOk result (AreStalled self.new) }
        ensures idle { IfOk result (λ idle. IsTrue idle → AllAreIdle self.new) }
        ensures err { IfErr result (λ fault. StopsAt self.old fault) }
    {
        for _round in 0..u64::MAX {
            let progress = self.poll_round()?;
            match progress {
                Progress::Idle => return Ok(true),
                Progress::Waits => return Ok(false),
                Progress::Moved => {}
            }
        }
        Err(FleetFault::NoMemory)
    }

    // All that can be done without a result is done.
    fn go_on(&mut self) -> Result<(), FleetFault>
        ensures moves { OnOk result ((servers : ScriptServers) → Moves self.old servers self.new servers) }
        ensures clients { OnOk result (self.new.clients ≡ self.old.clients) }
        ensures stalled { OnOk result (AreStalled self.new) }
        ensures err { IfErr result (λ fault. StopsAt self.old fault) }
    {
        let _is_idle = self.poll_all()?;
        Ok(())
    }

    /// A client's bytes come, and all that can be done without a result is done. The errors are running out of memory, and `Spent`
    /// where the last number that there is was given to a command.
    pub fn add(&mut self, client: usize, bytes: &[u8]) -> Result<(), FleetFault>
        ensures fed { OnOk result ((servers : ScriptServers) → MovesFed client bytes.now self.old servers self.new servers) }
        ensures clients { OnOk result (self.new.clients ≡ self.old.clients) }
        ensures stalled { OnOk result (AreStalled self.new) }
        ensures err { IfErr result (λ fault. StopsFed client bytes.now self.old fault) }
    {
        self.feed(client, bytes)?;
        self.go_on()
    }

    // The place of the first call that is out at the server.
    fn first_at(&self, server: ServerId) -> Option<usize>
        ensures { result ≡ position (λ ticket. nat_eq ticket.server server) self.now.out.items }
    {
        self.out
            .iter()
            .position(|ticket| ticket.server.number() == server.number())
    }

    // The first call that is out at the server is out no more.
    fn take_first(&mut self, server: ServerId) -> Option<Ticket>
        ensures { MatchOption result ((self.new ≡ self.old) × (log_calls_at server self.old.out.items ≡ [])) (λ ticket. TakesFirst server ticket self.old self.new) }
    {
        match self.first_at(server) {
            None => None,
            Some(at) => Some(self.out.remove(at)),
        }
    }

    // The least server at which a call is out.
    fn least(&self) -> Option<ServerId>
        ensures { IsLeast result self.now.out.items }
    {
        let mut least: Option<ServerId> = None;
        let out = self.out.as_slice();
        for ticket in out {
            least = Some(lesser(least, ticket.server));
        }
        least
    }

    // There is room for what one more call of the command finds.
    fn make_room(&mut self, number: u64) -> Result<(), FleetFault>
        ensures ok { OnOk result ((n : ℕ) → found_of self.new.found n ≡ found_of self.old.found n) }
        ensures rest { self.new ≡ record self.old { found = self.new.found } }
        ensures fault { IfErr result (λ fault. fault ≡ NoMemory) }
    {
        match self.found.make_room(number) {
            Ok(()) => Ok(()),
            Err(_) => Err(FleetFault::NoMemory),
        }
    }

    // The call, which was the first that was out at this server, has its result.
    fn settle(
        &mut self,
        servers: &mut ScriptServers,
        ticket: Ticket,
        server: ServerId,
    ) -> Result<(), FleetFault>
        ensures ok { OnOk result ((before : Runner) → TakesFirst server ticket before self.old → MovesByOne server before servers.old self.new servers.new) }
        ensures count { count_of_servers servers.new ≡ count_of_servers servers.old }
        ensures clients { self.new.clients ≡ self.old.clients }
        ensures err { IfErr result (λ fault. StopsGiving fault servers.old servers.new) }
    {
        results_go_on();
        let number = ticket.number;
        self.make_room(number)?;
        let Some(call) = self.core.called(number) else {
            return Err(FleetFault::NoMemory);
        };
        if !is_same(call.server, server) {
            return Err(FleetFault::NoMemory);
        }
        let stamp = self.found.stamp_of(number, call.origin);
        let made = answer(servers, stamp, call.server, call.ask)?;
        note(&mut self.found, number, made.stamp)?;
        match self.core.settle(ticket, made.outcome) {
            Ok(()) => Ok(()),
            Err(fault) => Err(fault_of(fault)),
        }
    }

    // The first call that is out at the server has its result, if there is one.
    fn give_first(
        &mut self,
        servers: &mut ScriptServers,
        server: ServerId,
    ) -> Result<(), FleetFault>
        ensures ok { OnOk result (MovesAt server self.old servers.old self.new servers.new) }
        ensures count { count_of_servers servers.new ≡ count_of_servers servers.old }
        ensures clients { OnOk result (self.new.clients ≡ self.old.clients) }
        ensures err { IfErr result (λ fault. StopsGiving fault servers.old servers.new) }
    {
        match self.take_first(server) {
            None => Ok(()),
            Some(ticket) => self.settle(servers, ticket, server),
        }
    }

    /// The first call that is out at the server has its result, if there is one, and then all that can be done without another is done.
    /// The errors are running out of memory, and `Spent` where calls or commands have no more numbers.
    pub fn settle_first(
        &mut self,
        servers: &mut ScriptServers,
        server: ServerId,
    ) -> Result<(), FleetFault>
        ensures ok { OnOk result (MovesAt server self.old servers.old self.new servers.new) }
        ensures count { count_of_servers servers.new ≡ count_of_servers servers.old }
        ensures clients { OnOk result (self.new.clients ≡ self.old.clients) }
        ensures stalled { OnOk result (AreStalled self.new) }
        ensures err { IfErr result (λ fault. BreaksOffAfter (AreAskedYet server self.old servers.old) self.old servers.old fault servers.new) }
    {
        self.give_first(servers, server)?;
        self.go_on()
    }

    // Where no call is out, nothing else is left to do.
    fn rest(&self, is_idle: bool) -> Result<(), FleetFault>
        ensures ok { OnOk result (IsTrue is_idle × (IsOut self.now.core → ⊥)) }
        ensures fault { IfErr result (λ fault. fault ≡ NoMemory) }
    {
        if is_idle && !self.core.is_out() {
            Ok(())
        } else {
            Err(FleetFault::NoMemory)
        }
    }

    /// All that can be done is done, and each call that is out has its result, that of the least server first, until none is out: then
    /// nothing is left to do for any client. The errors are those of [`settle_first`](Runner::settle_first).
    pub fn settle_all(&mut self, servers: &mut ScriptServers) -> Result<(), FleetFault>
        ensures ok { OnOk result (MovesInTurn self.old servers.old self.new servers.new) }
        ensures count { count_of_servers servers.new ≡ count_of_servers servers.old }
        ensures none { OnOk result (self.new.out.items ≡ []) }
        ensures clients { OnOk result (self.new.clients ≡ self.old.clients) }
        ensures rest { OnOk result (RunnerRests self.new) }
        ensures err { IfErr result (λ fault. BreaksOffAfter (λ results. Unit {0}) self.old servers.old fault servers.new) }
    {
        for _round in 0..u64::MAX {
            let is_idle = self.poll_all()?;
            match self.least() {
                None => return self.rest(is_idle),
                Some(server) => self.give_first(servers, server)?,
            }
        }
        Err(FleetFault::NoMemory)
    }

    /// A client's new output, which is then empty. Where nothing could be done without a result, nothing can be done still. The only error
    /// is running out of memory.
    pub fn take_output(&mut self, client: usize) -> Result<Vec<u8>, FleetFault>
        ensures fault { IfErr result (λ fault. fault ≡ NoMemory) }
        ensures given { IfOk result (λ bytes. (servers : ScriptServers) → MovesGiven client bytes.items self.old servers self.new servers) }
        ensures stalled { OnOk result (KeepStalled self.old self.new) }
        ensures clients { self.new.clients ≡ self.old.clients }
    {
        gives_go_on();
        match self.core.take_output(client) {
            Ok(bytes) => Ok(bytes),
            Err(fault) => Err(fault_of(fault)),
        }
    }

    /// Commands that begin from now on run by this tree, of which no gate is asked. The only error is running out of memory, as which it is
    /// also told where 2^32 - 1 trees were in use before.
    pub fn load(&mut self, tree: &Tree) -> Result<(), FleetFault>
        ensures fault { IfErr result (λ fault. fault ≡ NoMemory) }
        ensures loaded { OnOk result ((servers : ScriptServers) → IsLoadedBy tree.now self.old servers self.new servers) }
        ensures stalled { OnOk result (self.old.core.limits.sharing ≡ Alone → KeepStalled self.old self.new) }
        ensures clients { self.new.clients ≡ self.old.clients }
    {
        loads_go_on();
        let Ok(tree) = tree.copy() else {
            return Err(FleetFault::NoMemory);
        };
        match self.core.reload(tree) {
            Ok(_generation) => Ok(()),
            Err(_) => Err(FleetFault::NoMemory),
        }
    }
}
