//! The core that is served: with the configurations that the gate accepted, or on a tree of which no gate was asked.

ghost use Rattle.std.specs.Prelude.{◌≡◌, [], ◌∷◌, ◌++◌, ◌↔◌, IsTrue, IfOk, IfErr, IfSome, OnOk, OnErr, option_map};
ghost use Rattle.wire_parts.specs.Sending.{bytes_of};
ghost use Rattle.mc_types.specs.Asks.{IsAsk};
ghost use Rattle.fresh_runs.specs.Overlap as log;
ghost use Rattle.core_proxy.specs.Faults.{IsClosed, CanOpen, CanFeed, CanClose, OpenFault, FeedFault, OutputFault, CloseFault};
ghost use Rattle.core_proxy.specs.CoreState.{IsOut, Opens, Feeds, GivesAll, ClosesClient, LeavesLine, client_at, dropped_by, held_by, output_by};
ghost use Rattle.core_commands.specs.Lines.{is_standing};
ghost use Rattle.core_proxy.specs.Polls.{Polls, PollFault};
ghost use Rattle.core_proxy.specs.Settles.{FitsCall, asked, SettleFault};
ghost use Rattle.core_accepted.specs.Logs.{IsNew, IsNewFrom, IsUnchecked, CountsBegun, LogsGoBy, fed};
ghost use Rattle.core_accepted.specs.Tallies.{with_client, with_refusal, MakesPlaces, nothing_done};
ghost use Rattle.core_accepted.specs.Loading.{IsTakenUp, TakesPlaces, IsLoaded, RefusesLoad};
ghost use Rattle.core_accepted.specs.Results.{StaysCounting, PollGoes, PollStops, IsCallAt, TakesResult, SettleStops, IsSettled};

use crate::beginnings::Beginnings;
use crate::generations::Generations;
use crate::loading::{LoadFault, load_accepted, load_any};
use crate::tally::{CoreTally, is_answer};
use core_proxy::{Core, CoreFault, CoreLimits, Poll, Ticket};
use gate_check::Accepted;
use mc_types::{Ask, Outcome};
use route_json::Config;
use route_tree::Tree;
use std::alloc::{AllocError, Global};
use wire_parts::to_send::SendBuffer;

/// The core that is served.
///
/// Each of its commands runs by the tree that was loaded when it began. Each call does what the core's own call of that name
/// does, and goes on with each log that may have led to this core. Where the gate accepted its trees, each such log is fresh,
/// whatever calls were made ([`crate::laws::accepted_core_is_fresh`]); of other trees nothing is promised of what replies show.
/// Below, each log means each that may have led to the core.
#[derive(Drop)]
pub struct ServedCore {
    pub(crate) core: Core,
    // The configurations that the gate accepted, and the ledger that knows them; `None` where it wasn't asked.
    pub(crate) accepted: Option<Generations>,
    // What it has done so far.
    pub(crate) tally: CoreTally,
}

// Nothing is done yet, and so many servers have places, if no memory is refused.
fn tally_for(alloc: Global, servers: usize) -> CoreTally
    ensures { MakesPlaces nothing_done result }
{
    let mut tally = CoreTally::new(alloc);
    tally.make_places(servers);
    tally
}

impl ServedCore {
    /// A core without clients, on the tree of the accepted configuration in use, which is its first generation. Of what servers
    /// held at first nothing is said. The only error: memory was refused.
    pub fn new(
        alloc: Global,
        accepted: Accepted,
        limits: CoreLimits,
    ) -> Result<ServedCore, AllocError>
        ensures { IfOk result (λ served. IsNew accepted limits served) }
    {
        ServedCore::new_from(alloc, accepted, Beginnings::any(), limits)
    }

    /// A core without clients, on the tree of the accepted configuration in use, which is its first generation, before servers
    /// that began as `begun` says. Its logs are fresh where they did ([`crate::laws::begun_core_is_fresh`]). The only error:
    /// memory was refused.
    pub fn new_from(
        alloc: Global,
        accepted: Accepted,
        begun: Beginnings,
        limits: CoreLimits,
    ) -> Result<ServedCore, AllocError>
        ensures { IfOk result (λ served. IsNewFrom accepted begun limits served) }
    {
        let generations = Generations::first(alloc, &accepted, begun)?;
        let tree = accepted.config().tree().copy()?;
        Ok(ServedCore {
            core: Core::unchecked(alloc, tree, limits),
            accepted: Some(generations),
            tally: tally_for(alloc, accepted.config().servers().len()),
        })
    }

    /// A core without clients, on a tree of which no gate was asked. Calls are counted by server where it is one of so many.
    pub fn unchecked(alloc: Global, tree: Tree, servers: usize, limits: CoreLimits) -> ServedCore
        ensures { IsUnchecked tree limits result }
    {
        ServedCore {
            core: Core::unchecked(alloc, tree, limits),
            accepted: None,
            tally: tally_for(alloc, servers),
        }
    }

    /// A new client, by its id: the id of a client that was closed may be given out again. It is counted, and so is a client that
    /// was turned away. Each log stays.
    ///
    /// `TooManyClients` where as many are open as may be; `NoMemory`.
    pub fn open_client(&mut self) -> Result<usize, CoreFault>
        ensures ok { IfOk result (λ client. CanOpen self.old.core × Opens self.old.core client self.new.core) }
        ensures err { IfErr result (λ fault. OpenFault self.old.core fault self.new.core) }
        ensures opened { IfOk result (λ client. StaysCounting with_client self.old self.new) }
        ensures refused { IfErr result (λ fault. StaysCounting with_refusal self.old self.new) }
    {
        let opening = self.core.open_client();
        self.tally.note_opening(&opening);
        opening
    }

    /// A piece of a client's bytes came. A client that is closed takes none of it. Each log goes on by the piece, or stays where
    /// nothing is done for the client any more.
    ///
    /// `NoClient`; `InputFull` where what is held of the client and the piece are more bytes than may be held; `NoMemory`. After an
    /// error all is as it was.
    pub fn feed(&mut self, client: usize, piece: &[u8]) -> Result<(), CoreFault>
        ensures ok { OnOk result (CanFeed self.old.core client piece.now × Feeds self.old.core client piece.now self.new.core) }
        ensures err { IfErr result (λ fault. FeedFault self.old.core client piece.now fault × (self.new ≡ self.old)) }
        ensures fresh { OnOk result (LogsGoBy self.old (λ entries. entries ≡ fed (dropped_by (client_at self.old.core client)) client piece.now) self.new) }
    {
        self.core.feed(client, piece)
    }

    /// Whether nothing is held of the client that isn't done, as of one that isn't there. The room for that goes back then, which
    /// no clause sees: all is as it was.
    pub fn give_back_room(&mut self, client: usize) -> bool
        ensures none { IsTrue result ↔ (held_by (client_at self.old.core client) ≡ []) }
        ensures same { self.new ≡ self.old }
    {
        self.core.give_back_room(client)
    }

    /// A client's new output goes after what stands in `out`, and is then empty. Each log goes on by what was given.
    ///
    /// `NoClient`; `NoMemory`. After an error all is as it was, and `out` has the same bytes.
    pub fn move_output(&mut self, client: usize, out: &mut SendBuffer) -> Result<(), CoreFault>
        ensures bytes { OnOk result (bytes_of out.new ≡ bytes_of out.old ++ output_by (client_at self.old.core client)) }
        ensures ok { OnOk result (GivesAll self.old.core client (output_by (client_at self.old.core client)) self.new.core) }
        ensures err { IfErr result (λ fault. OutputFault self.old.core client fault × (self.new ≡ self.old)) }
        ensures out { OnErr result (bytes_of out.new ≡ bytes_of out.old) }
        ensures fresh { OnOk result (LogsGoBy self.old (λ entries. entries ≡ log.Gives client (output_by (client_at self.old.core client)) ∷ []) self.new) }
    {
        self.core.move_output(client, out)
    }

    /// A client's new output, which is then empty. Each log goes on by what was given.
    ///
    /// `NoClient`; `NoMemory`. After an error all is as it was.
    pub fn take_output(&mut self, client: usize) -> Result<Vec<u8>, CoreFault>
        ensures ok { IfOk result (λ bytes. GivesAll self.old.core client bytes.items self.new.core) }
        ensures err { IfErr result (λ fault. OutputFault self.old.core client fault × (self.new ≡ self.old)) }
        ensures fresh { IfOk result (λ bytes. LogsGoBy self.old (λ entries. entries ≡ log.Gives client bytes.items ∷ []) self.new) }
    {
        self.core.take_output(client)
    }

    /// The client is gone, and with it what it sent and was not given, and stands in no line of a key any more. Each log goes on by
    /// that.
    ///
    /// `NoClient`; `UnderWay` where a command of it has begun and not ended. After an error all is as it was.
    pub fn close(&mut self, client: usize) -> Result<(), CoreFault>
        ensures ok { OnOk result (CanClose self.old.core client × ClosesClient self.old.core client self.new.core) }
        ensures err { IfErr result (λ fault. CloseFault self.old.core client fault × (self.new ≡ self.old)) }
        ensures fresh { OnOk result (LogsGoBy self.old (λ entries. entries ≡ log.Resets client ∷ []) self.new) }
    {
        self.core.close(client)
    }

    /// Does the next thing that can be done for a client, and tells it: a command of it goes on, its next command begins, or a
    /// message that asks no server is answered. [`Poll`] has what there is to tell, and `Core::poll` says when a command begins.
    /// Each log goes on by what was told, and before that by a command that began, where one did. A command that ended is counted,
    /// and so are a message that was refused and a call that was given out.
    ///
    /// `NoClient`, and `Spent` where the last number that there is was given out: all is as it was. `NoMemory`: nothing is done for
    /// the client any more, which stands in no line of a key, and whose commands of which no call is out are broken off. Each log
    /// goes on by what was done before, and by that.
    pub fn poll(&mut self, client: usize) -> Result<Poll, CoreFault>
        ensures ok { IfOk result (λ poll. Polls self.old.core client poll self.new.core) }
        ensures err { IfErr result (λ fault. PollFault self.old.core client fault self.new.core) }
        ensures fresh { IfOk result (λ poll. PollGoes self.old client poll self.new) }
        ensures stops { IfErr result (λ fault. PollStops self.old client fault self.new) }
    {
        let polled = self.core.poll(client);
        self.tally.note_polled(&polled);
        polled
    }

    /// What it has done so far: clients opened or turned away, messages refused, commands ended, and calls given out, answered and
    /// failed, of all servers and of each, as its calls told, and how often something was done for what nothing shows.
    pub fn tally(&self) -> &CoreTally
        ensures { result.now ≡ self.now.tally }
    {
        &self.tally
    }

    /// How many commands have begun, one for each key of a message: so many begin in each log that may have led to the core.
    pub fn begun(&self) -> u64
        ensures exact { result ≡ self.now.core.number }
        ensures counted { CountsBegun self.now result }
    {
        self.core.begun()
    }

    /// The client leaves the line of the key that its next command waits for: whether it stood in one. Nothing else changes, and
    /// each log stays.
    pub fn leave_line(&mut self, client: usize) -> bool
        ensures stood { result ≡ is_standing client self.old.core.lines }
        ensures left { LeavesLine self.old.core client self.new.core }
        ensures fresh { LogsGoBy self.old (λ entries. entries ≡ []) self.new }
    {
        self.core.leave_line(client)
    }

    /// What the call of this number asks that is out, which a client can write; `None` where none is out.
    pub fn asked(&self, number: u64) -> Option<&Ask>
        ensures exact { option_map (λ ask. ask.now) result ≡ asked self.now.core number }
        ensures formed { IfSome result (λ ask. IsAsk ask.now) }
    {
        self.core.asked(number)
    }

    // At which server the call of this number is that is out.
    fn server_of(&self, number: u64) -> Option<usize>
        ensures { IfSome result (IsCallAt self.now.core number) }
    {
        match self.core.called(number) {
            Some(call) => Some(call.server.number() as usize),
            None => None,
        }
    }

    /// A call that was given out had this outcome, which fits its ask. Its command goes on by that, or is broken off where nothing
    /// is done for its client any more. The call is counted as answered or as failed, also at its server. However the call ended at its server, if that
    /// gives the outcome and fits what the server held, each log goes on by it.
    ///
    /// `NoTicket` where no call of the ticket's number is out: all is as it was. `NoMemory`: the call had its outcome all the same,
    /// and is counted; nothing is done for the command's client any more, and those of its commands of which no call is out are
    /// broken off.
    pub fn settle(&mut self, ticket: Ticket, outcome: Outcome) -> Result<(), CoreFault>
        requires fits { FitsCall self.old.core ticket.number outcome }
        ensures ok { OnOk result (TakesResult self.old ticket.number outcome self.new) }
        ensures err { IfErr result (λ fault. SettleFault self.old.core ticket.number outcome fault self.new.core) }
        ensures stops { IfErr result (λ fault. SettleStops self.old ticket.number outcome fault self.new) }
        ensures settled { IsSettled self.old ticket.number outcome self.new }
    {
        let server = self.server_of(ticket.number);
        let answered = is_answer(&outcome);
        let settled = self.core.settle(ticket, outcome);
        self.tally.note_settled(answered, server, &settled);
        settled
    }

    /// Whether there is no client of this id, or nothing is read of it any more.
    pub fn is_closed(&self, client: usize) -> bool
        ensures { IsTrue result ↔ IsClosed self.now.core client }
    {
        self.core.is_closed(client)
    }

    /// Whether a command has begun and not ended.
    pub fn is_out(&self) -> bool
        ensures { IsTrue result ↔ IsOut self.now.core }
    {
        self.core.is_out()
    }

    /// Commands that begin from now on run by this configuration's tree, and those that are under way end on the trees on which
    /// they began. It gives the number of the generation.
    ///
    /// Where the gate accepted its trees, the new one has to clear what it takes, each generation's tree too unless nothing was put
    /// there before, and the list of servers has to begin with the one in use. After a fault all is as it was. Its new servers have
    /// places among the counts, if no memory is refused for them.
    pub fn load(&mut self, alloc: Global, config: Config) -> Result<u32, LoadFault>
        ensures loaded { IfOk result (λ number. IsLoaded self.old config number self.new) }
        ensures refused { IfErr result (λ fault. RefusesLoad self.old config fault × (self.new ≡ self.old)) }
    {
        let servers = config.servers().len();
        let loaded = self.take(alloc, config);
        self.make_places(servers, &loaded);
        loaded
    }

    // So many servers have places among the counts, if they were loaded and no memory is refused.
    fn make_places(&mut self, servers: usize, loaded: &Result<u32, LoadFault>)
        ensures ok { OnOk loaded.now (TakesPlaces self.old self.new) }
        ensures err { OnErr loaded.now (self.new ≡ self.old) }
    {
        if loaded.is_ok() {
            self.tally.make_places(servers);
        }
    }

    // The configuration is taken up; the counts stay as they are.
    fn take(&mut self, alloc: Global, config: Config) -> Result<u32, LoadFault>
        ensures loaded { IfOk result (λ number. IsTakenUp self.old config number self.new) }
        ensures refused { IfErr result (λ fault. RefusesLoad self.old config fault × (self.new ≡ self.old)) }
    {
        match &mut self.accepted {
            Some(generations) => load_accepted(&mut self.core, generations, alloc, config),
            None => load_any(&mut self.core, config),
        }
    }
}
