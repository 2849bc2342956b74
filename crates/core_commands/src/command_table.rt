//! The commands that have begun and have not ended.

ghost use Rattle.std.specs.Prelude.{◌≡◌, ◌+◌, ◌++◌, ◌∷◌, [], ◌↔◌, ℕ, List, true, false, not, Some, None, if◌then◌else◌, nat_eq, IfOk, IfSome, OnOk, OnErr, IsSome, is_some, option_copied, slice_get};
ghost use Rattle.std.specs.List.{list_any};
ghost use Rattle.indexmap.specs.IndexMap.{get, index_of_by, values, index_map_len, swap_remove_entry, IsEmpty};
ghost use Rattle.fresh_runs.specs.Calls.{Call as CallMade};
ghost use Rattle.fresh_runs.specs.Single.{FitsOutcome};
ghost use Rattle.route_tree.specs.Word.{Given};
ghost use Rattle.route_job.specs.Given.{given_when_done};
ghost use Rattle.route_job.specs.Jobs.{Comes, IsDone};
ghost use Rattle.route_job.specs.Rest.{ask_under};
ghost use Rattle.core_commands.specs.Begun.{FitsOneMore, PutsCommand};
ghost use Rattle.core_commands.specs.Claims.{clears_key, copies_key, is_barred};
ghost use Rattle.core_commands.specs.Counts.{is_without_call, HasAllCallsOut};
ghost use Rattle.core_commands.specs.Ready.{calls_at};
ghost use Rattle.core_commands.specs.Out.{has_call_out};
ghost use Rattle.core_commands.specs.Tables.{IsAtCall, CallsOut, IsCallerOf, TakesAt};

use crate::begun::drop_command;
use crate::claim::Claim;
use crate::command::Command;
use crate::counts::{count_of, count_where, uncount_where};
use crate::guesses::Guesses;
use crate::held_job::HeldJob;
use crate::places::CountsByPlace;
use crate::spares::Spares;
use crate::ticket::Ticket;
use indexmap::IndexMap;
use mc_types::{Key, Outcome, ServerId, SharedAsk};
use route_job::Done;
use std::alloc::{AllocError, Global};
use std::marker::Model;

/// The commands that have begun and have not ended, by number.
///
/// How many of them clear each key, how many copy to it, how many calls of them are out at each server, and how many of each
/// client have no call out, is counted beside them, so that none of it is asked of all of them. Where memory was refused for a
/// count, it is, from then on. The memory of those that ended is kept for those that begin.
#[derive(Drop)]
pub struct CommandTable {
    by_number: IndexMap<u64, Command>,
    clearing: IndexMap<Key, usize>,
    copying: IndexMap<Key, usize>,
    at_server: CountsByPlace,
    waiting: CountsByPlace,
    is_counted: bool,
    guesses: Guesses,
    spares: Spares,
}

impl Model for CommandTable {
    ghost use Rattle.std.specs.Prelude.{◌≡◌, true};
    ghost use Rattle.core_commands.specs.Counts.{ByNumber, CountsCommands};

    ghost Value = { ByNumber };

    ghost use Rattle.std.specs.Coded.{codes};
    ghost use Rattle.indexmap.specs.Layout.{hash_map_code};
    ghost use Rattle.core_commands.specs.contracts.command.Command as commands;

    ghost coded = { Prim.hlevel (codes, hash_map_code, commands.the_row.coded) };

    ghost view = { λ t. t.by_number };

    ghost invariant = { λ t. t.is_counted ≡ true → CountsCommands t.by_number t.clearing t.copying t.at_server t.waiting };
}

// Whether no command had the number. One that had is let go.
fn is_none(old: Option<Command>) -> bool
    ensures { result ≡ true → old ≡ None }
{
    match old {
        None => true,
        Some(command) => {
            drop_command(command);
            false
        }
    }
}

// One more command. Whether no other had its number.
fn put_new(number: u64, command: Command, commands: &mut IndexMap<u64, Command>) -> bool
    requires { FitsOneMore commands.old }
    ensures puts { (n : ℕ) → PutsCommand commands.old number command commands.new n }
    ensures last { result ≡ true → commands.new.entries ≡ commands.old.entries ++ (number, command) ∷ [] }
{
    let Ok(old) = commands.insert(number, command) else {
        unreachable!();
    };
    is_none(old)
}

// Where the command of this number stands, if there is one. It is looked for by its hash only where it doesn't stand where it is guessed to.
fn place_of(number: u64, guesses: &Guesses, commands: &IndexMap<u64, Command>) -> Option<usize>
    ensures index { result ≡ index_of_by (nat_eq number) commands.now }
    ensures found { is_some result ≡ is_some (get nat_eq commands.now number) }
    ensures value { IfSome result (λ i. slice_get (values commands.now) i ≡ get nat_eq commands.now number) }
{
    let guess = guesses.guess_of(number);
    if guess < commands.len() {
        if let Some((there, _)) = commands.get_index(guess) {
            if *there == number {
                return Some(guess);
            }
        }
    }
    commands.get_index_of(&number)
}

// The command of this number.
fn command_at<'a>(
    number: u64,
    guesses: &Guesses,
    commands: &'a IndexMap<u64, Command>,
) -> Option<&'a Command>
    ensures value { option_copied result ≡ get nat_eq commands.now number }
{
    match place_of(number, guesses, commands) {
        None => None,
        Some(place) => match commands.get_index(place) {
            Some((_, command)) => Some(command),
            None => unreachable!(),
        },
    }
}

// The command that stands there, where one does, is guessed to.
fn guess_at(place: usize, commands: &IndexMap<u64, Command>, guesses: &mut Guesses) {
    if let Some((number, _)) = commands.get_index(place) {
        guesses.note(*number, place);
    }
}

// Takes the command of this number out of its place, which the last one has then.
fn take_out(
    number: u64,
    commands: &mut IndexMap<u64, Command>,
    guesses: &mut Guesses,
) -> Option<Command>
    ensures value { result ≡ get nat_eq commands.old number }
    ensures gone { (n : ℕ) → get nat_eq commands.new n ≡ (if nat_eq number n then None else get nat_eq commands.old n) }
    ensures entries { commands.new.entries ≡ swap_remove_entry (nat_eq number) commands.old.entries }
    ensures len { index_map_len commands.new + (if is_some result then 1 else 0) ≡ index_map_len commands.old }
{
    match place_of(number, guesses, commands) {
        None => None,
        Some(place) => match commands.swap_remove_index(place) {
            Some((_, command)) => {
                guess_at(place, commands, guesses);
                Some(command)
            }
            None => unreachable!(),
        },
    }
}

// Whether both hold.
fn both(a: bool, b: bool) -> bool
    ensures { result ≡ true → (a ≡ true) × (b ≡ true) }
{
    a && b
}

// Whether one of the commands clears the key, by looking at each.
fn any_clears(key: &Key, commands: &IndexMap<u64, Command>) -> bool
    ensures { result ≡ list_any (clears_key key.now) (values commands.now) }
{
    commands.values().any(|command| command.claim.clears && *command.ask.key() == *key)
}

// Whether one of the commands copies to the key, by looking at each.
fn any_copies(key: &Key, commands: &IndexMap<u64, Command>) -> bool
    ensures { result ≡ list_any (copies_key key.now) (values commands.now) }
{
    commands.values().any(|command| command.claim.copies && *command.ask.key() == *key)
}

// Whether no call of one of this client's is out, by looking at each command.
fn any_without_call(client: usize, commands: &IndexMap<u64, Command>) -> bool
    ensures { result ≡ list_any (is_without_call client) (values commands.now) }
{
    commands.values().any(|command| command.client == client && !command.has_call_out())
}

// How many calls are out at the server, by looking at each command.
fn all_at(server: ServerId, commands: &IndexMap<u64, Command>) -> usize
    ensures { result ≡ calls_at server commands.now }
{
    commands
        .values()
        .filter(|command| command.is_called(server))
        .count()
}

impl CommandTable {
    /// No command. It takes no memory.
    pub fn new(alloc: Global) -> CommandTable
        ensures { IsEmpty result }
    {
        CommandTable {
            by_number: IndexMap::new(alloc),
            clearing: IndexMap::new(alloc),
            copying: IndexMap::new(alloc),
            at_server: CountsByPlace::new(alloc),
            waiting: CountsByPlace::new(alloc),
            is_counted: true,
            guesses: Guesses::new(alloc),
            spares: Spares::new(alloc),
        }
    }

    /// An ask that nobody wants any more, if one is kept, for [`SharedAsk::reusing`]. It takes no memory.
    pub fn take_ask(&mut self) -> Option<SharedAsk>
        ensures { self.new ≡ self.old }
    {
        self.spares.take_ask()
    }

    /// The memory of an ask that doesn't begin is kept for others.
    pub fn keep_ask(&mut self, ask: SharedAsk)
        ensures { self.new ≡ self.old }
    {
        self.spares.keep_ask(ask);
    }

    /// The room of a job that ended, if one is kept, for [`crate::begun::command_of`]. It takes no memory.
    pub fn take_room(&mut self) -> Option<HeldJob>
        ensures { self.new ≡ self.old }
    {
        self.spares.take_job()
    }

    /// How the command of this ask and this job ended, which isn't among these any more. Their memory is kept for others.
    pub fn end(&mut self, alloc: Global, ask: &SharedAsk, job: HeldJob) -> Done
        requires { IsDone job }
        ensures done { (calls : List CallMade) (given : Given) → Comes job calls given ↔ ((calls ≡ []) × (given ≡ given_when_done result)) }
        ensures same { self.new ≡ self.old }
    {
        self.spares.keep_shared(ask);
        self.spares.end_job(alloc, job)
    }

    /// The memory of a command of this ask and this job, which isn't among these any more, and of whose end nothing more is wanted, is
    /// kept for others. What the job held is let go where it stands.
    pub fn keep(&mut self, alloc: Global, ask: &SharedAsk, job: HeldJob)
        ensures { self.new ≡ self.old }
    {
        self.spares.keep_shared(ask);
        self.spares.keep_job(alloc, job);
    }

    /// How many commands there are. It takes no memory.
    pub fn len(&self) -> usize
        ensures { result ≡ index_map_len self.now }
    {
        self.by_number.len()
    }

    /// The command of this number. It takes no memory.
    pub fn get(&self, number: u64) -> Option<&Command>
        ensures value { option_copied result ≡ get nat_eq self.now number }
    {
        command_at(number, &self.guesses, &self.by_number)
    }

    /// The commands, by number. It takes no memory.
    pub fn by_number(&self) -> &IndexMap<u64, Command>
        ensures { result.now ≡ self.now }
    {
        &self.by_number
    }

    /// Makes room for one more.
    pub fn make_room(&mut self) -> Result<(), AllocError>
        ensures entries { self.new.entries ≡ self.old.entries }
        ensures ok { OnOk result (FitsOneMore self.new) }
    {
        self.guesses.make_room();
        self.by_number.reserve(1)
    }

    /// One more command, of which no call is out, in the room that was made for it.
    pub fn put(&mut self, number: u64, command: Command)
        requires room { FitsOneMore self.old }
        requires idle { command.is_out ≡ false }
        ensures { (n : ℕ) → PutsCommand self.old number command self.new n }
    {
        let claim = command.claim;
        let clears = count_where(claim.clears, command.ask.key(), &mut self.clearing);
        let copies = count_where(claim.copies, command.ask.key(), &mut self.copying);
        let waits = self.waiting.count_one(command.client);
        self.guesses.note(number, self.by_number.len());
        let is_new = put_new(number, command, &mut self.by_number);
        self.is_counted = both(
            both(self.is_counted, is_new),
            both(both(clears, copies), waits),
        );
    }

    /// Takes the command of this number out. It takes no memory.
    pub fn remove(&mut self, number: u64) -> Option<Command>
        ensures value { result ≡ get nat_eq self.old number }
        ensures gone { (n : ℕ) → get nat_eq self.new n ≡ (if nat_eq number n then None else get nat_eq self.old n) }
        ensures less { IsSome (get nat_eq self.old number) → index_map_len self.new + 1 ≡ index_map_len self.old }
    {
        let command = take_out(number, &mut self.by_number, &mut self.guesses)?;
        let claim = command.claim;
        let is_idle = !command.has_call_out();
        let clears = uncount_where(claim.clears, command.ask.key(), &mut self.clearing);
        let copies = uncount_where(claim.copies, command.ask.key(), &mut self.copying);
        let waited = self.waiting.uncount_one(command.client);
        self.is_counted = both(
            both(self.is_counted, is_idle),
            both(both(clears, copies), waited),
        );
        Some(command)
    }

    /// The next call of the command of this number, which is out then. The only error is running out of memory, which leaves
    /// all commands as they were; it is refused only where the count of the ask's sharers is full.
    pub fn send(&mut self, number: u64) -> Result<Ticket, AllocError>
        requires { IsAtCall self.old number }
        ensures ok { IfOk result (λ ticket. CallsOut self.old number ticket self.new) }
        ensures err { OnErr result (self.new ≡ self.old) }
    {
        let Some(place) = place_of(number, &self.guesses, &self.by_number) else {
            unreachable!();
        };
        let Some(command) = self.by_number.get_index_mut(place) else {
            unreachable!();
        };
        let ticket = command.send(number)?;
        let client = command.client;
        let is_out = self.at_server.count_one(ticket.server.number() as usize);
        let waited = self.waiting.uncount_one(client);
        self.is_counted = both(self.is_counted, both(is_out, waited));
        Ok(ticket)
    }

    /// Whose the command of this number is, if a call of it is out. It takes no memory.
    pub fn caller(&self, number: u64) -> Option<usize>
        ensures { IsCallerOf self.now number result }
    {
        let command = command_at(number, &self.guesses, &self.by_number)?;
        if command.has_call_out() {
            Some(command.client)
        } else {
            None
        }
    }

    /// The call of the command of this number had this outcome. The only error: memory was refused, and its job is broken then.
    pub fn take(&mut self, alloc: Global, number: u64, outcome: Outcome) -> Result<(), AllocError>
        requires out { (a : Command) × (get nat_eq self.old number ≡ Some a) × (has_call_out a ≡ true) }
        requires fits { (a : Command) → get nat_eq self.old number ≡ Some a → has_call_out a ≡ true → FitsOutcome (ask_under a.job.frames.items a.job.ask) outcome }
        ensures { TakesAt self.old number outcome (OnOk result) self.new }
    {
        let Some(place) = place_of(number, &self.guesses, &self.by_number) else {
            unreachable!();
        };
        let Some(command) = self.by_number.get_index_mut(place) else {
            unreachable!();
        };
        let server = command.server();
        let taken = command.take(alloc, outcome);
        let client = command.client;
        let was_out = self.at_server.uncount_one(server.number() as usize);
        let waits = self.waiting.count_one(client);
        self.is_counted = both(self.is_counted, both(was_out, waits));
        taken
    }

    // Whether a command under way clears this key.
    fn is_cleared(&self, key: &Key) -> bool
        ensures { result ≡ list_any (clears_key key.now) (values self.now) }
    {
        if self.is_counted {
            0 < count_of(key, &self.clearing)
        } else {
            any_clears(key, &self.by_number)
        }
    }

    // Whether a command under way copies to this key.
    fn is_copied(&self, key: &Key) -> bool
        ensures { result ≡ list_any (copies_key key.now) (values self.now) }
    {
        if self.is_counted {
            0 < count_of(key, &self.copying)
        } else {
            any_copies(key, &self.by_number)
        }
    }

    /// Whether a command under way stands in the way of this claim on the key. It takes no memory, and looks nothing up for a
    /// command that claims nothing.
    pub fn is_barred(&self, key: &Key, claim: Claim) -> bool
        ensures { result ≡ is_barred key.now claim self.now }
    {
        (claim.clears && self.is_copied(key)) || (claim.copies && self.is_cleared(key))
    }

    /// How many calls are out at a server. It takes no memory.
    pub fn calls_at(&self, server: ServerId) -> usize
        ensures { result ≡ calls_at server self.now }
    {
        if self.is_counted {
            self.at_server.count_of(server.number() as usize)
        } else {
            all_at(server, &self.by_number)
        }
    }

    // Whether no call of a command of this client is out.
    fn has_without_call(&self, client: usize) -> bool
        ensures { result ≡ list_any (is_without_call client) (values self.now) }
    {
        if self.is_counted {
            0 < self.waiting.count_of(client)
        } else {
            any_without_call(client, &self.by_number)
        }
    }

    /// Whether each command of this client has its call out, so that none of them can go on. It takes no memory, and looks at no
    /// command.
    pub fn is_all_out(&self, client: usize) -> bool
        ensures exact { result ≡ not (list_any (is_without_call client) (values self.now)) }
        ensures out { result ≡ true → HasAllCallsOut client self.now }
    {
        !self.has_without_call(client)
    }
}
