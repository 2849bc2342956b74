//! A command ends, and replies are shown.

ghost use Rattle.std.specs.Prelude.{◌≡◌, ◌↔◌, [], IsTrue, None, false, OnOk, IfOk, IfErr, IfSome, IfNone, IsSome, MatchBool};
ghost use Rattle.route_job.specs.Given.{given_when_done};
ghost use Rattle.route_job.specs.Jobs.{Comes, IsDone};
ghost use Rattle.core_proxy.specs.CoreState.{GoesByEntries, command_at};
ghost use Rattle.core_proxy.specs.Polls.{ForClient, ClientIsServed, CommandIsEnded, AreShown, HasShownAll, NothingHappened, EntriesThen, ShowsNext, StandsStill, StopsFirst, StopsAfter};
ghost use Rattle.core_proxy.specs.Finishing.{CanEnd, IsNote, ShowsDone, TakesAway};
ghost use Rattle.core_client.specs.Fronts.{ClientStays};
ghost use Rattle.mc_types.specs.Acknowledged.{Acknowledges};
ghost use Rattle.mc_types.specs.Fits.{is_error};

use crate::fault::CoreFault;
use crate::note::Note;
use crate::proxy::Core;
use core_client::Client;
use core_commands::{Command, CommandTable};
use mc_types::{Answer, Ask, SharedAsk};
use route_job::{Done, JobStep};
use std::alloc::Global;

/// What is told of a command that ended, beside its ask.
#[derive(Clone, Copy)]
pub struct EndedCommand {
    pub from: Option<u64>,
    pub acknowledged: bool,
    pub is_error: bool,
}

// Whether a reply is an error line.
fn says_error(reply: &Answer) -> bool
    ensures { result ≡ is_error reply.now }
{
    match reply {
        Answer::Error | Answer::ClientError(_) | Answer::ServerError(_) => true,
        _ => false,
    }
}

// What is told of a command of this ask that ended with this reply.
fn told_of(ask: &Ask, done: &Done) -> EndedCommand
    ensures from { result.from ≡ (given_when_done done.now).from }
    ensures acknowledged { IsTrue result.acknowledged ↔ Acknowledges ask.now (given_when_done done.now).reply }
    ensures error { result.is_error ≡ is_error (given_when_done done.now).reply }
{
    EndedCommand {
        from: done.from,
        acknowledged: done.reply.acknowledges(ask),
        is_error: says_error(&done.reply),
    }
}

// The reply of a command of the client whose job is done is shown at once, where nothing stands before it: what is told of the command
// then. Else, and where memory is refused, nothing has changed.
fn show_done(number: u64, command: &Command, client: &mut Client) -> Option<EndedCommand>
    requires done { IsDone command.now.job }
    requires served { client.old.dropped ≡ false }
    ensures some { IfSome result (λ told. ShowsDone number command.now client.old told client.new) }
    ensures none { IfNone result (ClientStays client.old client.new) }
{
    match command.job.next() {
        JobStep::Call { .. } => unreachable!(),
        JobStep::Done(done) => match client.show_at_once(number, &done.reply) {
            Ok(true) => Some(told_of(command.ask.get(), done)),
            _ => None,
        },
    }
}

// How a command ended whose job is done, which isn't among the commands any more. Its memory is kept for others.
fn done_of(alloc: Global, command: Command, commands: &mut CommandTable) -> (SharedAsk, Done)
    requires { IsDone command.job }
    ensures ask { result.0 ≡ command.ask }
    ensures done { Comes command.job [] (given_when_done result.1) }
    ensures same { commands.new ≡ commands.old }
{
    let Command {
        job,
        ask,
        client: _client,
        claim: _claim,
        is_out: _is_out,
    } = command;
    let done = commands.end(alloc, &ask, job);
    (ask, done)
}

// What is told of a command that ended, and its reply.
fn note_of(number: u64, ask: SharedAsk, done: Done) -> (Note, Answer)
    ensures { IsNote number ask (given_when_done done) result.0 result.1 }
{
    let Done { from, reply } = done;
    let acknowledged = reply.acknowledges(ask.get());
    let is_error = says_error(&reply);
    let note = Note {
        ask,
        from,
        number,
        acknowledged,
        is_error,
    };
    (note, reply)
}

impl Core {
    // A command is taken out whose reply was shown: its ask. Its memory is kept for others.
    fn take_away(&mut self, number: u64) -> SharedAsk
        requires { IsSome (command_at self.old number) }
        ensures { TakesAway self.old number result self.new }
    {
        let Some(command) = self.commands.remove(number) else {
            unreachable!();
        };
        let Command {
            job,
            ask,
            client: _client,
            claim: _claim,
            is_out: _is_out,
        } = command;
        self.commands.keep(self.alloc, &ask, job);
        ask
    }

    // A command of the client whose job is done has its reply, which isn't shown yet.
    fn end_unshown(&mut self, client: usize, number: u64) -> Note
        requires served { ForClient self.old client ClientIsServed }
        requires done { CanEnd self.old client number }
        ensures ended { GoesByEntries self.old (CommandIsEnded client result) self.new }
        ensures served { ForClient self.new client ClientIsServed }
        ensures still { StandsStill self.old self.new }
    {
        let Some(command) = self.commands.remove(number) else {
            unreachable!();
        };
        let (ask, done) = done_of(self.alloc, command, &mut self.commands);
        let (note, reply) = note_of(number, ask, done);
        match self.clients.get_mut(client) {
            None => unreachable!(),
            Some(x) => x.take_reply(number, reply),
        }
        note
    }

    // The reply of a command of the client whose job is done is shown at once, where nothing stands before it, and the command is over:
    // what is told of it. Else nothing has changed.
    fn end_at_once(&mut self, client: usize, number: u64) -> Option<Note>
        requires served { ForClient self.old client ClientIsServed }
        requires done { CanEnd self.old client number }
        ensures some { IfSome result (λ note. GoesByEntries self.old (EntriesThen (CommandIsEnded client note) (AreShown client)) self.new) }
        ensures none { IfNone result (GoesByEntries self.old NothingHappened self.new × CanEnd self.new client number) }
        ensures served { ForClient self.new client ClientIsServed }
        ensures still { StandsStill self.old self.new }
    {
        let Some(command) = self.commands.get(number) else {
            unreachable!();
        };
        let Some(x) = self.clients.get_mut(client) else {
            unreachable!();
        };
        let told = show_done(number, command, x)?;
        let ask = self.take_away(number);
        Some(Note {
            ask,
            from: told.from,
            number,
            acknowledged: told.acknowledged,
            is_error: told.is_error,
        })
    }

    // A command of the client whose job is done has its reply, which is shown where nothing stands before it.
    pub(crate) fn end(&mut self, client: usize, number: u64) -> Note
        requires served { ForClient self.old client ClientIsServed }
        requires done { CanEnd self.old client number }
        ensures ended { GoesByEntries self.old (EntriesThen (CommandIsEnded client result) (AreShown client)) self.new }
        ensures served { ForClient self.new client ClientIsServed }
        ensures still { StandsStill self.old self.new }
    {
        match self.end_at_once(client, number) {
            Some(note) => note,
            None => self.end_unshown(client, number),
        }
    }

    // The reply at the head of the client's commands is shown, if there is one: whether there was.
    fn show_next(&mut self, client: usize) -> Result<bool, CoreFault>
        requires { ForClient self.old client ClientIsServed }
        ensures ok { IfOk result (λ shown. ShowsNext self.old client shown self.new) }
        ensures err { IfErr result (λ fault. StopsFirst client self.old fault self.new) }
        ensures still { StandsStill self.old self.new }
    {
        match self.clients.get_mut(client) {
            None => unreachable!(),
            Some(x) => match x.show_head() {
                Ok(shown) => Ok(shown),
                Err(_) => Err(CoreFault::NoMemory),
            },
        }
    }

    // All replies at the head of the client's commands are shown. Where memory is refused, some of them are.
    pub(crate) fn show_all(&mut self, client: usize) -> Result<(), CoreFault>
        requires { ForClient self.old client ClientIsServed }
        ensures ok { OnOk result (GoesByEntries self.old (AreShown client) self.new) }
        ensures shown { OnOk result (HasShownAll self.new client) }
        ensures err { IfErr result (λ fault. StopsAfter client (AreShown client) self.old fault self.new) }
        ensures still { StandsStill self.old self.new }
    {
        while self.show_next(client)? {}
        Ok(())
    }
}
