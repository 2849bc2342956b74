//! What can be done next for a client.

ghost use Rattle.std.specs.Prelude.{◌≡◌, ◌<◌, ◌⊎◌, true, false, OnOk, OnErr, IfOk, IfErr, IfSome, IfNone};
ghost use Rattle.mc_types.specs.Asks.{IsAsk};
ghost use Rattle.route_tree.specs.Route.{IsTree};
ghost use Rattle.core_proxy.specs.CoreState.{GoesByEntries};
ghost use Rattle.route_tree.specs.At.{tree_at};
ghost use Rattle.core_proxy.specs.Claims.{claim_by, is_barred};
ghost use Rattle.core_client.specs.Clients.{has_own};
ghost use Rattle.core_commands.specs.Begun.{IsBegun};
ghost use Rattle.core_commands.specs.Ready.{IsCommandTurn};
ghost use Rattle.core_proxy.specs.Finishing.{CanEnd};
ghost use Rattle.core_proxy.specs.Polls.{ForClient, IsPassed, StopsFirst, BeginsAt, CanSend, IsTicketOf, IsSent, ClientIsServed, DropsOne, DropsAll, Acts, SoEnded, StopsAfter, IsAtLast, NoCommandGoesOn, NoneWaits, NothingBegins, MayAsk, IsNextAsk, bars, stands_before, claim_of, StandsStill, Polls, ReadFault, PollFault};
ghost use Rattle.core_client.specs.Nexts.{IsPassing, CanBegin, CanAskBelow, CanAsk, HasKey, IsNextOf};
ghost use Rattle.wire_stream.specs.Held.{IsReadAt};
ghost use Rattle.core_proxy.specs.declared.fault.CoreFault.TheVariants.{NoMemory};
ghost use Rattle.core_proxy.specs.Resting.{goes_on, IsReady};
ghost use Rattle.core_commands.specs.declared.turns.Turn.TheVariants.{Full};

use crate::fault::CoreFault;
use crate::limits::LAST_COMMAND;
use crate::looking::{Runnable, first_full, first_ready};
use crate::note::Poll;
use crate::proxy::Core;
use core_client::Next;
use core_commands::begun::{command_of, drop_ask, drop_command};
use core_commands::{Claim, Command, Ticket, Turn, turn_of};
use mc_types::{Key, SharedAsk};
use route_job::FormedAsk;
use wire_stream::connection::Passed;
use wire_stream::{Read, Request, version_of};

impl Core {
    // The message that was read at the client's front, which asks no server, is answered.
    fn pass_front(&mut self, client: usize, read: Read) -> Result<Passed, CoreFault>
        requires { ForClient self.old client (IsPassing read) }
        ensures ok { IfOk result (λ passed. GoesByEntries self.old (IsPassed client passed) self.new) }
        ensures err { IfErr result (λ fault. StopsFirst client self.old fault self.new) }
        ensures still { StandsStill self.old self.new }
    {
        match self.clients.get_mut(client) {
            None => unreachable!(),
            Some(x) => match x.pass(read, version_of(&self.limits.version)) {
                Ok(passed) => Ok(passed),
                Err(_) => Err(CoreFault::NoMemory),
            },
        }
    }

    // The next key of the request at the client's front begins as this command, and the client leaves the line of its key.
    fn begin_command(
        &mut self,
        client: usize,
        request: &Request,
        ask: SharedAsk,
        command: Command,
    ) -> Result<(), CoreFault>
        requires key { ForClient self.old client (CanBegin request.now ask) }
        requires first { ForClient self.old client (λ x. has_own ask.key x.queue.items ≡ false) }
        requires apart { is_barred ask.key command.claim self.old.commands ≡ false }
        requires claim { command.claim ≡ claim_by self.old.limits.sharing ask.op (tree_at self.old.tree ask.key) }
        requires well_formed { IsAsk ask }
        requires number { self.old.number < LAST_COMMAND }
        requires begun { IsBegun self.old.tree client ask command.claim command }
        requires tree { IsTree self.old.tree }
        ensures ok { OnOk result (BeginsAt self.old client ask self.new) }
        ensures err { IfErr result (λ fault. StopsFirst client self.old fault self.new) }
        ensures kept { OnErr result (self.new.lines ≡ self.old.lines) }
    {
        if self.commands.make_room().is_err() {
            drop_command(command);
            drop_ask(ask);
            return Err(CoreFault::NoMemory);
        }
        let number = self.number + 1;
        let begun = match self.clients.get_mut(client) {
            None => unreachable!(),
            Some(x) => x.begin(request, ask, number),
        };
        if begun.is_err() {
            drop_command(command);
            return Err(CoreFault::NoMemory);
        }
        self.commands.put(number, command);
        self.lines.leave(client);
        self.number = number;
        Ok(())
    }

    // The next key of the request at the client's front begins.
    fn begin_key(
        &mut self,
        client: usize,
        request: &Request,
        ask: SharedAsk,
        claim: Claim,
    ) -> Result<(), CoreFault>
        requires key { ForClient self.old client (CanBegin request.now ask) }
        requires first { ForClient self.old client (λ x. has_own ask.key x.queue.items ≡ false) }
        requires apart { is_barred ask.key claim self.old.commands ≡ false }
        requires claim_is { claim ≡ claim_by self.old.limits.sharing ask.op (tree_at self.old.tree ask.key) }
        requires well_formed { IsAsk ask }
        requires number { self.old.number < LAST_COMMAND }
        ensures ok { OnOk result (BeginsAt self.old client ask self.new) }
        ensures err { IfErr result (λ fault. StopsFirst client self.old fault self.new) }
        ensures kept { OnErr result (self.new.lines ≡ self.old.lines) }
    {
        let room = self.commands.take_room();
        let formed = FormedAsk { ask };
        match command_of(self.alloc, room, &self.tree, client, &formed, claim) {
            Ok(command) => self.begin_command(client, request, formed.ask, command),
            Err(_) => {
                drop_ask(formed.ask);
                Err(CoreFault::NoMemory)
            }
        }
    }

    // The next call of a command goes out.
    fn send(&mut self, client: usize, number: u64) -> Result<Ticket, CoreFault>
        requires served { ForClient self.old client ClientIsServed }
        requires can { CanSend self.old number }
        ensures number { IfOk result (λ ticket. ticket.number ≡ number) }
        ensures ok { IfOk result (λ ticket. GoesByEntries self.old (IsSent ticket) self.new) }
        ensures out { IfOk result (λ ticket. IsTicketOf self.new ticket) }
        ensures err { IfErr result (λ fault. StopsFirst client self.old fault self.new) }
        ensures still { StandsStill self.old self.new }
    {
        match self.commands.send(number) {
            Ok(ticket) => Ok(ticket),
            Err(_) => Err(CoreFault::NoMemory),
        }
    }

    // Nothing is done for the client any more, which leaves its line.
    fn drop_one(&mut self, client: usize)
        requires { ForClient self.old client ClientIsServed }
        ensures { DropsOne self.old client self.new }
    {
        self.lines.leave(client);
        match self.clients.get_mut(client) {
            None => unreachable!(),
            Some(x) => x.dropped = true,
        }
    }

    // Nothing is done for the client any more, and those of its commands of which no call is out are broken off.
    fn drop_client(&mut self, client: usize)
        requires { ForClient self.old client ClientIsServed }
        ensures { DropsAll self.old client self.new }
    {
        self.drop_one(client);
        self.free_idle(client);
    }

    // A command of the client ends, and what stands at the head of its commands is shown.
    fn finish(&mut self, client: usize, number: u64) -> Result<Poll, CoreFault>
        requires served { ForClient self.old client ClientIsServed }
        requires done { CanEnd self.old client number }
        ensures ok { IfOk result (λ poll. Acts self.old client poll self.new) }
        ensures err { IfErr result (λ fault. StopsAfter client (SoEnded client) self.old fault self.new) }
        ensures still { StandsStill self.old self.new }
    {
        let note = self.end(client, number);
        match self.show_all(client) {
            Ok(()) => Ok(Poll::Did(note)),
            Err(fault) => Err(fault),
        }
    }

    // A command of the client goes on.
    fn act(&mut self, client: usize, number: u64, turn: Turn) -> Result<Poll, CoreFault>
        requires served { ForClient self.old client ClientIsServed }
        requires turn { IsCommandTurn client self.old.limits.window self.old.commands number turn }
        requires goes_on { goes_on turn ≡ true }
        ensures ok { IfOk result (λ poll. Acts self.old client poll self.new) }
        ensures err { IfErr result (λ fault. StopsAfter client (SoEnded client) self.old fault self.new) }
        ensures still { StandsStill self.old self.new }
    {
        match turn {
            Turn::Sends => match self.send(client, number) {
                Ok(ticket) => Ok(Poll::Call(ticket)),
                Err(fault) => Err(fault),
            },
            Turn::Ends => self.finish(client, number),
            Turn::Full => unreachable!(),
            Turn::Rests => unreachable!(),
        }
    }

    // The command that began last goes on as it can.
    fn act_last(&mut self, client: usize) -> Result<Poll, CoreFault>
        requires { IsAtLast self.old client }
        ensures ok { IfOk result (λ poll. Acts self.old client poll self.new) }
        ensures err { IfErr result (λ fault. StopsAfter client (SoEnded client) self.old fault self.new) }
        ensures still { StandsStill self.old self.new }
    {
        let turn = turn_of(client, self.limits.window, self.number, &self.commands);
        if turn.goes_on() {
            return self.act(client, self.number, turn);
        }
        // The last command waits for its server, and the others can go on no more than before it.
        match self.ready(client) {
            Some(ready) => self.act(client, ready.number, ready.turn),
            None => Ok(Poll::Queued),
        }
    }

    // The ask of the next key of the request at the client's front.
    fn next_ask(&mut self, client: usize, request: &Request) -> Result<SharedAsk, CoreFault>
        requires { ForClient self.old client (CanAsk request.now) }
        ensures begins { IfOk result (λ ask. ForClient self.old client (CanBegin request.now ask)) }
        ensures asks { IfOk result IsAsk }
        ensures err { IfErr result (λ fault. fault ≡ NoMemory) }
        ensures same { self.new ≡ self.old }
    {
        let spare = self.commands.take_ask();
        match self.clients.get_mut(client) {
            None => unreachable!(),
            Some(x) => match x.next_ask(self.alloc, spare, request) {
                Ok(ask) => Ok(ask),
                Err(_) => Err(CoreFault::NoMemory),
            },
        }
    }

    // The memory of an ask that doesn't begin now is given back: the next poll makes the ask anew in it.
    fn give_back(&mut self, ask: SharedAsk)
        ensures { self.new ≡ self.old }
    {
        self.commands.keep_ask(ask);
    }

    // Whether a command of the client on this key has no reply yet.
    fn has_own(&self, client: usize, key: &Key) -> bool
        requires { ForClient self.now client ClientIsServed }
        ensures { ForClient self.now client (λ x. result ≡ has_own key.now x.queue.items) }
    {
        match self.clients.get(client) {
            None => unreachable!(),
            Some(x) => x.has_own(key),
        }
    }

    // The client's next command waits for its key: the client stands in its line, at the end if it didn't stand there.
    fn wait_in_line(
        &mut self,
        client: usize,
        ask: SharedAsk,
        claim: Claim,
    ) -> Result<Poll, CoreFault>
        requires next { IsNextAsk self.old client ask false }
        requires claim_is { claim ≡ claim_of self.old ask }
        requires waits { (bars self.old ask ≡ true) ⊎ (stands_before self.old client ask ≡ true) }
        requires may { MayAsk self.old client }
        requires held { NoCommandGoesOn self.old client }
        ensures ok { IfOk result (λ poll. Polls self.old client poll self.new) }
        ensures err { IfErr result (λ fault. ReadFault self.old client fault self.new) }
    {
        let joined = self.lines.join(client, ask.key(), claim);
        self.give_back(ask);
        match joined {
            Ok(true) => Ok(Poll::Queued),
            Ok(false) => Ok(Poll::Busy),
            Err(_) => Err(CoreFault::NoMemory),
        }
    }

    // This ask, of the next key of the request at the client's front, begins, and goes on as it can.
    fn begin_ask(
        &mut self,
        client: usize,
        request: &Request,
        ask: SharedAsk,
    ) -> Result<Poll, CoreFault>
        requires asks { ForClient self.old client (CanAskBelow self.old.limits.depth request.now) }
        requires next { ForClient self.old client (CanBegin request.now ask) }
        requires well_formed { IsAsk ask }
        requires held { NoCommandGoesOn self.old client }
        ensures ok { IfOk result (λ poll. Polls self.old client poll self.new) }
        ensures err { IfErr result (λ fault. ReadFault self.old client fault self.new) }
    {
        if self.has_own(client, ask.key()) {
            self.give_back(ask);
            return Ok(Poll::Busy);
        }
        let claim = Claim::of(self.limits.sharing, ask.get(), &self.tree);
        if self.commands.is_barred(ask.key(), claim) {
            return self.wait_in_line(client, ask, claim);
        }
        if self.lines.is_behind(client, ask.key(), claim) {
            return self.wait_in_line(client, ask, claim);
        }
        if self.number == LAST_COMMAND {
            self.give_back(ask);
            return Err(CoreFault::Spent);
        }
        match self.begin_key(client, request, ask, claim) {
            Ok(()) => self.act_last(client),
            Err(fault) => Err(fault),
        }
    }

    // The next key of the request at the client's front begins, and goes on as it can.
    fn begin_next(&mut self, client: usize, request: &Request) -> Result<Poll, CoreFault>
        requires asks { ForClient self.old client (CanAskBelow self.old.limits.depth request.now) }
        requires held { NoCommandGoesOn self.old client }
        ensures ok { IfOk result (λ poll. Polls self.old client poll self.new) }
        ensures err { IfErr result (λ fault. ReadFault self.old client fault self.new) }
    {
        match self.next_ask(client, request) {
            Ok(ask) => self.begin_ask(client, request, ask),
            Err(fault) => Err(fault),
        }
    }

    // The first command of the client that can go on.
    fn ready(&self, client: usize) -> Option<Runnable>
        requires { ForClient self.now client ClientIsServed }
        ensures some { IfSome result (λ ready. IsReady client self.now.limits.window self.now.commands ready) }
        ensures none { IfNone result (NoCommandGoesOn self.now client) }
    {
        // Where each has its call out, as mostly where the next command can begin, none is looked up.
        if self.commands.is_all_out(client) {
            return None;
        }
        match self.clients.get(client) {
            None => unreachable!(),
            Some(x) => first_ready(client, self.limits.window, &x.queue, &self.commands),
        }
    }

    // The first command of the client that waits for its server.
    fn full(&self, client: usize) -> Option<u64>
        requires { ForClient self.now client ClientIsServed }
        ensures some { IfSome result (λ number. IsCommandTurn client self.now.limits.window self.now.commands number Full) }
        ensures none { IfNone result (NoneWaits self.now client) }
    {
        // A command whose call is out doesn't wait for it.
        if self.commands.is_all_out(client) {
            return None;
        }
        match self.clients.get(client) {
            None => unreachable!(),
            Some(x) => first_full(client, self.limits.window, &x.queue, &self.commands),
        }
    }

    // What stands at the client's front.
    fn read_front(&self, client: usize) -> Read
        requires { ForClient self.now client ClientIsServed }
        ensures { ForClient self.now client (λ x. IsReadAt x.stream result) }
    {
        match self.clients.get(client) {
            None => unreachable!(),
            Some(x) => return x.read(),
        }
    }

    // What is next for the client, by what was read at its front.
    fn next_of(&self, client: usize, read: &Read) -> Next
        requires served { ForClient self.now client ClientIsServed }
        requires at { ForClient self.now client (λ x. IsReadAt x.stream read.now) }
        ensures { ForClient self.now client (λ x. IsNextOf self.now.limits.depth x read.now result) }
    {
        match self.clients.get(client) {
            None => unreachable!(),
            Some(x) => x.next(self.limits.depth, read),
        }
    }

    fn act_ready(&mut self, client: usize, ready: Runnable) -> Result<Poll, CoreFault>
        requires served { ForClient self.old client ClientIsServed }
        requires ready { IsReady client self.old.limits.window self.old.commands ready }
        ensures ok { IfOk result (λ poll. Polls self.old client poll self.new) }
        ensures err { IfErr result (λ fault. ReadFault self.old client fault self.new) }
    {
        self.act(client, ready.number, ready.turn)
    }

    // Nothing can be done: whether the client waits for a server, or for a reply.
    fn rest(&self, client: usize) -> Poll
        requires held { NoCommandGoesOn self.now client }
        requires later { NothingBegins self.now client }
        ensures { Polls self.now client result self.now }
    {
        match self.full(client) {
            Some(_) => Poll::Busy,
            None => Poll::Waiting,
        }
    }

    // The message that was read at the client's front, which asks no server, is answered.
    fn pass_on(&mut self, client: usize, read: Read) -> Result<Poll, CoreFault>
        requires held { NoCommandGoesOn self.old client }
        requires passing { ForClient self.old client (IsPassing read) }
        ensures ok { IfOk result (λ poll. Polls self.old client poll self.new) }
        ensures err { IfErr result (λ fault. ReadFault self.old client fault self.new) }
    {
        match self.pass_front(client, read) {
            Ok(Passed::Own) => Ok(Poll::Own),
            Ok(Passed::Refused) => Ok(Poll::Refused),
            Err(fault) => Err(fault),
        }
    }

    // The next key of the request that was read at the client's front begins, and goes on as it can.
    fn begin_read(&mut self, client: usize, read: &Read) -> Result<Poll, CoreFault>
        requires held { NoCommandGoesOn self.old client }
        requires key { ForClient self.old client (λ x. HasKey self.old.limits.depth x read.now) }
        ensures ok { IfOk result (λ poll. Polls self.old client poll self.new) }
        ensures err { IfErr result (λ fault. ReadFault self.old client fault self.new) }
    {
        match read {
            Read::Request(request) => self.begin_next(client, request),
            _ => unreachable!(),
        }
    }

    // What was read at the client's front is done, or begins.
    fn read_on(&mut self, client: usize, read: &Read, next: Next) -> Result<Poll, CoreFault>
        requires served { ForClient self.old client ClientIsServed }
        requires held { NoCommandGoesOn self.old client }
        requires next { ForClient self.old client (λ x. IsNextOf self.old.limits.depth x read.now next) }
        ensures ok { IfOk result (λ poll. Polls self.old client poll self.new) }
        ensures err { IfErr result (λ fault. ReadFault self.old client fault self.new) }
    {
        match next {
            Next::Nothing => Ok(Poll::Idle),
            Next::Passing => self.pass_on(client, *read),
            Next::Key => self.begin_read(client, read),
            Next::Later => Ok(self.rest(client)),
        }
    }

    // The next thing that can be done for a client whose commands can't go on. (apart, since what is read is large, and its caller would set the room for
    // it to 0 where a command goes on, too)
    #[inline(never)]
    fn poll_front(&mut self, client: usize) -> Result<Poll, CoreFault>
        requires served { ForClient self.old client ClientIsServed }
        requires held { NoCommandGoesOn self.old client }
        ensures ok { IfOk result (λ poll. Polls self.old client poll self.new) }
        ensures err { IfErr result (λ fault. ReadFault self.old client fault self.new) }
    {
        let read = self.read_front(client);
        let next = self.next_of(client, &read);
        self.read_on(client, &read, next)
    }

    // The next thing that can be done for a client that is served.
    fn poll_served(&mut self, client: usize) -> Result<Poll, CoreFault>
        requires { ForClient self.old client ClientIsServed }
        ensures ok { IfOk result (λ poll. Polls self.old client poll self.new) }
        ensures err { IfErr result (λ fault. ReadFault self.old client fault self.new) }
    {
        match self.ready(client) {
            Some(ready) => self.act_ready(client, ready),
            None => self.poll_front(client),
        }
    }

    /// The next thing that can be done for a client: a command of it goes on, its next command begins, or a message that asks
    /// no server is answered. A command begins where no command of its client on its key is without a reply, where none under way
    /// stands in the way of what it claims of its key, where no client whose claim is in the way stands before its own in the line
    /// of its key, and where fewer commands of its client than the depth have no shown reply.
    ///
    /// A client whose next command waits for its key stands in the line of that key until the command begins, or the client is
    /// closed, dropped or leaves: it comes to the end, and is passed by nobody who comes after it. So a key that became free goes to
    /// whoever came first, even if others are polled before. A client that waits for a command of its own comes to no line.
    ///
    /// Where it is `Waiting`, `Busy` or `Queued`, none of its commands that have no reply yet can go on: each has its call out, or waits
    /// for its server. Where it is `Waiting`, none of them waits for its server, and nothing at its front can be done either. `Idle`,
    /// `Waiting` and `Busy` leave the core as it was. After `Did` each reply that could be shown was. After `Call` the ticket's call is out in the core, as [`called`](Core::called)
    /// shows it, until it is settled.
    ///
    /// `NoClient`. `Spent` where the last number that there is was given out: the core is as it was. `NoMemory`: nothing is
    /// done for the client any more, whose output so far is kept, which stands in no line, and whose commands of which no call is out
    /// are broken off.
    pub fn poll(&mut self, client: usize) -> Result<Poll, CoreFault>
        ensures ok { IfOk result (λ poll. Polls self.old client poll self.new) }
        ensures err { IfErr result (λ fault. PollFault self.old client fault self.new) }
    {
        match self.clients.get(client) {
            None => return Err(CoreFault::NoClient),
            Some(x) => {
                if x.dropped {
                    return Ok(Poll::Idle);
                }
            }
        }
        match self.poll_served(client) {
            Ok(poll) => Ok(poll),
            Err(CoreFault::NoMemory) => {
                self.drop_client(client);
                Err(CoreFault::NoMemory)
            }
            Err(fault) => Err(fault),
        }
    }
}
