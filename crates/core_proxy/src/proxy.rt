//! The core and its calls.

ghost use Rattle.slab.specs.Slab.{get};
ghost use Rattle.std.specs.Prelude.{◌≡◌, ℕ, [], ◌++◌, ◌↔◌, IsTrue, IfOk, IfErr, OnOk, OnErr};
ghost use Rattle.wire_parts.specs.Sending.{bytes_of};
ghost use Rattle.core_proxy.specs.CoreState.{IsNewCore, IsOut, Opens, Feeds, GivesAll, ClosesClient, LeavesLine, Reloads, client_at, held_by};
ghost use Rattle.core_client.specs.ClientState.{output_by};
ghost use Rattle.core_proxy.specs.Polls.{IsStalled};
ghost use Rattle.core_commands.specs.Lines.{is_standing};
ghost use Rattle.core_proxy.specs.Faults.{IsClosed, CanOpen, CanFeed, CanClose, OpenFault, FeedFault, OutputFault, CloseFault};

use crate::fault::{CoreFault, TreeFault};
use crate::feeding::feed_within;
use crate::limits::{CoreLimits, LAST_GENERATION};
use core_client::Client;
use core_commands::owned::has_commands;
use core_commands::{CommandTable, KeyLines};
use route_tree::Tree;
use slab::Slab;
use std::alloc::Global;
use wire_parts::to_send::SendBuffer;

/// Clients, their commands that are under way, and the tree that those run by which begin.
#[derive(Drop)]
pub struct Core {
    pub(crate) clients: Slab<Client>,
    /// The commands that have begun and have not ended, by number.
    pub(crate) commands: CommandTable,
    /// The clients whose next command waits for its key.
    pub(crate) lines: KeyLines,
    pub(crate) tree: Tree,
    /// The last number that was given to a command.
    pub(crate) number: u64,
    pub(crate) limits: CoreLimits,
    /// How many trees were in use so far.
    generation: u32,
    pub(crate) alloc: Global,
}

impl Core {
    /// A core without clients, on a tree that no gate was asked about. It takes no memory.
    pub fn unchecked(alloc: Global, tree: Tree, limits: CoreLimits) -> Core
        ensures { IsNewCore tree limits result }
    {
        Core {
            clients: Slab::new(alloc),
            commands: CommandTable::new(alloc),
            lines: KeyLines::new(alloc),
            tree,
            number: 0,
            limits,
            generation: 1,
            alloc,
        }
    }

    /// A new client, by its id: the id of a client that was closed may be given out again.
    ///
    /// `TooManyClients` where as many are open as may be; `NoMemory`.
    pub fn open_client(&mut self) -> Result<usize, CoreFault>
        ensures ok { IfOk result (λ client. CanOpen self.old × Opens self.old client self.new) }
        ensures err { IfErr result (λ fault. OpenFault self.old fault self.new) }
        ensures lines { self.new.lines ≡ self.old.lines }
    {
        if self.limits.clients <= self.clients.len() {
            return Err(CoreFault::TooManyClients);
        }
        match self.clients.insert(Client::new(self.alloc)) {
            Ok(client) => Ok(client),
            Err(_) => Err(CoreFault::NoMemory),
        }
    }

    /// A piece of a client's bytes came. A client that is closed takes none of it.
    ///
    /// `NoClient`; `InputFull` where what is held of the client and the piece are more bytes than may be held; `NoMemory`.
    pub fn feed(&mut self, client: usize, piece: &[u8]) -> Result<(), CoreFault>
        ensures ok { OnOk result (CanFeed self.old client piece.now × Feeds self.old client piece.now self.new) }
        ensures err { IfErr result (λ fault. FeedFault self.old client piece.now fault × (self.new ≡ self.old)) }
        ensures lines { self.new.lines ≡ self.old.lines }
    {
        match self.clients.get_mut(client) {
            None => Err(CoreFault::NoClient),
            Some(x) => feed_within(x, self.limits.held, piece),
        }
    }

    /// Where nothing is held of the client that isn't done, as of one that isn't there, the room for that goes back: whether nothing is. It is for
    /// clients that may say nothing for long.
    pub fn give_back_room(&mut self, client: usize) -> bool
        ensures none { IsTrue result ↔ (held_by (client_at self.old client) ≡ []) }
        ensures same { self.new ≡ self.old }
    {
        match self.clients.get_mut(client) {
            None => true,
            Some(x) => x.give_back(self.alloc),
        }
    }

    /// A client's new output goes after what stands in `out`, and is then empty. Where nothing stands in `out`, no byte is copied. For whom
    /// nothing could be done without a result, nothing can be done still.
    ///
    /// `NoClient`; `NoMemory`.
    pub fn move_output(&mut self, client: usize, out: &mut SendBuffer) -> Result<(), CoreFault>
        ensures bytes { OnOk result (bytes_of out.new ≡ bytes_of out.old ++ output_by (client_at self.old client)) }
        ensures ok { OnOk result (GivesAll self.old client (output_by (client_at self.old client)) self.new) }
        ensures stalled { OnOk result ((c : ℕ) → IsStalled self.old c → IsStalled self.new c) }
        ensures err { IfErr result (λ fault. OutputFault self.old client fault × (self.new ≡ self.old)) }
        ensures out { OnErr result (bytes_of out.new ≡ bytes_of out.old) }
        ensures lines { self.new.lines ≡ self.old.lines }
    {
        match self.clients.get_mut(client) {
            None => Err(CoreFault::NoClient),
            Some(x) => match x.move_output(out) {
                Ok(()) => Ok(()),
                Err(_) => Err(CoreFault::NoMemory),
            },
        }
    }

    /// A client's new output, a copy, which is then empty. For whom nothing could be done without a result, nothing can be done still.
    ///
    /// `NoClient`; `NoMemory`.
    pub fn take_output(&mut self, client: usize) -> Result<Vec<u8>, CoreFault>
        ensures ok { IfOk result (λ bytes. GivesAll self.old client bytes.items self.new) }
        ensures stalled { OnOk result ((c : ℕ) → IsStalled self.old c → IsStalled self.new c) }
        ensures err { IfErr result (λ fault. OutputFault self.old client fault × (self.new ≡ self.old)) }
        ensures lines { self.new.lines ≡ self.old.lines }
    {
        match self.clients.get_mut(client) {
            None => Err(CoreFault::NoClient),
            Some(x) => match x.take_output(self.alloc) {
                Ok(bytes) => Ok(bytes),
                Err(_) => Err(CoreFault::NoMemory),
            },
        }
    }

    /// The client is gone, and with it what it sent and was not given. It stands in no line of a key any more.
    ///
    /// `NoClient`; `UnderWay` where a command of it has begun and not ended.
    pub fn close(&mut self, client: usize) -> Result<(), CoreFault>
        ensures ok { OnOk result (CanClose self.old client × ClosesClient self.old client self.new) }
        ensures err { IfErr result (λ fault. CloseFault self.old client fault × (self.new ≡ self.old)) }
    {
        if !self.clients.contains(client) {
            return Err(CoreFault::NoClient);
        }
        if has_commands(client, &self.commands) {
            return Err(CoreFault::UnderWay);
        }
        self.clients.remove(client);
        self.lines.leave(client);
        Ok(())
    }

    /// The client leaves the line of the key that its next command waits for: whether it stood in one. It is for a client that won't be
    /// polled for a while, so that nobody waits behind it; where it is polled again, it comes to the end. It takes no memory.
    pub fn leave_line(&mut self, client: usize) -> bool
        ensures stood { result ≡ is_standing client self.old.lines }
        ensures left { LeavesLine self.old client self.new }
    {
        let stood = self.lines.is_standing(client);
        self.lines.leave(client);
        stood
    }

    /// Whether there is no client of this id, or nothing is read of it any more: after `quit`, after a line that was too
    /// long, and where memory was refused. It takes no memory.
    pub fn is_closed(&self, client: usize) -> bool
        ensures { IsTrue result ↔ IsClosed self.now client }
    {
        match self.clients.get(client) {
            None => true,
            Some(x) => x.is_ended(),
        }
    }

    /// Whether a command has begun and not ended. It takes no memory.
    pub fn is_out(&self) -> bool
        ensures { IsTrue result ↔ IsOut self.now }
    {
        0 < self.commands.len()
    }

    /// How many commands have begun. It takes no memory.
    pub fn begun(&self) -> u64
        ensures { result ≡ self.now.number }
    {
        self.number
    }

    /// The number of the tree in use, counted from 1. It takes no memory.
    pub fn generation(&self) -> u32
        ensures { result ≡ self.now.generation }
    {
        self.generation
    }

    /// Commands that begin from now on run by this tree, of which no gate is asked, and those that are under way end on
    /// the tree on which they began. It gives the number of the tree's generation; the first tree is generation 1.
    ///
    /// `TooManyGenerations` where generation [`LAST_GENERATION`] is in use; then the core is as it was.
    pub fn reload(&mut self, tree: Tree) -> Result<u32, TreeFault>
        ensures ok { IfOk result (λ generation. (generation ≡ self.new.generation) × Reloads self.old tree self.new) }
        ensures err { OnErr result ((self.old.generation ≡ LAST_GENERATION) × (self.new ≡ self.old)) }
    {
        if self.generation == LAST_GENERATION {
            return Err(TreeFault::TooManyGenerations);
        }
        self.generation += 1;
        self.tree = tree;
        Ok(self.generation)
    }
}
