//! The servers of a script: their caches, by their places, and one clock.

ghost use Rattle.std.specs.Prelude.{◌≡◌, ◌+◌, ◌<◌, ◌≤◌, ◌↔◌, ℕ, List, pos, ◌≤ℤ◌, ◌++◌, ◌∷◌, [], length, if◌then◌else◌, nat_eq, Some, Err, option_map, IfOk, IfErr, OnOk, OnErr};
ghost use Rattle.mc_types.specs.Asks.{IsAsk, data_limit};
ghost use Rattle.fresh_runs.specs.Run.{after_event};
ghost use Rattle.cache_server.specs.Contents.{storing_item, opening};
ghost use Rattle.script_events.specs.Limits.{last_turn};
ghost use Rattle.script_events.specs.Caches.{loss_event, cache_held, changed_at, after_loss};
ghost use Rattle.script_events.specs.Losing.{AreLost};

use crate::servers::calling::make_call;
use crate::servers::event::{FleetFault, Loss, Made};
use crate::servers::losing::{add_loss, lose_all, lose_one};
use crate::servers::manner::Manner;
use crate::servers::moment::Moment;
use cache_server::Cache;
use mc_types::{Ask, Key, ServerId};
use std::alloc::{AllocError, Global};
use std::collections::BTreeMap;

/// The most items that a server of a script holds. mcgate's own.
pub const CAPACITY: usize = 1_024;

/// Servers in memory: their caches, by their places, and one clock; and the failures and losses that are named for calls to come.
/// A call is counted as it has its result.
#[derive(Drop)]
pub struct ScriptServers {
    alloc: Global,
    caches: Vec<Cache>,
    /// The time now.
    moment: Moment,
    /// How many calls had their results.
    turn: u64,
    /// The calls that are to fail, by their numbers, counted from 1.
    failures: BTreeMap<u64, Manner>,
    /// What is lost just before a call, in order, by its number.
    losses: BTreeMap<u64, Vec<Loss>>,
}

impl ScriptServers {
    ghost use Rattle.script_events.specs.declared.servers.event.FleetFault.TheVariants.{Spent};
    ghost use Rattle.script_events.specs.Servers.{manner_of, caches_of, count_of_servers, turn_of, moment_now, named_of, lost_of, AreNewServers, Answers, Stops};

    /// So many servers, each of which holds nothing yet and then at most 1,024 items, at moment 0. The only error is running out
    /// of memory.
    pub fn new(alloc: Global, servers: u32) -> Result<ScriptServers, AllocError>
        ensures { IfOk result (AreNewServers servers) }
    {
        let mut caches = Vec::new(alloc);
        for _place in 0..servers {
            caches.push(Cache::new(alloc, CAPACITY)?)?;
        }
        Ok(ScriptServers {
            alloc,
            caches,
            moment: Moment { seconds: 0 },
            turn: 0,
            failures: BTreeMap::new(alloc),
            losses: BTreeMap::new(alloc),
        })
    }

    /// How many servers there are.
    pub fn servers(&self) -> usize
        ensures { result ≡ count_of_servers self.now }
    {
        self.caches.len()
    }

    /// How many calls had their results.
    pub fn calls(&self) -> u64
        ensures { result ≡ turn_of self.now }
    {
        self.turn
    }

    /// The server holds these data under the key, without flags and expiry, with stamp 0; where it is full, the least recently used
    /// item goes. The only error is running out of memory, which changes nothing.
    pub fn hold(&mut self, server: ServerId, key: &Key, body: &[u8]) -> Result<(), AllocError>
        requires there { server < count_of_servers self.old }
        requires short { length body.now ≤ data_limit }
        ensures ok { OnOk result (caches_of self.new ≡ changed_at server (λ c. storing_item c key.now (opening body.now)) (caches_of self.old)) }
        ensures err { OnErr result (caches_of self.new ≡ caches_of self.old) }
        ensures count { count_of_servers self.new ≡ count_of_servers self.old }
        ensures rest { self.new ≡ record self.old { caches = self.new.caches } }
    {
        self.caches[server.number() as usize].hold(key, body)
    }

    /// The call of this turn from here, which is 1 for the next one that has its result, fails. The last that is said of a call
    /// counts.
    ///
    /// The errors are `Spent` where calls aren't numbered so far, and running out of memory; then nothing changes.
    pub fn fail(&mut self, turn: u32, manner: Manner) -> Result<(), FleetFault>
        requires { 1 ≤ turn }
        ensures ok { OnOk result ((t : ℕ) → named_of self.new t ≡ (if nat_eq (turn_of self.old + turn) t then Some (manner_of manner) else named_of self.old t)) }
        ensures err { OnErr result ((t : ℕ) → named_of self.new t ≡ named_of self.old t) }
        ensures spent { (result ≡ Err Spent) ↔ (last_turn < turn_of self.old + turn) }
        ensures rest { self.new ≡ record self.old { failures = self.new.failures } }
    {
        let Some(number) = self.turn.checked_add(u64::from(turn)) else {
            return Err(FleetFault::Spent);
        };
        self.failures.insert(number, manner)?;
        Ok(())
    }

    /// This is lost just before the call of this turn from here, which is 1 for the next one that has its result, whether that call
    /// fails or not. Several losses at one call happen in the order in which they were named; of a server that isn't there nothing
    /// is lost.
    ///
    /// The errors are `Spent` where calls aren't numbered so far, and running out of memory; then nothing changes.
    pub fn lose_at(&mut self, turn: u32, loss: Loss) -> Result<(), FleetFault>
        requires { 1 ≤ turn }
        ensures ok { OnOk result ((t : ℕ) → lost_of self.new t ≡ (if nat_eq (turn_of self.old + turn) t then lost_of self.old t ++ loss ∷ [] else lost_of self.old t)) }
        ensures err { OnErr result ((t : ℕ) → lost_of self.new t ≡ lost_of self.old t) }
        ensures spent { (result ≡ Err Spent) ↔ (last_turn < turn_of self.old + turn) }
        ensures rest { self.new ≡ record self.old { losses = self.new.losses } }
    {
        let Some(number) = self.turn.checked_add(u64::from(turn)) else {
            return Err(FleetFault::Spent);
        };
        match add_loss(self.alloc, &mut self.losses, number, loss) {
            Ok(()) => Ok(()),
            Err(_) => Err(FleetFault::NoMemory),
        }
    }

    /// This is lost now; of a server that isn't there nothing is lost. It takes no memory.
    pub fn lose(&mut self, loss: &Loss)
        ensures contents { caches_of self.new ≡ after_loss (loss_event loss.now) (caches_of self.old) }
        ensures held { (s : ℕ) (k : List ℕ) → cache_held (caches_of self.new) s k ≡ after_event (loss_event loss.now) (cache_held (caches_of self.old)) s k }
        ensures count { count_of_servers self.new ≡ count_of_servers self.old }
        ensures rest { self.new ≡ record self.old { caches = self.new.caches } }
    {
        lose_one(&mut self.caches, loss);
    }

    /// The time from now on, in seconds. It takes no memory.
    pub fn set_moment(&mut self, moment: i64)
        requires { pos 0 ≤ℤ moment }
        ensures now { moment_now self.new ≡ moment }
        ensures rest { self.new ≡ record self.old { moment = self.new.moment } }
    {
        self.moment = Moment { seconds: moment };
    }

    // How the call of this number is to fail.
    fn named(&self, number: u64) -> Option<Manner>
        ensures { option_map manner_of result ≡ named_of self.now number }
    {
        self.failures.get(&number).copied()
    }

    // What is named to be lost just before the next call is lost.
    fn lose_named(&mut self)
        requires { turn_of self.old < last_turn }
        ensures lost { AreLost (lost_of self.old (turn_of self.old + 1)) (caches_of self.old) (caches_of self.new) }
        ensures count { count_of_servers self.new ≡ count_of_servers self.old }
        ensures rest { self.new ≡ record self.old { caches = self.new.caches } }
    {
        if let Some(losses) = self.losses.get(&(self.turn + 1)) {
            lose_all(&mut self.caches, losses.as_slice());
        }
    }

    /// The result of the next call, one at this server, as its cache answers it now by the table of answers; what it stores as a new
    /// item has this stamp. First all that is named to be lost just before it is lost. Then, as the call is named: `Before`, it isn't
    /// applied; `After` and `Junk`, it is applied and its answer dropped; `Cut`, it is applied, and so many bytes of its answer are
    /// read. Each of these has failed, but where no byte of the answer is missing.
    ///
    /// The errors are `Spent` where 2^64 - 1 calls had their results, which changes nothing; and running out of memory, after the
    /// losses: then what had expired at the server is gone too, or, where the answer is to be cut, the call may have been applied. No
    /// call is counted then.
    pub fn answer(&mut self, stamp: u64, server: ServerId, ask: &Ask) -> Result<Made, FleetFault>
        requires there { server < count_of_servers self.old }
        requires ask { IsAsk ask.now }
        ensures ok { IfOk result (λ made. Answers stamp self.old server ask.now made self.new) }
        ensures err { OnErr result (turn_of self.new ≡ turn_of self.old) }
        ensures stops { IfErr result (λ fault. Stops fault stamp self.old server ask.now self.new) }
        ensures spent { (result ≡ Err Spent) ↔ (turn_of self.old ≡ last_turn) }
        ensures count { count_of_servers self.new ≡ count_of_servers self.old }
        ensures rest { self.new ≡ record self.old { caches = self.new.caches; turn = self.new.turn } }
    {
        if self.turn == u64::MAX {
            return Err(FleetFault::Spent);
        }
        let named = self.named(self.turn + 1);
        self.lose_named();
        let made = make_call(
            self.alloc,
            &mut self.caches,
            self.moment,
            named,
            stamp,
            server,
            ask,
        )?;
        self.turn += 1;
        Ok(made)
    }
}
