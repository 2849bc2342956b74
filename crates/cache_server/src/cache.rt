//! One server: the items that it holds, and the answer to an ask.

ghost use Rattle.std.specs.Prelude.{◌≡◌, ◌<◌, ◌≤◌, ◌^◌, pos, ◌≤ℤ◌, nat_abs, [], ◌∷◌, length, None, IfOk, IfSome, OnOk, OnErr, option_copied, IsOk, IsErr};
ghost use Rattle.std.specs.List.{IsDistinct};
ghost use Rattle.std.specs.Map.{keys_of};
ghost use Rattle.cache_server.specs.Contents.{Key, same_key};
ghost use Rattle.mc_types.specs.Asks.{IsAsk, data_limit};
ghost use Rattle.cache_server.specs.Sound.{IsEntry, IsChange};
ghost use Rattle.cache_server.specs.Table.{answer_in};

use crate::decide::decide;
use crate::decision::{Change, Decision, Verdict};
use crate::item::{CacheItem, Entry};
use crate::meta_answer::meta_answer;
use crate::sweep::{due_before, sweep};
use lru::LruCache;
use mc_types::{Answer, Ask, Body, Dialect, Key};
use std::alloc::{AllocError, Global};
use std::marker::Model;
use std::num::NonZeroUsize;

// No key stands twice.
fn keys_differ(items: &LruCache<Key, Entry>)
    ensures { IsDistinct same_key (keys_of items.now.entries) }
{
    let _count = items.len();
}

// The answer in the ask's dialect, by what the call finds and changes.
fn answer(
    now: u64,
    ask: &Ask,
    counter: u64,
    held: Option<&Entry>,
    verdict: Verdict,
    change: &Change,
) -> Result<Answer, AllocError>
    requires held { IfSome (option_copied held) IsEntry }
    requires change { IsChange change.now }
    ensures { IfOk result (λ answer. answer ≡ answer_in ask.now.dialect now ask.now counter (option_copied held.entry) (record { verdict = verdict; change = change.now })) }
{
    match ask.dialect {
        Dialect::Classic => Ok(verdict.classic_answer(ask.with_cas)),
        Dialect::Meta => meta_answer(now, &ask.tokens, counter, held, &verdict, change),
    }
}

// The answer, where the change was carried out.
fn answered(
    carried_out: Result<(), AllocError>,
    answer: Answer,
    found: Option<u64>,
) -> Result<(Answer, Option<u64>), AllocError>
    ensures ok { IfOk result (λ r. (r ≡ (answer, found)) × IsOk carried_out) }
    ensures err { OnErr result (IsErr carried_out) }
{
    match carried_out {
        Ok(()) => Ok((answer, found)),
        Err(error) => Err(error),
    }
}

/// One memcached server: items under keys, of which the least recently used goes where there are too many.
#[derive(Drop)]
pub struct Cache {
    items: LruCache<Key, Entry>,
    counter: u64,
    // No item expires before this moment, so that a call looks through them only where one may have.
    due: u64,
    alloc: Global,
}

impl Model for Cache {
    ghost use Rattle.cache_server.specs.Contents.{Contents};
    ghost use Rattle.cache_server.specs.Sound.{AreSoundEntries};

    ghost Value = { Contents };

    ghost view = { λ c. record { entries = c.items.entries; cap = c.items.cap; counter = c.counter } };

    ghost invariant = { λ c. AreSoundEntries c.due c.items.entries };
}

impl Cache {
    ghost use Rattle.cache_server.specs.Contents.{empty, at_moment, putting, storing_item, losing, opening, restarted};
    ghost use Rattle.cache_server.specs.Held.{holds, IsServerCall, IsHold, IsLoss, keys_lost_by, expired_keys};
    ghost use Rattle.cache_server.specs.Sound.{IsItem};
    ghost use Rattle.cache_server.specs.Table.{Applies, Serves, entry_changed};

    /// A server that holds nothing yet, and then at most `capacity` items. The only error is running out of memory.
    pub fn new(alloc: Global, capacity: usize) -> Result<Cache, AllocError>
        requires { 0 < capacity }
        ensures { IfOk result (λ cache. cache ≡ empty capacity) }
    {
        let capacity = NonZeroUsize::new(capacity).unwrap();
        Ok(Cache {
            items: LruCache::sparse(alloc, capacity)?,
            counter: 0,
            due: u64::MAX,
            alloc,
        })
    }

    fn expire(&mut self, now: u64)
        ensures { self.new ≡ at_moment now self.old }
    {
        if now < self.due {
            return;
        }
        self.due = sweep(&mut self.items, now);
    }

    fn put(&mut self, key: Key, entry: Entry) -> Result<(), AllocError>
        requires { IsEntry entry }
        ensures ok { OnOk result (self.new ≡ putting self.old key entry) }
        ensures err { OnErr result (self.new ≡ self.old) }
    {
        let due = due_before(self.due, entry.item.expiry);
        self.items.put(key, entry)?;
        self.due = due;
        Ok(())
    }

    fn store(&mut self, key: Key, item: CacheItem) -> Result<(), AllocError>
        requires { IsItem item }
        ensures ok { OnOk result (self.new ≡ storing_item self.old key item) }
        ensures err { OnErr result (self.new ≡ self.old) }
    {
        let cas = self.counter.saturating_add(1);
        self.put(key, Entry { item, cas })?;
        self.counter = cas;
        Ok(())
    }

    fn carry_out(&mut self, key: &Key, change: Change) -> Result<(), AllocError>
        requires { IsChange change }
        ensures ok { OnOk result (self.new ≡ entry_changed self.old key.now change) }
        ensures err { OnErr result (self.new ≡ self.old) }
    {
        match change {
            Change::Leaves => {
                let _ = self.items.promote(key);
                Ok(())
            }
            Change::Removes => {
                self.lose(key);
                Ok(())
            }
            Change::Renews(entry) => self.put(*key, entry),
            Change::Stores(item) => self.store(*key, item),
        }
    }

    fn serve(
        &mut self,
        now: u64,
        stamp: u64,
        ask: &Ask,
    ) -> Result<(Answer, Option<u64>), AllocError>
        requires now { now < 2 ^ 63 }
        requires ask { IsAsk ask.now }
        ensures ok { IfOk result (λ r. Serves now stamp ask.now self.old r.0 r.1 self.new) }
        ensures err { OnErr result (self.new ≡ self.old) }
    {
        let held = self.items.peek(&ask.key);
        let found = match held {
            Some(entry) => Some(entry.item.stamp),
            None => None,
        };
        let decision = decide(self.alloc, now, stamp, ask, held)?;
        let Decision { verdict, change } = decision.settled(self.counter);
        let answer = answer(now, ask, self.counter, held, verdict, &change)?;
        answered(self.carry_out(&ask.key, change), answer, found)
    }

    /// Answers a call at this moment, in seconds, and gives the stamp of the item that it found, where its key was held.
    ///
    /// A meta answer shows the item as the call leaves it: the cas number is the one that it took, the seconds left are
    /// those after a new expiry was set.
    ///
    /// All items that have expired are dropped before, for good. What the call stores as a new item has the stamp that
    /// is given here. The only error is running out of memory: then nothing changes but that expired items are gone.
    ///
    /// Source: memcached's protocol.txt.
    pub fn apply(
        &mut self,
        moment: i64,
        stamp: u64,
        ask: &Ask,
    ) -> Result<(Answer, Option<u64>), AllocError>
        requires moment { pos 0 ≤ℤ moment }
        requires ask { IsAsk ask.now }
        ensures ok { IfOk result (λ r. Applies moment stamp ask.now self.old r.0 r.1 self.new) }
        ensures call { IfOk result (λ r. IsServerCall stamp ask.now (holds self.old) (keys_lost_by (nat_abs moment) stamp ask.now self.old) r.0 r.1 (holds self.new)) }
        ensures err { OnErr result (self.new ≡ at_moment (nat_abs moment) self.old) }
        ensures lost { OnErr result (IsLoss (expired_keys (nat_abs moment) self.old.entries) self.old self.new) }
    {
        let now = moment as u64;
        keys_differ(&self.items);
        self.expire(now);
        self.serve(now, stamp, ask)
    }

    /// Holds these data under the key, without flags and expiry, with stamp 0 and the next cas number (after the last
    /// one, the last again). The key is the most recently used then. The only error is running out of memory, which changes
    /// nothing.
    pub fn hold(&mut self, key: &Key, body: &[u8]) -> Result<(), AllocError>
        requires { length body.now ≤ data_limit }
        ensures ok { OnOk result (self.new ≡ storing_item self.old key.now (opening body.now)) }
        ensures held { OnOk result (IsHold key.now body.now self.old self.new) }
        ensures err { OnErr result (self.new ≡ self.old) }
    {
        keys_differ(&self.items);
        let body = Body::from_slice(self.alloc, body)?;
        let item = CacheItem {
            body,
            flags: 0,
            expiry: None,
            stamp: 0,
        };
        self.store(*key, item)
    }

    /// Loses what is held of the key. It takes no memory.
    pub fn lose(&mut self, key: &Key)
        ensures contents { self.new ≡ losing self.old key.now }
        ensures lost { IsLoss (key.now ∷ []) self.old self.new }
    {
        keys_differ(&self.items);
        let _ = self.items.pop(key);
    }

    /// Loses everything; the cas numbers go on. It takes no memory.
    pub fn restart(&mut self)
        ensures contents { self.new ≡ restarted self.old }
        ensures lost { (q : Key) → holds self.new q ≡ None }
    {
        self.items.clear();
    }
}
