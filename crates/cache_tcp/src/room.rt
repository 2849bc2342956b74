//! How much memory items and what is to be sent take, and which items go for it.

ghost use Rattle.std.specs.Prelude.{◌≡◌, ◌+◌, ◌≤◌, ◌⊎◌, false, []};
ghost use Rattle.mc_types.specs.Asks.{IsAsk};
ghost use Rattle.cache_tcp.specs.Oldest.{LosesOldest};

use crate::clock::UnixTime;
use crate::connection::Cache;
use lru::LruCache;
use mc_types::{Answer, Ask, Dialect, Key, Op, Tokens};
use std::alloc::{AllocError, Global};
use std::num::NonZeroUsize;

/// What an item takes beside its data, in bytes, at most: its key stands in the cache and here.
pub const ITEM: usize = 1_024;

/// What each item of a cache takes, and what is to be sent to all clients.
#[derive(Drop)]
pub struct Room {
    alloc: Global,
    // The items' sizes, the most recently used first.
    sizes: LruCache<Key, usize>,
    items: usize,
    unsent: usize,
    most: usize,
}

fn len_of(answer: &Answer) -> Option<usize> {
    match answer {
        Answer::Hit { body, .. } => Some(body.len()),
        _ => None,
    }
}

fn drop_ask(_ask: Ask) {}

// A classic get of the key. It takes no memory.
#[tactic(auto, using(crate::proofs::Asking::get_is_ask))]
fn get_of(alloc: Global, key: &Key) -> Ask
    ensures { IsAsk result }
{
    key.bytes_are_a_key();
    Ask::bare(Dialect::Classic, Op::Get, *key, Tokens::new(alloc))
}

fn asked(cache: &mut Cache, moment: UnixTime, ask: &Ask) -> Result<Option<usize>, AllocError>
    requires { IsAsk ask.now }
{
    let (answer, _found) = cache.apply(moment.seconds, 0, ask)?;
    Ok(len_of(&answer))
}

impl Room {
    /// The room of an empty cache of so many items, where all is to take so many bytes at most. The only error is running out of memory.
    pub fn new(alloc: Global, capacity: usize, most: usize) -> Result<Room, AllocError> {
        let capacity = NonZeroUsize::new(capacity.max(1)).unwrap();
        Ok(Room {
            alloc,
            sizes: LruCache::sparse(alloc, capacity)?,
            items: 0,
            unsent: 0,
            most,
        })
    }

    /// How many bytes the items take.
    pub fn items(&self) -> usize {
        self.items
    }

    /// How many bytes are to be sent.
    pub fn unsent(&self) -> usize {
        self.unsent
    }

    /// Whether half of all is to be sent, or more.
    pub fn is_unsent_half(&self) -> bool {
        self.unsent >= self.most / 2
    }

    /// To one client so many bytes are to be sent, where it were so many before.
    pub fn change_unsent(&mut self, before: usize, after: usize) {
        self.unsent = self.unsent.saturating_sub(before).saturating_add(after);
    }

    fn forget(&mut self, key: &Key) {
        if let Some(size) = self.sizes.pop(key) {
            self.items = self.items.saturating_sub(size);
        }
    }

    // The item takes so much. What has no place beside it is lost.
    fn keep(&mut self, cache: &mut Cache, key: &Key, size: usize) -> Result<(), AllocError> {
        match self.sizes.push(*key, size) {
            Ok(None) => {}
            Ok(Some((gone, before))) => {
                self.items = self.items.saturating_sub(before);
                if gone != *key {
                    cache.lose(&gone);
                }
            }
            Err(_) => return Err(AllocError),
        }
        self.items = self.items.saturating_add(size);
        Ok(())
    }

    /// The key was asked for: what its item takes now is looked up. The only error is running out of memory.
    pub fn look_at(
        &mut self,
        cache: &mut Cache,
        moment: UnixTime,
        key: &Key,
    ) -> Result<(), AllocError> {
        let ask = get_of(self.alloc, key);
        let len = asked(cache, moment, &ask);
        drop_ask(ask);
        match len? {
            Some(len) => self.keep(cache, key, len.saturating_add(ITEM)),
            None => {
                self.forget(key);
                Ok(())
            }
        }
    }

    // Whether all takes more than it is to.
    fn is_over(&self) -> bool
        ensures { result ≡ false → self.now.items + self.now.unsent ≤ self.now.most }
    {
        match self.items.checked_add(self.unsent) {
            Some(all) => all > self.most,
            None => true,
        }
    }

    /// Items are lost, the least recently used first, until all takes no more than it is to, or no item is left.
    pub fn fit(&mut self, cache: &mut Cache)
        ensures within { (self.new.items + self.new.unsent ≤ self.new.most) ⊎ (self.new.sizes.entries ≡ []) }
        ensures oldest { LosesOldest self.old.sizes.entries cache.old self.new.sizes.entries cache.new }
    {
        while self.is_over() {
            let Some(last) = self.sizes.pop_lru() else {
                return;
            };
            self.items = self.items.saturating_sub(last.1);
            cache.lose(&last.0);
        }
    }

    /// All items are lost, as memory was refused here.
    pub fn give_up(&mut self, cache: &mut Cache) {
        cache.restart();
        self.sizes.clear();
        self.items = 0;
    }
}
