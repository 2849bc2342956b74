//! What is kept of a key.

ghost use Rattle.std.specs.Prelude.{◌≡◌, IfOk};
ghost use Rattle.cache_server.specs.Expiry.{has_come};

use mc_types::Body;
use std::alloc::AllocError;

/// What is kept of a key: its data and what belongs to them.
#[derive(Drop)]
pub struct CacheItem {
    pub body: Body,
    pub flags: u32,
    /// The moment from which the item is gone, in seconds; `None` for never.
    pub expiry: Option<u64>,
    /// The number of the client command whose data began the item.
    pub stamp: u64,
}

/// An item under its cas number.
#[derive(Drop)]
pub struct Entry {
    pub item: CacheItem,
    pub cas: u64,
}

impl CacheItem {
    /// Whether the item is gone at that moment.
    pub fn is_expired(&self, now: u64) -> bool
        ensures { result ≡ has_come now self.now.expiry }
    {
        match self.expiry {
            Some(expiry) => expiry <= now,
            None => false,
        }
    }

    /// The item with these data in place of its own.
    pub fn with_body(&self, body: Body) -> CacheItem
        ensures { result ≡ record self.now { body = body } }
    {
        CacheItem {
            body,
            flags: self.flags,
            expiry: self.expiry,
            stamp: self.stamp,
        }
    }
}

impl Entry {
    /// This entry once more, with its data shared. The only error is running out of memory.
    pub fn copy(&self) -> Result<Entry, AllocError>
        ensures { IfOk result (λ entry. entry ≡ self.now) }
    {
        Ok(Entry {
            item: self.item.with_body(self.item.body.copy()?),
            cas: self.cas,
        })
    }
}
