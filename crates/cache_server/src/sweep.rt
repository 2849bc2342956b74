//! Dropping the items whose time has come.

ghost use Rattle.std.specs.Prelude.{◌≡◌, ◌≤◌, [], ◌∷◌, ◌++◌};
ghost use Rattle.lru.specs.LruCache.{lru_cache};
ghost use Rattle.cache_server.specs.declared.item.Entry.{Entry};
ghost use Rattle.cache_server.specs.Contents.{Key, Entries, live};
ghost use Rattle.cache_server.specs.Sound.{AreDueFrom, due_with};

use crate::item::Entry;
use lru::LruCache;
use mc_types::Key;

/// A bound of the next expiry that holds for one item more.
pub fn due_before(due: u64, expiry: Option<u64>) -> u64
    ensures { result ≡ due_with due expiry }
{
    match expiry {
        Some(expiry) => due.min(expiry),
        None => due,
    }
}

// Drops the least recently used item where it has expired, else makes it the most recently used. The bound of the next
// expiry takes in the item that stays.
fn turn(items: &mut LruCache<Key, Entry>, now: u64, due: u64) -> u64
    ensures entries { (front : Entries) (last : Key × Entry) → items.old.entries ≡ front ++ last ∷ [] → items.new.entries ≡ live now (last ∷ []) ++ front }
    ensures due { (front : Entries) (last : Key × Entry) → items.old.entries ≡ front ++ last ∷ [] → AreDueFrom result (live now (last ∷ [])) }
    ensures less { result ≤ due }
    ensures cap { items.new.cap ≡ items.old.cap }
{
    if items.len() == 0 {
        return due;
    }
    let Some((key, entry)) = items.peek_lru() else {
        return due;
    };
    if entry.item.is_expired(now) {
        let _ = items.pop_lru();
        return due;
    }
    let due = due_before(due, entry.item.expiry);
    let key = *key;
    let _ = items.promote(&key);
    due
}

/// Drops every expired item, in one round over the items that leaves the order of the others, and gives a moment before
/// which none of these expires. It takes no memory.
pub fn sweep(items: &mut LruCache<Key, Entry>, now: u64) -> u64
    ensures entries { items.new ≡ lru_cache (live now items.old.entries) items.old.cap }
    ensures due { AreDueFrom result items.new.entries }
{
    let mut due = u64::MAX;
    for _turn in 0..items.len() {
        due = turn(items, now, due);
    }
    due
}
