//! How many there are of each kind: commands that clear each key, or copy to it.

ghost use Rattle.std.specs.Prelude.{◌≡◌, ◌+◌, ◌-◌, true};
ghost use Rattle.std.specs.Map.{count_at};
ghost use Rattle.indexmap.specs.IndexMap.{get};
ghost use Rattle.core_commands.specs.Counts.{SetsCount, SetsCountWhere};

use indexmap::IndexMap;
use std::hash::Hash;

/// How many there are of the key. It takes no memory.
pub fn count_of<K: Eq + Hash>(key: &K, counts: &IndexMap<K, usize>) -> usize
    ensures { result ≡ count_at (get K.eq counts.now) key.now }
{
    match counts.get(key) {
        None => 0,
        Some(count) => *count,
    }
}

/// There is one more of the key. Whether that is counted: not where memory was refused.
pub fn count_one<K: Eq + Hash + Copy + Drop>(key: K, counts: &mut IndexMap<K, usize>) -> bool
    ensures { result ≡ true → SetsCount K.eq key (count_at (get K.eq counts.old) key + 1) counts.old counts.new }
{
    let Some(count) = counts.get_mut(&key) else {
        return counts.insert(key, 1).is_ok();
    };
    match count.checked_add(1) {
        None => false,
        Some(more) => {
            *count = more;
            true
        }
    }
}

/// Where the command counts, there is one more of the key. Whether that is counted.
pub fn count_where<K: Eq + Hash + Copy + Drop>(
    it_counts: bool,
    key: &K,
    counts: &mut IndexMap<K, usize>,
) -> bool
    ensures { result ≡ true → SetsCountWhere it_counts K.eq key.now (count_at (get K.eq counts.old) key.now + 1) counts.old counts.new }
{
    if it_counts {
        count_one(*key, counts)
    } else {
        true
    }
}

/// Where the command counts, there is one less of the key. Whether that is counted.
pub fn uncount_where<K: Eq + Hash + Copy + Drop>(
    it_counts: bool,
    key: &K,
    counts: &mut IndexMap<K, usize>,
) -> bool
    ensures { result ≡ true → SetsCountWhere it_counts K.eq key.now (count_at (get K.eq counts.old) key.now - 1) counts.old counts.new }
{
    if it_counts {
        uncount_one(*key, counts)
    } else {
        true
    }
}

/// There is one less of the key, which isn't kept where none is left. Whether that is counted.
pub fn uncount_one<K: Eq + Hash + Copy + Drop>(key: K, counts: &mut IndexMap<K, usize>) -> bool
    ensures { result ≡ true → SetsCount K.eq key (count_at (get K.eq counts.old) key - 1) counts.old counts.new }
{
    match count_of(&key, counts) {
        0 => false,
        1 => {
            counts.swap_remove(&key);
            true
        }
        count => counts.insert(key, count - 1).is_ok(),
    }
}
