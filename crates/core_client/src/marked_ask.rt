//! The ask of a command, with a mark of its key beside it.

ghost use Rattle.std.specs.Prelude.{◌≡◌, nat_eq};
ghost use Rattle.std.specs.Cmp.Lexicographic.{pointwise};
ghost use Rattle.core_client.specs.Marks.{mark_of};

use mc_types::{Ask, Key, SharedAsk};
use std::marker::Model;

// The mark of a key: a number that equal keys have alike.
fn mark_of(key: &Key) -> u32
    ensures { result ≡ mark_of key.now }
{
    key.bytes_are_a_key();
    let bytes = key.as_bytes();
    let last = bytes.len() - 1;
    u32::from(bytes[last.saturating_sub(1)]) * 256 + u32::from(bytes[last])
}

/// A key that is looked for among those of asks, with its mark.
#[derive(Drop)]
pub struct MarkedKey<'a> {
    key: &'a Key,
    mark: u32,
}

impl<'a> Model for MarkedKey<'a> {
    ghost use Rattle.std.specs.Prelude.{◌≡◌, List, ℕ};
    ghost use Rattle.core_client.specs.Marks.{mark_of};

    ghost Value = { List ℕ };

    ghost view = { λ k. k.key.now };

    ghost invariant = { λ k. k.mark ≡ mark_of k.key.now };
}

impl<'a> MarkedKey<'a> {
    /// This key.
    pub fn new(key: &'a Key) -> MarkedKey<'a>
        ensures { result ≡ key.now }
    {
        MarkedKey {
            key,
            mark: mark_of(key),
        }
    }
}

/// The ask of a command. Asks on other keys are mostly told by their marks, without a look at where the ask is kept.
#[derive(Drop)]
pub struct MarkedAsk {
    ask: SharedAsk,
    mark: u32,
}

impl Model for MarkedAsk {
    ghost use Rattle.std.specs.Prelude.{◌≡◌};
    ghost use Rattle.mc_types.specs.declared.ask.Ask.{Ask as AskOf};
    ghost use Rattle.core_client.specs.Marks.{mark_of};

    ghost Value = { AskOf };

    ghost view = { λ m. m.ask };

    ghost invariant = { λ m. m.mark ≡ mark_of m.ask.key };
}

impl MarkedAsk {
    /// This ask.
    pub fn new(ask: SharedAsk) -> MarkedAsk
        ensures { result ≡ ask }
    {
        let mark = mark_of(ask.key());
        MarkedAsk { ask, mark }
    }

    /// The ask.
    pub fn get(&self) -> &Ask
        ensures { result.now ≡ self.now }
    {
        self.ask.get()
    }

    /// Whether the ask is on the key. It takes no memory.
    pub fn is_on(&self, key: &MarkedKey) -> bool
        ensures { result ≡ pointwise nat_eq self.now.key key.now }
    {
        self.mark == key.mark && *self.ask.key() == *key.key
    }
}
