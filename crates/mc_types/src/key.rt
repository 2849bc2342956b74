//! Keys, and why a text is none.

ghost use Rattle.std.specs.Prelude.{◌≡◌, ℕ, ◌-◌, ◌≤◌, ◌<◌, drop, [], length, true, IsTrue, IfOk, IsOk, ◌↔◌, OnErr, refl, Some, nat_eq, position};
ghost use Rattle.std.specs.List.{list_all};
ghost use Rattle.std.specs.Ordering.{nat_cmp};
ghost use Rattle.std.specs.Hash as fed;
ghost use Rattle.std.specs.Cmp.Lexicographic.{pointwise, slice_cmp, nat_list_eq_equiv, nat_list_cmp_total, texts_ties, texts_po};
ghost use Rattle.std.specs.Cmp.{partial_equiv_from_equiv};
ghost use Rattle.std.specs.Cmp.Rules.{hashing};
ghost use Rattle.std.proofs.Common.{rules};
ghost use Rattle.mc_types.specs.KeyText.{IsKey, is_bad_byte};
ghost use Rattle.mc_types.specs.Padded.{IsPadded, zeros_of};
ghost use Rattle.mc_types.specs.declared.limits.TheConstants.{KEY_LIMIT};

use crate::limits::KEY_LIMIT;
use std::cmp::Ordering;
use std::hash::{Hash, Hasher};
use std::marker::Model;

/// A key: 1 to [`KEY_LIMIT`] bytes, none of them a space, a control character or 127. Its bytes are kept inside.
///
/// Source: memcached's protocol.txt, "Keys".
#[derive(Clone, Copy)]
pub struct Key {
    len: u8,
    bytes: [u8; KEY_LIMIT],
}

impl Model for Key {
    ghost use Rattle.std.specs.Prelude.{List, ℕ, length, take};
    ghost use Rattle.mc_types.specs.KeyText.{HoldsKey};
    ghost use Rattle.mc_types.specs.Padded.{padded};
    ghost use Rattle.mc_types.specs.declared.limits.TheConstants.{KEY_LIMIT};

    ghost Value = { List ℕ };

    ghost view = { λ k. take k.len k.bytes };

    ghost invariant = { λ k. HoldsKey k.len k.bytes };

    ghost inverse = { λ text. record { len = length text; bytes = padded KEY_LIMIT text } };

    ghost use Rattle.mc_types.specs.Inverse.{inverse_is};

    ghost inverse_ok = { inverse_is };
}

/// Why a text is no key. The tests are made in this order.
#[derive(Clone, Copy)]
pub enum KeyFault {
    /// There is no byte.
    Empty,
    /// There are more than [`KEY_LIMIT`] bytes.
    TooLong,
    /// The first byte that no key has stands at this place.
    BadByte(usize),
}

/// Whether the byte stands in no key: a control character, a space or 127.
#[inline]
pub fn is_bad_byte(byte: u8) -> bool
    ensures { result ≡ is_bad_byte byte }
{
    byte < 33 || byte == 127
}

/// Where the first byte stands that no key has.
pub fn first_bad_byte(text: &[u8]) -> Option<usize>
    ensures { result ≡ position is_bad_byte text.now }
{
    text.iter().position(|byte| is_bad_byte(*byte))
}

// What stands after so many bytes is set to 0, where a longer text stood.
fn clear_after(bytes: &mut [u8; KEY_LIMIT], len: usize, before: usize)
    requires lies { IsPadded KEY_LIMIT before bytes.old }
    requires short { len ≤ KEY_LIMIT }
    ensures { drop len bytes.new ≡ zeros_of (KEY_LIMIT - len) }
{
    if len < before {
        bytes[len..before].fill(0);
    }
}

// Whether two texts end in the same byte, as equal ones do.
fn ends_alike(a: &[u8], b: &[u8]) -> bool
    ensures { pointwise nat_eq a.now b.now ≡ true → result ≡ true }
{
    match (a.last(), b.last()) {
        (Some(a), Some(b)) => *a == *b,
        _ => true,
    }
}

impl Key {
    ghost use Rattle.mc_types.specs.Fault.{read_key};

    /// The key of this text, or the first test that it fails. It takes no memory.
    pub fn read(text: &[u8]) -> Result<Key, KeyFault>
        ensures read { result ≡ read_key text.now }
        ensures key { IfOk result IsKey }
    {
        if text.is_empty() {
            return Err(KeyFault::Empty);
        }
        if text.len() > KEY_LIMIT {
            return Err(KeyFault::TooLong);
        }
        match first_bad_byte(text) {
            Some(at) => Err(KeyFault::BadByte(at)),
            None => Ok(Key::of_text(text)),
        }
    }

    /// The key of a text that is one: its bytes aren't tested again. It takes no memory.
    pub fn of_text(text: &[u8]) -> Key
        requires { IsKey text.now }
        ensures { result ≡ text.now }
    {
        let mut bytes = [0; KEY_LIMIT];
        bytes[..text.len()].copy_from_slice(text);
        Key {
            len: text.len() as u8,
            bytes,
        }
    }

    /// It becomes the key of a text that is one, in place: of the rest, only what stood there of a longer key is set to 0. It takes no memory.
    pub fn set(&mut self, text: &[u8])
        requires { IsKey text.now }
        ensures { self.new ≡ text.now }
    {
        clear_after(&mut self.bytes, text.len(), self.len as usize);
        self.bytes[..text.len()].copy_from_slice(text);
        self.len = text.len() as u8;
    }

    /// Its bytes are those of a key. It does nothing.
    pub fn bytes_are_a_key(&self)
        ensures { IsKey self.now }
    {
        let _len = self.len;
    }

    /// The bytes of the key.
    pub fn as_bytes(&self) -> &[u8]
        ensures { result.now ≡ self.now }
    {
        &self.bytes[..self.len as usize]
    }
}

impl PartialEq for Key {
    ghost eq = { pointwise nat_eq };

    ghost laws = { partial_equiv_from_equiv nat_list_eq_equiv };

    fn eq(&self, other: &Key) -> bool {
        let (a, b) = (self.as_bytes(), other.as_bytes());
        // (keys that differ mostly begin alike, and don't end so)
        ends_alike(a, b) && a == b
    }
}

impl Eq for Key {
    ghost laws = { nat_list_eq_equiv };
}

impl PartialOrd for Key {
    ghost partial_cmp = { λ x y. Some (slice_cmp nat_cmp x y) };

    ghost laws = { texts_po };

    fn partial_cmp(&self, other: &Key) -> Option<Ordering> {
        Some(self.cmp(other))
    }
}

impl Ord for Key {
    ghost cmp = { slice_cmp nat_cmp };

    ghost total = { nat_list_cmp_total };

    ghost matches_partial_cmp = { λ x y. refl };

    ghost matches_eq = { texts_ties };

    fn cmp(&self, other: &Key) -> Ordering {
        self.as_bytes().cmp(other.as_bytes())
    }
}

impl Hash for Key {
    ghost hash_input = { fed.slice fed.u8 };

    ghost respects_eq = { Prim.search (hashing, rules) };

    fn hash<H: Hasher>(&self, state: &mut H) {
        self.as_bytes().hash(state);
    }
}
