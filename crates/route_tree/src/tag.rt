//! The part of a key that is hashed, and its hash.

ghost use Rattle.std.specs.Prelude.{◌≡◌, ◌<◌, true, false, IfSome, IfNone};
ghost use Rattle.route_tree.specs.Fnv.{fnv1a};
ghost use Rattle.route_tree.specs.Tag.{hash_part, key_hash, slot_of, has_tag, tag_of};

use crate::hash::{OFFSET_BASIS, PRIME, fnv1a_32};
use mc_types::Key;
use text_words::search::first_byte;

// What stands between the first `{` and the first `}` after it, if anything does.
fn tag(key: &[u8]) -> Option<&[u8]>
    ensures some { IfSome result (λ t. (has_tag key.now ≡ true) × (t.now ≡ tag_of key.now)) }
    ensures none { IfNone result (has_tag key.now ≡ false) }
{
    let open = first_byte(b'{', key)?;
    let after = &key[open + 1..];
    match first_byte(b'}', after) {
        Some(close) if close > 0 => Some(&after[..close]),
        _ => None,
    }
}

// The hash part of a text.
fn part(key: &[u8]) -> &[u8]
    ensures { result.now ≡ hash_part key.now }
{
    tag(key).unwrap_or(key)
}

/// The part of the key that is hashed: what stands between its first `{` and the first `}` after that, or the whole key
/// where there is no such pair or nothing between. It takes no memory.
///
/// Source: twemproxy, `hash_tag: "{}"`.
pub fn hash_part(key: &Key) -> &[u8]
    ensures { result.now ≡ hash_part key.now }
{
    part(key.as_bytes())
}

// The hash of a text without a `{`, which most keys are: they are walked over once.
fn plain_hash(text: &[u8]) -> Option<u32>
    ensures { IfSome result (λ hash. (has_tag text.now ≡ false) × (hash ≡ fnv1a text.now)) }
{
    let mut hash = OFFSET_BASIS;
    for byte in text {
        if *byte == b'{' {
            return None;
        }
        hash = (hash ^ u32::from(*byte)).wrapping_mul(PRIME);
    }
    Some(hash)
}

/// The FNV-1a hash of the key's hash part. It takes no memory.
pub fn key_hash(key: &Key) -> u32
    ensures { result ≡ key_hash key.now }
{
    match plain_hash(key.as_bytes()) {
        Some(hash) => hash,
        None => fnv1a_32(hash_part(key)),
    }
}

/// Which of n servers has the key: the hash of its hash part modulo n. It takes no memory.
///
/// Source: twemproxy, `distribution: modula`.
pub fn slot(key: &Key, n: u32) -> u32
    requires { 0 < n }
    ensures { result ≡ slot_of n key.now }
{
    key_hash(key) % n
}
