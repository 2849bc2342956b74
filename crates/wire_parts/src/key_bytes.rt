//! Which bytes of a line may stand in a key.
ghost use Rattle.std.specs.Prelude.{◌≡◌, ◌≤◌, ◌<◌, ◌&&◌, true, take, length, fold, position};
ghost use Rattle.std.specs.List.{position_or_len, list_all};
ghost use Rattle.mc_types.specs.KeyText.{is_key_byte, is_bad_byte};

use mc_types::key::{first_bad_byte, is_bad_byte};

// Most bytes of a line are those of keys. So many are tested together, without a branch for each: a processor does that
// in a few steps.
const GROUP: usize = 16;

// What is left of a key is tested by so many: most keys end in the middle of a group.
const PART: usize = 4;

fn tested(group: &[u8]) -> bool
    ensures { result ≡ fold (λ good b. good && is_key_byte b) true group.now }
{
    group
        .iter()
        .fold(true, |good, byte| good & !is_bad_byte(*byte))
}

fn are_good(group: &[u8]) -> bool
    ensures { result ≡ list_all is_key_byte group.now }
{
    tested(group)
}

// Where the groups of this size end that stand from a place on with no other byte in them, if none stands before it.
fn groups_end(text: &[u8], from: usize, size: usize) -> usize
    requires size { 0 < size }
    requires within { from ≤ length text.now }
    requires good { list_all is_key_byte (take from text.now) ≡ true }
    ensures within { result ≤ length text.now }
    ensures good { list_all is_key_byte (take result text.now) ≡ true }
{
    let mut len = from;
    while text.len() - len >= size && are_good(&text[len..len + size]) {
        len += size;
    }
    len
}

fn rest_len(text: &[u8]) -> usize
    ensures value { result ≡ position_or_len is_bad_byte text.now }
    ensures within { result ≤ length text.now }
{
    first_bad_byte(text).unwrap_or(text.len())
}

/// How many bytes at the front may stand in a key.
pub fn key_len(text: &[u8]) -> usize
    ensures value { result ≡ position_or_len is_bad_byte text.now }
    ensures within { result ≤ length text.now }
{
    let groups = groups_end(text, 0, GROUP);
    let len = groups_end(text, groups, PART);
    len + rest_len(&text[len..])
}

/// Whether all bytes may stand in a key.
pub fn are_key_bytes(text: &[u8]) -> bool
    ensures { result ≡ list_all is_key_byte text.now }
{
    key_len(text) == text.len()
}
