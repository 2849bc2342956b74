//! What `incr` and `decr` make of the digits that a server holds.

ghost use Rattle.std.specs.Prelude.{◌≡◌, option_map};
ghost use Rattle.text_words.specs.Arithmetic.{without_spaces, number_held, changed};

use crate::number::number;

// The bytes without the spaces at their end.
fn trimmed(bytes: &[u8]) -> &[u8]
    ensures { result.now ≡ without_spaces bytes.now }
{
    let mut end = bytes.len();
    while end > 0 && bytes[end - 1] == b' ' {
        end -= 1;
    }
    &bytes[..end]
}

/// What `incr` (`up`) or `decr` by `delta` makes of a number that a server holds as these bytes.
///
/// `incr` wraps at 2^64, and `decr` stops at 0. `None` where the bytes, without the spaces after them, are not 1 to 20 digits
/// of a number below 2^64: then the server refuses the command. (memcached's protocol.txt, "Increment/Decrement")
pub fn incr_or_decr(bytes: &[u8], up: bool, delta: u64) -> Option<u64>
    ensures { result ≡ option_map (changed up delta) (number_held bytes.now) }
{
    let n = number(trimmed(bytes))?;
    Some(if up {
        n.wrapping_add(delta)
    } else {
        n.saturating_sub(delta)
    })
}
