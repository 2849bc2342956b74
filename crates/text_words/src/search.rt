//! Where a byte stands first.

ghost use Rattle.std.specs.Prelude.{◌≡◌, ◌<◌, ◌==◌, MatchOption, length, position};
ghost use Rattle.std.specs.List.{position_or_len};

use memchr::memchr;

// Fewer bytes than this are looked through one by one, which takes less than a vectored search takes to begin.
const SHORT: usize = 32;

// The first one, one by one.
fn first_near(byte: u8, bytes: &[u8]) -> Option<usize>
    ensures { result ≡ position (λ b. b == byte) bytes.now }
{
    bytes.iter().position(|b| *b == byte)
}

// The first one, many at a time.
fn first_far(byte: u8, bytes: &[u8]) -> Option<usize>
    ensures { MatchOption result (position_or_len (λ b. b == byte) bytes.now ≡ length bytes.now) (λ at. (at < length bytes.now) × (position_or_len (λ b. b == byte) bytes.now ≡ at)) }
{
    memchr(byte, bytes)
}

/// Where the first of these bytes that equals `byte` stands. It takes no memory.
pub fn first_byte(byte: u8, bytes: &[u8]) -> Option<usize>
    ensures { MatchOption result (position_or_len (λ b. b == byte) bytes.now ≡ length bytes.now) (λ at. (at < length bytes.now) × (position_or_len (λ b. b == byte) bytes.now ≡ at)) }
{
    if bytes.len() < SHORT {
        first_near(byte, bytes)
    } else {
        first_far(byte, bytes)
    }
}
