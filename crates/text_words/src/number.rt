//! Numbers written in decimal digits.

ghost use Rattle.std.specs.Prelude.{◌≡◌, ◌+◌, ◌*◌, ◌^◌, ◌<◌};
ghost use Rattle.std.specs.Option.{SomeIff};
ghost use Rattle.std.specs.Char.{IsAsciiDigit, digit_value};
ghost use Rattle.text_words.specs.Number.{number_below, signed_number};

// The value with one more digit after it.
fn with_digit(value: u64, byte: u8) -> Option<u64>
    ensures { SomeIff result (IsAsciiDigit byte × (value * 10 + digit_value byte < 2 ^ 64)) (value * 10 + digit_value byte) }
{
    if !byte.is_ascii_digit() {
        return None;
    }
    value.checked_mul(10)?.checked_add(u64::from(byte - b'0'))
}

/// The number that a word of 1 to 20 decimal digits writes, leading zeros among them.
///
/// `None` for any other word, and where the number is 2^64 or more. The protocol asks for a decimal number; the limit on the
/// digits is mcgate's own.
pub fn number(word: &[u8]) -> Option<u64>
    ensures { result ≡ number_below (2 ^ 64) word.now }
{
    if word.is_empty() || word.len() > 20 {
        return None;
    }
    let mut value = 0;
    for byte in word {
        match with_digit(value, *byte) {
            Some(next) => value = next,
            None => return None,
        }
    }
    Some(value)
}

/// The number that a word of flags writes: `None` where it writes none, or one of 2^32 or more.
pub fn u32_number(word: &[u8]) -> Option<u32>
    ensures { result ≡ number_below (2 ^ 32) word.now }
{
    u32::try_from(number(word)?).ok()
}

/// The number that a word of 1 to 20 digits writes, which may stand after one `-`, as an expiry time is written.
///
/// `-0` is 0. `None` for any other word, and outside the range of `i64`.
pub fn signed(word: &[u8]) -> Option<i64>
    ensures { result ≡ signed_number word.now }
{
    match word {
        [b'-', digits @ ..] => match number(digits)? {
            0x8000_0000_0000_0000 => Some(i64::MIN),
            n if n < 0x8000_0000_0000_0000 => Some(-(n as i64)),
            _ => None,
        },
        _ => i64::try_from(number(word)?).ok(),
    }
}
