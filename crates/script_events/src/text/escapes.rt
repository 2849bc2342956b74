//! The bytes that an escaped text spells.

ghost use Rattle.std.specs.Prelude.{◌≡◌, ◌<◌, ◌≤◌, Some, None, length, drop, IfSome, MatchOption};
ghost use Rattle.script_events.specs.Escapes.{hex_value, hex_byte, letter_value, unescaped, onto};
ghost use Rattle.script_events.specs.Reads.{ReadsPart};

use crate::text::fault::LineFault;
use std::alloc::Global;

fn hex_value(letter: u8) -> Option<u8>
    ensures value { result ≡ hex_value letter }
    ensures small { IfSome result (λ d. d < 16) }
{
    match letter {
        b'0'..=b'9' => Some(letter - b'0'),
        b'a'..=b'f' => Some(letter - b'a' + 10),
        b'A'..=b'F' => Some(letter - b'A' + 10),
        _ => None,
    }
}

fn hex_byte(high: u8, low: u8) -> Option<u8>
    ensures { result ≡ hex_byte (hex_value high) (hex_value low) }
{
    let high = hex_value(high)?;
    let low = hex_value(low)?;
    Some(high * 16 + low)
}

fn letter_value(letter: u8) -> Option<u8>
    ensures { result ≡ letter_value letter }
{
    match letter {
        b'r' => Some(b'\r'),
        b'n' => Some(b'\n'),
        b'\\' => Some(b'\\'),
        _ => None,
    }
}

// What the front of a text spells: a byte, and how many bytes spell it.
#[derive(Clone, Copy)]
struct Spelled {
    byte: u8,
    len: usize,
}

// The first byte that a text spells; `None` where its front is no spelling.
fn first_byte(text: &[u8]) -> Option<Spelled>
    requires { 0 < length text.now }
    ensures { MatchOption result (unescaped text.now ≡ None) (λ s. (0 < s.len) × (s.len ≤ length text.now) × (unescaped text.now ≡ onto (Some s.byte) (unescaped (drop s.len text.now)))) }
{
    match text {
        [b'\\', b'x', high, low, ..] => Some(Spelled {
            byte: hex_byte(*high, *low)?,
            len: 4,
        }),
        [b'\\', letter, ..] => Some(Spelled {
            byte: letter_value(*letter)?,
            len: 2,
        }),
        [b'\\'] => None,
        [byte, ..] => Some(Spelled {
            byte: *byte,
            len: 1,
        }),
        [] => None,
    }
}

/// The bytes that a text spells: `\r`, `\n`, `\\` and `\xHH` (either case of letters) stand for one byte, and any byte but the
/// backslash for itself.
///
/// [`LineFault::Unreadable`] comes exactly where something else stands after a backslash, and otherwise running out of memory is the only
/// error. The escapes are mcgate's own.
pub fn unescape(alloc: Global, text: &[u8]) -> Result<Vec<u8>, LineFault>
    ensures { ReadsPart (λ v. v.items) (unescaped text.now) result }
{
    let mut bytes = Vec::new(alloc);
    let mut at = 0;
    while at < text.len() {
        let Some(spelled) = first_byte(&text[at..]) else {
            return Err(LineFault::Unreadable);
        };
        bytes.push(spelled.byte)?;
        at += spelled.len;
    }
    Ok(bytes)
}
