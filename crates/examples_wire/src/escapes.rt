//! Bytes as tables spell them: `\r`, `\n` and `\t`, `\x7f` for any byte, and otherwise as they show.

use std::alloc::{AllocError, Global};

fn digit(byte: u8) -> u8 {
    match byte {
        b'0'..=b'9' => byte - b'0',
        b'a'..=b'f' => byte - b'a' + 10,
        _ => 0,
    }
}

fn push_both(out: &mut Vec<u8>, byte: u8, rest: &[u8]) -> Result<(), AllocError> {
    out.push(byte)?;
    out.extend_from_slice(rest)
}

// Appends what a text spells that stood behind a backslash.
fn push_escaped(out: &mut Vec<u8>, text: &[u8]) -> Result<(), AllocError> {
    match text {
        [b'r', rest @ ..] => push_both(out, b'\r', rest),
        [b'n', rest @ ..] => push_both(out, b'\n', rest),
        [b't', rest @ ..] => push_both(out, b'\t', rest),
        [b'x', high, low, rest @ ..] => push_both(out, digit(*high) << 4 | digit(*low), rest),
        _ => out.extend_from_slice(text),
    }
}

/// The bytes that a text spells.
pub fn bytes_of(alloc: Global, text: &str) -> Result<Vec<u8>, AllocError> {
    let mut out = Vec::new(alloc);
    for (at, part) in text.split('\\').enumerate() {
        if at == 0 {
            out.extend_from_slice(part.as_bytes())?;
        } else {
            push_escaped(&mut out, part.as_bytes())?;
        }
    }
    Ok(out)
}

/// The text that spells these bytes, or `nothing`.
pub fn spelled(alloc: Global, bytes: &[u8]) -> Result<String, AllocError> {
    if bytes.is_empty() {
        return "nothing".to_string(alloc);
    }
    format!(in alloc; "{}", bytes.escape_ascii())
}
