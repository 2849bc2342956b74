//! The values of flags.
ghost use Rattle.std.specs.Prelude.{◌≡◌, [], ◌∷◌, true, false, MatchOption};
ghost use Rattle.std.specs.List.{list_any};
ghost use Rattle.wire_meta.specs.Flags.{kind_letters, is_served, store_mode, count_mode, mode_by, mode_of, is_opaque, has_value, values_of, value_more};

use crate::command::{Kind, Values};
use mc_types::{Op, Opaque};
use text_words::number::{number, signed, u32_number};

fn letters(kind: Kind) -> &'static [u8]
    ensures { result.now ≡ kind_letters kind }
{
    match kind {
        Kind::Get => b"cfkqstvOT".as_slice(),
        Kind::Store => b"ckqCFOTM".as_slice(),
        Kind::Delete => b"kqCO".as_slice(),
        Kind::Count => b"ckqtvCDOTM".as_slice(),
    }
}

/// Whether a command has a flag with this letter.
pub fn is_served(kind: Kind, letter: u8) -> bool
    ensures { result ≡ is_served kind letter }
{
    letters(kind).iter().any(|b| *b == letter)
}

fn store_mode(b: u8) -> Option<Op>
    ensures { result ≡ store_mode b }
{
    if b == b'S' || b == b's' {
        Some(Op::Set)
    } else if b == b'E' || b == b'e' {
        Some(Op::Add)
    } else if b == b'A' || b == b'a' {
        Some(Op::Append)
    } else if b == b'P' || b == b'p' {
        Some(Op::Prepend)
    } else if b == b'R' || b == b'r' {
        Some(Op::Replace)
    } else {
        None
    }
}

fn count_mode(b: u8) -> Option<Op>
    ensures { result ≡ count_mode b }
{
    if b == b'I' || b == b'i' || b == b'+' {
        Some(Op::Incr)
    } else if b == b'D' || b == b'd' || b == b'-' {
        Some(Op::Decr)
    } else {
        None
    }
}

fn mode_by(kind: Kind, b: u8) -> Option<Op>
    ensures { result ≡ mode_by kind b }
{
    match kind {
        Kind::Store => store_mode(b),
        Kind::Count => count_mode(b),
        Kind::Get | Kind::Delete => None,
    }
}

fn mode(kind: Kind, text: &[u8]) -> Option<Op>
    ensures { result ≡ mode_of kind text.now }
{
    match text {
        [b] => mode_by(kind, *b),
        _ => None,
    }
}

fn is_opaque(text: &[u8]) -> bool
    ensures { result ≡ is_opaque text.now }
{
    Opaque::read(text).is_some()
}

impl Values {
    /// What no flags say.
    pub fn none() -> Values
        ensures { (kind : Kind) → result ≡ values_of kind [] }
    {
        Values {
            cas: None,
            delta: None,
            exptime: None,
            flags: None,
            mode: None,
            quiet: false,
        }
    }

    /// What is said with one flag more, or `None` where its text is no value of it.
    pub fn with(self, kind: Kind, letter: u8, text: &[u8]) -> Option<Values>
        ensures { MatchOption result (has_value kind letter text.now ≡ false) (λ values. (has_value kind letter text.now ≡ true) × (values ≡ value_more kind (letter ∷ text.now) self)) }
    {
        let mut values = self;
        if letter == b'C' {
            values.cas = Some(number(text)?);
        } else if letter == b'D' {
            values.delta = Some(number(text)?);
        } else if letter == b'F' {
            values.flags = Some(u32_number(text)?);
        } else if letter == b'T' {
            values.exptime = Some(signed(text)?);
        } else if letter == b'M' {
            values.mode = Some(mode(kind, text)?);
        } else if letter == b'O' {
            if !is_opaque(text) {
                return None;
            }
        } else {
            if !text.is_empty() {
                return None;
            }
            values.quiet = values.quiet || letter == b'q';
        }
        Some(values)
    }
}
