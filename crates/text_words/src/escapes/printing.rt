//! Bytes as they are printed: each on its own, and a whole text of them.

ghost use Rattle.std.specs.Prelude.{◌≡◌, ◌<◌, Some};
ghost use Rattle.text_words.specs.Escapes.{hex_digit, escape, escaped};

use std::fmt;
use std::fmt::Display;

fn hex_digit(digit: u8) -> u8
    requires { digit < 16 }
    ensures digit { result ≡ hex_digit digit }
    ensures ascii { result < 128 }
{
    if digit < 10 {
        b'0' + digit
    } else {
        b'a' - 10 + digit
    }
}

/// A byte as it is printed: `\r`, `\n`, `\\`, a byte in 32..=126 as it is, and any other as `\xhh` with two lower case
/// digits.
///
/// Source: mcgate's own.
#[derive(Drop)]
pub struct EscapedByte(pub u8);

impl Display for EscapedByte {
    ghost output = { λ b. Some (escape b.0) };

    fn fmt<W: fmt::Write>(&self, f: &mut fmt::Formatter<W>) -> fmt::Result {
        let byte = self.0;
        if byte == 13 {
            f.write_str("\\r")
        } else if byte == 10 {
            f.write_str("\\n")
        } else if byte == 92 {
            f.write_str("\\\\")
        } else if 31 < byte && byte < 127 {
            f.write_char(byte as char)
        } else {
            f.write_str("\\x")?;
            f.write_char(hex_digit(byte / 16) as char)?;
            f.write_char(hex_digit(byte % 16) as char)
        }
    }
}

/// Bytes as they are printed, each as an [`EscapedByte`].
#[derive(Drop)]
pub struct Escaped<'a>(pub &'a [u8]);

impl Display for Escaped<'_> {
    ghost output = { λ t. Some (escaped t.0.now) };

    fn fmt<W: fmt::Write>(&self, f: &mut fmt::Formatter<W>) -> fmt::Result {
        for byte in self.0 {
            EscapedByte(*byte).fmt(f)?;
        }
        Ok(())
    }
}
