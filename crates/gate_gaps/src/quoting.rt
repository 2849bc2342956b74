//! Bytes inside a quoted label of Graphviz's language.

ghost use Rattle.std.specs.Prelude.{Some};
ghost use Rattle.gate_gaps.specs.Quoting.{quoted_byte, quoted};

use std::fmt;
use std::fmt::Display;
use text_words::escapes::EscapedByte;

/// A byte inside a quoted label: what mcgate prints for it, each `"` and `\` of that after a `\`.
///
/// Source: the escapes are mcgate's own; in a quoted string of Graphviz's language `\"` is a quote, and in a label `\\` is a
/// backslash.
#[derive(Drop)]
pub struct QuotedByte(pub u8);

impl Display for QuotedByte {
    ghost output = { λ b. Some (quoted_byte b.0) };

    fn fmt<W: fmt::Write>(&self, f: &mut fmt::Formatter<W>) -> fmt::Result {
        let byte = self.0;
        if byte == 34 {
            f.write_str("\\\"")
        } else if byte == 92 {
            f.write_str("\\\\\\\\")
        } else if 31 < byte && byte < 127 {
            f.write_char(byte as char)
        } else {
            f.write_str("\\")?;
            EscapedByte(byte).fmt(f)
        }
    }
}

/// Bytes inside a quoted label, each as a [`QuotedByte`].
#[derive(Drop)]
pub struct Quoted<'a>(pub &'a [u8]);

impl Display for Quoted<'_> {
    ghost output = { λ t. Some (quoted t.0.now) };

    fn fmt<W: fmt::Write>(&self, f: &mut fmt::Formatter<W>) -> fmt::Result {
        for byte in self.0 {
            QuotedByte(*byte).fmt(f)?;
        }
        Ok(())
    }
}
