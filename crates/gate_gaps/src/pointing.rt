//! Bytes in a path through a JSON text.

ghost use Rattle.std.specs.Prelude.{Some};
ghost use Rattle.gate_gaps.specs.Pointing.{pointed_byte, pointed};

use std::fmt;
use std::fmt::Display;
use text_words::escapes::EscapedByte;

/// A byte of a name in a path: `~` is `~0` and `/` is `~1`, as in a JSON pointer, and each other byte is as mcgate prints it.
#[derive(Drop)]
pub struct PointedByte(pub u8);

impl Display for PointedByte {
    ghost output = { λ b. Some (pointed_byte b.0) };

    fn fmt<W: fmt::Write>(&self, f: &mut fmt::Formatter<W>) -> fmt::Result {
        let byte = self.0;
        if byte == 126 {
            f.write_str("~0")
        } else if byte == 47 {
            f.write_str("~1")
        } else {
            EscapedByte(byte).fmt(f)
        }
    }
}

/// A name in a path, each byte as a [`PointedByte`].
#[derive(Drop)]
pub struct Pointed<'a>(pub &'a [u8]);

impl Display for Pointed<'_> {
    ghost output = { λ t. Some (pointed t.0.now) };

    fn fmt<W: fmt::Write>(&self, f: &mut fmt::Formatter<W>) -> fmt::Result {
        for byte in self.0 {
            PointedByte(*byte).fmt(f)?;
        }
        Ok(())
    }
}
