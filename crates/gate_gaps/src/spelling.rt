//! How the names of pools are spelled where they are written.

ghost use Rattle.std.specs.Prelude.{Some};
ghost use Rattle.gate_gaps.specs.Spellings.{spelled};

use crate::quoting::Quoted;
use std::fmt;
use std::fmt::Display;
use text_words::escapes::Escaped;

/// Where bytes are written.
#[derive(Clone, Copy, PartialEq, Eq)]
pub enum Spelling {
    /// On a line: in the escapes.
    Line,
    /// In a quoted label of Graphviz's language.
    Label,
}

/// Bytes in a spelling.
#[derive(Drop)]
pub struct Spelled<'a>(pub Spelling, pub &'a [u8]);

impl Display for Spelled<'_> {
    ghost output = { λ t. Some (spelled t.0 t.1.now) };

    fn fmt<W: fmt::Write>(&self, f: &mut fmt::Formatter<W>) -> fmt::Result {
        match self.0 {
            Spelling::Line => Escaped(self.1).fmt(f),
            Spelling::Label => Quoted(self.1).fmt(f),
        }
    }
}
