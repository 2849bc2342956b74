//! Places in a text: lines and columns.

use std::fmt;
use std::fmt::Display;

/// A place in a file, both counted from 1. A column is counted in characters.
#[derive(Clone, Copy, PartialEq, Eq)]
pub struct TextPlace {
    pub line: usize,
    pub column: usize,
}

/// `LINE:COLUMN`.
impl Display for TextPlace {
    fn fmt<W: fmt::Write>(&self, f: &mut fmt::Formatter<W>) -> fmt::Result {
        write!(f, "{}:{}", self.line, self.column)
    }
}

impl TextPlace {
    /// The first place of a file.
    pub fn first() -> TextPlace {
        TextPlace { line: 1, column: 1 }
    }

    // The place after a byte at this one. Only the first byte of a character counts.
    fn after(self, byte: u8) -> TextPlace {
        if byte == b'\n' {
            TextPlace {
                line: self.line.saturating_add(1),
                column: 1,
            }
        } else if byte & 0xc0 == 0x80 {
            self
        } else {
            TextPlace {
                line: self.line,
                column: self.column.saturating_add(1),
            }
        }
    }

    /// The place of a byte of a text that begins at this place.
    pub fn within(self, text: &str, at: usize) -> TextPlace {
        let mut place = self;
        for byte in text.as_bytes().iter().take(at) {
            place = place.after(*byte);
        }
        place
    }
}

/// A text of a file, and where it begins there.
#[derive(Clone, Copy)]
pub struct Source<'a> {
    /// How the file is called in words.
    pub file: &'a str,
    pub text: &'a str,
    pub begins: TextPlace,
}

impl<'a> Source<'a> {
    /// A whole file.
    pub fn whole(file: &'a str, text: &'a str) -> Source<'a> {
        Source {
            file,
            text,
            begins: TextPlace::first(),
        }
    }

    /// The place of a byte of the text.
    pub fn place(&self, at: usize) -> TextPlace {
        self.begins.within(self.text, at)
    }
}
