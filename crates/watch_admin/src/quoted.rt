//! A text within quotation marks.

ghost use Rattle.std.specs.Prelude.{◌≡◌, ◌++◌, [], ◌∷◌, true, Some, OnOk, codes};
ghost use Rattle.std.specs.Io.KnownBytes.{Appends};
ghost use Rattle.watch_admin.specs.Quoted.{json_quoted_byte, quoted_bytes, json_quoted};

use std::fmt::Display;
use std::io::Write;
use std::{fmt, io};

#[derive(Drop)]
struct QuotedByte(u8);

impl Display for QuotedByte {
    ghost output = { λ b. Some (json_quoted_byte b.0) };

    fn fmt<W: fmt::Write>(&self, f: &mut fmt::Formatter<W>) -> fmt::Result {
        let byte = self.0;
        if byte == 34 {
            f.write_str("\\\"")
        } else if byte == 92 {
            f.write_str("\\\\")
        } else if 31 < byte && byte < 127 {
            f.write_char(byte as char)
        } else {
            f.write_str("?")
        }
    }
}

#[derive(Drop)]
struct QuotedBytes<'a>(&'a [u8]);

impl Display for QuotedBytes<'_> {
    ghost output = { λ t. Some (quoted_bytes t.0.now) };

    fn fmt<W: fmt::Write>(&self, f: &mut fmt::Formatter<W>) -> fmt::Result {
        for byte in self.0 {
            QuotedByte(*byte).fmt(f)?;
        }
        Ok(())
    }
}

// Whether a byte stands for itself within quotation marks.
fn is_plain(byte: u8) -> bool
    ensures { result ≡ true → json_quoted_byte byte ≡ byte ∷ [] }
{
    31 < byte && byte < 127 && byte != 34 && byte != 92
}

// Whether each of these bytes does.
fn are_plain(bytes: &[u8]) -> bool
    ensures { result ≡ true → quoted_bytes bytes.now ≡ bytes.now }
{
    for byte in bytes {
        if !is_plain(*byte) {
            return false;
        }
    }
    true
}

// A text as it stands within quotation marks. Most texts are plain, and are written at once.
#[derive(Drop)]
struct QuotedText<'a>(&'a str);

impl Display for QuotedText<'_> {
    ghost output = { λ t. Some (quoted_bytes t.0.now) };

    fn fmt<W: fmt::Write>(&self, f: &mut fmt::Formatter<W>) -> fmt::Result {
        if are_plain(self.0.as_bytes()) {
            f.write_str(self.0)
        } else {
            QuotedBytes(self.0.as_bytes()).fmt(f)
        }
    }
}

/// A text within quotation marks, which JSON and Prometheus' text format read alike: a quotation mark and a backslash have a backslash
/// before them, and a byte that isn't in 32..=126 is a `?`. No text of a server has such bytes.
#[derive(Drop)]
pub struct Quoted<'a>(pub &'a str);

impl Display for Quoted<'_> {
    ghost output = { λ t. Some (json_quoted t.0.now) };

    fn fmt<W: fmt::Write>(&self, f: &mut fmt::Formatter<W>) -> fmt::Result {
        f.write_str("\"")?;
        QuotedText(self.0).fmt(f)?;
        f.write_str("\"")
    }
}

/// Writes a text as it stands between quotation marks, without them. Most texts are plain, and are written at once.
pub fn write_quoted<W: Write>(text: &str, out: &mut W) -> io::Result<()>
    ensures { OnOk result (Appends (W.contents out.old) (W.contents out.new) (quoted_bytes text.now)) }
{
    if are_plain(text.as_bytes()) {
        return out.write_all(text.as_bytes());
    }
    let quoted = QuotedBytes(text.as_bytes());
    write!(out, "{quoted}")
}
