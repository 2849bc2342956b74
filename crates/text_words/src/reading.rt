//! The first line of a stream.

ghost use Rattle.std.specs.Prelude.{take, MatchOption};
ghost use Rattle.text_words.specs.Line.{IsLineOf, IsOneLine, IsLineAt};

use crate::ends::Line;
use memchr::memchr;

/// A line's end stands among this many first bytes, or the line is too long.
pub const LINE_LIMIT: usize = 65_536;

// Where the first line end stands.
fn line_end(bytes: &[u8]) -> Option<usize>
    ensures { MatchOption result (IsOneLine (take LINE_LIMIT bytes.now)) (IsLineAt bytes.now) }
{
    memchr(b'\n', &bytes[..bytes.len().min(LINE_LIMIT)])
}

/// The first line of the bytes. It ends at `\n`, and one `\r` before that is no part of its text.
///
/// [`Line::TooLong`] comes exactly where the first 65,536 bytes hold no `\n`, and [`Line::More`] where there is none and
/// fewer bytes are there. The protocol leaves a line's length open; the limit is mcgate's own.
pub fn line(bytes: &[u8]) -> Line
    ensures { IsLineOf bytes.now result }
{
    match line_end(bytes) {
        Some(at) if at > 0 && bytes[at - 1] == b'\r' => Line::At {
            end: at - 1,
            used: at + 1,
        },
        Some(at) => Line::At {
            end: at,
            used: at + 1,
        },
        None if bytes.len() < LINE_LIMIT => Line::More,
        None => Line::TooLong,
    }
}
