//! Which dialects a server speaks.

ghost use Rattle.std.specs.Prelude.{◌≡◌, ◌++◌, codes, OnOk, OnErr};
ghost use Rattle.wire_stream.specs.Learning.{line_dialect, TellsDialect};

use bytes::BytesMut;
use mc_types::Dialect;
use std::alloc::AllocError;
use text_words::{Line, line};

/// What was read of the answer to `mn`.
#[derive(Clone, Copy)]
pub enum DialectRead {
    /// The answer isn't whole yet.
    More,
    /// The server speaks the meta dialect too, or the classic one alone; and how many bytes the answer takes.
    Told(Dialect, usize),
    /// No answer to `mn` begins so.
    Neither,
}

/// Appends `mn`, by whose answer [`read_dialect`] tells whether a server speaks the meta dialect.
///
/// The only error is running out of memory, which leaves the buffer as it was.
pub fn write_noop(out: &mut BytesMut) -> Result<(), AllocError>
    ensures ok { OnOk result (out.new.items ≡ out.old.items ++ codes "mn\r\n") }
    ensures err { OnErr result (out.new.items ≡ out.old.items) }
{
    out.extend_from_slice(b"mn\r\n")
}

fn dialect_of(text: &[u8]) -> Option<Dialect>
    ensures { result ≡ line_dialect text.now }
{
    if text == b"MN".as_slice() {
        return Some(Dialect::Meta);
    }
    if text == b"ERROR".as_slice() {
        return Some(Dialect::Classic);
    }
    None
}

/// Reads the answer to `mn` at the front of the bytes that a server sent: `MN`, or `ERROR` of one that knows the classic dialect alone.
///
/// Source: memcached's protocol.txt, "Meta No-Op" and "Error strings".
pub fn read_dialect(bytes: &[u8]) -> DialectRead
    ensures { TellsDialect bytes.now result }
{
    match line(bytes) {
        Line::More => DialectRead::More,
        Line::TooLong => DialectRead::Neither,
        Line::At { end, used } => match dialect_of(&bytes[..end]) {
            Some(dialect) => DialectRead::Told(dialect, used),
            None => DialectRead::Neither,
        },
    }
}
