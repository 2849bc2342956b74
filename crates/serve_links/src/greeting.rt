//! What a server says to what it was asked first over a connection.

ghost use Rattle.std.specs.Prelude.{◌≡◌, ◌<◌, ◌^◌, ◌++◌, OnOk, OnErr, codes};
ghost use Rattle.std.specs.Str.{bytes_eq};
ghost use Rattle.serve_links.specs.Dialects.{IsUsedBelow, ReadsDialect, ReadsGreeting, four_more};

use crate::settings::{Greeting, ServerDialect};
use bytes::BytesMut;
use mc_types::Dialect;
use std::alloc::AllocError;
use wire_stream::meta_gets::{DialectRead, read_dialect};

// In which dialect it is asked from now on, by how it is asked for that.
fn read_told(dialect: ServerDialect, bytes: &[u8]) -> DialectRead
    ensures { ReadsDialect dialect bytes.now result }
{
    match dialect {
        ServerDialect::Auto => read_dialect(bytes),
        ServerDialect::Classic => DialectRead::Told(Dialect::Classic, 0),
        ServerDialect::Meta => DialectRead::Told(Dialect::Meta, 0),
    }
}

// What was read where it stands behind four more bytes: a dialect was told in four bytes more.
fn four_more(read: DialectRead) -> DialectRead
    requires { IsUsedBelow (2 ^ 63) read }
    ensures { result ≡ four_more read }
{
    match read {
        DialectRead::Told(dialect, used) => DialectRead::Told(dialect, used + 4),
        other => other,
    }
}

/// Appends `flush_all`, by which a server empties itself. The only error is running out of memory, which leaves the buffer as it was.
pub fn write_flush(out: &mut BytesMut) -> Result<(), AllocError>
    ensures ok { OnOk result (out.new.items ≡ out.old.items ++ codes "flush_all\r\n") }
    ensures err { OnErr result (out.new.items ≡ out.old.items) }
{
    out.extend_from_slice(b"flush_all\r\n")
}

// Whether this is what a server says once it has emptied itself.
fn is_flushed(front: &[u8]) -> bool
    ensures { result ≡ bytes_eq front.now (codes "OK\r\n") }
{
    front == b"OK\r\n".as_slice()
}

/// What the bytes say of a server that was asked this first: all that it says stands at their front and tells this dialect, or more has to come, or
/// no such answer begins so.
#[tactic(auto, using(crate::proofs::Ends::reads_alone))]
pub fn read_greeting(greeting: Greeting, bytes: &[u8]) -> DialectRead
    ensures { ReadsGreeting greeting bytes.now result }
{
    if !greeting.flushes {
        return read_told(greeting.dialect, bytes);
    }
    if bytes.len() < 4 {
        return DialectRead::More;
    }
    if !is_flushed(&bytes[..4]) {
        return DialectRead::Neither;
    }
    four_more(read_told(greeting.dialect, &bytes[4..]))
}
