//! How an ask is written to a server.
ghost use Rattle.std.specs.Prelude.{◌≡◌, ◌++◌, OnOk, OnErr};
ghost use Rattle.mc_types.specs.Asks.{IsAsk};
ghost use Rattle.wire_stream.specs.Spelling.{spelling_of};

use bytes::BytesMut;
use mc_types::{Ask, Dialect};
use std::alloc::AllocError;

/// Appends the one spelling of an ask, in its dialect: without `noreply` and without `q`, since an answer is awaited.
///
/// The only error is running out of memory, which leaves the buffer as it was.
pub fn write_ask(ask: &Ask, out: &mut BytesMut) -> Result<(), AllocError>
    requires { IsAsk ask.now }
    ensures ok { OnOk result (out.new.items ≡ out.old.items ++ spelling_of ask.now) }
    ensures err { OnErr result (out.new.items ≡ out.old.items) }
{
    match ask.dialect {
        Dialect::Classic => wire_classic::write_ask(ask, out),
        Dialect::Meta => wire_meta::write_ask(ask, out),
    }
}
