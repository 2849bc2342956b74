//! How an ask is written to a server, into what is to be sent: large data are shared with it.

ghost use Rattle.std.specs.Prelude.{◌≡◌, ◌++◌, true, codes, OnOk, OnErr};
ghost use Rattle.mc_types.specs.Asks.{IsAsk};
ghost use Rattle.wire_stream.specs.Spelling.{spelling_of};
ghost use Rattle.wire_classic.specs.Spelling.{stores_data, ask_line};
ghost use Rattle.wire_parts.specs.Sending.{bytes_of};
ghost use Rattle.serve_links.specs.Sending.{is_classic_store};

use mc_types::{Ask, Dialect, Op};
use std::alloc::AllocError;
use wire_classic::write_store_line;
use wire_parts::to_send::SendBuffer;
use wire_stream::{SHARED_FROM, write_ask};

// Whether it is a store in the classic dialect.
fn is_store(ask: &Ask) -> bool
    ensures { result ≡ is_classic_store ask.now }
{
    match (ask.dialect, ask.op) {
        (Dialect::Classic, Op::Set) | (Dialect::Classic, Op::Add) => true,
        (Dialect::Classic, Op::Replace) | (Dialect::Classic, Op::Append) => true,
        (Dialect::Classic, Op::Prepend) | (Dialect::Classic, Op::Cas) => true,
        _ => false,
    }
}

// The line of a store, its data, which are shared, and what stands after them.
fn send_store(ask: &Ask, out: &mut SendBuffer) -> Result<(), AllocError>
    requires { stores_data ask.now.op ≡ true }
    ensures ok { OnOk result (bytes_of out.new ≡ bytes_of out.old ++ ask_line ask.now ++ ask.now.body ++ codes "\r\n") }
    ensures err { OnErr result (bytes_of out.new ≡ bytes_of out.old) }
{
    let mut after = out.new_text();
    after.extend_from_slice(b"\r\n")?;
    let len = out.text.len();
    write_store_line(ask, &mut out.text)?;
    let pushed = out.push_data(&ask.body, after);
    if pushed.is_err() {
        out.text.truncate(len);
    }
    pushed
}

/// Appends what [`write_ask`] does, to what is to be sent. Data of [`SHARED_FROM`] bytes or more of a store in the classic dialect aren't
/// copied: they are shared with the ask.
///
/// The only error is running out of memory, which leaves what is to be sent as it was.
///
/// Source: memcached's protocol.txt, "Storage commands".
#[tactic(auto, using(crate::proofs::StoreLines::op_stores, crate::proofs::StoreLines::store_is))]
pub fn send_ask(ask: &Ask, out: &mut SendBuffer) -> Result<(), AllocError>
    requires { IsAsk ask.now }
    ensures ok { OnOk result (bytes_of out.new ≡ bytes_of out.old ++ spelling_of ask.now) }
    ensures err { OnErr result (bytes_of out.new ≡ bytes_of out.old) }
{
    if ask.body.len() >= SHARED_FROM && is_store(ask) {
        return send_store(ask, out);
    }
    write_ask(ask, &mut out.text)
}
