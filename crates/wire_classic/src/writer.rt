//! How an ask is written to a server.
ghost use Rattle.std.specs.Prelude.{◌≡◌, ◌++◌, ◌∷◌, [], true, take, length, OnOk, OnErr, codes, decimal};
ghost use Rattle.std.specs.Fmt.{signed_decimal};
ghost use Rattle.text_words.specs.Spelling.{spaced, words_line};
ghost use Rattle.wire_classic.specs.Asks.{IsClassicAsk};
ghost use Rattle.wire_parts.specs.Tests.{block_text};
ghost use Rattle.wire_classic.specs.Spelling.{command_word, exptime_in, cas_in, store_words, stores_data, ask_line, classic_spelling};

use bytes::BytesMut;
use itoa::Buffer;
use mc_types::{Ask, Op};
use std::alloc::AllocError;

// The command's word and a space. Each word is an append of its own: one whose length is known costs no call.
fn put_word(out: &mut BytesMut, op: Op, with_cas: bool) -> Result<(), AllocError>
    ensures ok { OnOk result (out.new.items ≡ out.old.items ++ command_word op with_cas ++ codes " ") }
    ensures err { OnErr result (take (length out.old.items) out.new.items ≡ out.old.items) }
{
    match op {
        Op::Get if with_cas => out.extend_from_slice(b"gets "),
        Op::Get => out.extend_from_slice(b"get "),
        Op::Gat if with_cas => out.extend_from_slice(b"gats "),
        Op::Gat => out.extend_from_slice(b"gat "),
        Op::Set => out.extend_from_slice(b"set "),
        Op::Add => out.extend_from_slice(b"add "),
        Op::Replace => out.extend_from_slice(b"replace "),
        Op::Append => out.extend_from_slice(b"append "),
        Op::Prepend => out.extend_from_slice(b"prepend "),
        Op::Cas => out.extend_from_slice(b"cas "),
        Op::Delete => out.extend_from_slice(b"delete "),
        Op::Incr => out.extend_from_slice(b"incr "),
        Op::Decr => out.extend_from_slice(b"decr "),
        Op::Touch => out.extend_from_slice(b"touch "),
    }
}

// The command's word and the key.
fn put_keyed(out: &mut BytesMut, ask: &Ask) -> Result<(), AllocError>
    ensures ok { OnOk result (out.new.items ≡ out.old.items ++ words_line (command_word ask.now.op ask.now.with_cas ∷ ask.now.key ∷ [])) }
    ensures err { OnErr result (take (length out.old.items) out.new.items ≡ out.old.items) }
{
    put_word(out, ask.op, ask.with_cas)?;
    out.extend_from_slice(ask.key.as_bytes())?;
    out.extend_from_slice(b"\r\n")
}

// The command's word and two arguments.
fn put_two_arguments(
    out: &mut BytesMut,
    ask: &Ask,
    first: &[u8],
    second: &[u8],
) -> Result<(), AllocError>
    ensures ok { OnOk result (out.new.items ≡ out.old.items ++ words_line (command_word ask.now.op ask.now.with_cas ∷ first.now ∷ second.now ∷ [])) }
    ensures err { OnErr result (take (length out.old.items) out.new.items ≡ out.old.items) }
{
    put_word(out, ask.op, ask.with_cas)?;
    out.extend_from_slice(first)?;
    out.extend_from_slice(b" ")?;
    out.extend_from_slice(second)?;
    out.extend_from_slice(b"\r\n")
}

fn exptime_text<'a>(buffer: &'a mut Buffer, ask: &Ask) -> &'a [u8]
    ensures { result.now ≡ signed_decimal (exptime_in ask.now) }
{
    let exptime = ask.exptime.unwrap_or(0);
    buffer.format(exptime).as_bytes()
}

fn cas_text<'a>(buffer: &'a mut Buffer, ask: &Ask) -> &'a [u8]
    ensures { result.now ≡ decimal (cas_in ask.now) }
{
    let cas = ask.cas.unwrap_or(0);
    buffer.format(cas).as_bytes()
}

// The words that each store's line begins with.
fn put_head(out: &mut BytesMut, ask: &Ask, exptime: &[u8]) -> Result<(), AllocError>
    ensures ok { OnOk result (out.new.items ≡ out.old.items ++ spaced (command_word ask.now.op ask.now.with_cas ∷ ask.now.key ∷ decimal ask.now.flags ∷ exptime.now ∷ decimal (length ask.now.body) ∷ [])) }
    ensures err { OnErr result (take (length out.old.items) out.new.items ≡ out.old.items) }
{
    let mut buffer = Buffer::new();
    put_word(out, ask.op, ask.with_cas)?;
    out.extend_from_slice(ask.key.as_bytes())?;
    out.extend_from_slice(b" ")?;
    out.extend_from_slice(buffer.format(ask.flags).as_bytes())?;
    out.extend_from_slice(b" ")?;
    out.extend_from_slice(exptime)?;
    out.extend_from_slice(b" ")?;
    out.extend_from_slice(buffer.format(ask.body.len()).as_bytes())
}

fn put_plain_line(out: &mut BytesMut, ask: &Ask) -> Result<(), AllocError>
    ensures ok { OnOk result (out.new.items ≡ out.old.items ++ words_line (command_word ask.now.op ask.now.with_cas ∷ store_words ask.now [])) }
    ensures err { OnErr result (take (length out.old.items) out.new.items ≡ out.old.items) }
{
    let mut buffer = Buffer::new();
    put_head(out, ask, exptime_text(&mut buffer, ask))?;
    out.extend_from_slice(b"\r\n")
}

fn put_cas_line(out: &mut BytesMut, ask: &Ask) -> Result<(), AllocError>
    ensures ok { OnOk result (out.new.items ≡ out.old.items ++ words_line (command_word ask.now.op ask.now.with_cas ∷ store_words ask.now (decimal (cas_in ask.now) ∷ []))) }
    ensures err { OnErr result (take (length out.old.items) out.new.items ≡ out.old.items) }
{
    let mut buffer = Buffer::new();
    put_head(out, ask, exptime_text(&mut buffer, ask))?;
    out.extend_from_slice(b" ")?;
    out.extend_from_slice(cas_text(&mut buffer, ask))?;
    out.extend_from_slice(b"\r\n")
}

// The line of a store.
fn put_store_line(out: &mut BytesMut, ask: &Ask) -> Result<(), AllocError>
    requires { stores_data ask.now.op ≡ true }
    ensures ok { OnOk result (out.new.items ≡ out.old.items ++ ask_line ask.now) }
    ensures err { OnErr result (take (length out.old.items) out.new.items ≡ out.old.items) }
{
    match ask.op {
        Op::Cas => put_cas_line(out, ask),
        Op::Set | Op::Add | Op::Replace | Op::Append | Op::Prepend => put_plain_line(out, ask),
        _ => unreachable!(),
    }
}

// The line of a store, its data, and their end.
fn put_store(out: &mut BytesMut, ask: &Ask) -> Result<(), AllocError>
    requires { stores_data ask.now.op ≡ true }
    ensures ok { OnOk result (out.new.items ≡ out.old.items ++ (ask_line ask.now ++ block_text ask.now.body)) }
    ensures err { OnErr result (take (length out.old.items) out.new.items ≡ out.old.items) }
{
    put_store_line(out, ask)?;
    out.extend_from_slice(ask.body.as_slice())?;
    out.extend_from_slice(b"\r\n")
}

fn put_gat(out: &mut BytesMut, ask: &Ask) -> Result<(), AllocError>
    ensures ok { OnOk result (out.new.items ≡ out.old.items ++ words_line (command_word ask.now.op ask.now.with_cas ∷ signed_decimal (exptime_in ask.now) ∷ ask.now.key ∷ [])) }
    ensures err { OnErr result (take (length out.old.items) out.new.items ≡ out.old.items) }
{
    let mut buffer = Buffer::new();
    put_two_arguments(out, ask, exptime_text(&mut buffer, ask), ask.key.as_bytes())
}

fn put_touch(out: &mut BytesMut, ask: &Ask) -> Result<(), AllocError>
    ensures ok { OnOk result (out.new.items ≡ out.old.items ++ words_line (command_word ask.now.op ask.now.with_cas ∷ ask.now.key ∷ signed_decimal (exptime_in ask.now) ∷ [])) }
    ensures err { OnErr result (take (length out.old.items) out.new.items ≡ out.old.items) }
{
    let mut buffer = Buffer::new();
    put_two_arguments(out, ask, ask.key.as_bytes(), exptime_text(&mut buffer, ask))
}

fn put_count(out: &mut BytesMut, ask: &Ask) -> Result<(), AllocError>
    ensures ok { OnOk result (out.new.items ≡ out.old.items ++ words_line (command_word ask.now.op ask.now.with_cas ∷ ask.now.key ∷ decimal ask.now.delta ∷ [])) }
    ensures err { OnErr result (take (length out.old.items) out.new.items ≡ out.old.items) }
{
    let mut buffer = Buffer::new();
    put_two_arguments(
        out,
        ask,
        ask.key.as_bytes(),
        buffer.format(ask.delta).as_bytes(),
    )
}

fn put_ask(out: &mut BytesMut, ask: &Ask) -> Result<(), AllocError>
    ensures ok { OnOk result (out.new.items ≡ out.old.items ++ classic_spelling ask.now) }
    ensures err { OnErr result (take (length out.old.items) out.new.items ≡ out.old.items) }
{
    match ask.op {
        Op::Get | Op::Delete => put_keyed(out, ask),
        Op::Gat => put_gat(out, ask),
        Op::Touch => put_touch(out, ask),
        Op::Incr | Op::Decr => put_count(out, ask),
        Op::Set | Op::Add | Op::Replace | Op::Append | Op::Prepend | Op::Cas => put_store(out, ask),
    }
}

/// Appends the one spelling of an ask: its words with one space between, without `noreply` and without the 0 of
/// `delete`, the line's end, and after a store's line its data and `\r\n`.
///
/// The only error is running out of memory, which leaves the buffer as it was.
pub fn write_ask(ask: &Ask, out: &mut BytesMut) -> Result<(), AllocError>
    requires { IsClassicAsk ask.now }
    ensures ok { OnOk result (out.new.items ≡ out.old.items ++ classic_spelling ask.now) }
    ensures err { OnErr result (out.new.items ≡ out.old.items) }
{
    let len = out.len();
    let written = put_ask(out, ask);
    if written.is_err() {
        out.truncate(len);
    }
    written
}

/// Appends the line of a store, up to where its data begin.
///
/// The only error is running out of memory, which leaves the buffer as it was.
///
/// Source: memcached's protocol.txt, "Storage commands".
pub fn write_store_line(ask: &Ask, out: &mut BytesMut) -> Result<(), AllocError>
    requires { stores_data ask.now.op ≡ true }
    ensures ok { OnOk result (out.new.items ≡ out.old.items ++ ask_line ask.now) }
    ensures err { OnErr result (out.new.items ≡ out.old.items) }
{
    let len = out.len();
    let written = put_store_line(out, ask);
    if written.is_err() {
        out.truncate(len);
    }
    written
}
