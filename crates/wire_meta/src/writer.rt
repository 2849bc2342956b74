//! How an ask is written to a server.
ghost use Rattle.std.specs.Prelude.{◌≡◌, ◌++◌, ◌∷◌, [], take, drop, length, OnOk, OnErr, codes, decimal};
ghost use Rattle.std.specs.Fmt.{signed_decimal};
ghost use Rattle.text_words.specs.Spelling.{words_line};
ghost use Rattle.wire_parts.specs.Tests.{block_text};
ghost use Rattle.mc_types.specs.Asks.{IsAsk};
ghost use Rattle.mc_types.specs.declared.ask.Dialect.TheVariants.{Meta};
ghost use Rattle.wire_meta.specs.Spelling.{meta_led, meta_kind, kind_word, mode_letter, mode_word, token_word, meta_token_words, meta_cas_words, exptime_words, value_words, length_words, block_by, flag_words, line_words, meta_ask_spelling};

use crate::command::Kind;
use bytes::BytesMut;
use itoa::Buffer;
use mc_types::{Ask, Op, Token};
use std::alloc::AllocError;

fn kind_of(op: Op) -> Kind
    ensures { result ≡ meta_kind op }
{
    match op {
        Op::Get | Op::Gat | Op::Touch => Kind::Get,
        Op::Set | Op::Add | Op::Replace | Op::Append | Op::Prepend | Op::Cas => Kind::Store,
        Op::Delete => Kind::Delete,
        Op::Incr | Op::Decr => Kind::Count,
    }
}

fn kind_word(kind: Kind) -> &'static [u8]
    ensures { result.now ≡ kind_word kind }
{
    match kind {
        Kind::Get => b"mg".as_slice(),
        Kind::Store => b"ms".as_slice(),
        Kind::Delete => b"md".as_slice(),
        Kind::Count => b"ma".as_slice(),
    }
}

fn mode_text(op: Op) -> &'static [u8]
    ensures { result.now ≡ mode_letter op ∷ [] }
{
    match op {
        Op::Set | Op::Cas | Op::Get | Op::Gat | Op::Delete | Op::Touch => b"S".as_slice(),
        Op::Add => b"E".as_slice(),
        Op::Append => b"A".as_slice(),
        Op::Prepend => b"P".as_slice(),
        Op::Replace => b"R".as_slice(),
        Op::Incr => b"I".as_slice(),
        Op::Decr => b"D".as_slice(),
    }
}

// A word after a space, by its first part and the rest.
fn put_word(out: &mut BytesMut, letter: &[u8], text: &[u8]) -> Result<(), AllocError>
    ensures ok { OnOk result (out.new.items ≡ out.old.items ++ meta_led ((letter.now ++ text.now) ∷ [])) }
    ensures err { OnErr result (take (length out.old.items) out.new.items ≡ out.old.items) }
{
    out.extend_from_slice(b" ")?;
    out.extend_from_slice(letter)?;
    out.extend_from_slice(text)
}

fn put_token(out: &mut BytesMut, token: &Token) -> Result<(), AllocError>
    ensures ok { OnOk result (out.new.items ≡ out.old.items ++ meta_led (token_word token.now ∷ [])) }
    ensures err { OnErr result (take (length out.old.items) out.new.items ≡ out.old.items) }
{
    match token {
        Token::Cas => put_word(out, b"c", b""),
        Token::Flags => put_word(out, b"f", b""),
        Token::Key => put_word(out, b"k", b""),
        Token::Size => put_word(out, b"s", b""),
        Token::Ttl => put_word(out, b"t", b""),
        Token::Value => put_word(out, b"v", b""),
        Token::Opaque(text) => put_word(out, b"O", text.as_bytes()),
    }
}

fn put_tokens(out: &mut BytesMut, tokens: &[Token]) -> Result<(), AllocError>
    ensures ok { OnOk result (out.new.items ≡ out.old.items ++ meta_led (meta_token_words tokens.now)) }
    ensures err { OnErr result (take (length out.old.items) out.new.items ≡ out.old.items) }
{
    for token in tokens {
        put_token(out, token)?;
    }
    Ok(())
}

fn put_cas(out: &mut BytesMut, cas: Option<u64>) -> Result<(), AllocError>
    ensures ok { OnOk result (out.new.items ≡ out.old.items ++ meta_led (meta_cas_words cas)) }
    ensures err { OnErr result (take (length out.old.items) out.new.items ≡ out.old.items) }
{
    let mut buffer = Buffer::new();
    match cas {
        None => Ok(()),
        Some(cas) => put_word(out, b"C", buffer.format(cas).as_bytes()),
    }
}

fn put_exptime(out: &mut BytesMut, exptime: Option<i64>) -> Result<(), AllocError>
    ensures ok { OnOk result (out.new.items ≡ out.old.items ++ meta_led (exptime_words exptime)) }
    ensures err { OnErr result (take (length out.old.items) out.new.items ≡ out.old.items) }
{
    let mut buffer = Buffer::new();
    match exptime {
        None => Ok(()),
        Some(exptime) => put_word(out, b"T", buffer.format(exptime).as_bytes()),
    }
}

// A cas number, a number with its letter, a mode.
fn put_counted(out: &mut BytesMut, letter: &[u8], n: u64, ask: &Ask) -> Result<(), AllocError>
    ensures ok { OnOk result (out.new.items ≡ out.old.items ++ meta_led (meta_cas_words ask.now.cas ++ (letter.now ++ decimal n) ∷ mode_word ask.now.op ∷ [])) }
    ensures err { OnErr result (take (length out.old.items) out.new.items ≡ out.old.items) }
{
    let mut buffer = Buffer::new();
    put_cas(out, ask.cas)?;
    put_word(out, letter, buffer.format(n).as_bytes())?;
    put_word(out, b"M", mode_text(ask.op))
}

// The flags with a value but the expiry.
fn put_values(out: &mut BytesMut, kind: Kind, ask: &Ask) -> Result<(), AllocError>
    ensures ok { OnOk result (out.new.items ≡ out.old.items ++ meta_led (value_words kind ask.now)) }
    ensures err { OnErr result (take (length out.old.items) out.new.items ≡ out.old.items) }
{
    match kind {
        Kind::Get => Ok(()),
        Kind::Store => put_counted(out, b"F", u64::from(ask.flags), ask),
        Kind::Delete => put_cas(out, ask.cas),
        Kind::Count => put_counted(out, b"D", ask.delta, ask),
    }
}

fn put_length(out: &mut BytesMut, kind: Kind, ask: &Ask) -> Result<(), AllocError>
    ensures ok { OnOk result (out.new.items ≡ out.old.items ++ meta_led (length_words kind ask.now)) }
    ensures err { OnErr result (take (length out.old.items) out.new.items ≡ out.old.items) }
{
    let mut buffer = Buffer::new();
    match kind {
        Kind::Store => put_word(out, b"", buffer.format(ask.body.len()).as_bytes()),
        Kind::Get | Kind::Delete | Kind::Count => Ok(()),
    }
}

fn put_block(out: &mut BytesMut, kind: Kind, body: &[u8]) -> Result<(), AllocError>
    ensures ok { OnOk result (out.new.items ≡ out.old.items ++ block_by kind body.now) }
    ensures err { OnErr result (take (length out.old.items) out.new.items ≡ out.old.items) }
{
    match kind {
        Kind::Store => {
            out.extend_from_slice(body)?;
            out.extend_from_slice(b"\r\n")
        }
        Kind::Get | Kind::Delete | Kind::Count => Ok(()),
    }
}

// The words after the command word.
fn put_words(out: &mut BytesMut, kind: Kind, ask: &Ask) -> Result<(), AllocError>
    ensures ok { OnOk result (out.new.items ≡ out.old.items ++ meta_led (ask.now.key ∷ length_words kind ask.now ++ flag_words kind ask.now)) }
    ensures err { OnErr result (take (length out.old.items) out.new.items ≡ out.old.items) }
{
    put_word(out, b"", ask.key.as_bytes())?;
    put_length(out, kind, ask)?;
    put_exptime(out, ask.exptime)?;
    put_tokens(out, ask.tokens.as_slice())?;
    put_values(out, kind, ask)
}

fn put_line(out: &mut BytesMut, kind: Kind, ask: &Ask) -> Result<(), AllocError>
    ensures ok { OnOk result (out.new.items ≡ out.old.items ++ words_line (line_words kind ask.now)) }
    ensures err { OnErr result (take (length out.old.items) out.new.items ≡ out.old.items) }
{
    out.extend_from_slice(kind_word(kind))?;
    put_words(out, kind, ask)?;
    out.extend_from_slice(b"\r\n")
}

fn put_ask(out: &mut BytesMut, ask: &Ask) -> Result<(), AllocError>
    ensures ok { OnOk result (out.new.items ≡ out.old.items ++ meta_ask_spelling ask.now) }
    ensures err { OnErr result (take (length out.old.items) out.new.items ≡ out.old.items) }
{
    let kind = kind_of(ask.op);
    put_line(out, kind, ask)?;
    put_block(out, kind, ask.body.as_slice())
}

/// Appends the one spelling of a meta ask: its command word, its key, the length of the data of `ms`, its expiry `T` if it has one, its return
/// flags and `O` in the ask's order, and then those of `C D F M`, in this order, that it has (`T F M` always on `ms`, `D M` always on `ma`),
/// without `q`; the line's end, and after that of `ms` its data and `\r\n`.
///
/// The expiry stands before the return flags since memcached takes flags in their order: after it `t` tells the new time to live.
///
/// The only error is running out of memory, which leaves the buffer as it was.
pub fn write_ask(ask: &Ask, out: &mut BytesMut) -> Result<(), AllocError>
    requires { IsAsk ask.now × (ask.now.dialect ≡ Meta) }
    ensures ok { OnOk result (out.new.items ≡ out.old.items ++ meta_ask_spelling ask.now) }
    ensures err { OnErr result (out.new.items ≡ out.old.items) }
{
    let len = out.len();
    let written = put_ask(out, ask);
    if written.is_err() {
        out.truncate(len);
    }
    written
}
