//! The meta form of an ask.

ghost use Rattle.std.specs.Prelude.{◌≡◌, ◌++◌, true, None, IfOk, OnOk, OnErr};
ghost use Rattle.mc_types.specs.Asks.{IsAsk};
ghost use Rattle.wire_stream.specs.Spelling.{spelling_of};
ghost use Rattle.wire_stream.specs.Form.{is_retrieval, wanted, meta_form, in_meta, get_end};

use crate::meta_gets::kept::MetaForms;
use crate::write_ask;
use bytes::BytesMut;
use mc_types::{Ask, Body, Dialect, Op, Token, Tokens};
use std::alloc::{AllocError, Global};

/// Whether the ask is a classic get: `get`, `gets`, `gat` or `gats` of one key.
pub fn is_retrieval(ask: &Ask) -> bool
    ensures { result ≡ is_retrieval ask.now }
{
    match (ask.dialect, ask.op) {
        (Dialect::Classic, Op::Get) | (Dialect::Classic, Op::Gat) => true,
        _ => false,
    }
}

fn wanted(alloc: Global, with_cas: bool) -> Result<Tokens, AllocError>
    ensures { IfOk result (λ tokens. tokens ≡ wanted with_cas) }
{
    let mut tokens = Tokens::new(alloc);
    tokens.push(Token::Key)?;
    tokens.push(Token::Flags)?;
    tokens.push(Token::Value)?;
    if with_cas {
        tokens.push(Token::Cas)?;
    }
    Ok(tokens)
}

/// The meta form of a classic get. The only error is running out of memory.
pub fn meta_form(alloc: Global, ask: &Ask) -> Result<Ask, AllocError>
    ensures { IfOk result (λ form. form ≡ meta_form ask.now) }
{
    let tokens = wanted(alloc, ask.with_cas)?;
    Ok(Ask {
        key: ask.key,
        op: ask.op,
        dialect: Dialect::Meta,
        with_cas: false,
        flags: 0,
        exptime: ask.exptime,
        body: Body::empty(),
        cas: None,
        delta: 0,
        tokens,
    })
}

fn get_end(with_cas: bool) -> &'static [u8]
    ensures { result.now ≡ get_end with_cas }
{
    if with_cas {
        b" k f v c\r\n".as_slice()
    } else {
        b" k f v\r\n".as_slice()
    }
}

/// Whether the ask is a classic get of one key that sets no expiry, which is most of what is asked: [`write_get`] writes its meta form.
pub fn is_plain_get(ask: &Ask) -> bool
    ensures { result ≡ true → (is_retrieval ask.now ≡ true) × (ask.now.exptime ≡ None) }
{
    is_retrieval(ask) && ask.exptime.is_none()
}

/// Appends the meta form of a get that sets no expiry, which isn't made for that. Room is made once. The only error is running out of memory,
/// which leaves the buffer as it was.
///
/// Source: memcached's protocol.txt, "Meta Get"; the order of the flags is mcgate's own.
#[tactic(auto, using(crate::proofs::Forms::get_text))]
pub fn write_get(ask: &Ask, out: &mut BytesMut) -> Result<(), AllocError>
    requires get { is_retrieval ask.now ≡ true }
    requires no_expiry { ask.now.exptime ≡ None }
    ensures ok { OnOk result (out.new.items ≡ out.old.items ++ spelling_of (meta_form ask.now)) }
    ensures err { OnErr result (out.new.items ≡ out.old.items) }
{
    ask.key.bytes_are_a_key();
    let key = ask.key.as_bytes();
    let end = get_end(ask.with_cas);
    out.reserve(3 + key.len() + end.len())?;
    out.extend_reserved(b"mg ");
    out.extend_reserved(key);
    out.extend_reserved(end);
    Ok(())
}

/// Appends what a server is asked that speaks the meta dialect: for a classic get its meta form, `mg K k f v`, with `c` for `gets`
/// and `T` before these for `gat`, and for any other ask what [`write_ask`] does.
///
/// The only error is running out of memory, which leaves the buffer as it was. Memory is taken for a form only where none of its kind
/// is kept.
///
/// Source: memcached's protocol.txt, "Meta Get"; the order of the flags is mcgate's own.
pub fn write_in_meta(
    alloc: Global,
    forms: &mut MetaForms,
    ask: &Ask,
    out: &mut BytesMut,
) -> Result<(), AllocError>
    requires { IsAsk ask.now }
    ensures ok { OnOk result (out.new.items ≡ out.old.items ++ spelling_of (in_meta ask.now)) }
    ensures err { OnErr result (out.new.items ≡ out.old.items) }
{
    if is_plain_get(ask) {
        return write_get(ask, out);
    }
    if !is_retrieval(ask) {
        return write_ask(ask, out);
    }
    forms.write(alloc, ask, out)
}
