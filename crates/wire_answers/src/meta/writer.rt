//! How a meta answer is written.

ghost use Rattle.std.specs.Prelude.{◌≡◌, ◌++◌, ◌∷◌, [], take, length, OnOk, OnErr, decimal};
ghost use Rattle.std.specs.Fmt.{signed_decimal};
ghost use Rattle.text_words.specs.Spelling.{words_line};
ghost use Rattle.wire_answers.specs.MetaSpelling.{
  number_token,
  ttl_token,
  token_words,
  tokens_words,
  len_words,
  meta_line_words,
  data_block,
  meta_spelling,
  led,
};

use crate::meta::codes::code_word;
use bytes::BytesMut;
use itoa::Buffer;
use mc_types::{Ask, Body, Code, Fields, Token};
use std::alloc::AllocError;

fn put_token_text(letter: u8, text: &[u8], out: &mut BytesMut) -> Result<(), AllocError>
    ensures ok { OnOk result (out.new.items ≡ out.old.items ++ led ((letter ∷ text.now) ∷ [])) }
    ensures err { OnErr result (take (length out.old.items) out.new.items ≡ out.old.items) }
{
    out.extend_from_slice(&[b' ', letter])?;
    out.extend_from_slice(text)
}

fn put_number(letter: u8, number: Option<u64>, out: &mut BytesMut) -> Result<(), AllocError>
    ensures ok { OnOk result (out.new.items ≡ out.old.items ++ led (number_token letter number)) }
    ensures err { OnErr result (take (length out.old.items) out.new.items ≡ out.old.items) }
{
    let Some(number) = number else {
        return Ok(());
    };
    let mut buffer = Buffer::new();
    put_token_text(letter, buffer.format(number).as_bytes(), out)
}

fn put_ttl(ttl: Option<i64>, out: &mut BytesMut) -> Result<(), AllocError>
    ensures ok { OnOk result (out.new.items ≡ out.old.items ++ led (ttl_token ttl)) }
    ensures err { OnErr result (take (length out.old.items) out.new.items ≡ out.old.items) }
{
    let Some(ttl) = ttl else {
        return Ok(());
    };
    let mut buffer = Buffer::new();
    put_token_text(b't', buffer.format(ttl).as_bytes(), out)
}

fn wide(number: Option<u32>) -> Option<u64>
    ensures { result ≡ number }
{
    match number {
        Some(number) => Some(u64::from(number)),
        None => None,
    }
}

fn put_token(
    key: &[u8],
    fields: &Fields,
    token: &Token,
    out: &mut BytesMut,
) -> Result<(), AllocError>
    ensures ok { OnOk result (out.new.items ≡ out.old.items ++ led (token_words key.now fields.now token.now)) }
    ensures err { OnErr result (take (length out.old.items) out.new.items ≡ out.old.items) }
{
    match token {
        Token::Cas => put_number(b'c', fields.cas, out),
        Token::Flags => put_number(b'f', wide(fields.flags), out),
        Token::Size => put_number(b's', wide(fields.size), out),
        Token::Ttl => put_ttl(fields.ttl, out),
        Token::Key => put_token_text(b'k', key, out),
        Token::Opaque(text) => put_token_text(b'O', text.as_bytes(), out),
        Token::Value => Ok(()),
    }
}

fn put_tokens(
    key: &[u8],
    fields: &Fields,
    tokens: &[Token],
    out: &mut BytesMut,
) -> Result<(), AllocError>
    ensures ok { OnOk result (out.new.items ≡ out.old.items ++ led (tokens_words key.now fields.now tokens.now)) }
    ensures err { OnErr result (take (length out.old.items) out.new.items ≡ out.old.items) }
{
    let mut rest = tokens;
    while let [token, more @ ..] = rest {
        put_token(key, fields, token, out)?;
        rest = more;
    }
    Ok(())
}

fn put_len(body: &Option<Body>, out: &mut BytesMut) -> Result<(), AllocError>
    ensures ok { OnOk result (out.new.items ≡ out.old.items ++ led (len_words body.now)) }
    ensures err { OnErr result (take (length out.old.items) out.new.items ≡ out.old.items) }
{
    let Some(body) = body else {
        return Ok(());
    };
    let mut buffer = Buffer::new();
    out.extend_from_slice(b" ")?;
    out.extend_from_slice(buffer.format(body.len()).as_bytes())
}

fn put_block(body: &Option<Body>, out: &mut BytesMut) -> Result<(), AllocError>
    ensures ok { OnOk result (out.new.items ≡ out.old.items ++ data_block body.now) }
    ensures err { OnErr result (take (length out.old.items) out.new.items ≡ out.old.items) }
{
    let Some(body) = body else {
        return Ok(());
    };
    out.extend_from_slice(body.as_slice())?;
    out.extend_from_slice(b"\r\n")
}

/// Appends the line of a meta answer: its code, the length of its data where it has some, and the return tokens in the order of the ask's
/// flags. One space stands between two words.
///
/// `k` and `O` stand on the line where they were asked for, and `c`, `f`, `s` and `t` where their field is set too. The only
/// error is running out of memory: then a part may stand after what the buffer held.
///
/// Source: memcached's protocol.txt, "Meta Commands".
pub fn put_meta_line(
    ask: &Ask,
    code: Code,
    fields: &Fields,
    out: &mut BytesMut,
) -> Result<(), AllocError>
    ensures ok { OnOk result (out.new.items ≡ out.old.items ++ words_line (meta_line_words ask.now code fields.now)) }
    ensures err { OnErr result (take (length out.old.items) out.new.items ≡ out.old.items) }
{
    out.extend_from_slice(code_word(code))?;
    put_len(&fields.body, out)?;
    put_tokens(ask.key.as_bytes(), fields, ask.tokens.as_slice(), out)?;
    out.extend_from_slice(b"\r\n")?;
    Ok(())
}

/// Appends a meta answer: its line, as [`put_meta_line`] does, and its data where it has some. The only error is running out of memory:
/// then a part may stand after what the buffer held.
///
/// Source: memcached's protocol.txt, "Meta Commands".
pub fn put_meta(
    ask: &Ask,
    code: Code,
    fields: &Fields,
    out: &mut BytesMut,
) -> Result<(), AllocError>
    ensures ok { OnOk result (out.new.items ≡ out.old.items ++ meta_spelling ask.now code fields.now) }
    ensures err { OnErr result (take (length out.old.items) out.new.items ≡ out.old.items) }
{
    put_meta_line(ask, code, fields, out)?;
    put_block(&fields.body, out)
}
