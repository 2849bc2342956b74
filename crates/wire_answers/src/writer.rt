//! The one spelling of each answer.

ghost use Rattle.std.specs.Prelude.{◌≡◌, ◌≤◌, ◌++◌, ◌∷◌, [], None, take, length, OnOk, OnErr, option_map, decimal, codes};
ghost use Rattle.mc_types.specs.declared.limits.TheConstants.{KEY_LIMIT};
ghost use Rattle.text_words.specs.Spelling.{spaced, words_line};
ghost use Rattle.wire_answers.specs.Spelling.{
  answer_spelling,
  value_of,
  end_text,
  error_line,
  cas_text,
  hit_line,
  block_of,
  data_of,
  data_line,
};

use crate::meta::{put_meta, put_meta_line};
use bytes::BytesMut;
use itoa::Buffer;
use mc_types::{Answer, Ask, Body};
use std::alloc::AllocError;

fn put_number(number: u64, out: &mut BytesMut) -> Result<(), AllocError>
    ensures ok { OnOk result (out.new.items ≡ out.old.items ++ words_line (decimal number ∷ [])) }
    ensures err { OnErr result (take (length out.old.items) out.new.items ≡ out.old.items) }
{
    let mut buffer = Buffer::new();
    out.extend_from_slice(buffer.format(number).as_bytes())?;
    out.extend_from_slice(b"\r\n")
}

fn put_cas(cas: Option<u64>, out: &mut BytesMut) -> Result<(), AllocError>
    ensures ok { OnOk result (out.new.items ≡ out.old.items ++ cas_text cas) }
    ensures err { OnErr result (take (length out.old.items) out.new.items ≡ out.old.items) }
{
    let Some(number) = cas else {
        return Ok(());
    };
    let mut buffer = Buffer::new();
    out.extend_from_slice(b" ")?;
    out.extend_from_slice(buffer.format(number).as_bytes())
}

fn put_hit(key: &[u8], flags: u32, len: usize, out: &mut BytesMut) -> Result<(), AllocError>
    ensures ok { OnOk result (out.new.items ≡ out.old.items ++ spaced (codes "VALUE" ∷ key.now ∷ decimal flags ∷ decimal len ∷ [])) }
    ensures err { OnErr result (take (length out.old.items) out.new.items ≡ out.old.items) }
{
    let mut buffer = Buffer::new();
    out.extend_from_slice(b"VALUE ")?;
    out.extend_from_slice(key)?;
    out.extend_from_slice(b" ")?;
    out.extend_from_slice(buffer.format(flags).as_bytes())?;
    out.extend_from_slice(b" ")?;
    out.extend_from_slice(buffer.format(len).as_bytes())
}

fn put_hit_line(
    key: &[u8],
    flags: u32,
    len: usize,
    cas: Option<u64>,
    out: &mut BytesMut,
) -> Result<(), AllocError>
    ensures ok { OnOk result (out.new.items ≡ out.old.items ++ hit_line key.now flags len cas) }
    ensures err { OnErr result (take (length out.old.items) out.new.items ≡ out.old.items) }
{
    put_hit(key, flags, len, out)?;
    put_cas(cas, out)?;
    out.extend_from_slice(b"\r\n")?;
    Ok(())
}

// A hit without a cas number, which is most of what is answered: room is made once, and so a refusal leaves the buffer as it was.
#[tactic(auto, using(crate::proofs::Pieces::block_pieces))]
fn put_plain(key: &[u8], flags: u32, body: &[u8], out: &mut BytesMut) -> Result<(), AllocError>
    requires { length key.now ≤ KEY_LIMIT }
    ensures ok { OnOk result (out.new.items ≡ out.old.items ++ block_of key.now flags body.now None) }
    ensures err { OnErr result (out.new.items ≡ out.old.items) }
{
    let (mut first, mut second) = (Buffer::new(), Buffer::new());
    let flags = first.format(flags).as_bytes();
    let len = second.format(body.len()).as_bytes();
    // (the words of the line, their spaces, and two line ends)
    out.reserve(12 + key.len() + flags.len() + len.len() + body.len())?;
    out.extend_reserved(b"VALUE ");
    out.extend_reserved(key);
    out.extend_reserved(b" ");
    out.extend_reserved(flags);
    out.extend_reserved(b" ");
    out.extend_reserved(len);
    out.extend_reserved(b"\r\n");
    out.extend_reserved(body);
    out.extend_reserved(b"\r\n");
    Ok(())
}

fn put_block(
    key: &[u8],
    flags: u32,
    body: &[u8],
    cas: Option<u64>,
    out: &mut BytesMut,
) -> Result<(), AllocError>
    requires { length key.now ≤ KEY_LIMIT }
    ensures ok { OnOk result (out.new.items ≡ out.old.items ++ block_of key.now flags body.now cas) }
    ensures err { OnErr result (take (length out.old.items) out.new.items ≡ out.old.items) }
{
    if cas.is_none() {
        return put_plain(key, flags, body, out);
    }
    put_hit_line(key, flags, body.len(), cas, out)?;
    out.extend_from_slice(body)?;
    out.extend_from_slice(b"\r\n")?;
    Ok(())
}

fn put_error(word: &[u8], text: &[u8], out: &mut BytesMut) -> Result<(), AllocError>
    ensures ok { OnOk result (out.new.items ≡ out.old.items ++ error_line word.now text.now) }
    ensures err { OnErr result (take (length out.old.items) out.new.items ≡ out.old.items) }
{
    out.extend_from_slice(word)?;
    if !text.is_empty() {
        out.extend_from_slice(b" ")?;
        out.extend_from_slice(text)?;
    }
    out.extend_from_slice(b"\r\n")
}

fn put_value(ask: &Ask, answer: &Answer, out: &mut BytesMut) -> Result<(), AllocError>
    ensures ok { OnOk result (out.new.items ≡ out.old.items ++ value_of ask.now answer.now) }
    ensures err { OnErr result (take (length out.old.items) out.new.items ≡ out.old.items) }
{
    ask.key.bytes_are_a_key();
    match answer {
        Answer::Hit { flags, body, cas } => {
            put_block(ask.key.as_bytes(), *flags, body.as_slice(), *cas, out)
        }
        _ => Ok(()),
    }
}

fn put_answer(ask: &Ask, answer: &Answer, out: &mut BytesMut) -> Result<(), AllocError>
    ensures ok { OnOk result (out.new.items ≡ out.old.items ++ answer_spelling ask.now answer.now) }
    ensures err { OnErr result (take (length out.old.items) out.new.items ≡ out.old.items) }
{
    ask.key.bytes_are_a_key();
    match answer {
        Answer::Stored => out.extend_from_slice(b"STORED\r\n"),
        Answer::NotStored => out.extend_from_slice(b"NOT_STORED\r\n"),
        Answer::Exists => out.extend_from_slice(b"EXISTS\r\n"),
        Answer::NotFound => out.extend_from_slice(b"NOT_FOUND\r\n"),
        Answer::Deleted => out.extend_from_slice(b"DELETED\r\n"),
        Answer::Touched => out.extend_from_slice(b"TOUCHED\r\n"),
        Answer::Number(number) => put_number(*number, out),
        Answer::Hit { flags, body, cas } => {
            put_block(ask.key.as_bytes(), *flags, body.as_slice(), *cas, out)?;
            write_end(out)
        }
        Answer::Miss => write_end(out),
        Answer::Meta(code, fields) => put_meta(ask, *code, fields, out),
        Answer::ClientError(text) => put_error(b"CLIENT_ERROR".as_slice(), text.as_bytes(), out),
        Answer::Error => out.extend_from_slice(b"ERROR\r\n"),
        Answer::ServerError(text) => put_error(b"SERVER_ERROR".as_slice(), text.as_bytes(), out),
    }
}

/// Appends the one spelling of an answer to an ask: one space between two words, `\r\n` after each line.
///
/// A hit has its cas number on the line exactly where it carries one, and `END` after its data. A meta answer has its return
/// tokens in the order of the ask's flags: `k` and `O` on every line, `c`, `f`, `s` and `t` where their field is set. The
/// only error is running out of memory, which leaves the buffer as it was.
///
/// Source: memcached's protocol.txt, what is said of the answers of each command, and "Meta Commands".
pub fn write_answer(ask: &Ask, answer: &Answer, out: &mut BytesMut) -> Result<(), AllocError>
    ensures ok { OnOk result (out.new.items ≡ out.old.items ++ answer_spelling ask.now answer.now) }
    ensures err { OnErr result (out.new.items ≡ out.old.items) }
{
    let len = out.len();
    let written = put_answer(ask, answer, out);
    if written.is_err() {
        out.truncate(len);
    }
    written
}

/// Appends what a hit adds to the reply of a get of several keys: its `VALUE` line and its data. Nothing is appended
/// for any other answer; [`write_end`] ends such a reply.
///
/// The only error is running out of memory, which leaves the buffer as it was.
///
/// Source: memcached's protocol.txt, "Retrieval command".
pub fn write_value(ask: &Ask, answer: &Answer, out: &mut BytesMut) -> Result<(), AllocError>
    ensures ok { OnOk result (out.new.items ≡ out.old.items ++ value_of ask.now answer.now) }
    ensures err { OnErr result (out.new.items ≡ out.old.items) }
{
    let len = out.len();
    let written = put_value(ask, answer, out);
    if written.is_err() {
        out.truncate(len);
    }
    written
}

/// The data that an answer shows, if it shows some.
pub fn data_of(answer: &Answer) -> Option<&Body>
    ensures { option_map (λ body. body.now) result ≡ data_of answer.now }
{
    match answer {
        Answer::Hit { body, .. } => Some(body),
        Answer::Meta(_, fields) => fields.body.as_ref(),
        _ => None,
    }
}

fn put_data_line(ask: &Ask, answer: &Answer, out: &mut BytesMut) -> Result<(), AllocError>
    ensures ok { OnOk result (out.new.items ≡ out.old.items ++ data_line ask.now answer.now) }
    ensures err { OnErr result (take (length out.old.items) out.new.items ≡ out.old.items) }
{
    match answer {
        Answer::Hit { flags, body, cas } => {
            put_hit_line(ask.key.as_bytes(), *flags, body.len(), *cas, out)
        }
        Answer::Meta(code, fields) => put_meta_line(ask, *code, fields, out),
        _ => Ok(()),
    }
}

/// Appends the line that stands before the data of an answer: that of a hit, or of a meta answer. Nothing is appended for any other
/// answer.
///
/// The only error is running out of memory, which leaves the buffer as it was.
///
/// Source: memcached's protocol.txt, "Retrieval command" and "Meta Get".
pub fn write_data_line(ask: &Ask, answer: &Answer, out: &mut BytesMut) -> Result<(), AllocError>
    ensures ok { OnOk result (out.new.items ≡ out.old.items ++ data_line ask.now answer.now) }
    ensures err { OnErr result (out.new.items ≡ out.old.items) }
{
    let len = out.len();
    let written = put_data_line(ask, answer, out);
    if written.is_err() {
        out.truncate(len);
    }
    written
}

/// Appends the line `END`, which ends the reply to a get: after the values of its hits, or alone where there are none.
///
/// The only error is running out of memory, which leaves the buffer as it was.
///
/// Source: memcached's protocol.txt, "Retrieval command".
pub fn write_end(out: &mut BytesMut) -> Result<(), AllocError>
    ensures ok { OnOk result (out.new.items ≡ out.old.items ++ end_text) }
    ensures err { OnErr result (out.new.items ≡ out.old.items) }
{
    out.extend_from_slice(b"END\r\n")
}
