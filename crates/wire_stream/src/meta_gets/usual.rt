//! The answer to the meta form of a get, where it is spelled as servers mostly do.

ghost use Rattle.std.specs.Prelude.{◌≡◌, ◌≤◌, ◌++◌, ◌∷◌, ◌+◌, IfOk, IfSome, codes, drop, length};
ghost use Rattle.text_words.specs.Line.{CR, LF};
ghost use Rattle.wire_answers.specs.Reading.{LiesWithin};
ghost use Rattle.wire_stream.specs.Reading.{ReadsInMeta};
ghost use Rattle.wire_stream.specs.Usual.{IsUsual, IsUsualTo};

use crate::meta_gets::form::is_retrieval;
use crate::{AnswerRead, Received};
use mc_types::{Answer, Ask, SpareBodies};
use std::alloc::{AllocError, Global};
use text_words::number::u32_number;
use wire_answers::meta::data_size;

/// A hit that was found: its flags, where its data begin and how many bytes they are, and how many bytes the answer takes. The line before the data is
/// `VA LENGTH kKEY fFLAGS`.
#[derive(Clone, Copy)]
pub struct UsualHit {
    pub flags: u32,
    pub start: usize,
    pub len: usize,
    pub used: usize,
}

// What stands after the code.
fn after_code(bytes: &[u8]) -> Option<&[u8]>
    ensures { IfSome result (λ rest. bytes.now ≡ codes "VA " ++ rest.now) }
{
    match bytes {
        [b'V', b'A', b' ', rest @ ..] => Some(rest),
        _ => None,
    }
}

// How many digits stand in front.
fn digits_len(bytes: &[u8]) -> usize
    ensures { result ≤ length bytes.now }
{
    bytes
        .iter()
        .position(|byte| !byte.is_ascii_digit())
        .unwrap_or(bytes.len())
}

// The digits in front, and what stands after them.
fn digits(bytes: &[u8]) -> (&[u8], &[u8])
    ensures { bytes.now ≡ result.0.now ++ result.1.now }
{
    bytes.split_at(digits_len(bytes))
}

// What stands after a text that the bytes begin with.
fn after_text<'a>(text: &[u8], bytes: &'a [u8]) -> Option<&'a [u8]>
    ensures { IfSome result (λ rest. bytes.now ≡ text.now ++ rest.now) }
{
    if bytes.len() < text.len() {
        return None;
    }
    let (front, rest) = bytes.split_at(text.len());
    if front == text { Some(rest) } else { None }
}

// What stands after the letter of the key.
fn after_key_letter(bytes: &[u8]) -> Option<&[u8]>
    ensures { IfSome result (λ rest. bytes.now ≡ codes " k" ++ rest.now) }
{
    match bytes {
        [b' ', b'k', rest @ ..] => Some(rest),
        _ => None,
    }
}

// What stands after the letter of the flags.
fn after_flags_letter(bytes: &[u8]) -> Option<&[u8]>
    ensures { IfSome result (λ rest. bytes.now ≡ codes " f" ++ rest.now) }
{
    match bytes {
        [b' ', b'f', rest @ ..] => Some(rest),
        _ => None,
    }
}

// What stands after the end of the line.
fn after_line(bytes: &[u8]) -> Option<&[u8]>
    ensures { IfSome result (λ rest. bytes.now ≡ codes "\r\n" ++ rest.now) }
{
    match bytes {
        [b'\r', b'\n', rest @ ..] => Some(rest),
        _ => None,
    }
}

// What stands after so many bytes of data and their end.
fn after_data(bytes: &[u8], len: usize) -> Option<&[u8]>
    ensures data { IfSome result (λ rest. drop len bytes.now ≡ CR ∷ LF ∷ rest.now) }
    ensures len { IfSome result (λ rest. len + 2 + length rest.now ≡ length bytes.now) }
{
    if bytes.len() < len {
        return None;
    }
    after_line(&bytes[len..])
}

// The hit that the bytes begin with, where it is whole and on this key, and each word of its line stands after one space.
fn hit_on(key: &[u8], bytes: &[u8]) -> Option<UsualHit>
    ensures { IfSome result (IsUsual key.now bytes.now) }
{
    let after = after_code(bytes)?;
    let (len, after) = digits(after);
    let len = data_size(len)? as usize;
    let after = after_text(key, after_key_letter(after)?)?;
    let after = after_flags_letter(after)?;
    let (flags, after) = digits(after);
    let flags = u32_number(flags)?;
    let rest = after_line(after)?;
    let after = after_data(rest, len)?;
    Some(UsualHit {
        flags,
        start: bytes.len() - rest.len(),
        len,
        used: bytes.len() - after.len(),
    })
}

/// The hit that the bytes begin with, where they are spelled as servers mostly do in answer to the meta form of a get that wants no cas number:
/// [`read_hit`] reads it then. `None` says nothing of the bytes: [`crate::meta_gets::read_in_meta`] tells what they are. It takes no memory.
///
/// Source: memcached's protocol.txt, "Meta Get".
pub fn usual_hit(ask: &Ask, bytes: &[u8]) -> Option<UsualHit>
    ensures { IfSome result (IsUsualTo ask.now bytes.now) }
{
    if !is_retrieval(ask) || ask.with_cas {
        return None;
    }
    hit_on(ask.key.as_bytes(), bytes)
}

/// Reads the hit that was found. The only error is running out of memory for its data, which are copied as [`Received::data`] says.
#[tactic(auto, using(crate::proofs::Hits::hit_within))]
pub fn read_hit(
    alloc: Global,
    spares: &mut SpareBodies,
    ask: &Ask,
    hit: UsualHit,
    received: &Received,
) -> Result<AnswerRead, AllocError>
    requires { IsUsualTo ask.now received.now hit }
    ensures reads { IfOk result (ReadsInMeta ask.now received.now) }
    ensures within { IfOk result (LiesWithin received.now) }
{
    ask.key.bytes_are_a_key();
    let body = received.after(hit.start).data(alloc, spares, hit.len)?;
    let answer = Answer::Hit {
        flags: hit.flags,
        body,
        cas: None,
    };
    Ok(AnswerRead::Answer(answer, hit.used))
}
