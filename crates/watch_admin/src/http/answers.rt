//! The bytes of answers.

ghost use Rattle.std.specs.Prelude.{◌≡◌, OnOk};
ghost use Rattle.std.specs.Io.KnownBytes.{Appends};
ghost use Rattle.watch_admin.specs.HttpReplies.{page_kind, refusal_words, field_of, status_line, kind_line, length_line, close_lines, front_text, body_text, answer_text, http_refusal_text, page_text};

use crate::http::request::{Page, Refusal};
use std::io;
use std::io::Write;

// The media type of a page.
fn kind_of(page: Page) -> &'static str
    ensures { result.now ≡ page_kind page }
{
    match page {
        Page::Home => "text/html; charset=utf-8",
        Page::Metrics => "text/plain; version=0.0.4; charset=utf-8",
        Page::Config | Page::Stats => "application/json",
    }
}

// The status of a refusal.
fn words_of(refusal: Refusal) -> &'static str
    ensures { result.now ≡ refusal_words refusal }
{
    match refusal {
        Refusal::Bad => "400 Bad Request",
        Refusal::NotFound => "404 Not Found",
        Refusal::NotAllowed => "405 Method Not Allowed",
        Refusal::TooLarge => "431 Request Header Fields Too Large",
    }
}

// A field of its head.
fn field_of(refusal: Refusal) -> &'static str
    ensures { result.now ≡ field_of refusal }
{
    match refusal {
        Refusal::NotAllowed => "Allow: GET\r\n",
        Refusal::Bad | Refusal::NotFound | Refusal::TooLarge => "",
    }
}

#[tactic(auto, unfolding(crate::specs::HttpReplies::status_line))]
fn write_status<W: Write>(words: &str, out: &mut W) -> io::Result<()>
    ensures { OnOk result (Appends (W.contents out.old) (W.contents out.new) (status_line words.now)) }
{
    write!(out, "HTTP/1.1 {words}\r\n")
}

#[tactic(auto, unfolding(crate::specs::HttpReplies::kind_line))]
fn write_kind<W: Write>(kind: &str, out: &mut W) -> io::Result<()>
    ensures { OnOk result (Appends (W.contents out.old) (W.contents out.new) (kind_line kind.now)) }
{
    write!(out, "Content-Type: {kind}\r\n")
}

#[tactic(auto, unfolding(crate::specs::HttpReplies::length_line))]
fn write_length<W: Write>(length: usize, out: &mut W) -> io::Result<()>
    ensures { OnOk result (Appends (W.contents out.old) (W.contents out.new) (length_line length)) }
{
    write!(out, "Content-Length: {length}\r\n")
}

#[tactic(auto, unfolding(crate::specs::HttpReplies::close_lines))]
fn write_close<W: Write>(out: &mut W) -> io::Result<()>
    ensures { OnOk result (Appends (W.contents out.old) (W.contents out.new) close_lines) }
{
    write!(out, "Connection: close\r\n\r\n")
}

#[tactic(auto, unfolding(crate::specs::HttpReplies::front_text))]
fn write_front<W: Write>(words: &str, fields: &str, kind: &str, out: &mut W) -> io::Result<()>
    ensures { OnOk result (Appends (W.contents out.old) (W.contents out.new) (front_text words.now fields.now kind.now)) }
{
    write_status(words, out)?;
    write_bytes(fields.as_bytes(), out)?;
    write_kind(kind, out)
}

#[tactic(auto, unfolding(crate::specs::HttpReplies::body_text))]
fn write_body<W: Write>(body: &[u8], out: &mut W) -> io::Result<()>
    ensures { OnOk result (Appends (W.contents out.old) (W.contents out.new) (body_text body.now)) }
{
    write_length(body.len(), out)?;
    write_close(out)?;
    write_bytes(body, out)
}

// Writes an answer of this status, with the fields of the status.
#[tactic(auto, unfolding(crate::specs::HttpReplies::answer_text))]
fn write_answer<W: Write>(
    words: &str,
    fields: &str,
    kind: &str,
    body: &[u8],
    out: &mut W,
) -> io::Result<()>
    ensures { OnOk result (Appends (W.contents out.old) (W.contents out.new) (answer_text words.now fields.now kind.now body.now)) }
{
    write_front(words, fields, kind, out)?;
    write_body(body, out)
}

fn write_bytes<W: Write>(bytes: &[u8], out: &mut W) -> io::Result<()>
    ensures { OnOk result (Appends (W.contents out.old) (W.contents out.new) bytes.now) }
{
    out.write_all(bytes)
}

/// Writes the answer that is this page.
pub fn write_page<W: Write>(page: Page, body: &[u8], out: &mut W) -> io::Result<()>
    ensures { OnOk result (Appends (W.contents out.old) (W.contents out.new) (page_text page body.now)) }
{
    write_answer("200 OK", "", kind_of(page), body, out)
}

/// Writes the answer to a request that is answered by no page. Its body is its status.
pub fn write_refusal<W: Write>(refusal: Refusal, out: &mut W) -> io::Result<()>
    ensures { OnOk result (Appends (W.contents out.old) (W.contents out.new) (http_refusal_text refusal)) }
{
    let words = words_of(refusal);
    write_answer(
        words,
        field_of(refusal),
        "text/plain",
        words.as_bytes(),
        out,
    )
}
