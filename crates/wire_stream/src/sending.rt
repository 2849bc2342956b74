//! What a client is shown of the reply to one key, in what is to be sent: large data are shared with it.

ghost use Rattle.std.specs.Prelude.{◌≡◌, ◌++◌, true, false, Some, IfSome, OnOk, OnErr};
ghost use Rattle.wire_parts.specs.Sending.{bytes_of};
ghost use Rattle.wire_answers.specs.Spelling.{data_of, data_line};
ghost use Rattle.wire_stream.specs.Replies.{shows_values, is_hidden, shown_text, shows_data, has_end, after_data};

use crate::replies::{is_hidden, shows_values, write_part};
use bytes::BytesMut;
use mc_types::{Answer, Ask, Body};
use std::alloc::AllocError;
use wire_answers::{SHARED_FROM, data_of, write_data_line, write_end};
use wire_parts::to_send::SendBuffer;

fn shows_data(shows: bool, reply: &Answer) -> bool
    ensures { result ≡ shows_data shows reply.now }
{
    match reply {
        Answer::Hit { .. } => true,
        Answer::Meta(_, _) => !shows,
        _ => false,
    }
}

fn has_end(shows: bool, last: bool, reply: &Answer) -> bool
    ensures { result ≡ has_end shows last reply.now }
{
    match reply {
        Answer::Hit { .. } => !shows || last,
        _ => false,
    }
}

// The data of the reply, where they are shown and large.
fn shared_data<'a>(quiet: bool, ask: &Ask, reply: &'a Answer) -> Option<&'a Body>
    ensures data { IfSome result (λ body. data_of reply.now ≡ Some body.now) }
    ensures shown { IfSome result (λ body. is_hidden quiet ask.now reply.now ≡ false) }
    ensures line { IfSome result (λ body. shows_data (shows_values ask.now.dialect ask.now.op) reply.now ≡ true) }
{
    if is_hidden(quiet, ask, reply) || !shows_data(shows_values(ask.dialect, ask.op), reply) {
        return None;
    }
    match data_of(reply) {
        Some(body) if body.len() >= SHARED_FROM => Some(body),
        _ => None,
    }
}

fn put_after_data(
    last: bool,
    ask: &Ask,
    reply: &Answer,
    out: &mut BytesMut,
) -> Result<(), AllocError>
    ensures { OnOk result (out.new.items ≡ out.old.items ++ after_data last ask.now reply.now) }
{
    out.extend_from_slice(b"\r\n")?;
    if has_end(shows_values(ask.dialect, ask.op), last, reply) {
        write_end(out)?;
    }
    Ok(())
}

// The line before the data, the data, which are shared, and what stands after them.
fn send_data(
    last: bool,
    ask: &Ask,
    reply: &Answer,
    body: &Body,
    out: &mut SendBuffer,
) -> Result<(), AllocError>
    ensures ok { OnOk result (bytes_of out.new ≡ bytes_of out.old ++ data_line ask.now reply.now ++ body.now ++ after_data last ask.now reply.now) }
    ensures err { OnErr result (bytes_of out.new ≡ bytes_of out.old) }
{
    let mut after = out.new_text();
    put_after_data(last, ask, reply, &mut after)?;
    let len = out.text.len();
    write_data_line(ask, reply, &mut out.text)?;
    let pushed = out.push_data(body, after);
    if pushed.is_err() {
        out.text.truncate(len);
    }
    pushed
}

/// Appends what [`write_part`] does, to what is to be sent. Data of [`SHARED_FROM`] bytes or more aren't copied: they are
/// shared with the reply.
///
/// The only error is running out of memory, which leaves what is to be sent as it was.
///
/// Source: memcached's protocol.txt; that an error ends the reply to several keys is mcgate's own.
pub fn send_part(
    quiet: bool,
    last: bool,
    ask: &Ask,
    reply: &Answer,
    out: &mut SendBuffer,
) -> Result<(), AllocError>
    ensures ok { OnOk result (bytes_of out.new ≡ bytes_of out.old ++ shown_text quiet last ask.now reply.now) }
    ensures err { OnErr result (bytes_of out.new ≡ bytes_of out.old) }
{
    match shared_data(quiet, ask, reply) {
        Some(body) => send_data(last, ask, reply, body, out),
        None => write_part(quiet, last, ask, reply, &mut out.text),
    }
}
