//! What a client is shown of the reply to one key.

ghost use Rattle.std.specs.Prelude.{◌≡◌, ◌++◌, ◌||◌, [], take, length, OnOk, OnErr, if◌then◌else◌};
ghost use Rattle.wire_parts.specs.declared.proxy_command.ProxyCommand.TheVariants.{Version};
ghost use Rattle.wire_answers.specs.Spelling.{value_of, end_text};
ghost use Rattle.wire_stream.specs.Replies.{shows_values, hidden_code, hidden_answer, is_hidden, is_failure, part_text, shown_text, own_answer, refusal_text, long_line_text};

use bytes::BytesMut;
use mc_types::{Answer, Ask, Code, Dialect, Op};
use std::alloc::AllocError;
use wire_answers::{write_answer, write_end, write_value};
use wire_parts::{ProxyCommand, RefusalReason};

// Whether the reply is a value, and has `END` after the last key.
pub(crate) fn shows_values(dialect: Dialect, op: Op) -> bool
    ensures { result ≡ shows_values dialect op }
{
    match (dialect, op) {
        (Dialect::Classic, Op::Get) | (Dialect::Classic, Op::Gat) => true,
        _ => false,
    }
}

// Whether `q` hides this code of an answer.
fn hidden_code(op: Op, code: Code) -> bool
    ensures { result ≡ hidden_code op code }
{
    match op {
        Op::Get | Op::Gat => code == Code::En,
        Op::Set | Op::Add | Op::Replace | Op::Append | Op::Prepend | Op::Cas => code == Code::Hd,
        Op::Delete | Op::Incr | Op::Decr => code == Code::Hd || code == Code::Nf,
        Op::Touch => false,
    }
}

fn hidden_answer(op: Op, reply: &Answer) -> bool
    ensures { result ≡ hidden_answer op reply.now }
{
    match reply {
        Answer::Meta(code, _) => hidden_code(op, *code),
        _ => false,
    }
}

pub(crate) fn is_hidden(quiet: bool, ask: &Ask, reply: &Answer) -> bool
    ensures { result ≡ is_hidden quiet ask.now reply.now }
{
    quiet
        && match ask.dialect {
            Dialect::Classic => true,
            Dialect::Meta => hidden_answer(ask.op, reply),
        }
}

fn is_failure(reply: &Answer) -> bool
    ensures { result ≡ is_failure reply.now }
{
    reply.rank() >= 3
}

/// Whether a message is done with this reply: that of its last key, or an error line, after which no key is asked.
pub fn ends_message(last: bool, reply: &Answer) -> bool
    ensures { result ≡ (is_failure reply.now || last) }
{
    is_failure(reply) || last
}

fn put_fetched(last: bool, ask: &Ask, reply: &Answer, out: &mut BytesMut) -> Result<(), AllocError>
    ensures ok { OnOk result (out.new.items ≡ out.old.items ++ value_of ask.now reply.now ++ (if last then end_text else [])) }
    ensures err { OnErr result (take (length out.old.items) out.new.items ≡ out.old.items) }
{
    write_value(ask, reply, out)?;
    if last { write_end(out) } else { Ok(()) }
}

/// Appends what the reply to one key of a message shows: of a classic get its value, and `END` after the last key; an
/// error line stands in place of `END`; of the other operations the answer, that of a meta command with its return tokens
/// in the order of the client's flags.
///
/// Where the client is quiet, a classic command shows nothing, and a meta one hides what it expects: `EN` of `mg`, `HD` of
/// `ms`, `HD` and `NF` of `md` and `ma`. Error lines of meta commands are always shown.
///
/// The only error is running out of memory, which leaves the buffer as it was.
///
/// Source: memcached's protocol.txt; that an error ends the reply to several keys is mcgate's own.
pub fn write_part(
    quiet: bool,
    last: bool,
    ask: &Ask,
    reply: &Answer,
    out: &mut BytesMut,
) -> Result<(), AllocError>
    ensures ok { OnOk result (out.new.items ≡ out.old.items ++ shown_text quiet last ask.now reply.now) }
    ensures err { OnErr result (out.new.items ≡ out.old.items) }
{
    if is_hidden(quiet, ask, reply) {
        return Ok(());
    }
    if !shows_values(ask.dialect, ask.op) || is_failure(reply) {
        return write_answer(ask, reply, out);
    }
    let len = out.len();
    let written = put_fetched(last, ask, reply, out);
    if written.is_err() {
        out.truncate(len);
    }
    written
}

fn put_version(version: &[u8], out: &mut BytesMut) -> Result<(), AllocError>
    ensures ok { OnOk result (out.new.items ≡ out.old.items ++ own_answer version.now Version) }
    ensures err { OnErr result (take (length out.old.items) out.new.items ≡ out.old.items) }
{
    out.extend_from_slice(b"VERSION ")?;
    out.extend_from_slice(version)?;
    out.extend_from_slice(b"\r\n")
}

fn write_version(version: &[u8], out: &mut BytesMut) -> Result<(), AllocError>
    ensures ok { OnOk result (out.new.items ≡ out.old.items ++ own_answer version.now Version) }
    ensures err { OnErr result (out.new.items ≡ out.old.items) }
{
    let len = out.len();
    let written = put_version(version, out);
    if written.is_err() {
        out.truncate(len);
    }
    written
}

/// Appends what mcgate itself answers: its version by this text, `MN` to `mn`, and nothing to `quit`. The only error is running out of memory,
/// which leaves the buffer as it was.
pub fn write_own(own: ProxyCommand, version: &[u8], out: &mut BytesMut) -> Result<(), AllocError>
    ensures ok { OnOk result (out.new.items ≡ out.old.items ++ own_answer version.now own) }
    ensures err { OnErr result (out.new.items ≡ out.old.items) }
{
    match own {
        ProxyCommand::Version => write_version(version, out),
        ProxyCommand::Quit => Ok(()),
        ProxyCommand::Noop => out.extend_from_slice(b"MN\r\n"),
    }
}

fn put_refusal(why: RefusalReason, out: &mut BytesMut) -> Result<(), AllocError>
    ensures ok { OnOk result (out.new.items ≡ out.old.items ++ refusal_text why) }
    ensures err { OnErr result (take (length out.old.items) out.new.items ≡ out.old.items) }
{
    out.extend_from_slice(why.line())?;
    out.extend_from_slice(b"\r\n")
}

/// Appends the line that a refused message is answered. The only error is running out of memory, which leaves the buffer as
/// it was.
pub fn write_refusal(why: RefusalReason, out: &mut BytesMut) -> Result<(), AllocError>
    ensures ok { OnOk result (out.new.items ≡ out.old.items ++ refusal_text why) }
    ensures err { OnErr result (out.new.items ≡ out.old.items) }
{
    let len = out.len();
    let written = put_refusal(why, out);
    if written.is_err() {
        out.truncate(len);
    }
    written
}

/// Appends what a line without an end in its first 65,536 bytes is answered. The only error is running out of memory, which
/// leaves the buffer as it was.
pub fn write_long_line(out: &mut BytesMut) -> Result<(), AllocError>
    ensures ok { OnOk result (out.new.items ≡ out.old.items ++ long_line_text) }
    ensures err { OnErr result (out.new.items ≡ out.old.items) }
{
    out.extend_from_slice(b"CLIENT_ERROR line too long\r\n")
}
