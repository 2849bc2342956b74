//! What stands at the front of a client's bytes, and how a message there that asks no server is answered at once. Whoever serves
//! clients, one after another or many at a time, goes on by it.

ghost use Rattle.std.specs.Prelude.{◌≡◌, ◌≤◌, ◌++◌, ℕ, List, drop, length, OnOk, OnErr, IfOk};
ghost use Rattle.wire_parts.specs.declared.refusal.RefusalReason.TheVariants.{Unknown};
ghost use Rattle.wire_parts.specs.declared.skip.Skip.TheVariants.{Nothing};
ghost use Rattle.wire_parts.specs.Stream.{Stands, Closed, skipped, after_own};
ghost use Rattle.wire_stream.specs.Held.{bytes_at, IsReadAt};
ghost use Rattle.wire_stream.specs.Replies.{refusal_text, long_line_text};
ghost use Rattle.wire_stream.specs.TextProtocol.{own_passed};
ghost use Rattle.wire_stream.specs.Fronts.{AsksNone, IsFrontOf, PassesMessage};

use crate::connection::client_stream::ClientStream;
use crate::{
    ProxyCommand, Read, RefusalReason, Request, Skip, write_long_line, write_own, write_refusal,
};
use bytes::BytesMut;
use std::alloc::AllocError;

/// What stands at the front of a client's bytes.
#[derive(Clone, Copy)]
pub enum Front {
    /// No whole message, or none that is read any more.
    Nothing,
    /// This message, which asks no server.
    Passing(Read),
    /// This request, which has a key at least.
    Keys(Request),
}

/// What a message was that asked no server.
#[derive(Clone, Copy)]
pub enum Passed {
    /// A message that asked mcgate itself, and was answered.
    Own,
    /// A message that was refused.
    Refused,
}

impl ClientStream {
    /// What stands at the front. It takes no memory.
    pub fn front(&self) -> Front
        ensures { IsFrontOf self.now result }
    {
        match self.read() {
            Read::More => Front::Nothing,
            Read::TooLong => Front::Passing(Read::TooLong),
            Read::OtherProtocol => Front::Passing(Read::OtherProtocol),
            Read::Refused { why, used, skip } => Front::Passing(Read::Refused { why, used, skip }),
            Read::Request(request) => {
                if request.asks() == 0 {
                    Front::Passing(Read::Request(request))
                } else {
                    Front::Keys(request)
                }
            }
        }
    }
}

// A line that is too long is answered, and nothing is read any more.
fn refuse_long_line(stream: &mut ClientStream, output: &mut BytesMut) -> Result<(), AllocError>
    ensures place { OnOk result (stream.new ≡ Closed) }
    ensures text { OnOk result (output.new.items ≡ output.old.items ++ long_line_text) }
    ensures stays { OnErr result (stream.new ≡ stream.old) }
    ensures kept { OnErr result (output.new.items ≡ output.old.items) }
{
    write_long_line(output)?;
    stream.close();
    Ok(())
}

// Another protocol is answered as what is no command, and nothing is read any more.
fn refuse_protocol(stream: &mut ClientStream, output: &mut BytesMut) -> Result<(), AllocError>
    ensures place { OnOk result (stream.new ≡ Closed) }
    ensures text { OnOk result (output.new.items ≡ output.old.items ++ refusal_text Unknown) }
    ensures stays { OnErr result (stream.new ≡ stream.old) }
    ensures kept { OnErr result (output.new.items ≡ output.old.items) }
{
    write_refusal(RefusalReason::Unknown, output)?;
    stream.close();
    Ok(())
}

// A refused message is answered and done.
fn refuse(
    why: RefusalReason,
    used: usize,
    skip: Skip,
    stream: &mut ClientStream,
    output: &mut BytesMut,
) -> Result<(), AllocError>
    requires { used ≤ length (bytes_at stream.old) }
    ensures place { OnOk result ((held : List ℕ) → stream.old ≡ Stands Nothing held → stream.new ≡ skipped skip (drop used held)) }
    ensures text { OnOk result (output.new.items ≡ output.old.items ++ refusal_text why) }
    ensures stays { OnErr result (stream.new ≡ stream.old) }
    ensures kept { OnErr result (output.new.items ≡ output.old.items) }
{
    write_refusal(why, output)?;
    stream.pass_refused(used, skip);
    Ok(())
}

// A message that asks mcgate itself, or nothing, is answered and done.
fn answer_own(
    own: Option<ProxyCommand>,
    used: usize,
    version: &[u8],
    stream: &mut ClientStream,
    output: &mut BytesMut,
) -> Result<(), AllocError>
    requires { used ≤ length (bytes_at stream.old) }
    ensures place { OnOk result ((held : List ℕ) → stream.old ≡ Stands Nothing held → stream.new ≡ after_own own (drop used held)) }
    ensures text { OnOk result (output.new.items ≡ output.old.items ++ own_passed version.now own) }
    ensures stays { OnErr result (stream.new ≡ stream.old) }
    ensures kept { OnErr result (output.new.items ≡ output.old.items) }
{
    if let Some(own) = own {
        write_own(own, version, output)?;
    }
    stream.pass_request(used);
    if let Some(ProxyCommand::Quit) = own {
        stream.close();
    }
    Ok(())
}

/// The message that was read at the front, which asks no server, is answered into the output and done; `version` is answered by this text.
/// The only error is running out of memory, which leaves the stream and the output as they were.
pub fn pass(
    read: Read,
    version: &[u8],
    stream: &mut ClientStream,
    output: &mut BytesMut,
) -> Result<Passed, AllocError>
    requires read { IsReadAt stream.old read }
    requires asks { AsksNone stream.old read }
    ensures ok { IfOk result (λ passed. PassesMessage version.now stream.old output.old.items passed stream.new output.new.items) }
    ensures stays { OnErr result (stream.new ≡ stream.old) }
    ensures kept { OnErr result (output.new.items ≡ output.old.items) }
{
    match read {
        Read::More => unreachable!(),
        Read::TooLong => {
            refuse_long_line(stream, output)?;
            Ok(Passed::Refused)
        }
        Read::OtherProtocol => {
            refuse_protocol(stream, output)?;
            Ok(Passed::Refused)
        }
        Read::Refused { why, used, skip } => {
            refuse(why, used, skip, stream, output)?;
            Ok(Passed::Refused)
        }
        Read::Request(request) => {
            answer_own(request.own(), request.used(), version, stream, output)?;
            Ok(Passed::Own)
        }
    }
}
