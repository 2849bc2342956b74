//! How the events of a script are written.
ghost use Rattle.std.specs.Prelude.{◌≡◌, OnOk, All, map};
ghost use Rattle.std.specs.Io.KnownBytes.{Appends};
ghost use Rattle.script_events.specs.Scripted.{loss_of, manner_of, scripted_of};
ghost use Rattle.script_events.specs.ScriptLines.{event_line, loss_line, manner_line, script_lines};
ghost use Rattle.script_events.specs.LineLaws.{AreBytes, IsManner, LossHasWidths, HasWidths};

use crate::{Event, Loss, Manner, Script};
use std::io;
use std::io::Write;
use text_words::escapes::Escaped;

fn write_manner<W: Write>(manner: Manner, out: &mut W) -> io::Result<()>
    ensures line { OnOk result (Appends (W.contents out.old) (W.contents out.new) (manner_line (manner_of manner))) }
    ensures widths { IsManner (manner_of manner) }
{
    match manner {
        Manner::Before => writeln!(out, "before"),
        Manner::After => writeln!(out, "after"),
        Manner::Junk => writeln!(out, "junk"),
        Manner::Cut(count) => writeln!(out, "cut {}", count),
    }
}

// The bytes in the escapes; that they are bytes is for the clauses of those that write them.
fn in_escapes(bytes: &[u8]) -> Escaped<'_>
    ensures escaped { result.0.now ≡ bytes.now }
    ensures widths { AreBytes bytes.now }
{
    Escaped(bytes)
}

fn write_loss<W: Write>(loss: &Loss, out: &mut W) -> io::Result<()>
    ensures line { OnOk result (Appends (W.contents out.old) (W.contents out.new) (loss_line (loss_of loss.now))) }
    ensures widths { LossHasWidths (loss_of loss.now) }
{
    match loss {
        Loss::Item(server, key) => {
            let key = in_escapes(key.as_bytes());
            writeln!(out, "lose {} {}", server.number(), key)
        }
        Loss::Restart(server) => writeln!(out, "restart {}", server.number()),
    }
}

fn write_event<W: Write>(event: &Event, out: &mut W) -> io::Result<()>
    ensures line { OnOk result (Appends (W.contents out.old) (W.contents out.new) (event_line (scripted_of event.now))) }
    ensures widths { OnOk result (HasWidths (scripted_of event.now)) }
{
    match event {
        Event::Piece(client, bytes) => {
            let bytes = in_escapes(bytes.as_slice());
            writeln!(out, "> {} {}", client, bytes)
        }
        Event::Add(client, bytes) => {
            let bytes = in_escapes(bytes.as_slice());
            writeln!(out, "+ {} {}", client, bytes)
        }
        Event::Result(server) => {
            let server = server.number();
            writeln!(out, "result {}", server)
        }
        Event::Hold(server, key, content) => {
            let key = in_escapes(key.as_bytes());
            let content = in_escapes(content.as_slice());
            writeln!(out, "hold {} {} {}", server.number(), key, content)
        }
        Event::Fail(turn, manner) => {
            let turn = *turn;
            write!(out, "fail {} ", turn)?;
            write_manner(*manner, out)
        }
        Event::At(turn, loss) => {
            let turn = *turn;
            write!(out, "at {} ", turn)?;
            write_loss(loss, out)
        }
        Event::Now(loss) => write_loss(loss, out),
        Event::Moment(moment) => {
            let moment = *moment;
            writeln!(out, "moment {}", moment)
        }
    }
}

/// Writes a line for each event of the script, as `read_event` reads it: bytes and keys stand in the escapes. The format is
/// mcgate's own.
pub fn write_script<W: Write>(script: &Script, out: &mut W) -> io::Result<()>
    ensures lines { OnOk result (Appends (W.contents out.old) (W.contents out.new) (script_lines (map scripted_of script.now.events.items))) }
    ensures widths { OnOk result (All (λ event. HasWidths (scripted_of event)) script.now.events.items) }
{
    for event in &script.events {
        write_event(event, out)?;
    }
    Ok(())
}
