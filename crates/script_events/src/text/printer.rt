//! The lines that a run prints.

ghost use Rattle.std.specs.Prelude.{OnOk, map};
ghost use Rattle.std.specs.Io.KnownBytes.{Appends};
ghost use Rattle.script_events.specs.Scripted.{output_shown};
ghost use Rattle.script_events.specs.Printed.{shown_lines, report_line, bad_line_line};

use crate::{Output, Report};
use std::io;
use std::io::Write;
use text_words::escapes::Escaped;

/// Writes a line `< C TEXT` for each output of a transcript, with the bytes in the escapes. The format is mcgate's own.
pub fn write_outputs<W: Write>(outputs: &[Output], out: &mut W) -> io::Result<()>
    ensures { OnOk result (Appends (W.contents out.old) (W.contents out.new) (shown_lines (map output_shown outputs.now))) }
{
    for output in outputs {
        let bytes = Escaped(output.bytes.as_slice());
        writeln!(out, "< {} {}", output.client, bytes)?;
    }
    Ok(())
}

/// Writes the last line of a run: `done N commands M calls K stale`. The format is mcgate's own.
pub fn write_report<W: Write>(report: &Report, out: &mut W) -> io::Result<()>
    ensures { OnOk result (Appends (W.contents out.old) (W.contents out.new) (report_line report.now)) }
{
    writeln!(
        out,
        "done {} commands {} calls {} stale",
        report.commands, report.calls, report.stale
    )
}

/// Writes that a line of the script is bad: `script: bad line N`. The format is mcgate's own.
pub fn write_bad_line<W: Write>(line: usize, out: &mut W) -> io::Result<()>
    ensures { OnOk result (Appends (W.contents out.old) (W.contents out.new) (bad_line_line line)) }
{
    writeln!(out, "script: bad line {line}")
}
