//! The last line of a run.

ghost use Rattle.std.specs.Prelude.{OnOk};
ghost use Rattle.std.specs.Io.KnownBytes.{Appends};
ghost use Rattle.mcgate_loopback.specs.Printed.{done_line};

use crate::ends::Counts;
use std::io;
use std::io::Write;

/// Writes the last line of a run: `done N commands M calls`. Nothing over TCP carries stamps, so nothing is said of stale replies.
/// The format is mcgate's own.
pub fn write_done<W: Write>(counts: Counts, out: &mut W) -> io::Result<()>
    ensures { OnOk result (Appends (W.contents out.old) (W.contents out.new) (done_line counts)) }
{
    writeln!(
        out,
        "done {} commands {} calls",
        counts.commands, counts.calls
    )
}
