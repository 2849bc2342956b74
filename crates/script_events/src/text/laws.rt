//! A law of escapes: what was written is read back.

ghost use Rattle.script_events.specs.Laws.{EscapesAreReadBack};

/// Bytes that were written in the escapes of a line are read back as those bytes.
pub fn escapes_are_read_back()
    ensures { EscapesAreReadBack }
{}
