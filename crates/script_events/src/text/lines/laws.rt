//! A law of scripts: what was written is read back.

ghost use Rattle.script_events.specs.LineLaws.{ScriptsAreReadBack};

/// The lines that [`crate::text::lines::write_script`] writes of events that a line can say are read by
/// [`crate::text::reader`] as these events, with nothing loaded: after a first line that says a configuration as a script
/// over it, and over a configuration from elsewhere too.
pub fn scripts_are_read_back()
    ensures { ScriptsAreReadBack }
{}
