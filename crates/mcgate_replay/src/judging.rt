//! Which trees of a script are run.

use core_accepted::Beginnings;

/// How many trees a script has at most where nothing else is said: its first one, and those of its reload lines that are loaded. mcgate's
/// own.
pub const USUAL_GENERATIONS: u32 = 16;

/// Which trees of a script are run. Where the gate is asked, so many are held at most, and while they are each further one is refused.
#[derive(Clone, Copy)]
pub enum Judging {
    /// Each: the gate isn't asked.
    Any,
    /// Those that the gate accepts, whatever servers held at first, and so many at most.
    Asked(u32),
    /// Those that the gate accepts where servers began so, and so many at most. A `hold` of what a server can't have begun with is a bad line.
    Begun(Beginnings, u32),
}
