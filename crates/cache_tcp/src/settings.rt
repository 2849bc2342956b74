//! How much a cache server keeps.

ghost use Rattle.std.specs.Prelude.{◌≡◌, ◌<◌};

use serve_wire::conn::Limits;

/// The most bytes of a client that are held and not served.
pub(crate) const INPUT_LIMIT: usize = 2_097_152;

/// A client that leaves so many bytes of its replies untaken is neither read nor served until it takes some.
pub(crate) const BACKLOG: usize = 1_048_576;

/// The limits of one client's connection.
pub(crate) fn client_limits() -> Limits {
    Limits {
        held: INPUT_LIMIT,
        unsent: BACKLOG,
    }
}

/// What a cache server is made for.
#[derive(Clone, Copy)]
pub struct Settings {
    /// The most items that it keeps, 1 or more.
    pub capacity: usize,
    /// The most clients that it serves at a time; one more is told so and closed.
    pub clients: usize,
    /// Whether a client may empty it, by `flush_all`.
    pub flushes: bool,
    ghost some: { 0 < capacity },
}

impl Settings {
    /// A server of so many items, for 1,024 clients.
    ///
    /// Source: mcgate's own.
    pub fn of(capacity: usize) -> Settings
        requires { 0 < capacity }
        ensures { result.capacity ≡ capacity }
    {
        Settings {
            capacity,
            clients: 1_024,
            flushes: false,
        }
    }

    /// These settings, of a server that a client may empty by `flush_all`, or not. It keeps as many items.
    pub fn with_flushes(self, flushes: bool) -> Settings
        ensures { result.capacity ≡ self.capacity }
    {
        let mut settings = self;
        settings.flushes = flushes;
        settings
    }
}
