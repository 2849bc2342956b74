//! What a client asks of mcgate itself.

/// What a request asks of mcgate itself.
#[derive(Clone, Copy, PartialEq, Eq)]
pub enum ProxyCommand {
    /// The name and version.
    Version,
    /// To be closed.
    Quit,
    /// Nothing, but to be answered: `mn`.
    Noop,
}
