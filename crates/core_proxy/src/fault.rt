//! Why a call of the core did nothing.

/// Why a tree was not taken. The core is then as it was.
#[derive(Clone, Copy)]
pub enum TreeFault {
    /// The generation in use is the last that has a number.
    TooManyGenerations,
}

/// Why a call of the core did nothing, or ended early. The core is then as it was, but where memory was refused: then see the call.
#[derive(Clone, Copy)]
pub enum CoreFault {
    /// As many clients are open as may be.
    TooManyClients,
    /// There is no client of this id.
    NoClient,
    /// The bytes that are held of the client and the piece are together more than may be held.
    InputFull,
    /// A command of the client has begun and not ended.
    UnderWay,
    /// No call of the ticket's number is out in this core.
    NoTicket,
    /// The last number that there is was given to a command.
    Spent,
    /// Memory was refused.
    NoMemory,
}
