//! Why a call isn't sent to its server, and fails without that.

use crate::calls::SentCall;

/// Why a call isn't sent to its server.
///
/// Source: mcgate's own.
#[derive(Clone, Copy, PartialEq, Eq)]
pub enum Refusal {
    /// No connection to the server is in use.
    NoConnection,
    /// Answers are still to come of calls that were late.
    ServerLate,
    /// A store is awaited that is late.
    StoreLate,
    /// The server is still to say that it has emptied itself.
    Emptying,
    /// What came over the connection is no answer.
    ForeignCame,
    /// The call has waited too long to go out.
    WaitedLong,
    /// So many connections in a row were given up as are allowed, and a call that is out there tries the server.
    LeftAlone,
    /// As many calls wait for the server as there is always room for, and memory was refused for one more.
    ManyWait,
}

/// A call that isn't sent, and why.
#[derive(Drop)]
pub struct NotSent {
    pub call: SentCall,
    pub why: Refusal,
}

/// What became of a call that is to be sent.
#[derive(Clone, Copy, PartialEq, Eq)]
pub enum Placed {
    /// It is written to its server's link.
    Sent,
    /// Memory was refused for that: it waits, before all others.
    Waits,
}
