//! What calls of a wire give.

/// What was accepted.
#[derive(Clone, Copy, PartialEq, Eq)]
pub enum Accepted {
    /// A peer, by this connection.
    Peer(usize),
    /// Nobody, since the one who waited has gone, or there is no memory for it: another may wait.
    Gone,
    /// Nobody waits.
    Nobody,
    /// The system refused to accept.
    Refused,
}

/// What became of the attempt to connect.
#[derive(Clone, Copy, PartialEq, Eq)]
pub enum Connected {
    /// This connection was begun. It stands once it is reported writable.
    Begun(usize),
    /// The text names no address that is known.
    NoAddress,
    /// The system refused, or memory is short.
    Failed,
}

/// Where a name leads that was looked up again.
#[derive(Clone, Copy, PartialEq, Eq)]
pub enum Lead {
    /// To the machine that is called there, among others perhaps.
    Same,
    /// To a machine, where none was known so far.
    First,
    /// To other machines alone.
    Other,
}

/// What one read gave.
#[derive(Clone, Copy, PartialEq, Eq)]
pub enum ReadOutcome {
    /// So many bytes, one at least.
    Bytes(usize),
    /// There is nothing to read now. A connection that isn't in use never has anything.
    NotReady,
    /// The call was interrupted, and may be made again.
    Interrupted,
    /// The peer sends no more, and all that it sent was read.
    Ended,
    /// The connection has failed.
    Failed,
}

/// What one write did.
#[derive(Clone, Copy, PartialEq, Eq)]
pub enum WriteOutcome {
    /// So many bytes were taken, one at least.
    Bytes(usize),
    /// Nothing is taken now. A connection that isn't in use never takes anything.
    NotReady,
    /// The call was interrupted, and may be made again.
    Interrupted,
    /// The connection has failed.
    Failed,
}

/// What a connection is ready for. It may be spurious.
#[derive(Clone, Copy, PartialEq, Eq)]
pub struct Ready {
    /// There may be something to read, or the end of it.
    pub reads: bool,
    /// A write may take something, or the connection has failed.
    pub writes: bool,
    /// The peer sends no more, or the connection has failed.
    pub closes: bool,
}

/// What a wait told.
#[derive(Clone, Copy, PartialEq, Eq)]
pub enum Report {
    /// Somebody may wait to be accepted.
    Listener,
    /// What this client's connection is ready for.
    Client(usize, Ready),
    /// What this server's connection is ready for.
    Server(usize, Ready),
}
