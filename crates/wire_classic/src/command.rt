//! What a line asks, and what the bytes of a client begin with.
use mc_types::Op;
use text_words::word::Span;
use wire_parts::{ProxyCommand, RefusalReason, Skip};

/// What a command word means.
///
/// Source: memcached's protocol.txt, "Commands".
#[derive(Clone, Copy)]
pub enum Verb {
    /// `set`, `add`, `replace`, `append` and `prepend`.
    Store(Op),
    Cas,
    /// `get`, with the cas number `gets`; touching `gat` and `gats`.
    Retrieve { touching: bool, with_cas: bool },
    Delete,
    Touch,
    /// `incr` and `decr`.
    Count(Op),
    Own(ProxyCommand),
}

/// The key and the numbers that each store has.
#[derive(Clone, Copy)]
pub struct Stored {
    pub key: Span,
    /// As the protocol writes it: 0 never expires, up to 2,592,000 are seconds from now, more is a Unix moment, a
    /// negative one has expired already.
    pub exptime: i64,
    // The two short numbers stand together, so that no word of a command is half empty: copying such a one is slow.
    pub flags: u32,
    /// How many bytes of data follow the line.
    pub length: u32,
}

/// One key or more, as they stand on the line: one span, with the spaces around them.
#[derive(Clone, Copy)]
pub struct Keys {
    pub span: Span,
    /// How many keys there are.
    pub count: usize,
}

/// What a line asks, by the places of its keys. `quiet` says that `noreply` stands on it.
//
// The short fields come first: they stand in the variant's own word, and no further word is half empty.
#[derive(Clone, Copy)]
pub enum ClassicCommand {
    /// `get` and `gets`, with an exptime `gat` and `gats`.
    Retrieval {
        with_cas: bool,
        exptime: Option<i64>,
        keys: Keys,
    },
    /// `set`, `add`, `replace`, `append` and `prepend`.
    Storage {
        op: Op,
        quiet: bool,
        stored: Stored,
    },
    /// `cas`.
    Swapping {
        quiet: bool,
        stored: Stored,
        cas: u64,
    },
    /// `delete`.
    Deletion {
        quiet: bool,
        key: Span,
    },
    /// `touch`.
    Touching {
        quiet: bool,
        key: Span,
        exptime: i64,
    },
    /// `incr` and `decr`.
    Counting {
        op: Op,
        quiet: bool,
        key: Span,
        delta: u64,
    },
    /// `version` and `quit`.
    Own(ProxyCommand),
}

/// A request that is served: what its line asks, and where its data block stands in the bytes that were read.
#[derive(Clone, Copy)]
pub struct ClassicRequest {
    pub command: ClassicCommand,
    /// The data, without the `\r\n` after them; empty where none follow.
    pub block: Span,
    /// How many bytes the request takes, its data block included.
    pub used: usize,
}

/// What the bytes of a client begin with.
#[derive(Clone, Copy)]
pub enum ClassicRead {
    /// Less than a whole message.
    More,
    /// A line without an end in the first 65,536 bytes.
    TooLong,
    /// A message that is served.
    Request(ClassicRequest),
    /// A message that is refused: it takes `used` bytes, and what `skip` says is passed over after them.
    Refused {
        why: RefusalReason,
        used: usize,
        skip: Skip,
    },
}
