//! What a meta line asks, and what the bytes of a client begin with.
use mc_types::Op;
use text_words::word::Span;
use wire_parts::{ProxyCommand, RefusalReason, Skip};

/// The meta commands that ask something of a key.
#[derive(Clone, Copy)]
pub enum Kind {
    /// `mg`
    Get,
    /// `ms`
    Store,
    /// `md`
    Delete,
    /// `ma`
    Count,
}

/// What a command word means.
///
/// Source: memcached's protocol.txt, "Meta Commands".
#[derive(Clone, Copy)]
pub enum Verb {
    Keyed(Kind),
    /// `mn`
    Noop,
}

/// What the flags with a value say, and whether `q` stands among them.
//
// The short fields come first, here and in a command: so they share a word, and copying a request is quicker.
#[derive(Clone, Copy)]
pub struct Values {
    /// `q`
    pub quiet: bool,
    /// `M`: which store, or whether is counted up or down.
    pub mode: Option<Op>,
    /// `F`: the flags that a store keeps beside the data.
    pub flags: Option<u32>,
    /// `C`: the cas number that has to be equal.
    pub cas: Option<u64>,
    /// `D`: by how much is counted.
    pub delta: Option<u64>,
    /// `T`, as the protocol writes an exptime.
    pub exptime: Option<i64>,
}

/// The flags of a line: where they stand, with the spaces around them, and what they say.
#[derive(Clone, Copy)]
pub struct Flags {
    pub span: Span,
    pub values: Values,
}

/// What a line asks, by the places of its key and its flags.
#[derive(Clone, Copy)]
pub enum MetaCommand {
    /// `mg`, `ms`, `md` and `ma`.
    Keyed {
        kind: Kind,
        /// How many bytes of data follow the line: of `ms` alone.
        length: Option<u32>,
        key: Span,
        flags: Flags,
    },
    /// `mn`.
    Own(ProxyCommand),
}

/// A request that is served: what its line asks, and where its data block stands in the bytes that were read.
#[derive(Clone, Copy)]
pub struct MetaRequest {
    pub command: MetaCommand,
    /// The data, without the `\r\n` after them; empty where none follow.
    pub block: Span,
    /// How many bytes the request takes, its data block included.
    pub used: usize,
}

/// What the bytes of a client begin with.
#[derive(Clone, Copy)]
pub enum MetaRead {
    /// Less than a whole message.
    More,
    /// A line without an end in the first 65,536 bytes.
    TooLong,
    /// A message that is served.
    Request(MetaRequest),
    /// A message that is refused: it takes `used` bytes, and what `skip` says is passed over after them.
    Refused {
        why: RefusalReason,
        used: usize,
        skip: Skip,
    },
}
