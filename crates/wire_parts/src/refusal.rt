//! Why a request is refused, and the line that it is answered.
ghost use Rattle.std.specs.Prelude.{◌≡◌};
ghost use Rattle.wire_parts.specs.Refusals.{refusal_line};

/// Why a line is refused. The tests are made in this order, and the first that fails decides; those of one meta flag come
/// together before the next flag's, and `FlagNotServed` is told once more after them, of a `C` whose `ms` isn't a set.
#[derive(Clone, Copy, PartialEq, Eq)]
pub enum RefusalReason {
    /// No command is spelled so: its word, the number of its words, or another word where `noreply` or `0` may stand.
    Unknown,
    /// A key isn't 1 to 250 bytes, or has a control character or the byte 127 in it.
    BadKey,
    /// A number of a classic line, or the length of `ms`, isn't 1 to 20 digits, or out of its range.
    BadNumber,
    /// A meta flag isn't one that the command has here.
    FlagNotServed,
    /// A meta flag stood on the line before.
    FlagTwice,
    /// A meta flag's value isn't one that it may have.
    BadToken,
    /// The data would be longer than 1,048,576 bytes.
    TooLarge,
    /// The data aren't followed by `\r\n`.
    BadChunk,
}

impl RefusalReason {
    /// The line that the client is answered, without its `\r\n`. It takes no memory.
    pub fn line(self) -> &'static [u8]
        ensures { result.now ≡ refusal_line self }
    {
        match self {
            RefusalReason::Unknown => b"ERROR".as_slice(),
            RefusalReason::BadKey => b"CLIENT_ERROR bad key".as_slice(),
            RefusalReason::BadNumber => b"CLIENT_ERROR bad number".as_slice(),
            RefusalReason::FlagNotServed => b"CLIENT_ERROR flag not served".as_slice(),
            RefusalReason::FlagTwice => b"CLIENT_ERROR flag twice".as_slice(),
            RefusalReason::BadToken => b"CLIENT_ERROR bad token".as_slice(),
            RefusalReason::TooLarge => b"SERVER_ERROR object too large for cache".as_slice(),
            RefusalReason::BadChunk => b"CLIENT_ERROR bad data chunk".as_slice(),
        }
    }
}
