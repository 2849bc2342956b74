//! The data block after a line, and its end.
ghost use Rattle.std.specs.Prelude.{◌≡◌, ◌≤◌, length, drop};
ghost use Rattle.wire_parts.specs.Message.{data_block_end, with_rest, IsRest};

use text_words::word::Span;

/// How a data block ends, by the bytes after it.
#[derive(Clone, Copy)]
pub enum End {
    /// The bytes that decide haven't come.
    Open,
    /// With `\r\n`.
    Good,
    /// With another byte.
    Bad,
}

/// What follows the line of a request.
#[derive(Clone, Copy)]
pub enum Rest {
    /// The data block isn't whole.
    More,
    /// Where the data stand, without the `\r\n` after them, and how many bytes the request takes.
    Whole { block: Span, used: usize },
    /// The data block has another end: so many bytes are taken.
    Bad { used: usize },
}

/// How a data block ends, by the bytes after its data.
pub fn block_end(after: &[u8]) -> End
    ensures { result ≡ data_block_end after.now }
{
    match after {
        [] | [b'\r'] => End::Open,
        [b'\r', b'\n', ..] => End::Good,
        _ => End::Bad,
    }
}

/// What follows a line that takes so many bytes: a data block of this length, where one is to follow. It takes no memory.
pub fn after_line(bytes: &[u8], used: usize, len: Option<usize>) -> Rest
    requires { used ≤ length bytes.now }
    ensures { IsRest bytes.now result (with_rest tt used (drop used bytes.now) len) }
{
    let Some(len) = len else {
        return Rest::Whole {
            block: Span {
                start: used,
                end: used,
            },
            used,
        };
    };
    let rest = &bytes[used..];
    if rest.len() <= len {
        return Rest::More;
    }
    let end = used + len;
    match block_end(&rest[len..]) {
        End::Open => Rest::More,
        End::Good => Rest::Whole {
            block: Span { start: used, end },
            used: end + 2,
        },
        End::Bad => Rest::Bad { used: end },
    }
}
