//! What a line asks for.

ghost use Rattle.watch_admin.specs.ControlRequests.{LineMeans};

/// What is asked of a proxy that runs.
#[derive(Clone, Copy, PartialEq, Eq)]
pub enum Request<'a> {
    /// To accept nobody any more, and to end once nothing is under way.
    Drain,
    /// To read the configuration's file now.
    Reload,
    /// What it counts.
    Status,
    /// How each server is.
    Servers,
    /// Where this key lives.
    Where(&'a [u8]),
    /// To write lines of this level and more urgent ones.
    Log(&'a [u8]),
    /// It knows no such word.
    Unknown,
}

// What a word without more asks for.
fn by_word(line: &[u8]) -> Request<'_>
    ensures { LineMeans line.now result }
{
    if line == b"drain".as_slice() {
        Request::Drain
    } else if line == b"reload".as_slice() {
        Request::Reload
    } else if line == b"status".as_slice() {
        Request::Status
    } else if line == b"servers".as_slice() {
        Request::Servers
    } else {
        Request::Unknown
    }
}

/// What a line, without its end, asks for.
pub fn request_of(line: &[u8]) -> Request<'_>
    ensures { LineMeans line.now result }
{
    match line {
        [b'w', b'h', b'e', b'r', b'e', b' ', key @ ..] => Request::Where(key),
        [b'l', b'o', b'g', b' ', level @ ..] => Request::Log(level),
        line => by_word(line),
    }
}
