//! The text by which clients are told mcgate's version.

ghost use Rattle.std.specs.Prelude.{◌≡◌, ◌-◌, length, slice_get, take, IsSome, IfSome, ◌↔◌};
ghost use Rattle.std.specs.List.{list_all};
ghost use Rattle.wire_stream.specs.Version.{is_version_byte, is_space_there, IsVersionText, version_text_of, version_of};

/// The most bytes of a version's text. mcgate's own.
pub const VERSION_LIMIT: usize = 64;

/// The text of mcgate's version where no other is given.
pub const DEFAULT_VERSION: &[u8] = b"mcgate-1";

/// A version's text that is given in place of mcgate's own: 1 to [`VERSION_LIMIT`] bytes, each 32..=126, of which neither the first nor the
/// last is a space. Its bytes are kept inside.
#[derive(Clone, Copy)]
pub struct VersionText {
    len: u8,
    bytes: [u8; VERSION_LIMIT],
}

fn are_version_bytes(text: &[u8]) -> bool
    ensures { result ≡ list_all is_version_byte text.now }
{
    text.iter().all(|byte| *byte >= 32 && *byte <= 126)
}

fn begins_with_space(text: &[u8]) -> bool
    ensures { result ≡ is_space_there (slice_get text.now 0) }
{
    match text.first() {
        Some(byte) => *byte == b' ',
        None => false,
    }
}

fn ends_with_space(text: &[u8]) -> bool
    ensures { result ≡ is_space_there (slice_get text.now (length text.now - 1)) }
{
    match text.last() {
        Some(byte) => *byte == b' ',
        None => false,
    }
}

fn text_of(text: &[u8]) -> VersionText
    requires { IsVersionText text.now }
    ensures { version_text_of result ≡ text.now }
{
    let mut bytes = [0; VERSION_LIMIT];
    bytes[..text.len()].copy_from_slice(text);
    VersionText {
        len: text.len() as u8,
        bytes,
    }
}

impl VersionText {
    /// The version's text, where it can be one: 1 to [`VERSION_LIMIT`] bytes, each 32..=126, of which neither the first nor the last is a
    /// space. It takes no memory.
    pub fn read(text: &[u8]) -> Option<VersionText>
        ensures valid { IsSome result ↔ IsVersionText text.now }
        ensures value { IfSome result (λ version. version_text_of version ≡ text.now) }
    {
        if text.is_empty()
            || text.len() > VERSION_LIMIT
            || !are_version_bytes(text)
            || begins_with_space(text)
            || ends_with_space(text)
        {
            return None;
        }
        Some(text_of(text))
    }

    /// The bytes of the text.
    pub fn as_bytes(&self) -> &[u8]
        ensures { result.now ≡ version_text_of self.now }
    {
        match self.bytes.get(..self.len as usize) {
            Some(text) => text,
            None => &self.bytes,
        }
    }
}

/// The text by which clients are told the version: the one that was given, else mcgate's own. It takes no memory.
pub fn version_of(given: &Option<VersionText>) -> &[u8]
    ensures { result.now ≡ version_of given.now }
{
    match given {
        Some(text) => text.as_bytes(),
        None => DEFAULT_VERSION,
    }
}
