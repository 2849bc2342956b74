//! The keys of a line, one after another.
ghost use Rattle.std.specs.Prelude.{◌≡◌, ◌≤◌, ◌&&◌, nat_le, length, position};
ghost use Rattle.std.specs.List.{position_or_len};
ghost use Rattle.text_words.specs.Word.{is_no_space};
ghost use Rattle.wire_classic.specs.KeysOfLine.{IsNextKey, ends_word};

use mc_types::KEY_LIMIT;
use text_words::word::Span;
use wire_parts::key_bytes::key_len;

/// What stands next on a line where keys stand.
#[derive(Clone, Copy)]
pub enum NextKey {
    /// Only spaces.
    Nothing,
    Key(Span),
    /// A word that is no key.
    Other,
}

fn first_other(text: &[u8]) -> Option<usize>
    ensures { result ≡ position is_no_space text.now }
{
    text.iter().position(|b| *b != b' ')
}

fn spaces_len(text: &[u8]) -> usize
    ensures value { result ≡ position_or_len is_no_space text.now }
    ensures within { result ≤ length text.now }
{
    first_other(text).unwrap_or(text.len())
}

// Whether so many bytes that a key may have are a whole word, by what stands after them.
fn are_key(len: usize, after: &[u8]) -> bool
    ensures { result ≡ (nat_le len KEY_LIMIT && ends_word after.now) }
{
    len <= KEY_LIMIT && matches!(after, [] | [b' ', ..])
}

/// The next key of a line from the place `at` on. Each byte of the key is looked at once, as a line may have many.
pub fn next_key(line: &[u8], at: usize) -> NextKey
    requires { at ≤ length line.now }
    ensures { IsNextKey line.now at result }
{
    let start = at + spaces_len(&line[at..]);
    if start == line.len() {
        return NextKey::Nothing;
    }
    let len = key_len(&line[start..]);
    let end = start + len;
    if are_key(len, &line[end..]) {
        NextKey::Key(Span { start, end })
    } else {
        NextKey::Other
    }
}
