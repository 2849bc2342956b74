//! How the message at the front of a client's bytes is read, in whichever dialect it is.
ghost use Rattle.std.specs.Prelude.{◌≡◌, ℕ, List, Some, None};
ghost use Rattle.wire_classic.specs.Message as texts;
ghost use Rattle.wire_classic.specs.CommandWords as text_words;
ghost use Rattle.wire_meta.specs.Message as metas;
ghost use Rattle.wire_meta.specs.CommandWords as meta_words;
ghost use Rattle.wire_parts.specs.Message.{Refusal, lift_found};
ghost use Rattle.wire_stream.specs.Both.{Classic, Meta};
ghost use Rattle.wire_stream.specs.Message.{AnyFound, IsMeant, Reads};

use crate::requests::other_protocol::{is_binary, is_http};
use crate::requests::request::Request;
use mc_types::Dialect;
use text_words::ends::Line;
use text_words::reading::line;
use text_words::word::next_word;
use wire_parts::{RefusalReason, Skip};

/// What the bytes of a client begin with.
#[derive(Clone, Copy)]
pub enum Read {
    /// Less than a whole message.
    More,
    /// A line without an end in the first 65,536 bytes.
    TooLong,
    /// The first byte of memcached's binary protocol, or a line that is no command and ends as one of HTTP.
    OtherProtocol,
    /// A message that is served.
    Request(Request),
    /// A message that is refused: it takes `used` bytes, and what `skip` says is passed over after them.
    Refused {
        why: RefusalReason,
        used: usize,
        skip: Skip,
    },
}

fn of_refused(text: &[u8], why: RefusalReason, used: usize, skip: Skip) -> Read
    ensures { (bytes : List ℕ) (found : AnyFound) → found ≡ Some (Refusal why skip, used) → IsMeant text.now bytes result found }
{
    if is_http(text, why) {
        return Read::OtherProtocol;
    }
    Read::Refused { why, used, skip }
}

// A line of this text, as it was read in its dialect.
fn of_classic(text: &[u8], read: wire_classic::ClassicRead) -> Read
    ensures { (bytes : List ℕ) (found : texts.ClassicFound) → texts.ClassicIsMeant bytes read found → IsMeant text.now bytes result (lift_found Classic found) }
{
    match read {
        // It returns by itself: the value of a match is copied once more.
        wire_classic::ClassicRead::Request(request) => return Read::Request(Request::Classic(
            request,
        )),
        wire_classic::ClassicRead::More => Read::More,
        wire_classic::ClassicRead::TooLong => Read::TooLong,
        wire_classic::ClassicRead::Refused { why, used, skip } => {
            of_refused(text, why, used, skip)
        }
    }
}

fn of_meta(text: &[u8], read: wire_meta::MetaRead) -> Read
    ensures { (bytes : List ℕ) (found : metas.MetaFound) → metas.MetaIsMeant bytes read found → IsMeant text.now bytes result (lift_found Meta found) }
{
    match read {
        // It returns by itself: the value of a match is copied once more.
        wire_meta::MetaRead::Request(request) => return Read::Request(Request::Meta(request)),
        wire_meta::MetaRead::More => Read::More,
        wire_meta::MetaRead::TooLong => Read::TooLong,
        wire_meta::MetaRead::Refused { why, used, skip } => of_refused(text, why, used, skip),
    }
}

// The dialect that alone can have this word as a command: each meta command has two letters, and no classic one has. A word
// that is no command is unknown in both.
fn dialect_of(word: &[u8]) -> Dialect
    ensures classic { result ≡ Dialect.Classic → meta_words.meta_verb_of word.now ≡ None }
    ensures meta { result ≡ Dialect.Meta → text_words.verb_of word.now ≡ None }
{
    match word.len() {
        2 => Dialect::Meta,
        _ => Dialect::Classic,
    }
}

/// The message that the bytes begin with, in either dialect, or that they are of another protocol: the line is found once, the length of its first word tells the
/// dialect, and the word is looked up there alone. It takes no memory, and time linear in its line: no data are looked at.
///
/// Source: memcached's protocol.txt.
pub fn read_request(bytes: &[u8]) -> Read
    ensures { Reads bytes.now result }
{
    if is_binary(bytes) {
        return Read::OtherProtocol;
    }
    // Each arm returns by itself: the value of a match in a match is copied at each level.
    match line(bytes) {
        Line::More => return Read::More,
        Line::TooLong => return Read::TooLong,
        Line::At { end, used } => match next_word(&bytes[..end], 0) {
            None => {
                return of_refused(&bytes[..end], RefusalReason::Unknown, used, Skip::Nothing);
            }
            Some(first) => match dialect_of(&bytes[..end][first.start..first.end]) {
                Dialect::Classic => {
                    let read = wire_classic::read_after(bytes, end, used, first);
                    return of_classic(&bytes[..end], read);
                }
                Dialect::Meta => {
                    let read = wire_meta::read_after(bytes, end, used, first);
                    return of_meta(&bytes[..end], read);
                }
            },
        },
    }
}
