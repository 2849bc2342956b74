//! The words of the meta commands.
ghost use Rattle.std.specs.Prelude.{◌≡◌};
ghost use Rattle.wire_meta.specs.CommandWords.{meta_verb_of};

use crate::command::{Kind, Verb};

/// What a command word means: the words are lower case.
///
/// Source: memcached's protocol.txt, "Meta Commands"; `me` isn't served.
#[tactic(auto, using(wire_parts::proofs::WordReads::by_reads), unfolding(crate::specs::CommandWords::meta_verb_of))]
pub fn verb(word: &[u8]) -> Option<Verb>
    ensures { result ≡ meta_verb_of word.now }
{
    let verb = match word {
        b"mg" => Verb::Keyed(Kind::Get),
        b"ms" => Verb::Keyed(Kind::Store),
        b"md" => Verb::Keyed(Kind::Delete),
        b"ma" => Verb::Keyed(Kind::Count),
        b"mn" => Verb::Noop,
        _ => return None,
    };
    Some(verb)
}
