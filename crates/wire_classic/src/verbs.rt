//! The command words.
ghost use Rattle.std.specs.Prelude.{◌≡◌};
ghost use Rattle.wire_classic.specs.CommandWords.{verb_of};

use crate::command::Verb;
use mc_types::Op;
use wire_parts::ProxyCommand;

/// What a command word means: the words are lower case.
///
/// Source: memcached's protocol.txt, "Commands"; the meta commands aren't among them.
#[tactic(auto, using(wire_parts::proofs::WordReads::by_reads), unfolding(crate::specs::CommandWords::verb_of))]
pub fn verb(word: &[u8]) -> Option<Verb>
    ensures { result ≡ verb_of word.now }
{
    let verb = match word {
        b"get" => Verb::Retrieve {
            touching: false,
            with_cas: false,
        },
        b"gets" => Verb::Retrieve {
            touching: false,
            with_cas: true,
        },
        b"gat" => Verb::Retrieve {
            touching: true,
            with_cas: false,
        },
        b"gats" => Verb::Retrieve {
            touching: true,
            with_cas: true,
        },
        b"set" => Verb::Store(Op::Set),
        b"add" => Verb::Store(Op::Add),
        b"replace" => Verb::Store(Op::Replace),
        b"append" => Verb::Store(Op::Append),
        b"prepend" => Verb::Store(Op::Prepend),
        b"cas" => Verb::Cas,
        b"delete" => Verb::Delete,
        b"touch" => Verb::Touch,
        b"incr" => Verb::Count(Op::Incr),
        b"decr" => Verb::Count(Op::Decr),
        b"version" => Verb::Own(ProxyCommand::Version),
        b"quit" => Verb::Own(ProxyCommand::Quit),
        _ => return None,
    };
    Some(verb)
}
