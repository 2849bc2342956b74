//! Whether a plain tree's deletes clear a server.

ghost use Rattle.std.specs.Prelude.{◌≡◌, ◌↔◌, IsTrue};
ghost use Rattle.mc_types.specs.declared.ask.Op.TheVariants.{Delete};
ghost use Rattle.route_tree.specs.At.{plain_for};
ghost use Rattle.gate_coverage.specs.Cover.{Clears};
ghost use Rattle.gate_coverage.specs.Computed.{cleared, kept};
ghost use Rattle.gate_coverage.specs.Seen.{plan_of};

use crate::deleting::Deleting;
use crate::laws::cleared_is_exact;
use crate::possible::possible_at;
use crate::seen::{At, Seen};
use mc_types::{Op, ServerId};
use route_tree::{Plain, Tree};

/// Whether each acknowledged delete of the kind has cleared the server. It takes no memory.
pub fn clears(seen: Seen, deleting: Deleting, server: ServerId) -> bool
    ensures { IsTrue result ↔ Clears (plan_of seen.entry) deleting server }
{
    cleared_is_exact();
    seen.lawful();
    let _kind = deleting;
    !keeps(seen, server)
}

/// Whether each acknowledged delete of the kind has cleared the server, by a plain tree that was built.
pub fn cleared(plain: &Plain, deleting: Deleting, server: ServerId) -> bool
    ensures { IsTrue result ↔ Clears plain.now deleting server }
{
    clears(Seen::Plain(plain), deleting, server)
}

/// Whether each acknowledged delete, of either kind, has cleared the server at the plain tree of this hash and text. It
/// takes no memory.
pub fn is_cleared_at(tree: &Tree, text: &[u8], hash: u32, server: ServerId) -> bool
    ensures { result ≡ cleared (plain_for hash text.now tree.now) server }
{
    let at = At { text, hash };
    !keeps(Seen::Tree(tree, &at), server)
}

// Whether a delete can be acknowledged with the server not cleared.
fn keeps(seen: Seen, server: ServerId) -> bool
    ensures { result ≡ kept Delete server (plan_of seen.entry) }
{
    possible_at(seen, Op::Delete, server).keeps
}
