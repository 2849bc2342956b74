//! Whether a plain tree's reads take data from a server.

ghost use Rattle.std.specs.Prelude.{◌≡◌, ◌↔◌, IsTrue};
ghost use Rattle.gate_coverage.specs.Cover.{Takes};
ghost use Rattle.gate_coverage.specs.Computed.{is_taken, takes_server, is_taking};
ghost use Rattle.gate_coverage.specs.Seen.{plan_of};

use crate::laws::taken_is_exact;
use crate::possible::possible_at;
use crate::seen::Seen;
use crate::stores::is_op;
use mc_types::{Op, ServerId};
use route_tree::Plain;

/// Whether some reply to the operation shows an item of the server, or some get copies one to another server. It takes
/// no memory.
pub fn takes(seen: Seen, op: Op, server: ServerId) -> bool
    ensures { IsTrue result ↔ Takes (plan_of seen.entry) op server }
{
    taken_is_exact();
    seen.lawful();
    is_taken_of(seen, op, server)
}

/// Whether some reply to the operation shows an item of the server, or some get copies one to another, by a plain tree that was built.
pub fn taken(plain: &Plain, op: Op, server: ServerId) -> bool
    ensures { IsTrue result ↔ Takes plain.now op server }
{
    takes(Seen::Plain(plain), op, server)
}

/// Whether the operation takes the server, as is computed. It takes no memory.
pub fn is_taken(plain: &Plain, op: Op, server: ServerId) -> bool
    ensures { result ≡ takes_server plain.now op server }
{
    is_taken_of(Seen::Plain(plain), op, server)
}

// Whether replies to the operation show an item of the server, or a get copies one.
fn is_taken_of(seen: Seen, op: Op, server: ServerId) -> bool
    ensures { result ≡ takes_server (plan_of seen.entry) op server }
{
    let of_op = possible_at(seen, op, server);
    let is_copied = is_op(op, Op::Get) && of_op.copies;
    is_taking(op) && (of_op.shows || is_copied)
}

/// Whether some operation takes the server. It takes no memory.
pub fn is_taken_at_all(plain: &Plain, server: ServerId) -> bool
    ensures { result ≡ is_taken plain.now server }
{
    is_taken(plain, Op::Get, server)
        || is_taken(plain, Op::Gat, server)
        || is_taken(plain, Op::Incr, server)
        || is_taken(plain, Op::Decr, server)
}

fn is_taking(op: Op) -> bool
    ensures { result ≡ is_taking op }
{
    is_op(op, Op::Get) || is_op(op, Op::Gat) || is_op(op, Op::Incr) || is_op(op, Op::Decr)
}
