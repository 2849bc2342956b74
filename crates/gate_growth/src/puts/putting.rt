//! Whether some command through a plain tree puts an item on a server: by one recursion over plain trees as they stand.

ghost use Rattle.std.specs.Prelude.{◌≡◌, ◌≤◌, ◌↔◌, ◌||◌, IsTrue, ℕ};
ghost use Rattle.route_tree.specs.PlanCode.{plan_size};
ghost use Rattle.gate_coverage.specs.Seen.{plan_of, all_plans_of, plan_of_seen_form};
ghost use Rattle.gate_growth.specs.Puts.{Puts};
ghost use Rattle.gate_growth.specs.PutsComputed.{may_store, stores_some, may_store_first, stores_head, refills, puts};

use crate::puts::laws::puts_is_exact;
use gate_coverage::possible::possible_at;
use gate_coverage::seen::{Seen, SeenAll, SeenForm};
use gate_coverage::stores::is_op;
use mc_types::{Op, ServerId};

/// Whether some word of some ask has a call of the server that asks for a set, an add, a replace or a cas, of the client's
/// data or a copy, also where that call fails: it may have been applied. It takes no memory.
pub fn puts(seen: Seen, server: ServerId) -> bool
    ensures { IsTrue result ↔ Puts (plan_of seen.entry) server }
{
    puts_is_exact();
    seen.lawful();
    is_put_on(seen, server)
}

/// Whether some call can put an item on the server, as specs compute it. It takes no memory.
pub fn is_put_on(seen: Seen, server: ServerId) -> bool
    ensures { result ≡ puts (plan_of seen.entry) server }
{
    stores_at(seen, Op::Set, server)
        || stores_at(seen, Op::Add, server)
        || stores_at(seen, Op::Replace, server)
        || stores_at(seen, Op::Cas, server)
        || stores_at(seen, Op::Get, server)
}

// What is left of it for the operation: the same is stored by the operation.
fn form_for<'a>(seen: Seen<'a>, op: Op) -> SeenForm<'a>
    ensures stores { (s : ℕ) → may_store op s (plan_of_seen_form result) ≡ may_store op s (plan_of seen.entry) }
    ensures size { plan_size (plan_of_seen_form result) ≤ plan_size (plan_of seen.entry) }
{
    seen.left(op)
}

// Whether the operation can ask the server; of a get, whether it can put a copy there.
#[cycle(stores_at)]
fn stores_at(seen: Seen, op: Op, server: ServerId) -> bool
    ensures { result ≡ may_store op server (plan_of seen.entry) }
{
    match form_for(seen, op) {
        SeenForm::Server(other) => !is_op(op, Op::Get) && other.number() == server.number(),
        SeenForm::Null => false,
        SeenForm::Error => false,
        SeenForm::AllSync(children) => some_store(children, op, server),
        SeenForm::Failover(children) => first_store(children, op, server),
        SeenForm::MissFailover(children) => {
            if is_op(op, Op::Get) {
                some_store(children, op, server)
            } else {
                head_stores(children, op, server)
            }
        }
        SeenForm::WarmUp { cold, warm } => {
            stores_at(cold, op, server) || (is_op(op, Op::Get) && refills(cold, warm, server))
        }
    }
}

// A get puts an item on the server through the warm side, or adds what that side hits to the cold one.
#[cycle(stores_at)]
fn refills(cold: Seen, warm: Seen, server: ServerId) -> bool
    ensures { result ≡ refills server (plan_of cold.entry) (plan_of warm.entry) }
{
    stores_at(warm, Op::Get, server)
        || (possible_at(warm, Op::Get, server).hits && stores_at(cold, Op::Add, server))
}

// Some child.
#[cycle(stores_at)]
fn some_store(children: SeenAll, op: Op, server: ServerId) -> bool
    ensures { result ≡ stores_some op server (all_plans_of children.entry) }
{
    match children.parted() {
        Some(parts) => { stores_at(parts.first, op, server) || some_store(parts.rest, op, server) }
        None => false,
    }
}

// Children up to one that doesn't fail.
#[cycle(stores_at)]
fn first_store(children: SeenAll, op: Op, server: ServerId) -> bool
    ensures { result ≡ may_store_first op server (all_plans_of children.entry) }
{
    match children.parted() {
        Some(parts) => {
            stores_at(parts.first, op, server)
                || (possible_at(parts.first, op, server).fails
                    && first_store(parts.rest, op, server))
        }
        None => false,
    }
}

// The first child alone.
#[cycle(stores_at)]
fn head_stores(children: SeenAll, op: Op, server: ServerId) -> bool
    ensures { result ≡ stores_head op server (all_plans_of children.entry) }
{
    match children.parted() {
        Some(parts) => stores_at(parts.first, op, server),
        None => false,
    }
}
