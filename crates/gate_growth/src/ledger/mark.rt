//! The marks of a server at a place, and when a tree may follow.

ghost use Rattle.std.specs.Prelude.{◌≡◌, ◌↔◌, ℕ, List, [], ◌∷◌, ◌++◌, Bool, length, IsTrue, MatchResult};
ghost use Rattle.route_tree.specs.Plan.{Plan};
ghost use Rattle.gate_coverage.specs.Seen.{plan_of};
ghost use Rattle.gate_growth.specs.Marks.{IsTaken, IsClear, IsMarkOf, MayStandAfter, IsRefusedFor};
ghost use Rattle.gate_growth.specs.Computed.{first_left, refusal, mark_after};

use crate::puts::puts;
use gate_coverage::laws::cleared_is_exact;
use gate_coverage::{Deleting, Seen, clears, takes};
use mc_types::{Op, ServerId};

/// What the trees so far may have left on a server at a place.
#[derive(Clone, Copy)]
pub struct Mark {
    /// It may hold an item: it may have held one before the first of them, or one of them puts items there.
    pub held: bool,
    /// The first of them, counted from 0, whose deletes may leave an item there.
    pub left: Option<u32>,
}

/// That of a server before any tree: an arbitrary one may hold anything.
pub fn new_mark(arbitrary: bool) -> Mark
    ensures { (server : ℕ) → IsMarkOf arbitrary [] server result }
{
    Mark {
        held: arbitrary,
        left: None,
    }
}

/// After one more tree, of this number, whether or not it may follow. It takes no memory.
pub fn after(mark: Mark, number: u32, seen: Seen, server: ServerId) -> Mark
    ensures { (arbitrary : Bool) (plans : List Plan) → length plans ≡ number → IsMarkOf arbitrary plans server mark → IsMarkOf arbitrary (plans ++ plan_of seen.entry ∷ []) server result }
{
    mark_after(mark, number, is_clear(seen, server), puts(seen, server))
}

/// After one more tree, of this number: or the first one whose deletes may leave what it takes, itself the last. It takes
/// no memory.
pub fn follow(mark: Mark, number: u32, seen: Seen, server: ServerId) -> Result<Mark, u32>
    ensures { (arbitrary : Bool) (plans : List Plan) → length plans ≡ number → IsMarkOf arbitrary plans server mark → MatchResult result (λ new. MayStandAfter arbitrary plans (plan_of seen.entry) server × IsMarkOf arbitrary (plans ++ plan_of seen.entry ∷ []) server new) (IsRefusedFor arbitrary plans (plan_of seen.entry) server) }
{
    let clear = is_clear(seen, server);
    match refusal(mark.left, number, is_taken(seen, server), clear) {
        Some(first) => Err(first),
        None => Ok(mark_after(mark, number, clear, puts(seen, server))),
    }
}

/// Whether some read takes the server. It takes no memory.
pub fn is_taken(seen: Seen, server: ServerId) -> bool
    ensures { IsTrue result ↔ IsTaken (plan_of seen.entry) server }
{
    if takes(seen, Op::Get, server) {
        true
    } else if takes(seen, Op::Gat, server) {
        true
    } else if takes(seen, Op::Incr, server) {
        true
    } else {
        takes(seen, Op::Decr, server)
    }
}

/// Whether each acknowledged delete, of either kind, has cleared the server: they clear the same. It takes no memory.
pub fn is_clear(seen: Seen, server: ServerId) -> bool
    ensures { IsTrue result ↔ IsClear (plan_of seen.entry) server }
{
    cleared_is_exact();
    seen.lawful();
    clears(seen, Deleting::Delete, server)
}

// The first that left it so far, else this one where it does.
fn first_left(left: Option<u32>, number: u32, leaves: bool) -> Option<u32>
    ensures { result ≡ first_left left number leaves }
{
    match left {
        Some(first) => Some(first),
        None => { if leaves { Some(number) } else { None } }
    }
}

// Where the tree takes the server: the first that left it, else the tree itself where it doesn't clear it.
fn refusal(left: Option<u32>, number: u32, taken: bool, clear: bool) -> Option<u32>
    ensures { result ≡ refusal left number taken clear }
{
    if taken {
        first_left(left, number, !clear)
    } else {
        None
    }
}

// What the tree puts there counts before what it clears.
fn mark_after(mark: Mark, number: u32, clear: bool, stored: bool) -> Mark
    ensures { result ≡ mark_after number clear stored mark }
{
    let held = mark.held || stored;
    Mark {
        held,
        left: first_left(mark.left, number, held && !clear),
    }
}
