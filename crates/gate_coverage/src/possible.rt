//! What can come of an operation at a plain tree, wherever it stands: the one recursion by which it is computed.

ghost use Rattle.std.specs.Prelude.{◌≡◌, ◌||◌, ◌&&◌};
ghost use Rattle.mc_types.specs.declared.ask.Op.TheVariants.{Add};
ghost use Rattle.route_tree.specs.Form.{routes_of};
ghost use Rattle.route_tree.specs.At.{plain_for, plain_for_all};
ghost use Rattle.gate_coverage.specs.Computed.{adds, kept, kept_each, kept_first, kept_head, can_fail, fails_some, fails_each, fails_last, fails_head, hits, hits_each, hits_first, hits_some, hits_head, shown, shown_each, shown_first, shown_some, shown_head, copied, copied_some, copied_first, copied_head};
ghost use Rattle.gate_coverage.specs.Asked.{asks, asks_some, asks_first, asks_head};
ghost use Rattle.gate_coverage.specs.Seen.{plan_of, all_plans_of};

use crate::seen::{At, Seen, SeenAll, SeenForm};
use crate::stores::is_op;
use mc_types::{Op, ServerId};
use route_tree::Tree;

/// What can come of an operation at a plain tree, and of it at one server.
#[derive(Clone, Copy)]
pub struct Possible {
    /// The reply can be the error of a server or a call.
    pub fails: bool,
    /// The reply can be a hit, or that it was done.
    pub hits: bool,
    /// The reply can be an item of the server.
    pub shows: bool,
    /// A get can copy an item of the server to another one.
    pub copies: bool,
    /// A server can be asked; this says nothing of a get.
    pub asks: bool,
    /// A delete can be acknowledged with the server not cleared; this says nothing of another operation.
    pub keeps: bool,
}

// A reply without a call.
const SILENT: Possible = Possible {
    fails: false,
    hits: false,
    shows: false,
    copies: false,
    asks: false,
    keeps: true,
};

/// What can come of the operation at the plain tree. It takes no memory.
#[cycle(possible_at)]
pub fn possible_at(seen: Seen, op: Op, server: ServerId) -> Possible
    ensures fails { result.fails ≡ can_fail op (plan_of seen.entry) }
    ensures hits { result.hits ≡ hits op (plan_of seen.entry) }
    ensures shows { result.shows ≡ shown op server (plan_of seen.entry) }
    ensures copies { result.copies ≡ copied op server (plan_of seen.entry) }
    ensures asks { result.asks ≡ asks op (plan_of seen.entry) }
    ensures keeps { result.keeps ≡ kept op server (plan_of seen.entry) }
{
    match seen.form(op) {
        SeenForm::Server(other) => Possible {
            fails: true,
            hits: true,
            shows: other.number() == server.number(),
            copies: false,
            asks: true,
            keeps: other.number() != server.number(),
        },
        SeenForm::Null => SILENT,
        SeenForm::Error => Possible {
            fails: true,
            keeps: false,
            ..SILENT
        },
        SeenForm::AllSync(children) => possible_each(children, op, server),
        SeenForm::Failover(children) => possible_first(children, op, server),
        SeenForm::MissFailover(children) => {
            if is_op(op, Op::Get) {
                possible_some(children, op, server)
            } else {
                possible_head(children, op, server)
            }
        }
        SeenForm::WarmUp { cold, warm } => {
            let a = possible_at(cold, op, server);
            if is_op(op, Op::Get) {
                let b = possible_at(warm, op, server);
                warmed(a, b, possible_at(cold, Op::Add, server).asks)
            } else {
                a
            }
        }
    }
}

// A get through a cold and a warm side.
fn warmed(cold: Possible, warm: Possible, adds: bool) -> Possible
    ensures { result ≡ record { fails = cold.fails; hits = cold.hits || warm.hits; shows = cold.shows || warm.shows; copies = cold.copies || (warm.copies || (warm.shows && adds)); asks = cold.asks; keeps = cold.keeps } }
{
    Possible {
        fails: cold.fails,
        hits: cold.hits || warm.hits,
        shows: cold.shows || warm.shows,
        copies: cold.copies || (warm.copies || (warm.shows && adds)),
        asks: cold.asks,
        keeps: cold.keeps,
    }
}

/// What can come of the operation at all children: of equal ranks the first is the reply. It takes no memory.
#[cycle(possible_at)]
pub fn possible_each(children: SeenAll, op: Op, server: ServerId) -> Possible
    ensures fails { result.fails ≡ fails_some op (all_plans_of children.entry) }
    ensures hits { result.hits ≡ hits_each op (all_plans_of children.entry) }
    ensures shows { result.shows ≡ shown_each op server (all_plans_of children.entry) }
    ensures copies { result.copies ≡ copied_some op server (all_plans_of children.entry) }
    ensures asks { result.asks ≡ asks_some op (all_plans_of children.entry) }
    ensures keeps { result.keeps ≡ kept_each op server (all_plans_of children.entry) }
{
    match children.parted() {
        Some(parts) => {
            let a = possible_at(parts.first, op, server);
            let b = possible_each(parts.rest, op, server);
            Possible {
                fails: a.fails || b.fails,
                hits: a.hits && b.hits,
                shows: a.shows && b.hits,
                copies: a.copies || b.copies,
                asks: a.asks || b.asks,
                keeps: a.keeps && b.keeps,
            }
        }
        None => Possible {
            hits: true,
            ..SILENT
        },
    }
}

// What can come of the operation at children up to one that doesn't fail.
#[cycle(possible_at)]
fn possible_first(children: SeenAll, op: Op, server: ServerId) -> Possible
    ensures fails { result.fails ≡ fails_each op (all_plans_of children.entry) }
    ensures hits { result.hits ≡ hits_first op (all_plans_of children.entry) }
    ensures shows { result.shows ≡ shown_first op server (all_plans_of children.entry) }
    ensures copies { result.copies ≡ copied_first op server (all_plans_of children.entry) }
    ensures asks { result.asks ≡ asks_first op (all_plans_of children.entry) }
    ensures keeps { result.keeps ≡ kept_first op server (all_plans_of children.entry) }
{
    match children.parted() {
        Some(parts) => {
            let a = possible_at(parts.first, op, server);
            let b = possible_first(parts.rest, op, server);
            Possible {
                fails: a.fails && b.fails,
                hits: a.hits || (a.fails && b.hits),
                shows: a.shows || (a.fails && b.shows),
                copies: a.copies || (a.fails && b.copies),
                asks: a.asks || (a.fails && b.asks),
                keeps: a.keeps || (a.fails && b.keeps),
            }
        }
        None => Possible {
            fails: true,
            keeps: false,
            ..SILENT
        },
    }
}

// What can come of the operation at children up to a hit.
#[cycle(possible_at)]
fn possible_some(children: SeenAll, op: Op, server: ServerId) -> Possible
    ensures fails { result.fails ≡ fails_last op (all_plans_of children.entry) }
    ensures hits { result.hits ≡ hits_some op (all_plans_of children.entry) }
    ensures shows { result.shows ≡ shown_some op server (all_plans_of children.entry) }
    ensures copies { result.copies ≡ copied_some op server (all_plans_of children.entry) }
    ensures asks { result.asks ≡ asks_some op (all_plans_of children.entry) }
    ensures keeps { result.keeps ≡ kept_head op server (all_plans_of children.entry) }
{
    match children.parted() {
        Some(parts) => {
            let a = possible_at(parts.first, op, server);
            let b = possible_some(parts.rest, op, server);
            let is_last = parts.rest.is_empty();
            Possible {
                fails: if is_last { a.fails } else { b.fails },
                hits: a.hits || b.hits,
                shows: a.shows || b.shows,
                copies: a.copies || b.copies,
                asks: a.asks || b.asks,
                keeps: a.keeps,
            }
        }
        None => Possible {
            keeps: false,
            ..SILENT
        },
    }
}

// What can come of the operation at the first child alone.
#[cycle(possible_at)]
fn possible_head(children: SeenAll, op: Op, server: ServerId) -> Possible
    ensures fails { result.fails ≡ fails_head op (all_plans_of children.entry) }
    ensures hits { result.hits ≡ hits_head op (all_plans_of children.entry) }
    ensures shows { result.shows ≡ shown_head op server (all_plans_of children.entry) }
    ensures copies { result.copies ≡ copied_head op server (all_plans_of children.entry) }
    ensures asks { result.asks ≡ asks_head op (all_plans_of children.entry) }
    ensures keeps { result.keeps ≡ kept_head op server (all_plans_of children.entry) }
{
    match children.parted() {
        Some(parts) => possible_at(parts.first, op, server),
        None => Possible {
            keeps: false,
            ..SILENT
        },
    }
}

// Of what hangs neither on the hash nor on a server, the hash and the server that are looked at.
const ANY_HASH: u32 = 0;

fn any_server() -> ServerId {
    ServerId::new(0)
}

/// Whether the operation can fail for the keys that the text begins: the same for each hash. It takes no memory.
pub fn fails_at(tree: &Tree, text: &[u8], op: Op) -> bool
    ensures { result ≡ can_fail op (plain_for 0 text.now tree.now) }
{
    let at = At {
        text,
        hash: ANY_HASH,
    };
    possible_at(Seen::Tree(tree, &at), op, any_server()).fails
}

/// Whether the operation can hit at each of the trees, for the keys that the text begins: the same for each hash. It takes
/// no memory.
pub fn hits_at_each(children: &[Tree], text: &[u8], op: Op) -> bool
    ensures { result ≡ hits_each op (plain_for_all 0 text.now (routes_of children.now)) }
{
    let at = At {
        text,
        hash: ANY_HASH,
    };
    possible_each(SeenAll::Trees(children, &at), op, any_server()).hits
}

/// Whether an add can ask a server for the keys that the text begins: the same for each hash. It takes no memory.
pub fn adds_at(tree: &Tree, text: &[u8]) -> bool
    ensures { result ≡ adds (plain_for 0 text.now tree.now) }
{
    let at = At {
        text,
        hash: ANY_HASH,
    };
    possible_at(Seen::Tree(tree, &at), Op::Add, any_server()).asks
}
