//! How many calls fail before the one that acknowledges a delete, or that shows an item.

ghost use Rattle.std.specs.Prelude.{◌≡◌, ◌≤◌, ◌<◌, ◌+◌, ◌^◌, ℕ, IfSome};
ghost use Rattle.mc_types.specs.declared.ask.Op.TheVariants.{Delete};
ghost use Rattle.route_tree.specs.Plan.{plan_count, plan_count_of_all, plan_count_of_policies};
ghost use Rattle.route_tree.specs.Form.{plans_of, plan_policies_of};
ghost use Rattle.route_tree.specs.declared.limits.TheConstants.{ROUTE_LIMIT};
ghost use Rattle.gate_coverage.specs.Computed.{asks_get, can_fail, fails_some, fails_each, fails_last, fails_head, fails_policy};
ghost use Rattle.gate_gaps.specs.Turns as turns;
ghost use Rattle.gate_gaps.specs.Turns.{tries, tries_all, tries_first, tries_head, tries_policy, acks, acks_first, acks_head, acks_policy, calls_before_found, finds_first, finds_some, finds_head, finds_policy};

use gate_coverage::stores::is_op;
use mc_types::{Op, ServerId};
use route_tree::{Plain, PlainForm};

// Where every call fails: how many there are, and whether the reply is an error.
#[derive(Clone, Copy)]
struct Tried {
    calls: u32,
    fails: bool,
}

#[cycle(trying)]
fn trying(plain: &Plain, op: Op) -> Tried
    ensures calls { result.calls ≡ tries op plain.now }
    ensures fails { result.fails ≡ can_fail op plain.now }
    ensures few { result.calls ≤ plan_count plain.now }
    ensures bound { plan_count plain.now ≤ ROUTE_LIMIT }
{
    match plain.form() {
        PlainForm::Server(_) => Tried {
            calls: 1,
            fails: true,
        },
        PlainForm::Null => Tried {
            calls: 0,
            fails: false,
        },
        PlainForm::Error => Tried {
            calls: 0,
            fails: true,
        },
        PlainForm::AllSync(children) => trying_some(children, op),
        PlainForm::Failover(children) => trying_first(children, op),
        PlainForm::MissFailover(children) => {
            if is_op(op, Op::Get) {
                trying_last(children, op)
            } else {
                trying_head(children, op)
            }
        }
        PlainForm::WarmUp { cold, warm, .. } => {
            let a = trying(cold, op);
            if is_op(op, Op::Get) {
                let b = trying(warm, op);
                Tried {
                    calls: a.calls + b.calls,
                    fails: a.fails,
                }
            } else {
                a
            }
        }
        PlainForm::ByOperation { policies, default } => trying_policy(policies, default, op),
    }
}

// What comes of all children, where every call fails.
#[cycle(trying)]
fn trying_some(children: &[Plain], op: Op) -> Tried
    requires { plan_count_of_all (plans_of children.now) ≤ ROUTE_LIMIT }
    ensures calls { result.calls ≡ tries_all op (plans_of children.now) }
    ensures fails { result.fails ≡ fails_some op (plans_of children.now) }
    ensures few { result.calls ≤ plan_count_of_all (plans_of children.now) }
{
    match children {
        [] => Tried {
            calls: 0,
            fails: false,
        },
        [first, rest @ ..] => {
            let a = trying(first, op);
            let b = trying_some(rest, op);
            Tried {
                calls: a.calls + b.calls,
                fails: a.fails || b.fails,
            }
        }
    }
}

// What comes of children up to one that doesn't fail, where every call fails.
#[cycle(trying)]
fn trying_first(children: &[Plain], op: Op) -> Tried
    requires { plan_count_of_all (plans_of children.now) ≤ ROUTE_LIMIT }
    ensures calls { result.calls ≡ tries_first op (plans_of children.now) }
    ensures fails { result.fails ≡ fails_each op (plans_of children.now) }
    ensures few { result.calls ≤ plan_count_of_all (plans_of children.now) }
{
    match children {
        [] => Tried {
            calls: 0,
            fails: true,
        },
        [first, rest @ ..] => {
            let a = trying(first, op);
            let b = trying_first(rest, op);
            if a.fails {
                Tried {
                    calls: a.calls + b.calls,
                    fails: b.fails,
                }
            } else {
                a
            }
        }
    }
}

// What comes of all children of a get that none of them hits, where every call fails.
#[cycle(trying)]
fn trying_last(children: &[Plain], op: Op) -> Tried
    requires { plan_count_of_all (plans_of children.now) ≤ ROUTE_LIMIT }
    ensures calls { result.calls ≡ tries_all op (plans_of children.now) }
    ensures fails { result.fails ≡ fails_last op (plans_of children.now) }
    ensures few { result.calls ≤ plan_count_of_all (plans_of children.now) }
{
    match children {
        [] => Tried {
            calls: 0,
            fails: false,
        },
        [first, rest @ ..] => {
            let a = trying(first, op);
            let b = trying_last(rest, op);
            let is_last = rest.is_empty();
            Tried {
                calls: a.calls + b.calls,
                fails: if is_last { a.fails } else { b.fails },
            }
        }
    }
}

// What comes of the first child alone, where every call fails.
#[cycle(trying)]
fn trying_head(children: &[Plain], op: Op) -> Tried
    requires { plan_count_of_all (plans_of children.now) ≤ ROUTE_LIMIT }
    ensures calls { result.calls ≡ tries_head op (plans_of children.now) }
    ensures fails { result.fails ≡ fails_head op (plans_of children.now) }
    ensures few { result.calls ≤ plan_count_of_all (plans_of children.now) }
{
    match children {
        [] => Tried {
            calls: 0,
            fails: false,
        },
        [first, ..] => trying(first, op),
    }
}

// What comes of the child of the operation, else of the default, where every call fails.
#[cycle(trying)]
fn trying_policy(policies: &[(Op, Plain)], default: &Plain, op: Op) -> Tried
    ensures calls { result.calls ≡ tries_policy op (plan_policies_of policies.now default.now) }
    ensures fails { result.fails ≡ fails_policy op (plan_policies_of policies.now default.now) }
    ensures few { result.calls ≤ plan_count_of_policies (plan_policies_of policies.now default.now) }
{
    match policies {
        [] => trying(default, op),
        [(own, child), rest @ ..] => {
            if is_op(*own, op) {
                trying(child, op)
            } else {
                trying_policy(rest, default, op)
            }
        }
    }
}

// The first that is there.
fn or_else(first: Option<u32>, other: Option<u32>) -> Option<u32>
    ensures { result ≡ turns.or_that first other }
{
    match first {
        Some(number) => Some(number),
        None => other,
    }
}

// The number counted after so many others, if there is one.
fn counted_after(before: u32, number: Option<u32>) -> Option<u32>
    requires { IfSome number (λ (n : ℕ). before + n < 2 ^ 32) }
    ensures { result ≡ turns.counted_after before number }
{
    match number {
        Some(number) => Some(before + number),
        None => None,
    }
}

/// How many calls of a delete fail before it is acknowledged with the server not cleared, where all but the one that
/// acknowledges it fail. It takes no memory.
#[cycle(acking)]
pub fn acknowledged_after(plain: &Plain, server: ServerId) -> Option<u32>
    ensures { result ≡ acks server plain.now }
{
    match plain.form() {
        PlainForm::Server(other) => {
            if other.number() == server.number() {
                None
            } else {
                Some(0)
            }
        }
        PlainForm::Null => Some(0),
        PlainForm::Error => None,
        PlainForm::AllSync(_) => None,
        PlainForm::Failover(children) => acking_first(children, server),
        PlainForm::MissFailover(children) => acking_head(children, server),
        PlainForm::WarmUp { cold, .. } => acknowledged_after(cold, server),
        PlainForm::ByOperation { policies, default } => acking_policy(policies, default, server),
    }
}

// How many calls of a delete that asks children up to one that doesn't fail do fail before it is acknowledged.
#[cycle(acking)]
fn acking_first(children: &[Plain], server: ServerId) -> Option<u32>
    requires { plan_count_of_all (plans_of children.now) ≤ ROUTE_LIMIT }
    ensures number { result ≡ acks_first server (plans_of children.now) }
    ensures bound { plan_count_of_all (plans_of children.now) ≤ ROUTE_LIMIT }
{
    match children {
        [] => None,
        [first, rest @ ..] => {
            let here = acknowledged_after(first, server);
            let tried = trying(first, Op::Delete);
            let there = acking_first(rest, server);
            let later = counted_after(tried.calls, there);
            or_else(here, if tried.fails { later } else { None })
        }
    }
}

// How many calls of a delete that asks the first child alone fail before it is acknowledged.
#[cycle(acking)]
fn acking_head(children: &[Plain], server: ServerId) -> Option<u32>
    ensures { result ≡ acks_head server (plans_of children.now) }
{
    match children {
        [] => None,
        [first, ..] => acknowledged_after(first, server),
    }
}

// How many calls of a delete fail at its child, else at the default, before it is acknowledged.
#[cycle(acking)]
fn acking_policy(policies: &[(Op, Plain)], default: &Plain, server: ServerId) -> Option<u32>
    ensures { result ≡ acks_policy server (plan_policies_of policies.now default.now) }
{
    match policies {
        [] => acknowledged_after(default, server),
        [(own, child), rest @ ..] => {
            if is_op(*own, Op::Delete) {
                acknowledged_after(child, server)
            } else {
                acking_policy(rest, default, server)
            }
        }
    }
}

/// How many calls of a read fail before it shows the server's item, where all others fail. It takes no memory.
#[cycle(finding)]
pub fn found_after(plain: &Plain, op: Op, server: ServerId) -> Option<u32>
    ensures { result ≡ calls_before_found op server plain.now }
{
    match plain.form() {
        PlainForm::Server(other) => {
            if other.number() == server.number() {
                Some(0)
            } else {
                None
            }
        }
        PlainForm::Null => None,
        PlainForm::Error => None,
        PlainForm::AllSync(_) => None,
        PlainForm::Failover(children) => finding_first(children, op, server),
        PlainForm::MissFailover(children) => {
            if is_op(op, Op::Get) {
                finding_some(children, op, server)
            } else {
                finding_head(children, op, server)
            }
        }
        PlainForm::WarmUp { cold, .. } => {
            if is_op(op, Op::Get) {
                None
            } else {
                found_after(cold, op, server)
            }
        }
        PlainForm::ByOperation { policies, default } => {
            finding_policy(policies, default, op, server)
        }
    }
}

// How many calls of a read that asks children up to one that doesn't fail do fail before it shows the server's item.
#[cycle(finding)]
fn finding_first(children: &[Plain], op: Op, server: ServerId) -> Option<u32>
    requires { plan_count_of_all (plans_of children.now) ≤ ROUTE_LIMIT }
    ensures number { result ≡ finds_first op server (plans_of children.now) }
    ensures bound { plan_count_of_all (plans_of children.now) ≤ ROUTE_LIMIT }
{
    match children {
        [] => None,
        [first, rest @ ..] => {
            let here = found_after(first, op, server);
            let tried = trying(first, op);
            let there = finding_first(rest, op, server);
            let later = counted_after(tried.calls, there);
            or_else(here, if tried.fails { later } else { None })
        }
    }
}

// How many calls of a read that asks children up to a hit fail before it shows the server's item.
#[cycle(finding)]
fn finding_some(children: &[Plain], op: Op, server: ServerId) -> Option<u32>
    requires { plan_count_of_all (plans_of children.now) ≤ ROUTE_LIMIT }
    ensures number { result ≡ finds_some op server (plans_of children.now) }
    ensures bound { plan_count_of_all (plans_of children.now) ≤ ROUTE_LIMIT }
{
    match children {
        [] => None,
        [first, rest @ ..] => {
            let here = found_after(first, op, server);
            let tried = trying(first, op);
            let there = finding_some(rest, op, server);
            let later = counted_after(tried.calls, there);
            or_else(here, later)
        }
    }
}

// How many calls of a read that asks the first child alone fail before it shows the server's item.
#[cycle(finding)]
fn finding_head(children: &[Plain], op: Op, server: ServerId) -> Option<u32>
    ensures { result ≡ finds_head op server (plans_of children.now) }
{
    match children {
        [] => None,
        [first, ..] => found_after(first, op, server),
    }
}

// How many calls of a read fail at its child, else at the default, before it shows the server's item.
#[cycle(finding)]
fn finding_policy(
    policies: &[(Op, Plain)],
    default: &Plain,
    op: Op,
    server: ServerId,
) -> Option<u32>
    ensures { result ≡ finds_policy op server (plan_policies_of policies.now default.now) }
{
    match policies {
        [] => found_after(default, op, server),
        [(own, child), rest @ ..] => {
            if is_op(*own, op) {
                found_after(child, op, server)
            } else {
                finding_policy(rest, default, op, server)
            }
        }
    }
}
