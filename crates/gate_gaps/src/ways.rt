//! The way through a plain tree by which a read reaches a server.
ghost use Rattle.std.specs.Prelude.{◌≡◌, ◌+◌, ◌<◌, ◌^◌, true, IfOk, length};
ghost use Rattle.route_tree.specs.Form.{plans_of, plan_policies_of};
ghost use Rattle.gate_coverage.specs.Computed.{takes_server};
ghost use Rattle.gate_gaps.specs.Ways.{AddsWay, AddsWayAmong, AddsWayBy, some_taken, policy_taken};

use gate_coverage::stores::is_op;
use gate_coverage::taking::is_taken;
use mc_types::{Op, ServerId};
use route_tree::{Plain, PlainForm};
use std::alloc::AllocError;

/// The routes that have their children in a list.
#[derive(Clone, Copy, PartialEq, Eq)]
pub enum Listed {
    AllSync,
    Failover,
    MissFailover,
}

/// From a route to one of its children.
#[derive(Clone, Copy)]
pub enum WayStep {
    /// The child of this index, from 0.
    Child(Listed, usize),
    Cold,
    Warm,
    /// The policy of this operation.
    Policy(Op),
    Default,
}

/// Adds the steps from the plain tree to the server: each to the first child that the read takes the server by. The only error
/// is running out of memory.
#[cycle(way)]
pub fn add_way(
    plain: &Plain,
    op: Op,
    server: ServerId,
    way: &mut Vec<WayStep>,
) -> Result<(), AllocError>
    requires { takes_server plain.now op server ≡ true }
    ensures { IfOk result (λ _. AddsWay op server plain.now way.old.items way.new.items) }
{
    match plain.form() {
        PlainForm::Server(_) => Ok(()),
        PlainForm::Null | PlainForm::Error => unreachable!(),
        PlainForm::AllSync(children) => {
            add_way_among(children, Listed::AllSync, 0, op, server, way)
        }
        PlainForm::Failover(children) => {
            add_way_among(children, Listed::Failover, 0, op, server, way)
        }
        PlainForm::MissFailover(children) => {
            add_way_among(children, Listed::MissFailover, 0, op, server, way)
        }
        PlainForm::WarmUp { cold, warm, .. } => {
            if is_taken(cold, op, server) {
                way.push(WayStep::Cold)?;
                add_way(cold, op, server, way)
            } else {
                way.push(WayStep::Warm)?;
                add_way(warm, op, server, way)
            }
        }
        PlainForm::ByOperation { policies, default } => {
            add_way_by(policies, default, op, server, way)
        }
    }
}

// Adds the steps by the first of the children by which the read takes the server; the first of these children has this index.
#[cycle(way)]
fn add_way_among(
    children: &[Plain],
    listed: Listed,
    index: usize,
    op: Op,
    server: ServerId,
    way: &mut Vec<WayStep>,
) -> Result<(), AllocError>
    requires some { some_taken op server (plans_of children.now) ≡ true }
    requires within { index + length children.now < 2 ^ 64 }
    ensures { IfOk result (λ _. AddsWayAmong op server listed index (plans_of children.now) way.old.items way.new.items) }
{
    match children {
        [] => unreachable!(),
        [first, rest @ ..] => {
            if is_taken(first, op, server) {
                way.push(WayStep::Child(listed, index))?;
                add_way(first, op, server, way)
            } else {
                add_way_among(rest, listed, index + 1, op, server, way)
            }
        }
    }
}

// Adds the steps by the child of the operation, else by the default.
#[cycle(way)]
fn add_way_by(
    policies: &[(Op, Plain)],
    default: &Plain,
    op: Op,
    server: ServerId,
    way: &mut Vec<WayStep>,
) -> Result<(), AllocError>
    requires { policy_taken op server (plan_policies_of policies.now default.now) ≡ true }
    ensures { IfOk result (λ _. AddsWayBy op server (plan_policies_of policies.now default.now) way.old.items way.new.items) }
{
    match policies {
        [] => {
            way.push(WayStep::Default)?;
            add_way(default, op, server, way)
        }
        [(own, child), rest @ ..] => {
            if is_op(*own, op) {
                way.push(WayStep::Policy(op))?;
                add_way(child, op, server, way)
            } else {
                add_way_by(rest, default, op, server, way)
            }
        }
    }
}
