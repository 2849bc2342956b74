//! The servers that a plain tree has for an operation.

ghost use Rattle.std.specs.Prelude.{◌≡◌, ◌++◌, IfOk};
ghost use Rattle.route_tree.specs.Form.{plans_of, plan_policies_of};
ghost use Rattle.mcgate_lines.specs.Asking.{servers_asked, asked_of_all, asked_of_head, servers_asked_by};

use gate_coverage::stores::is_op;
use mc_types::{Op, ServerId};
use route_tree::{Plain, PlainForm};
use std::alloc::AllocError;

/// Adds them, in the plain tree's order. The only error is running out of memory.
#[cycle(asked)]
pub fn add_asked(plain: &Plain, op: Op, list: &mut Vec<ServerId>) -> Result<(), AllocError>
    ensures { IfOk result (λ _. list.new.items ≡ list.old.items ++ servers_asked op plain.now) }
{
    match plain.form() {
        PlainForm::Server(server) => {
            list.push(*server)?;
            Ok(())
        }
        PlainForm::Null | PlainForm::Error => Ok(()),
        PlainForm::AllSync(children) => add_of_all(children, op, list),
        PlainForm::Failover(children) => add_of_all(children, op, list),
        PlainForm::MissFailover(children) => {
            if is_op(op, Op::Get) {
                add_of_all(children, op, list)
            } else {
                add_of_head(children, op, list)
            }
        }
        PlainForm::WarmUp { cold, warm, .. } => {
            if is_op(op, Op::Get) {
                add_asked(cold, op, list)?;
                add_asked(warm, op, list)
            } else {
                add_asked(cold, op, list)
            }
        }
        PlainForm::ByOperation { policies, default } => add_by(policies, default, op, list),
    }
}

#[cycle(asked)]
fn add_of_all(children: &[Plain], op: Op, list: &mut Vec<ServerId>) -> Result<(), AllocError>
    ensures { IfOk result (λ _. list.new.items ≡ list.old.items ++ asked_of_all op (plans_of children.now)) }
{
    match children {
        [] => Ok(()),
        [first, rest @ ..] => {
            add_asked(first, op, list)?;
            add_of_all(rest, op, list)
        }
    }
}

// The first child alone.
#[cycle(asked)]
fn add_of_head(children: &[Plain], op: Op, list: &mut Vec<ServerId>) -> Result<(), AllocError>
    ensures { IfOk result (λ _. list.new.items ≡ list.old.items ++ asked_of_head op (plans_of children.now)) }
{
    match children {
        [] => Ok(()),
        [first, ..] => add_asked(first, op, list),
    }
}

// The child of the operation, else the default.
#[cycle(asked)]
fn add_by(
    policies: &[(Op, Plain)],
    default: &Plain,
    op: Op,
    list: &mut Vec<ServerId>,
) -> Result<(), AllocError>
    ensures { IfOk result (λ _. list.new.items ≡ list.old.items ++ servers_asked_by op (plan_policies_of policies.now default.now)) }
{
    match policies {
        [] => add_asked(default, op, list),
        [(own, child), rest @ ..] => {
            if is_op(*own, op) {
                add_asked(child, op, list)
            } else {
                add_by(rest, default, op, list)
            }
        }
    }
}
