//! The servers that a plain tree names.

ghost use Rattle.std.specs.Prelude.{◌≡◌, ◌++◌, IfOk};
ghost use Rattle.route_tree.specs.Form.{plans_of, plan_policies_of};
ghost use Rattle.route_tree.specs.Servers.{servers, servers_of_all, servers_of_policies};

use mc_types::{Op, ServerId};
use route_tree::{Plain, PlainForm};
use std::alloc::AllocError;

/// Adds the servers of the plain tree, in its order. The only error is that memory was refused.
#[cycle(servers)]
pub fn add_servers(plain: &Plain, list: &mut Vec<ServerId>) -> Result<(), AllocError>
    ensures { IfOk result (λ _. list.new.items ≡ list.old.items ++ servers plain.now) }
{
    match plain.form() {
        PlainForm::Server(server) => list.push(*server)?,
        PlainForm::Null | PlainForm::Error => {}
        PlainForm::AllSync(children) => add_all(children, list)?,
        PlainForm::Failover(children) => add_all(children, list)?,
        PlainForm::MissFailover(children) => add_all(children, list)?,
        PlainForm::WarmUp { cold, warm, .. } => {
            add_servers(cold, list)?;
            add_servers(warm, list)?;
        }
        PlainForm::ByOperation { policies, default } => add_policies(policies, default, list)?,
    }
    Ok(())
}

#[cycle(servers)]
fn add_all(children: &[Plain], list: &mut Vec<ServerId>) -> Result<(), AllocError>
    ensures { IfOk result (λ _. list.new.items ≡ list.old.items ++ servers_of_all (plans_of children.now)) }
{
    match children {
        [] => Ok(()),
        [first, rest @ ..] => {
            add_servers(first, list)?;
            add_all(rest, list)
        }
    }
}

#[cycle(servers)]
fn add_policies(
    policies: &[(Op, Plain)],
    default: &Plain,
    list: &mut Vec<ServerId>,
) -> Result<(), AllocError>
    ensures { IfOk result (λ _. list.new.items ≡ list.old.items ++ servers_of_policies (plan_policies_of policies.now default.now)) }
{
    match policies {
        [] => add_servers(default, list),
        [(_, child), rest @ ..] => {
            add_servers(child, list)?;
            add_policies(rest, default, list)
        }
    }
}
