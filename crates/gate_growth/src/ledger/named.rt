//! The servers that a tree names at a place.

ghost use Rattle.std.specs.Prelude.{◌≡◌, ◌++◌, IfOk};
ghost use Rattle.route_tree.specs.At.{plain_for, plain_for_all, plain_for_policies};
ghost use Rattle.route_tree.specs.Form.{routes_of, policies_of};
ghost use Rattle.route_tree.specs.Servers.{servers, servers_of_all, servers_of_policies};

use mc_types::{Op, ServerId};
use route_tree::at::longest;
use route_tree::{Tree, TreeForm};
use std::alloc::AllocError;

/// Adds the servers of what the tree is for the hash and the text. The only error is that memory was refused.
#[cycle(named)]
pub fn add_servers(
    tree: &Tree,
    hash: u32,
    text: &[u8],
    list: &mut Vec<ServerId>,
) -> Result<(), AllocError>
    ensures { IfOk result (λ _. list.new.items ≡ list.old.items ++ servers (plain_for hash text.now tree.now)) }
{
    match tree.form() {
        TreeForm::Pool(servers) => list.push(servers[hash as usize % servers.len()])?,
        TreeForm::Server(server) => list.push(*server)?,
        TreeForm::Null | TreeForm::Error => {}
        TreeForm::AllSync(children) => add_servers_of_all(children, hash, text, list)?,
        TreeForm::Failover(children) => add_servers_of_all(children, hash, text, list)?,
        TreeForm::MissFailover(children) => add_servers_of_all(children, hash, text, list)?,
        TreeForm::WarmUp { cold, warm, .. } => {
            add_servers(cold, hash, text, list)?;
            add_servers(warm, hash, text, list)?;
        }
        TreeForm::ByOperation { policies, default } => {
            add_servers_of_policies(policies, default, hash, text, list)?
        }
        TreeForm::ByPrefix { policies, wildcard } => {
            return add_servers(longest(policies, wildcard, text), hash, text, list);
        }
    }
    Ok(())
}

#[cycle(named)]
fn add_servers_of_all(
    children: &[Tree],
    hash: u32,
    text: &[u8],
    list: &mut Vec<ServerId>,
) -> Result<(), AllocError>
    ensures { IfOk result (λ _. list.new.items ≡ list.old.items ++ servers_of_all (plain_for_all hash text.now (routes_of children.now))) }
{
    match children {
        [] => Ok(()),
        [first, rest @ ..] => {
            add_servers(first, hash, text, list)?;
            add_servers_of_all(rest, hash, text, list)
        }
    }
}

#[cycle(named)]
fn add_servers_of_policies(
    policies: &[(Op, Tree)],
    default: &Tree,
    hash: u32,
    text: &[u8],
    list: &mut Vec<ServerId>,
) -> Result<(), AllocError>
    ensures { IfOk result (λ _. list.new.items ≡ list.old.items ++ servers_of_policies (plain_for_policies hash text.now (policies_of policies.now default.now))) }
{
    match policies {
        [] => add_servers(default, hash, text, list),
        [(_, child), rest @ ..] => {
            add_servers(child, hash, text, list)?;
            add_servers_of_policies(rest, default, hash, text, list)
        }
    }
}
