//! The sizes of a tree's pools and its prefixes, as lists.

ghost use Rattle.std.specs.Prelude.{◌≡◌, ◌++◌, IfOk};
ghost use Rattle.route_tree.specs.Form.{routes_of, policies_of, prefixes_of};
ghost use Rattle.route_tree.specs.Place.{sizes, sizes_of_all, sizes_of_policies, sizes_of_prefixes, prefixes, prefixes_of_all, prefixes_of_policies, prefixes_of_prefixes};
ghost use Rattle.gate_check.specs.Resolved.{resolved, resolved_all, resolved_policies};

use mc_types::{Key, Op};
use route_tree::at::longest;
use route_tree::{Tree, TreeForm};
use std::alloc::AllocError;

/// Adds the sizes of the tree's pools. The only error is that memory was refused.
#[cycle(sizes)]
pub fn add_sizes(tree: &Tree, list: &mut Vec<usize>) -> Result<(), AllocError>
    ensures { IfOk result (λ _. list.new.items ≡ list.old.items ++ sizes tree.now) }
{
    match tree.form() {
        TreeForm::Pool(servers) => list.push(servers.len())?,
        TreeForm::Server(_) | TreeForm::Null | TreeForm::Error => {}
        TreeForm::AllSync(children) => add_sizes_of_all(children, list)?,
        TreeForm::Failover(children) => add_sizes_of_all(children, list)?,
        TreeForm::MissFailover(children) => add_sizes_of_all(children, list)?,
        TreeForm::WarmUp { cold, warm, .. } => {
            add_sizes(cold, list)?;
            add_sizes(warm, list)?;
        }
        TreeForm::ByOperation { policies, default } => {
            add_sizes_of_policies(policies, default, list)?
        }
        TreeForm::ByPrefix { policies, wildcard } => {
            add_sizes_of_prefixes(policies, wildcard, list)?
        }
    }
    Ok(())
}

#[cycle(sizes)]
fn add_sizes_of_all(children: &[Tree], list: &mut Vec<usize>) -> Result<(), AllocError>
    ensures { IfOk result (λ _. list.new.items ≡ list.old.items ++ sizes_of_all (routes_of children.now)) }
{
    match children {
        [] => Ok(()),
        [first, rest @ ..] => {
            add_sizes(first, list)?;
            add_sizes_of_all(rest, list)
        }
    }
}

#[cycle(sizes)]
fn add_sizes_of_policies(
    policies: &[(Op, Tree)],
    default: &Tree,
    list: &mut Vec<usize>,
) -> Result<(), AllocError>
    ensures { IfOk result (λ _. list.new.items ≡ list.old.items ++ sizes_of_policies (policies_of policies.now default.now)) }
{
    match policies {
        [] => add_sizes(default, list),
        [(_, child), rest @ ..] => {
            add_sizes(child, list)?;
            add_sizes_of_policies(rest, default, list)
        }
    }
}

#[cycle(sizes)]
fn add_sizes_of_prefixes(
    policies: &[(Key, Tree)],
    wildcard: &Tree,
    list: &mut Vec<usize>,
) -> Result<(), AllocError>
    ensures { IfOk result (λ _. list.new.items ≡ list.old.items ++ sizes_of_prefixes (prefixes_of policies.now wildcard.now)) }
{
    match policies {
        [] => add_sizes(wildcard, list),
        [(_, child), rest @ ..] => {
            add_sizes(child, list)?;
            add_sizes_of_prefixes(rest, wildcard, list)
        }
    }
}

/// Adds the prefixes of the tree. The only error is that memory was refused.
#[cycle(prefixes)]
pub fn add_prefixes(tree: &Tree, list: &mut Vec<Key>) -> Result<(), AllocError>
    ensures { IfOk result (λ _. list.new.items ≡ list.old.items ++ prefixes tree.now) }
{
    match tree.form() {
        TreeForm::Pool(_) | TreeForm::Server(_) | TreeForm::Null | TreeForm::Error => {}
        TreeForm::AllSync(children) => add_prefixes_of_all(children, list)?,
        TreeForm::Failover(children) => add_prefixes_of_all(children, list)?,
        TreeForm::MissFailover(children) => add_prefixes_of_all(children, list)?,
        TreeForm::WarmUp { cold, warm, .. } => {
            add_prefixes(cold, list)?;
            add_prefixes(warm, list)?;
        }
        TreeForm::ByOperation { policies, default } => {
            add_prefixes_of_policies(policies, default, list)?
        }
        TreeForm::ByPrefix { policies, wildcard } => {
            add_prefixes_of_prefixes(policies, wildcard, list)?
        }
    }
    Ok(())
}

#[cycle(prefixes)]
fn add_prefixes_of_all(children: &[Tree], list: &mut Vec<Key>) -> Result<(), AllocError>
    ensures { IfOk result (λ _. list.new.items ≡ list.old.items ++ prefixes_of_all (routes_of children.now)) }
{
    match children {
        [] => Ok(()),
        [first, rest @ ..] => {
            add_prefixes(first, list)?;
            add_prefixes_of_all(rest, list)
        }
    }
}

#[cycle(prefixes)]
fn add_prefixes_of_policies(
    policies: &[(Op, Tree)],
    default: &Tree,
    list: &mut Vec<Key>,
) -> Result<(), AllocError>
    ensures { IfOk result (λ _. list.new.items ≡ list.old.items ++ prefixes_of_policies (policies_of policies.now default.now)) }
{
    match policies {
        [] => add_prefixes(default, list),
        [(_, child), rest @ ..] => {
            add_prefixes(child, list)?;
            add_prefixes_of_policies(rest, default, list)
        }
    }
}

#[cycle(prefixes)]
fn add_prefixes_of_prefixes(
    policies: &[(Key, Tree)],
    wildcard: &Tree,
    list: &mut Vec<Key>,
) -> Result<(), AllocError>
    ensures { IfOk result (λ _. list.new.items ≡ list.old.items ++ prefixes_of_prefixes (prefixes_of policies.now wildcard.now)) }
{
    match policies {
        [] => add_prefixes(wildcard, list),
        [(prefix, child), rest @ ..] => {
            list.push(*prefix)?;
            add_prefixes(child, list)?;
            add_prefixes_of_prefixes(rest, wildcard, list)
        }
    }
}

/// Adds the sizes of the pools that are left where the selectors by prefix are resolved for the text. The only error is
/// that memory was refused.
#[cycle(resolved)]
pub fn add_sizes_at(text: &[u8], tree: &Tree, list: &mut Vec<usize>) -> Result<(), AllocError>
    ensures { IfOk result (λ _. list.new.items ≡ list.old.items ++ sizes (resolved text.now tree.now)) }
{
    match tree.form() {
        TreeForm::Pool(servers) => list.push(servers.len())?,
        TreeForm::Server(_) | TreeForm::Null | TreeForm::Error => {}
        TreeForm::AllSync(children) => add_sizes_at_all(text, children, list)?,
        TreeForm::Failover(children) => add_sizes_at_all(text, children, list)?,
        TreeForm::MissFailover(children) => add_sizes_at_all(text, children, list)?,
        TreeForm::WarmUp { cold, warm, .. } => {
            add_sizes_at(text, cold, list)?;
            add_sizes_at(text, warm, list)?;
        }
        TreeForm::ByOperation { policies, default } => {
            add_sizes_at_policies(text, policies, default, list)?
        }
        TreeForm::ByPrefix { policies, wildcard } => {
            return add_sizes_at(text, longest(policies, wildcard, text), list);
        }
    }
    Ok(())
}

#[cycle(resolved)]
fn add_sizes_at_all(text: &[u8], children: &[Tree], list: &mut Vec<usize>) -> Result<(), AllocError>
    ensures { IfOk result (λ _. list.new.items ≡ list.old.items ++ sizes_of_all (resolved_all text.now (routes_of children.now))) }
{
    match children {
        [] => Ok(()),
        [first, rest @ ..] => {
            add_sizes_at(text, first, list)?;
            add_sizes_at_all(text, rest, list)
        }
    }
}

#[cycle(resolved)]
fn add_sizes_at_policies(
    text: &[u8],
    policies: &[(Op, Tree)],
    default: &Tree,
    list: &mut Vec<usize>,
) -> Result<(), AllocError>
    ensures { IfOk result (λ _. list.new.items ≡ list.old.items ++ sizes_of_policies (resolved_policies text.now (policies_of policies.now default.now))) }
{
    match policies {
        [] => add_sizes_at(text, default, list),
        [(_, child), rest @ ..] => {
            add_sizes_at(text, child, list)?;
            add_sizes_at_policies(text, rest, default, list)
        }
    }
}
