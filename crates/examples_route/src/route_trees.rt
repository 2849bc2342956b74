//! Worked cases of plain trees. The hashes after them are FNV-1a's published values of `a` (e40c292c) and `b` (e70c2de5),
//! and that of `k6` (993d8254), by a second program.

use crate::trees::{place_of, tree_of};
use examples_tables::tellers::{Teller, all_told, halves};
use mc_types::{Key, ServerId};
use route_json::ConfigFault;
use route_tree::{Plain, PlainForm, Tree, TreeForm};
use std::alloc::{AllocError, Global};
use std::test::Fail;

fn table() -> &'static str {
    r#"# A key, and the server of the longest policy that begins it.
by_prefix: at a => Some(0)
by_prefix: at ac => Some(0)
by_prefix: at ab => Some(1)
by_prefix: at abc => Some(1)
by_prefix: at b => Some(2)
by_prefix: at place 0/1 ab => Some(1)
by_prefix: at place 0/1 => Some(2)
# A key, its hash modulo 6, and the servers of its slots, for a delete and for all else.
two_pools: slots at a => Some((11, 20))
two_pools: slots at place 4/6 => Some((11, 20))
two_pools: slots at b => Some((11, 21))
two_pools: slots at place 1/6 => Some((11, 21))
two_pools: slots at x{a}y => Some((11, 20))
two_pools: slots at place 4/6 => Some((11, 20))
two_pools: slots at k6 => Some((12, 20))
two_pools: slots at place 2/6 => Some((12, 20))
# A key with one server for all operations, and keys without: `k6` has one for a delete and another for all else.
server: at a => Some(7)
by_prefix: at k6 => Some(2)
null_for_others: at k6 => None
null_for_prefix: at a => None
two_pools: at k6 => None"#
}

// The route of this name: of `two_pools` deletes go to a pool of three servers, 10 to 12, all else to one of two, 20 and 21.
fn route_of(name: &str) -> &'static str {
    match name {
        "by_prefix" =>
            r#"{"type":"PrefixSelectorRoute","policies":{"a":"PoolRoute|s0","ab":"PoolRoute|s1"},"wildcard":"PoolRoute|s2"}"#,
        "two_pools" =>
            r#"{"type":"OperationSelectorRoute","operation_policies":{"delete":"PoolRoute|s10-s12"},"default_policy":"PoolRoute|s20-s21"}"#,
        "null_for_others" =>
            r#"{"type":"PrefixSelectorRoute","policies":{"a":"PoolRoute|s0"},"wildcard":"NullRoute"}"#,
        "null_for_prefix" =>
            r#"{"type":"PrefixSelectorRoute","policies":{"a":"NullRoute"},"wildcard":"PoolRoute|s0"}"#,
        _ => "",
    }
}

// The tree of this name: server 7 itself, or that of its route.
fn tree_named(alloc: Global, name: &str) -> Result<Tree, ConfigFault> {
    if name == "server" {
        return Ok(Tree::new(alloc, TreeForm::Server(ServerId::new(7)))?);
    }
    tree_of(alloc, route_of(name))
}

// The plain tree of a key, or of a place.
fn plain_of(alloc: Global, tree: &Tree, text: &str) -> Result<Option<Plain>, AllocError> {
    if let Some(place) = text.strip_prefix("place ") {
        return Ok(Some(tree.at_place(alloc, &place_of(place))?));
    }
    match Key::read(text.as_bytes()) {
        Ok(key) => Ok(Some(tree.at(alloc, &key)?)),
        Err(_) => Ok(None),
    }
}

// The server that the plain tree is, if it is one.
fn server_of(plain: &Plain) -> Option<u32> {
    match plain.form() {
        PlainForm::Server(server) => Some(server.number()),
        _ => None,
    }
}

// The servers of a delete and of all else.
fn two_servers(plain: &Plain) -> Option<(u32, u32)> {
    match plain.form() {
        PlainForm::ByOperation { policies, default } => {
            let (_, delete) = policies.first()?;
            Some((server_of(delete)?, server_of(default)?))
        }
        _ => None,
    }
}

fn plain_told(alloc: Global, plain: &Plain, what: &str) -> Result<String, AllocError> {
    match what {
        "" => format!(in alloc; "{:?}", server_of(plain)),
        _ => format!(in alloc; "{:?}", two_servers(plain)),
    }
}

fn told_at(alloc: Global, tree: &Tree, what: &str, text: &str) -> Result<String, AllocError> {
    match plain_of(alloc, tree, text)? {
        Some(plain) => plain_told(alloc, &plain, what),
        None => "no key".to_string(alloc),
    }
}

fn told_on(alloc: Global, tree: &Tree, question: &str) -> Result<String, AllocError> {
    if let Some(text) = question.strip_prefix("at ") {
        return told_at(alloc, tree, "", text);
    }
    let (what, text) = halves(question, " at ");
    told_at(alloc, tree, what, text)
}

struct OfPlainTrees;

impl Teller for OfPlainTrees {
    fn told(alloc: Global, example: &str) -> Result<String, AllocError> {
        let (name, question) = halves(example, ": ");
        match tree_named(alloc, name) {
            Ok(tree) => told_on(alloc, &tree, question),
            Err(fault) => fault.to_string(alloc),
        }
    }
}

#[test]
fn plain_trees(rt: HostRuntime) -> Result<(), Fail> {
    all_told::<OfPlainTrees>(rt.alloc(), table())
}
