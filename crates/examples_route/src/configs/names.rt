//! Names of routes, fields and operations.

use examples_tables::tellers::{Teller, all_told, halves};
use mc_types::Op;
use route_json::names::{Holder, Kind, Lists, is_field, kind_of, op_of, rest_after};
use std::alloc::{AllocError, Global};
use std::test::Fail;

fn table() -> &'static str {
    r#"# Each operation has its name in the classic dialect.
operation get => Get
operation gat => Gat
operation set => Set
operation add => Add
operation replace => Replace
operation append => Append
operation prepend => Prepend
operation cas => Cas
operation delete => Delete
operation incr => Incr
operation decr => Decr
operation touch => Touch
operation gets => none
operation GET => none
kind WarmUpRoute => WarmUp
kind MissFailoverRoute => MissFailover
kind PoolRoute|A => none
configuration route => a field
configuration routes => no field
WarmUpRoute exptime => a field
NullRoute pool => no field
# What comes after `PoolRoute|`.
rest_after PoolRoute|A => Some("A")
rest_after PoolRoute| => Some("")
rest_after PoolRoute => None"#
}

struct OfNames;

impl Teller for OfNames {
    fn told(alloc: Global, example: &str) -> Result<String, AllocError> {
        let (front, name) = halves(example, " ");
        match front {
            "operation" => op_word(op_of(name)).to_string(alloc),
            "kind" => kind_word(kind_of(name)).to_string(alloc),
            "configuration" => field_word(is_field(Holder::Config, name)).to_string(alloc),
            "rest_after" => format!(in alloc; "{:?}", rest_after("PoolRoute|", name)),
            _ => route_field(front, name).to_string(alloc),
        }
    }
}

fn route_field(route: &str, name: &str) -> &'static str {
    match kind_of(route) {
        Some(kind) => field_word(is_field(Holder::Route(kind), name)),
        None => "no kind",
    }
}

fn field_word(is_one: bool) -> &'static str {
    if is_one { "a field" } else { "no field" }
}

fn op_word(op: Option<Op>) -> &'static str {
    match op {
        None => "none",
        Some(Op::Get) => "Get",
        Some(Op::Gat) => "Gat",
        Some(Op::Set) => "Set",
        Some(Op::Add) => "Add",
        Some(Op::Replace) => "Replace",
        Some(Op::Append) => "Append",
        Some(Op::Prepend) => "Prepend",
        Some(Op::Cas) => "Cas",
        Some(Op::Delete) => "Delete",
        Some(Op::Incr) => "Incr",
        Some(Op::Decr) => "Decr",
        Some(Op::Touch) => "Touch",
    }
}

fn kind_word(kind: Option<Kind>) -> &'static str {
    match kind {
        None => "none",
        Some(Kind::WarmUp) => "WarmUp",
        Some(Kind::List(Lists::MissFailover)) => "MissFailover",
        Some(_) => "another",
    }
}

#[test]
fn names(rt: HostRuntime) -> Result<(), Fail> {
    all_told::<OfNames>(rt.alloc(), table())
}
