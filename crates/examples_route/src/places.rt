//! Worked trees: their places, what they take and clear, and the certificates that are proposed for them.

ghost use Rattle.std.specs.Prelude.{◌<◌, ◌≤◌, [], ◌∷◌};
ghost use Rattle.gate_check.specs.Tables.{IsTable, row_count, most_rows};

use crate::trees::{place_of, tree_of, tree_of_text};
use examples_tables::tellers::{
    Teller, all_told, halves, number_of, push_number, push_word, written_out,
};
use gate_check::places::proposing::propose_by;
use gate_check::places::{
    Certificate, ClassRows, PlaceFault, PlaceTable, Run, places, places_of_two,
};
use gate_coverage::{Deleting, cleared, taken};
use mc_types::{Key, ServerId};
use route_json::ConfigFault;
use route_json::names::op_of;
use route_tree::{Place, Plain, Tree};
use std::alloc::{AllocError, Global};
use std::test::Fail;

fn table() -> &'static str {
    r#"# Six places; at residue 2 a get takes server 0 and a delete clears server 2 alone.
two_and_three: modulus => 6
two_and_three: rows => 6
two_and_three: moduli => 6
two_and_three: taken by get at 2/6 among 0 1 => 0
two_and_three: taken by gat at 2/6 among 0 1 => 0
two_and_three: taken by incr at 2/6 among 0 1 => 0
two_and_three: taken by decr at 2/6 among 0 1 => 0
two_and_three: cleared by delete at 2/6 among 0 2 => 2
two_and_three: cleared by md at 2/6 among 0 2 => 2
# Neighbours differ, so there are as many runs as residues.
two_and_three: run 0 of class 0 => of 6 from 0: 0
two_and_three: run 3 of class 0 => of 6 from 3: 1
two_and_three: run 5 of class 0 => of 6 from 5: 1
# Twelve places in two classes, whose own moduli are 2 and 3.
by_prefix_d: modulus => 6
by_prefix_d: rows => 12
by_prefix_d: moduli => 2 3
by_prefix_d: classes => 2
by_prefix_d: run 0 of class 0 => of 2 from 0: 0
by_prefix_d: run 1 of class 0 => of 2 from 1: 1
by_prefix_d: run 0 of class 1 => of 3 from 0: 0
by_prefix_d: run 1 of class 1 => of 3 from 1: 1
by_prefix_d: run 2 of class 1 => of 3 from 2: 2
# 1,023 times 1,024 is too large. 512 and 512 have 512 places; of two hits the first is the reply, so each row has one server.
large: rows => too many places
large: classes => too many places
large: rows with small => too many places
small: rows => 512
small: run 0 of class 0 => of 512 from 0: 0
small: run 511 of class 0 => of 512 from 511: 511
# Three places, in byte order of their prefixes; a key's is that of the longest prefix that begins it.
by_prefixes: rows => 3
by_prefixes: prefix lengths => 0 1 2
by_prefixes: prefix length of b => 0
by_prefixes: prefix length of ac => 1
by_prefixes: prefix length of abc => 2
# A warm side that isn't the first child is no reply, but its item is copied to the cold one: server 2 is taken, 1 isn't.
warm_second: taken by get at 0/6 among 0 1 2 => 0 2
warm_second: taken by gat at 0/6 among 2 => none
warm_second: run 0 of class 0 => of 1 from 0: 0 2
# Where the cold side's add asks no server, nothing is copied: server 2 isn't taken.
no_add: taken by get at 0/6 among 0 2 => 0
no_add: run 0 of class 0 => of 1 from 0: 0"#
}

// The route of this name.
//
// Of `two_and_three` deletes go to a pool of three, all else to one of two; of `by_prefix_d` keys that begin with `d:` go to a pool
// of three. Of `warm_second` a get goes to both children, server 0 and a cold 1 with a warm 2; all else to the first of the copies'
// children. `no_add` is as that, but the cold side's add asks no server. Of `by_prefixes` keys that begin `a` go to server 0, those
// that begin `ab` to 1, the others to 0, and it has the longer prefix first.
fn route_of(name: &str) -> &'static str {
    match name {
        "two_and_three" =>
            r#"{"type":"OperationSelectorRoute","operation_policies":{"delete":"PoolRoute|s0-s2"},"default_policy":"PoolRoute|s0-s1"}"#,
        "by_prefix_d" =>
            r#"{"type":"PrefixSelectorRoute","policies":{"d:":"PoolRoute|s0-s2"},"wildcard":"PoolRoute|s0-s1"}"#,
        "by_prefixes" =>
            r#"{"type":"PrefixSelectorRoute","policies":{"ab":"PoolRoute|s1"},"wildcard":{"type":"PrefixSelectorRoute","policies":{"a":"PoolRoute|s0"},"wildcard":"PoolRoute|s0"}}"#,
        "warm_second" =>
            r#"{"type":"AllSyncRoute","children":["PoolRoute|s0",{"type":"WarmUpRoute","cold":"PoolRoute|s1","warm":"PoolRoute|s2"}]}"#,
        "no_add" =>
            r#"{"type":"AllSyncRoute","children":["PoolRoute|s0",{"type":"WarmUpRoute","cold":{"type":"OperationSelectorRoute","operation_policies":{"add":"NullRoute"},"default_policy":"PoolRoute|s1"},"warm":"PoolRoute|s2"}]}"#,
        _ => "",
    }
}

// All deletes and reads go to both pools.
fn large() -> &'static str {
    r#"{"pools":{"A":{"servers":[«1022 "a#:1",»"a:1"]},"B":{"servers":[«1023 "b#:1",»"b:1"]}},"route":{"type":"AllSyncRoute","children":["PoolRoute|A","PoolRoute|B"]}}"#
}

fn small() -> &'static str {
    r#"{"pools":{"A":{"servers":[«511 "a#:1",»"a:1"]},"B":{"servers":[«511 "b#:1",»"b:1"]}},"route":{"type":"AllSyncRoute","children":["PoolRoute|A","PoolRoute|B"]}}"#
}

fn tree_of_whole(alloc: Global, text: &str) -> Result<Tree, ConfigFault> {
    let whole = written_out(alloc, text)?;
    tree_of_text(alloc, whole.as_str())
}

// The tree of this name.
fn tree_named(alloc: Global, name: &str) -> Result<Tree, ConfigFault> {
    match name {
        "large" => tree_of_whole(alloc, large()),
        "small" => tree_of_whole(alloc, small()),
        _ => tree_of(alloc, route_of(name)),
    }
}

fn fault_word(fault: PlaceFault) -> &'static str {
    match fault {
        PlaceFault::TooManyPlaces => "too many places",
        PlaceFault::NoMemory => "no memory",
    }
}

// The length of the prefix of the place; 0 where there is none.
fn length_of(place: &Place) -> usize {
    match &place.prefix {
        Some(prefix) => prefix.as_bytes().len(),
        None => 0,
    }
}

fn moduli(alloc: Global, table: &PlaceTable) -> Result<String, AllocError> {
    let mut out = String::new(alloc);
    for class in &table.classes {
        push_number(&mut out, class.modulus)?;
    }
    Ok(out)
}

// The lengths of the prefixes of all rows.
fn prefix_lengths(alloc: Global, table: &PlaceTable) -> Result<String, AllocError>
    requires some { 0 < table.now.modulus }
    requires within { row_count table.now ≤ most_rows }
{
    let mut out = String::new(alloc);
    let rows = table.rows();
    for row in 0..rows {
        let length = length_of(&table.place(row)).to_string(alloc)?;
        push_word(&mut out, length.as_str())?;
    }
    Ok(out)
}

fn prefix_length(alloc: Global, table: &PlaceTable, text: &str) -> Result<String, AllocError>
    requires { 0 < table.now.modulus }
{
    match Key::read(text.as_bytes()) {
        Ok(key) => length_of(&table.of(&key)).to_string(alloc),
        Err(_) => "no key".to_string(alloc),
    }
}

fn told_of_table(alloc: Global, table: &PlaceTable, question: &str) -> Result<String, AllocError>
    requires some { 0 < table.now.modulus }
    requires within { row_count table.now ≤ most_rows }
{
    if let Some(text) = question.strip_prefix("prefix length of ") {
        return prefix_length(alloc, table, text);
    }
    match question {
        "modulus" => table.modulus.to_string(alloc),
        "moduli" => moduli(alloc, table),
        "prefix lengths" => prefix_lengths(alloc, table),
        _ => table.rows().to_string(alloc),
    }
}

fn told_of_places(alloc: Global, tree: &Tree, question: &str) -> Result<String, AllocError> {
    match places(alloc, tree) {
        Ok(table) => told_of_table(alloc, &table, question),
        Err(fault) => fault_word(fault).to_string(alloc),
    }
}

// The number of places of the tree and a small one together.
fn rows_with_small(alloc: Global, tree: &Tree) -> Result<String, AllocError> {
    match tree_of_whole(alloc, small()) {
        Ok(other) => match places_of_two(alloc, tree, &other) {
            Ok(table) => told_of_table(alloc, &table, "rows"),
            Err(fault) => fault_word(fault).to_string(alloc),
        },
        Err(fault) => fault.to_string(alloc),
    }
}

// The number of runs, the first residue of this one, and its servers.
fn told_of_run(alloc: Global, count: usize, run: &Run) -> Result<String, AllocError> {
    let mut out = String::new(alloc);
    write!(out, "of {count}")?;
    write!(out, " from {}:", run.first)?;
    for server in run.servers.as_slice() {
        push_number(&mut out, server.number())?;
    }
    Ok(out)
}

fn told_of_class(alloc: Global, class: &ClassRows, index: usize) -> Result<String, AllocError> {
    match class.runs.as_slice().get(index) {
        Some(run) => told_of_run(alloc, class.runs.len(), run),
        None => "no run".to_string(alloc),
    }
}

// What is told of the index, ` of class `, and the class.
fn told_of_runs(
    alloc: Global,
    certificate: &Certificate,
    text: &str,
) -> Result<String, AllocError> {
    let (index, class) = halves(text, " of class ");
    match certificate
        .classes
        .as_slice()
        .get(number_of(class) as usize)
    {
        Some(class) => told_of_class(alloc, class, number_of(index) as usize),
        None => "no class".to_string(alloc),
    }
}

// What is proposed for the tree, whose table of places this is: of a run, or else the number of classes.
fn told_of_proposed(
    alloc: Global,
    tree: &Tree,
    table: &PlaceTable,
    question: &str,
) -> Result<String, AllocError>
    requires { IsTable (tree.now ∷ []) table.now }
{
    let certificate = propose_by(alloc, tree, table)?;
    match question.strip_prefix("run ") {
        Some(text) => told_of_runs(alloc, &certificate, text),
        None => certificate.classes.len().to_string(alloc),
    }
}

fn told_of_certificate(alloc: Global, tree: &Tree, question: &str) -> Result<String, AllocError> {
    match places(alloc, tree) {
        Ok(table) => told_of_proposed(alloc, tree, &table, question),
        Err(fault) => fault_word(fault).to_string(alloc),
    }
}

// Whether the server is taken by the read, or cleared by the delete.
fn is_so(plain: &Plain, by: &str, server: ServerId) -> bool {
    match by {
        "cleared by delete" => cleared(plain, Deleting::Delete, server),
        "cleared by md" => cleared(plain, Deleting::Md, server),
        _ => match op_of(halves(by, "taken by ").1) {
            Some(op) => taken(plain, op, server),
            None => false,
        },
    }
}

// Those of the servers that the read takes, or the delete clears.
fn told_of_plain(
    alloc: Global,
    plain: &Plain,
    by: &str,
    servers: &str,
) -> Result<String, AllocError> {
    let mut out = String::new(alloc);
    for server in servers.split(' ') {
        if is_so(plain, by, ServerId::new(number_of(server))) {
            push_word(&mut out, server)?;
        }
    }
    if out.is_empty() {
        out.push_str("none")?;
    }
    Ok(out)
}

// By what, ` at `, the place, ` among `, and the servers.
fn told_at_place(alloc: Global, tree: &Tree, question: &str) -> Result<String, AllocError> {
    let (by, rest) = halves(question, " at ");
    let (place, servers) = halves(rest, " among ");
    let plain = tree.at_place(alloc, &place_of(place))?;
    told_of_plain(alloc, &plain, by, servers)
}

fn told_on(alloc: Global, tree: &Tree, question: &str) -> Result<String, AllocError> {
    match halves(question, " ").0 {
        "taken" | "cleared" => told_at_place(alloc, tree, question),
        "run" | "classes" => told_of_certificate(alloc, tree, question),
        _ => {
            if question == "rows with small" {
                rows_with_small(alloc, tree)
            } else {
                told_of_places(alloc, tree, question)
            }
        }
    }
}

struct OfPlaces;

impl Teller for OfPlaces {
    fn told(alloc: Global, example: &str) -> Result<String, AllocError> {
        let (name, question) = halves(example, ": ");
        match tree_named(alloc, name) {
            Ok(tree) => told_on(alloc, &tree, question),
            Err(fault) => fault.to_string(alloc),
        }
    }
}

#[test]
fn places_of_trees(rt: HostRuntime) -> Result<(), Fail> {
    all_told::<OfPlaces>(rt.alloc(), table())
}
