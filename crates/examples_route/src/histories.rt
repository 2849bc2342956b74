//! Worked lines of histories. What is read of them, and what is wrong with files, is said by rows
//! of `examples_rows`.

use examples_tables::tellers::{Teller, halves, number_of, wrong};
use gate_growth::ledger::Beginning;
use gate_history::laws::{histories_are_determined, written_is_read};
use gate_history::writing::write_line;
use std::alloc::{AllocError, Global};
use std::test::Fail;

// The number of a generation, how its new servers began, and the text of its configuration; the
// line that is written of it. The sums are FNV-1a of what follows the first comma, computed by
// another program; fields stand in the order of their names.
fn lines() -> &'static str {
    r#"1 any {"pools": {"0": {"servers": ["a:1", "b:1"], "slots": [0, 1, 0, 1]}}, "route": "PoolRoute|0"} => {"sum":2446510471,"generation":1,"new_servers":"any","config":{"pools":{"0":{"servers":["a:1","b:1"],"slots":[0,1,0,1]}},"route":"PoolRoute|0"}}
2 own {"pools": {"0": {"servers": ["a:1", "b:1", "c:1"], "slots": [0, 1, 2, 1]}}, "route": "PoolRoute|0"} => {"sum":2473861630,"generation":2,"new_servers":"own","config":{"pools":{"0":{"servers":["a:1","b:1","c:1"],"slots":[0,1,2,1]}},"route":"PoolRoute|0"}}
1 own {"pools": {"0": {"servers": ["a:1", "b:1"]}}, "route": "PoolRoute|0"} => {"sum":3250441306,"generation":1,"new_servers":"own","config":{"pools":{"0":{"servers":["a:1","b:1"]}},"route":"PoolRoute|0"}}
2 own {"pools": {"0": {"servers": ["a:1", "b:1"]}, "1": {"servers": ["c:1", "d:1"]}}, "route": {"type": "OperationSelectorRoute", "default_policy": "PoolRoute|0", "operation_policies": {"delete": {"type": "AllSyncRoute", "children": ["PoolRoute|0", "PoolRoute|1"]}}}} => {"sum":1859221698,"generation":2,"new_servers":"own","config":{"pools":{"0":{"servers":["a:1","b:1"]},"1":{"servers":["c:1","d:1"]}},"route":{"default_policy":"PoolRoute|0","operation_policies":{"delete":{"children":["PoolRoute|0","PoolRoute|1"],"type":"AllSyncRoute"}},"type":"OperationSelectorRoute"}}}
1 any {"pools": {"0": {"servers": ["a:1", "b:1"]}}, "route": "PoolRoute|0"} => {"sum":875914988,"generation":1,"new_servers":"any","config":{"pools":{"0":{"servers":["a:1","b:1"]}},"route":"PoolRoute|0"}}"#
}

fn beginning(word: &str) -> Beginning {
    match word {
        "own" => Beginning::Own,
        _ => Beginning::Any,
    }
}

struct OfLines;

impl Teller for OfLines {
    fn told(alloc: Global, example: &str) -> Result<String, AllocError> {
        let (number, rest) = halves(example, " ");
        let (word, text) = halves(rest, " ");
        match write_line(alloc, number_of(number), beginning(word), text) {
            Ok(line) => String::from_str(alloc, line.as_str().trim_end()),
            Err(_) => "no line".to_string(alloc),
        }
    }
}

#[test]
fn lines_of_histories(rt: HostRuntime) -> Result<(), Fail> {
    written_is_read();
    histories_are_determined();
    assert_eq!(rt; wrong::<OfLines>(rt.alloc(), lines())?.as_str(), "");
    Ok(())
}
