//! What is said of a configuration whose servers may hold something after another one.

use core_accepted::Beginning;
use gate_history::History;
use mcgate_ends::concern_lines::lines_of_concerns;
use route_json::read_config;
use std::alloc::Global;
use std::test::Fail;

const ONE: &str = r#"{"pools":{"A":{"servers":["a:1"]}},"route":"PoolRoute|A"}"#;

const TWO: &str = r#"{"pools":{"A":{"servers":["a:1","b:1"]}},"route":"PoolRoute|A"}"#;

// What is said of the change where the server may hold anything.
const CONCERNS: &str = "its reads may show what deletes left on 1 of 2 servers:
- server b:1 (pool A, place 2 of 2): generation=1 places=1 prefix= residue=1/2
to change: ";

// What is said of a configuration after another, line by line.
fn said_after(alloc: Global, old: &str, new: &str) -> Result<String, Fail> {
    let history = history_of(alloc, old)?;
    let mut all = String::new(alloc);
    for line in lines_of_concerns(alloc, &history, new, Beginning::Any)? {
        all.push_str(line.as_str())?;
        all.push_str("\n")?;
    }
    Ok(all)
}

// The history of one configuration.
fn history_of(alloc: Global, text: &str) -> Result<History, Fail> {
    let Ok(config) = read_config(alloc, text) else {
        return Err(Fail::from("no configuration"));
    };
    match History::new(alloc)?.with(alloc, config, Beginning::Any) {
        Ok(history) => Ok(history),
        Err(_) => Err(Fail::from("refused")),
    }
}

#[test]
fn servers_on_which_something_is_left(rt: HostRuntime) -> Result<(), Fail> {
    let said = said_after(rt.alloc(), ONE, TWO)?;
    assert!(rt; said.as_str().starts_with(CONCERNS), "{said}");
    assert_eq!(rt;
        said_after(rt.alloc(), TWO, TWO)?.as_str().lines().count(),
        6
    );
    Ok(())
}
