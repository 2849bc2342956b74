//! Trees of routes over servers 0 to 22, each of which has its number in its address.

use examples_tables::tellers::{between, halves, number_of, written_out};
use mc_types::Key;
use route_json::{ConfigFault, read_config};
use route_tree::{Place, Tree};
use std::alloc::Global;

// The pool of all servers has the first name, so that it numbers them.
fn pools() -> &'static str {
    r#"{"pools":{
"all":{"servers":["s0:1"«22 ,"s#:1"»]},
"s0":{"servers":["s0:1"]},
"s1":{"servers":["s1:1"]},
"s2":{"servers":["s2:1"]},
"s0-s1":{"servers":["s0:1","s1:1"]},
"s0-s2":{"servers":["s0:1","s1:1","s2:1"]},
"s1-s2":{"servers":["s1:1","s2:1"]},
"s5-s6":{"servers":["s5:1","s6:1"]},
"s10-s12":{"servers":["s10:1","s11:1","s12:1"]},
"s20-s21":{"servers":["s20:1","s21:1"]}},
"route":"#
}

/// The tree of a whole configuration.
pub fn tree_of_text(alloc: Global, text: &str) -> Result<Tree, ConfigFault> {
    let config = read_config(alloc, text)?;
    Ok(config.tree().copy()?)
}

/// The tree of the route.
pub fn tree_of(alloc: Global, route: &str) -> Result<Tree, ConfigFault> {
    let pools = written_out(alloc, pools())?;
    let text = between(alloc, pools.as_str(), route, "}")?;
    tree_of_text(alloc, text.as_str())
}

/// The place of this residue, `/`, its modulus, and its prefix after a space, if it has one.
pub fn place_of(text: &str) -> Place {
    let (numbers, prefix) = halves(text, " ");
    let (residue, modulus) = halves(numbers, "/");
    Place {
        prefix: Key::read(prefix.as_bytes()).ok(),
        residue: number_of(residue),
        modulus: number_of(modulus),
    }
}
