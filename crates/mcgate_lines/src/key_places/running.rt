//! A configuration's text, and where keys live in its tree.

ghost use Rattle.std.specs.Prelude.{◌≤◌, [], ◌∷◌, IfOk, IfErr, OnOk};
ghost use Rattle.serde_json.specs.Read.{read};
ghost use Rattle.gate_check.specs.Tables.{IsTable};
ghost use Rattle.mcgate_lines.specs.Faults.{IsNoOverrun};
ghost use Rattle.gate_gaps.specs.Pools.{named_pools_in};
ghost use Rattle.mcgate_lines.specs.Blocks.{WritesBlocks};
ghost use Rattle.mcgate_lines.specs.Finding.{FindsAt, FindsKeys};
ghost use Rattle.mcgate_lines.specs.LimitLines.{limits_value};

use crate::faults::print_fault;
use crate::key_places::limits::value_of;
use crate::key_places::writing::write_keys;
use crate::status::{DONE, REFUSED, answer_of};
use crate::{RunFault, write_refusal};
use gate_check::Reason;
use gate_check::places::{PlaceFault, PlaceTable, places};
use gate_gaps::read_pools;
use mc_types::Key;
use route_json::{Config, read_config};
use std::alloc::Global;
use std::io::Write;

// Writes where the keys live, with the pools that the text of the configuration names and the limits that they say.
fn write_found<W: Write>(
    alloc: Global,
    text: &str,
    config: &Config,
    table: &PlaceTable,
    keys: &[Key],
    out: &mut W,
) -> Result<(), RunFault>
    requires { IsTable (config.now.tree ∷ []) table.now }
    ensures ok { OnOk result (WritesBlocks config.now.servers (named_pools_in config.now.servers (read text.now)) (limits_value (read text.now)) config.now.tree keys.now (W.contents out.old) (W.contents out.new)) }
    ensures err { IfErr result IsNoOverrun }
{
    let pools = read_pools(alloc, text, config.servers())?;
    let value = value_of(alloc, text)?;
    write_keys(alloc, config, &pools, &value, table, keys, out)
}

// Writes where the keys live, unless the tree has too many places.
fn find_keys<W: Write>(
    alloc: Global,
    text: &str,
    config: &Config,
    keys: &[Key],
    out: &mut W,
) -> Result<u8, RunFault>
    ensures ok { IfOk result (FindsAt text.now config.now keys.now (W.contents out.old) (W.contents out.new)) }
    ensures err { IfErr result IsNoOverrun }
{
    match places(alloc, config.tree()) {
        Ok(table) => {
            write_found(alloc, text, config, &table, keys, out)?;
            Ok(DONE)
        }
        Err(PlaceFault::TooManyPlaces) => {
            write_refusal(config.servers(), &Reason::TooManyPlaces, out)?;
            Ok(REFUSED)
        }
        Err(PlaceFault::NoMemory) => Err(RunFault::NoMemory),
    }
}

// Writes where the keys live by a text's configuration, unless its tree has too many places, or why the text is none.
fn find_in_text<W: Write>(
    alloc: Global,
    text: &str,
    keys: &[Key],
    out: &mut W,
) -> Result<u8, RunFault>
    ensures ok { IfOk result (FindsKeys text.now keys.now (W.contents out.old) (W.contents out.new)) }
    ensures err { IfErr result IsNoOverrun }
{
    match read_config(alloc, text) {
        Ok(config) => find_keys(alloc, text, &config, keys, out),
        Err(fault) => print_fault(text, &fault, out),
    }
}

/// Writes where the keys live in the tree of a configuration: a block for each, as [`write_keys`] does; or that the tree has too
/// many places; or the first fault of a text that is no configuration.
///
/// The answer is the exit status of what was printed: `DONE`, `REFUSED` or `BAD_INPUT`; or else `NO_MEMORY` where memory was
/// refused, or `WRITER` where the output could not be written: then a part of the lines may have been.
///
/// Source: mcgate's own.
pub fn run_where<W: Write>(alloc: Global, text: &str, keys: &[Key], out: &mut W) -> u8
    ensures status { result ≤ 4 }
    ensures wrote { result ≤ 2 → FindsKeys text.now keys.now (W.contents out.old) (W.contents out.new) result }
{
    match find_in_text(alloc, text, keys, out) {
        Ok(status) => status,
        Err(fault) => answer_of(fault),
    }
}
