//! Scripts that leak, for gaps.
ghost use Rattle.std.specs.Prelude.{◌≡◌, ◌≤◌, ◌↔◌, [], ◌∷◌, List, Some, None, true, false, map, length, MatchOption, IfOk, IfSome, IfNone, IsTrue, if◌then◌else◌};
ghost use Rattle.fresh_runs.specs.Log.{Scripted};
ghost use Rattle.route_tree.specs.Plan.{IsGoodPlan};
ghost use Rattle.route_tree.specs.At.{tree_at};
ghost use Rattle.gate_coverage.specs.Cover.{IsTaking};
ghost use Rattle.gate_check.specs.Tables.{IsTable};
ghost use Rattle.script_events.specs.Scripted.{scripted_of};
ghost use Rattle.mcgate_check.specs.Stepped.{is_stepped};
ghost use Rattle.route_json.specs.declared.addresses.servers.TheConstants.{MAX_SERVERS};
ghost use Rattle.script_events.specs.Servers.{AreNewServers};
ghost use Rattle.mcgate_check.specs.Tried.{IsFirstKeyTried};
ghost use Rattle.mcgate_check.specs.Failing.{failures_of};
ghost use Rattle.mcgate_check.specs.Refusals.{MayLack, IsShowing, IsRefusalRun, IsRealGap, IsLeakAnswer};

use crate::leaks::failures::{Failures, failures_at};
use crate::leaks::keys::key_at;
use crate::leaks::script::script_for;
use gate_check::Gap;
use gate_check::places::{PlaceFault, PlaceTable, places};
use mc_types::{Key, Op};
use route_json::Config;
use script_events::servers::ScriptServers;
use script_events::{DriveFault, Script, Transcript};
use script_run::drive_stepped;
use std::alloc::{AllocError, Global};

// Whether the replies to the operation show items.
fn is_read(op: Op) -> bool
    ensures { IsTrue result ↔ IsTaking op }
{
    match op {
        Op::Get | Op::Gat | Op::Incr | Op::Decr => true,
        _ => false,
    }
}

// New servers, one for each of the configuration's.
fn servers_for(alloc: Global, config: &Config) -> Result<ScriptServers, AllocError>
    ensures new { IfOk result (AreNewServers (length config.now.servers)) }
    ensures few { length config.now.servers ≤ MAX_SERVERS }
{
    let count = config.servers().len();
    ScriptServers::new(alloc, count as u32)
}

/// Whether the script can be driven over new servers of the configuration, and then shows an item that is older than a delete. The
/// only error is running out of memory.
pub fn is_stale(alloc: Global, config: &Config, script: &Script) -> Result<bool, AllocError>
    ensures { IfOk result (λ stale. stale ≡ true → IsShowing config.now (map scripted_of script.now.events.items)) }
{
    let mut servers = servers_for(alloc, config)?;
    let mut transcript = Transcript {
        shown: Vec::new(alloc),
    };
    let none = Vec::new(alloc);
    let mut marks = Vec::new(alloc);
    let driven = drive_stepped(
        alloc,
        config,
        &none,
        &[],
        &mut servers,
        script,
        &mut transcript,
        &mut marks,
    );
    match driven {
        Ok(report) => Ok(report.stale != 0),
        Err(DriveFault::NoMemory) => Err(AllocError),
        Err(DriveFault::BadEvent(_) | DriveFault::Spent) => Ok(false),
    }
}

// The script in which the computed calls fail.
fn computed_run(
    alloc: Global,
    config: &Config,
    gap: &Gap,
    key: &Key,
    failures: Failures,
) -> Result<Script, AllocError>
    requires taking { IsTaking gap.now.op }
    requires first { IsFirstKeyTried config.now.tree gap.now.place key.now }
    requires computed { failures_of gap.now.op gap.now.server (tree_at config.now.tree key.now) ≡ Some failures }
    requires good { IsGoodPlan (tree_at config.now.tree key.now) }
    ensures { IfOk result (λ script. IsRefusalRun config.now gap.now (map scripted_of script.events.items)) }
{
    let tree = config.tree();
    let _form = tree.form();
    script_for(alloc, gap.server, key, gap.op, failures)
}

fn only_if(stale: bool, script: Script) -> Option<Script>
    ensures { result ≡ (if stale then Some script else None) }
{
    if stale { Some(script) } else { None }
}

// The script in which no call fails, where it leaks.
fn driven_run(
    alloc: Global,
    config: &Config,
    gap: &Gap,
    key: &Key,
) -> Result<Option<Script>, AllocError>
    requires first { IsFirstKeyTried config.now.tree gap.now.place key.now }
    requires none { failures_of gap.now.op gap.now.server (tree_at config.now.tree key.now) ≡ None }
    ensures { IfOk result (λ found. IfSome found (λ script. IsRefusalRun config.now gap.now (map scripted_of script.events.items))) }
{
    let none = Failures { delete: 0, read: 0 };
    let script = script_for(alloc, gap.server, key, gap.op, none)?;
    let stale = is_stale(alloc, config, &script)?;
    Ok(only_if(stale, script))
}

// The script over this key.
fn run_over(
    alloc: Global,
    config: &Config,
    gap: &Gap,
    key: &Key,
) -> Result<Option<Script>, AllocError>
    requires taking { IsTaking gap.now.op }
    requires first { IsFirstKeyTried config.now.tree gap.now.place key.now }
    ensures { IfOk result (IsLeakAnswer config.now gap.now) }
{
    let tree = config.tree();
    let _form = tree.form();
    match failures_at(alloc, tree, key, gap.op, gap.server)? {
        Some(failures) => Ok(Some(computed_run(alloc, config, gap, key, failures)?)),
        None => driven_run(alloc, config, gap, key),
    }
}

// The script, by the tree's table.
fn run_by(
    alloc: Global,
    config: &Config,
    table: &PlaceTable,
    gap: &Gap,
) -> Result<Option<Script>, AllocError>
    requires { IsTable (config.now.tree ∷ []) table.now }
    ensures { IfOk result (IsLeakAnswer config.now gap.now) }
{
    if !is_read(gap.op) {
        return Ok(None);
    }
    match key_at(alloc, config.tree(), table, &gap.place)? {
        Some(key) => run_over(alloc, config, gap, &key),
        None => Ok(None),
    }
}

// The script, by a table that is made of the tree.
fn run_anew(alloc: Global, config: &Config, gap: &Gap) -> Result<Option<Script>, AllocError>
    ensures { IfOk result (IsLeakAnswer config.now gap.now) }
{
    match places(alloc, config.tree()) {
        Ok(table) => run_by(alloc, config, &table, gap),
        Err(PlaceFault::TooManyPlaces) => Ok(None),
        Err(PlaceFault::NoMemory) => Err(AllocError),
    }
}

/// The script of [`refusal_run`], by the table of the tree's places, or where that wasn't made by one that is made here.
pub(crate) fn run_with(
    alloc: Global,
    config: &Config,
    table: Option<&PlaceTable>,
    gap: &Gap,
) -> Result<Option<Script>, AllocError>
    requires { IfSome table (λ table. IsTable (config.now.tree ∷ []) table.now) }
    ensures { IfOk result (IsLeakAnswer config.now gap.now) }
{
    match table {
        Some(table) => run_by(alloc, config, table, gap),
        None => run_anew(alloc, config, gap),
    }
}

/// For a gap of the configuration's tree, a script that shows it: the gap's server holds `1` under a key at the gap's place, the
/// key is deleted, and a read of the gap's operation shows that item all the same. Some calls of the delete and of the read
/// may fail, not applied. Over the configuration's servers each event of the script can be, so `drive_stepped` refuses none, and none leaves
/// calls out or names one whose answer comes in part. The key is the first at the place
/// among the gap's prefix followed by `k0`, `k1`, .. `k65535`; the delete is the classic one, which leaves the server whenever the
/// delete of the meta dialect does.
///
/// `None` comes for a gap of the tree only where no key that is tried is at its place, or an all-sync or a warm-up stands in the
/// plain tree of the delete or of the read, children for other operations aside. The only error is running out of memory.
///
/// Source: mcgate's own.
pub fn refusal_run(alloc: Global, config: &Config, gap: &Gap) -> Result<Option<Script>, AllocError>
    ensures some { IfOk result (λ found. IfSome found (λ script. IsRefusalRun config.now gap.now (map scripted_of script.events.items))) }
    ensures whole { IfOk result (λ found. IfSome found (λ script. is_stepped (map scripted_of script.events.items) ≡ false)) }
    ensures none { IfOk result (λ found. IfNone found (IsRealGap config.now.tree gap.now → MayLack config.now.tree gap.now)) }
{
    run_with(alloc, config, None, gap)
}
