//! What is printed of a configuration that is accepted or refused, and of a text that is none.

ghost use Rattle.std.specs.Prelude.{[], ◌∷◌, ◌≡◌, ◌≤◌, IfOk, IfErr, IfSome, OnOk, All};
ghost use Rattle.std.specs.Io.KnownBytes.{Appends};
ghost use Rattle.gate_check.specs.Gate.{IsCertified, IsJudged};
ghost use Rattle.gate_check.specs.Tables.{IsTable};
ghost use Rattle.script_events.specs.Scripted.{scripted_of};
ghost use Rattle.script_events.specs.LineLaws.{HasWidths};
ghost use Rattle.mcgate_lines.specs.Verdict.{judged_line};
ghost use Rattle.mcgate_check.specs.Checking.{ChecksRefused, ChecksFound, ReasonHasLine, PrintsAccepted, PrintsRefused, IsFoundFor, TreeHasPlaces, run_lines};
ghost use Rattle.mcgate_lines.specs.Faults.{StopsUnwritten};

use crate::leaks::run::run_with;
use gate_check::Reason;
use gate_check::places::PlaceTable;
use mcgate_lines::status::{DONE, REFUSED, RunFault};
use mcgate_lines::verdict::{write_accepted, write_refusal};
use route_json::Config;
use route_tree::Tree;
use script_events::Script;
use script_events::text::lines::write_script;
use std::alloc::{AllocError, Global};
use std::io;
use std::io::Write;

// How many places the tree has, by its table.
fn place_count(tree: &Tree, table: &PlaceTable) -> u32
    requires { IsTable (tree.now ∷ []) table.now }
    ensures { TreeHasPlaces tree.now result }
{
    let _tree = tree;
    table.rows()
}

/// Writes that a tree is accepted, whose table this is, with the number of its places.
pub(crate) fn print_accepted_by<W: Write>(
    tree: &Tree,
    table: &PlaceTable,
    out: &mut W,
) -> Result<u8, RunFault>
    requires certified { IsCertified tree.now }
    requires table { IsTable (tree.now ∷ []) table.now }
    ensures ok { IfOk result (λ status. (status ≡ 0) × PrintsAccepted tree.now (W.contents out.old) (W.contents out.new)) }
    ensures err { IfErr result (StopsUnwritten (W.contents out.old) (W.contents out.new)) }
{
    write_accepted(place_count(tree, table), out)?;
    Ok(DONE)
}

/// Writes the line of a reason; where that is running out of memory, it is the error, and nothing was written.
pub(crate) fn print_reason<W: Write>(
    config: &Config,
    reason: &Reason,
    out: &mut W,
) -> Result<u8, RunFault>
    ensures ok { IfOk result (λ status. (status ≡ 1) × ReasonHasLine reason.now × Appends (W.contents out.old) (W.contents out.new) (judged_line config.now.servers reason.now)) }
    ensures err { IfErr result (StopsUnwritten (W.contents out.old) (W.contents out.new)) }
{
    match reason {
        Reason::NoMemory => Err(RunFault::NoMemory),
        told => {
            write_refusal(config.servers(), told, out)?;
            Ok(REFUSED)
        }
    }
}

/// Writes why a configuration is refused; where that is running out of memory, it is the error, and nothing was written.
pub fn print_refused<W: Write>(
    config: &Config,
    reason: &Reason,
    out: &mut W,
) -> Result<u8, RunFault>
    requires { IsJudged config.now.tree reason.now }
    ensures ok { IfOk result (λ status. (status ≡ 1) × PrintsRefused config.now (W.contents out.old) (W.contents out.new)) }
    ensures err { IfErr result (StopsUnwritten (W.contents out.old) (W.contents out.new)) }
{
    print_reason(config, reason, out)
}

/// The script that shows why a configuration is refused, if that is a gap that has one, by the table of its tree's places, if that was
/// made.
pub(crate) fn run_of(
    alloc: Global,
    config: &Config,
    table: Option<&PlaceTable>,
    reason: &Reason,
) -> Result<Option<Script>, AllocError>
    requires judged { IsJudged config.now.tree reason.now }
    requires table { IfSome table (λ table. IsTable (config.now.tree ∷ []) table.now) }
    ensures { IfOk result (IsFoundFor config.now reason.now) }
{
    match reason {
        Reason::Uncovered(gap) => run_with(alloc, config, table, gap),
        _ => Ok(None),
    }
}

// Writes the lines of a script, if there is one.
fn print_run<W: Write>(run: &Option<Script>, out: &mut W) -> io::Result<()>
    ensures lines { OnOk result (Appends (W.contents out.old) (W.contents out.new) (run_lines run.now)) }
    ensures widths { OnOk result (IfSome run.now (λ script. All (λ event. HasWidths (scripted_of event)) script.events.items)) }
{
    match run {
        Some(script) => write_script(script, out),
        None => Ok(()),
    }
}

/// Writes why a configuration is refused, and this script, which shows it.
pub(crate) fn print_found<W: Write>(
    config: &Config,
    reason: &Reason,
    run: &Option<Script>,
    out: &mut W,
) -> Result<u8, RunFault>
    requires judged { IsJudged config.now.tree reason.now }
    requires found { IsFoundFor config.now reason.now run.now }
    ensures ok { IfOk result (λ status. (status ≡ 1) × ChecksFound config.now reason.now run.now (W.contents out.old) (W.contents out.new)) }
    ensures err { IfErr result (StopsUnwritten (W.contents out.old) (W.contents out.new)) }
{
    let status = print_reason(config, reason, out)?;
    print_run(run, out)?;
    Ok(status)
}

/// Writes why a configuration is refused, and the script that shows it, by the table of its tree's places, if that was made.
pub(crate) fn check_refused_by<W: Write>(
    alloc: Global,
    config: &Config,
    table: Option<&PlaceTable>,
    reason: &Reason,
    out: &mut W,
) -> Result<u8, RunFault>
    requires judged { IsJudged config.now.tree reason.now }
    requires table { IfSome table (λ table. IsTable (config.now.tree ∷ []) table.now) }
    ensures ok { IfOk result (λ status. (status ≡ 1) × ChecksRefused config.now reason.now (W.contents out.old) (W.contents out.new)) }
    ensures err { IfErr result (StopsUnwritten (W.contents out.old) (W.contents out.new)) }
{
    let run = run_of(alloc, config, table, reason)?;
    print_found(config, reason, &run, out)
}

/// Writes why a configuration is refused, and the script that shows it. The script is looked for before that, so that nothing was
/// written where memory for it was refused.
pub fn check_refused<W: Write>(
    alloc: Global,
    config: &Config,
    reason: &Reason,
    out: &mut W,
) -> Result<u8, RunFault>
    requires { IsJudged config.now.tree reason.now }
    ensures ok { IfOk result (λ status. (status ≡ 1) × ChecksRefused config.now reason.now (W.contents out.old) (W.contents out.new)) }
    ensures err { IfErr result (StopsUnwritten (W.contents out.old) (W.contents out.new)) }
{
    check_refused_by(alloc, config, None, reason, out)
}
