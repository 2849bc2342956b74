//! Tells the steps from one configuration to another.

ghost use Rattle.std.specs.Prelude.{◌≡◌, ◌≤◌, ℕ, List, [], Some, IfOk, IfSome, IsTrue, MatchOption, string_bytes};
ghost use Rattle.serde_json.specs.Data.{depth};
ghost use Rattle.serde_json.specs.Read.{read, max_depth};
ghost use Rattle.serde_json.specs.View.{view};
ghost use Rattle.gate_history.specs.declared.generation.Generation.{Generation};
ghost use Rattle.gate_plan.specs.Steps.{MaySucceed, MayNotFollow, FollowsText, IsNoStep};
ghost use Rattle.gate_plan.specs.Plans.{MayEnd, GoesOnTo, LeadsThrough, IsUndoable, IsAnew, IsPlanned, IsNoFirst, IsPlanFrom};
ghost use Rattle.gate_growth.specs.declared.ledger.page.Beginning.{Beginning};

use crate::merging::{Answering, with_deletes_to_both};
use crate::steps::{StepFault, judge_text, step};
use gate_check::Gap;
use gate_coverage::prefixes::prefix_text;
use gate_growth::ledger::{Beginning, Unsound};
use gate_history::History;
use route_json::Config;
use serde_json::Value;
use std::alloc::Global;
use std::io;
use std::io::{ErrorKind, Write};
use text_words::escapes::Escaped;

/// What became of a plan.
#[derive(Clone, Copy, PartialEq, Eq)]
pub enum Planned {
    /// The new configuration may follow at once.
    AtOnce,
    /// It may, and by the steps that were told too.
    BySteps,
    /// It may not, but by the steps that were told, of which the first one begins anew.
    Anew,
    /// It may not follow.
    Refused,
    /// A text is no configuration.
    NoConfig,
}

// Writes the place of a gap, and ends the line.
fn write_place<W: Write>(gap: &Gap, out: &mut W) -> io::Result<()> {
    let prefix = Escaped(prefix_text(&gap.place.prefix));
    write!(out, " prefix={prefix}")?;
    let residue = gap.place.residue;
    let modulus = gap.place.modulus;
    writeln!(out, " residue={residue}/{modulus}")
}

// The error of refused memory.
fn out_of_memory() -> io::Error {
    io::Error::from(ErrorKind::OutOfMemory)
}

// Writes why a configuration may not follow.
fn write_unsound<W: Write>(config: &Config, unsound: &Unsound, out: &mut W) -> io::Result<()> {
    match unsound {
        Unsound::TooManyGenerations => writeln!(out, "refused: too many generations"),
        Unsound::TooManyPlaces => writeln!(out, "refused: too many places"),
        Unsound::Left(generation, gap) => {
            let address = Escaped(config.servers().get(gap.server).unwrap_or("").as_bytes());
            write!(out, "refused generation={generation} server={address}")?;
            write_place(gap, out)
        }
        Unsound::NoMemory => Err(out_of_memory()),
    }
}

// Writes why a text is no step.
fn write_fault<W: Write>(fault: &StepFault, out: &mut W) -> io::Result<()> {
    match fault {
        StepFault::Config(fault) => writeln!(out, "config: {fault}"),
        StepFault::Refused(config, unsound) => write_unsound(config, unsound, out),
        StepFault::NoMemory => Err(out_of_memory()),
    }
}

// Writes what comes of the text as the next generation, and answers the history with it, where it may follow.
fn write_verdict<W: Write>(
    alloc: Global,
    history: History,
    text: &str,
    began: Beginning,
    out: &mut W,
) -> io::Result<Option<History>>
    ensures { IfOk result (λ next. MatchOption next (Unit {0}) (FollowsText history text.now began)) }
{
    match step(alloc, history, text, began) {
        Ok(next) => {
            writeln!(out, "accepted")?;
            Ok(Some(next))
        }
        Err(fault) => {
            write_fault(&fault, out)?;
            Ok(None)
        }
    }
}

// Writes a step: what it is, what comes of it, and its JSON where it may follow.
fn write_step<W: Write>(
    alloc: Global,
    history: History,
    what: &str,
    text: &str,
    began: Beginning,
    out: &mut W,
) -> io::Result<Option<History>>
    ensures { IfOk result (λ next. MatchOption next (Unit {0}) (FollowsText history text.now began)) }
{
    write!(out, "{what}: ")?;
    let next = write_verdict(alloc, history, text, began, out)?;
    if next.is_some() {
        writeln!(out, "{text}")?;
    }
    Ok(next)
}

// The three texts of the way from one configuration to another.
#[derive(Drop)]
struct Way {
    old_to_both: String,
    new_to_both: String,
    new: String,
}

// Writes the last step, and answers whether it may follow.
fn write_third<W: Write>(
    alloc: Global,
    history: History,
    way: &Way,
    added: Beginning,
    out: &mut W,
) -> io::Result<bool>
    ensures { IfOk result (λ all. IsTrue all → MayEnd history (string_bytes way.now.new) added) }
{
    let what = "step 3, the new one";
    Ok(write_step(alloc, history, what, way.new.as_str(), added, out)?.is_some())
}

// Writes the second step and, where that may follow, the last one.
fn write_second<W: Write>(
    alloc: Global,
    history: History,
    way: &Way,
    added: Beginning,
    out: &mut W,
) -> io::Result<bool>
    ensures { IfOk result (λ all. IsTrue all → GoesOnTo history (string_bytes way.now.new) added) }
{
    let what = "step 2, the new one with deletes to both";
    match write_step(alloc, history, what, way.new_to_both.as_str(), added, out)? {
        Some(next) => write_third(alloc, next, way, added, out),
        None => Ok(false),
    }
}

// Writes the steps after the history up to the first that may not follow, and answers whether all may. The new servers of the first
// one began so, and those of the others so.
fn write_way<W: Write>(
    alloc: Global,
    history: History,
    way: &Way,
    opened: Beginning,
    added: Beginning,
    out: &mut W,
) -> io::Result<bool>
    ensures { IfOk result (λ all. IsTrue all → LeadsThrough history (string_bytes way.now.new) opened added) }
{
    let what = "step 1, the old one with deletes to both";
    match write_step(alloc, history, what, way.old_to_both.as_str(), opened, out)? {
        Some(next) => write_second(alloc, next, way, added, out),
        None => Ok(false),
    }
}

// Writes when each step may follow.
fn write_when<W: Write>(out: &mut W) -> io::Result<()> {
    writeln!(
        out,
        "# A step may follow once each mcgate before these servers has loaded the one before it."
    )?;
    writeln!(
        out,
        "# Between steps 1 and 2 one can go back and forth; stay at step 2 for as long as the change may be undone."
    )
}

// The way between two configurations.
fn way_of(alloc: Global, old: &str, new: &str) -> io::Result<Option<Way>>
    ensures { IfOk result (λ found. IfSome found (λ way. read (string_bytes way.new) ≡ read new.now)) }
{
    let Some(old) = value_of(alloc, old)? else {
        return Ok(None);
    };
    let Some(new) = value_of(alloc, new)? else {
        return Ok(None);
    };
    let old_to_both = with_deletes_to_both(alloc, &old, &new, Answering::Old)?;
    let new_to_both = with_deletes_to_both(alloc, &old, &new, Answering::New)?;
    let new = new.to_string(alloc)?;
    Ok(Some(Way {
        old_to_both,
        new_to_both,
        new,
    }))
}

// The JSON of a text.
fn value_of(alloc: Global, text: &str) -> io::Result<Option<Value>>
    ensures { IfOk result (λ found. IfSome found (λ value. (read text.now ≡ Some (view value)) × (depth (view value) ≤ max_depth))) }
{
    match Value::from_str(alloc, text) {
        Ok(value) => Ok(Some(value)),
        Err(error) if error.is_memory() => Err(out_of_memory()),
        Err(_) => Ok(None),
    }
}

// Writes the steps after the history, by which the change may be undone.
fn write_undoable<W: Write>(
    alloc: Global,
    history: History,
    way: &Way,
    added: Beginning,
    out: &mut W,
) -> io::Result<Planned>
    ensures { IfOk result (IsUndoable history (string_bytes way.now.new) added) }
{
    writeln!(out, "# Or so, if it is to be undone:")?;
    if write_way(alloc, history, way, added, added, out)? {
        write_when(out)?;
        Ok(Planned::BySteps)
    } else {
        Ok(Planned::AtOnce)
    }
}

// Writes the steps after none, where the change was refused.
fn write_anew<W: Write>(
    alloc: Global,
    way: &Way,
    added: Beginning,
    out: &mut W,
) -> io::Result<Planned>
    ensures { IfOk result (IsAnew (string_bytes way.now.new) added) }
{
    writeln!(
        out,
        "# No step after the trees so far helps. Stop every mcgate, empty all servers of both, and begin anew:"
    )?;
    if write_way(alloc, History::new(alloc)?, way, Beginning::Any, added, out)? {
        write_when(out)?;
        Ok(Planned::Anew)
    } else {
        Ok(Planned::Refused)
    }
}

// Writes the steps where the change may follow at once.
fn write_accepted<W: Write>(
    alloc: Global,
    history: History,
    old: &str,
    new: &str,
    added: Beginning,
    out: &mut W,
) -> io::Result<Planned>
    requires { MaySucceed history new.now added }
    ensures { IfOk result (IsPlanned history new.now added) }
{
    writeln!(out, "accepted")?;
    match way_of(alloc, old, new)? {
        None => Ok(Planned::AtOnce),
        Some(way) => write_undoable(alloc, history, &way, added, out),
    }
}

// Writes the steps where it may not.
fn write_refused<W: Write>(
    alloc: Global,
    old: &str,
    new: &str,
    added: Beginning,
    out: &mut W,
) -> io::Result<Planned>
    ensures { IfOk result (λ planned. (gs : List Generation) → MayNotFollow gs new.now added → IsPlanned gs new.now added planned) }
{
    match way_of(alloc, old, new)? {
        None => Ok(Planned::Refused),
        Some(way) => write_anew(alloc, &way, added, out),
    }
}

// Drops the history.
fn drop_history(_history: History) {}

// What is left to tell where the new one may not follow, for this reason, which was written.
fn write_other_way<W: Write>(
    alloc: Global,
    fault: &StepFault,
    old: &str,
    new: &str,
    added: Beginning,
    out: &mut W,
) -> io::Result<Planned>
    ensures { IfOk result (λ planned. (gs : List Generation) → IsNoStep gs new.now added fault.now → IsPlanned gs new.now added planned) }
{
    match fault {
        StepFault::Refused(_, _) => write_refused(alloc, old, new, added, out),
        StepFault::Config(_) => Ok(Planned::NoConfig),
        StepFault::NoMemory => Err(out_of_memory()),
    }
}

/// Writes how to get from the configuration in use, which is the last one of the history and has this text, to the new one, whose new
/// servers began so: whether it may follow at once, and the steps by which it may be undone; or else steps after a restart with
/// emptied servers. Each step has a line with what the judge says of it and, where that is `accepted`, its JSON.
pub fn write_plan<W: Write>(
    alloc: Global,
    history: History,
    old: &str,
    new: &str,
    added: Beginning,
    out: &mut W,
) -> io::Result<Planned>
    ensures { IfOk result (IsPlanned history new.now added) }
{
    write!(out, "at once: ")?;
    match judge_text(alloc, &history, new, added) {
        Ok(()) => write_accepted(alloc, history, old, new, added, out),
        Err(fault) => {
            drop_history(history);
            write_fault(&fault, out)?;
            write_other_way(alloc, &fault, old, new, added, out)
        }
    }
}

// Where the old one can't be the first configuration, for this reason.
fn no_first(fault: &StepFault) -> io::Result<Planned>
    ensures { IfOk result (λ planned. (old : List ℕ) (opened : Beginning) → IsNoStep [] old opened fault.now → IsNoFirst old opened planned) }
{
    match fault {
        StepFault::Refused(_, _) => Ok(Planned::Refused),
        StepFault::Config(_) => Ok(Planned::NoConfig),
        StepFault::NoMemory => Err(out_of_memory()),
    }
}

/// Writes the plan from the configuration in use to the new one, where the one in use is the first, and its servers began so.
pub fn write_plan_from<W: Write>(
    alloc: Global,
    old: &str,
    new: &str,
    opened: Beginning,
    added: Beginning,
    out: &mut W,
) -> io::Result<Planned>
    ensures { IfOk result (IsPlanFrom old.now new.now opened added) }
{
    write!(out, "old: ")?;
    match step(alloc, History::new(alloc)?, old, opened) {
        Ok(history) => {
            writeln!(out, "accepted")?;
            write_plan(alloc, history, old, new, added, out)
        }
        Err(fault) => {
            write_fault(&fault, out)?;
            no_first(&fault)
        }
    }
}
