//! A configuration's text, judged, and the verdict printed in a form.

ghost use Rattle.std.specs.Prelude.{[], ◌∷◌, ◌≡◌, ◌≤◌, IfOk, IfErr, IfSome};
ghost use Rattle.gate_check.specs.Gate.{IsCertified, IsJudged};
ghost use Rattle.gate_check.specs.Tables.{IsTable};
ghost use Rattle.mcgate_lines.specs.Faults.{StopsUnwritten};
ghost use Rattle.mcgate_check.specs.Reporting.{AcceptedIn, Checks, RefusedIn, ReportsConfig};

use crate::checking::{check_refused_by, print_accepted_by};
use crate::drawing::{draw_accepted, draw_refused};
use crate::explaining::{explain_accepted, explain_refused};
use gate_check::places::{PlaceTable, places};
use gate_check::{Reason, judge_by, untabled};
use mcgate_lines::Form;
use mcgate_lines::faults::print_fault;
use mcgate_lines::status::{RunFault, answer_of};
use route_json::{Config, read_config};
use std::alloc::Global;
use std::io::Write;

// Prints an accepted configuration, whose tree has this table of places.
fn accept<W: Write>(
    alloc: Global,
    form: Form,
    text: &str,
    config: &Config,
    table: &PlaceTable,
    out: &mut W,
) -> Result<u8, RunFault>
    requires certified { IsCertified config.now.tree }
    requires table { IsTable (config.now.tree ∷ []) table.now }
    ensures ok { IfOk result (λ status. (status ≡ 0) × AcceptedIn form text.now config.now (W.contents out.old) (W.contents out.new)) }
    ensures err { IfErr result (StopsUnwritten (W.contents out.old) (W.contents out.new)) }
{
    match form {
        Form::Lines => print_accepted_by(config.tree(), table, out),
        Form::Explained => explain_accepted(config.tree(), table, out),
        Form::Picture => draw_accepted(alloc, text, config, out),
    }
}

// Prints one that is refused. Its tree has this table of places, if it has one.
fn refuse<W: Write>(
    alloc: Global,
    form: Form,
    text: &str,
    config: &Config,
    table: Option<&PlaceTable>,
    reason: &Reason,
    out: &mut W,
) -> Result<u8, RunFault>
    requires judged { IsJudged config.now.tree reason.now }
    requires table { IfSome table (λ table. IsTable (config.now.tree ∷ []) table.now) }
    ensures ok { IfOk result (λ status. (status ≡ 1) × RefusedIn form text.now config.now reason.now (W.contents out.old) (W.contents out.new)) }
    ensures err { IfErr result (StopsUnwritten (W.contents out.old) (W.contents out.new)) }
{
    match form {
        Form::Lines => check_refused_by(alloc, config, table, reason, out),
        Form::Explained => explain_refused(alloc, text, config, table, reason, out),
        Form::Picture => draw_refused(alloc, text, config, reason, out),
    }
}

// Judges a configuration by the table of its tree's places, and prints the verdict.
fn report_by<W: Write>(
    alloc: Global,
    form: Form,
    text: &str,
    config: Config,
    table: &PlaceTable,
    out: &mut W,
) -> Result<u8, RunFault>
    requires { IsTable (config.tree ∷ []) table.now }
    ensures ok { IfOk result (ReportsConfig form text.now config (W.contents out.old) (W.contents out.new)) }
    ensures err { IfErr result (StopsUnwritten (W.contents out.old) (W.contents out.new)) }
{
    match judge_by(alloc, config, table) {
        Ok(accepted) => accept(alloc, form, text, accepted.config(), table, out),
        Err(refused) => refuse(
            alloc,
            form,
            text,
            &refused.config,
            Some(table),
            &refused.reason,
            out,
        ),
    }
}

// Judges a configuration, which this text means, and prints the verdict. The table of its tree's places is made once for both.
fn report_config<W: Write>(
    alloc: Global,
    form: Form,
    text: &str,
    config: Config,
    out: &mut W,
) -> Result<u8, RunFault>
    ensures ok { IfOk result (ReportsConfig form text.now config (W.contents out.old) (W.contents out.new)) }
    ensures err { IfErr result (StopsUnwritten (W.contents out.old) (W.contents out.new)) }
{
    match places(alloc, config.tree()) {
        Ok(table) => report_by(alloc, form, text, config, &table, out),
        Err(fault) => {
            let reason = untabled(config.tree(), fault);
            refuse(alloc, form, text, &config, None, &reason, out)
        }
    }
}

// Judges the configuration of a text, or writes why it is none.
fn report_text<W: Write>(alloc: Global, form: Form, text: &str, out: &mut W) -> Result<u8, RunFault>
    ensures ok { IfOk result (Checks form text.now (W.contents out.old) (W.contents out.new)) }
    ensures err { IfErr result (StopsUnwritten (W.contents out.old) (W.contents out.new)) }
{
    match read_config(alloc, text) {
        Ok(config) => report_config(alloc, form, text, config, out),
        Err(fault) => print_fault(text, &fault, out),
    }
}

/// Judges the configuration that a JSON text means, and prints the verdict in a form; or the first fault of a text that is no
/// configuration.
///
/// - `Lines`: `accepted places=N`; or `refused: ` and why, and where that is a gap the lines of the script that shows it, if
///   [`crate::leaks::refusal_run`] finds one.
/// - `Explained`: the same, and then in words, as comments of a script: for a gap which server the script's number is, by which way a
///   read reaches the server, which servers reads take, which of them the delete clears and which it leaves, by which route deletes
///   go, and what to change there. Servers are told with their places in the lists of the pools.
/// - `Picture`: a graph in Graphviz's language in place of the verdict; of a refused configuration with its first gap marked: the
///   way by which the read reaches the server, and the server, which the delete leaves. Where there are too many places the line
///   of that is printed, and no graph.
///
/// The answer is the exit status of what was printed, `DONE`, `REFUSED` or `BAD_INPUT`; or else `NO_MEMORY` where memory was
/// refused: then nothing was printed; or `WRITER` where the output could not be written: then a part of the lines may have been.
///
/// Source: mcgate's own, and of pictures Graphviz's language.
pub fn run_check<W: Write>(alloc: Global, form: Form, text: &str, out: &mut W) -> u8
    ensures status { result ≤ 4 }
    ensures wrote { result ≤ 2 → Checks form text.now (W.contents out.old) (W.contents out.new) result }
    ensures refused { result ≡ 3 → W.contents out.new ≡ W.contents out.old }
{
    match report_text(alloc, form, text, out) {
        Ok(status) => status,
        Err(fault) => answer_of(fault),
    }
}
