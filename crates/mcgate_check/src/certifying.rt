//! A configuration's text, and a certificate that is proposed for its tree.

ghost use Rattle.std.specs.Prelude.{[], ◌∷◌, ◌≡◌, ◌≤◌, IfErr, IfOk};
ghost use Rattle.gate_check.specs.Gate.{HasCertificate, IsCertified};
ghost use Rattle.gate_check.specs.Tables.{IsTable};
ghost use Rattle.mcgate_check.specs.Certifying.{Certifies, CertifiesConfig, WritesCertificate};
ghost use Rattle.mcgate_lines.specs.Faults.{StopsUnwritten};

use crate::checking::print_refused;
use gate_certificate::certificate_text;
use gate_check::places::proposing::propose_by;
use gate_check::places::{Certificate, PlaceTable, places};
use gate_check::{judge_by, untabled};
use mcgate_lines::faults::print_fault;
use mcgate_lines::status::{DONE, RunFault, answer_of};
use route_json::{Config, read_config};
use route_tree::Tree;
use std::alloc::{AllocError, Global};
use std::io::Write;

// The certificate that is proposed by the tree's table, which is valid.
fn certificate_by(alloc: Global, tree: &Tree, table: &PlaceTable) -> Result<Certificate, AllocError>
    requires certified { IsCertified tree.now }
    requires table { IsTable (tree.now ∷ []) table.now }
    ensures { IfOk result (HasCertificate tree.now) }
{
    let _form = tree.form();
    propose_by(alloc, tree, table)
}

// Writes a certificate of the tree, whose table this is, and ends the line.
fn print_certificate<W: Write>(
    alloc: Global,
    tree: &Tree,
    table: &PlaceTable,
    out: &mut W,
) -> Result<u8, RunFault>
    requires certified { IsCertified tree.now }
    requires table { IsTable (tree.now ∷ []) table.now }
    ensures ok { IfOk result (λ status. (status ≡ 0) × WritesCertificate tree.now (W.contents out.old) (W.contents out.new)) }
    ensures err { IfErr result (StopsUnwritten (W.contents out.old) (W.contents out.new)) }
{
    let certificate = certificate_by(alloc, tree, table)?;
    let text = certificate_text(alloc, &certificate)?;
    writeln!(out, "{text}")?;
    Ok(DONE)
}

// Writes a certificate of a configuration's tree, whose table of places this is, or why it is refused.
fn certify_by<W: Write>(
    alloc: Global,
    config: Config,
    table: &PlaceTable,
    out: &mut W,
) -> Result<u8, RunFault>
    requires { IsTable (config.tree ∷ []) table.now }
    ensures ok { IfOk result (CertifiesConfig config (W.contents out.old) (W.contents out.new)) }
    ensures err { IfErr result (StopsUnwritten (W.contents out.old) (W.contents out.new)) }
{
    match judge_by(alloc, config, table) {
        Ok(accepted) => print_certificate(alloc, accepted.config().tree(), table, out),
        Err(refused) => print_refused(&refused.config, &refused.reason, out),
    }
}

// Writes a certificate of a configuration's tree, or why it is refused. The table of places is made once, for the judgement and the certificate.
fn certify_config<W: Write>(alloc: Global, config: Config, out: &mut W) -> Result<u8, RunFault>
    ensures ok { IfOk result (CertifiesConfig config (W.contents out.old) (W.contents out.new)) }
    ensures err { IfErr result (StopsUnwritten (W.contents out.old) (W.contents out.new)) }
{
    match places(alloc, config.tree()) {
        Ok(table) => certify_by(alloc, config, &table, out),
        Err(fault) => {
            let reason = untabled(config.tree(), fault);
            print_refused(&config, &reason, out)
        }
    }
}

// Writes a certificate of a text's configuration, why that is refused, or why the text is none.
fn certify_text<W: Write>(alloc: Global, text: &str, out: &mut W) -> Result<u8, RunFault>
    ensures ok { IfOk result (Certifies text.now (W.contents out.old) (W.contents out.new)) }
    ensures err { IfErr result (StopsUnwritten (W.contents out.old) (W.contents out.new)) }
{
    match read_config(alloc, text) {
        Ok(config) => certify_config(alloc, config, out),
        Err(fault) => print_fault(text, &fault, out),
    }
}

/// Judges the configuration that a JSON text means. Where it is accepted, writes a certificate that is valid for its tree, as one
/// line of JSON; else the line that says why it is refused, or the first fault of a text that is no configuration.
///
/// The answer is the exit status of what was written, `DONE`, `REFUSED` or `BAD_INPUT`; or else `NO_MEMORY` where memory was
/// refused: then nothing was written; or `WRITER` where the output could not be written: then a part of the line may have been.
///
/// Source: mcgate's own.
pub fn run_certify<W: Write>(alloc: Global, text: &str, out: &mut W) -> u8
    ensures status { result ≤ 4 }
    ensures wrote { result ≤ 2 → Certifies text.now (W.contents out.old) (W.contents out.new) result }
    ensures refused { result ≡ 3 → W.contents out.new ≡ W.contents out.old }
{
    match certify_text(alloc, text, out) {
        Ok(status) => status,
        Err(fault) => answer_of(fault),
    }
}
