//! Certificates by which trees are judged. What checks a certificate uses nothing of this file.

ghost use Rattle.std.specs.Prelude.{◌≡◌, ◌↔◌, ◌<◌, [], ◌∷◌, IfOk, IsTrue, length};
ghost use Rattle.gate_check.specs.Tables.{IsTable};
ghost use Rattle.gate_check.specs.Proposed.{last_of, IsLastRun, IsWithRun, AreProposed, IsProposedBy};

use crate::places::rows::put_row;
use crate::places::table::{Certificate, Class, ClassRows, PlaceTable, Run};
use gate_coverage::pools::taken_pools;
use mc_types::ServerId;
use route_tree::Tree;
use std::alloc::{AllocError, Global};

// The servers of the last run.
fn last_servers<'a>(runs: &'a [Run]) -> &'a [ServerId]
    requires { 0 < length runs.now }
    ensures { result.now ≡ last_of [] runs.now }
{
    let last = &runs[runs.len() - 1];
    &last.servers
}

// Whether the last run has these servers.
fn is_last(runs: &[Run], servers: &[ServerId]) -> bool
    ensures { IsTrue result ↔ IsLastRun runs.now servers.now }
{
    !runs.is_empty() && last_servers(runs) == servers
}

// Goes on with the last run, where it has these servers, else begins a run at the residue.
fn add_run(
    alloc: Global,
    runs: &mut Vec<Run>,
    residue: u32,
    servers: &[ServerId],
) -> Result<(), AllocError>
    ensures { IfOk result (λ _. IsWithRun residue servers.now runs.old.items runs.new.items) }
{
    if is_last(runs, servers) {
        return Ok(());
    }
    let servers = Vec::from_slice(alloc, servers)?;
    runs.push(Run {
        first: residue,
        servers,
    })?;
    Ok(())
}

// The rows of a class: of neighbours that are equal one run.
fn class_rows(
    alloc: Global,
    tree: &Tree,
    class: &Class,
    modulus: u32,
) -> Result<ClassRows, AllocError>
    requires { 0 < class.now.modulus }
    ensures { IfOk result (λ rows. AreProposed tree.now modulus class.now rows) }
{
    let _form = tree.form();
    let pools = taken_pools(alloc, tree, class.text())?;
    let mut row = Vec::new(alloc);
    let mut runs = Vec::new(alloc);
    for residue in 0..class.modulus {
        put_row(&pools, residue, &mut row)?;
        add_run(alloc, &mut runs, residue, &row)?;
    }
    Ok(ClassRows {
        modulus: class.modulus,
        runs,
    })
}

/// The certificate that the tree is judged by: the table's classes with their moduli, and at each place the servers that
/// reads take, rising, so that each row that has no gap is valid. Neighbouring residues with equal rows share a run.
///
/// The only error is that memory was refused.
pub fn propose_by(alloc: Global, tree: &Tree, table: &PlaceTable) -> Result<Certificate, AllocError>
    requires { IsTable (tree.now ∷ []) table.now }
    ensures { IfOk result (λ certificate. IsProposedBy tree.now table.now certificate) }
{
    let mut classes = Vec::new(alloc);
    for index in 0..table.classes.len() {
        classes.push(class_rows(alloc, tree, &table.classes[index], table.modulus)?)?;
    }
    Ok(Certificate { classes })
}
