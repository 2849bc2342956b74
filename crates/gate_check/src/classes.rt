//! Looks at the rows of a certificate, one for each residue of each class's own modulus.

ghost use Rattle.std.specs.Prelude.{◌≡◌, ◌≤◌, ℕ, IfOk, length};
ghost use Rattle.route_tree.specs.At.{plain_for};
ghost use Rattle.route_tree.specs.Place.{prefix_text};
ghost use Rattle.gate_coverage.specs.Doubted.{doubted_pools};
ghost use Rattle.gate_coverage.specs.Pools.{taken_pools};
ghost use Rattle.gate_check.specs.Valid.{run_at};
ghost use Rattle.gate_check.specs.Rows.{IsTakenRow};
ghost use Rattle.gate_check.specs.Ends.{plain_of, IsLook, IsClassEnd, IsTableEnd};

use crate::finding::{Found, gap_at};
use crate::places::{Class, ClassRows, Run};
use crate::validity::{is_valid_at, take_row};
use gate_coverage::doubts::doubted_pools;
use gate_coverage::pools::{Pool, taken_pools};
use mc_types::ServerId;
use route_tree::Tree;
use std::alloc::{AllocError, Global};

/// What a look at a row finds.
#[derive(Clone, Copy)]
pub enum Look {
    Gap(Found),
    Bad,
    Good,
}

/// How the looks at a class's rows end.
#[derive(Clone, Copy)]
pub enum ClassEnd {
    Gap(u32, Found),
    Bad(u32),
    Valid,
}

/// How the looks at all classes end.
#[derive(Clone, Copy)]
pub enum TableEnd {
    Gap(usize, u32, Found),
    Bad(usize, u32),
    Valid,
}

// The servers of the run that holds the residue, and the runs after it, where a run of these servers has begun before and
// these runs come after it.
fn run_of<'a>(servers: &'a [ServerId], runs: &'a [Run], residue: u32) -> (&'a [ServerId], &'a [Run])
    ensures servers { result.0.now ≡ run_at servers.now runs.now residue }
    ensures later { (q : ℕ) → residue ≤ q → run_at result.0.now result.1.now q ≡ run_at servers.now runs.now q }
{
    match runs {
        [] => (servers, runs),
        [run, rest @ ..] => {
            if run.first <= residue {
                run_of(&run.servers, rest, residue)
            } else {
                (servers, runs)
            }
        }
    }
}

// A look at the residue, of which the servers that are taken are given, and this row.
fn look_at(
    alloc: Global,
    tree: &Tree,
    class: &Class,
    modulus: u32,
    residue: u32,
    doubted: &[Pool],
    taken: &[ServerId],
    row: &[ServerId],
) -> Result<Look, AllocError>
    requires doubted { doubted.now ≡ doubted_pools (prefix_text class.now.prefix) tree.now (taken_pools (prefix_text class.now.prefix) tree.now) }
    requires taken { IsTakenRow (plain_for residue (prefix_text class.now.prefix) tree.now) taken.now }
    ensures { IfOk result (λ seen. IsLook (plain_of tree.now class.now.prefix modulus residue) row.now seen) }
{
    let _form = tree.form();
    match gap_at(alloc, tree, tree, class, modulus, residue, doubted)? {
        Some(found) => Ok(Look::Gap(found)),
        None => {
            if is_valid_at(tree, class.text(), residue, taken, row) {
                Ok(Look::Good)
            } else {
                Ok(Look::Bad)
            }
        }
    }
}

/// Looks at the class's rows by rising residue.
pub fn check_class(
    alloc: Global,
    tree: &Tree,
    class: &Class,
    modulus: u32,
    rows: &ClassRows,
) -> Result<ClassEnd, AllocError>
    ensures { IfOk result (λ end. IsClassEnd tree.now class.now.prefix modulus rows.now end) }
{
    let pools = taken_pools(alloc, tree, class.text())?;
    let doubted = doubted_pools(alloc, tree, class.text(), &pools)?;
    let mut taken = Vec::new(alloc);
    let mut servers: &[ServerId] = &[];
    let mut runs: &[Run] = &rows.runs;
    for residue in 0..rows.modulus {
        let (own, rest) = run_of(servers, runs, residue);
        servers = own;
        runs = rest;
        take_row(tree, class.text(), &pools, residue, &mut taken)?;
        let look = look_at(alloc, tree, class, modulus, residue, &doubted, &taken, own)?;
        match look {
            Look::Good => {}
            Look::Gap(found) => return Ok(ClassEnd::Gap(residue, found)),
            Look::Bad => return Ok(ClassEnd::Bad(residue)),
        }
    }
    Ok(ClassEnd::Valid)
}

/// Looks at all rows, class by class.
pub fn check_classes(
    alloc: Global,
    tree: &Tree,
    modulus: u32,
    classes: &[Class],
    rows: &[ClassRows],
) -> Result<TableEnd, AllocError>
    requires { length rows.now ≡ length classes.now }
    ensures { IfOk result (λ end. IsTableEnd tree.now modulus classes.now rows.now end) }
{
    for index in 0..classes.len() {
        let class = &classes[index];
        let own = &rows[index];
        match check_class(alloc, tree, class, modulus, own)? {
            ClassEnd::Valid => {}
            ClassEnd::Gap(residue, found) => return Ok(TableEnd::Gap(index, residue, found)),
            ClassEnd::Bad(residue) => return Ok(TableEnd::Bad(index, residue)),
        }
    }
    Ok(TableEnd::Valid)
}
