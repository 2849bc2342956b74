//! The marks of several servers at a place, and one pass over them for one more tree.

ghost use Rattle.std.specs.Prelude.{◌≡◌, ℕ, List, [], ◌∷◌, ◌++◌, Bool, length, IfOk};
ghost use Rattle.route_tree.specs.Plan.{Plan};
ghost use Rattle.gate_coverage.specs.Seen.{plan_of};
ghost use Rattle.gate_growth.specs.Marks.{IsMarkOf};
ghost use Rattle.gate_growth.specs.Rows.{cell_servers, AreCellsOf, IfRefused, IsRefusedAt, lesser_refusal, lesser_of};

use crate::ledger::mark::{Mark, after, follow};
use gate_coverage::Seen;
use mc_types::ServerId;
use std::alloc::{AllocError, Global};

/// The marks of a server.
#[derive(Clone, Copy)]
pub struct Cell {
    pub server: ServerId,
    pub mark: Mark,
}

/// Why a tree may not follow: it takes the server, and this generation, counted from 0, is the first to leave it.
#[derive(Clone, Copy)]
pub struct Refused {
    pub server: ServerId,
    pub generation: u32,
}

/// Whether the tree of this number may follow at all of these servers, or the refusal for the earliest generation; of one
/// generation that of the smallest server. It takes no memory.
pub fn first_refused(cells: &[Cell], number: u32, seen: Seen) -> Option<Refused>
    ensures { (arbitrary : ℕ → Bool) (plans : List Plan) → length plans ≡ number → AreCellsOf arbitrary plans cells.now → IfRefused arbitrary plans (plan_of seen.entry) cells.now result }
{
    let mut best = None;
    for cell in cells {
        let here = refused_at(*cell, number, seen);
        best = lesser(best, here);
    }
    best
}

/// The marks after the tree of this number, of the same servers in the same order. The only error is that memory was refused.
pub fn cells_after(
    alloc: Global,
    cells: &[Cell],
    number: u32,
    seen: Seen,
) -> Result<Vec<Cell>, AllocError>
    ensures servers { IfOk result (λ new. cell_servers new.items ≡ cell_servers cells.now) }
    ensures marks { IfOk result (λ new. (arbitrary : ℕ → Bool) (plans : List Plan) → length plans ≡ number → AreCellsOf arbitrary plans cells.now → AreCellsOf arbitrary (plans ++ plan_of seen.entry ∷ []) new.items) }
{
    let mut new = Vec::new(alloc);
    for cell in cells {
        new.push(cell_after(*cell, number, seen))?;
    }
    Ok(new)
}

// Of one server.
fn cell_after(cell: Cell, number: u32, seen: Seen) -> Cell
    ensures server { result.server ≡ cell.server }
    ensures mark { (arbitrary : ℕ → Bool) (plans : List Plan) → length plans ≡ number → IsMarkOf (arbitrary cell.server) plans cell.server cell.mark → IsMarkOf (arbitrary result.server) (plans ++ plan_of seen.entry ∷ []) result.server result.mark }
{
    Cell {
        server: cell.server,
        mark: after(cell.mark, number, seen, cell.server),
    }
}

// At one server.
fn refused_at(cell: Cell, number: u32, seen: Seen) -> Option<Refused>
    ensures { (arbitrary : Bool) (plans : List Plan) → length plans ≡ number → IsMarkOf arbitrary plans cell.server cell.mark → IsRefusedAt arbitrary plans (plan_of seen.entry) cell.server result }
{
    match follow(cell.mark, number, seen, cell.server) {
        Ok(_) => None,
        Err(generation) => Some(Refused {
            server: cell.server,
            generation,
        }),
    }
}

// The one for the earlier generation; of one generation that of the smaller server; of equal ones the first.
fn lesser(best: Option<Refused>, here: Option<Refused>) -> Option<Refused>
    ensures { result ≡ lesser_refusal best here }
{
    match here {
        None => best,
        Some(refused) => match best {
            None => Some(refused),
            Some(other) => Some(lesser_of(other, refused)),
        },
    }
}

fn lesser_of(other: Refused, refused: Refused) -> Refused
    ensures { result ≡ lesser_of other refused }
{
    if refused.generation < other.generation {
        refused
    } else if other.generation < refused.generation {
        other
    } else if refused.server.number() < other.server.number() {
        refused
    } else {
        other
    }
}
