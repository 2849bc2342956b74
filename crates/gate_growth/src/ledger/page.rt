//! What generations of trees may have left at one place, and one tree more there.

ghost use Rattle.std.specs.Prelude.{◌≡◌, ◌<◌, ◌^◌, ℕ, List, [], ◌∷◌, ◌++◌, Bool, true, Some, IfOk, length, slice_get};
ghost use Rattle.route_tree.specs.Each.{Each};
ghost use Rattle.route_tree.specs.Plan.{Plan};
ghost use Rattle.route_tree.specs.Servers.{servers};
ghost use Rattle.route_tree.specs.At.{plain_for};
ghost use Rattle.gate_coverage.specs.Seen.{plan_of};
ghost use Rattle.gate_growth.specs.declared.ledger.page.Beginning.TheVariants.{Any};
ghost use Rattle.gate_growth.specs.Marks.{IsMarkOf};
ghost use Rattle.gate_growth.specs.Pages.{unnamed_mark, has_cell, with_cell, HasCells, IsPageOf, IsPageWith, AreBegun, IfRefusedOf};

use crate::ledger::mark::{Mark, after};
use crate::ledger::named::add_servers;
use crate::ledger::row::{Cell, Refused, cells_after, first_refused};
use gate_coverage::Seen;
use gate_coverage::seen::At;
use mc_types::ServerId;
use route_tree::Tree;
use std::alloc::{AllocError, Global};

/// What a server held before the first tree, or before its first call, whichever came later.
#[derive(Clone, Copy)]
pub enum Beginning {
    /// Anything.
    Any,
    /// Nothing; or, if the first configuration has the server, at most what its tree can have put there at the key's place.
    Own,
}

/// The marks of servers at a place.
#[derive(Drop)]
pub struct Page {
    /// Those of the servers that some tree so far names there.
    pub cells: Vec<Cell>,
    /// The first tree, counted from 0, whose deletes may leave an item on an arbitrary server that none so far names there.
    pub others: Option<u32>,
}

/// A page after one more tree, and why that tree may not follow, if it may not.
#[derive(Drop)]
pub struct Turned {
    pub page: Page,
    pub refused: Option<Refused>,
}

// That of a server that no tree so far names.
fn unnamed_mark(begun: Beginning, others: Option<u32>) -> Mark
    ensures { result ≡ unnamed_mark begun others }
{
    match begun {
        Beginning::Any => Mark {
            held: true,
            left: others,
        },
        Beginning::Own => Mark {
            held: false,
            left: None,
        },
    }
}

// How the server began.
fn begun_of(begun: &[Beginning], server: ServerId) -> Beginning
    requires { server < length begun.now }
    ensures { slice_get begun.now server ≡ Some result }
{
    begun[server.number() as usize]
}

// Whether there is a cell of the server.
fn has_cell(cells: &[Cell], server: ServerId) -> bool
    ensures { result ≡ has_cell cells.now server }
{
    for cell in cells {
        if cell.server.number() == server.number() {
            return true;
        }
    }
    false
}

// Adds the cell, unless there is one of its server.
fn add_cell(cells: &mut Vec<Cell>, cell: Cell) -> Result<(), AllocError>
    ensures { IfOk result (λ _. cells.new.items ≡ with_cell cells.old.items cell) }
{
    if has_cell(cells, cell.server) {
        return Ok(());
    }
    cells.push(cell)?;
    Ok(())
}

// Adds cells of those of the servers that have none.
fn add_cells(
    cells: &mut Vec<Cell>,
    named: &[ServerId],
    begun: &[Beginning],
    others: Option<u32>,
) -> Result<(), AllocError>
    requires { Each (λ s. s < length begun.now) named.now }
    ensures { IfOk result (λ _. (arbitrary : ℕ → Bool) (plans : List Plan) → AreBegun arbitrary begun.now → IsPageOf arbitrary plans (length begun.now) cells.old.items others → IsPageWith arbitrary plans (length begun.now) cells.old.items others named.now cells.new.items) }
{
    match named {
        [] => Ok(()),
        [first, rest @ ..] => {
            let cell = Cell {
                server: *first,
                mark: unnamed_mark(begun_of(begun, *first), others),
            };
            add_cell(cells, cell)?;
            add_cells(cells, rest, begun, others)
        }
    }
}

// The page's cells, and those of servers that the tree is the first to name there.
fn all_cells(
    alloc: Global,
    page: &Page,
    begun: &[Beginning],
    tree: &Tree,
    at: &At,
) -> Result<Vec<Cell>, AllocError>
    requires { Each (λ s. s < length begun.now) (servers (plain_for at.now.hash at.now.text.now tree.now)) }
    ensures { IfOk result (λ cells. (arbitrary : ℕ → Bool) (plans : List Plan) → AreBegun arbitrary begun.now → IsPageOf arbitrary plans (length begun.now) page.now.cells.items page.now.others → IsPageOf arbitrary plans (length begun.now) cells.items page.now.others × HasCells cells.items (plain_for at.now.hash at.now.text.now tree.now)) }
{
    let mut named = Vec::new(alloc);
    add_servers(tree, at.hash, at.text, &mut named)?;
    let mut cells = Vec::from_slice(alloc, &page.cells)?;
    add_cells(&mut cells, &named, begun, page.others)?;
    Ok(cells)
}

// That of the servers that no tree so far names, nor this one.
fn others_after(others: Option<u32>, number: u32, seen: Seen, unnamed: ServerId) -> Option<u32>
    ensures { (plans : List Plan) → length plans ≡ number → IsMarkOf true plans unnamed (unnamed_mark Any others) → IsMarkOf true (plans ++ plan_of seen.entry ∷ []) unnamed (unnamed_mark Any result) }
{
    let mark = Mark {
        held: true,
        left: others,
    };
    after(mark, number, seen, unnamed).left
}

/// The page after the tree of this number, and the first refusal at it. The servers of all trees so far, with this one, began
/// so. The only error is that memory was refused.
pub fn turn_page(
    alloc: Global,
    page: &Page,
    begun: &[Beginning],
    number: u32,
    tree: &Tree,
    at: &At,
) -> Result<Turned, AllocError>
    requires below { Each (λ s. s < length begun.now) (servers (plain_for at.now.hash at.now.text.now tree.now)) }
    requires few { length begun.now < 2 ^ 32 }
    ensures { IfOk result (λ turned. (arbitrary : ℕ → Bool) (plans : List Plan) → length plans ≡ number → AreBegun arbitrary begun.now → IsPageOf arbitrary plans (length begun.now) page.now.cells.items page.now.others → IsPageOf arbitrary (plans ++ plain_for at.now.hash at.now.text.now tree.now ∷ []) (length begun.now) turned.page.cells.items turned.page.others × IfRefusedOf arbitrary plans (plain_for at.now.hash at.now.text.now tree.now) turned.refused) }
{
    let cells = all_cells(alloc, page, begun, tree, at)?;
    let seen = Seen::Tree(tree, at);
    let refused = first_refused(&cells, number, seen);
    let unnamed = ServerId::new(begun.len() as u32);
    let page = Page {
        cells: cells_after(alloc, &cells, number, seen)?,
        others: others_after(page.others, number, seen, unnamed),
    };
    Ok(Turned { page, refused })
}
