//! All places of one tree more: their pages, and the first gap at them.

ghost use Rattle.std.specs.Prelude.{◌≡◌, ℕ, ◌%◌, ◌<◌, ◌^◌, Bool, List, [], ◌∷◌, ◌++◌, map, length, Some, None, IfOk, slice_get};
ghost use Rattle.route_tree.specs.Each.{Each};
ghost use Rattle.route_tree.specs.Plan.{Plan, IsGoodPlan};
ghost use Rattle.route_tree.specs.Servers.{tree_servers};
ghost use Rattle.gate_coverage.specs.Seen.{plan_of};
ghost use Rattle.gate_check.specs.Looking.{IsFirstTaken};
ghost use Rattle.gate_growth.specs.Marks.{IsTaken};
ghost use Rattle.gate_growth.specs.Pages.{IsFirstOf, IfRefusedOf};
ghost use Rattle.gate_growth.specs.Classes.{class_prefixes};
ghost use Rattle.gate_growth.specs.LeftGaps.{IsLeftBy, IfLeftBy, earlier};
ghost use Rattle.gate_growth.specs.Turning.{TurnsTrees, TurnsPage, TurnsGap};

use crate::ledger::class::ClassPages;
use crate::ledger::page::{Beginning, Page, turn_page};
use crate::ledger::refining::class_of;
use crate::ledger::row::Refused;
use gate_check::Gap;
use gate_coverage::prefixes::prefix_text;
use gate_coverage::seen::At;
use gate_coverage::{Deleting, Seen, takes};
use mc_types::{Key, Op, ServerId};
use route_tree::{Place, Tree};
use std::alloc::{AllocError, Global};

/// A tree that is to follow.
#[derive(Clone, Copy)]
pub struct Successor<'a> {
    pub tree: &'a Tree,
    /// Its number, counted from 0.
    pub number: u32,
    /// How each server of the trees so far and of this one began.
    pub begun: &'a [Beginning],
    /// The least common multiple of the sizes of all pools of these trees.
    pub modulus: u32,
}

/// A gap, and the generation, counted from 0, that is the first to leave there what the tree takes: one before it, or the tree
/// itself.
#[derive(Clone, Copy)]
pub struct LeftGap {
    pub generation: u32,
    pub gap: Gap,
}

// A page after one more tree, and the gap at its place.
#[derive(Drop)]
struct TurnedRow {
    page: Page,
    gap: Option<LeftGap>,
}

// The pages of a class after one more tree, and its first gap.
#[derive(Drop)]
struct TurnedClass {
    class: ClassPages,
    gap: Option<LeftGap>,
}

/// All classes after one more tree, and the first gap.
#[derive(Drop)]
pub struct TurnedAll {
    pub classes: Vec<ClassPages>,
    pub gap: Option<LeftGap>,
}

/// The class of no prefix, and those of the texts, of whose places the known ones tell. The only error is that memory was
/// refused.
pub fn turned_classes(
    alloc: Global,
    known: &[ClassPages],
    texts: &[Key],
    step: &Successor,
) -> Result<TurnedAll, AllocError>
    requires some { 0 < length known.now }
    requires counted { 0 < step.now.modulus }
    requires below { Each (λ s. s < length step.now.begun.now) (tree_servers step.now.tree.now) }
    requires few { length step.now.begun.now < 2 ^ 32 }
    ensures prefixes { IfOk result (λ all. class_prefixes all.classes.items ≡ None ∷ map Some texts.now) }
    ensures turned { IfOk result (λ all. TurnsTrees known.now step.now all.classes.items all.gap) }
{
    let mut all = TurnedAll {
        classes: Vec::new(alloc),
        gap: None,
    };
    add_class(alloc, known, &None, step, &mut all)?;
    for text in texts {
        add_class(alloc, known, &Some(*text), step, &mut all)?;
    }
    Ok(all)
}

// Adds the class of this prefix.
fn add_class(
    alloc: Global,
    known: &[ClassPages],
    prefix: &Option<Key>,
    step: &Successor,
    all: &mut TurnedAll,
) -> Result<(), AllocError>
    requires some { 0 < length known.now }
    requires counted { 0 < step.now.modulus }
    requires below { Each (λ s. s < length step.now.begun.now) (tree_servers step.now.tree.now) }
    requires few { length step.now.begun.now < 2 ^ 32 }
    ensures prefixes { IfOk result (λ _. class_prefixes all.new.classes.items ≡ class_prefixes all.old.classes.items ++ prefix.now ∷ []) }
    ensures turned { IfOk result (λ _. TurnsTrees known.now step.now all.old.classes.items all.old.gap → TurnsTrees known.now step.now all.new.classes.items all.new.gap) }
{
    let more = turned_class(alloc, known, prefix, step)?;
    all.gap = earlier(all.gap, more.gap);
    all.classes.push(more.class)?;
    Ok(())
}

// The pages of a class of this prefix, of which the known ones tell.
fn turned_class(
    alloc: Global,
    known: &[ClassPages],
    prefix: &Option<Key>,
    step: &Successor,
) -> Result<TurnedClass, AllocError>
    requires some { 0 < length known.now }
    requires counted { 0 < step.now.modulus }
    requires below { Each (λ s. s < length step.now.begun.now) (tree_servers step.now.tree.now) }
    requires few { length step.now.begun.now < 2 ^ 32 }
    ensures prefix { IfOk result (λ turned. turned.class.prefix ≡ prefix.now) }
    ensures turned { IfOk result (λ turned. TurnsTrees known.now step.now (turned.class ∷ []) turned.gap) }
{
    let class = &known[class_of(known, prefix_text(prefix))];
    let mut pages = Vec::new(alloc);
    let mut gap = None;
    for residue in 0..step.modulus {
        let place = Place {
            prefix: *prefix,
            residue,
            modulus: step.modulus,
        };
        let row = turned_row(alloc, page_of(class, residue), &place, step)?;
        gap = earlier(gap, row.gap);
        pages.push(row.page)?;
    }
    let class = ClassPages {
        prefix: *prefix,
        pages,
    };
    Ok(TurnedClass { class, gap })
}

// The page of a remainder, of any modulus that the number of pages divides.
fn page_of(class: &ClassPages, residue: u32) -> &Page
    ensures { slice_get class.now.pages.items (residue % length class.now.pages.items) ≡ Some result.now }
{
    &class.pages[residue as usize % class.pages.len()]
}

// The page of the place after one more tree, and the gap there.
fn turned_row(
    alloc: Global,
    page: &Page,
    place: &Place,
    step: &Successor,
) -> Result<TurnedRow, AllocError>
    requires below { Each (λ s. s < length step.now.begun.now) (tree_servers step.now.tree.now) }
    requires few { length step.now.begun.now < 2 ^ 32 }
    ensures page { IfOk result (λ row. TurnsPage step.now place.now page.now row.page) }
    ensures gap { IfOk result (λ row. TurnsGap step.now place.now page.now row.gap) }
{
    let _form = step.tree.form();
    let at = At {
        text: prefix_text(&place.prefix),
        hash: place.residue,
    };
    let turned = turn_page(alloc, page, step.begun, step.number, step.tree, &at)?;
    Ok(TurnedRow {
        page: turned.page,
        gap: gap_of(*place, Seen::Tree(step.tree, &at), turned.refused),
    })
}

// The gap of a refusal at a place.
fn gap_of(place: Place, seen: Seen, refused: Option<Refused>) -> Option<LeftGap>
    ensures { (arbitrary : ℕ → Bool) (plans : List Plan) → Each IsGoodPlan plans → IfRefusedOf arbitrary plans (plan_of seen.entry) refused → IfLeftBy arbitrary plans (plan_of seen.entry) place result }
{
    match refused {
        None => None,
        Some(refused) => Some(left_gap(place, seen, refused)),
    }
}

// The gap of a refusal: both kinds of delete leave the server, of which `delete` is the first.
fn left_gap(place: Place, seen: Seen, refused: Refused) -> LeftGap
    ensures place { result.gap.place ≡ place }
    ensures left { (arbitrary : ℕ → Bool) (plans : List Plan) → Each IsGoodPlan plans → IsFirstOf arbitrary plans (plan_of seen.entry) refused → IsLeftBy arbitrary plans (plan_of seen.entry) result.generation result.gap }
{
    seen.lawful();
    let server = refused.server;
    LeftGap {
        generation: refused.generation,
        gap: Gap {
            place,
            server,
            op: first_taking(seen, server),
            deleting: Deleting::Delete,
        },
    }
}

// The first operation that takes the server, where some one does.
fn first_taking(seen: Seen, server: ServerId) -> Op
    ensures { IsTaken (plan_of seen.entry) server → IsFirstTaken (plan_of seen.entry) server result }
{
    if takes(seen, Op::Get, server) {
        Op::Get
    } else if takes(seen, Op::Gat, server) {
        Op::Gat
    } else if takes(seen, Op::Incr, server) {
        Op::Incr
    } else {
        Op::Decr
    }
}

// The one of the earlier generation; of one generation the first.
fn earlier(best: Option<LeftGap>, here: Option<LeftGap>) -> Option<LeftGap>
    ensures { result ≡ earlier best here }
{
    match here {
        None => best,
        Some(gap) => match best {
            None => Some(gap),
            Some(other) => {
                if gap.generation < other.generation {
                    Some(gap)
                } else {
                    Some(other)
                }
            }
        },
    }
}
