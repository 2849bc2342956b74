//! Why a configuration may not follow, at all places: which servers its tree takes there though something is left on them.

ghost use Rattle.std.specs.Prelude.{◌≡◌, ◌<◌, ◌≤◌, ◌^◌, length};
ghost use Rattle.gate_check.specs.declared.places.table.TheConstants.{PLACE_LIMIT};
ghost use Rattle.gate_growth.specs.Pages.{is_any};
ghost use Rattle.gate_history.specs.Concerning.{IsFirstLeftAt};

use crate::generation::Generation;
use crate::history::History;
use gate_check::places::PLACE_LIMIT;
use gate_check::places::collecting::{add_prefixes, add_sizes};
use gate_check::places::multiples::common_multiple;
use gate_check::places::texts::ordered;
use gate_coverage::Seen;
use gate_coverage::prefixes::prefix_text;
use gate_coverage::seen::At;
use gate_growth::ledger::Beginning;
use gate_growth::ledger::mark::{after, follow, new_mark};
use mc_types::{Key, ServerId};
use route_json::Config;
use route_tree::{Place, SLOT_LIMIT, Tree};
use std::alloc::{AllocError, Global};

/// A server that the tree takes at so many places though something is left on it: at the first of them a delete under this
/// generation, counted from 1, is the first that left it.
#[derive(Clone, Copy)]
pub struct Concern {
    pub server: ServerId,
    pub generation: u32,
    pub places: u32,
    // The first place: the index of its prefix, if it has one, and its residue.
    prefix: Option<usize>,
    residue: u32,
}

/// What a configuration that may not follow concerns.
#[derive(Drop)]
pub struct Concerns {
    all: Vec<Option<Concern>>,
    prefixes: Vec<Key>,
    modulus: u32,
}

impl Concerns {
    /// Of each server, in the order of their numbers.
    pub fn all(&self) -> &[Option<Concern>] {
        &self.all
    }

    /// The first place of one of them.
    pub fn place(&self, concern: &Concern) -> Place {
        Place {
            prefix: prefix_at(&self.prefixes, concern.prefix),
            residue: concern.residue,
            modulus: self.modulus,
        }
    }
}

// The prefix of this index, if there is one.
fn prefix_at(prefixes: &[Key], index: Option<usize>) -> Option<Key> {
    match index {
        Some(index) => prefixes.get(index).copied(),
        None => None,
    }
}

// A tree that is to follow, and at which places it is looked at.
#[derive(Clone, Copy)]
struct Look<'a> {
    generations: &'a [Generation],
    tree: &'a Tree,
    prefixes: &'a [Key],
    modulus: u32,
}

// The first generation, counted from 0, that left there what the tree takes of a server that began so: one of those, or the
// tree itself.
fn first_left<'a>(
    generations: &'a [Generation],
    tree: &'a Tree,
    began: Beginning,
    server: ServerId,
    at: &'a At<'a>,
) -> Option<u32>
    ensures { length generations.now < 2 ^ 32 → IsFirstLeftAt at.now.hash at.now.text.now generations.now tree.now began server result }
{
    let mut mark = new_mark(is_any(began));
    let mut number = 0u32;
    for generation in generations {
        mark = after(
            mark,
            number,
            Seen::Tree(generation.config.tree(), at),
            server,
        );
        number = number.saturating_add(1);
    }
    match follow(mark, number, Seen::Tree(tree, at), server) {
        Ok(_) => None,
        Err(first) => Some(first),
    }
}

// Whether servers that began so may have held anything.
fn is_any(began: Beginning) -> bool
    ensures { result ≡ is_any began }
{
    match began {
        Beginning::Any => true,
        Beginning::Own => false,
    }
}

// With one place more, if something is left there.
fn counted(
    found: Option<Concern>,
    left: Option<u32>,
    server: ServerId,
    prefix: Option<usize>,
    residue: u32,
) -> Option<Concern> {
    match (found, left) {
        (found, None) => found,
        (Some(concern), Some(_)) => Some(Concern {
            places: concern.places.saturating_add(1),
            ..concern
        }),
        (None, Some(first)) => Some(Concern {
            server,
            generation: first.saturating_add(1),
            places: 1,
            prefix,
            residue,
        }),
    }
}

// With the places of a prefix, of this index, or of none.
fn with_class(
    look: &Look<'_>,
    began: Beginning,
    server: ServerId,
    prefix: Option<usize>,
    found: Option<Concern>,
) -> Option<Concern> {
    let text = prefix_at(look.prefixes, prefix);
    let mut found = found;
    for residue in 0..look.modulus {
        let at = At {
            text: prefix_text(&text),
            hash: residue,
        };
        let left = first_left(look.generations, look.tree, began, server, &at);
        found = counted(found, left, server, prefix, residue);
    }
    found
}

// Of one server, which began so, at all places.
fn concern_of(look: &Look<'_>, began: Beginning, server: ServerId) -> Option<Concern> {
    let mut found = with_class(look, began, server, None, None);
    for index in 0..look.prefixes.len() {
        found = with_class(look, began, server, Some(index), found);
    }
    found
}

// How a server began: as the first generation says that has it, or as the next one.
fn began_of(generations: &[Generation], server: usize, new: Beginning) -> Beginning {
    for generation in generations {
        if server < generation.config.servers().len() {
            return generation.began;
        }
    }
    new
}

// The least common multiple of these sizes and this one, unless it is too large.
fn multiple_of(modulus: u32, sizes: &[usize]) -> Option<u32>
    requires some { 0 < modulus }
    requires within { modulus ≤ PLACE_LIMIT }
{
    match sizes {
        [] => Some(modulus),
        [first, rest @ ..] => {
            if *first == 0 || *first > SLOT_LIMIT as usize {
                return None;
            }
            let more = common_multiple(modulus, *first as u32);
            if more == 0 || more > PLACE_LIMIT {
                return None;
            }
            multiple_of(more, rest)
        }
    }
}

// The least common multiple of this number and the lengths of a tree's pools; `None` where it is too large.
fn widened(alloc: Global, modulus: u32, tree: &Tree) -> Result<Option<u32>, AllocError> {
    if modulus == 0 || modulus > PLACE_LIMIT {
        return Ok(None);
    }
    let mut sizes = Vec::new(alloc);
    add_sizes(tree, &mut sizes)?;
    Ok(multiple_of(modulus, &sizes))
}

// The modulus of the places of all trees, unless it is too large.
fn modulus_of(
    alloc: Global,
    generations: &[Generation],
    tree: &Tree,
) -> Result<Option<u32>, AllocError> {
    let mut modulus = 1;
    for generation in generations {
        match widened(alloc, modulus, generation.config.tree())? {
            Some(wider) => modulus = wider,
            None => return Ok(None),
        }
    }
    widened(alloc, modulus, tree)
}

// The prefixes of all trees, each once, in byte order.
fn prefixes_of(
    alloc: Global,
    generations: &[Generation],
    tree: &Tree,
) -> Result<Vec<Key>, AllocError> {
    let mut list = Vec::new(alloc);
    for generation in generations {
        add_prefixes(generation.config.tree(), &mut list)?;
    }
    add_prefixes(tree, &mut list)?;
    ordered(alloc, &list)
}

// Of each server.
fn all_concerns(
    alloc: Global,
    look: &Look<'_>,
    servers: usize,
    new: Beginning,
) -> Result<Vec<Option<Concern>>, AllocError> {
    let mut all = Vec::new(alloc);
    let mut server = ServerId::new(0);
    for index in 0..servers {
        let began = began_of(look.generations, index, new);
        all.push(concern_of(look, began, server))?;
        server = ServerId::new(server.number().saturating_add(1));
    }
    Ok(all)
}

/// On which of the configuration's servers its tree may show what a generation, or the tree itself, may leave there; the new servers began
/// so. None where there are too many places. The only error is that memory was refused.
pub fn find_concerns(
    alloc: Global,
    history: &History,
    config: &Config,
    new: Beginning,
) -> Result<Option<Concerns>, AllocError> {
    let generations = history.generations();
    let tree = config.tree();
    let Some(modulus) = modulus_of(alloc, generations, tree)? else {
        return Ok(None);
    };
    let prefixes = prefixes_of(alloc, generations, tree)?;
    let look = Look {
        generations,
        tree,
        prefixes: &prefixes,
        modulus,
    };
    let all = all_concerns(alloc, &look, config.servers().len(), new)?;
    Ok(Some(Concerns {
        all,
        prefixes,
        modulus,
    }))
}
