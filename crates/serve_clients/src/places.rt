//! Clients by their ids, with what is held for each noted beside it.

ghost use Rattle.std.specs.Prelude.{◌≡◌, ◌<◌, ◌+◌, ◌^◌, ◌↔◌, ℕ, true, false, [], ◌∷◌, ◌++◌, OnOk, OnErr, Some, None, length, sum, slice_get, slice_set, slice_index, slice_index_or, sum_by, IsSome, IfSome, Contains};
ghost use Rattle.std.specs.Option.{option_flatten, option_copied_mut};
ghost use Rattle.std.specs.List.{IsItemAtMut};
ghost use Rattle.std.specs.Borrow.{sem};
ghost use Rattle.serve_clients.specs.Held.{held_of, held_in};
ghost use Rattle.serve_clients.specs.Notes.{AreTouched, AreExact, AreSummed, AreNoted, flag_at};

use crate::clients::Client;
use std::alloc::{AllocError, Global};
use std::marker::Model;

// A flag is set, and where it wasn't, the id comes to the end of these. Where memory is refused for that, one is missing there.
fn touch(flags: &mut Vec<bool>, ids: &mut Vec<usize>, id: usize, is_short: &mut bool)
    ensures flags { flags.new.items ≡ slice_set flags.old.items id true }
    ensures touched { AreTouched flags.old.items ids.old.items is_short.old → AreTouched flags.new.items ids.new.items is_short.new }
{
    let Some(flag) = flags.get_mut(id) else {
        return;
    };
    if *flag {
        return;
    }
    *flag = true;
    if ids.push(id).is_err() {
        *is_short = true;
    }
}

// How many bytes are held for who stands at a place.
fn held_by(place: &Option<Client>) -> usize
    ensures { result ≡ held_of place.now }
{
    match place {
        Some(client) => client.held(),
        None => 0,
    }
}

// How many bytes are held for who stands at this place.
fn held_there(all: &Vec<Option<Client>>, id: usize) -> usize
    ensures { result ≡ held_in all.now.items id }
{
    match all.get(id) {
        Some(place) => held_by(place),
        None => 0,
    }
}

// The sum of all notes but that of this place.
fn others(held: &Vec<usize>, total: u128, id: usize) -> u128
    requires total { total ≡ sum held.now.items }
    requires within { id < length held.now.items }
    ensures others { result + slice_index held.now.items id ≡ total }
    ensures fits { result + 2 ^ 64 < 2 ^ 128 }
{
    total - held[id] as u128
}

// This is noted at a place, and the sum goes with it.
fn note(held: &mut Vec<usize>, total: &mut u128, id: usize, count: usize)
    requires { total.old ≡ sum held.old.items }
    ensures note { held.new.items ≡ slice_set held.old.items id count }
    ensures summed { total.new ≡ sum held.new.items }
{
    if id < held.len() {
        *total = others(held, *total, id) + count as u128;
        held[id] = count;
    }
}

fn clear(flags: &mut Vec<bool>, id: usize)
    ensures { flags.new.items ≡ slice_set flags.old.items id false }
{
    if let Some(flag) = flags.get_mut(id) {
        *flag = false;
    }
}

// What is held for who stands at this place is noted.
fn note_at(
    all: &Vec<Option<Client>>,
    held: &mut Vec<usize>,
    flags: &mut Vec<bool>,
    total: &mut u128,
    id: usize,
)
    requires { AreSummed all.now.items held.old.items flags.old.items total.old }
    ensures summed { AreSummed all.now.items held.new.items flags.new.items total.new }
    ensures exact { AreExact all.now.items held.old.items flags.old.items → AreExact all.now.items held.new.items flags.new.items }
    ensures flags { flags.new.items ≡ slice_set flags.old.items id false }
{
    note(held, total, id, held_there(all, id));
    clear(flags, id);
}

// What is held for these is noted.
fn note_listed(
    all: &Vec<Option<Client>>,
    held: &mut Vec<usize>,
    flags: &mut Vec<bool>,
    total: &mut u128,
    ids: &Vec<usize>,
)
    requires { AreSummed all.now.items held.old.items flags.old.items total.old }
    ensures summed { AreSummed all.now.items held.new.items flags.new.items total.new }
    ensures exact { AreExact all.now.items held.old.items flags.old.items → AreExact all.now.items held.new.items flags.new.items }
    ensures noted { (id : ℕ) → flag_at flags.new.items id ≡ true → (flag_at flags.old.items id ≡ true) × (Contains ids.now.items id → ⊥) }
{
    for id in ids {
        note_at(all, held, flags, total, *id);
    }
}

// What is held for all is noted.
fn note_all(
    all: &Vec<Option<Client>>,
    held: &mut Vec<usize>,
    flags: &mut Vec<bool>,
    total: &mut u128,
)
    requires { AreSummed all.now.items held.old.items flags.old.items total.old }
    ensures summed { AreSummed all.now.items held.new.items flags.new.items total.new }
    ensures exact { AreExact all.now.items held.old.items flags.old.items → AreExact all.now.items held.new.items flags.new.items }
    ensures noted { (id : ℕ) → flag_at flags.new.items id ≡ true → ⊥ }
{
    for id in 0..flags.len() {
        note_at(all, held, flags, total, id);
    }
}

// What is held for those that were touched is noted, so that the sum of all notes is what is held for all.
fn note_touched(
    all: &Vec<Option<Client>>,
    held: &mut Vec<usize>,
    flags: &mut Vec<bool>,
    total: &mut u128,
    ids: &mut Vec<usize>,
    is_short: &mut bool,
)
    requires { AreNoted all.now.items held.old.items flags.old.items total.old ids.old.items is_short.old }
    ensures noted { AreNoted all.now.items held.new.items flags.new.items total.new ids.new.items is_short.new }
    ensures total { total.new ≡ sum_by held_of all.now.items }
{
    if *is_short {
        note_all(all, held, flags, total);
    } else {
        note_listed(all, held, flags, total, ids);
    }
    ids.clear();
    *is_short = false;
}

/// Clients by their ids.
#[derive(Drop)]
pub struct Places {
    all: Vec<Option<Client>>,
    // What was held for each when that was noted last.
    held: Vec<usize>,
    // Whether each may have changed since.
    flags: Vec<bool>,
    // The sum of what was noted.
    total: u128,
    // The ids of those that may have changed since.
    touched: Vec<usize>,
    // Whether one may be missing there, as memory was refused for that.
    is_short: bool,
}

impl Model for Places {
    ghost use Rattle.serve_clients.specs.Row.{Row};

    ghost Value = { Row };

    ghost use Rattle.serve_clients.specs.Notes.{AreNoted};

    ghost view = { λ p. record { items = p.all.items } };

    ghost invariant = { λ p. AreNoted p.all.items p.held.items p.flags.items p.total p.touched.items p.is_short };
}

impl Places {
    ghost use Rattle.serve_clients.specs.Places.{LendsPlace};

    /// No places.
    pub fn new(alloc: Global) -> Places
        ensures none { result.items ≡ [] }
    {
        Places {
            all: Vec::new(alloc),
            held: Vec::new(alloc),
            flags: Vec::new(alloc),
            total: 0,
            touched: Vec::new(alloc),
            is_short: false,
        }
    }

    /// How many places there are.
    pub fn len(&self) -> usize
        ensures { result ≡ length self.now.items }
    {
        self.all.len()
    }

    /// All places.
    pub fn as_slice(&self) -> &[Option<Client>]
        ensures { result.now ≡ self.now.items }
    {
        self.all.as_slice()
    }

    /// There is one place more, where nobody stands.
    pub fn push_none(&mut self) -> Result<(), AllocError>
        ensures pushed { OnOk result (self.new.items ≡ self.old.items ++ None ∷ []) }
        ensures refused { OnErr result (self.new.items ≡ self.old.items) }
    {
        self.held.push(0)?;
        self.flags.push(false)?;
        self.all.push(None)?;
        Ok(())
    }

    /// The place of this id. It stays as the borrower leaves it, and all else stays as it is.
    pub fn get_mut(&mut self, id: usize) -> Option<&mut Option<Client>>
        ensures* writes_back { sem 𝓛 (LendsPlace self.entry id result) }
        ensures variant { IsSome result ↔ (id < length self.old.items) }
        ensures value { IfSome result (λ x. x.now ≡ slice_index_or self.old.items id x.now) }
        ensures item { IsItemAtMut self.old.items id result }
    {
        touch(&mut self.flags, &mut self.touched, id, &mut self.is_short);
        self.all.get_mut(id)
    }

    /// How many bytes are held for all clients.
    pub fn held(&mut self) -> u128
        ensures total { result ≡ sum_by held_of self.old.items }
        ensures same { self.new ≡ self.old }
    {
        note_touched(
            &self.all,
            &mut self.held,
            &mut self.flags,
            &mut self.total,
            &mut self.touched,
            &mut self.is_short,
        );
        self.total
    }
}
