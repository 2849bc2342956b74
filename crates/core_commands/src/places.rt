//! How many there are at each place: calls out at each server, commands of each client.

ghost use Rattle.std.specs.Prelude.{◌≡◌, ◌+◌, ◌-◌, ◌<◌, ℕ, [], true, length, slice_index_or};
ghost use Rattle.core_commands.specs.Counts.{SetsCountAt};

use std::alloc::Global;
use std::marker::Model;

// So many places are counted: servers and clients have small numbers, each the lowest that was free.
const PLACES: usize = 65_536;

/// How many there are at each place. It looks nothing up but the place itself, and takes memory for the places before it too.
#[derive(Drop)]
pub struct CountsByPlace {
    counts: Vec<usize>,
}

impl Model for CountsByPlace {
    ghost use Rattle.std.specs.Prelude.{ℕ, List};

    ghost Value = { List ℕ };

    ghost view = { λ c. c.counts.items };
}

impl CountsByPlace {
    /// None anywhere. It takes no memory.
    pub fn new(alloc: Global) -> CountsByPlace
        ensures { result ≡ [] }
    {
        CountsByPlace {
            counts: Vec::new(alloc),
        }
    }

    /// How many there are at this place. It takes no memory.
    pub fn count_of(&self, place: usize) -> usize
        ensures { result ≡ slice_index_or self.now place 0 }
    {
        match self.counts.get(place) {
            None => 0,
            Some(count) => *count,
        }
    }

    // Whether this place has a count, for which memory is taken where it had none.
    fn reach(&mut self, place: usize) -> bool
        ensures there { result ≡ true → place < length self.new }
        ensures same { (q : ℕ) → slice_index_or self.new q 0 ≡ slice_index_or self.old q 0 }
    {
        if place < self.counts.len() {
            return true;
        }
        if PLACES <= place {
            return false;
        }
        self.counts.resize(place + 1, 0).is_ok()
    }

    /// There is one more at this place. Whether that is counted: not where memory was refused, or the place is 65,536 or more.
    pub fn count_one(&mut self, place: usize) -> bool
        ensures { result ≡ true → SetsCountAt place (slice_index_or self.old place 0 + 1) self.old self.new }
    {
        if !self.reach(place) {
            return false;
        }
        match self.counts[place].checked_add(1) {
            None => false,
            Some(more) => {
                self.counts[place] = more;
                true
            }
        }
    }

    /// There is one less at this place. Whether that is counted. It takes no memory.
    pub fn uncount_one(&mut self, place: usize) -> bool
        ensures { result ≡ true → SetsCountAt place (slice_index_or self.old place 0 - 1) self.old self.new }
    {
        if self.counts.len() <= place {
            return false;
        }
        match self.counts[place].checked_sub(1) {
            None => false,
            Some(fewer) => {
                self.counts[place] = fewer;
                true
            }
        }
    }
}
