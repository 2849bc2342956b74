//! Where the commands under way are guessed to stand.

use std::alloc::Global;

// So many numbers in a row have a guess each: more than there are commands under way of 64 clients with 16 each.
const GUESSES: usize = 2_048;

/// Where the commands of the last numbers are guessed to stand in their table. Commands are numbered in the order in which they begin, so
/// those that are under way mostly have a guess each, and their numbers needn't be hashed.
///
/// A guess may be wrong: whoever takes one looks who stands there.
#[derive(Drop)]
pub struct Guesses {
    places: Vec<usize>,
}

// Which guess is for this number.
fn slot_of(number: u64) -> usize {
    number as usize % GUESSES
}

impl Guesses {
    /// None. It takes no memory.
    pub fn new(alloc: Global) -> Guesses {
        Guesses {
            places: Vec::new(alloc),
        }
    }

    /// Guesses are kept from now on. Where memory was refused they aren't.
    pub fn make_room(&mut self) {
        if self.places.is_empty() {
            let _ = self.places.resize(GUESSES, 0);
        }
    }

    /// The guess for this number. It takes no memory.
    pub fn guess_of(&self, number: u64) -> usize {
        match self.places.get(slot_of(number)) {
            None => 0,
            Some(place) => *place,
        }
    }

    /// The command of this number stands at this place now. It takes no memory.
    pub fn note(&mut self, number: u64, place: usize) {
        if let Some(guess) = self.places.get_mut(slot_of(number)) {
            *guess = place;
        }
    }
}
