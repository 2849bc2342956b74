//! A list that is being worked off.

use std::alloc::Global;

/// The room of the list that was worked off last, kept so that none is made anew each turn. What is marked while a list is worked off
/// comes into this room.
#[derive(Drop)]
pub struct Worklist {
    alloc: Global,
    room: Vec<usize>,
}

impl Worklist {
    /// Nothing is kept yet.
    pub fn new(alloc: Global) -> Worklist {
        Worklist {
            alloc,
            room: Vec::new(alloc),
        }
    }

    /// What stands in the list is to be worked off, and the list is empty from now on.
    pub fn take(&mut self, list: &mut Vec<usize>) -> Vec<usize> {
        let room = std::mem::replace(&mut self.room, Vec::new(self.alloc));
        std::mem::replace(list, room)
    }

    /// It is worked off.
    pub fn end(&mut self, done: Vec<usize>) {
        let mut done = done;
        done.clear();
        self.room = done;
    }
}
