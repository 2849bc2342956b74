//! New slots, planned: the added server gets slots of those that have the most, and those of a removed one go to those that have
//! the fewest. Nothing is promised here: `testing` looks at what was planned.

use crate::slots::change::ServerChange;
use crate::slots::counts::SlotCounts;
use crate::slots::earlier::never_had;
use mc_types::ServerId;
use std::alloc::{AllocError, Global};

// Which slots a server may be given: those that aren't its own, and of which it never had a key.
fn slots_for(
    alloc: Global,
    slots: &[ServerId],
    server: ServerId,
    earlier: &[Vec<ServerId>],
) -> Result<Vec<bool>, AllocError> {
    let mut free = Vec::new(alloc);
    for (slot, holder) in slots.iter().enumerate() {
        free.push(*holder != server && never_had(earlier, server, slot, slots.len()))?;
    }
    Ok(free)
}

fn is_free(free: &[bool], slot: usize) -> bool {
    match free.get(slot) {
        Some(is_free) => *is_free,
        None => false,
    }
}

// The first free slot of the server that has the most slots.
fn heaviest(slots: &[ServerId], free: &[bool], counts: &SlotCounts) -> Option<(usize, ServerId)> {
    let mut found = None;
    let mut most = 0;
    for (slot, holder) in slots.iter().enumerate() {
        let count = counts.of_server(*holder);
        if is_free(free, slot) && count > most {
            most = count;
            found = Some((slot, *holder));
        }
    }
    found
}

// Gives a slot to a server.
fn give(slots: &mut [ServerId], slot: usize, server: ServerId) {
    if let Some(holder) = slots.get_mut(slot) {
        *holder = server;
    }
}

fn close(free: &mut [bool], slot: usize) {
    if let Some(is_free) = free.get_mut(slot) {
        *is_free = false;
    }
}

/// Gives so many slots to the server that is added.
pub fn grown(
    alloc: Global,
    slots: &[ServerId],
    server: ServerId,
    share: usize,
    earlier: &[Vec<ServerId>],
) -> Result<Vec<ServerId>, AllocError> {
    let mut new = Vec::from_slice(alloc, slots)?;
    let mut free = slots_for(alloc, slots, server, earlier)?;
    let mut counts = SlotCounts::of(alloc, slots)?;
    for _given in 0..share {
        if let Some((slot, holder)) = heaviest(&new, &free, &counts) {
            give(&mut new, slot, server);
            close(&mut free, slot);
            counts.take(holder);
        }
    }
    Ok(new)
}

// Of these servers the one that has the fewest slots and may be given this one, of so many.
fn lightest(
    others: &[ServerId],
    counts: &SlotCounts,
    earlier: &[Vec<ServerId>],
    slot: usize,
    count: usize,
) -> Option<ServerId> {
    let mut found = None;
    let mut fewest = u32::MAX;
    for server in others {
        let held = counts.of_server(*server);
        if held < fewest && never_had(earlier, *server, slot, count) {
            fewest = held;
            found = Some(*server);
        }
    }
    found
}

/// Gives the slots of the server that is taken out to the others.
pub fn shrunk(
    alloc: Global,
    slots: &[ServerId],
    server: ServerId,
    others: &[ServerId],
    earlier: &[Vec<ServerId>],
) -> Result<Vec<ServerId>, AllocError> {
    let mut new = Vec::from_slice(alloc, slots)?;
    let mut counts = SlotCounts::of(alloc, slots)?;
    for server in others {
        counts.reach(*server)?;
    }
    for (slot, holder) in slots.iter().enumerate() {
        if *holder != server {
            continue;
        }
        if let Some(other) = lightest(others, &counts, earlier, slot, slots.len()) {
            give(&mut new, slot, other);
            counts.add(other);
        }
    }
    Ok(new)
}
