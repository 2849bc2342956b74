//! Far ends of a wire in memory, which do what an example says as it goes.

use examples_memory::{Act, Memory, Peer};
use serve_wire::{Accepted, Wire};
use std::alloc::Global;
use std::test::Fail;

fn peer_of(wire: &mut Memory, name: u32) -> Result<&mut Peer, Fail> {
    match wire.peer_mut(name) {
        Some(peer) => Ok(peer),
        None => Err("no such far end")?,
    }
}

/// A far end of this name connects, which takes nothing yet. The answer is its connection's number.
pub fn connect(alloc: Global, wire: &mut Memory, name: u32) -> Result<usize, Fail> {
    let mut peer = Peer::new(alloc, name);
    peer.room = 0;
    wire.will_connect(0, peer)?;
    match wire.accept() {
        Accepted::Peer(number) => Ok(number),
        _ => Err("nobody came")?,
    }
}

/// After all else it does this.
pub fn then(wire: &mut Memory, name: u32, act: Act) -> Result<(), Fail> {
    let peer = peer_of(wire, name)?;
    Ok(peer.then(act)?)
}

/// It takes so many bytes more.
pub fn may_take(wire: &mut Memory, name: u32, count: usize) -> Result<(), Fail> {
    let peer = peer_of(wire, name)?;
    peer.room = peer.taken().len().saturating_add(count);
    Ok(())
}
