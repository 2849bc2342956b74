//! Far ends of a wire in memory, as a script names them: who calls, and which host's next connection they answer.

use crate::acts::put_act;
use crate::memory::Memory;
use crate::peer::Peer;
use std::alloc::Global;
use std::test::Fail;

/// A wire that is being scripted.
#[derive(Drop)]
pub struct Peers {
    alloc: Global,
    // None once something stands on it.
    wire: Option<Memory>,
    // Whose script is being written.
    peer: Option<Peer>,
}

impl Peers {
    /// Nobody is there.
    pub fn new(alloc: Global) -> Peers {
        Peers {
            alloc,
            wire: Some(Memory::new(alloc)),
            peer: None,
        }
    }

    /// The wire, with all that was scripted.
    pub fn take(&mut self) -> Result<Memory, Fail> {
        match self.wire.take() {
            Some(wire) => Ok(wire),
            None => Err("the proxy has begun")?,
        }
    }

    // The script is whole: the far end calls, or answers.
    fn place(&mut self, verb: &str, text: &str) -> Result<(), Fail> {
        let (Some(wire), Some(peer)) = (self.wire.as_mut(), self.peer.take()) else {
            return Err("no peer")?;
        };
        if verb == "calls" {
            wire.will_connect(text.parse::<u64>()?, peer)?;
        } else {
            wire.will_answer(text.as_bytes(), peer)?;
        }
        Ok(())
    }

    fn add_host(&mut self, text: &str) -> Result<(), Fail> {
        match &mut self.wire {
            Some(wire) => Ok(wire.add_host(text.as_bytes())?),
            None => Err("the proxy has begun")?,
        }
    }

    fn act(&mut self, verb: &str, text: &str) -> Result<(), Fail> {
        match &mut self.peer {
            Some(peer) => put_act(self.alloc, peer, verb, text),
            None => Err("no peer")?,
        }
    }

    /// A line of the script.
    pub fn script(&mut self, verb: &str, text: &str) -> Result<(), Fail> {
        match verb {
            "host" => self.add_host(text),
            "peer" => {
                self.peer = Some(Peer::new(self.alloc, text.parse::<u32>()?));
                Ok(())
            }
            "calls" | "answers" => self.place(verb, text),
            _ => self.act(verb, text),
        }
    }
}
