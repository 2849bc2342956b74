//! What a command that is under way has still to do.

use crate::done::Done;
use crate::formed_ask::FormedAsk;
use mc_types::ServerId;
use route_tree::{Children, Tree};

/// The two sides of a warm-up. They are shared with the tree.
#[derive(Drop)]
pub struct Sides {
    pub cold: Tree,
    pub warm: Tree,
    pub exptime: u32,
}

/// A route whose child is asked: what it goes on with when the child has given its reply.
#[derive(Drop)]
pub enum Frame {
    /// AllSync: the children that are still to be asked, and the worst reply so far.
    All {
        rest: Children,
        worst: Option<Done>,
    },
    /// Failover and MissFailover: the children that are still to be asked, if the reply has this rank or a greater one.
    First {
        rest: Children,
        limit: u8,
    },
    /// WarmUp: the cold side is asked.
    Cold {
        sides: Sides,
    },
    /// WarmUp: the warm side is asked this get; the cold one gave the first reply.
    Warm {
        sides: Sides,
        first: Done,
        get: FormedAsk,
    },
    /// WarmUp: the cold side is asked this add, of what call `from` of the warm side was answered.
    Refill {
        sides: Sides,
        from_warm: Done,
        from: u64,
        add: FormedAsk,
    },
}

/// What a command has to do next.
#[derive(Drop)]
pub enum Pending {
    /// Ask this tree.
    Enter(Tree),
    /// Call this server.
    Call(ServerId),
    /// Give this to the inmost frame; without a frame it is the end of the command.
    Back(Done),
}

/// One step on: the frame that is put down, if any, and what is to be done next.
#[derive(Drop)]
pub struct Advance {
    pub frame: Option<Frame>,
    pub pending: Pending,
}
