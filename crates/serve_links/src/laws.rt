//! Laws of the ends of a proxy, and of what they do to its core.

ghost use Rattle.serve_links.specs.CoreSteps.{IsOfTurn, IsFailure, IsSending, IsAnyCall};
ghost use Rattle.serve_links.specs.Called.{WalksTellCalls};
ghost use Rattle.serve_links.specs.ByServer.{StepsAreCountedByServer};
ghost use Rattle.serve_links.specs.Counts.{StepsAreCounted};
ghost use Rattle.serve_links.specs.InOrder.{ConnectionsAreInOrder, WalksAreFreshLate};
ghost use Rattle.serve_links.specs.Story.{StoriesGoOn};

/// What one end of a proxy does, all its ends do, and they go on one after another: by all calls of a core, by all but loads, where calls
/// only fail, and where they are sent or fail. (A clause speaks of one kind of calls; `proofs/Story` has the same for any.)
pub fn stories_go_on()
    ensures calls { StoriesGoOn IsAnyCall }
    ensures turns { StoriesGoOn IsOfTurn }
    ensures failures { StoriesGoOn IsFailure }
    ensures sendings { StoriesGoOn IsSending }
{}

/// Whatever calls of a core are made, a call that it gave out is out until it is settled, asks there what it asked, and until then none of its
/// number is given out.
pub fn walks_tell_calls()
    ensures { WalksTellCalls }
{}

/// Whatever calls of a core are made, what it counts is what they were, as far as a count goes: how many clients were opened and turned away, how many
/// messages its polls told to have been refused, how many commands to have ended, and of each operation how many with a reply of each kind, and how many
/// calls they gave out. Where each call that was settled was out, as in an orderly walk, so is how many were answered and how many have failed.
pub fn steps_are_counted()
    ensures { StepsAreCounted }
{}

/// In an orderly walk, what a core counts of a server's calls is how many of it the polls gave out, and how many of those were
/// answered and have failed. It is so where no call was counted at no server ([`core_accepted::CoreTally::unplaced`]): while memory for the counts was
/// refused, or for a server that no configuration has.
pub fn steps_are_counted_by_server()
    ensures { StepsAreCountedByServer }
{}

/// Where what is done to a server's connections is in order, a new one is begun only where none is there: so, if a server applies what came over
/// each of its connections in its order and nothing of it after that was closed, it is as if it had one connection, and applied what was
/// sent over that in its order.
pub fn connections_are_in_order()
    ensures { ConnectionsAreInOrder }
{}

/// A core that is fresh over connections in order is so over those of the walk that led to it, where that is in order: however late servers
/// apply what was sent to them, a command that begins after a delete of its key was acknowledged shows no item of a store that was over when
/// the delete began.
pub fn walks_are_fresh_late()
    ensures { WalksAreFreshLate }
{}
