//! The laws of requests and of their streams.
ghost use Rattle.wire_parts.specs.Requests.{HasLaws};
ghost use Rattle.wire_classic.specs.Laws.{classic_requests, ClassicWalkStill};

/// What was read stays read, whatever follows, and nothing else could have been; each ask that is read is classic and well
/// formed; and an ask that is written is read back, as this ask alone.
pub fn requests()
    ensures { HasLaws classic_requests }
{}

/// A walk over the asks of a request goes on when more has come.
pub fn walk_still()
    ensures { ClassicWalkStill }
{}
