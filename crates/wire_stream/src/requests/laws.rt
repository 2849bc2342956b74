//! The laws of requests of both dialects, and of their streams.
ghost use Rattle.wire_parts.specs.Requests.{HasLaws};
ghost use Rattle.wire_stream.specs.Laws.{both_requests, WalkStill};

/// What was read stays read, whatever follows, and nothing else could have been, in either dialect; each ask that is read is
/// well formed; and an ask that is written is read back, as this ask alone.
pub fn requests()
    ensures { HasLaws both_requests }
{}

/// A walk over the asks of a request goes on when more has come.
pub fn walk_still()
    ensures { WalkStill }
{}
