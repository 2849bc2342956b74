//! The laws of meta requests and of their streams.
ghost use Rattle.wire_parts.specs.Requests.{HasLaws};
ghost use Rattle.wire_meta.specs.Laws.{meta_requests};

/// What was read stays read, whatever follows, and nothing else could have been; each ask that is read is of the meta dialect
/// and well formed; and an ask that is written is read back, as this ask alone.
pub fn requests()
    ensures { HasLaws meta_requests }
{}
