//! The laws of what a proxy's walk shows, beside those on which the program stands. Each is a function whose contract is the
//! law.

ghost use Rattle.std.specs.Prelude.{◌≡◌, Some};
ghost use Rattle.core_accepted.specs.Known.{Known};
ghost use Rattle.fresh_theory.specs.NumberWalks.{EveryLateWalkIsFreshByNumber};
ghost use Rattle.fresh_theory.specs.Spelled.{SpelledTellAlways, InOrderHappensAlong};
ghost use Rattle.fresh_theory.specs.Flushed.{FlushedWalksAreFreshLate, FlushedBeginSo};

use core_accepted::ServedCore;
use core_accepted::laws::accepted_trees_are_sound;

/// Where each command has its key alone, each walk in order that led to a core on trees that the gate accepted is fresh by
/// numbers, too, however late servers apply what was sent over its connections.
pub fn late_walks_are_fresh_by_number(core: &ServedCore)
    ensures { (known : Known) → core.now.accepted ≡ Some known → EveryLateWalkIsFreshByNumber known core.now }
{
    accepted_trees_are_sound(core);
}

/// Where all happens in order, and the answers that come over connections are the servers', in the order in which each
/// applied what came there, each call has by the log the answer that its server gave to just that call.
pub fn spelled_tell_always()
    ensures { SpelledTellAlways }
{}

/// So all that is proved of what happens along a walk holds where no more than that order is said of answers.
pub fn in_order_happens_along()
    ensures { InOrderHappensAlong }
{}

/// A core that is fresh over connections in order to servers that held nothing of what they were flushed of is so over
/// those of the walk that led to it, where that is in order and no server applied a call before it was flushed: whatever
/// these held before, and however late they apply what was sent to them.
pub fn flushed_walks_are_fresh_late()
    ensures { FlushedWalksAreFreshLate }
{}

/// What a clause says of servers that began as `--opened` and `--new-servers` say, as that of `serve_to_end` does of late
/// calls, holds also of those that held something and were flushed before they applied a call, where all is in order.
pub fn flushed_begin_so()
    ensures { FlushedBeginSo }
{}
