//! The slots of a pool after a change.

ghost use Rattle.std.specs.Prelude.{IfOk, IfSome, map};
ghost use Rattle.gate_plan.specs.Slots.{IsRewritten};

use crate::slots::change::ServerChange;
use crate::slots::planning::{grown, shrunk};
use crate::slots::testing::{is_rewritten, share};
use mc_types::ServerId;
use std::alloc::{AllocError, Global};

fn planned(
    alloc: Global,
    change: &ServerChange,
    others: &[ServerId],
    earlier: &[Vec<ServerId>],
    slots: &[ServerId],
) -> Result<Vec<ServerId>, AllocError> {
    match change {
        ServerChange::Add(server) => {
            let share = share(slots.len(), others.len());
            grown(alloc, slots, *server, share, earlier)
        }
        ServerChange::Remove(server) => shrunk(alloc, slots, *server, others, earlier),
    }
}

/// The slots of a pool after a change, as few as can be moved: those that the added server gets, its share, or those that the removed
/// one had. None goes to a server that had a key of it by these earlier lists; `None` where no such way was found. `others` are the
/// servers of the pool's list but for the one that is added or taken out. The only error is that memory was refused.
pub fn rewritten(
    alloc: Global,
    change: &ServerChange,
    others: &[ServerId],
    earlier: &[Vec<ServerId>],
    slots: &[ServerId],
) -> Result<Option<Vec<ServerId>>, AllocError>
    ensures { IfOk result (λ found. IfSome found (λ new. IsRewritten change.now others.now (map (λ v. v.items) earlier.now) slots.now new.items)) }
{
    let new = planned(alloc, change, others, earlier, slots)?;
    if is_rewritten(change, others, earlier, slots, &new) {
        Ok(Some(new))
    } else {
        Ok(None)
    }
}
