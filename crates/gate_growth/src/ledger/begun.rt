//! How the servers of generations began.

ghost use Rattle.std.specs.Prelude.{◌≡◌, ℕ, ◌<◌, ◌^◌, Bool, IfOk, length, max};
ghost use Rattle.gate_growth.specs.Pages.{AreBegun, AreOpened};

use crate::ledger::page::Beginning;
use std::alloc::{AllocError, Global};

/// How servers began: these, and new ones up to this number of servers. The only error is that memory was refused.
pub fn all_begun(
    alloc: Global,
    known: &[Beginning],
    servers: usize,
    new: Beginning,
) -> Result<Vec<Beginning>, AllocError>
    requires few_known { length known.now < 2 ^ 32 }
    requires few { servers < 2 ^ 32 }
    ensures begun { IfOk result (λ begun. (arbitrary : ℕ → Bool) → AreBegun arbitrary known.now → AreOpened arbitrary (length known.now) servers new → AreBegun arbitrary begun.items) }
    ensures size { IfOk result (λ begun. length begun.items ≡ max (length known.now) servers) }
{
    let mut begun = Vec::from_slice(alloc, known)?;
    for _server in known.len()..servers {
        begun.push(new)?;
    }
    Ok(begun)
}
