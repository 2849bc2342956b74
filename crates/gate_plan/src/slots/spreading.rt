//! A list of slots as a table that is long enough to be divided.

ghost use Rattle.std.specs.Prelude.{◌<◌, IfOk, length};
ghost use Rattle.gate_plan.specs.Slots.{SameServers};

use mc_types::ServerId;
use std::alloc::{AllocError, Global};

/// How many slots a table has that a short list becomes, at most.
const TABLE_LEN: usize = 1024;

// How many times a list of so many slots stands in a table.
fn times(len: usize) -> usize
    requires { 0 < len }
    ensures { 0 < result }
{
    if len >= TABLE_LEN { 1 } else { TABLE_LEN / len }
}

/// The table of these slots, as often one after another as 1,024 slots have room for them: each key keeps its server. The
/// only error is that memory was refused.
pub fn table_of(alloc: Global, slots: &[ServerId]) -> Result<Vec<ServerId>, AllocError>
    requires { 0 < length slots.now }
    ensures { IfOk result (λ table. SameServers slots.now table.items) }
{
    let mut table = Vec::new(alloc);
    for _time in 0..times(slots.len()) {
        table.extend_from_slice(slots)?;
    }
    Ok(table)
}
