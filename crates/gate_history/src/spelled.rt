//! How a generation is spelled as a line.

ghost use Rattle.std.specs.Prelude.{◌≡◌, IfOk, string_bytes};
ghost use Rattle.gate_history.specs.Spelled.{word_of, head_of, before_comma};

use gate_growth::ledger::Beginning;
use route_tree::fnv1a_32;
use std::alloc::{AllocError, Global};

/// The word of a beginning.
pub fn word_of(began: Beginning) -> &'static str
    ensures { result.now ≡ word_of began }
{
    match began {
        Beginning::Any => "any",
        Beginning::Own => "own",
    }
}

/// What stands before the configuration in the part of a line that its sum is of. The only error is that memory was refused.
pub fn head_of(alloc: Global, generation: u32, began: Beginning) -> Result<String, AllocError>
    ensures { IfOk result (λ head. string_bytes head ≡ head_of generation began) }
{
    let word = word_of(began);
    let mut head = format!(in alloc; "\"generation\":{generation},\"new_servers\":\"")?;
    head.push_str(word)?;
    head.push_str("\",\"config\":")?;
    Ok(head)
}

/// What stands in a line before the comma and the part that its sum is of. The only error is that memory was refused.
pub fn front_of(alloc: Global, body: &str) -> Result<String, AllocError>
    ensures { IfOk result (λ front. string_bytes front ≡ before_comma body.now) }
{
    let sum = fnv1a_32(body.as_bytes());
    let mut front = String::from_str(alloc, "{\"sum\":")?;
    front.push_str(format!(in alloc; "{sum}")?.as_str())?;
    Ok(front)
}
