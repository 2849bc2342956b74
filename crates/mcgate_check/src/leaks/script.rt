//! The events of a refusal run.
ghost use Rattle.std.specs.Prelude.{◌≡◌, ◌++◌, List, map, IfOk, OnOk};
ghost use Rattle.gate_gaps.specs.Scripts.{fail_lines};
ghost use Rattle.script_events.specs.Scripted.{scripted_of};
ghost use Rattle.mcgate_check.specs.Commands.{script_for};

use crate::leaks::commands::{delete_line, read_line};
use crate::leaks::failures::Failures;
use mc_types::{Key, Op, ServerId};
use script_events::{Event, Manner, Script};
use std::alloc::{AllocError, Global};

// The next so many calls fail, not applied.
fn add_failures(events: &mut Vec<Event>, count: u32) -> Result<(), AllocError>
    ensures { OnOk result (map scripted_of events.new.items ≡ map scripted_of events.old.items ++ fail_lines count) }
{
    for made in 0..count {
        events.push(Event::Fail(made + 1, Manner::Before))?;
    }
    Ok(())
}

/// The script in which the server holds `1` under the key, so many calls of the delete fail, and so many of the read. The only
/// error is running out of memory.
pub fn script_for(
    alloc: Global,
    server: ServerId,
    key: &Key,
    op: Op,
    failures: Failures,
) -> Result<Script, AllocError>
    ensures { IfOk result (λ script. map scripted_of script.events.items ≡ script_for server key.now op failures.delete failures.read) }
{
    let mut events = Vec::new(alloc);
    events.push(Event::Hold(server, *key, Vec::from_slice(alloc, b"1")?))?;
    add_failures(&mut events, failures.delete)?;
    events.push(Event::Piece(0, delete_line(alloc, key)?))?;
    add_failures(&mut events, failures.read)?;
    events.push(Event::Piece(0, read_line(alloc, op, key)?))?;
    Ok(Script { events })
}
