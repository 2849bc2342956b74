//! Which of a client's commands can go on.

ghost use Rattle.std.specs.Prelude.{◌≡◌, None, IfSome, IfNone};
ghost use Rattle.core_commands.specs.Ready.{IsCommandTurn};
ghost use Rattle.core_commands.specs.declared.turns.Turn.TheVariants.{Full};
ghost use Rattle.core_proxy.specs.Resting.{IsReady, IsHeldUp, AreHeldUp, AreNotFull};

use core_client::Pending;
use core_commands::{CommandTable, Turn, turn_of};
use std::collections::VecDeque;

/// A command, and what it can do.
#[derive(Clone, Copy)]
pub struct Runnable {
    pub number: u64,
    pub turn: Turn,
}

// What a command can do whose reply hasn't come, if it can go on.
fn ready_of(
    client: usize,
    window: usize,
    pending: &Pending,
    commands: &CommandTable,
) -> Option<Runnable>
    ensures some { IfSome result (λ ready. IsReady client window commands.now ready) }
    ensures none { IfNone result (pending.now.reply ≡ None → IsHeldUp client window commands.now pending.now.number) }
{
    if pending.reply.is_some() {
        return None;
    }
    let number = pending.number;
    let turn = turn_of(client, window, number, commands);
    if turn.goes_on() {
        Some(Runnable { number, turn })
    } else {
        None
    }
}

/// The first of a client's commands that can go on.
pub fn first_ready(
    client: usize,
    window: usize,
    queue: &VecDeque<Pending>,
    commands: &CommandTable,
) -> Option<Runnable>
    ensures some { IfSome result (λ ready. IsReady client window commands.now ready) }
    ensures none { IfNone result (AreHeldUp client window commands.now queue.now.items) }
{
    for pending in queue.iter() {
        if let Some(ready) = ready_of(client, window, pending, commands) {
            return Some(ready);
        }
    }
    None
}

// The number of a command whose reply hasn't come, if it waits for its server.
fn full_of(client: usize, window: usize, pending: &Pending, commands: &CommandTable) -> Option<u64>
    ensures some { IfSome result (λ number. IsCommandTurn client window commands.now number Full) }
    ensures none { IfNone result (pending.now.reply ≡ None → IsCommandTurn client window commands.now pending.now.number Full → ⊥) }
{
    let number = pending.number;
    match turn_of(client, window, number, commands) {
        Turn::Full if pending.reply.is_none() => Some(number),
        _ => None,
    }
}

/// The first of a client's commands that waits for its server.
pub fn first_full(
    client: usize,
    window: usize,
    queue: &VecDeque<Pending>,
    commands: &CommandTable,
) -> Option<u64>
    ensures some { IfSome result (λ number. IsCommandTurn client window commands.now number Full) }
    ensures none { IfNone result (AreNotFull client window commands.now queue.now.items) }
{
    for pending in queue.iter() {
        if let Some(number) = full_of(client, window, pending, commands) {
            return Some(number);
        }
    }
    None
}
