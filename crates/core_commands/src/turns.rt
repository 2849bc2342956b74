//! What a command that is under way can do next.

ghost use Rattle.std.specs.Prelude.{◌≡◌};
ghost use Rattle.core_commands.specs.Ready.{IsCommandTurn, goes_on};

use crate::command_table::CommandTable;

/// What a command can do next.
#[derive(Clone, Copy)]
pub enum Turn {
    /// Its next call can go out.
    Sends,
    /// Its next call waits, as its server has as many as it may have.
    Full,
    /// It can end.
    Ends,
    /// Its call is out, or it isn't there.
    Rests,
}

impl Turn {
    /// Whether the command can go on.
    pub fn goes_on(self) -> bool
        ensures { result ≡ goes_on self }
    {
        match self {
            Turn::Sends | Turn::Ends => true,
            Turn::Full | Turn::Rests => false,
        }
    }
}

/// What the command of this number can do, where it is this client's.
pub fn turn_of(client: usize, window: usize, number: u64, commands: &CommandTable) -> Turn
    ensures { IsCommandTurn client window commands.now number result }
{
    let Some(command) = commands.get(number) else {
        return Turn::Rests;
    };
    if command.client != client {
        return Turn::Rests;
    }
    match command.job.server() {
        None => Turn::Ends,
        Some(server) => {
            if command.is_out {
                Turn::Rests
            } else if commands.calls_at(server) < window {
                Turn::Sends
            } else {
                Turn::Full
            }
        }
    }
}
