//! The commands of one client.

ghost use Rattle.std.specs.Prelude.{◌≡◌, ◌+◌, ℕ, None, if◌then◌else◌, nat_eq, position, IsSome, IfSome, IfNone};
ghost use Rattle.indexmap.specs.IndexMap.{get, values, index_map_len};
ghost use Rattle.core_commands.specs.Owned.{has_commands, is_idle, HasIdle, IsAllOut};

use crate::begun::drop_command;
use crate::command::Command;
use crate::command_table::CommandTable;
use indexmap::IndexMap;

// Whether one of the commands is this client's.
fn any_of(client: usize, commands: &IndexMap<u64, Command>) -> bool
    ensures { result ≡ has_commands client commands.now }
{
    commands.values().any(|command| command.client == client)
}

/// Whether one of the commands is this client's, by looking at all of them.
pub fn has_commands(client: usize, commands: &CommandTable) -> bool
    ensures { result ≡ has_commands client commands.now }
{
    any_of(client, commands.by_number())
}

// Whether the command is this client's and no call of it is out.
fn is_idle(client: usize, command: &Command) -> bool
    ensures { result ≡ is_idle client command.now }
{
    command.client == client && !command.is_out
}

// Where the first command of this client stands of which no call is out.
fn first_place(client: usize, commands: &IndexMap<u64, Command>) -> Option<usize>
    ensures { result ≡ position (is_idle client) (values commands.now) }
{
    commands
        .values()
        .position(|command| is_idle(client, command))
}

// The number of the first command of this client of which no call is out.
fn first_idle(client: usize, commands: &IndexMap<u64, Command>) -> Option<u64>
    ensures some { IfSome result (λ n. HasIdle client commands.now n) }
    ensures none { IfNone result (IsAllOut client commands.now) }
{
    let place = first_place(client, commands)?;
    match commands.get_index(place) {
        Some((number, _)) => Some(*number),
        None => unreachable!(),
    }
}

/// The command of this number is taken out. It takes no memory.
pub fn remove(number: u64, commands: &mut CommandTable)
    ensures gone { (n : ℕ) → get nat_eq commands.new n ≡ (if nat_eq number n then None else get nat_eq commands.old n) }
    ensures less { IsSome (get nat_eq commands.old number) → index_map_len commands.new + 1 ≡ index_map_len commands.old }
{
    if let Some(command) = commands.remove(number) {
        drop_command(command);
    }
}

/// The number of a command of this client of which no call is out, by looking at all of them. It takes no memory.
pub fn idle_in(client: usize, commands: &CommandTable) -> Option<u64>
    ensures some { IfSome result (λ n. HasIdle client commands.now n) }
    ensures none { IfNone result (IsAllOut client commands.now) }
{
    first_idle(client, commands.by_number())
}
