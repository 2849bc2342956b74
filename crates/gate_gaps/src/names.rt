//! The names of operations, of the two kinds of delete and of servers, as they are printed.

ghost use Rattle.std.specs.Prelude.{◌≡◌};
ghost use Rattle.gate_gaps.specs.Names.{op_name, delete_name, server_address};

use gate_coverage::Deleting;
use mc_types::{Op, ServerId};
use route_json::addresses::Servers;

/// The name of an operation, which is its word in the classic dialect.
pub fn op_name(op: Op) -> &'static str
    ensures { result.now ≡ op_name op }
{
    match op {
        Op::Get => "get",
        Op::Gat => "gat",
        Op::Set => "set",
        Op::Add => "add",
        Op::Replace => "replace",
        Op::Append => "append",
        Op::Prepend => "prepend",
        Op::Cas => "cas",
        Op::Delete => "delete",
        Op::Incr => "incr",
        Op::Decr => "decr",
        Op::Touch => "touch",
    }
}

/// The word of a kind of delete: `delete` of the classic dialect, or `md` of the meta dialect.
pub fn delete_name(deleting: Deleting) -> &'static str
    ensures { result.now ≡ delete_name deleting }
{
    match deleting {
        Deleting::Delete => "delete",
        Deleting::Md => "md",
    }
}

/// The address of a server; no text where there is no such server.
pub fn address_of(servers: &Servers, server: ServerId) -> &str
    ensures { result.now ≡ server_address servers.now server }
{
    servers.get(server).unwrap_or("")
}
