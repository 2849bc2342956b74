//! What becomes of each server of a plain tree: whether reads take it, and whether deletes clear it.
ghost use Rattle.std.specs.Prelude.{◌≡◌, IfOk};
ghost use Rattle.gate_gaps.specs.ServerUses.{IsServerUse, AreServersOf, AreServerUses};

use gate_coverage::laws::taken_is_exact;
use gate_coverage::servers::add_servers;
use gate_coverage::taking::is_taken_at_all;
use gate_coverage::{Deleting, cleared};
use mc_types::ServerId;
use route_tree::Plain;
use std::alloc::{AllocError, Global};

/// A server of a plain tree.
#[derive(Clone, Copy)]
pub struct ServerUse {
    pub server: ServerId,
    /// Some read may show or copy what it holds.
    pub is_read: bool,
    /// No delete is acknowledged that hasn't cleared it.
    pub is_cleared: bool,
}

// What becomes of the server.
fn server_use_of(plain: &Plain, deleting: Deleting, server: ServerId) -> ServerUse
    ensures server { result.server ≡ server }
    ensures server_use { IsServerUse plain.now deleting result }
{
    taken_is_exact();
    let _form = plain.form();
    ServerUse {
        server,
        is_read: is_taken_at_all(plain, server),
        is_cleared: cleared(plain, deleting, server),
    }
}

// The servers that the plain tree names, each once.
fn servers_of(alloc: Global, plain: &Plain) -> Result<Vec<ServerId>, AllocError>
    ensures { IfOk result (λ row. AreServersOf plain.now row.items) }
{
    let mut row = Vec::new(alloc);
    add_servers(plain, &mut row)?;
    row.sort_unstable_by_key(|server| server.number());
    row.dedup();
    Ok(row)
}

/// What becomes of each server that the plain tree names. The only error is running out of memory.
pub fn server_uses(
    alloc: Global,
    plain: &Plain,
    deleting: Deleting,
) -> Result<Vec<ServerUse>, AllocError>
    ensures { IfOk result (λ server_uses. AreServerUses plain.now deleting server_uses.items) }
{
    let row = servers_of(alloc, plain)?;
    let mut server_uses = Vec::new(alloc);
    for server in &row {
        server_uses.push(server_use_of(plain, deleting, *server))?;
    }
    Ok(server_uses)
}
