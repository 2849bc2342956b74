//! The core with which an end begins.

ghost use Rattle.std.specs.Prelude.{◌≡◌, IfOk};
ghost use Rattle.serve_proxy.specs.Beginning.{limits_by, BeginsFresh, BeginsUnchecked};

use core_accepted::{Beginnings, ServedCore};
use core_proxy::CoreLimits;
use gate_check::Accepted;
use route_tree::Tree;
use serve_links::Settings;
use std::alloc::{AllocError, Global};

// How many bytes of a client the core holds.
const HELD_LIMIT: usize = 2_097_152;

fn limits_of(settings: Settings) -> CoreLimits
    ensures { result ≡ limits_by settings }
{
    CoreLimits {
        clients: settings.clients,
        held: HELD_LIMIT,
        depth: settings.client_window,
        window: settings.link_window,
        sharing: settings.sharing,
        version: settings.version,
    }
}

/// A new core on accepted trees, where servers began so.
pub fn fresh_core(
    alloc: Global,
    accepted: Accepted,
    begun: Beginnings,
    settings: Settings,
) -> Result<Box<ServedCore>, AllocError>
    ensures { IfOk result (λ core. BeginsFresh accepted begun settings core.value) }
{
    let core = ServedCore::new_from(alloc, accepted, begun, limits_of(settings))?;
    Ok(Box::new(alloc, core)?)
}

/// A new core on a tree of which no gate was asked, for so many servers.
pub fn unchecked_core(
    alloc: Global,
    tree: Tree,
    servers: usize,
    settings: Settings,
) -> Result<Box<ServedCore>, AllocError>
    ensures { IfOk result (λ core. BeginsUnchecked tree settings core.value) }
{
    let core = ServedCore::unchecked(alloc, tree, servers, limits_of(settings));
    Ok(Box::new(alloc, core)?)
}
