//! Why a server is a gap of a plain tree.
ghost use Rattle.std.specs.Prelude.{IfOk};
ghost use Rattle.gate_coverage.specs.Cover.{Takes};
ghost use Rattle.gate_gaps.specs.Explanations.{Explains};

use crate::server_uses::{ServerUse, server_uses};
use crate::ways::{WayStep, add_way};
use gate_coverage::Deleting;
use gate_coverage::laws::taken_is_exact;
use mc_types::{Op, ServerId};
use route_tree::Plain;
use std::alloc::{AllocError, Global};

/// The way by which a read reaches a server, and what becomes of each server of the plain tree.
#[derive(Drop)]
pub struct Explanation {
    pub way: Vec<WayStep>,
    pub server_uses: Vec<ServerUse>,
}

/// How the operation takes the server, and what the deletes of the kind clear and leave. The only error is running out of memory.
///
/// Source: mcgate's own.
pub fn explain(
    alloc: Global,
    plain: &Plain,
    op: Op,
    server: ServerId,
    deleting: Deleting,
) -> Result<Explanation, AllocError>
    requires { Takes plain.now op server }
    ensures { IfOk result (Explains plain.now op server deleting) }
{
    taken_is_exact();
    let _form = plain.form();
    let mut way = Vec::new(alloc);
    add_way(plain, op, server, &mut way)?;
    let server_uses = server_uses(alloc, plain, deleting)?;
    Ok(Explanation { way, server_uses })
}
