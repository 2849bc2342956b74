//! What the gate says to configurations that are loaded while a script runs.

ghost use Rattle.std.specs.Prelude.{◌≡◌, IfOk, map};
ghost use Rattle.script_run.specs.Reloads.{loading_is_refused, loading_of};

use gate_check::ReloadFault;
use std::alloc::{AllocError, Global};

/// What became of a reload.
///
/// Source: mcgate's own.
#[derive(Clone, Copy)]
pub enum Loading {
    /// The gate accepted the configuration as the generation of this number.
    Loaded(u32),
    /// The gate refused the configuration, for another cause than running out of memory, and the tree in use stayed.
    Refused(ReloadFault),
}

/// What became of each of some reloads, in order, and which of them are refused.
#[derive(Drop)]
pub struct Judged {
    pub loadings: Vec<Loading>,
    pub refused: Vec<bool>,
}

// Whether the gate refused the configuration.
fn is_refused(loading: &Loading) -> bool
    ensures { result ≡ loading_is_refused loading.now }
{
    match loading {
        Loading::Loaded(_) => false,
        Loading::Refused(_) => true,
    }
}

/// Which of the reloads the gate refused. The only error is running out of memory.
pub fn refused_of(alloc: Global, loadings: &[Loading]) -> Result<Vec<bool>, AllocError>
    ensures { IfOk result (λ refused. refused.items ≡ map loading_is_refused loadings.now) }
{
    let mut refused = Vec::new(alloc);
    for loading in loadings {
        refused.push(is_refused(loading))?;
    }
    Ok(refused)
}

/// What the fault makes of a reload; nothing is told where memory was refused.
pub fn refusal(fault: ReloadFault) -> Option<Loading>
    ensures { result ≡ loading_of fault }
{
    match fault {
        ReloadFault::NoMemory => None,
        fault => Some(Loading::Refused(fault)),
    }
}
