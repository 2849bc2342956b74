//! What the texts of a configuration and of a certificate come to.

ghost use Rattle.std.specs.Prelude.{List, ℕ, IfOk};
ghost use Rattle.gate_certificate.specs.Testing.{IsUnverified};
ghost use Rattle.gate_certificate.specs.Verdict.{HasPlaces, IsVerdict, IsVerdictOn};

use crate::fault::CertificateFault;
use crate::testing::{Declined, Unverified, accept_by};
use gate_check::Reason;
use gate_check::laws::certified_is_fresh;
use gate_check::places::places;
use route_json::{Config, ConfigFault, read_config};
use route_tree::Tree;
use std::alloc::{AllocError, Global};

/// The verdict.
///
/// Source: mcgate's own.
#[derive(Drop)]
pub enum Verdict {
    /// The certificate is valid for the tree, which has so many places.
    Verified(u32),
    /// The tree is refused by the certificate.
    Refused(Config, Reason),
    /// The second text is no certificate.
    NoCertificate(CertificateFault),
    /// The first text is no configuration.
    NoConfig(ConfigFault),
}

// How many places a tree has that has a valid certificate.
fn place_count(alloc: Global, tree: &Tree) -> Result<u32, AllocError>
    ensures { IfOk result (HasPlaces tree.now) }
{
    match places(alloc, tree) {
        Ok(table) => Ok(table.rows()),
        Err(_) => Err(AllocError),
    }
}

// The verdict on a configuration that wasn't accepted.
fn declined(config: Config, why: Unverified) -> Result<Verdict, AllocError>
    ensures { (text : List ℕ) → IsUnverified config.tree text why → IfOk result (IsVerdictOn config text) }
{
    match why {
        Unverified::Text(CertificateFault::NoMemory) => Err(AllocError),
        Unverified::Text(fault) => Ok(Verdict::NoCertificate(fault)),
        Unverified::Refused(Reason::NoMemory) => Err(AllocError),
        Unverified::Refused(reason) => Ok(Verdict::Refused(config, reason)),
    }
}

// The verdict on a configuration.
fn verdict_on(alloc: Global, config: Config, certificate: &str) -> Result<Verdict, AllocError>
    ensures { IfOk result (IsVerdictOn config certificate.now) }
{
    certified_is_fresh();
    let tree = config.tree();
    let _form = tree.form();
    let counted = place_count(alloc, tree);
    match accept_by(alloc, config, certificate) {
        Ok(_) => Ok(Verdict::Verified(counted?)),
        Err(Declined { config, why }) => declined(config, why),
    }
}

/// The verdict on a configuration's text by a certificate's text. The only error is that memory was refused.
pub fn verdict_of(alloc: Global, text: &str, certificate: &str) -> Result<Verdict, AllocError>
    ensures { IfOk result (IsVerdict text.now certificate.now) }
{
    match read_config(alloc, text) {
        Ok(config) => verdict_on(alloc, config, certificate),
        Err(ConfigFault::NoMemory) => Err(AllocError),
        Err(fault) => Ok(Verdict::NoConfig(fault)),
    }
}
