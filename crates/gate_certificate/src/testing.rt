//! A configuration, tested by the text of a certificate.

ghost use Rattle.std.specs.Prelude.{[], ◌∷◌, ◌≡◌, IfErr, IfOk, OnOk};
ghost use Rattle.fresh_runs.specs.Freshness.{RunsAreFresh};
ghost use Rattle.route_tree.specs.Direct.{words_of};
ghost use Rattle.gate_certificate.specs.Testing.{IsCertifiedByText, IsUnverified};

use crate::fault::CertificateFault;
use crate::reading::read_certificate;
use gate_check::{Accepted, Reason, check};
use route_json::Config;
use std::alloc::Global;

/// Why a certificate's text doesn't show that a configuration's tree is fresh.
#[derive(Clone, Copy)]
pub enum Unverified {
    /// It is no certificate.
    Text(CertificateFault),
    /// The gate refuses the tree by this certificate.
    Refused(Reason),
}

/// A configuration that wasn't accepted, given back, and why.
#[derive(Drop)]
pub struct Declined {
    pub config: Config,
    pub why: Unverified,
}

/// Accepts the configuration where the text means a certificate that is valid for its tree. Every run of the tree is fresh
/// then. Else the configuration is given back, with the reason.
pub fn accept_by(alloc: Global, config: Config, text: &str) -> Result<Accepted, Declined>
    ensures accepted { IfOk result (λ accepted. (accepted ≡ config ∷ []) × IsCertifiedByText config.tree text.now) }
    ensures fresh { OnOk result (RunsAreFresh (words_of config.tree)) }
    ensures refused { IfErr result (λ declined. (declined.config ≡ config) × IsUnverified config.tree text.now declined.why) }
{
    match read_certificate(alloc, text) {
        Ok(certificate) => match check(alloc, config, &certificate) {
            Ok(accepted) => Ok(accepted),
            Err(refused) => Err(Declined {
                config: refused.config,
                why: Unverified::Refused(refused.reason),
            }),
        },
        Err(fault) => Err(Declined {
            config,
            why: Unverified::Text(fault),
        }),
    }
}
