//! What the program is for: a configuration, verified by a certificate.

ghost use Rattle.std.specs.Prelude.{◌≡◌, ℕ, IfOk};
ghost use Rattle.std.specs.Io.KnownBytes.{Appends};
ghost use Rattle.gate_certificate.specs.Verdict.{IsVerdict, IsVerified, status_of, verified_line};
ghost use Rattle.gate_certificate.specs.declared.verdict.Verdict.{Verdict};

use crate::told::tell;
use crate::verdict::verdict_of;
use std::alloc::{AllocError, Global};
use std::io;
use std::io::Write;

/// What breaks the program off.
#[derive(Clone, Copy)]
pub enum VerifyFault {
    /// Memory was refused.
    NoMemory,
    /// The output could not be written.
    Output,
}

impl From<AllocError> for VerifyFault {
    fn from(_error: AllocError) -> VerifyFault {
        VerifyFault::NoMemory
    }
}

impl From<io::Error> for VerifyFault {
    fn from(_error: io::Error) -> VerifyFault {
        VerifyFault::Output
    }
}

/// A text of a file, and what the file is called.
#[derive(Clone, Copy)]
pub struct Named<'a> {
    pub name: &'a str,
    pub text: &'a str,
}

/// Tests whether a certificate's text shows that the tree of a configuration's text is fresh, writes the verdict, and
/// answers the exit status.
///
/// Where the status is 0, the first text means a configuration, the second a certificate that is valid for its tree, and
/// every run of the tree is fresh: no reply shows what an acknowledged delete has removed.
pub fn verify<W: Write>(
    alloc: Global,
    config: &Named<'_>,
    certificate: &Named<'_>,
    out: &mut W,
) -> Result<u8, VerifyFault>
    ensures verified { IfOk result (λ status. status ≡ 0 → (places : ℕ) × IsVerified config.now.text.now certificate.now.text.now places × Appends (W.contents out.old) (W.contents out.new) (verified_line config.now.name.now certificate.now.name.now places)) }
    ensures verdict { IfOk result (λ status. (verdict : Verdict) × IsVerdict config.now.text.now certificate.now.text.now verdict × (status ≡ status_of verdict)) }
{
    let verdict = verdict_of(alloc, config.text, certificate.text)?;
    let status = tell(alloc, &verdict, config.name, certificate.name, out)?;
    Ok(status)
}
