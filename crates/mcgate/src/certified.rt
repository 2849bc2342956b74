//! `mcgate serve --certificate`: the configuration is accepted by a certificate that a text means.

ghost use Rattle.std.specs.Prelude.{List, ℕ};
ghost use Rattle.gate_certificate.specs.Testing.{IsUnverified};
ghost use Rattle.mcgate.specs.Certified.{JudgesBy, JudgesTextBy};

use crate::serve::{Judged, Servable};
use gate_certificate::{CertificateFault, Unverified, accept_by};
use gate_check::Reason;
use mcgate_ends::ends::Stop;
use mcgate_lines::faults::print_fault;
use mcgate_lines::status::{BAD_INPUT, REFUSED};
use mcgate_lines::write_refusal;
use route_json::{Config, read_config};
use std::alloc::Global;
use std::io::Write;

// Writes why a configuration isn't accepted by the text of a certificate.
fn print_declined<W: Write>(config: &Config, why: Unverified, out: &mut W) -> Result<Judged, Stop>
    ensures { (certificate : List ℕ) → IsUnverified config.now.tree certificate why → JudgesBy config.now certificate (W.contents out.old) (W.contents out.new) result }
{
    match why {
        Unverified::Text(CertificateFault::NoMemory) => Err(Stop::Memory),
        Unverified::Text(fault) => {
            writeln!(out, "certificate: {fault}")?;
            Ok(Judged::Printed(BAD_INPUT))
        }
        Unverified::Refused(Reason::NoMemory) => Err(Stop::Memory),
        Unverified::Refused(reason) => {
            write_refusal(config.servers(), &reason, out)?;
            Ok(Judged::Printed(REFUSED))
        }
    }
}

// The configuration, if the text means a certificate that is valid for its tree; else why it isn't accepted is printed.
fn take_config_by<W: Write>(
    alloc: Global,
    config: Config,
    certificate: &str,
    out: &mut W,
) -> Result<Judged, Stop>
    ensures { JudgesBy config certificate.now (W.contents out.old) (W.contents out.new) result }
{
    match accept_by(alloc, config, certificate) {
        Ok(accepted) => Ok(Judged::Servable(Servable::Accepted(accepted))),
        Err(declined) => print_declined(&declined.config, declined.why, out),
    }
}

/// The configuration of a text, if the other text means a certificate that is valid for its tree; else why not is printed.
pub fn judge_text_by<W: Write>(
    alloc: Global,
    text: &str,
    certificate: &str,
    out: &mut W,
) -> Result<Judged, Stop>
    ensures { JudgesTextBy text.now certificate.now (W.contents out.old) (W.contents out.new) result }
{
    match read_config(alloc, text) {
        Ok(config) => take_config_by(alloc, config, certificate, out),
        Err(fault) => Ok(Judged::Printed(print_fault(text, &fault, out)?)),
    }
}
