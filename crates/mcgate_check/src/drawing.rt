//! A configuration drawn, where it is refused with its gap.

ghost use Rattle.std.specs.Prelude.{◌≡◌, IfOk, IfErr};
ghost use Rattle.gate_check.specs.Gate.{IsCertified, IsJudged};
ghost use Rattle.gate_check.specs.declared.gap.Reason.TheVariants as reasons;
ghost use Rattle.mcgate_lines.specs.Faults.{StopsUnwritten};
ghost use Rattle.mcgate_check.specs.Drawing.{DrawsAccepted, DrawsRefused};

use crate::checking::print_reason;
use crate::explaining::gap_explained;
use gate_check::{Gap, Reason};
use gate_gaps::read_pools;
use gate_picture::{write_gap_picture, write_picture};
use mcgate_lines::status::{DONE, REFUSED, RunFault};
use route_json::Config;
use std::alloc::Global;
use std::io::Write;

/// Draws an accepted configuration, which this text means.
pub(crate) fn draw_accepted<W: Write>(
    alloc: Global,
    text: &str,
    config: &Config,
    out: &mut W,
) -> Result<u8, RunFault>
    requires { IsCertified config.now.tree }
    ensures ok { IfOk result (λ status. (status ≡ 0) × DrawsAccepted text.now config.now (W.contents out.old) (W.contents out.new)) }
    ensures err { IfErr result (StopsUnwritten (W.contents out.old) (W.contents out.new)) }
{
    let pools = read_pools(alloc, text, config.servers())?;
    write_picture(config, &pools, out)?;
    Ok(DONE)
}

// Draws a configuration with its gap. All that needs memory is done before anything is written.
fn draw_gap<W: Write>(
    alloc: Global,
    text: &str,
    config: &Config,
    gap: &Gap,
    out: &mut W,
) -> Result<u8, RunFault>
    requires { IsJudged config.now.tree (reasons.Uncovered gap.now) }
    ensures ok { IfOk result (λ status. (status ≡ 1) × DrawsRefused text.now config.now (reasons.Uncovered gap.now) (W.contents out.old) (W.contents out.new)) }
    ensures err { IfErr result (StopsUnwritten (W.contents out.old) (W.contents out.new)) }
{
    let explanation = gap_explained(alloc, config.tree(), gap)?;
    let pools = read_pools(alloc, text, config.servers())?;
    write_gap_picture(config, &pools, gap, &explanation.way, out)?;
    Ok(REFUSED)
}

/// Draws a configuration, which this text means, with its gap, or writes why else it is refused.
pub(crate) fn draw_refused<W: Write>(
    alloc: Global,
    text: &str,
    config: &Config,
    reason: &Reason,
    out: &mut W,
) -> Result<u8, RunFault>
    requires { IsJudged config.now.tree reason.now }
    ensures ok { IfOk result (λ status. (status ≡ 1) × DrawsRefused text.now config.now reason.now (W.contents out.old) (W.contents out.new)) }
    ensures err { IfErr result (StopsUnwritten (W.contents out.old) (W.contents out.new)) }
{
    match reason {
        Reason::Uncovered(gap) => draw_gap(alloc, text, config, gap, out),
        _ => print_reason(config, reason, out),
    }
}
