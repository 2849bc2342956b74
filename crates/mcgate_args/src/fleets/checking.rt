//! Configurations of a fleet, judged: each by itself, and then all together.

ghost use Rattle.std.specs.Prelude.{◌≡◌, ◌+◌, ◌++◌, ◌∷◌, ◌<◌, ◌^◌, [], IfErr, IfOk, length};
ghost use Rattle.std.specs.Io.KnownBytes.{Appends};
ghost use Rattle.mcgate_lines.specs.Faults.{StopsUnwritten};
ghost use Rattle.mcgate_args.specs.Fleets.{AddsRead, AreRead, ChecksAlone, ChecksFleet, ChecksTogether, FindsRefused, IsToldFault, JudgesAlone, SaysFault};
ghost use Rattle.mcgate_ends.specs.FleetFaults.{fleet_fault_line};

use core_accepted::fleets::gates::judging::{FleetFault, judge_fleet};
use gate_check::judge;
use gate_check::reloading::MOST_GENERATIONS;
use mcgate_check::checking::check_refused;
use mcgate_ends::fleets::faults::{FleetFile, write_fleet_fault};
use mcgate_ends::fleets::lines::{write_fleet, write_many_files};
use mcgate_lines::RunFault;
use mcgate_lines::faults::{print_fault, write_config_fault};
use mcgate_lines::status::{BAD_INPUT, DONE, REFUSED};
use route_json::{Config, ConfigFault, Servers, read_config, read_config_after};
use std::alloc::{AllocError, Global};
use std::io::Write;

/// How the check of a fleet ended: its exit status, and the number of the file that isn't accepted by itself, if there is one, counted
/// from 0.
#[derive(Clone, Copy)]
pub struct FleetEnd {
    pub status: u8,
    pub alone: Option<usize>,
}

// Judges a configuration. Where it is refused, that is written as `check` does, and the answer is the status.
fn judge_alone<W: Write>(alloc: Global, config: Config, out: &mut W) -> Result<Option<u8>, RunFault>
    ensures ok { IfOk result (JudgesAlone config (W.contents out.old) (W.contents out.new)) }
    ensures err { IfErr result (StopsUnwritten (W.contents out.old) (W.contents out.new)) }
{
    match judge(alloc, config) {
        Ok(_accepted) => Ok(None),
        Err(refused) => {
            let status = check_refused(alloc, &refused.config, &refused.reason, out)?;
            Ok(Some(status))
        }
    }
}

// Judges the configuration of a text. Where it is refused or the text is none, that is written as `check` does, and the answer is the
// status.
#[tactic(auto, using(crate::proofs::FleetVerdicts::judged_alone, crate::proofs::FleetVerdicts::faulty))]
fn check_alone<W: Write>(alloc: Global, text: &str, out: &mut W) -> Result<Option<u8>, RunFault>
    ensures ok { IfOk result (ChecksAlone text.now (W.contents out.old) (W.contents out.new)) }
    ensures err { IfErr result (StopsUnwritten (W.contents out.old) (W.contents out.new)) }
{
    match read_config(alloc, text) {
        Ok(config) => judge_alone(alloc, config, out),
        Err(fault) => {
            let status = print_fault(text, &fault, out)?;
            Ok(Some(status))
        }
    }
}

// Adds a configuration, and answers its servers.
fn keep(alloc: Global, config: Config, configs: &mut Vec<Config>) -> Result<Servers, AllocError>
    ensures servers { IfOk result (λ servers. servers ≡ config.servers) }
    ensures kept { IfOk result (λ _. configs.new.items ≡ configs.old.items ++ config ∷ []) }
{
    let servers = config.servers().copy(alloc)?;
    configs.push(config)?;
    Ok(servers)
}

// Reads the configurations of the files, each one's servers numbered after those of the one before.
fn read_files(
    alloc: Global,
    servers: Servers,
    files: &[FleetFile<'_>],
    configs: &mut Vec<Config>,
) -> Result<(), ConfigFault>
    ensures { IfOk result (λ _. AddsRead servers files.now configs.old.items configs.new.items) }
{
    match files {
        [] => Ok(()),
        [file, rest @ ..] => {
            let config = read_config_after(alloc, servers, file.text.as_str())?;
            let servers = keep(alloc, config, configs)?;
            read_files(alloc, servers, rest, configs)
        }
    }
}

// Writes why the configurations can't be read together, unless that is running out of memory.
fn print_unread<W: Write>(fault: &ConfigFault, out: &mut W) -> Result<u8, RunFault>
    ensures ok { IfOk result (λ status. (status ≡ 2) × SaysFault (W.contents out.old) (W.contents out.new)) }
    ensures err { IfErr result (StopsUnwritten (W.contents out.old) (W.contents out.new)) }
{
    match fault {
        ConfigFault::NoMemory => Err(RunFault::NoMemory),
        told => {
            write_config_fault(told, out)?;
            Ok(BAD_INPUT)
        }
    }
}

// Writes why the configurations are refused together, unless that is running out of memory.
fn print_fleet_fault<W: Write>(
    files: &[FleetFile<'_>],
    configs: &[Config],
    fault: &FleetFault,
    out: &mut W,
) -> Result<u8, RunFault>
    ensures ok { IfOk result (λ status. (status ≡ 1) × IsToldFault fault.now × Appends (W.contents out.old) (W.contents out.new) (fleet_fault_line files.now configs.now fault.now)) }
    ensures err { IfErr result (StopsUnwritten (W.contents out.old) (W.contents out.new)) }
{
    match fault {
        FleetFault::NoMemory => Err(RunFault::NoMemory),
        told => {
            write_fleet_fault(files, configs, told, out)?;
            Ok(REFUSED)
        }
    }
}

// Judges the configurations of the files together, and prints the verdict.
fn judge_together<W: Write>(
    alloc: Global,
    files: &[FleetFile<'_>],
    configs: &[Config],
    out: &mut W,
) -> Result<u8, RunFault>
    requires few { length configs.now < MOST_GENERATIONS }
    requires read { AreRead [] files.now configs.now }
    ensures ok { IfOk result (ChecksTogether files.now (W.contents out.old) (W.contents out.new)) }
    ensures err { IfErr result (StopsUnwritten (W.contents out.old) (W.contents out.new)) }
{
    match judge_fleet(alloc, configs) {
        Ok(()) => {
            write_fleet(configs.len(), out)?;
            Ok(DONE)
        }
        Err(fault) => print_fleet_fault(files, configs, &fault, out),
    }
}

// Reads the configurations of the files, their servers numbered alike, and judges them together.
fn read_together<W: Write>(
    alloc: Global,
    files: &[FleetFile<'_>],
    out: &mut W,
) -> Result<u8, RunFault>
    requires { length files.now < MOST_GENERATIONS }
    ensures ok { IfOk result (ChecksTogether files.now (W.contents out.old) (W.contents out.new)) }
    ensures err { IfErr result (StopsUnwritten (W.contents out.old) (W.contents out.new)) }
{
    let mut configs = Vec::new(alloc);
    match read_files(alloc, Servers::new(alloc), files, &mut configs) {
        Ok(()) => judge_together(alloc, files, &configs, out),
        Err(fault) => print_unread(&fault, out),
    }
}

// Reads the configurations of the files, their servers numbered alike, and judges them together, unless there are more files than are judged
// together, which is printed.
fn check_together<W: Write>(
    alloc: Global,
    files: &[FleetFile<'_>],
    out: &mut W,
) -> Result<u8, RunFault>
    ensures ok { IfOk result (ChecksTogether files.now (W.contents out.old) (W.contents out.new)) }
    ensures err { IfErr result (StopsUnwritten (W.contents out.old) (W.contents out.new)) }
{
    if files.len() < MOST_GENERATIONS {
        read_together(alloc, files, out)
    } else {
        write_many_files(out)?;
        Ok(REFUSED)
    }
}

// The first of the files, which have numbers from this one on, whose configuration isn't accepted by itself, and what is printed of it.
#[tactic(auto, using(crate::proofs::FleetVerdicts::found_later, crate::proofs::FleetVerdicts::stops_later))]
fn first_refused<W: Write>(
    alloc: Global,
    index: usize,
    files: &[FleetFile<'_>],
    out: &mut W,
) -> Result<Option<FleetEnd>, RunFault>
    requires { index + length files.now < 2 ^ 64 }
    ensures ok { IfOk result (FindsRefused index files.now (W.contents out.old) (W.contents out.new)) }
    ensures err { IfErr result (StopsUnwritten (W.contents out.old) (W.contents out.new)) }
{
    match files {
        [] => Ok(None),
        [file, rest @ ..] => match check_alone(alloc, file.text.as_str(), out)? {
            Some(status) => Ok(Some(FleetEnd {
                status,
                alone: Some(index),
            })),
            None => first_refused(alloc, index + 1, rest, out),
        },
    }
}

/// Judges the configurations of the files, by each of which proxies of a fleet run at the same time, and prints the verdict.
///
/// First each is judged by itself, and of the first that isn't accepted is printed what [`mcgate_check::run_check`] prints of it in
/// lines. Else they are judged together, their servers numbered alike: `accepted trees=N`; or the first of these:
///
/// - `refused: too many files`: there are more than 15;
/// - `refused: a read copies, route=R prefix=P file=F`: by this tree a get of keys with the prefix copies, at the route R;
/// - `refused: reads=F deletes=F server=A read=OP delete=D prefix=P residue=R/L`: the first gap: a read by the one tree takes what a
///   delete by the other leaves;
/// - `refused: too many places reads=F deletes=F`: the two trees together have more than 262,144.
///
/// Where memory was refused, nothing was written. Source: mcgate's own.
pub fn run_fleet<W: Write>(
    alloc: Global,
    files: &[FleetFile<'_>],
    out: &mut W,
) -> Result<FleetEnd, RunFault>
    ensures ok { IfOk result (ChecksFleet files.now (W.contents out.old) (W.contents out.new)) }
    ensures err { IfErr result (StopsUnwritten (W.contents out.old) (W.contents out.new)) }
{
    match first_refused(alloc, 0, files, out)? {
        Some(end) => Ok(end),
        None => {
            let status = check_together(alloc, files, out)?;
            Ok(FleetEnd {
                status,
                alone: None,
            })
        }
    }
}
