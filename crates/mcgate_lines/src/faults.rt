//! The line of a text that is no configuration.

ghost use Rattle.std.specs.Prelude.{◌≡◌, IfOk, IfErr, IsSome, OnOk};
ghost use Rattle.std.specs.Io.KnownBytes.{Appends};
ghost use Rattle.serde_json.specs.Read.{read};
ghost use Rattle.route_json.specs.Configs.{read_or};
ghost use Rattle.route_json.specs.Fault.{Fails, fault_of};
ghost use Rattle.mcgate_lines.specs.Faults.{PrintsFault, StopsUnwritten, config_fault_line};

use crate::status::{BAD_INPUT, RunFault};
use route_json::ConfigFault;
use std::io;
use std::io::Write;

/// Writes the fault of a configuration: `config: ` and what [`ConfigFault`] prints. Running out of memory is none. The format is
/// mcgate's own.
pub fn write_config_fault<W: Write>(fault: &ConfigFault, out: &mut W) -> io::Result<()>
    requires { IsSome (fault_of fault.now) }
    ensures { OnOk result (Appends (W.contents out.old) (W.contents out.new) (config_fault_line fault.now)) }
{
    writeln!(out, "config: {fault}")
}

/// Writes the fault of a text that is no configuration, unless that is running out of memory.
pub fn print_fault<W: Write>(text: &str, fault: &ConfigFault, out: &mut W) -> Result<u8, RunFault>
    requires { Fails (fault_of fault.now) (read_or (read text.now)) }
    ensures ok { IfOk result (λ status. (status ≡ 2) × PrintsFault text.now (W.contents out.old) (W.contents out.new)) }
    ensures err { IfErr result (StopsUnwritten (W.contents out.old) (W.contents out.new)) }
{
    let _text = text;
    match fault {
        ConfigFault::NoMemory => Err(RunFault::NoMemory),
        told => {
            write_config_fault(told, out)?;
            Ok(BAD_INPUT)
        }
    }
}
