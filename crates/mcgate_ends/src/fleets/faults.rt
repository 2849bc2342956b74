//! The line of why proxies of a fleet may not run by some configurations at the same time.

ghost use Rattle.std.specs.Prelude.{◌≡◌, OnOk};
ghost use Rattle.std.specs.Io.KnownBytes.{Appends};
ghost use Rattle.mcgate_ends.specs.FleetFaults.{fleet_fault_line, name_at};

use crate::fleets::lines::{write_copying, write_many_places, write_pair_gap};
use core_accepted::fleets::gates::judging::FleetFault;
use route_json::Config;
use std::io;
use std::io::Write;

/// A file of a configuration: what it is called, and its text.
#[derive(Drop)]
pub struct FleetFile<'a> {
    pub name: &'a str,
    pub text: String,
}

// How the file of this number is called.
fn name_at<'a>(files: &[FleetFile<'a>], index: usize) -> &'a str
    ensures { result.now ≡ name_at files.now index }
{
    match files.get(index) {
        Some(file) => file.name,
        None => "",
    }
}

/// Writes the line of a fault; running out of memory has none.
pub fn write_fleet_fault<W: Write>(
    files: &[FleetFile<'_>],
    configs: &[Config],
    fault: &FleetFault,
    out: &mut W,
) -> io::Result<()>
    ensures { OnOk result (Appends (W.contents out.old) (W.contents out.new) (fleet_fault_line files.now configs.now fault.now)) }
{
    match fault {
        FleetFault::Copies(index, prefix) => match configs.get(*index) {
            Some(config) => write_copying(name_at(files, *index), config.tree(), prefix, out),
            None => Ok(()),
        },
        FleetFault::TooManyPlaces { reads, deletes } => {
            write_many_places(name_at(files, *reads), name_at(files, *deletes), out)
        }
        FleetFault::Uncovered {
            reads,
            deletes,
            gap,
        } => match configs.get(*reads) {
            Some(config) => write_pair_gap(
                config.servers(),
                name_at(files, *reads),
                name_at(files, *deletes),
                gap,
                out,
            ),
            None => Ok(()),
        },
        FleetFault::NoMemory => Ok(()),
    }
}
