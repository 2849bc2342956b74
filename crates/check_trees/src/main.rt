//! Two checks of what is computed of trees, over some that are made from a seed: whether `taken` and `cleared` are what the words
//! of plain trees say, and whether the refusal runs of configurations leak where they are driven.
#![tactic(auto)]

mod coverage;
mod leaks;
mod picking;

use crate::coverage::{ComparedCounts, compare_all};
use crate::leaks::{DrivenCounts, drive_all};
use std::io;
use std::process::ExitCode;

fn print_compared<R: AllocGlobal + Print>(rt: &R, counts: &ComparedCounts) -> io::Result<()> {
    println!(rt; "plain trees {}", counts.trees)?;
    println!(rt; "servers taken {}", counts.taken)?;
    println!(rt; "servers cleared {}", counts.cleared)?;
    println!(rt; "disagreements {}", counts.disagreements)
}

fn print_driven<R: AllocGlobal + Print>(rt: &R, counts: &DrivenCounts) -> io::Result<()> {
    println!(rt; "accepted {}", counts.accepted)?;
    println!(rt; "refused {}", counts.refused)?;
    println!(rt; "runs {}", counts.runs)?;
    println!(rt; "runs that leak {}", counts.leaks)?;
    println!(rt; "others {}", counts.others)
}

fn run<R: AllocGlobal + Print>(rt: &R) -> io::Result<u8> {
    let compared = compare_all(rt.alloc())?;
    print_compared(rt, &compared)?;
    let driven = drive_all(rt.alloc())?;
    print_driven(rt, &driven)?;
    let is_well = compared.disagreements == 0 && driven.leaks == driven.runs;
    Ok(if is_well { 0 } else { 1 })
}

fn main(rt: HostRuntime) -> ExitCode {
    match run(&rt) {
        Ok(status) => ExitCode::from(status),
        Err(_) => {
            let _ = rt.eprintln("check_trees: memory refused, or a device failed");
            ExitCode::from(3)
        }
    }
}
