//! Refusal runs, driven.

use crate::leaks::growing::grown;
use gate_check::{Gap, Reason, judge};
use mcgate_check::leaks::{is_stale, refusal_run};
use route_json::{Config, read_config};
use std::alloc::{AllocError, Global};

/// What came of the configurations.
#[derive(Clone, Copy)]
pub struct DrivenCounts {
    pub accepted: u32,
    pub refused: u32,
    /// Of the refused ones, how many have a refusal run.
    pub runs: u32,
    /// Of the runs, how many can be driven and then show a stale reply.
    pub leaks: u32,
    /// Texts that are no configuration, and refusals for another reason than a gap.
    pub others: u32,
}

// What came of one.
#[derive(Clone, Copy)]
enum DrivenEnd {
    Accepted,
    NoRun,
    Leaks,
    Stays,
    Other,
}

fn counted(end: DrivenEnd, counts: DrivenCounts) -> DrivenCounts {
    let mut counts = counts;
    match end {
        DrivenEnd::Accepted => counts.accepted = counts.accepted.saturating_add(1),
        DrivenEnd::Other => counts.others = counts.others.saturating_add(1),
        DrivenEnd::NoRun | DrivenEnd::Leaks | DrivenEnd::Stays => {
            counts.refused = counts.refused.saturating_add(1);
        }
    }
    if matches!(end, DrivenEnd::Leaks | DrivenEnd::Stays) {
        counts.runs = counts.runs.saturating_add(1);
    }
    if matches!(end, DrivenEnd::Leaks) {
        counts.leaks = counts.leaks.saturating_add(1);
    }
    counts
}

fn shown(alloc: Global, config: &Config, gap: &Gap) -> Result<DrivenEnd, AllocError> {
    match refusal_run(alloc, config, gap)? {
        None => Ok(DrivenEnd::NoRun),
        Some(script) => {
            if is_stale(alloc, config, &script)? {
                Ok(DrivenEnd::Leaks)
            } else {
                Ok(DrivenEnd::Stays)
            }
        }
    }
}

fn judged(alloc: Global, config: Config) -> Result<DrivenEnd, AllocError> {
    match judge(alloc, config) {
        Ok(_) => Ok(DrivenEnd::Accepted),
        Err(refused) => match &refused.reason {
            Reason::Uncovered(gap) => shown(alloc, &refused.config, gap),
            _ => Ok(DrivenEnd::Other),
        },
    }
}

fn end_of(alloc: Global, text: &str) -> Result<DrivenEnd, AllocError> {
    match read_config(alloc, text) {
        Ok(config) => judged(alloc, config),
        Err(_) => Ok(DrivenEnd::Other),
    }
}

/// Judges 400 configurations, and drives the refusal run of each refused one that has one. The only error is that memory was
/// refused.
pub fn drive_all(alloc: Global) -> Result<DrivenCounts, AllocError> {
    let mut counts = DrivenCounts {
        accepted: 0,
        refused: 0,
        runs: 0,
        leaks: 0,
        others: 0,
    };
    let mut seed = 1;
    for _ in 0..400 {
        let text = grown(alloc, &mut seed)?;
        let end = end_of(alloc, text.as_str())?;
        counts = counted(end, counts);
    }
    Ok(counts)
}
