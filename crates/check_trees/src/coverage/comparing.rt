//! What words take and clear, compared with what is computed.

use crate::coverage::growing::grown;
use crate::coverage::words::{Asked, Outline, bit_of, words};
use gate_coverage::{Deleting, cleared, taken};
use mc_types::{Op, ServerId};
use route_tree::Plain;
use std::alloc::{AllocError, Global};

/// What was compared.
#[derive(Clone, Copy)]
pub struct ComparedCounts {
    pub trees: u32,
    pub taken: u32,
    pub cleared: u32,
    pub disagreements: u32,
}

// The servers that some of the words take.
fn takes(outlines: &[Outline]) -> u8 {
    let mut servers = 0;
    for outline in outlines {
        servers |= outline.shown | outline.copied;
    }
    servers
}

// The servers that each of the words that are acknowledged clears.
fn clears(outlines: &[Outline]) -> u8 {
    let mut servers = 255;
    for outline in outlines {
        if outline.rank <= 1 {
            servers &= outline.gone;
        }
    }
    servers
}

// One more, where that can be counted.
fn one_more(count: u32, is_so: bool) -> u32 {
    if is_so {
        count.saturating_add(1)
    } else {
        count
    }
}

fn compare_taken(
    alloc: Global,
    plain: &Plain,
    op: Op,
    mut counts: ComparedCounts,
) -> Result<ComparedCounts, AllocError> {
    let mut servers = 0;
    for (is_plain, is_meta) in [(true, false), (false, false), (false, true)] {
        let asked = Asked {
            op,
            is_plain,
            is_meta,
        };
        servers |= takes(&words(alloc, plain, asked)?);
    }
    for number in [0, 1, 2, 3] {
        let server = ServerId::new(number);
        let wanted = servers & bit_of(server) != 0;
        counts.taken = one_more(counts.taken, wanted);
        counts.disagreements = one_more(counts.disagreements, taken(plain, op, server) != wanted);
    }
    Ok(counts)
}

fn compare_cleared(
    alloc: Global,
    plain: &Plain,
    deleting: Deleting,
    mut counts: ComparedCounts,
) -> Result<ComparedCounts, AllocError> {
    let asked = Asked {
        op: Op::Delete,
        is_plain: false,
        is_meta: matches!(deleting, Deleting::Md),
    };
    let servers = clears(&words(alloc, plain, asked)?);
    for number in [0, 1, 2, 3] {
        let server = ServerId::new(number);
        let wanted = servers & bit_of(server) != 0;
        counts.cleared = one_more(counts.cleared, wanted);
        counts.disagreements = one_more(
            counts.disagreements,
            cleared(plain, deleting, server) != wanted,
        );
    }
    Ok(counts)
}

fn compare(
    alloc: Global,
    plain: &Plain,
    mut counts: ComparedCounts,
) -> Result<ComparedCounts, AllocError> {
    for op in Op::all() {
        counts = compare_taken(alloc, plain, op, counts)?;
    }
    for deleting in [Deleting::Delete, Deleting::Md] {
        counts = compare_cleared(alloc, plain, deleting, counts)?;
    }
    counts.trees = one_more(counts.trees, true);
    Ok(counts)
}

/// Compares what is computed of 3,000 plain trees with their words. The only error is that memory was refused.
pub fn compare_all(alloc: Global) -> Result<ComparedCounts, AllocError> {
    let mut counts = ComparedCounts {
        trees: 0,
        taken: 0,
        cleared: 0,
        disagreements: 0,
    };
    let mut seed = 1;
    for _ in 0..3000 {
        let plain = grown(alloc, &mut seed)?;
        counts = compare(alloc, &plain, counts)?;
    }
    Ok(counts)
}
