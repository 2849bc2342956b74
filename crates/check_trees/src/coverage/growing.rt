//! Small plain trees, made from a seed.

ghost use Rattle.std.specs.Prelude.{IfOk};
ghost use Rattle.check_trees.specs.Small.{IsSmall, IsOverTwo};

use crate::picking::pick;
use mc_types::{Op, ServerId};
use route_tree::{Plain, PlainForm};
use std::alloc::{AllocError, Global};

fn op_of(number: u32) -> Op {
    match number {
        0 => Op::Get,
        1 => Op::Gat,
        2 => Op::Add,
        3 => Op::Incr,
        4 => Op::Decr,
        _ => Op::Delete,
    }
}

fn leaf(seed: &mut u32) -> Plain
    ensures { IsSmall 1 1 result }
{
    match pick(seed, 10) {
        0 => Plain::new(PlainForm::Null),
        1 => Plain::new(PlainForm::Error),
        number => Plain::new(PlainForm::Server(ServerId::new(number % 4))),
    }
}

// One of the five forms over the two.
fn over(alloc: Global, seed: &mut u32, first: Plain, second: Plain) -> Result<Plain, AllocError>
    requires first { IsSmall 3 43 first }
    requires second { IsSmall 3 43 second }
    ensures { IfOk result (IsOverTwo first second) }
{
    let form = match pick(seed, 5) {
        0 => PlainForm::AllSync(vec![in alloc; first, second]?),
        1 => PlainForm::Failover(vec![in alloc; first, second]?),
        2 => PlainForm::MissFailover(vec![in alloc; first, second]?),
        3 => {
            let cold = Box::new(alloc, first)?;
            let warm = Box::new(alloc, second)?;
            PlainForm::WarmUp {
                cold,
                warm,
                exptime: 0,
            }
        }
        _ => {
            let op = op_of(pick(seed, 6));
            let policies = vec![in alloc; (op, first)]?;
            let default = Box::new(alloc, second)?;
            PlainForm::ByOperation { policies, default }
        }
    };
    Ok(Plain::new(form))
}

fn small(alloc: Global, seed: &mut u32) -> Result<Plain, AllocError>
    ensures { IfOk result (IsSmall 2 7) }
{
    let first = leaf(seed);
    let second = leaf(seed);
    over(alloc, seed, first, second)
}

fn larger(alloc: Global, seed: &mut u32) -> Result<Plain, AllocError>
    ensures { IfOk result (IsSmall 3 43) }
{
    let first = small(alloc, seed)?;
    let second = small(alloc, seed)?;
    over(alloc, seed, first, second)
}

/// A plain tree of at most eight leaves, over servers 0 to 3. The only error is that memory was refused.
pub fn grown(alloc: Global, seed: &mut u32) -> Result<Plain, AllocError> {
    match pick(seed, 3) {
        0 => small(alloc, seed),
        1 => larger(alloc, seed),
        _ => {
            let first = larger(alloc, seed)?;
            let second = small(alloc, seed)?;
            over(alloc, seed, first, second)
        }
    }
}
