//! What each form of route goes on with when a child has given its reply.

ghost use Rattle.std.specs.Prelude.{◌+◌, ◌*◌, ◌≤◌, ℕ, List, Some, option_map, IfOk};
ghost use Rattle.mc_types.specs.declared.ask.Ask.{Ask};
ghost use Rattle.mc_types.specs.declared.call.Origin.{Origin};
ghost use Rattle.mc_types.specs.declared.call.Origin.TheVariants.{CopyOf};
ghost use Rattle.route_tree.specs.At.{plain_for, plain_for_all};
ghost use Rattle.route_tree.specs.Plan.{plan_count, plan_count_of_all};
ghost use Rattle.route_tree.specs.Word.{PlanWord, plain_get, refill, rank, AfterWarm, AfterRefill, Refilled};
ghost use Rattle.route_job.specs.Given.{given_when_done};
ghost use Rattle.route_job.specs.Parts.{SameAt, WorstWith, AfterAll, AfterFirst, NamesHit};
ghost use Rattle.route_job.specs.Rest.{AdvanceOf, AfterFrame, NeedsHit};
ghost use Rattle.route_job.specs.Settling.{IsSure, advance_work, frame_work};
ghost use Rattle.route_job.specs.declared.frame.Frame.TheVariants.{Cold};

use crate::asks::{get_of, is_plain_get, refill_of};
use crate::done::Done;
use crate::formed_ask::FormedAsk;
use crate::frame::{Advance, Frame, Pending, Sides};
use crate::replies::worse_of;
use mc_types::Ask;
use route_tree::Children;
use std::alloc::{AllocError, Global};

// The next child of an AllSync, or its worst reply.
fn back_all(rest: Children, worst: Option<Done>, done: Done) -> Result<Advance, AllocError>
    ensures same { IfOk result (λ advance. (hash : ℕ) (text : List ℕ) (ask : Ask) (origin : Origin) (b : ℕ) → SameAt b (AfterAll (option_map given_when_done worst) (plain_for_all hash text rest) ask origin (given_when_done done)) (AdvanceOf hash text advance ask origin)) }
    ensures sure { IfOk result (λ advance. (hash : ℕ) (text : List ℕ) (ask : Ask) (origin : Origin) (b : ℕ) → IsSure hash text advance ask origin b) }
    ensures less { IfOk result (λ advance. (hash : ℕ) (text : List ℕ) → advance_work hash text advance ≤ 3 * plan_count_of_all (plain_for_all hash text rest) + 1) }
{
    let worst = match worst {
        None => done,
        Some(worst) => worse_of(worst, done),
    };
    next_of_all(rest, worst)
}

// The next child of an AllSync, or this reply.
fn next_of_all(rest: Children, worst: Done) -> Result<Advance, AllocError>
    ensures same { IfOk result (λ advance. (hash : ℕ) (text : List ℕ) (ask : Ask) (origin : Origin) (b : ℕ) → SameAt b (WorstWith (plain_for_all hash text rest) ask origin (given_when_done worst)) (AdvanceOf hash text advance ask origin)) }
    ensures sure { IfOk result (λ advance. (hash : ℕ) (text : List ℕ) (ask : Ask) (origin : Origin) (b : ℕ) → IsSure hash text advance ask origin b) }
    ensures less { IfOk result (λ advance. (hash : ℕ) (text : List ℕ) → advance_work hash text advance ≤ 3 * plan_count_of_all (plain_for_all hash text rest) + 1) }
{
    let parts = rest.parted()?;
    match parts {
        None => Ok(Advance {
            frame: None,
            pending: Pending::Back(worst),
        }),
        Some((next, rest)) => Ok(Advance {
            frame: Some(Frame::All {
                rest,
                worst: Some(worst),
            }),
            pending: Pending::Enter(next),
        }),
    }
}

// Lets a reply go.
fn let_go(_done: Done) {}

// Lets an ask go.
fn drop_ask(_ask: FormedAsk) {}

// The next child where the reply isn't good enough.
fn back_first(rest: Children, limit: u8, done: Done) -> Result<Advance, AllocError>
    ensures same { IfOk result (λ advance. (hash : ℕ) (text : List ℕ) (ask : Ask) (origin : Origin) (b : ℕ) → SameAt b (AfterFirst (plain_for_all hash text rest) limit ask origin (given_when_done done)) (AdvanceOf hash text advance ask origin)) }
    ensures sure { IfOk result (λ advance. (hash : ℕ) (text : List ℕ) (ask : Ask) (origin : Origin) (b : ℕ) → IsSure hash text advance ask origin b) }
    ensures less { IfOk result (λ advance. (hash : ℕ) (text : List ℕ) → advance_work hash text advance ≤ 3 * plan_count_of_all (plain_for_all hash text rest) + 1) }
{
    if done.reply.rank() < limit {
        return Ok(Advance {
            frame: None,
            pending: Pending::Back(done),
        });
    }
    let parts = rest.parted()?;
    match parts {
        None => Ok(Advance {
            frame: None,
            pending: Pending::Back(done),
        }),
        Some((next, rest)) => {
            let_go(done);
            Ok(Advance {
                frame: Some(Frame::First { rest, limit }),
                pending: Pending::Enter(next),
            })
        }
    }
}

// Done where the cold side has it, else the warm side.
fn back_cold(alloc: Global, ask: &Ask, sides: Sides, first: Done) -> Result<Advance, AllocError>
    ensures same { IfOk result (λ advance. (hash : ℕ) (text : List ℕ) (origin : Origin) (b : ℕ) → SameAt b (AfterFrame hash text (Cold sides) ask.now origin (given_when_done first)) (AdvanceOf hash text advance ask.now origin)) }
    ensures sure { IfOk result (λ advance. (hash : ℕ) (text : List ℕ) (origin : Origin) (b : ℕ) → IsSure hash text advance ask.now origin b) }
    ensures less { IfOk result (λ advance. (hash : ℕ) (text : List ℕ) → advance_work hash text advance ≤ frame_work hash text (Cold sides)) }
{
    if first.reply.rank() == 0 {
        return Ok(Advance {
            frame: None,
            pending: Pending::Back(first),
        });
    }
    let get = get_of(alloc, ask)?;
    let warm = sides.warm.copy()?;
    let pending = Pending::Enter(warm);
    Ok(Advance {
        frame: Some(Frame::Warm { sides, first, get }),
        pending,
    })
}

// A hit of the warm side is added to the cold one.
fn back_warm(
    alloc: Global,
    ask: &Ask,
    sides: Sides,
    first: Done,
    from_warm: Done,
) -> Result<Advance, AllocError>
    ensures same { IfOk result (λ advance. (hash : ℕ) (text : List ℕ) (origin : Origin) (b : ℕ) → NamesHit (given_when_done from_warm) → SameAt b (AfterWarm ask.now (PlanWord (plain_for hash text sides.cold) ask.now origin) (PlanWord (plain_for hash text sides.warm) (plain_get ask.now) origin) (λ hit w. PlanWord (plain_for hash text sides.cold) (refill ask.now hit sides.exptime) (CopyOf w)) (given_when_done first) (given_when_done from_warm) (rank (given_when_done from_warm))) (AdvanceOf hash text advance ask.now origin)) }
    ensures sure { IfOk result (λ advance. (hash : ℕ) (text : List ℕ) (origin : Origin) (b : ℕ) → IsSure hash text advance ask.now origin b) }
    ensures less { IfOk result (λ advance. (hash : ℕ) (text : List ℕ) → advance_work hash text advance ≤ 6 * plan_count (plain_for hash text sides.cold) + 2) }
{
    if from_warm.reply.rank() != 0 {
        let_go(from_warm);
        return Ok(Advance {
            frame: None,
            pending: Pending::Back(first),
        });
    }
    match from_warm.from {
        None => {
            let_go(from_warm);
            Ok(Advance {
                frame: None,
                pending: Pending::Back(first),
            })
        }
        Some(from) => {
            let_go(first);
            refill_frame(alloc, ask, sides, from_warm, from)
        }
    }
}

// The add of what call `from` of the warm side was answered.
fn refill_frame(
    alloc: Global,
    ask: &Ask,
    sides: Sides,
    from_warm: Done,
    from: u64,
) -> Result<Advance, AllocError>
    ensures same { IfOk result (λ advance. (hash : ℕ) (text : List ℕ) (origin : Origin) (b : ℕ) → SameAt b (Refilled ask.now (PlanWord (plain_for hash text sides.cold) ask.now origin) (PlanWord (plain_for hash text sides.warm) (plain_get ask.now) origin) (λ hit w. PlanWord (plain_for hash text sides.cold) (refill ask.now hit sides.exptime) (CopyOf w)) (given_when_done from_warm) (Some from)) (AdvanceOf hash text advance ask.now origin)) }
    ensures sure { IfOk result (λ advance. (hash : ℕ) (text : List ℕ) (origin : Origin) (b : ℕ) → IsSure hash text advance ask.now origin b) }
    ensures less { IfOk result (λ advance. (hash : ℕ) (text : List ℕ) → advance_work hash text advance ≤ 6 * plan_count (plain_for hash text sides.cold) + 1) }
{
    let add = refill_of(alloc, ask, &from_warm, sides.exptime)?;
    let cold = sides.cold.copy()?;
    let pending = Pending::Enter(cold);
    Ok(Advance {
        frame: Some(Frame::Refill {
            sides,
            from_warm,
            from,
            add,
        }),
        pending,
    })
}

// A classic get is answered from the warm side, another asks the cold side again.
fn back_refill(ask: &Ask, sides: Sides, from_warm: Done) -> Advance
    ensures same { (hash : ℕ) (text : List ℕ) (origin : Origin) (b : ℕ) → SameAt b (AfterRefill ask.now (PlanWord (plain_for hash text sides.cold) ask.now origin) (PlanWord (plain_for hash text sides.warm) (plain_get ask.now) origin) (λ hit w. PlanWord (plain_for hash text sides.cold) (refill ask.now hit sides.exptime) (CopyOf w)) (given_when_done from_warm)) (AdvanceOf hash text result ask.now origin) }
    ensures sure { (hash : ℕ) (text : List ℕ) (origin : Origin) (b : ℕ) → IsSure hash text result ask.now origin b }
    ensures less { (hash : ℕ) (text : List ℕ) → advance_work hash text result ≤ 3 * plan_count (plain_for hash text sides.cold) + 1 }
{
    if is_plain_get(ask) {
        Advance {
            frame: None,
            pending: Pending::Back(from_warm),
        }
    } else {
        Advance {
            frame: None,
            pending: Pending::Enter(sides.cold),
        }
    }
}

/// What the frame goes on with when a child of it gave this.
pub fn back(alloc: Global, ask: &Ask, frame: Frame, done: Done) -> Result<Advance, AllocError>
    ensures same { IfOk result (λ advance. (hash : ℕ) (text : List ℕ) (origin : Origin) (b : ℕ) → NeedsHit frame (given_when_done done) → SameAt b (AfterFrame hash text frame ask.now origin (given_when_done done)) (AdvanceOf hash text advance ask.now origin)) }
    ensures sure { IfOk result (λ advance. (hash : ℕ) (text : List ℕ) (origin : Origin) (b : ℕ) → IsSure hash text advance ask.now origin b) }
    ensures less { IfOk result (λ advance. (hash : ℕ) (text : List ℕ) → advance_work hash text advance ≤ frame_work hash text frame) }
{
    match frame {
        Frame::All { rest, worst } => back_all(rest, worst, done),
        Frame::First { rest, limit } => back_first(rest, limit, done),
        Frame::Cold { sides } => back_cold(alloc, ask, sides, done),
        Frame::Warm { sides, first, get } => {
            drop_ask(get);
            back_warm(alloc, ask, sides, first, done)
        }
        Frame::Refill {
            sides,
            from_warm,
            from,
            add,
        } => {
            let _from = from;
            drop_ask(add);
            Ok(back_refill(ask, sides, from_warm))
        }
    }
}
