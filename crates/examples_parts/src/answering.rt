//! Servers of the examples, which answer at once.

ghost use Rattle.std.specs.Prelude.{IfOk};
ghost use Rattle.mc_types.specs.Fits.{Fits, FitsFetch, IsAnswer};
ghost use Rattle.fresh_runs.specs.Single.{FitsOutcome};

use core_proxy::OutCall;
use mc_types::{Answer, Ask, Body, Dialect, Op, Outcome};
use std::alloc::{AllocError, Global};

/// Servers that hold `x` under the key `a`, and nothing else, and keep nothing that they are sent; or each call of them fails.
#[derive(Drop)]
pub struct FixedServers {
    alloc: Global,
    pub are_down: bool,
    /// How many calls they were asked.
    pub calls: u64,
}

impl FixedServers {
    /// These servers, of which no call fails and none was asked.
    pub fn new(alloc: Global) -> FixedServers {
        FixedServers {
            alloc,
            are_down: false,
            calls: 0,
        }
    }
}

// The item that they hold: `x`, with the flags 0 and the cas number 7.
fn hit(alloc: Global, with_cas: bool) -> Result<Answer, AllocError>
    ensures { IfOk result (λ answer. FitsFetch with_cas answer × IsAnswer answer) }
{
    let body = Body::from_slice(alloc, b"x")?;
    let cas = if with_cas { Some(7) } else { None };
    Ok(Answer::Hit {
        flags: 0,
        body,
        cas,
    })
}

// What they answer: a get of `a` is a hit, any other a miss; what is to be stored is stored, and nothing else is there.
fn answer_to(alloc: Global, ask: &Ask) -> Result<Answer, AllocError>
    ensures { IfOk result (λ answer. Fits ask.now answer) }
{
    let Dialect::Classic = ask.dialect else {
        return Ok(Answer::Error);
    };
    match ask.op {
        Op::Get | Op::Gat if ask.key.as_bytes() == b"a".as_slice() => hit(alloc, ask.with_cas),
        Op::Get | Op::Gat => Ok(Answer::Miss),
        Op::Set | Op::Add | Op::Replace | Op::Append | Op::Prepend => Ok(Answer::Stored),
        Op::Delete | Op::Cas | Op::Incr | Op::Decr | Op::Touch => Ok(Answer::NotFound),
    }
}

impl FixedServers {
    /// What they answer to a call.
    pub fn answer(&mut self, call: OutCall<'_>) -> Outcome
        ensures { FitsOutcome call.entry.ask.now result }
    {
        self.calls = self.calls.saturating_add(1);
        if self.are_down {
            return Outcome::Failed;
        }
        match answer_to(self.alloc, call.ask) {
            Ok(answer) => Outcome::Answered(answer),
            Err(_) => Outcome::Failed,
        }
    }
}
