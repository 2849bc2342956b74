//! The asks that a warm-up makes of its own, and which asks it is for.

ghost use Rattle.std.specs.Prelude.{◌≡◌, pos, [], false, Some, None, IfOk};
ghost use Rattle.route_tree.specs.Copies.{is_get};
ghost use Rattle.mc_types.specs.declared.ask.Op.TheVariants.{Add};
ghost use Rattle.mc_types.specs.declared.ask.Dialect.TheVariants.{Classic};
ghost use Rattle.route_tree.specs.Word.{plain_get, refill, is_plain_get};

use crate::done::Done;
use crate::formed_ask::FormedAsk;
use mc_types::{Answer, Ask, Body, Dialect, Op, SharedAsk, Tokens};
use std::alloc::{AllocError, Global};

/// Whether the operation is a get.
pub fn is_get(op: Op) -> bool
    ensures { result ≡ is_get op }
{
    match op {
        Op::Get => true,
        _ => false,
    }
}

// A classic get of the key of the ask. It takes no memory.
fn plain_get_of(alloc: Global, ask: &Ask) -> Ask
    ensures { result ≡ plain_get ask.now }
{
    Ask::bare(Dialect::Classic, Op::Get, ask.key, Tokens::new(alloc))
}

/// A classic get of the key of the ask. The only error: memory was refused.
#[tactic(auto, using(crate::proofs::Asking::get_is_formed))]
pub fn get_of(alloc: Global, ask: &Ask) -> Result<FormedAsk, AllocError>
    ensures { IfOk result (λ get. get.ask ≡ plain_get ask.now) }
{
    let get = plain_get_of(alloc, ask);
    get.key.bytes_are_a_key();
    let get = SharedAsk::new(alloc, get)?;
    Ok(FormedAsk { ask: get })
}

// An add of these data under the key of the ask. It takes no memory.
fn add_of(alloc: Global, ask: &Ask, flags: u32, body: Body, exptime: u32) -> Ask
    ensures { result ≡ record { key = ask.now.key; op = Add; dialect = Classic; with_cas = false; flags = flags; exptime = Some (pos exptime); body = body; cas = None; delta = 0; tokens = [] } }
{
    let mut add = Ask::bare(Dialect::Classic, Op::Add, ask.key, Tokens::new(alloc));
    add.flags = flags;
    add.exptime = Some(i64::from(exptime));
    add.body = body;
    add
}

// An add of the item that was answered.
fn add_of_answer(alloc: Global, ask: &Ask, answer: &Answer, exptime: u32) -> Result<Ask, AllocError>
    ensures { IfOk result (λ add. add ≡ refill ask.now answer.now exptime) }
{
    match answer {
        Answer::Hit { flags, body, .. } => {
            let body = body.copy()?;
            Ok(add_of(alloc, ask, *flags, body, exptime))
        }
        _ => Ok(add_of(alloc, ask, 0, Body::empty(), exptime)),
    }
}

/// An add of the item that the reply shows. The only error: memory was refused.
#[tactic(auto, using(crate::proofs::Asking::refill_is_short, crate::proofs::Asking::refill_is_formed))]
pub fn refill_of(
    alloc: Global,
    ask: &Ask,
    done: &Done,
    exptime: u32,
) -> Result<FormedAsk, AllocError>
    ensures { IfOk result (λ add. add.ask ≡ refill ask.now done.now.reply exptime) }
{
    let add = add_of_answer(alloc, ask, &done.reply, exptime)?;
    add.key.bytes_are_a_key();
    add.numbers_in_range();
    let add = SharedAsk::new(alloc, add)?;
    Ok(FormedAsk { ask: add })
}

/// A classic get without its cas number.
pub fn is_plain_get(ask: &Ask) -> bool
    ensures { result ≡ is_plain_get ask.now }
{
    match ask.dialect {
        Dialect::Classic => !ask.with_cas,
        Dialect::Meta => false,
    }
}
