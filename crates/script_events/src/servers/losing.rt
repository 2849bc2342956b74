//! Losses that are named for calls to come, and what they leave of the caches.

ghost use Rattle.std.specs.Prelude.{◌≡◌, ℕ, ◌++◌, ◌∷◌, [], List, if◌then◌else◌, nat_eq, length, OnOk, OnErr};
ghost use Rattle.fresh_runs.specs.Run.{after_event};
ghost use Rattle.script_events.specs.Caches.{loss_event, cache_held, after_loss, losses_named};
ghost use Rattle.script_events.specs.Losing.{AreLost};

use crate::servers::event::Loss;
use cache_server::Cache;
use std::alloc::{AllocError, Global};
use std::collections::BTreeMap;

/// One loss; a server that isn't there has nothing to lose. It takes no memory.
pub fn lose_one(caches: &mut Vec<Cache>, loss: &Loss)
    ensures contents { caches.new.items ≡ after_loss (loss_event loss.now) caches.old.items }
    ensures held { (s : ℕ) (k : List ℕ) → cache_held caches.new.items s k ≡ after_event (loss_event loss.now) (cache_held caches.old.items) s k }
    ensures count { length caches.new.items ≡ length caches.old.items }
{
    match loss {
        Loss::Item(server, key) => {
            let place = server.number() as usize;
            if place < caches.len() {
                caches[place].lose(key);
            }
        }
        Loss::Restart(server) => {
            let place = server.number() as usize;
            if place < caches.len() {
                caches[place].restart();
            }
        }
    }
}

/// These losses, in order. It takes no memory.
pub fn lose_all(caches: &mut Vec<Cache>, losses: &[Loss])
    ensures lost { AreLost losses.now caches.old.items caches.new.items }
    ensures count { length caches.new.items ≡ length caches.old.items }
{
    for loss in losses {
        lose_one(caches, loss);
    }
}

/// One more loss is named for the call of this number, after those that were. The only error is running out of memory, which
/// changes nothing of what is named.
pub fn add_loss(
    alloc: Global,
    named: &mut BTreeMap<u64, Vec<Loss>>,
    turn: u64,
    loss: Loss,
) -> Result<(), AllocError>
    ensures ok { OnOk result ((t : ℕ) → losses_named named.new t ≡ (if nat_eq turn t then losses_named named.old t ++ loss ∷ [] else losses_named named.old t)) }
    ensures err { OnErr result ((t : ℕ) → losses_named named.new t ≡ losses_named named.old t) }
{
    if let Some(losses) = named.get_mut(&turn) {
        return match losses.push(loss) {
            Ok(()) => Ok(()),
            Err(_) => Err(AllocError),
        };
    }
    let mut losses = Vec::new(alloc);
    if losses.push(loss).is_err() {
        return Err(AllocError);
    }
    match named.insert(turn, losses) {
        Ok(_) => Ok(()),
        Err(_) => Err(AllocError),
    }
}
