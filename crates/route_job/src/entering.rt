//! What each form of route begins with.

ghost use Rattle.std.specs.Prelude.{◌≡◌, ◌<◌, ◌+◌, ◌*◌, ◌≤◌, ◌%◌, ℕ, List, length, slice_index, IfOk, IfSome};
ghost use Rattle.route_tree.specs.Tag.{key_hash};
ghost use Rattle.mc_types.specs.declared.ask.Ask.{Ask};
ghost use Rattle.mc_types.specs.declared.call.Origin.{Origin};
ghost use Rattle.route_tree.specs.At.{plain_for, plain_for_all, plain_for_policies, tree_at};
ghost use Rattle.route_tree.specs.Form.{policies_of};
ghost use Rattle.route_tree.specs.Levels.{plan_of_level};
ghost use Rattle.route_tree.specs.Plan.{AllSync, MissFailover, More, Server, WarmUp, plan_count, plan_count_of_all, plan_count_of_policies};
ghost use Rattle.route_tree.specs.Word.{PlanWord, WordOfFirst, WordOfPolicy};
ghost use Rattle.route_job.specs.Parts.{SameAt};
ghost use Rattle.route_job.specs.Rest.{AdvanceOf};
ghost use Rattle.route_job.specs.Settling.{IsSure, advance_work};

use crate::asks::is_get;
use crate::frame::{Advance, Frame, Pending, Sides};
use crate::replies::{failing_done, null_done};
use mc_types::{Ask, Key, Op, ServerId};
use route_tree::at::longest;
use route_tree::{Children, Level, Tree, TreeForm, key_hash, policy_of};
use std::alloc::AllocError;

// All children in order.
fn enter_all(first: Tree, rest: Children) -> Advance
    ensures same { (hash : ℕ) (text : List ℕ) (ask : Ask) (origin : Origin) (b : ℕ) → SameAt b (PlanWord (AllSync (More (plain_for hash text first) (plain_for_all hash text rest))) ask origin) (AdvanceOf hash text result ask origin) }
    ensures sure { (hash : ℕ) (text : List ℕ) (ask : Ask) (origin : Origin) (b : ℕ) → IsSure hash text result ask origin b }
    ensures less { (hash : ℕ) (text : List ℕ) → advance_work hash text result + 1 ≤ 3 * plan_count (AllSync (More (plain_for hash text first) (plain_for_all hash text rest))) }
{
    Advance {
        frame: Some(Frame::All { rest, worst: None }),
        pending: Pending::Enter(first),
    }
}

// The children in order up to the first reply of a rank below the limit.
fn enter_first(first: Tree, rest: Children, limit: u8) -> Advance
    ensures same { (hash : ℕ) (text : List ℕ) (ask : Ask) (origin : Origin) (b : ℕ) → SameAt b (WordOfFirst (More (plain_for hash text first) (plain_for_all hash text rest)) limit ask origin) (AdvanceOf hash text result ask origin) }
    ensures sure { (hash : ℕ) (text : List ℕ) (ask : Ask) (origin : Origin) (b : ℕ) → IsSure hash text result ask origin b }
    ensures less { (hash : ℕ) (text : List ℕ) → advance_work hash text result ≤ 3 * plan_count_of_all (More (plain_for hash text first) (plain_for_all hash text rest)) + 1 }
{
    Advance {
        frame: Some(Frame::First { rest, limit }),
        pending: Pending::Enter(first),
    }
}

// A get goes on to the first hit; another operation asks the first child alone.
fn enter_miss(ask: &Ask, first: Tree, rest: Children) -> Advance
    ensures same { (hash : ℕ) (text : List ℕ) (origin : Origin) (b : ℕ) → SameAt b (PlanWord (MissFailover (More (plain_for hash text first) (plain_for_all hash text rest))) ask.now origin) (AdvanceOf hash text result ask.now origin) }
    ensures sure { (hash : ℕ) (text : List ℕ) (origin : Origin) (b : ℕ) → IsSure hash text result ask.now origin b }
    ensures less { (hash : ℕ) (text : List ℕ) → advance_work hash text result ≤ 3 * plan_count_of_all (More (plain_for hash text first) (plain_for_all hash text rest)) + 1 }
{
    if is_get(ask.op) {
        enter_first(first, rest, 1)
    } else {
        enter_alone(first)
    }
}

// This tree and nothing more.
fn enter_alone(tree: Tree) -> Advance
    ensures same { (hash : ℕ) (text : List ℕ) (ask : Ask) (origin : Origin) (b : ℕ) → SameAt b (PlanWord (plain_for hash text tree) ask origin) (AdvanceOf hash text result ask origin) }
    ensures sure { (hash : ℕ) (text : List ℕ) (ask : Ask) (origin : Origin) (b : ℕ) → IsSure hash text result ask origin b }
    ensures less { (hash : ℕ) (text : List ℕ) → advance_work hash text result ≤ 3 * plan_count (plain_for hash text tree) }
{
    Advance {
        frame: None,
        pending: Pending::Enter(tree),
    }
}

// A get may ask the warm side too.
fn enter_warm_up(ask: &Ask, sides: Sides) -> Result<Advance, AllocError>
    ensures same { IfOk result (λ advance. (hash : ℕ) (text : List ℕ) (origin : Origin) (b : ℕ) → SameAt b (PlanWord (WarmUp (plain_for hash text sides.cold) (plain_for hash text sides.warm) sides.exptime) ask.now origin) (AdvanceOf hash text advance ask.now origin)) }
    ensures sure { IfOk result (λ advance. (hash : ℕ) (text : List ℕ) (origin : Origin) (b : ℕ) → IsSure hash text advance ask.now origin b) }
    ensures less { IfOk result (λ advance. (hash : ℕ) (text : List ℕ) → advance_work hash text advance + 1 ≤ 3 * plan_count (WarmUp (plain_for hash text sides.cold) (plain_for hash text sides.warm) sides.exptime)) }
{
    let cold = sides.cold.copy()?;
    let pending = Pending::Enter(cold);
    if is_get(ask.op) {
        Ok(Advance {
            frame: Some(Frame::Cold { sides }),
            pending,
        })
    } else {
        Ok(Advance {
            frame: None,
            pending,
        })
    }
}

// The sides, shared.
fn sides_of(cold: &Tree, warm: &Tree, exptime: u32) -> Result<Sides, AllocError>
    ensures { IfOk result (λ sides. sides ≡ record { cold = cold.now; warm = warm.now; exptime = exptime }) }
{
    let cold = cold.copy()?;
    let warm = warm.copy()?;
    Ok(Sides {
        cold,
        warm,
        exptime,
    })
}

// The child of the operation, else the default.
fn enter_chosen(ask: &Ask, policies: &[(Op, Tree)], default: &Tree) -> Result<Advance, AllocError>
    ensures same { IfOk result (λ advance. (hash : ℕ) (text : List ℕ) (origin : Origin) (b : ℕ) → SameAt b (WordOfPolicy (plain_for_policies hash text (policies_of policies.now default.now)) ask.now origin) (AdvanceOf hash text advance ask.now origin)) }
    ensures sure { IfOk result (λ advance. (hash : ℕ) (text : List ℕ) (origin : Origin) (b : ℕ) → IsSure hash text advance ask.now origin b) }
    ensures less { IfOk result (λ advance. (hash : ℕ) (text : List ℕ) → advance_work hash text advance ≤ 3 * plan_count_of_policies (plain_for_policies hash text (policies_of policies.now default.now))) }
{
    let tree = policy_of(policies, default, ask.op).copy()?;
    Ok(enter_alone(tree))
}

// What a level begins with.
fn enter_level(ask: &Ask, level: Level) -> Result<Advance, AllocError>
    ensures same { IfOk result (λ advance. (hash : ℕ) (text : List ℕ) (origin : Origin) (b : ℕ) → SameAt b (PlanWord (plan_of_level hash text level.entry) ask.now origin) (AdvanceOf hash text advance ask.now origin)) }
    ensures sure { IfOk result (λ advance. (hash : ℕ) (text : List ℕ) (origin : Origin) (b : ℕ) → IsSure hash text advance ask.now origin b) }
    ensures less { IfOk result (λ advance. (hash : ℕ) (text : List ℕ) → advance_work hash text advance + 1 ≤ 3 * plan_count (plan_of_level hash text level.entry)) }
{
    match level {
        Level::Server(server) => Ok(Advance {
            frame: None,
            pending: Pending::Call(server),
        }),
        Level::Null => Ok(Advance {
            frame: None,
            pending: Pending::Back(null_done(ask.dialect, ask.op)),
        }),
        Level::Error => Ok(Advance {
            frame: None,
            pending: Pending::Back(failing_done()),
        }),
        Level::AllSync { first, rest } => Ok(enter_all(first, rest)),
        Level::Failover { first, rest } => Ok(enter_first(first, rest, 4)),
        Level::MissFailover { first, rest } => Ok(enter_miss(ask, first, rest)),
        Level::WarmUp {
            cold,
            warm,
            exptime,
        } => enter_warm_up(ask, sides_of(cold, warm, exptime)?),
        Level::ByOperation { policies, default } => enter_chosen(ask, policies, default),
    }
}

/// What the tree begins with, as the keys of this hash and text see it. It takes no memory, and is refused only where a
/// count of sharers is full.
pub fn enter(hash: u32, text: &[u8], ask: &Ask, tree: &Tree) -> Result<Advance, AllocError>
    ensures same { IfOk result (λ advance. (origin : Origin) (b : ℕ) → SameAt b (PlanWord (plain_for hash text.now tree.now) ask.now origin) (AdvanceOf hash text.now advance ask.now origin)) }
    ensures sure { IfOk result (λ advance. (origin : Origin) (b : ℕ) → IsSure hash text.now advance ask.now origin b) }
    ensures less { IfOk result (λ advance. advance_work hash text.now advance + 1 ≤ 3 * plan_count (plain_for hash text.now tree.now)) }
{
    let level = tree.level(hash, text)?;
    enter_level(ask, level)
}

// The server of the pool that has the key. A pool of one hashes none.
fn pool_server(key: &Key, servers: &[ServerId]) -> ServerId
    requires { 0 < length servers.now }
    ensures { result ≡ slice_index servers.now (key_hash key.now % length servers.now) }
{
    if servers.len() == 1 {
        return servers[0];
    }
    servers[key_hash(key) as usize % servers.len()]
}

/// The server that the key is asked of at once, where its tree is one call of it. It takes no memory, no part of the tree is
/// shared for it, and the key is hashed only where several servers may have it.
pub fn server_at_once(key: &Key, tree: &Tree) -> Option<ServerId>
    ensures { IfSome result (λ server. tree_at tree.now key.now ≡ Server server) }
{
    match tree.form() {
        TreeForm::Pool(servers) => Some(pool_server(key, servers)),
        TreeForm::Server(server) => Some(*server),
        TreeForm::ByPrefix { policies, wildcard } => {
            server_at_once(key, longest(policies, wildcard, key.as_bytes()))
        }
        _ => None,
    }
}
