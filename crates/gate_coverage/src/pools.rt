//! From which pools of a tree reads take, found once for all keys that a text begins: the same pools for each hash.

ghost use Rattle.std.specs.Prelude.{◌≡◌, ◌++◌, ◌∷◌, [], ◌<◌, true, if◌then◌else◌, IfOk, length};
ghost use Rattle.std.specs.Str.{bytes_eq};
ghost use Rattle.route_tree.specs.Form.{routes_of, policies_of};
ghost use Rattle.gate_coverage.specs.Pools.{pool_server_at, shown_pools, pools_of_each, pools_of_some, pools_of_first, pools_of_head, pools_of_policy, has_pool, with_pool, distinct_after, sought_pools, taken_pools};

use crate::possible::{adds_at, fails_at, hits_at_each};
use crate::stores::is_op;
use mc_types::{Op, ServerId};
use route_tree::at::longest;
use route_tree::{Tree, TreeForm};
use std::alloc::{AllocError, Global};
use std::marker::Model;
use std::slice::from_ref;

/// A pool of a tree. A server that stands alone is a pool of one.
#[derive(Drop)]
pub struct Pool<'a> {
    servers: &'a [ServerId],
}

impl<'a> Model for Pool<'a> {
    ghost use Rattle.std.specs.Prelude.{ℕ, ◌<◌, List, length};

    ghost Value = { List ℕ };

    ghost view = { λ p. p.servers.now };

    ghost invariant = { λ p. 0 < length p.servers.now };
}

impl<'a> Pool<'a> {
    /// The pool of these servers.
    pub fn new(servers: &'a [ServerId]) -> Pool<'a>
        requires { 0 < length servers.now }
        ensures { result ≡ servers.now }
    {
        Pool { servers }
    }

    /// This pool once more. It takes no memory.
    pub fn again(&self) -> Pool<'a>
        ensures { result ≡ self.now }
    {
        Pool {
            servers: self.servers,
        }
    }

    // Whether the other has the same servers.
    fn is_same(&self, other: &Pool) -> bool
        ensures { result ≡ bytes_eq self.now other.now }
    {
        self.servers == other.servers
    }

    /// Whether these are the pool's servers.
    pub fn has_servers(&self, servers: &[ServerId]) -> bool
        ensures { result ≡ bytes_eq servers.now self.now }
    {
        servers == self.servers
    }

    /// The server at the hash modulo the pool's size.
    pub fn at(&self, hash: u32) -> ServerId
        ensures { result ≡ pool_server_at hash self.now }
    {
        self.servers[hash as usize % self.servers.len()]
    }
}

// An operation, and what is looked for of it: the pools of which a reply shows an item, and those of which one is copied.
#[derive(Clone, Copy)]
struct Sought {
    op: Op,
    shows: bool,
    copies: bool,
}

// Adds the pools that are sought for the keys that the text begins.
#[cycle(pools)]
fn add_pools<'a>(
    tree: &'a Tree,
    text: &[u8],
    sought: Sought,
    pools: &mut Vec<Pool<'a>>,
) -> Result<(), AllocError>
    ensures { IfOk result (λ _. pools.new.items ≡ pools.old.items ++ shown_pools text.now sought.op sought.shows sought.copies tree.now) }
{
    match tree.form() {
        TreeForm::Pool(servers) => add_pool(servers, sought, pools)?,
        TreeForm::Server(server) => add_pool(from_ref(server), sought, pools)?,
        TreeForm::Null | TreeForm::Error => {}
        TreeForm::AllSync(children) => add_pools_of_each(children, text, sought, pools)?,
        TreeForm::Failover(children) => add_pools_of_first(children, text, sought, pools)?,
        TreeForm::MissFailover(children) => {
            if is_op(sought.op, Op::Get) {
                add_pools_of_some(children, text, sought, pools)?;
            } else {
                add_pools_of_head(children, text, sought, pools)?;
            }
        }
        TreeForm::WarmUp { cold, warm, .. } => {
            add_pools(cold, text, sought, pools)?;
            if is_op(sought.op, Op::Get) {
                let adds = adds_at(cold, text);
                let warm_sought = Sought {
                    op: sought.op,
                    shows: sought.shows || (sought.copies && adds),
                    copies: sought.copies,
                };
                add_pools(warm, text, warm_sought, pools)?;
            }
        }
        TreeForm::ByOperation { policies, default } => {
            add_pools_of_policy(policies, default, text, sought, pools)?
        }
        TreeForm::ByPrefix { policies, wildcard } => {
            return add_pools(longest(policies, wildcard, text), text, sought, pools);
        }
    }
    Ok(())
}

// Adds the pool, where what is shown is sought.
fn add_pool<'a>(
    servers: &'a [ServerId],
    sought: Sought,
    pools: &mut Vec<Pool<'a>>,
) -> Result<(), AllocError>
    requires { 0 < length servers.now }
    ensures { IfOk result (λ _. pools.new.items ≡ pools.old.items ++ (if sought.shows then servers.now ∷ [] else [])) }
{
    if sought.shows {
        pools.push(Pool::new(servers))?;
    }
    Ok(())
}

// Adds the pools that are sought of all children: of equal ranks the first is the reply.
#[cycle(pools)]
fn add_pools_of_each<'a>(
    children: &'a [Tree],
    text: &[u8],
    sought: Sought,
    pools: &mut Vec<Pool<'a>>,
) -> Result<(), AllocError>
    ensures { IfOk result (λ _. pools.new.items ≡ pools.old.items ++ pools_of_each text.now sought.op sought.shows sought.copies (routes_of children.now)) }
{
    match children {
        [] => Ok(()),
        [first, rest @ ..] => {
            let others_hit = hits_at_each(rest, text, sought.op);
            let first_sought = Sought {
                op: sought.op,
                shows: sought.shows && others_hit,
                copies: sought.copies,
            };
            let rest_sought = Sought {
                op: sought.op,
                shows: false,
                copies: sought.copies,
            };
            add_pools(first, text, first_sought, pools)?;
            add_pools_of_some(rest, text, rest_sought, pools)
        }
    }
}

// Adds the pools that are sought of children up to a hit.
#[cycle(pools)]
fn add_pools_of_some<'a>(
    children: &'a [Tree],
    text: &[u8],
    sought: Sought,
    pools: &mut Vec<Pool<'a>>,
) -> Result<(), AllocError>
    ensures { IfOk result (λ _. pools.new.items ≡ pools.old.items ++ pools_of_some text.now sought.op sought.shows sought.copies (routes_of children.now)) }
{
    match children {
        [] => Ok(()),
        [first, rest @ ..] => {
            add_pools(first, text, sought, pools)?;
            add_pools_of_some(rest, text, sought, pools)
        }
    }
}

// Adds the pools that are sought of children up to one that doesn't fail.
#[cycle(pools)]
fn add_pools_of_first<'a>(
    children: &'a [Tree],
    text: &[u8],
    sought: Sought,
    pools: &mut Vec<Pool<'a>>,
) -> Result<(), AllocError>
    ensures { IfOk result (λ _. pools.new.items ≡ pools.old.items ++ pools_of_first text.now sought.op sought.shows sought.copies (routes_of children.now)) }
{
    match children {
        [] => Ok(()),
        [first, rest @ ..] => {
            add_pools(first, text, sought, pools)?;
            if fails_at(first, text, sought.op) {
                add_pools_of_first(rest, text, sought, pools)?;
            }
            Ok(())
        }
    }
}

// Adds the pools that are sought of the first child alone.
#[cycle(pools)]
fn add_pools_of_head<'a>(
    children: &'a [Tree],
    text: &[u8],
    sought: Sought,
    pools: &mut Vec<Pool<'a>>,
) -> Result<(), AllocError>
    ensures { IfOk result (λ _. pools.new.items ≡ pools.old.items ++ pools_of_head text.now sought.op sought.shows sought.copies (routes_of children.now)) }
{
    match children {
        [] => Ok(()),
        [first, ..] => add_pools(first, text, sought, pools),
    }
}

// Adds the pools that are sought of the child of the operation, else of the default.
#[cycle(pools)]
fn add_pools_of_policy<'a>(
    policies: &'a [(Op, Tree)],
    default: &'a Tree,
    text: &[u8],
    sought: Sought,
    pools: &mut Vec<Pool<'a>>,
) -> Result<(), AllocError>
    ensures { IfOk result (λ _. pools.new.items ≡ pools.old.items ++ pools_of_policy text.now sought.op sought.shows sought.copies (policies_of policies.now default.now)) }
{
    match policies {
        [] => add_pools(default, text, sought, pools),
        [(own, child), rest @ ..] => {
            if is_op(*own, sought.op) {
                add_pools(child, text, sought, pools)
            } else {
                add_pools_of_policy(rest, default, text, sought, pools)
            }
        }
    }
}

// The pools from which some operation takes, those of each operation after another.
fn sought_pools<'a>(alloc: Global, tree: &'a Tree, text: &[u8]) -> Result<Vec<Pool<'a>>, AllocError>
    ensures { IfOk result (λ pools. pools.items ≡ sought_pools text.now tree.now) }
{
    let mut pools = Vec::new(alloc);
    add_pools(tree, text, shown_by(Op::Get, true), &mut pools)?;
    add_pools(tree, text, shown_by(Op::Gat, false), &mut pools)?;
    add_pools(tree, text, shown_by(Op::Incr, false), &mut pools)?;
    add_pools(tree, text, shown_by(Op::Decr, false), &mut pools)?;
    Ok(pools)
}

// Whether the pool is among the pools.
fn has_pool(pools: &[Pool], pool: &Pool) -> bool
    ensures { result ≡ has_pool pools.now pool.now }
{
    match pools {
        [] => false,
        [first, rest @ ..] => first.is_same(pool) || has_pool(rest, pool),
    }
}

/// The pools from which some operation takes, for the keys that the text begins, each once. The only error is that memory
/// was refused.
pub fn taken_pools<'a>(
    alloc: Global,
    tree: &'a Tree,
    text: &[u8],
) -> Result<Vec<Pool<'a>>, AllocError>
    ensures { IfOk result (λ pools. pools.items ≡ taken_pools text.now tree.now) }
{
    let sought = sought_pools(alloc, tree, text)?;
    distinct_of(alloc, &sought)
}

// Adds the pool, unless it is there.
fn add_new<'a>(pools: &mut Vec<Pool<'a>>, pool: &Pool<'a>) -> Result<(), AllocError>
    ensures { IfOk result (λ _. pools.new.items ≡ with_pool pools.old.items pool.now) }
{
    if has_pool(pools, pool) {
        return Ok(());
    }
    pools.push(pool.again())?;
    Ok(())
}

// Each of the pools once.
fn distinct_of<'a>(alloc: Global, sought: &[Pool<'a>]) -> Result<Vec<Pool<'a>>, AllocError>
    ensures { IfOk result (λ pools. pools.items ≡ distinct_after [] sought.now) }
{
    let mut pools = Vec::new(alloc);
    for pool in sought {
        add_new(&mut pools, pool)?;
    }
    Ok(pools)
}

// What is shown by the operation, and what it copies where that is asked.
fn shown_by(op: Op, copies: bool) -> Sought
    ensures { result ≡ record { op = op; shows = true; copies = copies } }
{
    Sought {
        op,
        shows: true,
        copies,
    }
}
