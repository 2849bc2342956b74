//! What each server may hold after the generations so far.

ghost use Rattle.std.specs.Prelude.{◌≡◌, ◌<◌, ℕ, List, [], ◌∷◌, ◌++◌, IfOk, length};
ghost use Rattle.route_tree.specs.Route.{Null};
ghost use Rattle.route_json.specs.Servers.{Addresses};
ghost use Rattle.gate_history.specs.declared.generation.Generation.{Generation};
ghost use Rattle.gate_history.specs.Remembering.{alone, idle, AreLeft, AllLeft, IsRemembered, AreRemembered};

use crate::history::History;
use gate_check::Gap;
use gate_growth::ledger::{Beginning, Unsound};
use mc_types::ServerId;
use route_json::{Config, Servers};
use route_tree::{Tree, TreeForm};
use std::alloc::{AllocError, Global};

/// A gap, and the generation, counted from 1, that is the first to leave items there.
#[derive(Clone, Copy)]
pub struct LeftAt {
    pub generation: u32,
    pub gap: Gap,
}

/// What a server may hold after the generations so far.
#[derive(Clone, Copy)]
pub enum State {
    /// Nothing that was deleted, whatever deletes will be sent to: none of the trees put anything there, and it began with nothing.
    Clean,
    /// Nothing that was deleted so far, but items: each delete from now on has to go there too before keys move to it.
    Held,
    /// Items that were deleted.
    Left(LeftAt),
}

// The tree of one server.
fn server_config(alloc: Global, servers: &Servers, server: ServerId) -> Result<Config, AllocError>
    requires { server < length servers.now }
    ensures { IfOk result (λ config. config ≡ alone servers.now server) }
{
    let tree = Tree::new(alloc, TreeForm::Server(server))?;
    Ok(Config::new(tree, servers.copy(alloc)?))
}

// The tree of no server.
fn null_config(alloc: Global, servers: &Servers) -> Result<Config, AllocError>
    ensures { IfOk result (λ config. config ≡ record { tree = Null; servers = servers.now }) }
{
    let tree = Tree::new(alloc, TreeForm::Null)?;
    Ok(Config::new(tree, servers.copy(alloc)?))
}

// What is left on the server, where something is.
fn left_at(
    alloc: Global,
    history: &History,
    servers: &Servers,
    server: ServerId,
) -> Result<Option<LeftAt>, Unsound>
    requires { server < length servers.now }
    ensures { IfOk result (AreLeft history.now servers.now server) }
{
    let config = server_config(alloc, servers, server)?;
    match history.judge(alloc, &config, Beginning::Own) {
        Ok(()) => Ok(None),
        Err(Unsound::Left(generation, gap)) => Ok(Some(LeftAt { generation, gap })),
        Err(unsound) => Err(unsound),
    }
}

// What is left on each of the servers.
fn all_left(
    alloc: Global,
    history: &History,
    servers: &Servers,
) -> Result<Vec<Option<LeftAt>>, Unsound>
    ensures left { IfOk result (λ all. AllLeft history.now servers.now all.items) }
    ensures size { IfOk result (λ all. length all.items ≡ length servers.now) }
{
    let mut all = Vec::new(alloc);
    for number in 0..servers.len() {
        let found = left_at(alloc, history, servers, ServerId::new(number as u32))?;
        if all.push(found).is_err() {
            return Err(Unsound::NoMemory);
        }
    }
    Ok(all)
}

// What a server may hold of which this is left, and this once a delete didn't go there.
fn remembered_of(now: Option<LeftAt>, later: Option<LeftAt>) -> State
    ensures { (gs : List Generation) (servers : Addresses) (server : ℕ) → AreLeft gs servers server now → AreLeft (gs ++ idle servers ∷ []) servers server later → IsRemembered gs servers server result }
{
    match now {
        Some(left) => State::Left(left),
        None => match later {
            Some(_) => State::Held,
            None => State::Clean,
        },
    }
}

// What is remembered of each server.
fn all_remembered(
    alloc: Global,
    now: &[Option<LeftAt>],
    later: &[Option<LeftAt>],
) -> Result<Vec<State>, AllocError>
    requires { length now.now ≡ length later.now }
    ensures remembered { IfOk result (λ all. (gs : List Generation) (servers : Addresses) → AllLeft gs servers now.now → AllLeft (gs ++ idle servers ∷ []) servers later.now → AreRemembered gs servers all.items) }
    ensures size { IfOk result (λ all. length all.items ≡ length now.now) }
{
    let mut all = Vec::new(alloc);
    for number in 0..now.len() {
        all.push(remembered_of(now[number], later[number]))?;
    }
    Ok(all)
}

/// What each of these servers, in their order, may hold after the generations. The errors are those of a configuration that follows.
pub fn remembered(alloc: Global, history: History, servers: &Servers) -> Result<Vec<State>, Unsound>
    ensures remembered { IfOk result (λ all. AreRemembered history servers.now all.items) }
    ensures size { IfOk result (λ all. length all.items ≡ length servers.now) }
{
    let now = all_left(alloc, &history, servers)?;
    let idle = history.with(alloc, null_config(alloc, servers)?, Beginning::Own)?;
    let later = all_left(alloc, &idle, servers)?;
    Ok(all_remembered(alloc, &now, &later)?)
}
