//! Configurations that are loaded while a script runs, judged in pairs: whatever servers held at first, each tree has to cover each later one.

ghost use Rattle.std.specs.Prelude.{◌≡◌, ◌+◌, ◌<◌, ◌^◌, [], ◌∷◌, ◌++◌, length, map, IfOk, OnOk, MatchResult};
ghost use Rattle.route_json.specs.Configuration.{Configuration};
ghost use Rattle.gate_check.specs.Places.{CoversAt};
ghost use Rattle.gate_check.specs.Reload.{AreCovering, IsFaultAmong};
ghost use Rattle.gate_check.specs.Sound.{trees_of};
ghost use Rattle.script_run.specs.Reloads.{loading_is_refused};
ghost use Rattle.mcgate_replay.specs.Growing.{JudgesNext};
ghost use Rattle.mcgate_replay.specs.Pairing.{of_generation, IsFaultOf, IsJoinFault, MayNotJoin, AreHeld, ArePaired, known_of_pair};

use gate_check::ReloadFault;
use gate_check::reloading::all_cover;
use route_json::Config;
use route_tree::Tree;
use script_events::Reload;
use script_run::accepted::judging::{refusal, refused_of};
use script_run::accepted::{Judged, Loading};
use std::alloc::{AllocError, Global};

// The fault, told of this generation.
fn of_generation(generation: u32, fault: ReloadFault) -> ReloadFault
    ensures { result ≡ of_generation generation fault }
{
    match fault {
        ReloadFault::TooManyGenerations => ReloadFault::TooManyGenerations,
        ReloadFault::TooManyPlaces(_) => ReloadFault::TooManyPlaces(generation),
        ReloadFault::Uncovered(_, gap) => ReloadFault::Uncovered(generation, gap),
        ReloadFault::NoMemory => ReloadFault::NoMemory,
    }
}

// Whether the tree of the configuration, which is of this generation, covers the tree.
fn covers(alloc: Global, generation: u32, config: &Config, tree: &Tree) -> Result<(), ReloadFault>
    ensures { MatchResult result (λ _. CoversAt config.now.tree tree.now) (IsFaultOf generation config.now.tree tree.now) }
{
    match all_cover(alloc, std::slice::from_ref(config), tree) {
        Ok(()) => Ok(()),
        Err(fault) => Err(of_generation(generation, fault)),
    }
}

// Whether the tree of each of the configurations covers the tree.
fn each_covers(alloc: Global, configs: &[Config], tree: &Tree) -> Result<(), ReloadFault>
    requires { length configs.now < 2 ^ 32 }
    ensures { MatchResult result (λ _. AreCovering (trees_of configs.now) tree.now (length configs.now)) (IsFaultAmong (trees_of configs.now) tree.now) }
{
    for index in 0..configs.len() {
        match covers(alloc, index as u32 + 1, &configs[index], tree) {
            Ok(()) => {}
            Err(fault) => return Err(fault),
        }
    }
    Ok(())
}

// The number of the generation that the configuration would be after these, where they aren't as many as are held at most, and each
// one's tree and its own cover its tree.
fn next_number(
    alloc: Global,
    most: u32,
    configs: &[Config],
    config: &Config,
) -> Result<u32, ReloadFault>
    requires { AreHeld most (trees_of configs.now) }
    ensures { MatchResult result (λ n. (n ≡ length configs.now + 1) × AreHeld most (trees_of configs.now ++ config.now.tree ∷ [])) (IsJoinFault most (trees_of configs.now) config.now.tree) }
{
    let held = configs.len();
    if held >= most as usize {
        return Err(ReloadFault::TooManyGenerations);
    }
    let tree = config.tree();
    let _form = tree.form();
    match each_covers(alloc, configs, tree) {
        Err(fault) => Err(fault),
        Ok(()) => match covers(alloc, held as u32 + 1, config, tree) {
            Err(fault) => Err(fault),
            Ok(()) => Ok(held as u32 + 1),
        },
    }
}

// A copy of the configuration stands behind these.
fn push_copy(alloc: Global, configs: &mut Vec<Config>, config: &Config) -> Result<(), AllocError>
    ensures { OnOk result (configs.new.items ≡ configs.old.items ++ config.now ∷ []) }
{
    configs.push(config.copy(alloc)?)?;
    Ok(())
}

// Asks whether one more configuration may join these.
fn judge_next(
    alloc: Global,
    most: u32,
    configs: &mut Vec<Config>,
    reload: &Reload,
) -> Result<Loading, AllocError>
    requires { AreHeld most (trees_of configs.old.items) }
    ensures judged { (first : Configuration) → IfOk result (λ loading. JudgesNext (MayNotJoin most) (known_of_pair first configs.old.items) reload.now loading (known_of_pair first configs.new.items)) }
    ensures held { OnOk result (AreHeld most (trees_of configs.new.items)) }
{
    match next_number(alloc, most, configs, &reload.config) {
        Ok(number) => {
            push_copy(alloc, configs, &reload.config)?;
            Ok(Loading::Loaded(number))
        }
        Err(fault) => refusal(fault).ok_or(AllocError),
    }
}

// The configuration alone.
fn alone(alloc: Global, config: &Config) -> Result<Vec<Config>, AllocError>
    ensures { IfOk result (λ configs. configs.items ≡ config.now ∷ []) }
{
    let mut configs = Vec::new(alloc);
    push_copy(alloc, &mut configs, config)?;
    Ok(configs)
}

/// Asks of each reload's configuration in order whether its tree is covered by itself and by that of the first one and of each that was
/// accepted; what is accepted is in use from there on, until so many are held. The only error is running out of memory.
pub fn judge_pairs(
    alloc: Global,
    most: u32,
    first: &Config,
    reloads: &[Reload],
) -> Result<Judged, AllocError>
    requires { AreHeld most (first.now.tree ∷ []) }
    ensures judged { IfOk result (λ judged. ArePaired most first.now reloads.now judged.loadings.items) }
    ensures refused { IfOk result (λ judged. judged.refused.items ≡ map loading_is_refused judged.loadings.items) }
{
    let mut configs = alone(alloc, first)?;
    let mut loadings = Vec::new(alloc);
    for reload in reloads {
        loadings.push(judge_next(alloc, most, &mut configs, reload)?)?;
    }
    let refused = refused_of(alloc, &loadings)?;
    Ok(Judged { loadings, refused })
}
