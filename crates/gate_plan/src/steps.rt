//! Configurations that follow one another, each judged.

ghost use Rattle.std.specs.Prelude.{◌≡◌, ℕ, List, [], ◌∷◌, ◌++◌, MatchResult};
ghost use Rattle.serde_json.specs.Read.{read};
ghost use Rattle.route_json.specs.Configs.{read_after};
ghost use Rattle.route_json.specs.Fault.{Fails, fault_of};
ghost use Rattle.gate_growth.specs.declared.ledger.page.Beginning.{Beginning};
ghost use Rattle.gate_history.specs.declared.generation.Generation.{Generation};
ghost use Rattle.gate_history.specs.Histories.{servers_after};
ghost use Rattle.gate_history.specs.Judged.{IsSoundAfter, IsUnsoundAfter};
ghost use Rattle.gate_plan.specs.Steps.{IsRefusal, MaySucceed, FollowsText, IsNoStep};

use gate_growth::ledger::{Beginning, Unsound};
use gate_history::History;
use route_json::{Config, ConfigFault, read_config_after};
use std::alloc::{AllocError, Global};

/// Why a text is no next step.
#[derive(Drop)]
pub enum StepFault {
    /// It is no configuration, for this reason, which isn't `NoMemory`.
    Config(ConfigFault),
    /// It may not follow those so far, for this reason, which isn't `NoMemory`. Its servers are numbered after theirs.
    Refused(Config, Unsound),
    /// Memory was refused.
    NoMemory,
}

impl From<AllocError> for StepFault {
    ghost use Rattle.std.specs.Prelude.{◌≡◌};
    ghost use Rattle.gate_plan.specs.declared.steps.StepFault.TheVariants.{NoMemory};

    ghost from_gives = { λ _ e. e ≡ NoMemory };

    fn from(_error: AllocError) -> StepFault {
        StepFault::NoMemory
    }
}

// Whether the configuration may follow, and then the history with it.
fn followed(
    alloc: Global,
    history: History,
    config: Config,
    began: Beginning,
) -> Result<History, StepFault>
    ensures { MatchResult result (λ new. (new ≡ history ++ record { config = config; began = began } ∷ []) × IsSoundAfter history config began) (IsRefusal history config began) }
{
    match history.judge(alloc, &config, began) {
        Err(unsound) => {
            drop_history(history);
            Err(refused(config, unsound))
        }
        Ok(()) => match history.with(alloc, config, began) {
            Ok(new) => Ok(new),
            Err(_) => Err(StepFault::NoMemory),
        },
    }
}

// Drops the history.
fn drop_history(_history: History) {}

// The fault of a refusal.
fn refused(config: Config, unsound: Unsound) -> StepFault
    ensures { (gs : List Generation) (began : Beginning) → IsUnsoundAfter gs config began unsound → IsRefusal gs config began result }
{
    match unsound {
        Unsound::NoMemory => {
            drop_config(config);
            StepFault::NoMemory
        }
        _ => StepFault::Refused(config, unsound),
    }
}

// Drops the configuration.
fn drop_config(_config: Config) {}

// The fault of a text that is no configuration.
fn no_config(fault: ConfigFault) -> StepFault
    ensures { (gs : List Generation) (text : List ℕ) (began : Beginning) → Fails (fault_of fault) (read_after (servers_after [] gs) (read text)) → IsNoStep gs text began result }
{
    match fault {
        ConfigFault::NoMemory => StepFault::NoMemory,
        _ => StepFault::Config(fault),
    }
}

/// The history with the configuration that the text says as the next generation, where it may follow. Its new servers began so.
pub fn step(
    alloc: Global,
    history: History,
    text: &str,
    began: Beginning,
) -> Result<History, StepFault>
    ensures { MatchResult result (FollowsText history text.now began) (IsNoStep history text.now began) }
{
    let servers = history.servers(alloc)?;
    match read_config_after(alloc, servers, text) {
        Ok(config) => followed(alloc, history, config, began),
        Err(fault) => {
            drop_history(history);
            Err(no_config(fault))
        }
    }
}

/// Whether the configuration that the text says may follow. Its new servers began so.
pub fn judge_text(
    alloc: Global,
    history: &History,
    text: &str,
    began: Beginning,
) -> Result<(), StepFault>
    ensures { MatchResult result (λ _. MaySucceed history.now text.now began) (IsNoStep history.now text.now began) }
{
    let servers = history.servers(alloc)?;
    match read_config_after(alloc, servers, text) {
        Ok(config) => match history.judge(alloc, &config, began) {
            Ok(()) => Ok(()),
            Err(unsound) => Err(refused(config, unsound)),
        },
        Err(fault) => Err(no_config(fault)),
    }
}
