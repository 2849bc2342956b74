//! The generations so far, and what they may have left.

ghost use Rattle.std.specs.Prelude.{◌≡◌, ◌<◌, ◌≤◌, ◌+◌, ℕ, Bool, List, [], ◌∷◌, ◌++◌, length, max, vec_len, vec_capacity, IfOk, IfErr, OnOk, OnErr, MatchOption, MatchResult};
ghost use Rattle.route_tree.specs.Route.{Route};
ghost use Rattle.gate_growth.specs.Pages.{AreOpened};
ghost use Rattle.gate_growth.specs.Ledgers.{count_of_known, IsLedgerOf, IsUnsoundFor};
ghost use Rattle.gate_history.specs.Histories.{servers_after};
ghost use Rattle.gate_history.specs.Judged.{AreSoundBy, Judges, IsUnsoundAfter, most_lines};

use crate::generation::Generation;
use gate_growth::ledger::{Beginning, Ledger, Unsound};
use route_json::{Config, Servers};
use std::alloc::{AllocError, Global};
use std::marker::Model;

/// The generations so far, the oldest first, each of which might follow those before it, and what they may have left.
#[derive(Drop)]
pub struct History {
    generations: Vec<Generation>,
    ledger: Ledger,
}

impl Model for History {
    ghost use Rattle.std.specs.Prelude.{List};
    ghost use Rattle.gate_history.specs.declared.generation.Generation.{Generation};
    ghost use Rattle.gate_history.specs.Generations.{generations_code};
    ghost use Rattle.gate_history.specs.Histories.{Knows};

    ghost Value = { List Generation };

    ghost coded = { generations_code };

    ghost view = { λ h. h.generations.items };

    ghost invariant = { λ h. Knows h.generations.items h.ledger };
}

impl History {
    /// That of no generation. The only error is that memory was refused.
    pub fn new(alloc: Global) -> Result<History, AllocError>
        ensures { IfOk result (λ history. history ≡ []) }
    {
        let generations = Vec::new(alloc);
        let ledger = Ledger::new(alloc)?;
        Ok(History {
            generations,
            ledger,
        })
    }

    /// The generations, the oldest first. Their trees are sound, if servers began as they say. It takes no memory.
    pub fn generations(&self) -> &[Generation]
        ensures generations { result.now ≡ self.now }
        ensures sound { AreSoundBy self.now }
    {
        &self.generations
    }

    /// The number of the next generation, counted from 1, where it has one.
    pub fn next_number(&self) -> Option<u32>
        ensures { MatchOption result (most_lines ≤ length self.now) (λ n. n ≡ length self.now + 1) }
    {
        let count = self.generations.len();
        if count < u32::MAX as usize {
            Some(count as u32 + 1)
        } else {
            None
        }
    }

    /// The servers so far, after which those of the next configuration are numbered. The only error is that memory was refused.
    pub fn servers(&self, alloc: Global) -> Result<Servers, AllocError>
        ensures { IfOk result (λ servers. servers ≡ servers_after [] self.now) }
    {
        match self.generations.last() {
            None => Ok(Servers::new(alloc)),
            Some(last) => last.config.servers().copy(alloc),
        }
    }

    /// Whether the configuration may be the next generation: the trees so far followed by its own are sound. Its new servers
    /// began so.
    pub fn judge(&self, alloc: Global, config: &Config, new: Beginning) -> Result<(), Unsound>
        ensures { Judges self.now config.now new result }
    {
        self.ledger.judge(alloc, config, new)
    }

    /// Makes the configuration the next generation, where it may be. Its new servers began so. After an error all is as it was.
    pub fn follow(&mut self, alloc: Global, config: Config, new: Beginning) -> Result<(), Unsound>
        ensures followed { OnOk result (self.new ≡ self.old ++ record { config = config; began = new } ∷ []) }
        ensures refused { IfErr result (λ unsound. (self.new ≡ self.old) × IsUnsoundAfter self.old config new unsound) }
    {
        take_next(alloc, &mut self.ledger, &mut self.generations, config, new)
    }

    /// The history with the configuration as the next generation, where it may be. Its new servers began so.
    pub fn with(self, alloc: Global, config: Config, new: Beginning) -> Result<History, Unsound>
        ensures with { IfOk result (λ history. history ≡ self ++ record { config = config; began = new } ∷ []) }
        ensures refused { IfErr result (λ unsound. IsUnsoundAfter self config new unsound) }
    {
        let mut history = self;
        match history.follow(alloc, config, new) {
            Ok(()) => Ok(history),
            Err(unsound) => {
                drop_history(history);
                Err(unsound)
            }
        }
    }
}

// Drops the history.
fn drop_history(_history: History) {}

// Drops the configuration.
fn drop_config(_config: Config) {}

// Adds the generation where there is room for it.
fn push_generation(generations: &mut Vec<Generation>, generation: Generation)
    requires { vec_len generations.old < vec_capacity generations.old }
    ensures { generations.new.items ≡ generations.old.items ++ generation ∷ [] }
{
    if generations.push(generation).is_err() {
        unreachable!()
    }
}

// The configuration is the ledger's next generation, and the last of the list, where it may be. Its new servers began so.
fn take_next(
    alloc: Global,
    ledger: &mut Ledger,
    generations: &mut Vec<Generation>,
    config: Config,
    new: Beginning,
) -> Result<(), Unsound>
    ensures taken { OnOk result (generations.new.items ≡ generations.old.items ++ record { config = config; began = new } ∷ []) }
    ensures followed { (arbitrary : ℕ → Bool) (trees : List Route) → IsLedgerOf arbitrary trees ledger.old → AreOpened arbitrary (count_of_known ledger.old) (length config.servers) new → MatchResult result (λ _. IsLedgerOf arbitrary (trees ++ config.tree ∷ []) ledger.new) (IsUnsoundFor arbitrary trees config.tree) }
    ensures servers { OnOk result (count_of_known ledger.new ≡ max (count_of_known ledger.old) (length config.servers)) }
    ensures same { OnErr result ((ledger.new ≡ ledger.old) × (generations.new.items ≡ generations.old.items)) }
{
    if generations.reserve(1).is_err() {
        drop_config(config);
        return Err(Unsound::NoMemory);
    }
    match ledger.follow(alloc, &config, new) {
        Ok(_number) => {
            push_generation(generations, Generation { config, began: new });
            Ok(())
        }
        Err(unsound) => {
            drop_config(config);
            Err(unsound)
        }
    }
}
