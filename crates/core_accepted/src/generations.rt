//! The configurations that the gate accepted one after another, and the ledger that knows them.

ghost use Rattle.std.specs.Prelude.{◌≡◌, ℕ, suc, Bool, List, [], ◌∷◌, ◌++◌, ◌↔◌, ◌<◌, Option, Some, None, length, max, vec_len, vec_capacity, IsTrue, MatchResult, IfOk, IfErr, OnOk, OnErr};
ghost use Rattle.route_tree.specs.Each.{Each};
ghost use Rattle.route_tree.specs.Route.{Route, IsTree};
ghost use Rattle.gate_check.specs.Sound.{IsLast, trees_of};
ghost use Rattle.gate_check.specs.Reload.{KeepsNumbers};
ghost use Rattle.gate_growth.specs.Grown.{AreSoundSince};
ghost use Rattle.gate_growth.specs.Pages.{AreOpened};
ghost use Rattle.gate_growth.specs.Ledgers.{count_of_known, IsLedgerOf, IsUnsoundFor};
ghost use Rattle.gate_growth.specs.declared.ledger.unsound.Unsound.TheVariants.{NoMemory};
ghost use Rattle.route_json.specs.Configuration.{Configuration};
ghost use Rattle.core_accepted.specs.Known.{Known, IsBookOf, is_arbitrary, first_of, more};

use crate::beginnings::Beginnings;
use gate_check::Accepted;
use gate_check::numbers::are_kept;
use gate_growth::ledger::{Beginning, Ledger, Unsound};
use route_json::Config;
use std::alloc::{AllocError, Global};
use std::marker::Model;

/// Configurations that were accepted one after another, the last one in use: generations, counted from 1. A ledger knows
/// what they may have left on which server, so that one more is judged in one pass, however many there are.
#[derive(Drop)]
pub struct Generations {
    configs: Vec<Config>,
    // `None` until one follows the first: then the ledger of the first is made, for which a start needn't wait.
    ledger: Option<Ledger>,
    // How many servers the first of them has.
    founders: usize,
    begun: Beginnings,
}

impl Model for Generations {
    ghost use Rattle.core_accepted.specs.Known.{Known, known_code, IsBookOf};

    ghost Value = { Known };

    ghost coded = { known_code };

    ghost view = { λ g. record { configs = g.configs.items; founders = g.founders; begun = g.begun } };

    ghost invariant = { λ g. IsBookOf (record { configs = g.configs.items; founders = g.founders; begun = g.begun }) g.ledger };
}

// Drops the configuration.
fn drop_config(_config: Config) {}

// Adds the configuration where there is room for it.
fn push_config(configs: &mut Vec<Config>, config: Config)
    requires { vec_len configs.old < vec_capacity configs.old }
    ensures { configs.new.items ≡ configs.old.items ++ config ∷ [] }
{
    if configs.push(config).is_err() {
        unreachable!()
    }
}

// The configuration is the ledger's next generation, and the last of the list, where it may be. Its new servers began so.
fn take_next(
    alloc: Global,
    ledger: &mut Ledger,
    configs: &mut Vec<Config>,
    config: Config,
    added: Beginning,
) -> Result<u32, Unsound>
    ensures taken { OnOk result (configs.new.items ≡ configs.old.items ++ config ∷ []) }
    ensures followed { (arbitrary : ℕ → Bool) (trees : List Route) → IsLedgerOf arbitrary trees ledger.old → AreOpened arbitrary (count_of_known ledger.old) (length config.servers) added → MatchResult result (λ n. (n ≡ suc (length trees)) × IsLedgerOf arbitrary (trees ++ config.tree ∷ []) ledger.new) (IsUnsoundFor arbitrary trees config.tree) }
    ensures servers { OnOk result (count_of_known ledger.new ≡ max (count_of_known ledger.old) (length config.servers)) }
    ensures same { OnErr result ((ledger.new ≡ ledger.old) × (configs.new.items ≡ configs.old.items)) }
{
    if configs.reserve(1).is_err() {
        drop_config(config);
        return Err(Unsound::NoMemory);
    }
    match ledger.follow(alloc, &config, added) {
        Ok(number) => {
            push_config(configs, config);
            Ok(number)
        }
        Err(unsound) => {
            drop_config(config);
            Err(unsound)
        }
    }
}

// The ledger, or where there is none that of the first configuration, the only one, whose servers began so. The only error:
// memory was refused, since the gate accepted that one's tree.
fn opened_ledger(
    alloc: Global,
    ledger: Option<Ledger>,
    configs: &[Config],
    opened: Beginning,
) -> Result<Ledger, Unsound>
    requires { 0 < length configs.now }
    ensures opened { (known : Known) → known.configs ≡ configs.now → known.begun.opened ≡ opened → IsBookOf known ledger → IfOk result (λ book. IsBookOf known (Some book)) }
    ensures none { IfErr result (λ unsound. (unsound ≡ NoMemory) × (ledger ≡ None)) }
{
    match ledger {
        Some(ledger) => Ok(ledger),
        None => match Ledger::first(alloc, &configs[0], opened) {
            Ok(ledger) => Ok(ledger),
            Err(_) => Err(Unsound::NoMemory),
        },
    }
}

// The configuration is the next generation, and the last of the list, where it may be. Where there is no ledger yet, that of
// the first one is made before.
fn take_later(
    alloc: Global,
    ledger: &mut Option<Ledger>,
    configs: &mut Vec<Config>,
    config: Config,
    begun: Beginnings,
) -> Result<u32, Unsound>
    requires { 0 < length configs.old.items }
    ensures taken { OnOk result (configs.new.items ≡ configs.old.items ++ config ∷ []) }
    ensures same { OnErr result (configs.new.items ≡ configs.old.items) }
    ensures followed { (known : Known) → known.configs ≡ configs.old.items → known.begun ≡ begun → IsBookOf known ledger.old → MatchResult result (λ n. n ≡ suc (length (trees_of known.configs))) (IsUnsoundFor (is_arbitrary known) (trees_of known.configs) config.tree) }
    ensures book { (known : Known) → known.configs ≡ configs.old.items → known.begun ≡ begun → IsBookOf known ledger.old → IsBookOf (record known { configs = configs.new.items }) ledger.new }
{
    let held = ledger.take();
    match opened_ledger(alloc, held, configs, begun.opened) {
        Err(unsound) => {
            drop_config(config);
            Err(unsound)
        }
        Ok(book) => {
            let mut book = book;
            let result = take_next(alloc, &mut book, configs, config, begun.added);
            *ledger = Some(book);
            result
        }
    }
}

impl Generations {
    /// The accepted configuration in use as the first generation; its servers, and those that later ones bring, began so. The
    /// only error: memory was refused.
    pub fn first(
        alloc: Global,
        accepted: &Accepted,
        begun: Beginnings,
    ) -> Result<Generations, AllocError>
        ensures { IfOk result (λ generations. (config : Configuration) × IsLast accepted.now config × (generations ≡ first_of config begun)) }
    {
        let config = accepted.config();
        let mut configs = Vec::new(alloc);
        configs.push(config.copy(alloc)?)?;
        Ok(Generations {
            configs,
            ledger: None,
            founders: config.servers().len(),
            begun,
        })
    }

    /// The configuration in use. It takes no memory.
    pub fn config(&self) -> &Config
        ensures config { IsLast self.now.configs result.now }
        ensures trees { Each IsTree (trees_of self.now.configs) }
        ensures sound { AreSoundSince (is_arbitrary self.now) (trees_of self.now.configs) }
    {
        &self.configs[self.configs.len() - 1]
    }

    /// Whether the configuration's list of servers begins with that of the configuration in use. It takes no memory.
    pub fn keeps_numbers(&self, config: &Config) -> bool
        ensures { IsTrue result ↔ KeepsNumbers self.now.configs config.now }
    {
        are_kept(self.config().servers(), config.servers())
    }

    /// Makes the configuration the next generation, and answers its number, where its tree may follow those so far: at each
    /// place it clears what it takes, and none of them may have left that. After an error all is as it was.
    pub fn follow(&mut self, alloc: Global, config: Config) -> Result<u32, Unsound>
        ensures followed { IfOk result (λ number. (self.new ≡ more config self.old) × (number ≡ length self.new.configs)) }
        ensures sound { OnOk result (AreSoundSince (is_arbitrary self.new) (trees_of self.new.configs)) }
        ensures refused { IfErr result (λ unsound. (self.new ≡ self.old) × IsUnsoundFor (is_arbitrary self.old) (trees_of self.old.configs) config.tree unsound) }
    {
        let begun = self.begun;
        take_later(alloc, &mut self.ledger, &mut self.configs, config, begun)
    }
}
