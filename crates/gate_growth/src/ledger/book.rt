//! The ledger of the generations so far: of each place of their trees a page.

ghost use Rattle.std.specs.Prelude.{◌<◌, ◌≤◌, ◌^◌, length};
ghost use Rattle.gate_check.specs.Tables.{most_rows};

use crate::ledger::begun::all_begun;
use crate::ledger::class::ClassPages;
use crate::ledger::page::{Beginning, Page};
use crate::ledger::refining::finer_rows;
use crate::ledger::turning::{Successor, TurnedAll, turned_classes};
use crate::ledger::unsound::Unsound;
use route_json::Config;
use std::alloc::{AllocError, Global};

/// What the generations so far may have left, at each place of their trees together: on which servers, and since which of
/// them. It holds no tree.
///
/// Servers are numbered by the configurations, each of which begins with the servers of the one before it.
#[derive(Drop)]
pub struct Ledger {
    // How many generations there were.
    count: u32,
    // How each of their servers began, in the order of their numbers.
    begun: Vec<Beginning>,
    // The least common multiple of the sizes of their pools.
    modulus: u32,
    // The class of no prefix, and those of their prefixes, in byte order.
    classes: Vec<ClassPages>,
    ghost few: { length begun.items < 2 ^ 32 },
    ghost counted: { 0 < modulus },
    ghost within: { modulus ≤ most_rows },
    ghost some: { 0 < length classes.items },
}

impl Ledger {
    ghost use Rattle.std.specs.Prelude.{◌≡◌, ℕ, suc, Bool, List, [], ◌∷◌, ◌++◌, IfOk, MatchResult, OnErr, OnOk, max};
    ghost use Rattle.route_tree.specs.Route.{Route};
    ghost use Rattle.gate_growth.specs.Grown.{AreSoundSince};
    ghost use Rattle.gate_growth.specs.Pages.{AreOpened};
    ghost use Rattle.gate_growth.specs.Ledgers.{count_of_known, IsLedgerOf, IsUnsoundFor};

    /// That of no generation. The only error is that memory was refused.
    pub fn new(alloc: Global) -> Result<Ledger, AllocError>
        ensures ledger { IfOk result (λ ledger. (arbitrary : ℕ → Bool) → IsLedgerOf arbitrary [] ledger) }
        ensures servers { IfOk result (λ ledger. count_of_known ledger ≡ 0) }
    {
        let mut pages = Vec::new(alloc);
        pages.push(Page {
            cells: Vec::new(alloc),
            others: None,
        })?;
        let mut classes = Vec::new(alloc);
        classes.push(ClassPages {
            prefix: None,
            pages,
        })?;
        Ok(Ledger {
            count: 0,
            begun: Vec::new(alloc),
            modulus: 1,
            classes,
        })
    }

    /// That of the configuration as the first generation, where its tree is sound. Its servers began so.
    pub fn first(alloc: Global, config: &Config, opened: Beginning) -> Result<Ledger, Unsound>
        ensures servers { IfOk result (λ ledger. count_of_known ledger ≡ length config.now.servers) }
        ensures first { (arbitrary : ℕ → Bool) → AreOpened arbitrary 0 (length config.now.servers) opened → MatchResult result (IsLedgerOf arbitrary (config.now.tree ∷ [])) (IsUnsoundFor arbitrary [] config.now.tree) }
    {
        let ledger = Ledger::new(alloc)?;
        ledger.next(alloc, config, opened)
    }

    /// Whether the configuration may be the next generation: the trees so far followed by its own are sound. Its new servers
    /// began so.
    pub fn judge(&self, alloc: Global, config: &Config, new: Beginning) -> Result<(), Unsound>
        ensures { (arbitrary : ℕ → Bool) (trees : List Route) → IsLedgerOf arbitrary trees self.now → AreOpened arbitrary (count_of_known self.now) (length config.now.servers) new → MatchResult result (λ _. AreSoundSince arbitrary (trees ++ config.now.tree ∷ [])) (IsUnsoundFor arbitrary trees config.now.tree) }
    {
        let _next = self.next(alloc, config, new)?;
        Ok(())
    }

    /// Makes the configuration the next generation, where it may be, and answers its number, counted from 1. Its new servers
    /// began so. After an error the ledger is as it was.
    pub fn follow(&mut self, alloc: Global, config: &Config, new: Beginning) -> Result<u32, Unsound>
        ensures followed { (arbitrary : ℕ → Bool) (trees : List Route) → IsLedgerOf arbitrary trees self.old → AreOpened arbitrary (count_of_known self.old) (length config.now.servers) new → MatchResult result (λ n. (n ≡ suc (length trees)) × IsLedgerOf arbitrary (trees ++ config.now.tree ∷ []) self.new) (IsUnsoundFor arbitrary trees config.now.tree) }
        ensures servers { OnOk result (count_of_known self.new ≡ max (count_of_known self.old) (length config.now.servers)) }
        ensures refused { OnErr result (self.new ≡ self.old) }
    {
        let next = self.next(alloc, config, new)?;
        *self = next;
        Ok(self.count)
    }

    // The ledger with the configuration as the next generation, where it may be.
    fn next(&self, alloc: Global, config: &Config, new: Beginning) -> Result<Ledger, Unsound>
        ensures servers { IfOk result (λ ledger. count_of_known ledger ≡ max (count_of_known self.now) (length config.now.servers)) }
        ensures next { (arbitrary : ℕ → Bool) (trees : List Route) → IsLedgerOf arbitrary trees self.now → AreOpened arbitrary (count_of_known self.now) (length config.now.servers) new → MatchResult result (IsLedgerOf arbitrary (trees ++ config.now.tree ∷ [])) (IsUnsoundFor arbitrary trees config.now.tree) }
    {
        if self.count == u32::MAX {
            return Err(Unsound::TooManyGenerations);
        }
        let tree = config.tree();
        let _form = tree.form();
        let finer = match finer_rows(alloc, &self.classes, self.modulus, tree)? {
            None => return Err(Unsound::TooManyPlaces),
            Some(finer) => finer,
        };
        let begun = all_begun(alloc, &self.begun, config.servers().len(), new)?;
        let step = Successor {
            tree,
            number: self.count,
            begun: &begun,
            modulus: finer.modulus,
        };
        let TurnedAll { classes, gap } = turned_classes(alloc, &self.classes, &finer.texts, &step)?;
        match gap {
            Some(left) => Err(Unsound::Left(left.generation.saturating_add(1), left.gap)),
            None => Ok(Ledger {
                count: self.count + 1,
                begun,
                modulus: finer.modulus,
                classes,
            }),
        }
    }
}
