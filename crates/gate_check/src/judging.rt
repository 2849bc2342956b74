//! Configurations judged without a certificate: by looks at all places, of which none is written down.

ghost use Rattle.std.specs.Prelude.{[], ◌∷◌, ◌≡◌, IfErr, IfOk, MatchResult, OnOk};
ghost use Rattle.fresh_runs.specs.Freshness.{RunsAreFresh};
ghost use Rattle.route_tree.specs.Direct.{words_of};
ghost use Rattle.gate_check.specs.Tables.{IsPlaceFault, IsTable};
ghost use Rattle.gate_check.specs.Gate.{IsCertified, IsCertifiedBy, IsJudged};
ghost use Rattle.gate_check.specs.Shapes.{IsJudgedBy};

use crate::accepted::{Accepted, accept};
use crate::gap::{Reason, Refused};
use crate::gate::gap_of;
use crate::laws::certified_is_fresh;
use crate::pairs::{TwoEnd, pair_classes};
use crate::places::{PlaceFault, PlaceTable, places};
use route_json::Config;
use route_tree::{Place, Tree};
use std::alloc::Global;

/// Looks at all places of the configuration's tree, and takes no memory for them. Of a tree that it accepts all runs are fresh.
///
/// Memory aside, it accepts exactly the trees of at most 262,144 places for which some certificate is valid, and never
/// answers `BadCertificate`. Else the configuration is given back with the reason.
pub fn judge(alloc: Global, config: Config) -> Result<Accepted, Refused>
    ensures accepted { IfOk result (λ accepted. (accepted ≡ config ∷ []) × IsCertified config.tree) }
    ensures fresh { OnOk result (RunsAreFresh (words_of config.tree)) }
    ensures refused { IfErr result (λ refused. (refused.config ≡ config) × IsJudged config.tree refused.reason) }
{
    match places(alloc, config.tree()) {
        Ok(table) => judge_by(alloc, config, &table),
        Err(fault) => {
            let reason = untabled(config.tree(), fault);
            Err(Refused { config, reason })
        }
    }
}

/// Does what [`judge`] does, by the table that [`places`] makes of the configuration's tree.
pub fn judge_by(alloc: Global, config: Config, table: &PlaceTable) -> Result<Accepted, Refused>
    requires { IsTable (config.tree ∷ []) table.now }
    ensures accepted { IfOk result (λ accepted. (accepted ≡ config ∷ []) × IsCertified config.tree) }
    ensures fresh { OnOk result (RunsAreFresh (words_of config.tree)) }
    ensures refused { IfErr result (λ refused. (refused.config ≡ config) × IsJudged config.tree refused.reason) }
{
    certified_is_fresh();
    let _form = config.tree().form();
    match judgement(alloc, config.tree(), table) {
        Ok(()) => accept(alloc, config),
        Err(reason) => Err(Refused { config, reason }),
    }
}

/// Why [`judge`] refuses a tree that has no table of places, by what [`places`] answers of it.
pub fn untabled(tree: &Tree, fault: PlaceFault) -> Reason
    requires { IsPlaceFault (tree.now ∷ []) fault }
    ensures { IsJudged tree.now result }
{
    let _tree = tree;
    match fault {
        PlaceFault::TooManyPlaces => Reason::TooManyPlaces,
        PlaceFault::NoMemory => Reason::NoMemory,
    }
}

// Whether some certificate is valid for the tree, whose table of places this is.
fn judgement(alloc: Global, tree: &Tree, table: &PlaceTable) -> Result<(), Reason>
    requires { IsTable (tree.now ∷ []) table.now }
    ensures { MatchResult result (λ _. IsCertified tree.now) (λ reason. IsJudged tree.now reason) }
{
    judgement_by(alloc, tree, table)
}

// Whether some certificate is valid for the tree, by its table: where each place is covered, the servers that are taken make one, which
// isn't written down.
fn judgement_by(alloc: Global, tree: &Tree, table: &PlaceTable) -> Result<(), Reason>
    requires { IsTable (tree.now ∷ []) table.now }
    ensures { MatchResult result (λ _. IsCertifiedBy tree.now table.now) (λ reason. IsJudgedBy tree.now table.now reason) }
{
    let _form = tree.form();
    match pair_classes(alloc, tree, tree, &table.classes, table.modulus) {
        Err(_) => Err(Reason::NoMemory),
        Ok(TwoEnd::Covered) => Ok(()),
        Ok(TwoEnd::Gap(index, residue, found)) => {
            let place = Place {
                prefix: table.classes[index].prefix,
                residue,
                modulus: table.modulus,
            };
            Err(Reason::Uncovered(gap_of(place, found)))
        }
    }
}
