//! The checker: a configuration is accepted where a certificate is valid for its tree.

ghost use Rattle.std.specs.Prelude.{[], ◌∷◌, ◌≡◌, IfErr, IfOk, MatchResult, OnOk};
ghost use Rattle.fresh_runs.specs.Freshness.{RunsAreFresh};
ghost use Rattle.route_tree.specs.Direct.{words_of};
ghost use Rattle.gate_check.specs.Valid.{EachClass, IsShaped, IsValid};
ghost use Rattle.gate_check.specs.Tables.{IsTable};
ghost use Rattle.gate_check.specs.Gate.{HasCertificate, IsReason};
ghost use Rattle.gate_check.specs.Shapes.{IsTableReason, IsLookReason};

use crate::accepted::{Accepted, accept};
use crate::classes::{TableEnd, check_classes};
use crate::finding::Found;
use crate::gap::{Gap, Reason, Refused};
use crate::laws::{certified_is_fresh, end_is_valid};
use crate::places::{Certificate, PlaceFault, PlaceTable, places};
use crate::shapes::misshaped;
use route_json::Config;
use route_tree::{Place, Tree};
use std::alloc::Global;

/// Accepts the configuration where the certificate is valid for its tree: at each place it names servers, once each and
/// rising, among them all that some read takes, and only such that both kinds of delete clear. Every run of the tree is
/// fresh then. Else the configuration is given back with the first reason in the order of `Reason`.
pub fn check(alloc: Global, config: Config, certificate: &Certificate) -> Result<Accepted, Refused>
    ensures accepted { IfOk result (λ accepted. (accepted ≡ config ∷ []) × HasCertificate config.tree certificate.now) }
    ensures fresh { OnOk result (RunsAreFresh (words_of config.tree)) }
    ensures refused { IfErr result (λ refused. (refused.config ≡ config) × IsReason config.tree certificate.now refused.reason) }
{
    certified_is_fresh();
    let _form = config.tree().form();
    match verdict(alloc, config.tree(), certificate) {
        Ok(()) => accept(alloc, config),
        Err(reason) => Err(Refused { config, reason }),
    }
}

// Whether the certificate is valid for the tree.
fn verdict(alloc: Global, tree: &Tree, certificate: &Certificate) -> Result<(), Reason>
    ensures { MatchResult result (λ _. HasCertificate tree.now certificate.now) (λ reason. IsReason tree.now certificate.now reason) }
{
    match places(alloc, tree) {
        Ok(table) => verdict_by(alloc, tree, &table, certificate),
        Err(PlaceFault::TooManyPlaces) => Err(Reason::TooManyPlaces),
        Err(PlaceFault::NoMemory) => Err(Reason::NoMemory),
    }
}

// Whether the certificate is valid for the tree, whose table of places this is.
fn verdict_by(
    alloc: Global,
    tree: &Tree,
    table: &PlaceTable,
    certificate: &Certificate,
) -> Result<(), Reason>
    requires { IsTable (tree.now ∷ []) table.now }
    ensures { MatchResult result (λ _. IsValid tree.now table.now certificate.now) (λ reason. IsTableReason tree.now table.now certificate.now reason) }
{
    let wanted = table.classes.len();
    let given = certificate.classes.len();
    if given != wanted {
        let fewer = if given < wanted { given } else { wanted };
        return Err(Reason::BadCertificate(fewer as u32 * table.modulus));
    }
    match misshaped(&table.classes, &certificate.classes) {
        Some(index) => Err(Reason::BadCertificate(index as u32 * table.modulus)),
        None => verdict_on_rows(alloc, tree, table, certificate),
    }
}

// Whether all rows of a certificate of the right shape are valid, or the first reason why not.
fn verdict_on_rows(
    alloc: Global,
    tree: &Tree,
    table: &PlaceTable,
    certificate: &Certificate,
) -> Result<(), Reason>
    requires table { IsTable (tree.now ∷ []) table.now }
    requires shaped { EachClass IsShaped table.now.classes.items certificate.now.classes.items }
    ensures { MatchResult result (λ _. IsValid tree.now table.now certificate.now) (λ reason. IsLookReason tree.now table.now certificate.now reason) }
{
    end_is_valid();
    let end = check_classes(
        alloc,
        tree,
        table.modulus,
        &table.classes,
        &certificate.classes,
    );
    match end {
        Err(_) => Err(Reason::NoMemory),
        Ok(TableEnd::Valid) => Ok(()),
        Ok(TableEnd::Gap(index, residue, found)) => {
            let place = Place {
                prefix: table.classes[index].prefix,
                residue,
                modulus: table.modulus,
            };
            Err(Reason::Uncovered(gap_of(place, found)))
        }
        Ok(TableEnd::Bad(index, residue)) => Err(Reason::BadCertificate(
            index as u32 * table.modulus + residue,
        )),
    }
}

/// The gap found at the place.
pub fn gap_of(place: Place, found: Found) -> Gap
    ensures { result ≡ record { place = place; server = found.server; op = found.op; deleting = found.deleting } }
{
    Gap {
        place,
        server: found.server,
        op: found.op,
        deleting: found.deleting,
    }
}
