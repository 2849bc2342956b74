//! The names of routes by their kinds.

ghost use Rattle.std.specs.Prelude.{◌≡◌};
ghost use Rattle.gate_gaps.specs.Kinds.{kind_name};

use route_tree::{Tree, TreeForm};

/// The name of a tree's root by its kind: the one that its `type` has in a configuration. A server that stands alone is `Server`.
#[tactic(auto, unfolding(crate::specs::Kinds::kind_name))]
pub fn kind_name(tree: &Tree) -> &'static str
    ensures { result.now ≡ kind_name tree.now }
{
    match tree.form() {
        TreeForm::Pool(_) => "PoolRoute",
        TreeForm::Server(_) => "Server",
        TreeForm::Null => "NullRoute",
        TreeForm::Error => "ErrorRoute",
        TreeForm::AllSync(_) => "AllSyncRoute",
        TreeForm::Failover(_) => "FailoverRoute",
        TreeForm::MissFailover(_) => "MissFailoverRoute",
        TreeForm::WarmUp { .. } => "WarmUpRoute",
        TreeForm::ByOperation { .. } => "OperationSelectorRoute",
        TreeForm::ByPrefix { .. } => "PrefixSelectorRoute",
    }
}
