//! Trees of routes.
ghost use Rattle.std.specs.Prelude.{◌≡◌, IfOk};
ghost use Rattle.route_tree.specs.Route.{Route, IsTree};
ghost use Rattle.route_tree.specs.Form.{route_of_form};

use mc_types::{Key, Op, ServerId};
use std::alloc::{AllocError, Global};
use std::marker::Model;
use std::rc::Rc;

/// A tree of routes. It is shared: a copy of it or of a child takes no memory, and the parts live as long as any copy.
///
/// No list of children and no pool is empty, a pool has at most [`crate::SLOT_LIMIT`] slots, it has at most [`crate::DEPTH_LIMIT`] levels, and
/// at most [`crate::ROUTE_LIMIT`] routes, each counted three times for every `cold` that it stands in.
#[cycle(tree)]
#[derive(Drop)]
pub struct Tree {
    form: Rc<TreeForm>,
}

/// The form of a tree.
///
/// Source: mcgate's own, under mcrouter's names of routes.
#[cycle(tree)]
#[derive(Drop)]
pub enum TreeForm {
    /// The slots of a pool, each with its server: a key asks the server at its slot.
    Pool(Vec<ServerId>),
    /// This server, whatever the key.
    Server(ServerId),
    Null,
    Error,
    AllSync(Vec<Tree>),
    Failover(Vec<Tree>),
    MissFailover(Vec<Tree>),
    WarmUp {
        cold: Box<Tree>,
        warm: Box<Tree>,
        exptime: u32,
    },
    /// The first policy of the operation, else the default.
    ByOperation {
        policies: Vec<(Op, Tree)>,
        default: Box<Tree>,
    },
    /// The longest policy that begins the key, else the wildcard.
    ByPrefix {
        policies: Vec<(Key, Tree)>,
        wildcard: Box<Tree>,
    },
}

impl Model for Tree {
    ghost use Rattle.route_tree.specs.Route.{Route, IsTree};
    ghost use Rattle.route_tree.specs.RouteCode.{route_code, route_size};

    ghost Value = { Route };

    ghost coded = { route_code };

    ghost use Rattle.route_tree.specs.Form.{route_of_form};

    ghost view = { λ a. route_of_form a.form.value };

    ghost invariant = { λ a. IsTree (route_of_form a.form.value) };

    ghost size = { route_size };

    ghost use Rattle.route_tree.specs.RouteFalls.{route_falls};

    ghost size_decreases = { route_falls };
}

impl Tree {
    /// The tree of this form. The only error: memory was refused.
    pub fn new(alloc: Global, form: TreeForm) -> Result<Tree, AllocError>
        requires { IsTree (route_of_form form) }
        ensures { IfOk result (λ tree. tree ≡ route_of_form form) }
    {
        let form = Rc::new(alloc, form)?;
        Ok(Tree { form })
    }

    /// The form.
    pub fn form(&self) -> &TreeForm
        ensures form { route_of_form result.now ≡ self.now }
        ensures tree { IsTree self.now }
    {
        self.form.as_ref()
    }

    /// This tree once more, shared: it takes no memory, and is refused only where the count of sharers is full.
    pub fn copy(&self) -> Result<Tree, AllocError>
        ensures { IfOk result (λ tree. tree ≡ self.now) }
    {
        let form = self.form.clone()?;
        Ok(Tree { form })
    }
}
