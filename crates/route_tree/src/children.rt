//! The children that a route asks in order, from one of them on.

ghost use Rattle.std.specs.Prelude.{◌≡◌, IfOk};
ghost use Rattle.route_tree.specs.Form.{route_of_form, routes_of};
ghost use Rattle.route_tree.specs.After.{child_routes, PartsAs};

use crate::tree::{Tree, TreeForm};
use std::alloc::AllocError;
use std::marker::Model;

/// The children that an AllSync, a Failover or a MissFailover asks in order, from one of them on. They are shared with
/// the tree, of which nothing is copied.
#[derive(Drop)]
pub struct Children {
    parent: Tree,
    from: usize,
}

impl Model for Children {
    ghost use Rattle.route_tree.specs.Route.{Routes};
    ghost use Rattle.route_tree.specs.RouteCode.{routes_code};

    ghost Value = { Routes };

    ghost coded = { routes_code };

    ghost use Rattle.route_tree.specs.After.{child_routes, routes_after};

    ghost view = { λ c. routes_after c.from (child_routes c.parent) };
}

impl Children {
    /// All children of the route that it asks in order; of a route of another form none. It takes no memory.
    pub fn of(parent: Tree) -> Children
        ensures { result ≡ child_routes parent }
    {
        Children { parent, from: 0 }
    }

    /// The first child and the others, if there is one. It takes no memory, and is refused only where the count of
    /// sharers is full.
    pub fn parted(self) -> Result<Option<(Tree, Children)>, AllocError>
        ensures { IfOk result (PartsAs self) }
    {
        let Children { parent, from } = self;
        let children = list_of(parent.form());
        if from >= children.len() {
            return Ok(None);
        }
        let child = children[from].copy()?;
        let rest = Children {
            parent,
            from: from + 1,
        };
        Ok(Some((child, rest)))
    }
}

// The children that are asked in order.
fn list_of(form: &TreeForm) -> &[Tree]
    ensures { routes_of result.now ≡ child_routes (route_of_form form.now) }
{
    match form {
        TreeForm::AllSync(children)
        | TreeForm::Failover(children)
        | TreeForm::MissFailover(children) => children,
        _ => &[],
    }
}
