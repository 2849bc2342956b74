//! Plain trees: what is left of a tree for one key.

ghost use Rattle.std.specs.Prelude.{◌≡◌};
ghost use Rattle.route_tree.specs.Plan.{Plan, IsPlan};
ghost use Rattle.route_tree.specs.Form.{plan_of_form};

use mc_types::{Op, ServerId};
use std::marker::Model;

/// What is left of a tree for one key: no choice by key is left in it.
///
/// No list of children is empty, it has at most [`crate::DEPTH_LIMIT`] levels, and at most [`crate::ROUTE_LIMIT`] routes, each counted
/// three times for every `cold` that it stands in.
#[cycle(plain)]
#[derive(Drop)]
pub struct Plain {
    form: PlainForm,
}

/// The form of a plain tree, and what it does with an ask of one key.
///
/// Source: mcgate's own, under mcrouter's names of routes.
#[cycle(plain)]
#[derive(Drop)]
pub enum PlainForm {
    /// One call of this server.
    Server(ServerId),
    /// No call; the reply of a server that holds nothing and keeps nothing.
    Null,
    /// No call; an error as the reply.
    Error,
    /// All children in order; the first reply of the greatest rank.
    AllSync(Vec<Plain>),
    /// The children in order up to the first reply that isn't an error of a server or a call.
    Failover(Vec<Plain>),
    /// A get: the children in order up to the first hit. Other operations: the first child alone.
    MissFailover(Vec<Plain>),
    /// A get that `cold` misses is asked of `warm`, and what `warm` has is added to `cold`, with this exptime. Other
    /// operations: `cold` alone.
    WarmUp {
        cold: Box<Plain>,
        warm: Box<Plain>,
        exptime: u32,
    },
    /// The first policy of the operation, else the default.
    ByOperation {
        policies: Vec<(Op, Plain)>,
        default: Box<Plain>,
    },
}

impl Model for Plain {
    ghost use Rattle.route_tree.specs.Plan.{Plan, IsPlan};
    ghost use Rattle.route_tree.specs.PlanCode.{plan_code, plan_size};

    ghost Value = { Plan };

    ghost coded = { plan_code };

    ghost use Rattle.route_tree.specs.Form.{plan_of_form};

    ghost view = { λ a. plan_of_form a.form };

    ghost invariant = { λ a. IsPlan (plan_of_form a.form) };

    ghost size = { plan_size };

    ghost use Rattle.route_tree.specs.PlanFalls.{plan_falls};

    ghost size_decreases = { plan_falls };
}

impl Plain {
    /// The plain tree of this form. It takes no memory.
    pub fn new(form: PlainForm) -> Plain
        requires { IsPlan (plan_of_form form) }
        ensures { result ≡ plan_of_form form }
    {
        Plain { form }
    }

    /// The form.
    pub fn form(&self) -> &PlainForm
        ensures form { plan_of_form result.now ≡ self.now }
        ensures plain { IsPlan self.now }
    {
        &self.form
    }
}
