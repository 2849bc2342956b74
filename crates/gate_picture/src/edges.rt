//! What a child is to its route.

ghost use Rattle.std.specs.Prelude.{Some};
ghost use Rattle.gate_picture.specs.Edges.{edge_text};

use gate_gaps::names::op_name;
use gate_gaps::quoting::Quoted;
use mc_types::{Key, Op};
use std::fmt;
use std::fmt::Display;

/// What a child is to its route, as the label of the edge to it.
#[derive(Clone, Copy)]
pub enum Edge<'a> {
    /// The child of this index, from 0.
    Child(usize),
    Cold,
    Warm,
    /// The policy of this operation.
    Policy(Op),
    Default,
    /// The policy of this prefix.
    Prefix(&'a Key),
    Wildcard,
}

impl Display for Edge<'_> {
    ghost output = { λ e. Some (edge_text e) };

    fn fmt<W: fmt::Write>(&self, f: &mut fmt::Formatter<W>) -> fmt::Result {
        match self {
            Edge::Child(index) => write!(f, "children[{index}]"),
            Edge::Cold => f.write_str("cold"),
            Edge::Warm => f.write_str("warm"),
            Edge::Policy(op) => f.write_str(op_name(*op)),
            Edge::Default => f.write_str("default"),
            Edge::Prefix(key) => {
                f.write_str("prefix ")?;
                Quoted(key.as_bytes()).fmt(f)
            }
            Edge::Wildcard => f.write_str("wildcard"),
        }
    }
}
