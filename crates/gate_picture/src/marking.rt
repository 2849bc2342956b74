//! The way that a read takes through the tree to the server of a gap.

ghost use Rattle.std.specs.Prelude.{◌≡◌, ◌+◌, ◌≤◌, ◌<◌, ◌^◌, OnOk, length};
ghost use Rattle.std.specs.Io.KnownBytes.{Appends};
ghost use Rattle.route_tree.specs.Form.{routes_of, policies_of, prefixes_of};
ghost use Rattle.gate_picture.specs.Nodes.{nodes, nodes_of_all, nodes_of_policies, nodes_of_prefixes};
ghost use Rattle.gate_picture.specs.Marks.{turn, first_turn, later, way_below, way_among, way_by, way_begun, way_lines};

use crate::alike::{Run, next_prefix_run, next_run};
use crate::counting::node_count;
use crate::edges::Edge;
use crate::statements::{write_read, write_red_node, write_step};
use gate_check::Gap;
use gate_coverage::prefixes::prefix_text;
use gate_gaps::WayStep;
use gate_gaps::sites::longest_begun;
use mc_types::{Key, Op};
use route_tree::{Tree, TreeForm};
use std::io;
use std::io::Write;

// Which child a step leads to: the index of a list's, 0 for the cold side and 1 for the warm one.
fn turn(step: WayStep) -> usize
    ensures { result ≡ turn step }
{
    match step {
        WayStep::Child(_, index) => index,
        WayStep::Cold | WayStep::Policy(_) | WayStep::Default => 0,
        WayStep::Warm => 1,
    }
}

// Which child the first step leads to.
fn first_turn(way: &[WayStep]) -> usize
    ensures { result ≡ first_turn way.now }
{
    match way {
        [] => 0,
        [first, ..] => turn(*first),
    }
}

// The steps after the first.
fn later(way: &[WayStep]) -> &[WayStep]
    ensures { result.now ≡ later way.now }
{
    match way {
        [] => way,
        [_, rest @ ..] => rest,
    }
}

// Marks the way below the node of this number.
#[cycle(marking)]
fn write_way_below<W: Write>(
    gap: &Gap,
    number: u32,
    tree: &Tree,
    way: &[WayStep],
    out: &mut W,
) -> io::Result<()>
    requires { number + nodes tree.now < 2 ^ 32 }
    ensures { OnOk result (Appends (W.contents out.old) (W.contents out.new) (way_below gap.now number tree.now way.now)) }
{
    let start = Run {
        head: number,
        more: 0,
    };
    match tree.form() {
        TreeForm::Pool(_) | TreeForm::Server(_) => write_read(number, gap.server, gap.op, out),
        TreeForm::Null | TreeForm::Error => Ok(()),
        TreeForm::AllSync(children) => write_way_among(
            gap,
            number,
            first_turn(way),
            0,
            number + 1,
            start,
            children,
            later(way),
            out,
        ),
        TreeForm::Failover(children) => write_way_among(
            gap,
            number,
            first_turn(way),
            0,
            number + 1,
            start,
            children,
            later(way),
            out,
        ),
        TreeForm::MissFailover(children) => write_way_among(
            gap,
            number,
            first_turn(way),
            0,
            number + 1,
            start,
            children,
            later(way),
            out,
        ),
        TreeForm::WarmUp { cold, warm, .. } => {
            if first_turn(way) == 0 {
                write_step(number, Edge::Cold, number + 1, out)?;
                write_way_below(gap, number + 1, cold, later(way), out)
            } else {
                let next = number + 1 + node_count(cold);
                write_step(number, Edge::Warm, next, out)?;
                write_way_below(gap, next, warm, later(way), out)
            }
        }
        TreeForm::ByOperation { policies, default } => write_way_by(
            gap,
            number,
            number + 1,
            policies,
            default,
            later(way),
            out,
        ),
        TreeForm::ByPrefix { policies, wildcard } => {
            let longest = longest_begun(policies, wildcard, prefix_text(&gap.place.prefix));
            write_way_begun(
                gap,
                number,
                longest,
                number + 1,
                start,
                policies,
                wildcard,
                way,
                out,
            )
        }
    }
}

// Marks the way by the child that so many children stand before; the first of these children has this index and number, and stands
// after a child of this run. Of a child that is drawn with others their node is marked, and the way goes on below it.
#[cycle(marking)]
fn write_way_among<W: Write>(
    gap: &Gap,
    parent: u32,
    before: usize,
    index: usize,
    number: u32,
    run: Run,
    children: &[Tree],
    way: &[WayStep],
    out: &mut W,
) -> io::Result<()>
    requires few { number + nodes_of_all (routes_of children.now) < 2 ^ 32 }
    requires within { index + length children.now < 2 ^ 64 }
    requires head { run.head ≤ number }
    ensures { OnOk result (Appends (W.contents out.old) (W.contents out.new) (way_among gap.now parent before index number run (routes_of children.now) way.now)) }
{
    match children {
        [] => Ok(()),
        [first, rest @ ..] => {
            let run_on = next_run(run, number, first, rest);
            if before == 0 {
                write_step(parent, Edge::Child(index), run_on.head, out)?;
                write_way_below(gap, run_on.head, first, way, out)
            } else {
                let next = number + node_count(first);
                write_way_among(
                    gap,
                    parent,
                    before - 1,
                    index + 1,
                    next,
                    run_on,
                    rest,
                    way,
                    out,
                )
            }
        }
    }
}

// Marks the way by the child of the gap's read, else by the default.
#[cycle(marking)]
fn write_way_by<W: Write>(
    gap: &Gap,
    parent: u32,
    number: u32,
    policies: &[(Op, Tree)],
    default: &Tree,
    way: &[WayStep],
    out: &mut W,
) -> io::Result<()>
    requires { number + nodes_of_policies (policies_of policies.now default.now) < 2 ^ 32 }
    ensures { OnOk result (Appends (W.contents out.old) (W.contents out.new) (way_by gap.now parent number (policies_of policies.now default.now) way.now)) }
{
    match policies {
        [] => {
            write_step(parent, Edge::Default, number, out)?;
            write_way_below(gap, number, default, way, out)
        }
        [(op, child), rest @ ..] => {
            if *op == gap.op {
                write_step(parent, Edge::Policy(*op), number, out)?;
                write_way_below(gap, number, child, way, out)
            } else {
                let next = number + node_count(child);
                write_way_by(gap, parent, next, rest, default, way, out)
            }
        }
    }
}

// Marks the way by the policy of this length that begins the place's prefix, else by the wildcard.
#[cycle(marking)]
fn write_way_begun<W: Write>(
    gap: &Gap,
    parent: u32,
    longest: usize,
    number: u32,
    run: Run,
    policies: &[(Key, Tree)],
    wildcard: &Tree,
    way: &[WayStep],
    out: &mut W,
) -> io::Result<()>
    requires few { number + nodes_of_prefixes (prefixes_of policies.now wildcard.now) < 2 ^ 32 }
    requires head { run.head ≤ number }
    ensures { OnOk result (Appends (W.contents out.old) (W.contents out.new) (way_begun gap.now parent longest number run (prefixes_of policies.now wildcard.now) way.now)) }
{
    match policies {
        [] => {
            write_step(parent, Edge::Wildcard, number, out)?;
            write_way_below(gap, number, wildcard, way, out)
        }
        [(prefix, child), rest @ ..] => {
            let run_on = next_prefix_run(run, number, child, rest, wildcard);
            let own = prefix.as_bytes();
            if prefix_text(&gap.place.prefix).starts_with(own) && own.len() == longest {
                write_step(parent, Edge::Prefix(prefix), run_on.head, out)?;
                write_way_below(gap, run_on.head, child, way, out)
            } else {
                let next = number + node_count(child);
                write_way_begun(gap, parent, longest, next, run_on, rest, wildcard, way, out)
            }
        }
    }
}

/// Marks the way of the gap's read, from the root on. It takes no memory.
pub fn write_way<W: Write>(gap: &Gap, tree: &Tree, way: &[WayStep], out: &mut W) -> io::Result<()>
    ensures { OnOk result (Appends (W.contents out.old) (W.contents out.new) (way_lines gap.now tree.now way.now)) }
{
    let _form = tree.form();
    write_red_node(0, out)?;
    write_way_below(gap, 0, tree, way, out)
}
