//! The nodes and edges of a tree.

ghost use Rattle.std.specs.Prelude.{◌+◌, ◌≤◌, ◌<◌, ◌^◌, OnOk, length};
ghost use Rattle.std.specs.Io.KnownBytes.{Appends};
ghost use Rattle.route_tree.specs.Form.{routes_of, policies_of, prefixes_of};
ghost use Rattle.gate_picture.specs.Edges.{edge_text};
ghost use Rattle.gate_picture.specs.Nodes.{nodes, nodes_of_all, nodes_of_policies, nodes_of_prefixes};
ghost use Rattle.gate_picture.specs.Lines.{below_lines, child_lines, member_lines, member_if, prefix_member_lines, prefix_member_if, below_all, below_policies, below_prefixes, front_lines, run_front_lines, prefix_front_lines, tree_lines};

use crate::alike::{Run, next_prefix_run, next_run};
use crate::counting::node_count;
use crate::edges::Edge;
use crate::statements::{write_edge, write_node, write_prefix_node, write_run_node};
use gate_gaps::ConfigPool;
use mc_types::{Key, Op};
use route_json::Servers;
use route_tree::{Tree, TreeForm};
use std::io;
use std::io::Write;

// What is below the node of this number.
#[cycle(drawing)]
fn write_below<W: Write>(
    servers: &Servers,
    pools: &[ConfigPool],
    number: u32,
    tree: &Tree,
    out: &mut W,
) -> io::Result<()>
    requires { number + nodes tree.now < 2 ^ 32 }
    ensures { OnOk result (Appends (W.contents out.old) (W.contents out.new) (below_lines servers.now pools.now number tree.now)) }
{
    let start = Run {
        head: number,
        more: 0,
    };
    match tree.form() {
        TreeForm::Pool(_) | TreeForm::Server(_) => Ok(()),
        TreeForm::Null | TreeForm::Error => Ok(()),
        TreeForm::AllSync(children)
        | TreeForm::Failover(children)
        | TreeForm::MissFailover(children) => {
            let next = number + 1;
            write_all(servers, pools, number, 0, next, start, children, out)
        }
        TreeForm::WarmUp { cold, warm, .. } => {
            write_child(servers, pools, number, Edge::Cold, number + 1, cold, out)?;
            let next = number + 1 + node_count(cold);
            write_child(servers, pools, number, Edge::Warm, next, warm, out)
        }
        TreeForm::ByOperation { policies, default } => write_policies(
            servers,
            pools,
            number,
            number + 1,
            policies,
            default,
            out,
        ),
        TreeForm::ByPrefix { policies, wildcard } => write_prefixes(
            servers,
            pools,
            number,
            number + 1,
            start,
            policies,
            wildcard,
            out,
        ),
    }
}

// The edge to a child, and its node.
fn write_front<W: Write>(
    servers: &Servers,
    pools: &[ConfigPool],
    parent: u32,
    edge: Edge<'_>,
    number: u32,
    child: &Tree,
    out: &mut W,
) -> io::Result<()>
    ensures { OnOk result (Appends (W.contents out.old) (W.contents out.new) (front_lines servers.now pools.now parent (edge_text edge.entry) number child.now)) }
{
    write_edge(parent, edge, 0, number, out)?;
    write_node(servers, pools, number, child, out)?;
    Ok(())
}

// A child and what is below it.
#[cycle(drawing)]
fn write_child<W: Write>(
    servers: &Servers,
    pools: &[ConfigPool],
    parent: u32,
    edge: Edge<'_>,
    number: u32,
    child: &Tree,
    out: &mut W,
) -> io::Result<()>
    requires { number + nodes child.now < 2 ^ 32 }
    ensures { OnOk result (Appends (W.contents out.old) (W.contents out.new) (child_lines servers.now pools.now parent (edge_text edge.entry) number child.now)) }
{
    write_front(servers, pools, parent, edge, number, child, out)?;
    write_below(servers, pools, number, child, out)
}

// The edge to the children of a run, and their node.
fn write_run_front<W: Write>(
    servers: &Servers,
    pools: &[ConfigPool],
    parent: u32,
    edge: Edge<'_>,
    more: usize,
    number: u32,
    first: &Tree,
    children: &[Tree],
    out: &mut W,
) -> io::Result<()>
    requires { more + 1 < 2 ^ 64 }
    ensures { OnOk result (Appends (W.contents out.old) (W.contents out.new) (run_front_lines servers.now pools.now parent (edge_text edge.entry) more number first.now (routes_of children.now))) }
{
    write_edge(parent, edge, more, number, out)?;
    write_run_node(servers, pools, number, more, first, children, out)?;
    Ok(())
}

// The edge to the children by prefix of a run, and their node.
fn write_prefix_front<W: Write>(
    servers: &Servers,
    pools: &[ConfigPool],
    parent: u32,
    edge: Edge<'_>,
    more: usize,
    number: u32,
    first: &Tree,
    policies: &[(Key, Tree)],
    wildcard: &Tree,
    out: &mut W,
) -> io::Result<()>
    requires { more + 1 < 2 ^ 64 }
    ensures { OnOk result (Appends (W.contents out.old) (W.contents out.new) (prefix_front_lines servers.now pools.now parent (edge_text edge.entry) more number first.now (prefixes_of policies.now wildcard.now))) }
{
    write_edge(parent, edge, more, number, out)?;
    write_prefix_node(servers, pools, number, more, first, policies, wildcard, out)?;
    Ok(())
}

// A run of children, and what is below its first one.
#[cycle(drawing)]
fn write_member<W: Write>(
    servers: &Servers,
    pools: &[ConfigPool],
    parent: u32,
    index: usize,
    more: usize,
    number: u32,
    first: &Tree,
    children: &[Tree],
    out: &mut W,
) -> io::Result<()>
    requires few { number + nodes first.now < 2 ^ 32 }
    requires more { more + 1 < 2 ^ 64 }
    ensures { OnOk result (Appends (W.contents out.old) (W.contents out.new) (member_lines servers.now pools.now parent index more number first.now (routes_of children.now) (below_lines servers.now pools.now number first.now))) }
{
    write_run_front(
        servers,
        pools,
        parent,
        Edge::Child(index),
        more,
        number,
        first,
        children,
        out,
    )?;
    write_below(servers, pools, number, first, out)
}

// A run of children, and what is below its first one, if the child is the first of its run.
#[cycle(drawing)]
fn write_member_if<W: Write>(
    servers: &Servers,
    pools: &[ConfigPool],
    is_first: bool,
    parent: u32,
    index: usize,
    more: usize,
    number: u32,
    first: &Tree,
    children: &[Tree],
    out: &mut W,
) -> io::Result<()>
    requires few { number + nodes first.now < 2 ^ 32 }
    requires more { more + 1 < 2 ^ 64 }
    ensures { OnOk result (Appends (W.contents out.old) (W.contents out.new) (member_if servers.now pools.now is_first parent index more number first.now (routes_of children.now) (below_lines servers.now pools.now number first.now))) }
{
    if is_first {
        write_member(
            servers, pools, parent, index, more, number, first, children, out,
        )
    } else {
        Ok(())
    }
}

// Children of a list, the first of them with this index and number, after a child of this run. A run is drawn where it begins.
#[cycle(drawing)]
fn write_all<W: Write>(
    servers: &Servers,
    pools: &[ConfigPool],
    parent: u32,
    index: usize,
    number: u32,
    run: Run,
    children: &[Tree],
    out: &mut W,
) -> io::Result<()>
    requires few { number + nodes_of_all (routes_of children.now) < 2 ^ 32 }
    requires within { index + length children.now < 2 ^ 64 }
    requires head { run.head ≤ number }
    ensures { OnOk result (Appends (W.contents out.old) (W.contents out.new) (below_all servers.now pools.now parent index number run (routes_of children.now))) }
{
    match children {
        [] => Ok(()),
        [first, rest @ ..] => {
            let next = number + node_count(first);
            let on = next_run(run, number, first, rest);
            let is_first = run.more == 0;
            write_member_if(
                servers, pools, is_first, parent, index, on.more, number, first, children, out,
            )?;
            write_all(servers, pools, parent, index + 1, next, on, rest, out)
        }
    }
}

// Children by operation, the first of them with this number.
#[cycle(drawing)]
fn write_policies<W: Write>(
    servers: &Servers,
    pools: &[ConfigPool],
    parent: u32,
    number: u32,
    policies: &[(Op, Tree)],
    default: &Tree,
    out: &mut W,
) -> io::Result<()>
    requires { number + nodes_of_policies (policies_of policies.now default.now) < 2 ^ 32 }
    ensures { OnOk result (Appends (W.contents out.old) (W.contents out.new) (below_policies servers.now pools.now parent number (policies_of policies.now default.now))) }
{
    match policies {
        [] => write_child(servers, pools, parent, Edge::Default, number, default, out),
        [(op, child), rest @ ..] => {
            write_child(
                servers,
                pools,
                parent,
                Edge::Policy(*op),
                number,
                child,
                out,
            )?;
            let next = number + node_count(child);
            write_policies(servers, pools, parent, next, rest, default, out)
        }
    }
}

// A run of children by prefix, and what is below its first one.
#[cycle(drawing)]
fn write_prefix_member<W: Write>(
    servers: &Servers,
    pools: &[ConfigPool],
    parent: u32,
    prefix: &Key,
    more: usize,
    number: u32,
    first: &Tree,
    policies: &[(Key, Tree)],
    wildcard: &Tree,
    out: &mut W,
) -> io::Result<()>
    requires few { number + nodes first.now < 2 ^ 32 }
    requires more { more + 1 < 2 ^ 64 }
    ensures { OnOk result (Appends (W.contents out.old) (W.contents out.new) (prefix_member_lines servers.now pools.now parent prefix.now more number first.now (prefixes_of policies.now wildcard.now) (below_lines servers.now pools.now number first.now))) }
{
    write_prefix_front(
        servers,
        pools,
        parent,
        Edge::Prefix(prefix),
        more,
        number,
        first,
        policies,
        wildcard,
        out,
    )?;
    write_below(servers, pools, number, first, out)
}

// A run of children by prefix, and what is below its first one, if the child is the first of its run.
#[cycle(drawing)]
fn write_prefix_member_if<W: Write>(
    servers: &Servers,
    pools: &[ConfigPool],
    is_first: bool,
    parent: u32,
    prefix: &Key,
    more: usize,
    number: u32,
    first: &Tree,
    policies: &[(Key, Tree)],
    wildcard: &Tree,
    out: &mut W,
) -> io::Result<()>
    requires few { number + nodes first.now < 2 ^ 32 }
    requires more { more + 1 < 2 ^ 64 }
    ensures { OnOk result (Appends (W.contents out.old) (W.contents out.new) (prefix_member_if servers.now pools.now is_first parent prefix.now more number first.now (prefixes_of policies.now wildcard.now) (below_lines servers.now pools.now number first.now))) }
{
    if is_first {
        write_prefix_member(
            servers, pools, parent, prefix, more, number, first, policies, wildcard, out,
        )
    } else {
        Ok(())
    }
}

// Children by prefix, the first of them with this number, after a child of this run. A run is drawn where it begins.
#[cycle(drawing)]
fn write_prefixes<W: Write>(
    servers: &Servers,
    pools: &[ConfigPool],
    parent: u32,
    number: u32,
    run: Run,
    policies: &[(Key, Tree)],
    wildcard: &Tree,
    out: &mut W,
) -> io::Result<()>
    requires few { number + nodes_of_prefixes (prefixes_of policies.now wildcard.now) < 2 ^ 32 }
    requires head { run.head ≤ number }
    ensures { OnOk result (Appends (W.contents out.old) (W.contents out.new) (below_prefixes servers.now pools.now parent number run (prefixes_of policies.now wildcard.now))) }
{
    match policies {
        [] => write_child(
            servers,
            pools,
            parent,
            Edge::Wildcard,
            number,
            wildcard,
            out,
        ),
        [(prefix, child), rest @ ..] => {
            let next = number + node_count(child);
            let on = next_prefix_run(run, number, child, rest, wildcard);
            let is_first = run.more == 0;
            write_prefix_member_if(
                servers, pools, is_first, parent, prefix, on.more, number, child, policies,
                wildcard, out,
            )?;
            write_prefixes(servers, pools, parent, next, on, rest, wildcard, out)
        }
    }
}

/// Writes the nodes and edges of the tree. It takes no memory.
pub fn write_tree<W: Write>(
    servers: &Servers,
    pools: &[ConfigPool],
    tree: &Tree,
    out: &mut W,
) -> io::Result<()>
    ensures { OnOk result (Appends (W.contents out.old) (W.contents out.new) (tree_lines servers.now pools.now tree.now)) }
{
    let _form = tree.form();
    write_node(servers, pools, 0, tree, out)?;
    write_below(servers, pools, 0, tree, out)
}
