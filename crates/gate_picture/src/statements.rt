//! The statements of a picture.

ghost use Rattle.std.specs.Prelude.{◌≡◌, ◌+◌, ◌<◌, ◌^◌, OnOk};
ghost use Rattle.std.specs.Io.KnownBytes.{Appends};
ghost use Rattle.route_tree.specs.Form.{routes_of, prefixes_of};
ghost use Rattle.gate_gaps.specs.Names.{server_address};
ghost use Rattle.gate_picture.specs.Edges.{edge_text};
ghost use Rattle.gate_picture.specs.Statements.{graph_lines, more_text, edge_front, edge_line, node_front, node_end, end_phrase, node_line, run_line, prefix_run_line, red_node_line, red_edge_line, step_lines, read_line, left_front, left_end, left_server_line};

use crate::edges::Edge;
use crate::labels::{write_one, write_prefix_run, write_run};
use crate::phrases::{Phrase, text_of};
use gate_coverage::Deleting;
use gate_gaps::ConfigPool;
use gate_gaps::names::{address_of, delete_name, op_name};
use gate_gaps::pool_words::write_places;
use gate_gaps::quoting::Quoted;
use gate_gaps::spelling::Spelling;
use mc_types::{Key, Op, ServerId};
use route_json::Servers;
use route_tree::{Tree, TreeForm};
use std::io;
use std::io::Write;

/// The front of the graph.
#[tactic(auto, unfolding(crate::specs::Statements::graph_lines))]
pub fn write_graph<W: Write>(out: &mut W) -> io::Result<()>
    ensures { OnOk result (Appends (W.contents out.old) (W.contents out.new) graph_lines) }
{
    let graph = text_of(Phrase::Graph);
    let direction = text_of(Phrase::Direction);
    writeln!(out, "{graph}\n{direction}")
}

// How many more children an edge leads to.
fn write_more<W: Write>(more: usize, out: &mut W) -> io::Result<()>
    ensures { OnOk result (Appends (W.contents out.old) (W.contents out.new) (more_text more)) }
{
    if more == 0 {
        Ok(())
    } else {
        write!(out, " and {more} more")
    }
}

#[tactic(auto, unfolding(crate::specs::Statements::edge_front))]
fn write_edge_front<W: Write>(
    parent: u32,
    edge: Edge<'_>,
    number: u32,
    out: &mut W,
) -> io::Result<()>
    ensures { OnOk result (Appends (W.contents out.old) (W.contents out.new) (edge_front parent (edge_text edge.entry) number)) }
{
    let label = text_of(Phrase::Label);
    write!(out, "  r{parent} -> r{number}{label}{edge}")
}

/// The edge from a route to one of its children, and to so many more.
#[tactic(auto, unfolding(crate::specs::Statements::edge_line))]
pub fn write_edge<W: Write>(
    parent: u32,
    edge: Edge<'_>,
    more: usize,
    number: u32,
    out: &mut W,
) -> io::Result<()>
    ensures { OnOk result (Appends (W.contents out.old) (W.contents out.new) (edge_line parent (edge_text edge.entry) more number)) }
{
    let end = text_of(Phrase::End);
    write_edge_front(parent, edge, number, out)?;
    write_more(more, out)?;
    writeln!(out, "{end}")?;
    Ok(())
}

#[tactic(auto, unfolding(crate::specs::Statements::node_front))]
fn write_node_front<W: Write>(number: u32, out: &mut W) -> io::Result<()>
    ensures { OnOk result (Appends (W.contents out.old) (W.contents out.new) (node_front number)) }
{
    let label = text_of(Phrase::Label);
    write!(out, "  r{number}{label}")
}

// Pools and servers are boxes.
fn end_phrase(tree: &Tree) -> Phrase
    ensures { result ≡ end_phrase tree.now }
{
    match tree.form() {
        TreeForm::Pool(_) | TreeForm::Server(_) => Phrase::Boxed,
        _ => Phrase::End,
    }
}

#[tactic(auto, unfolding(crate::specs::Statements::node_end))]
fn write_node_end<W: Write>(tree: &Tree, out: &mut W) -> io::Result<()>
    ensures { OnOk result (Appends (W.contents out.old) (W.contents out.new) (node_end tree.now)) }
{
    let end = text_of(end_phrase(tree));
    writeln!(out, "{end}")
}

/// The node of one route.
pub fn write_node<W: Write>(
    servers: &Servers,
    pools: &[ConfigPool],
    number: u32,
    tree: &Tree,
    out: &mut W,
) -> io::Result<()>
    ensures { OnOk result (Appends (W.contents out.old) (W.contents out.new) (node_line servers.now pools.now number tree.now)) }
{
    write_node_front(number, out)?;
    write_one(servers, pools, tree, out)?;
    write_node_end(tree, out)?;
    Ok(())
}

/// The node of the first of these children, and of so many more.
pub fn write_run_node<W: Write>(
    servers: &Servers,
    pools: &[ConfigPool],
    number: u32,
    more: usize,
    first: &Tree,
    children: &[Tree],
    out: &mut W,
) -> io::Result<()>
    requires { more + 1 < 2 ^ 64 }
    ensures { OnOk result (Appends (W.contents out.old) (W.contents out.new) (run_line servers.now pools.now number more first.now (routes_of children.now))) }
{
    write_node_front(number, out)?;
    write_run(servers, pools, more, first, children, out)?;
    write_node_end(first, out)?;
    Ok(())
}

/// The node of the first of these children by prefix, and of so many more.
pub fn write_prefix_node<W: Write>(
    servers: &Servers,
    pools: &[ConfigPool],
    number: u32,
    more: usize,
    first: &Tree,
    policies: &[(Key, Tree)],
    wildcard: &Tree,
    out: &mut W,
) -> io::Result<()>
    requires { more + 1 < 2 ^ 64 }
    ensures { OnOk result (Appends (W.contents out.old) (W.contents out.new) (prefix_run_line servers.now pools.now number more first.now (prefixes_of policies.now wildcard.now))) }
{
    write_node_front(number, out)?;
    write_prefix_run(servers, pools, more, first, policies, wildcard, out)?;
    write_node_end(first, out)?;
    Ok(())
}

/// Marks the node of a route.
#[tactic(auto, unfolding(crate::specs::Statements::red_node_line))]
pub fn write_red_node<W: Write>(number: u32, out: &mut W) -> io::Result<()>
    ensures { OnOk result (Appends (W.contents out.old) (W.contents out.new) (red_node_line number)) }
{
    let red = text_of(Phrase::Red);
    writeln!(out, "  r{number}{red}")
}

#[tactic(auto, unfolding(crate::specs::Statements::red_edge_line))]
fn write_red_edge<W: Write>(parent: u32, edge: Edge<'_>, number: u32, out: &mut W) -> io::Result<()>
    ensures { OnOk result (Appends (W.contents out.old) (W.contents out.new) (red_edge_line parent (edge_text edge.entry) number)) }
{
    let red = text_of(Phrase::LabelRed);
    write_edge_front(parent, edge, number, out)?;
    writeln!(out, "{red}")?;
    Ok(())
}

/// Marks the edge from a route to one of its children, and the node that stands for the child.
#[tactic(auto, unfolding(crate::specs::Statements::step_lines))]
pub fn write_step<W: Write>(parent: u32, edge: Edge<'_>, number: u32, out: &mut W) -> io::Result<()>
    ensures { OnOk result (Appends (W.contents out.old) (W.contents out.new) (step_lines parent (edge_text edge.entry) number)) }
{
    write_red_edge(parent, edge, number, out)?;
    write_red_node(number, out)?;
    Ok(())
}

/// Draws the edge by which an operation reaches a server.
#[tactic(auto, unfolding(crate::specs::Statements::read_line))]
pub fn write_read<W: Write>(number: u32, server: ServerId, op: Op, out: &mut W) -> io::Result<()>
    ensures { OnOk result (Appends (W.contents out.old) (W.contents out.new) (read_line number server op)) }
{
    let server = server.number();
    let op = op_name(op);
    let label = text_of(Phrase::Label);
    let red = text_of(Phrase::LabelRed);
    writeln!(out, "  r{number} -> s{server}{label}{op}{red}")
}

#[tactic(auto, unfolding(crate::specs::Statements::left_front))]
fn write_left_front<W: Write>(servers: &Servers, server: ServerId, out: &mut W) -> io::Result<()>
    ensures { OnOk result (Appends (W.contents out.old) (W.contents out.new) (left_front server (server_address servers.now server))) }
{
    let address = Quoted(address_of(servers, server).as_bytes());
    let server = server.number();
    let label = text_of(Phrase::Label);
    write!(out, "  s{server}{label}{address}")
}

#[tactic(auto, unfolding(crate::specs::Statements::left_end))]
fn write_left_end<W: Write>(deleting: Deleting, out: &mut W) -> io::Result<()>
    ensures { OnOk result (Appends (W.contents out.old) (W.contents out.new) (left_end deleting)) }
{
    let delete = delete_name(deleting);
    let not_cleared = text_of(Phrase::NotCleared);
    let thick = text_of(Phrase::LabelThick);
    writeln!(out, "{not_cleared}{delete}{thick}")
}

/// Draws the server that a delete leaves.
pub fn write_left<W: Write>(
    servers: &Servers,
    pools: &[ConfigPool],
    server: ServerId,
    deleting: Deleting,
    out: &mut W,
) -> io::Result<()>
    ensures { OnOk result (Appends (W.contents out.old) (W.contents out.new) (left_server_line servers.now pools.now server deleting)) }
{
    write_left_front(servers, server, out)?;
    write_places(Spelling::Label, pools, server, out)?;
    write_left_end(deleting, out)?;
    Ok(())
}
