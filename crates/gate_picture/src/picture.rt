//! Whole pictures.

ghost use Rattle.std.specs.Prelude.{OnOk};
ghost use Rattle.std.specs.Io.KnownBytes.{Appends};
ghost use Rattle.gate_picture.specs.Picture.{config_lines, picture, gap_lines, gap_picture};

use crate::drawing::write_tree;
use crate::marking::write_way;
use crate::statements::{write_graph, write_left};
use gate_check::Gap;
use gate_gaps::{ConfigPool, WayStep};
use route_json::Config;
use std::io;
use std::io::Write;

// The front and the tree.
#[tactic(auto, unfolding(crate::specs::Picture::config_lines))]
fn write_config<W: Write>(config: &Config, pools: &[ConfigPool], out: &mut W) -> io::Result<()>
    ensures { OnOk result (Appends (W.contents out.old) (W.contents out.new) (config_lines config.now pools.now)) }
{
    write_graph(out)?;
    write_tree(config.servers(), pools, config.tree(), out)?;
    Ok(())
}

// The way of the read, and the server that the delete leaves.
#[tactic(auto, unfolding(crate::specs::Picture::gap_lines))]
fn write_gap<W: Write>(
    config: &Config,
    pools: &[ConfigPool],
    gap: &Gap,
    way: &[WayStep],
    out: &mut W,
) -> io::Result<()>
    ensures { OnOk result (Appends (W.contents out.old) (W.contents out.new) (gap_lines config.now pools.now gap.now way.now)) }
{
    write_way(gap, config.tree(), way, out)?;
    write_left(config.servers(), pools, gap.server, gap.deleting, out)?;
    Ok(())
}

/// Writes the configuration as a directed graph in Graphviz's language, from left to right: a node for each route of the tree, with
/// the name of its kind, and an edge to each of its children, with what the child is to it. The route of a pool is a box with the
/// names of the pools that have its slots, and with its servers, eight at most.
///
/// Four children or more in a row, of a list or by prefix, whose trees are of one form are drawn as one: its node has their count and
/// the names of their pools, eight at most, and what is below it is that of the first.
///
/// The only error is the writer's. It takes no memory.
///
/// Source: mcgate's own, in Graphviz's language.
pub fn write_picture<W: Write>(config: &Config, pools: &[ConfigPool], out: &mut W) -> io::Result<()>
    ensures { OnOk result (Appends (W.contents out.old) (W.contents out.new) (picture config.now pools.now)) }
{
    write_config(config, pools, out)?;
    writeln!(out, "}}")?;
    Ok(())
}

/// Writes the graph of [`write_picture`] with a gap marked: red are the routes and edges of the way by which the gap's read reaches its server, as
/// the keys of the gap's place see the tree, and a box for the server, with its places in the lists of the pools, which is said not to
/// be cleared by the gap's delete. Of a child that is drawn with others their node is marked, and its edge has the child's own label.
///
/// The way is that of an explanation of the gap ([`gate_gaps::explain`]). The only error is the writer's. It takes no memory.
///
/// Source: mcgate's own, in Graphviz's language.
pub fn write_gap_picture<W: Write>(
    config: &Config,
    pools: &[ConfigPool],
    gap: &Gap,
    way: &[WayStep],
    out: &mut W,
) -> io::Result<()>
    ensures { OnOk result (Appends (W.contents out.old) (W.contents out.new) (gap_picture config.now pools.now gap.now way.now)) }
{
    write_config(config, pools, out)?;
    write_gap(config, pools, gap, way, out)?;
    writeln!(out, "}}")?;
    Ok(())
}
