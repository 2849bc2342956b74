//! The lines of a fleet's verdict.

ghost use Rattle.std.specs.Prelude.{◌≡◌, ◌+◌, ◌<◌, ◌^◌, OnOk, length};
ghost use Rattle.std.specs.Io.KnownBytes.{Appends};
ghost use Rattle.route_tree.specs.Form.{policies_of, prefixes_of, routes_of};
ghost use Rattle.mcgate_ends.specs.FleetLines.{copy_path, copy_path_begun, copy_path_by, copy_path_in, copying_end, copying_front, copying_line, fleet_line, many_files_line, many_places_line, pair_fields, pair_gap_line, pair_head, copy_step_text, step_to_child, step_to_policy};

use gate_check::Gap;
use gate_coverage::prefixes::prefix_text;
use gate_coverage::stores::is_op;
use gate_gaps::pointing::Pointed;
use gate_gaps::sites::longest_begun;
use mc_types::{Key, Op};
use mcgate_lines::verdict::write_gap;
use route_json::Servers;
use route_tree::copying::copies;
use route_tree::{Tree, TreeForm};
use std::io;
use std::io::Write;
use text_words::escapes::Escaped;

/// Writes the line of configurations that are accepted together: `accepted trees=N`. The format is mcgate's own.
pub fn write_fleet<W: Write>(count: usize, out: &mut W) -> io::Result<()>
    ensures { OnOk result (Appends (W.contents out.old) (W.contents out.new) (fleet_line count)) }
{
    writeln!(out, "accepted trees={count}")
}

/// Writes that there are more files than are judged together. The format is mcgate's own.
pub fn write_many_files<W: Write>(out: &mut W) -> io::Result<()>
    ensures { OnOk result (Appends (W.contents out.old) (W.contents out.new) many_files_line) }
{
    writeln!(out, "refused: too many files")
}

// Writes the names of the files by which is read and deleted.
fn write_pair<W: Write>(reads: &str, deletes: &str, out: &mut W) -> io::Result<()>
    ensures { OnOk result (Appends (W.contents out.old) (W.contents out.new) (pair_fields reads.now deletes.now)) }
{
    let reads = Escaped(reads.as_bytes());
    let deletes = Escaped(deletes.as_bytes());
    write!(out, " reads={reads} deletes={deletes}")
}

/// Writes that two trees together have too many places: `refused: too many places reads=F deletes=F`. The format is mcgate's own.
pub fn write_many_places<W: Write>(reads: &str, deletes: &str, out: &mut W) -> io::Result<()>
    ensures { OnOk result (Appends (W.contents out.old) (W.contents out.new) (many_places_line reads.now deletes.now)) }
{
    write!(out, "refused: too many places")?;
    write_pair(reads, deletes, out)?;
    writeln!(out)?;
    Ok(())
}

fn write_pair_head<W: Write>(reads: &str, deletes: &str, out: &mut W) -> io::Result<()>
    ensures { OnOk result (Appends (W.contents out.old) (W.contents out.new) (pair_head reads.now deletes.now)) }
{
    write!(out, "refused:")?;
    write_pair(reads, deletes, out)?;
    Ok(())
}

/// Writes the line of a gap of two trees: `refused: reads=F deletes=F server=A read=OP delete=D prefix=P residue=R/L`. The format is
/// mcgate's own.
pub fn write_pair_gap<W: Write>(
    servers: &Servers,
    reads: &str,
    deletes: &str,
    gap: &Gap,
    out: &mut W,
) -> io::Result<()>
    ensures { OnOk result (Appends (W.contents out.old) (W.contents out.new) (pair_gap_line servers.now reads.now deletes.now gap.now)) }
{
    write_pair_head(reads, deletes, out)?;
    write_gap(servers, gap, out)?;
    Ok(())
}

// Writes the path from a route to the first warm-up that a get of keys with this text comes to.
#[cycle(path)]
fn write_copy_path<W: Write>(text: &[u8], tree: &Tree, out: &mut W) -> io::Result<()>
    ensures { OnOk result (Appends (W.contents out.old) (W.contents out.new) (copy_path text.now tree.now)) }
{
    match tree.form() {
        TreeForm::Pool(_) | TreeForm::Server(_) => Ok(()),
        TreeForm::Null | TreeForm::Error | TreeForm::WarmUp { .. } => Ok(()),
        TreeForm::AllSync(children) => write_copy_path_in(text, 0, children, out),
        TreeForm::Failover(children) => write_copy_path_in(text, 0, children, out),
        TreeForm::MissFailover(children) => write_copy_path_in(text, 0, children, out),
        TreeForm::ByOperation { policies, default } => {
            write_copy_path_by(text, policies, default, out)
        }
        TreeForm::ByPrefix { policies, wildcard } => {
            let longest = longest_begun(policies, wildcard, text);
            write_copy_path_begun(text, longest, policies, wildcard, out)
        }
    }
}

fn write_child<W: Write>(index: usize, out: &mut W) -> io::Result<()>
    ensures { OnOk result (Appends (W.contents out.old) (W.contents out.new) (step_to_child index)) }
{
    write!(out, "/children/{index}")
}

// Writes the path by the first of the children by which a get copies; the first of these children has this index.
#[cycle(path)]
fn write_copy_path_in<W: Write>(
    text: &[u8],
    index: usize,
    children: &[Tree],
    out: &mut W,
) -> io::Result<()>
    requires { index + length children.now < 2 ^ 64 }
    ensures { OnOk result (Appends (W.contents out.old) (W.contents out.new) (copy_path_in text.now index (routes_of children.now))) }
{
    match children {
        [] => Ok(()),
        [child, rest @ ..] => {
            if copies(child, text) {
                write_child(index, out)?;
                write_copy_path(text, child, out)
            } else {
                write_copy_path_in(text, index + 1, rest, out)
            }
        }
    }
}

// A step from a selector to a child.
#[derive(Clone, Copy)]
enum ChildStep {
    Default,
    Get,
    Wildcard,
}

#[tactic(auto, unfolding(crate::specs::FleetLines::copy_step_text))]
fn step_text(step: ChildStep) -> &'static str
    ensures { result.now ≡ copy_step_text step }
{
    match step {
        ChildStep::Default => "/default_policy",
        ChildStep::Get => "/operation_policies/get",
        ChildStep::Wildcard => "/wildcard",
    }
}

fn write_step<W: Write>(step: ChildStep, out: &mut W) -> io::Result<()>
    ensures { OnOk result (Appends (W.contents out.old) (W.contents out.new) (copy_step_text step)) }
{
    let text = step_text(step);
    write!(out, "{text}")
}

// Writes the path by the policy of gets, else by the default.
#[cycle(path)]
fn write_copy_path_by<W: Write>(
    text: &[u8],
    policies: &[(Op, Tree)],
    default: &Tree,
    out: &mut W,
) -> io::Result<()>
    ensures { OnOk result (Appends (W.contents out.old) (W.contents out.new) (copy_path_by text.now (policies_of policies.now default.now))) }
{
    match policies {
        [] => {
            write_step(ChildStep::Default, out)?;
            write_copy_path(text, default, out)
        }
        [(op, child), rest @ ..] => {
            if is_op(*op, Op::Get) {
                write_step(ChildStep::Get, out)?;
                write_copy_path(text, child, out)
            } else {
                write_copy_path_by(text, rest, default, out)
            }
        }
    }
}

fn write_policy<W: Write>(policy: &[u8], out: &mut W) -> io::Result<()>
    ensures { OnOk result (Appends (W.contents out.old) (W.contents out.new) (step_to_policy policy.now)) }
{
    let name = Pointed(policy);
    write!(out, "/policies/{name}")
}

// Writes the path by the policy of this length that begins the text, else by the wildcard.
#[cycle(path)]
fn write_copy_path_begun<W: Write>(
    text: &[u8],
    longest: usize,
    policies: &[(Key, Tree)],
    wildcard: &Tree,
    out: &mut W,
) -> io::Result<()>
    ensures { OnOk result (Appends (W.contents out.old) (W.contents out.new) (copy_path_begun text.now longest (prefixes_of policies.now wildcard.now))) }
{
    match policies {
        [] => {
            write_step(ChildStep::Wildcard, out)?;
            write_copy_path(text, wildcard, out)
        }
        [(own, child), rest @ ..] => {
            let policy = own.as_bytes();
            if text.starts_with(policy) && policy.len() == longest {
                write_policy(policy, out)?;
                write_copy_path(text, child, out)
            } else {
                write_copy_path_begun(text, longest, rest, wildcard, out)
            }
        }
    }
}

// Writes the prefix and the file, and ends the line.
fn write_copying_end<W: Write>(file: &str, prefix: &Option<Key>, out: &mut W) -> io::Result<()>
    ensures { OnOk result (Appends (W.contents out.old) (W.contents out.new) (copying_end file.now prefix.now)) }
{
    let prefix = Escaped(prefix_text(prefix));
    let file = Escaped(file.as_bytes());
    writeln!(out, " prefix={prefix} file={file}")
}

// Writes the path through the JSON text to the first warm-up that a get of keys with this text comes to.
fn write_copying_front<W: Write>(text: &[u8], tree: &Tree, out: &mut W) -> io::Result<()>
    ensures { OnOk result (Appends (W.contents out.old) (W.contents out.new) (copying_front text.now tree.now)) }
{
    write!(out, "refused: a read copies, route=/route")?;
    write_copy_path(text, tree, out)?;
    Ok(())
}

/// Writes the line of a tree by which a get of keys with this prefix copies: `refused: a read copies, route=R prefix=P file=F`, with the
/// path through the JSON text to the first warm-up that it comes to. The format is mcgate's own.
pub fn write_copying<W: Write>(
    file: &str,
    tree: &Tree,
    prefix: &Option<Key>,
    out: &mut W,
) -> io::Result<()>
    ensures { OnOk result (Appends (W.contents out.old) (W.contents out.new) (copying_line file.now tree.now prefix.now)) }
{
    write_copying_front(prefix_text(prefix), tree, out)?;
    write_copying_end(file, prefix, out)?;
    Ok(())
}
