//! By which route of a tree deletes go, and what to change there.

ghost use Rattle.std.specs.Prelude.{◌≡◌, OnOk};
ghost use Rattle.std.specs.Io.KnownBytes.{Appends};
ghost use Rattle.route_tree.specs.Form.{policies_of, prefixes_of};
ghost use Rattle.gate_gaps.specs.Phrases as spec;
ghost use Rattle.gate_gaps.specs.Sites.{longest_begun, pools_of_route, route_text, lack_phrase, fix_phrase, change_front, change_end, change_text, end_line, end_route_text, policy_path, site_text, site_by, site_begun, change_lines};

use crate::kinds::kind_name;
use crate::phrases::{Phrase, text_of};
use crate::pointing::Pointed;
use crate::pool_words::{write_pool_names, write_server};
use crate::pools::ConfigPool;
use crate::spelling::Spelling;
use gate_coverage::stores::is_op;
use mc_types::{Key, Op, ServerId};
use route_json::addresses::Servers;
use route_tree::{Tree, TreeForm};
use std::io;
use std::io::Write;

/// How long the longest of the prefixes is that begin the text; 0 where none does.
pub fn longest_begun(policies: &[(Key, Tree)], wildcard: &Tree, text: &[u8]) -> usize
    ensures { result ≡ longest_begun text.now (prefixes_of policies.now wildcard.now) }
{
    match policies {
        [] => 0,
        [(prefix, _), rest @ ..] => {
            let others = longest_begun(rest, wildcard, text);
            let prefix = prefix.as_bytes();
            if text.starts_with(prefix) && others < prefix.len() {
                prefix.len()
            } else {
                others
            }
        }
    }
}

// The name of a route by its kind, and of a pool's by its pool.
fn write_route<W: Write>(pools: &[ConfigPool], tree: &Tree, out: &mut W) -> io::Result<()>
    ensures { OnOk result (Appends (W.contents out.old) (W.contents out.new) (route_text pools.now tree.now)) }
{
    write!(out, "{}", kind_name(tree))?;
    write_pools_of(pools, tree, out)?;
    Ok(())
}

// The names of the pools whose route this is.
fn write_pools_of<W: Write>(pools: &[ConfigPool], tree: &Tree, out: &mut W) -> io::Result<()>
    ensures { OnOk result (Appends (W.contents out.old) (W.contents out.new) (pools_of_route pools.now tree.now)) }
{
    match tree.form() {
        TreeForm::Pool(slots) => write_pool_names(Spelling::Line, pools, slots, out),
        TreeForm::Server(_) | TreeForm::Null | TreeForm::Error => Ok(()),
        TreeForm::AllSync(_) | TreeForm::Failover(_) | TreeForm::MissFailover(_) => Ok(()),
        TreeForm::WarmUp { .. } | TreeForm::ByOperation { .. } | TreeForm::ByPrefix { .. } => Ok(
            (),
        ),
    }
}

// What deletes by a route of this kind lack, before the server is named.
fn lack_phrase(tree: &Tree) -> Phrase
    ensures { result ≡ lack_phrase tree.now }
{
    match tree.form() {
        TreeForm::Pool(_) | TreeForm::Server(_) => Phrase::Lacks,
        TreeForm::Null | TreeForm::Error => Phrase::ClearsNothing,
        TreeForm::AllSync(_) => Phrase::LacksChild,
        TreeForm::Failover(_) => Phrase::StopsBefore,
        TreeForm::MissFailover(_) => Phrase::FirstAlone,
        TreeForm::WarmUp { .. } => Phrase::ColdAlone,
        TreeForm::ByOperation { .. } | TreeForm::ByPrefix { .. } => Phrase::Lacks,
    }
}

// What helps where a route of this kind leaves a gap.
fn fix_phrase(tree: &Tree) -> Phrase
    ensures { result ≡ fix_phrase tree.now }
{
    match tree.form() {
        TreeForm::Pool(_) | TreeForm::Server(_) => Phrase::OverBoth,
        TreeForm::Null | TreeForm::Error => Phrase::SendThere,
        TreeForm::AllSync(_) => Phrase::AddOne,
        TreeForm::Failover(_) | TreeForm::MissFailover(_) => Phrase::OfChildren,
        TreeForm::WarmUp { .. } => Phrase::OfSides,
        TreeForm::ByOperation { .. } | TreeForm::ByPrefix { .. } => Phrase::OverBoth,
    }
}

fn write_change_front<W: Write>(tree: &Tree, out: &mut W) -> io::Result<()>
    ensures { OnOk result (Appends (W.contents out.old) (W.contents out.new) (change_front tree.now)) }
{
    let front = text_of(Phrase::ToChange);
    let lack = text_of(lack_phrase(tree));
    write!(out, "{front} {lack} ")
}

fn write_change_end<W: Write>(tree: &Tree, out: &mut W) -> io::Result<()>
    ensures { OnOk result (Appends (W.contents out.old) (W.contents out.new) (change_end tree.now)) }
{
    let fix = text_of(fix_phrase(tree));
    writeln!(out, "{fix}")
}

// What to change where deletes go by this route.
fn write_change<W: Write>(
    servers: &Servers,
    pools: &[ConfigPool],
    server: ServerId,
    tree: &Tree,
    out: &mut W,
) -> io::Result<()>
    ensures { OnOk result (Appends (W.contents out.old) (W.contents out.new) (change_text servers.now pools.now server tree.now)) }
{
    write_change_front(tree, out)?;
    write_server(servers, pools, server, out)?;
    write_change_end(tree, out)?;
    Ok(())
}

// The end of the path, and the route there.
fn write_end_line<W: Write>(pools: &[ConfigPool], tree: &Tree, out: &mut W) -> io::Result<()>
    ensures { OnOk result (Appends (W.contents out.old) (W.contents out.new) (end_line pools.now tree.now)) }
{
    write!(out, ": ")?;
    write_route(pools, tree, out)?;
    writeln!(out)?;
    Ok(())
}

// The route by which deletes go at last, and what to change there.
fn write_end<W: Write>(
    servers: &Servers,
    pools: &[ConfigPool],
    server: ServerId,
    tree: &Tree,
    out: &mut W,
) -> io::Result<()>
    ensures { OnOk result (Appends (W.contents out.old) (W.contents out.new) (end_route_text servers.now pools.now server tree.now)) }
{
    write_end_line(pools, tree, out)?;
    write_change(servers, pools, server, tree, out)?;
    Ok(())
}

fn write_path<W: Write>(part: Phrase, out: &mut W) -> io::Result<()>
    ensures { OnOk result (Appends (W.contents out.old) (W.contents out.new) (spec.gap_phrase_text part)) }
{
    let part = text_of(part);
    write!(out, "{part}")
}

// Writes the rest of the path from a route on, and then the route.
#[cycle(site)]
fn write_site<W: Write>(
    servers: &Servers,
    pools: &[ConfigPool],
    server: ServerId,
    prefix: &[u8],
    tree: &Tree,
    out: &mut W,
) -> io::Result<()>
    ensures { OnOk result (Appends (W.contents out.old) (W.contents out.new) (site_text servers.now pools.now server prefix.now tree.now)) }
{
    match tree.form() {
        TreeForm::ByOperation { policies, default } => write_site_by(
            servers, pools, server, prefix, policies, default, out,
        ),
        TreeForm::ByPrefix { policies, wildcard } => {
            let longest = longest_begun(policies, wildcard, prefix);
            write_site_begun(
                servers, pools, server, prefix, longest, policies, wildcard, out,
            )
        }
        TreeForm::Pool(_) | TreeForm::Server(_) => write_end(servers, pools, server, tree, out),
        TreeForm::Null | TreeForm::Error => write_end(servers, pools, server, tree, out),
        TreeForm::AllSync(_) | TreeForm::Failover(_) => {
            write_end(servers, pools, server, tree, out)
        }
        TreeForm::MissFailover(_) | TreeForm::WarmUp { .. } => {
            write_end(servers, pools, server, tree, out)
        }
    }
}

// Writes the rest of the path by the first policy of deletes, else by the default.
#[cycle(site)]
fn write_site_by<W: Write>(
    servers: &Servers,
    pools: &[ConfigPool],
    server: ServerId,
    prefix: &[u8],
    policies: &[(Op, Tree)],
    default: &Tree,
    out: &mut W,
) -> io::Result<()>
    ensures { OnOk result (Appends (W.contents out.old) (W.contents out.new) (site_by servers.now pools.now server prefix.now (policies_of policies.now default.now))) }
{
    match policies {
        [] => {
            write_path(Phrase::DefaultPath, out)?;
            write_site(servers, pools, server, prefix, default, out)
        }
        [(op, child), rest @ ..] => {
            if is_op(*op, Op::Delete) {
                write_path(Phrase::DeletePath, out)?;
                write_site(servers, pools, server, prefix, child, out)
            } else {
                write_site_by(servers, pools, server, prefix, rest, default, out)
            }
        }
    }
}

fn write_policy_path<W: Write>(policy: &[u8], out: &mut W) -> io::Result<()>
    ensures { OnOk result (Appends (W.contents out.old) (W.contents out.new) (policy_path policy.now)) }
{
    let name = Pointed(policy);
    write!(out, "/policies/{name}")
}

// Writes the rest of the path by the policy of this length that begins the place's prefix, else by the wildcard.
#[cycle(site)]
fn write_site_begun<W: Write>(
    servers: &Servers,
    pools: &[ConfigPool],
    server: ServerId,
    prefix: &[u8],
    longest: usize,
    policies: &[(Key, Tree)],
    wildcard: &Tree,
    out: &mut W,
) -> io::Result<()>
    ensures { OnOk result (Appends (W.contents out.old) (W.contents out.new) (site_begun servers.now pools.now server prefix.now longest (prefixes_of policies.now wildcard.now))) }
{
    match policies {
        [] => {
            write_path(Phrase::WildcardPath, out)?;
            write_site(servers, pools, server, prefix, wildcard, out)
        }
        [(own, child), rest @ ..] => {
            let policy = own.as_bytes();
            if prefix.starts_with(policy) && policy.len() == longest {
                write_policy_path(policy, out)?;
                write_site(servers, pools, server, prefix, child, out)
            } else {
                write_site_begun(servers, pools, server, prefix, longest, rest, wildcard, out)
            }
        }
    }
}

/// Writes by which route of a configuration's tree the deletes of keys with this prefix go, as a path through its JSON text, and what
/// to change there so that they clear this server, and what else could be done. Each line is a comment of a script.
///
/// The prefix is that of a place. The format is mcgate's own.
pub fn write_changes<W: Write>(
    servers: &Servers,
    pools: &[ConfigPool],
    server: ServerId,
    prefix: &[u8],
    tree: &Tree,
    out: &mut W,
) -> io::Result<()>
    ensures { OnOk result (Appends (W.contents out.old) (W.contents out.new) (change_lines servers.now pools.now server prefix.now tree.now)) }
{
    write_path(Phrase::DeletesGo, out)?;
    write_site(servers, pools, server, prefix, tree, out)?;
    write_path(Phrase::Else, out)?;
    writeln!(out)?;
    Ok(())
}
