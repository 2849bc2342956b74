//! What is printed of a configuration, and then in words why it is refused.

ghost use Rattle.std.specs.Prelude.{[], ◌∷◌, ◌≡◌, IfOk, IfErr, IfSome, OnOk};
ghost use Rattle.std.specs.Io.KnownBytes.{Appends};
ghost use Rattle.gate_check.specs.Gate.{IsCertified, IsJudged};
ghost use Rattle.gate_check.specs.Tables.{IsTable};
ghost use Rattle.gate_check.specs.declared.gap.Reason.TheVariants as reasons;
ghost use Rattle.mcgate_lines.specs.Faults.{StopsUnwritten};
ghost use Rattle.mcgate_check.specs.Explaining as told;
ghost use Rattle.mcgate_check.specs.Explaining.{ExplainsAccepted, ExplainsRefused, AreWordsFor, ExplainsFault, accepted_words, number_front, number_line, script_words, gap_words, words_text};
ghost use Rattle.gate_gaps.specs.Explanations as gaps;
ghost use Rattle.route_tree.specs.Place.{tree_at_place};

use crate::checking::{print_accepted_by, print_found, run_of};
use gate_check::places::PlaceTable;
use gate_check::{Gap, Reason};
use gate_coverage::prefixes::prefix_text;
use gate_gaps::pool_words::write_server;
use gate_gaps::{ConfigPool, Explanation, explain, read_pools, write_changes, write_explanation};
use mc_types::ServerId;
use mcgate_lines::status::RunFault;
use route_json::{Config, Servers};
use route_tree::Tree;
use script_events::Script;
use std::alloc::{AllocError, Global};
use std::io;
use std::io::Write;

/// Why a configuration is refused.
#[derive(Drop)]
pub enum Words {
    OfGap(Gap, Explanation),
    OfPlaces,
    None,
}

/// What is told of a refused configuration: why, the script that shows it, and the names of the pools.
#[derive(Drop)]
pub struct ToldFault {
    pub pools: Vec<ConfigPool>,
    pub run: Option<Script>,
    pub words: Words,
}

/// Why the gap is one.
pub(crate) fn gap_explained(
    alloc: Global,
    tree: &Tree,
    gap: &Gap,
) -> Result<Explanation, AllocError>
    requires { IsJudged tree.now (reasons.Uncovered gap.now) }
    ensures { IfOk result (gaps.Explains (tree_at_place tree.now gap.now.place) gap.now.op gap.now.server gap.now.deleting) }
{
    let plain = tree.at_place(alloc, &gap.place)?;
    explain(alloc, &plain, gap.op, gap.server, gap.deleting)
}

// Why the configuration is refused.
fn words_of(alloc: Global, config: &Config, reason: &Reason) -> Result<Words, AllocError>
    requires { IsJudged config.now.tree reason.now }
    ensures { IfOk result (AreWordsFor config.now reason.now) }
{
    match reason {
        Reason::Uncovered(gap) => {
            let explanation = gap_explained(alloc, config.tree(), gap)?;
            Ok(Words::OfGap(*gap, explanation))
        }
        Reason::TooManyPlaces => Ok(Words::OfPlaces),
        _ => Ok(Words::None),
    }
}

// What helps where a tree has too many places.
#[tactic(auto, unfolding(crate::specs::Explaining::places_words))]
fn places_words() -> &'static str
    ensures { result.now ≡ told.places_words }
{
    "# to change: pools whose sizes share divisors, such as 1,024 and 1,024 in place of 1,023 and 1,024"
}

// What an accepted tree is.
#[tactic(auto, unfolding(crate::specs::Explaining::fresh_words))]
fn fresh_words() -> &'static str
    ensures { result.now ≡ told.fresh_words }
{
    "# no reply shows what was stored before an acknowledged delete of its key, whatever fails"
}

fn write_number_front<W: Write>(server: ServerId, out: &mut W) -> io::Result<()>
    ensures { OnOk result (Appends (W.contents out.old) (W.contents out.new) (number_front server)) }
{
    let number = server.number();
    write!(out, "# in the script, server {number} is ")
}

// Which server the number is that the script of a gap names.
fn write_number<W: Write>(
    servers: &Servers,
    pools: &[ConfigPool],
    server: ServerId,
    out: &mut W,
) -> io::Result<()>
    ensures { OnOk result (Appends (W.contents out.old) (W.contents out.new) (number_line servers.now pools.now server)) }
{
    write_number_front(server, out)?;
    write_server(servers, pools, server, out)?;
    writeln!(out)?;
    Ok(())
}

// Which server the number is that the script of a gap names, if there is a script.
fn write_script_words<W: Write>(
    servers: &Servers,
    pools: &[ConfigPool],
    server: ServerId,
    run: &Option<Script>,
    out: &mut W,
) -> io::Result<()>
    ensures { OnOk result (Appends (W.contents out.old) (W.contents out.new) (script_words servers.now pools.now server run.now)) }
{
    match run {
        Some(_) => write_number(servers, pools, server, out),
        None => Ok(()),
    }
}

// The lines of a gap.
fn write_gap_words<W: Write>(
    servers: &Servers,
    tree: &Tree,
    pools: &[ConfigPool],
    run: &Option<Script>,
    gap: &Gap,
    explanation: &Explanation,
    out: &mut W,
) -> io::Result<()>
    ensures { OnOk result (Appends (W.contents out.old) (W.contents out.new) (gap_words servers.now tree.now pools.now run.now gap.now explanation.now)) }
{
    let server = gap.server;
    let prefix = prefix_text(&gap.place.prefix);
    write_script_words(servers, pools, server, run, out)?;
    write_explanation(
        servers,
        pools,
        gap.op,
        server,
        gap.deleting,
        explanation,
        out,
    )?;
    write_changes(servers, pools, server, prefix, tree, out)?;
    Ok(())
}

fn write_words<W: Write>(
    servers: &Servers,
    tree: &Tree,
    pools: &[ConfigPool],
    run: &Option<Script>,
    words: &Words,
    out: &mut W,
) -> io::Result<()>
    ensures { OnOk result (Appends (W.contents out.old) (W.contents out.new) (words_text servers.now tree.now pools.now run.now words.now)) }
{
    match words {
        Words::OfGap(gap, explanation) => {
            write_gap_words(servers, tree, pools, run, gap, explanation, out)
        }
        Words::OfPlaces => {
            let text = places_words();
            writeln!(out, "{text}")
        }
        Words::None => Ok(()),
    }
}

// What is told of a configuration that this text means.
fn told_of(
    alloc: Global,
    text: &str,
    config: &Config,
    table: Option<&PlaceTable>,
    reason: &Reason,
) -> Result<ToldFault, AllocError>
    requires judged { IsJudged config.now.tree reason.now }
    requires table { IfSome table (λ table. IsTable (config.now.tree ∷ []) table.now) }
    ensures { IfOk result (ExplainsFault text.now config.now reason.now) }
{
    let words = words_of(alloc, config, reason)?;
    let run = run_of(alloc, config, table, reason)?;
    let pools = read_pools(alloc, text, config.servers())?;
    Ok(ToldFault { pools, run, words })
}

// Writes why a configuration is refused, the script that shows it, and the words.
fn print_told<W: Write>(
    text: &str,
    config: &Config,
    reason: &Reason,
    told: &ToldFault,
    out: &mut W,
) -> Result<u8, RunFault>
    requires judged { IsJudged config.now.tree reason.now }
    requires told { ExplainsFault text.now config.now reason.now told.now }
    ensures ok { IfOk result (λ status. (status ≡ 1) × ExplainsRefused text.now config.now reason.now (W.contents out.old) (W.contents out.new)) }
    ensures err { IfErr result (StopsUnwritten (W.contents out.old) (W.contents out.new)) }
{
    let _text = text;
    let status = print_found(config, reason, &told.run, out)?;
    write_words(
        config.servers(),
        config.tree(),
        &told.pools,
        &told.run,
        &told.words,
        out,
    )?;
    Ok(status)
}

/// Writes why a configuration, which this text means, is refused, the script that shows it, and the words. The table of its tree's
/// places is used if it was made. All that needs memory is done before anything is written.
pub(crate) fn explain_refused<W: Write>(
    alloc: Global,
    text: &str,
    config: &Config,
    table: Option<&PlaceTable>,
    reason: &Reason,
    out: &mut W,
) -> Result<u8, RunFault>
    requires judged { IsJudged config.now.tree reason.now }
    requires table { IfSome table (λ table. IsTable (config.now.tree ∷ []) table.now) }
    ensures ok { IfOk result (λ status. (status ≡ 1) × ExplainsRefused text.now config.now reason.now (W.contents out.old) (W.contents out.new)) }
    ensures err { IfErr result (StopsUnwritten (W.contents out.old) (W.contents out.new)) }
{
    let told = told_of(alloc, text, config, table, reason)?;
    print_told(text, config, reason, &told, out)
}

fn write_fresh<W: Write>(out: &mut W) -> io::Result<()>
    ensures { OnOk result (Appends (W.contents out.old) (W.contents out.new) accepted_words) }
{
    let text = fresh_words();
    writeln!(out, "{text}")
}

/// Writes that a tree is accepted, whose table of places this is, and what that is.
pub(crate) fn explain_accepted<W: Write>(
    tree: &Tree,
    table: &PlaceTable,
    out: &mut W,
) -> Result<u8, RunFault>
    requires certified { IsCertified tree.now }
    requires table { IsTable (tree.now ∷ []) table.now }
    ensures ok { IfOk result (λ status. (status ≡ 0) × ExplainsAccepted tree.now (W.contents out.old) (W.contents out.new)) }
    ensures err { IfErr result (StopsUnwritten (W.contents out.old) (W.contents out.new)) }
{
    let status = print_accepted_by(tree, table, out)?;
    write_fresh(out)?;
    Ok(status)
}
