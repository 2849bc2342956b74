//! The line of a verdict, and the exit status.

ghost use Rattle.std.specs.Prelude.{◌≡◌, IfOk, OnOk};
ghost use Rattle.std.specs.Io.KnownBytes.{Appends};
ghost use Rattle.gate_certificate.specs.Verdict.{TellsVerified, status_of, verified_line};

use crate::verdict::Verdict;
use gate_check::places::places;
use gate_check::{Gap, Reason};
use gate_coverage::Deleting;
use gate_coverage::prefixes::prefix_text;
use mc_types::Op;
use route_json::Config;
use route_tree::{Place, Tree};
use std::alloc::Global;
use std::io;
use std::io::Write;
use text_words::escapes::Escaped;

/// The exit status of a certificate that is valid.
pub const VERIFIED: u8 = 0;

/// The exit status where the tree is refused by the certificate.
pub const REFUSED: u8 = 1;

/// The exit status where a text isn't what it should be.
pub const BAD_INPUT: u8 = 2;

// The name of an operation that reads.
fn read_name(op: Op) -> &'static str {
    match op {
        Op::Gat => "gat",
        Op::Incr => "incr",
        Op::Decr => "decr",
        _ => "get",
    }
}

fn delete_name(deleting: Deleting) -> &'static str {
    match deleting {
        Deleting::Delete => "delete",
        Deleting::Md => "md",
    }
}

// The place of a row of the tree's table; `None` where there is no such row.
fn place_of(alloc: Global, tree: &Tree, row: u32) -> Option<Place> {
    match places(alloc, tree) {
        Ok(table) if row < table.rows() => Some(table.place(row)),
        _ => None,
    }
}

fn tell_place<W: Write>(place: &Place, out: &mut W) -> io::Result<()> {
    let prefix = Escaped(prefix_text(&place.prefix));
    let residue = place.residue;
    let modulus = place.modulus;
    writeln!(out, " prefix={prefix} residue={residue}/{modulus}")
}

// A gap: no certificate is valid for the tree.
fn tell_gap<W: Write>(config: &Config, gap: &Gap, out: &mut W) -> io::Result<()> {
    let address = Escaped(config.servers().get(gap.server).unwrap_or("").as_bytes());
    let read = read_name(gap.op);
    let delete = delete_name(gap.deleting);
    write!(out, "refused: server={address} read={read} delete={delete}")?;
    tell_place(&gap.place, out)
}

// A row that isn't valid.
fn tell_row<W: Write>(alloc: Global, config: &Config, row: u32, out: &mut W) -> io::Result<()> {
    write!(out, "refused: bad certificate row {row}")?;
    match place_of(alloc, config.tree(), row) {
        Some(place) => tell_place(&place, out),
        None => writeln!(out, ": the tree has no such place"),
    }
}

fn tell_refused<W: Write>(
    alloc: Global,
    config: &Config,
    reason: &Reason,
    out: &mut W,
) -> io::Result<()> {
    match reason {
        Reason::TooManyPlaces => writeln!(out, "refused: too many places"),
        Reason::BadCertificate(row) => tell_row(alloc, config, *row, out),
        Reason::Uncovered(gap) => tell_gap(config, gap, out),
        Reason::NoMemory => writeln!(out, "refused: out of memory"),
    }
}

// All is well.
fn tell_verified<W: Write>(
    places: u32,
    config: &str,
    certificate: &str,
    out: &mut W,
) -> io::Result<()>
    ensures { OnOk result (Appends (W.contents out.old) (W.contents out.new) (verified_line config.now certificate.now places)) }
{
    writeln!(
        out,
        "verified: {config} is fresh by {certificate}, places={places}"
    )
}

/// Writes the line of a verdict on the files of these names, and answers the exit status.
pub fn tell<W: Write>(
    alloc: Global,
    verdict: &Verdict,
    config: &str,
    certificate: &str,
    out: &mut W,
) -> io::Result<u8>
    ensures status { IfOk result (λ status. status ≡ status_of verdict.now) }
    ensures verified { IfOk result (λ _. TellsVerified verdict.now config.now certificate.now (W.contents out.old) (W.contents out.new)) }
{
    match verdict {
        Verdict::Verified(places) => {
            tell_verified(*places, config, certificate, out)?;
            Ok(VERIFIED)
        }
        Verdict::Refused(given, reason) => {
            tell_refused(alloc, given, reason, out)?;
            Ok(REFUSED)
        }
        Verdict::NoCertificate(fault) => {
            writeln!(
                out,
                "certificate: {fault}: write it anew with mcgate certify {config}"
            )?;
            Ok(BAD_INPUT)
        }
        Verdict::NoConfig(fault) => {
            writeln!(out, "config: {fault}: mcgate check {config} says more")?;
            Ok(BAD_INPUT)
        }
    }
}
