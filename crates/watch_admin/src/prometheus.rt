//! Families in Prometheus' text format.

ghost use Rattle.std.specs.Prelude.{OnOk, ◌++◌, codes, decimal, flat_map};
ghost use Rattle.std.specs.Io.KnownBytes.{Appends};
ghost use Rattle.watch_admin.specs.Families.{amount_text};
ghost use Rattle.watch_admin.specs.Prometheus.{label_front, label_text, next_label_text, braced_text, sample_text, each_text, amount_line, spread_text, samples_text, help_text, type_text, family_text, families_text};

use crate::families::{Amount, Family, Label, Sample, Samples, Spread};
use crate::quoted::write_quoted;
use itoa::write_digits;
use std::io;
use std::io::Write;

// Writes `NAME="VALUE`, and what comes behind it.
fn write_label<W: Write>(label: &Label, end: &str, out: &mut W) -> io::Result<()>
    ensures { OnOk result (Appends (W.contents out.old) (W.contents out.new) (label_front label.now ++ end.now)) }
{
    out.write_all(label.name.as_bytes())?;
    out.write_all(b"=\"")?;
    write_quoted(label.value.as_str(), out)?;
    out.write_all(end.as_bytes())
}

// Writes `{NAME="VALUE"} `.
fn write_only<W: Write>(label: &Label, out: &mut W) -> io::Result<()>
    ensures { OnOk result (Appends (W.contents out.old) (W.contents out.new) (codes "{" ++ label_text label.now ++ codes "} ")) }
{
    out.write_all(b"{")?;
    write_label(label, "\"} ", out)
}

// Writes `{NAME="VALUE",NAME="VALUE"} `.
fn write_both<W: Write>(first: &Label, second: &Label, out: &mut W) -> io::Result<()>
    ensures { OnOk result (Appends (W.contents out.old) (W.contents out.new) (codes "{" ++ label_text first.now ++ next_label_text second.now ++ codes "} ")) }
{
    out.write_all(b"{")?;
    write_label(first, "\",", out)?;
    write_label(second, "\"} ", out)
}

// Writes `{LABELS} ` of at least one label.
fn write_all_labels<W: Write>(first: &Label, rest: &[Label], out: &mut W) -> io::Result<()>
    ensures { OnOk result (Appends (W.contents out.old) (W.contents out.new) (codes "{" ++ label_text first.now ++ flat_map next_label_text rest.now ++ codes "} ")) }
{
    out.write_all(b"{")?;
    write_label(first, "\"", out)?;
    for label in rest {
        out.write_all(b",")?;
        write_label(label, "\"", out)?;
    }
    out.write_all(b"} ")
}

// Writes `{LABELS} `, or a space where there are none. Most numbers have one label or two, for which few pieces are written.
fn write_labels<W: Write>(labels: &[Label], out: &mut W) -> io::Result<()>
    ensures { OnOk result (Appends (W.contents out.old) (W.contents out.new) (braced_text labels.now ++ codes " ")) }
{
    match labels {
        [] => out.write_all(b" "),
        [only] => write_only(only, out),
        [first, second] => write_both(first, second, out),
        [first, rest @ ..] => write_all_labels(first, rest, out),
    }
}

fn write_name<W: Write>(name: &str, part: &str, out: &mut W) -> io::Result<()>
    ensures { OnOk result (Appends (W.contents out.old) (W.contents out.new) (name.now ++ part.now)) }
{
    out.write_all(name.as_bytes())?;
    out.write_all(part.as_bytes())
}

// Writes the digits of a number, and a line's end.
fn write_count<W: Write>(count: u64, out: &mut W) -> io::Result<()>
    ensures { OnOk result (Appends (W.contents out.old) (W.contents out.new) (decimal count ++ codes "\n")) }
{
    let mut line = [b'\n'; 21];
    let start = write_digits(count, &mut line, 20);
    out.write_all(&line[start..])
}

// Writes a number, and a line's end. Most numbers are counts.
fn write_amount<W: Write>(amount: Amount, out: &mut W) -> io::Result<()>
    ensures { OnOk result (Appends (W.contents out.old) (W.contents out.new) (amount_text amount ++ codes "\n")) }
{
    match amount {
        Amount::Count(count) => write_count(count, out),
        amount => writeln!(out, "{amount}"),
    }
}

// Writes `NAMEPART{LABELS} AMOUNT`, or `NAMEPART AMOUNT` without labels.
fn write_sample<W: Write>(name: &str, part: &str, sample: &Sample, out: &mut W) -> io::Result<()>
    ensures { OnOk result (Appends (W.contents out.old) (W.contents out.new) (sample_text name.now part.now sample.now)) }
{
    write_name(name, part, out)?;
    write_labels(sample.labels.as_slice(), out)?;
    write_amount(sample.amount, out)
}

fn write_each<W: Write>(name: &str, part: &str, samples: &[Sample], out: &mut W) -> io::Result<()>
    ensures { OnOk result (Appends (W.contents out.old) (W.contents out.new) (each_text name.now part.now samples.now)) }
{
    for sample in samples {
        write_sample(name, part, sample, out)?;
    }
    Ok(())
}

fn write_one<W: Write>(name: &str, amount: Amount, out: &mut W) -> io::Result<()>
    ensures { OnOk result (Appends (W.contents out.old) (W.contents out.new) (amount_line name.now amount)) }
{
    writeln!(out, "{name} {amount}")
}

// Writes its buckets, its sums, and its counts.
fn write_spread<W: Write>(name: &str, spread: &Spread, out: &mut W) -> io::Result<()>
    ensures { OnOk result (Appends (W.contents out.old) (W.contents out.new) (spread_text name.now spread.now)) }
{
    write_each(name, "_bucket", spread.buckets.as_slice(), out)?;
    write_each(name, "_sum", spread.sums.as_slice(), out)?;
    write_each(name, "_count", spread.counts.as_slice(), out)
}

fn write_samples<W: Write>(name: &str, samples: &Samples, out: &mut W) -> io::Result<()>
    ensures { OnOk result (Appends (W.contents out.old) (W.contents out.new) (samples_text name.now samples.now)) }
{
    match samples {
        Samples::One(amount) => write_one(name, *amount, out),
        Samples::Each(samples) => write_each(name, "", samples.as_slice(), out),
        Samples::Times(spread) => write_spread(name, spread, out),
    }
}

// Writes the line of what a family tells.
fn write_help<W: Write>(family: &Family, out: &mut W) -> io::Result<()>
    ensures { OnOk result (Appends (W.contents out.old) (W.contents out.new) (help_text family.now)) }
{
    writeln!(out, "# HELP {} {}", family.name, family.help)
}

// Writes the line of its kind.
fn write_kind<W: Write>(family: &Family, out: &mut W) -> io::Result<()>
    ensures { OnOk result (Appends (W.contents out.old) (W.contents out.new) (type_text family.now)) }
{
    writeln!(out, "# TYPE {} {}", family.name, family.kind)
}

fn write_family<W: Write>(family: &Family, out: &mut W) -> io::Result<()>
    ensures { OnOk result (Appends (W.contents out.old) (W.contents out.new) (family_text family.now)) }
{
    write_help(family, out)?;
    write_kind(family, out)?;
    write_samples(family.name, &family.samples, out)
}

/// Writes families in Prometheus' text format, version 0.0.4: of each its help, its type, and a line for each number.
pub fn write_prometheus<W: Write>(families: &[Family], out: &mut W) -> io::Result<()>
    ensures { OnOk result (Appends (W.contents out.old) (W.contents out.new) (families_text families.now)) }
{
    for family in families {
        write_family(family, out)?;
    }
    Ok(())
}
