//! Families as a JSON object.

ghost use Rattle.std.specs.Prelude.{OnOk};
ghost use Rattle.std.specs.Io.KnownBytes.{Appends};
ghost use Rattle.watch_admin.specs.Json.{label_json, labels_json, sample_json, each_json, array_json, buckets_json, sums_json, counts_json, spread_json, samples_json, family_json, families_json, object_json};

use crate::families::{Family, Label, Sample, Samples, Spread};
use crate::quoted::Quoted;
use std::io;
use std::io::Write;

// Writes `"NAME":"VALUE",`.
fn write_label<W: Write>(label: &Label, out: &mut W) -> io::Result<()>
    ensures { OnOk result (Appends (W.contents out.old) (W.contents out.new) (label_json label.now)) }
{
    let name = Quoted(label.name);
    let value = Quoted(label.value.as_str());
    write!(out, "{name}:{value},")
}

fn write_labels<W: Write>(labels: &[Label], out: &mut W) -> io::Result<()>
    ensures { OnOk result (Appends (W.contents out.old) (W.contents out.new) (labels_json labels.now)) }
{
    for label in labels {
        write_label(label, out)?;
    }
    Ok(())
}

// Writes an object of the labels and the number.
fn write_sample<W: Write>(sample: &Sample, out: &mut W) -> io::Result<()>
    ensures { OnOk result (Appends (W.contents out.old) (W.contents out.new) (sample_json sample.now)) }
{
    out.write_all(b"{")?;
    write_labels(sample.labels.as_slice(), out)?;
    let amount = sample.amount;
    write!(out, "\"value\":{amount}}}")
}

// Writes the objects, with a comma between two.
fn write_each<W: Write>(samples: &[Sample], out: &mut W) -> io::Result<()>
    ensures { OnOk result (Appends (W.contents out.old) (W.contents out.new) (each_json samples.now)) }
{
    let Some((first, rest)) = samples.split_first() else {
        return Ok(());
    };
    write_sample(first, out)?;
    for sample in rest {
        out.write_all(b",")?;
        write_sample(sample, out)?;
    }
    Ok(())
}

fn write_array<W: Write>(samples: &[Sample], out: &mut W) -> io::Result<()>
    ensures { OnOk result (Appends (W.contents out.old) (W.contents out.new) (array_json samples.now)) }
{
    out.write_all(b"[")?;
    write_each(samples, out)?;
    out.write_all(b"]")
}

// Writes `{"le":[..]`.
#[tactic(auto, unfolding(crate::specs::Json::buckets_json))]
fn write_buckets<W: Write>(spread: &Spread, out: &mut W) -> io::Result<()>
    ensures { OnOk result (Appends (W.contents out.old) (W.contents out.new) (buckets_json spread.now)) }
{
    write!(out, "{{\"le\":")?;
    write_array(spread.buckets.as_slice(), out)
}

// Writes `,"sum":[..]`.
#[tactic(auto, unfolding(crate::specs::Json::sums_json))]
fn write_sums<W: Write>(spread: &Spread, out: &mut W) -> io::Result<()>
    ensures { OnOk result (Appends (W.contents out.old) (W.contents out.new) (sums_json spread.now)) }
{
    write!(out, ",\"sum\":")?;
    write_array(spread.sums.as_slice(), out)
}

// Writes `,"n":[..]}`.
#[tactic(auto, unfolding(crate::specs::Json::counts_json))]
fn write_counts<W: Write>(spread: &Spread, out: &mut W) -> io::Result<()>
    ensures { OnOk result (Appends (W.contents out.old) (W.contents out.new) (counts_json spread.now)) }
{
    write!(out, ",\"n\":")?;
    write_array(spread.counts.as_slice(), out)?;
    out.write_all(b"}")
}

// Writes `{"le":[..],"sum":[..],"n":[..]}`.
fn write_spread<W: Write>(spread: &Spread, out: &mut W) -> io::Result<()>
    ensures { OnOk result (Appends (W.contents out.old) (W.contents out.new) (spread_json spread.now)) }
{
    write_buckets(spread, out)?;
    write_sums(spread, out)?;
    write_counts(spread, out)
}

fn write_samples<W: Write>(samples: &Samples, out: &mut W) -> io::Result<()>
    ensures { OnOk result (Appends (W.contents out.old) (W.contents out.new) (samples_json samples.now)) }
{
    match samples {
        Samples::One(amount) => write!(out, "{amount}"),
        Samples::Each(samples) => write_array(samples.as_slice(), out),
        Samples::Times(spread) => write_spread(spread, out),
    }
}

// Writes `"NAME":` and the number or the numbers.
fn write_family<W: Write>(family: &Family, out: &mut W) -> io::Result<()>
    ensures { OnOk result (Appends (W.contents out.old) (W.contents out.new) (family_json family.now)) }
{
    let name = Quoted(family.name);
    write!(out, "{name}:")?;
    write_samples(&family.samples, out)
}

// Writes the families, with a comma and a line end between two.
fn write_families<W: Write>(families: &[Family], out: &mut W) -> io::Result<()>
    ensures { OnOk result (Appends (W.contents out.old) (W.contents out.new) (families_json families.now)) }
{
    let Some((first, rest)) = families.split_first() else {
        return Ok(());
    };
    write_family(first, out)?;
    for family in rest {
        write!(out, ",\n")?;
        write_family(family, out)?;
    }
    Ok(())
}

/// Writes families as a JSON object, a line for each: under its name is its only number, or an array of objects, each with the labels
/// of a number and the number under `value`, or an object of three such arrays.
pub fn write_json<W: Write>(families: &[Family], out: &mut W) -> io::Result<()>
    ensures { OnOk result (Appends (W.contents out.old) (W.contents out.new) (object_json families.now)) }
{
    out.write_all(b"{")?;
    write_families(families, out)?;
    writeln!(out, "}}")
}
