//! Families of numbers.

ghost use Rattle.std.specs.Prelude.{Some};
ghost use Rattle.watch_admin.specs.Families.{three_digits, amount_text, kind_text};

use std::fmt;
use std::fmt::Display;

/// A number.
#[derive(Clone, Copy, PartialEq, Eq)]
pub enum Amount {
    /// So many of what the family counts.
    Count(u64),
    /// So many milliseconds, told in seconds.
    Millis(u64),
    /// So many microseconds, told in seconds.
    Micros(u64),
}

/// What becomes of a number.
#[derive(Clone, Copy, PartialEq, Eq)]
pub enum MetricKind {
    /// It grows while the program runs.
    Counter,
    /// It goes up and down.
    Gauge,
    /// How often something took how long.
    Histogram,
}

/// What tells a number from others of its family.
#[derive(Drop)]
pub struct Label {
    /// Letters and `_`.
    pub name: &'static str,
    pub value: String,
}

/// A number and its labels.
#[derive(Drop)]
pub struct Sample {
    /// None only where it tells of times.
    pub labels: Vec<Label>,
    pub amount: Amount,
}

/// The numbers of a family.
#[derive(Drop)]
pub enum Samples {
    /// The only one, without a label.
    One(Amount),
    /// Those that have labels, which are of the same names.
    Each(Vec<Sample>),
    /// How often something took how long.
    Times(Spread),
}

/// How often something took how long.
#[derive(Drop)]
pub struct Spread {
    /// How often it took no longer than the label `le` says, in seconds.
    pub buckets: Vec<Sample>,
    /// How long it took altogether.
    pub sums: Vec<Sample>,
    /// How often it was.
    pub counts: Vec<Sample>,
}

/// Numbers that tell of one thing.
#[derive(Drop)]
pub struct Family {
    /// Letters and `_`.
    pub name: &'static str,
    pub kind: MetricKind,
    /// What they tell, in a line without a backslash.
    pub help: &'static str,
    pub samples: Samples,
}

// The last three digits of a number.
#[derive(Drop)]
struct ThreeDigits(u64);

impl Display for ThreeDigits {
    ghost output = { λ d. Some (three_digits d.0) };

    fn fmt<W: fmt::Write>(&self, f: &mut fmt::Formatter<W>) -> fmt::Result {
        let hundreds = self.0 / 100 % 10;
        let tens = self.0 / 10 % 10;
        let ones = self.0 % 10;
        write!(f, "{hundreds}{tens}{ones}")
    }
}

/// The digits of a number; milliseconds are told in seconds, to the third place after the point, and microseconds to the sixth.
impl Display for Amount {
    ghost output = { λ a. Some (amount_text a) };

    fn fmt<W: fmt::Write>(&self, f: &mut fmt::Formatter<W>) -> fmt::Result {
        match *self {
            Amount::Count(count) => write!(f, "{count}"),
            Amount::Millis(millis) => {
                let seconds = millis / 1000;
                let rest = ThreeDigits(millis);
                write!(f, "{seconds}.{rest}")
            }
            Amount::Micros(micros) => {
                let seconds = micros / 1_000_000;
                let millis = ThreeDigits(micros / 1000);
                let rest = ThreeDigits(micros);
                write!(f, "{seconds}.{millis}{rest}")
            }
        }
    }
}

/// `counter`, `gauge` or `histogram`.
impl Display for MetricKind {
    ghost output = { λ k. Some (kind_text k) };

    fn fmt<W: fmt::Write>(&self, f: &mut fmt::Formatter<W>) -> fmt::Result {
        match *self {
            MetricKind::Counter => f.write_str("counter"),
            MetricKind::Gauge => f.write_str("gauge"),
            MetricKind::Histogram => f.write_str("histogram"),
        }
    }
}
