//! Whether a certificate has the shape of a table.

ghost use Rattle.std.specs.Prelude.{◌≡◌, ◌<◌, IfSome, length};
ghost use Rattle.gate_check.specs.Shapes.{is_rising, has_runs, is_shaped, first_misshaped};

use crate::places::{Class, ClassRows, Run};

// The runs rise from above this residue, below the modulus.
fn are_rising(last: u32, modulus: u32, runs: &[Run]) -> bool
    ensures { result ≡ is_rising last modulus runs.now }
{
    let mut before = last;
    for run in runs {
        if run.first <= before || modulus <= run.first {
            return false;
        }
        before = run.first;
    }
    true
}

// The first run begins at 0, and the others rise, below the modulus.
fn are_runs(modulus: u32, runs: &[Run]) -> bool
    ensures { result ≡ has_runs modulus runs.now }
{
    match runs {
        [] => false,
        [run, rest @ ..] => run.first == 0 && are_rising(0, modulus, rest),
    }
}

// Whether the rows have the class's modulus, and runs that begin at 0 and rise, below the modulus.
fn is_shaped(class: &Class, rows: &ClassRows) -> bool
    ensures { result ≡ is_shaped class.now rows.now }
{
    rows.modulus == class.modulus && are_runs(class.modulus, &rows.runs)
}

/// The first class of which the rows have the wrong shape.
pub fn misshaped(classes: &[Class], rows: &[ClassRows]) -> Option<usize>
    ensures first { result ≡ first_misshaped classes.now rows.now }
    ensures within { IfSome result (λ i. i < length classes.now) }
{
    match classes {
        [] => None,
        [class, classes @ ..] => match rows {
            [] => None,
            [own, rows @ ..] => {
                if is_shaped(class, own) {
                    match misshaped(classes, rows) {
                        None => None,
                        Some(index) => Some(index + 1),
                    }
                } else {
                    Some(0)
                }
            }
        },
    }
}
