//! How `mcgate certify` ends.

ghost use Rattle.mcgate_check.specs.Certifying.{Certifies};
ghost use Rattle.mcgate_args.specs.Program.{WritesNothing};
ghost use Rattle.mcgate_ends.specs.Ends.{AnswersBy, NeverOverruns, RunsText};

use mcgate_check::certifying::run_certify;
use mcgate_ends::ends::{Stop, decline, ended};
use mcgate_ends::input_text::InputFault;
use std::alloc::Global;
use std::io::Write;

fn certify_text<W: Write>(alloc: Global, text: &str, out: &mut W) -> Result<u8, Stop>
    ensures { RunsText Certifies WritesNothing NeverOverruns text.now (W.contents out.old) (W.contents out.new) result }
{
    ended(run_certify(alloc, text, out))
}

/// Prints a certificate of the tree of an input, or why there is none. The answer and the faults are as those of
/// [`crate::ends::run_input`].
pub fn certify_input<W: Write>(
    alloc: Global,
    input: &Result<String, InputFault>,
    out: &mut W,
) -> Result<u8, Stop>
    ensures { AnswersBy Certifies WritesNothing NeverOverruns input.now (W.contents out.old) (W.contents out.new) result }
{
    match input {
        Ok(text) => certify_text(alloc, text.as_str(), out),
        Err(fault) => decline(*fault, out),
    }
}
