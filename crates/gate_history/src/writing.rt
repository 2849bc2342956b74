//! Writes the line of a generation.

ghost use Rattle.std.specs.Prelude.{◌≡◌, None, IfErr, IfOk, string_bytes};
ghost use Rattle.serde_json.specs.Read.{read};
ghost use Rattle.gate_history.specs.declared.writing.LineFault.TheVariants as faults;
ghost use Rattle.gate_history.specs.Spelled.{body_of, summed};
ghost use Rattle.gate_history.specs.Written.{IsLineFor};

use crate::lines::cut_line;
use crate::spelled::{front_of, head_of};
use gate_growth::ledger::Beginning;
use serde_json::Value;
use std::alloc::{AllocError, Global};

/// Why no line was written.
#[derive(Clone, Copy)]
pub enum LineFault {
    /// The text of the configuration is no JSON.
    NotJson,
    /// Its JSON takes more than a line. It never does; only no clause of the writer of JSON says so.
    SeveralLines,
    /// Memory was refused.
    NoMemory,
}

impl From<AllocError> for LineFault {
    ghost use Rattle.std.specs.Prelude.{◌≡◌};
    ghost use Rattle.gate_history.specs.declared.writing.LineFault.TheVariants.{NoMemory};

    ghost from_gives = { λ _ e. e ≡ NoMemory };

    fn from(_error: AllocError) -> LineFault {
        LineFault::NoMemory
    }
}

// The JSON of a text without spaces.
fn compact(alloc: Global, text: &str) -> Result<String, LineFault>
    ensures ok { IfOk result (λ said. read (string_bytes said) ≡ read text.now) }
    ensures err { IfErr result (λ fault. fault ≡ faults.NotJson → read text.now ≡ None) }
{
    match Value::from_str(alloc, text) {
        Ok(value) => Ok(value.to_string(alloc)?),
        Err(error) => {
            if error.is_memory() {
                Err(LineFault::NoMemory)
            } else {
                Err(LineFault::NotJson)
            }
        }
    }
}

// The part of a line that its sum is of. The only error is that memory was refused.
fn spelled_body(
    alloc: Global,
    generation: u32,
    began: Beginning,
    said: &str,
) -> Result<String, AllocError>
    ensures { IfOk result (λ body. string_bytes body ≡ body_of generation began said.now) }
{
    let mut body = head_of(alloc, generation, began)?;
    body.push_str(said)?;
    body.push_str("}")?;
    Ok(body)
}

// A part of a line with its sum before it. The only error is that memory was refused.
fn with_sum(alloc: Global, body: &str) -> Result<String, AllocError>
    ensures { IfOk result (λ line. string_bytes line ≡ summed body.now) }
{
    let mut line = front_of(alloc, body)?;
    line.push_str(",")?;
    line.push_str(body)?;
    Ok(line)
}

/// The line, with its end, of the generation of this number whose configuration stands in its file as the text says, and whose new
/// servers began so. It is to be put at the end of the history.
pub fn write_line(
    alloc: Global,
    generation: u32,
    began: Beginning,
    text: &str,
) -> Result<String, LineFault>
    ensures line { IfOk result (λ line. IsLineFor generation began text.now (string_bytes line)) }
    ensures no_json { IfErr result (λ fault. fault ≡ faults.NotJson → read text.now ≡ None) }
{
    let said = compact(alloc, text)?;
    let body = spelled_body(alloc, generation, began, said.as_str())?;
    let mut line = with_sum(alloc, body.as_str())?;
    if cut_line(line.as_str()).is_some() {
        return Err(LineFault::SeveralLines);
    }
    line.push_str("\n")?;
    Ok(line)
}
