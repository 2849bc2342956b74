//! Reads a line of a history.

ghost use Rattle.std.specs.Prelude.{◌≡◌, ◌≢◌, ℕ, List, IfOk, MatchOption, MatchResult};
ghost use Rattle.gate_growth.specs.declared.ledger.page.Beginning.{Beginning};
ghost use Rattle.gate_history.specs.Spelled.{body_of, summed};
ghost use Rattle.gate_history.specs.Lines.{Lacks, IsCutAt, LineIsSaid, IsBadLine};

use crate::spelled::{front_of, head_of};
use gate_growth::ledger::Beginning;
use route_json::names::rest_after;
use std::alloc::{AllocError, Global};

/// What a line says of a generation.
#[derive(Clone, Copy)]
pub struct Said<'a> {
    pub began: Beginning,
    /// The text of its configuration.
    pub config: &'a str,
}

/// Why a line says no generation.
#[derive(Clone, Copy)]
pub enum BadLine {
    /// Its sum isn't that of what it says: it was edited, or a part of it is lost.
    Edited,
    /// It isn't of the generation that comes next, or of another form.
    OutOfOrder,
    /// Memory was refused.
    NoMemory,
}

impl From<AllocError> for BadLine {
    ghost use Rattle.std.specs.Prelude.{◌≡◌};
    ghost use Rattle.gate_history.specs.declared.lines.BadLine.TheVariants.{NoMemory};

    ghost from_gives = { λ _ e. e ≡ NoMemory };

    fn from(_error: AllocError) -> BadLine {
        BadLine::NoMemory
    }
}

/// The first line of a text and what follows its line end; `None` where no line is ended.
pub fn cut_line(text: &str) -> Option<(&str, &str)>
    ensures { MatchOption result (Lacks 10 text.now) (λ cut. IsCutAt 10 text.now cut.0.now cut.1.now) }
{
    text.split_once('\n')
}

// The text before the first comma and what follows it; `None` where there is none.
fn cut_comma(text: &str) -> Option<(&str, &str)>
    ensures { MatchOption result (Lacks 44 text.now) (λ cut. IsCutAt 44 text.now cut.0.now cut.1.now) }
{
    text.split_once(',')
}

// The part of a line after its sum, where that is right.
fn body_of(alloc: Global, line: &str) -> Result<Option<&str>, AllocError>
    ensures { IfOk result (λ found. MatchOption found ((body : List ℕ) → line.now ≢ summed body) (λ body. line.now ≡ summed body.now)) }
{
    match cut_comma(line) {
        None => Ok(None),
        Some((front, body)) => {
            let wanted = front_of(alloc, body)?;
            if wanted.as_str() == front {
                Ok(Some(body))
            } else {
                Ok(None)
            }
        }
    }
}

// The configuration's text in the part of a line after its sum, where it is of this generation, and its new servers began so.
fn config_in(
    alloc: Global,
    generation: u32,
    began: Beginning,
    body: &str,
) -> Result<Option<&str>, AllocError>
    ensures { IfOk result (λ found. MatchOption found ((config : List ℕ) → body.now ≢ body_of generation began config) (λ config. body.now ≡ body_of generation began config.now)) }
{
    let head = head_of(alloc, generation, began)?;
    match rest_after(head.as_str(), body) {
        None => Ok(None),
        Some(rest) => Ok(rest.strip_suffix('}')),
    }
}

// What the part of a line after its sum says.
fn said_in(alloc: Global, generation: u32, body: &str) -> Result<Option<Said<'_>>, AllocError>
    ensures { IfOk result (λ found. MatchOption found ((began : Beginning) (config : List ℕ) → body.now ≢ body_of generation began config) (λ said. body.now ≡ body_of generation said.began said.config.now)) }
{
    if let Some(config) = config_in(alloc, generation, Beginning::Any, body)? {
        let began = Beginning::Any;
        return Ok(Some(Said { began, config }));
    }
    match config_in(alloc, generation, Beginning::Own, body)? {
        None => Ok(None),
        Some(config) => {
            let began = Beginning::Own;
            Ok(Some(Said { began, config }))
        }
    }
}

/// What a line says of the generation of this number, or why it doesn't.
pub fn read_line(alloc: Global, generation: u32, line: &str) -> Result<Said<'_>, BadLine>
    ensures { MatchResult result (LineIsSaid generation line.now) (IsBadLine generation line.now) }
{
    match body_of(alloc, line)? {
        None => Err(BadLine::Edited),
        Some(body) => match said_in(alloc, generation, body)? {
            None => Err(BadLine::OutOfOrder),
            Some(said) => Ok(said),
        },
    }
}
