//! Reads a history.

ghost use Rattle.std.specs.Prelude.{◌≡◌, ℕ, List, [], ◌∷◌, ◌++◌, MatchResult};
ghost use Rattle.gate_history.specs.declared.generation.Generation.{Generation};
ghost use Rattle.gate_history.specs.Histories.{IsHistoryOf, Says, servers_after};
ghost use Rattle.gate_history.specs.Judged.{IsNoHistory, IsLineFault};
ghost use Rattle.gate_history.specs.Lines.{IsBadLine};

use crate::fault::HistoryFault;
use crate::generation::Generation;
use crate::history::History;
use crate::lines::{BadLine, cut_line, read_line};
use route_json::read_config_after;
use std::alloc::Global;

// The fault of a bad line.
fn line_fault(number: u32, bad: BadLine) -> HistoryFault
    ensures { (gs : List Generation) (line : List ℕ) → IsBadLine number line bad → IsLineFault gs number line result }
{
    match bad {
        BadLine::Edited => HistoryFault::Edited(number),
        BadLine::OutOfOrder => HistoryFault::OutOfOrder(number),
        BadLine::NoMemory => HistoryFault::NoMemory,
    }
}

// The generation that the line of this number says.
fn generation_in(
    alloc: Global,
    history: &History,
    number: u32,
    line: &str,
) -> Result<Generation, HistoryFault>
    ensures { MatchResult result (λ g. Says number (servers_after [] history.now) g line.now) (IsLineFault history.now number line.now) }
{
    let said = match read_line(alloc, number, line) {
        Ok(said) => said,
        Err(bad) => return Err(line_fault(number, bad)),
    };
    let servers = history.servers(alloc)?;
    match read_config_after(alloc, servers, said.config) {
        Ok(config) => Ok(Generation {
            config,
            began: said.began,
        }),
        Err(fault) => Err(HistoryFault::Config(number, fault)),
    }
}

// The history with the line's generation as the next one.
fn next(alloc: Global, history: History, number: u32, line: &str) -> Result<History, HistoryFault>
    ensures { MatchResult result (λ new. (g : Generation) × Says number (servers_after [] history) g line.now × (new ≡ history ++ g ∷ [])) (IsLineFault history number line.now) }
{
    let generation = generation_in(alloc, &history, number, line)?;
    match history.with(alloc, generation.config, generation.began) {
        Ok(history) => Ok(history),
        Err(unsound) => Err(HistoryFault::Refused(number, unsound)),
    }
}

/// The history that a text says, or its first fault. Nothing at all is the history of no generation.
pub fn read_history(alloc: Global, text: &str) -> Result<History, HistoryFault>
    ensures { MatchResult result (λ history. IsHistoryOf history text.now) (IsNoHistory text.now) }
{
    let mut history = History::new(alloc)?;
    let mut rest = text;
    while !rest.is_empty() {
        let number = match history.next_number() {
            Some(number) => number,
            None => return Err(HistoryFault::TooManyLines),
        };
        match cut_line(rest) {
            None => return Err(HistoryFault::Torn(number)),
            Some((line, left)) => {
                history = next(alloc, history, number, line)?;
                rest = left;
            }
        }
    }
    Ok(history)
}
