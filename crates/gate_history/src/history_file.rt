//! A history, and the text of its file.

ghost use Rattle.std.specs.Prelude.{◌≡◌, ◌+◌, ℕ, List, [], ◌++◌, length, IsTrue, IfOk, IfErr, MatchResult, OnErr, OnOk, string_bytes};
ghost use Rattle.gate_growth.specs.declared.ledger.page.Beginning.{Beginning};
ghost use Rattle.gate_history.specs.declared.generation.Generation.{Generation};
ghost use Rattle.gate_history.specs.Judged.{IsNoHistory};
ghost use Rattle.gate_history.specs.Standing.{StandsInHistory, SaysNext, IsNoNext};
ghost use Rattle.gate_history.specs.Written.{IsLineFor};

use crate::fault::{HistoryFault, NextFault};
use crate::history::History;
use crate::reading::read_history;
use crate::writing::{LineFault, write_line};
use gate_growth::ledger::Beginning;
use route_json::{Config, Servers, read_config_after};
use std::alloc::{AllocError, Global};
use std::marker::Model;
use std::mem::replace;

/// A history, and the text of its file.
#[derive(Drop)]
pub struct HistoryFile {
    history: History,
    text: String,
}

impl Model for HistoryFile {
    ghost use Rattle.std.specs.Prelude.{string_bytes};
    ghost use Rattle.gate_history.specs.InFile.{InFile, in_file_code};
    ghost use Rattle.gate_history.specs.Histories.{IsHistoryOf};

    ghost Value = { InFile };

    ghost coded = { in_file_code };

    ghost view = { λ f. record { generations = f.history; text = string_bytes f.text } };

    ghost invariant = { λ f. IsHistoryOf f.history (string_bytes f.text) };
}

// What stands beside a configuration that is to be the next generation.
#[derive(Drop)]
struct Prepared {
    // Its servers once more.
    servers: Servers,
    // The text of the file with its line.
    text: String,
}

// The fault of a line.
fn line_fault(fault: LineFault) -> NextFault
    ensures { (gs : List Generation) (text : List ℕ) (began : Beginning) → IsNoNext gs text began result }
{
    match fault {
        LineFault::NotJson | LineFault::SeveralLines => NextFault::NoLine,
        LineFault::NoMemory => NextFault::NoMemory,
    }
}

// The line of the configuration that the text says as the next generation.
fn next_line(
    alloc: Global,
    history: &History,
    text: &str,
    began: Beginning,
) -> Result<String, NextFault>
    ensures { MatchResult result (λ line. IsLineFor (length history.now + 1) began text.now (string_bytes line)) (IsNoNext history.now text.now began) }
{
    match history.next_number() {
        None => Err(NextFault::NoLine),
        Some(number) => match write_line(alloc, number, began, text) {
            Ok(line) => Ok(line),
            Err(fault) => Err(line_fault(fault)),
        },
    }
}

// Both texts, one after the other.
fn joined(alloc: Global, front: &str, back: &str) -> Result<String, AllocError>
    ensures { IfOk result (λ both. string_bytes both ≡ front.now ++ back.now) }
{
    let mut both = String::from_str(alloc, front)?;
    both.push_str(back)?;
    Ok(both)
}

// The configuration that the text says after the history.
fn config_after(alloc: Global, history: &History, text: &str) -> Result<Config, NextFault>
    ensures { MatchResult result (SaysNext history.now text.now) (λ fault. (began : Beginning) → IsNoNext history.now text.now began fault) }
{
    let servers = history.servers(alloc)?;
    match read_config_after(alloc, servers, text) {
        Ok(config) => Ok(config),
        Err(fault) => Err(NextFault::Config(fault)),
    }
}

// What stands beside it.
fn prepare(
    alloc: Global,
    history: &History,
    file: &str,
    config: &Config,
    text: &str,
    began: Beginning,
) -> Result<Prepared, NextFault>
    ensures { MatchResult result (λ b. (b.servers ≡ config.now.servers) × (bytes : List ℕ) × (string_bytes b.text ≡ file.now ++ bytes) × IsLineFor (length history.now + 1) began text.now bytes) (IsNoNext history.now text.now began) }
{
    let line = next_line(alloc, history, text, began)?;
    let text = joined(alloc, file, line.as_str())?;
    let servers = config.servers().copy(alloc)?;
    Ok(Prepared { servers, text })
}

// Drops the configuration.
fn drop_config(_config: Config) {}

impl HistoryFile {
    /// That of no generation, without text. The only error is that memory was refused.
    pub fn new(alloc: Global) -> Result<HistoryFile, AllocError>
        ensures { IfOk result (λ file. file ≡ record { generations = []; text = [] }) }
    {
        Ok(HistoryFile {
            history: History::new(alloc)?,
            text: String::new(alloc),
        })
    }

    /// That of a text, or the text's first fault.
    pub fn read(alloc: Global, text: String) -> Result<HistoryFile, HistoryFault>
        ensures { MatchResult result (λ file. file.text ≡ string_bytes text) (IsNoHistory (string_bytes text)) }
    {
        match read_history(alloc, text.as_str()) {
            Ok(history) => Ok(HistoryFile { history, text }),
            Err(fault) => Err(fault),
        }
    }

    /// The history.
    pub fn history(&self) -> &History
        ensures { result.now ≡ self.now.generations }
    {
        &self.history
    }

    /// The text.
    pub fn text(&self) -> &str
        ensures { result.now ≡ self.now.text }
    {
        self.text.as_str()
    }

    /// The history, without its text.
    pub fn into_history(self) -> History
        ensures { result ≡ self.generations }
    {
        let HistoryFile { history, text: _ } = self;
        history
    }

    /// How many generations there are.
    pub fn count(&self) -> usize
        ensures { result ≡ length self.now.generations }
    {
        self.history.generations().len()
    }

    /// Whether the last line says the JSON of the text.
    pub fn ends_with(&self, alloc: Global, text: &str) -> Result<bool, LineFault>
        ensures { IfOk result (λ ends. IsTrue ends → StandsInHistory self.now.text text.now) }
    {
        let generations = self.history.generations();
        let Some(last) = generations.last() else {
            return Ok(false);
        };
        let Ok(number) = u32::try_from(generations.len()) else {
            return Ok(false);
        };
        let line = write_line(alloc, number, last.began, text)?;
        Ok(self.text.as_str().ends_with(line.as_str()))
    }

    /// Makes the configuration that the text says the next generation, where it may be: its line is the last one then. The new
    /// servers began so. It gives the text without that line. After a fault all is as it was.
    pub fn follow(
        &mut self,
        alloc: Global,
        text: &str,
        began: Beginning,
    ) -> Result<String, NextFault>
        ensures stands { OnOk result (StandsInHistory self.new.text text.now) }
        ensures old { IfOk result (λ old. string_bytes old ≡ self.old.text) }
        ensures refused { IfErr result (IsNoNext self.old.generations text.now began) }
        ensures same { OnErr result (self.new ≡ self.old) }
    {
        let config = config_after(alloc, &self.history, text)?;
        match prepare(
            alloc,
            &self.history,
            self.text.as_str(),
            &config,
            text,
            began,
        ) {
            Ok(prepared) => {
                let Prepared {
                    servers,
                    text: longer,
                } = prepared;
                match self.history.follow(alloc, config, began) {
                    Ok(()) => {
                        let _sound = self.history.generations();
                        Ok(replace(&mut self.text, longer))
                    }
                    Err(unsound) => Err(NextFault::Refused(servers, unsound)),
                }
            }
            Err(fault) => {
                drop_config(config);
                Err(fault)
            }
        }
    }

    /// The last line says the text then, where it may: it does already, and then nothing is done and there is no answer; or it is
    /// the line of the configuration that the text says, as the next generation, and the answer is the text without it.
    pub fn take_text(
        &mut self,
        alloc: Global,
        text: &str,
        began: Beginning,
    ) -> Result<Option<String>, NextFault>
        ensures stands { OnOk result (StandsInHistory self.new.text text.now) }
        ensures refused { IfErr result (IsNoNext self.old.generations text.now began) }
        ensures same { OnErr result (self.new ≡ self.old) }
    {
        match self.ends_with(alloc, text) {
            Ok(true) => Ok(None),
            _ => match self.follow(alloc, text, began) {
                Ok(old) => Ok(Some(old)),
                Err(fault) => Err(fault),
            },
        }
    }
}
