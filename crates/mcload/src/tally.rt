//! What came of the commands.

use crate::LoadStop;
use crate::arguments::{LoadJob, LoadSettings};
use crate::commands::{Answer, LoadCommand, LoadKind};
use crate::freshness::{BegunCommand, Freshness};
use crate::latency::Latencies;
use std::alloc::{AllocError, Global};

/// A command under way.
#[derive(Clone, Copy)]
pub struct Asked {
    pub command: LoadCommand,
    begun: BegunCommand,
    // When it began, in nanoseconds.
    since: u64,
}

/// How many answers there were of each kind.
#[derive(Clone, Copy)]
pub struct LoadCounts {
    pub hits: u64,
    pub misses: u64,
    pub stored: u64,
    pub deleted: u64,
    pub errors: u64,
}

impl LoadCounts {
    fn new() -> LoadCounts {
        LoadCounts {
            hits: 0,
            misses: 0,
            stored: 0,
            deleted: 0,
            errors: 0,
        }
    }

    fn add(&mut self, answer: Answer) {
        let count = match answer {
            Answer::Value(_) => &mut self.hits,
            Answer::Missed => &mut self.misses,
            Answer::Stored => &mut self.stored,
            Answer::Deleted => &mut self.deleted,
            Answer::Error | Answer::Wrong => &mut self.errors,
        };
        *count = count.saturating_add(1);
    }

    /// How many answers there were.
    pub fn all(&self) -> u64 {
        self.hits
            .saturating_add(self.misses)
            .saturating_add(self.stored)
            .saturating_add(self.deleted)
            .saturating_add(self.errors)
    }
}

/// The answers so far.
#[derive(Drop)]
pub struct LoadTally {
    keys: u64,
    is_judging: bool,
    pub counts: LoadCounts,
    pub latencies: Latencies,
    pub freshness: Freshness,
}

impl LoadTally {
    /// Nothing counted yet. The only error is that memory ran out.
    pub fn new(alloc: Global, settings: LoadSettings<'_>) -> Result<LoadTally, AllocError> {
        Ok(LoadTally {
            keys: settings.keys,
            is_judging: settings.job == LoadJob::Freshness,
            counts: LoadCounts::new(),
            latencies: Latencies::new(alloc, settings.commands),
            freshness: Freshness::new(alloc, settings.keys as usize)?,
        })
    }

    /// A command begins.
    pub fn begin(&mut self, command: LoadCommand, now: u64) -> Asked {
        Asked {
            command,
            begun: self.freshness.begin(command.key),
            since: now,
        }
    }

    // Whether a value may be one of a key.
    fn fits(&self, value: u64, key: u64) -> bool {
        value.checked_rem(self.keys) == Some(key)
    }

    fn judge(&mut self, asked: Asked, answer: Answer) -> Result<(), AllocError> {
        let command = asked.command;
        match (command.kind, answer) {
            (LoadKind::Set, Answer::Stored) => self.freshness.has_stored(command.value)?,
            (LoadKind::Delete, Answer::Deleted) => self
                .freshness
                .has_deleted(command.key, asked.begun),
            (LoadKind::Get, Answer::Value(value)) => self.freshness.has_shown(value, asked.begun),
            _ => {}
        }
        Ok(())
    }

    /// A command was answered. [`Stop::WrongAnswer`] where that can't be its answer.
    pub fn end(&mut self, asked: Asked, answer: Answer, now: u64) -> Result<(), LoadStop> {
        match answer {
            Answer::Wrong => return Err(LoadStop::WrongAnswer),
            Answer::Value(value) if !self.fits(value, asked.command.key) => {
                return Err(LoadStop::WrongAnswer);
            }
            _ => {}
        }
        self.counts.add(answer);
        self.latencies.add(now.saturating_sub(asked.since))?;
        if self.is_judging {
            self.judge(asked, answer)?;
        }
        Ok(())
    }
}
