//! Which command comes next.

use crate::arguments::{LoadJob, LoadSettings};
use crate::commands::{LoadCommand, LoadKind};

/// The choice of commands. A value carries a number, which with what there are of keys as the modulus is its key's.
#[derive(Clone, Copy)]
pub struct Plan {
    job: LoadJob,
    keys: u64,
    gets: u64,
    state: u64,
    // How many commands were chosen.
    chosen: u64,
}

impl Plan {
    /// The plan of these settings, with no command chosen yet.
    pub fn new(settings: LoadSettings<'_>) -> Plan {
        Plan {
            job: settings.job,
            keys: settings.keys,
            gets: settings.gets,
            state: settings.seed,
            chosen: 0,
        }
    }

    // A number below 2^32, of a linear congruence.
    fn random(&mut self) -> u64 {
        self.state = self
            .state
            .wrapping_mul(6_364_136_223_846_793_005)
            .wrapping_add(1_442_695_040_888_963_407);
        self.state >> 32
    }

    fn random_key(&mut self) -> u64 {
        self.random().checked_rem(self.keys).unwrap_or(0)
    }

    /// Which key a value's number tells of.
    pub fn key_of(&self, value: u64) -> u64 {
        value.checked_rem(self.keys).unwrap_or(0)
    }

    // A value of this key that no command before carried.
    fn new_value(&self, key: u64) -> u64 {
        self.chosen.saturating_mul(self.keys).saturating_add(key)
    }

    fn kind(&mut self) -> LoadKind {
        let hundredth = self.random() % 100;
        match self.job {
            LoadJob::Fill => LoadKind::Set,
            LoadJob::Load if hundredth < self.gets => LoadKind::Get,
            LoadJob::Load => LoadKind::Set,
            LoadJob::Freshness if hundredth < 60 => LoadKind::Get,
            LoadJob::Freshness if hundredth < 90 => LoadKind::Set,
            LoadJob::Freshness => LoadKind::Delete,
        }
    }

    /// The next command.
    pub fn next(&mut self) -> LoadCommand {
        let kind = self.kind();
        let key = match self.job {
            LoadJob::Fill => self.key_of(self.chosen),
            LoadJob::Load | LoadJob::Freshness => self.random_key(),
        };
        let value = match self.job {
            LoadJob::Fill | LoadJob::Load => key,
            LoadJob::Freshness => self.new_value(key),
        };
        self.chosen = self.chosen.saturating_add(1);
        LoadCommand { kind, key, value }
    }
}
