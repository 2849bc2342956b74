//! How lines on standard error are written.

/// How urgent a line is.
#[derive(Clone, Copy, PartialEq, Eq)]
pub enum Level {
    Error,
    Warn,
    Info,
    Debug,
}

impl Level {
    /// Its name.
    pub fn word(self) -> &'static str {
        match self {
            Level::Error => "error",
            Level::Warn => "warn",
            Level::Info => "info",
            Level::Debug => "debug",
        }
    }

    fn rank(self) -> u8 {
        match self {
            Level::Error => 0,
            Level::Warn => 1,
            Level::Info => 2,
            Level::Debug => 3,
        }
    }

    /// Whether it is written where lines of this level are, and more urgent ones.
    pub fn is_within(self, most: Level) -> bool {
        self.rank() <= most.rank()
    }
}

/// Lines have a time and a level, and those of this one and more urgent ones are written.
#[derive(Clone, Copy, PartialEq, Eq)]
pub struct Log {
    pub level: Level,
    /// Each is an object in JSON.
    pub json: bool,
}

/// The level of this name.
pub fn level_of(word: &str) -> Option<Level> {
    match word {
        "error" => Some(Level::Error),
        "warn" => Some(Level::Warn),
        "info" => Some(Level::Info),
        "debug" => Some(Level::Debug),
        _ => None,
    }
}
