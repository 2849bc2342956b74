//! Lines of a proxy that runs: each is written where that doesn't wait, and is lost and counted where it would, so that nothing that
//! becomes of its outputs stops it.

use crate::events::{Field, InJson, InWords, LogEvent, Subject};
use libc::net::{POLLOUT, poll};
use libc::types::pollfd;
use mcgate_ends::logs::{Level, Log};
use std::alloc::{AllocError, Global};
use std::fmt::Display;
use std::rt::Clock;
use std::time::{SystemTime, UNIX_EPOCH};
use watch_admin::times::UtcTime;

// So many bytes a pipe takes at once, if it takes any: a line that has more with its end could wait.
const PIPE: usize = 4_096;

// An output of the program.
#[derive(Clone, Copy)]
enum Output {
    Standard,
    Error,
}

impl Output {
    fn descriptor(self) -> i32 {
        match self {
            Output::Standard => libc::STDOUT_FILENO,
            Output::Error => libc::STDERR_FILENO,
        }
    }

    // Whether the system takes a line now, or refuses it at once. A pipe that does takes 4,096 bytes.
    fn is_ready(self) -> bool {
        let mut asked = [pollfd {
            fd: self.descriptor(),
            events: POLLOUT,
            revents: 0,
        }];
        poll(asked.as_mut_slice(), 0) == 1
    }
}

/// The time, in milliseconds from the begin of 1970 on, if the system tells.
pub fn unix_millis<R: Clock>(rt: &R) -> Option<u64> {
    let now = SystemTime::now(rt).ok()?;
    let since = now.duration_since(UNIX_EPOCH).ok()?;
    u64::try_from(since.as_millis()).ok()
}

/// The lines of a proxy that runs.
#[derive(Drop)]
pub struct Lines {
    alloc: Global,
    // How they are written, if not as they are.
    log: Option<Log>,
    // The time, in milliseconds from the begin of 1970 on, when it was looked at last.
    now: u64,
    // How many were lost since it was told last.
    lost: u64,
    // How many before that.
    lost_before: u64,
}

impl Lines {
    /// None was lost yet. They are written so, if not as they are.
    pub fn new(alloc: Global, log: Option<Log>) -> Lines {
        Lines {
            alloc,
            log,
            now: 0,
            lost: 0,
            lost_before: 0,
        }
    }

    /// From now on they have a time and a level, and those of this one and more urgent ones are written.
    pub fn set_level(&mut self, level: Level) {
        let json = self.log.is_some_and(|log| log.json);
        self.log = Some(Log { level, json });
    }

    /// How many were lost so far.
    pub fn lost(&self) -> u64 {
        self.lost_before.saturating_add(self.lost)
    }

    /// Whether lines are told as they are, or with the least urgent ones.
    pub fn tells_all(&self) -> bool {
        match self.log {
            None => true,
            Some(log) => log.level == Level::Debug,
        }
    }

    /// Whether lines have a time.
    pub fn have_time(&self) -> bool {
        self.log.is_some()
    }

    /// The time when it was looked at last, in milliseconds.
    pub fn now(&self) -> u64 {
        self.now
    }

    /// The time is looked at, where lines have one.
    pub fn look<R: Clock>(&mut self, rt: &R) {
        if self.log.is_none() {
            return;
        }
        if let Some(now) = unix_millis(rt) {
            self.now = now;
        }
    }

    // A line with its time and level, as words or in JSON.
    fn timed<D: Display + Drop>(
        &self,
        log: Log,
        event: LogEvent<'_>,
        line: D,
    ) -> Result<String, AllocError> {
        let told = format!(in self.alloc; "{line}")?;
        let text = told.strip_prefix("mcgate: ").unwrap_or(told.as_str());
        let (time, level) = (UtcTime(self.now), event.level().word());
        if !log.json {
            let words = InWords { event, text };
            return format!(in self.alloc; "{time} {level} {words}");
        }
        let begin = format!(in self.alloc; "{{\"time\":\"{time}\",\"level\":\"{level}\"")?;
        let more = InJson { event, text };
        format!(in self.alloc; "{begin}{more}}}")
    }

    // Notes what became of a line.
    fn note(&mut self, is_written: bool) {
        if !is_written {
            self.lost = self.lost.saturating_add(1);
        }
    }

    // Writes a line, if it is told. Whether it is lost.
    fn loses<R: Eprint, D: Display + Drop>(&self, rt: &R, event: LogEvent<'_>, line: D) -> bool {
        let Some(log) = self.log else {
            return rt.eprintln(line).is_err();
        };
        if !event.level().is_within(log.level) {
            return false;
        }
        match self.timed(log, event, line) {
            Ok(text) => text.len() >= PIPE || rt.eprintln(text.as_str()).is_err(),
            Err(_) => true,
        }
    }

    // Tells how many lines were lost, if some were and standard error takes lines again.
    fn tell_lost<R: Eprint>(&mut self, rt: &R) {
        if self.lost == 0 || !Output::Error.is_ready() {
            return;
        }
        let lost = self.lost;
        let line = format_args!("mcgate: {lost} lines could not be written before");
        let fields = [Field::event("lost_lines"), Field::count("count", lost)];
        if !self.loses(rt, LogEvent::error(Subject::Process, &fields), line) {
            self.lost_before = self.lost();
            self.lost = 0;
        }
    }

    /// A line for standard error, which tells this. Where lines have a level, what it tells is written with it, if that is urgent enough.
    pub fn tell<R: Eprint, D: Display + Drop>(&mut self, rt: &R, event: LogEvent<'_>, line: D) {
        self.tell_lost(rt);
        let is_lost = !Output::Error.is_ready() || self.loses(rt, event, line);
        self.note(!is_lost);
    }

    /// Lines for standard output, each with its end.
    pub fn print<R: Print + Eprint>(&mut self, rt: &R, lines: &[u8]) {
        let is_written = Output::Standard.is_ready() && rt.write_all(lines).is_ok();
        self.note(is_written);
        self.tell_lost(rt);
    }
}
