//! What is counted and kept of a proxy that runs, besides what its end counts: what became of texts of its file, and what went wrong last
//! at each server.

ghost use Rattle.std.specs.Prelude.{◌≡◌, IfOk, string_bytes};
ghost use Rattle.sha2.specs.Sha256.{sha256};
ghost use Rattle.hex.specs.Hex.{encode_lower};

use serve_links::LinkNews;
use sha2::{Digest, Sha256};
use std::alloc::{AllocError, Global};
use watch_admin::numbers::{ConfigNumbers, RefusalNumbers};

// Of clients that were turned away is told once in so many milliseconds, and of connections that could not be accepted.
const QUIET_MS: u64 = 60_000;

/// What went wrong last at a server.
#[derive(Clone, Copy)]
pub struct LastFailure {
    /// The name of its cause, as it is counted.
    pub cause: &'static str,
    /// When that was, in milliseconds.
    pub at: u64,
}

// Of what was said of a text that was refused so many bytes are kept.
const LINE: usize = 1_024;

// What was said of a text that was refused, and when, in milliseconds from the begin of 1970 on.
#[derive(Drop)]
struct Refusal {
    line: String,
    at: u64,
}

// The first line of what was said, as far as it is kept.
fn kept_line(said: &[u8]) -> &str {
    let line = std::str::from_utf8(said)
        .unwrap_or("")
        .split('\n')
        .next()
        .unwrap_or("");
    if line.len() <= LINE {
        return line;
    }
    // (a character has 4 bytes at most)
    for left in 0..4 {
        if let Some(part) = line.get(..LINE - left) {
            return part;
        }
    }
    ""
}

// The name of a server.
#[derive(Drop)]
struct Name {
    server: String,
    // Whether it has led to no machine so far.
    is_unknown: bool,
}

// How much of a count was told, and from when on more of it may be, in milliseconds.
#[derive(Clone, Copy)]
struct QuietCount {
    count: u64,
    from: u64,
}

impl QuietCount {
    // Nothing of it.
    fn new() -> QuietCount {
        QuietCount { count: 0, from: 0 }
    }

    // By how much it has grown to this since it was told last, if that is to be told now.
    fn next(&mut self, count: u64, now: u64) -> Option<u64> {
        if count <= self.count || now < self.from {
            return None;
        }
        let grown = count - self.count;
        self.count = count;
        self.from = now.saturating_add(QUIET_MS);
        Some(grown)
    }
}

/// What is counted and kept of a proxy that runs, besides what its end counts.
#[derive(Drop)]
pub struct Seen {
    pub config: ConfigNumbers,
    // The SHA-256 of the text in use.
    sum: [u8; 32],
    // The last text of its file that was refused.
    refusal: Option<Refusal>,
    /// Whether its file couldn't be read when that was tried last.
    pub is_unread: bool,
    // Servers whose names led to no machine once.
    names: Vec<Name>,
    // What went wrong last at each server, by its number.
    failures: Vec<Option<LastFailure>>,
    // Of clients that were turned away, and of connections that could not be accepted.
    refused: QuietCount,
    unaccepted: QuietCount,
}

impl Seen {
    /// Nothing yet: the first generation is in use.
    pub fn new(alloc: Global) -> Seen {
        Seen {
            config: ConfigNumbers {
                generation: 1,
                accepted: 0,
                unchanged: 0,
                refused: 0,
            },
            sum: [0; 32],
            refusal: None,
            is_unread: false,
            names: Vec::new(alloc),
            failures: Vec::new(alloc),
            refused: QuietCount::new(),
            unaccepted: QuietCount::new(),
        }
    }

    /// A new text came, after which the generation of this number is in use: whether the text says it.
    pub fn note_text(&mut self, generation: u32, is_used: bool) {
        let config = &mut self.config;
        let generation = u64::from(generation);
        if !is_used {
            config.refused = config.refused.saturating_add(1);
        } else if generation == config.generation {
            config.unchanged = config.unchanged.saturating_add(1);
        } else {
            config.accepted = config.accepted.saturating_add(1);
        }
        config.generation = generation;
    }

    /// This text is in use from now on.
    pub fn note_in_use(&mut self, text: &str)
        ensures { self.new ≡ record self.old { sum = sha256 text.now } }
    {
        self.sum = Sha256::digest(text.as_bytes());
    }

    /// The SHA-256 of the text in use, in hexadecimal digits. The only error is that memory was refused.
    pub fn sum(&self, alloc: Global) -> Result<String, AllocError>
        ensures { IfOk result (λ digits. string_bytes digits ≡ encode_lower self.now.sum) }
    {
        hex::encode(alloc, &self.sum)
    }

    /// A text was refused at this time, in milliseconds from the begin of 1970 on, and this was said of it: the first line of that is kept, or its
    /// first 1,024 bytes. Where memory is refused only the time is.
    pub fn note_refused(&mut self, alloc: Global, said: &[u8], at: u64) {
        let line = match String::from_str(alloc, kept_line(said)) {
            Ok(line) => line,
            Err(_) => String::new(alloc),
        };
        self.refusal = Some(Refusal { line, at });
    }

    /// What was said of the last text that was refused, and when, if one was. The only error is that memory was refused.
    pub fn refusal(&self, alloc: Global) -> Result<Option<RefusalNumbers>, AllocError> {
        match &self.refusal {
            Some(refusal) => Ok(Some(RefusalNumbers {
                line: String::from_str(alloc, refusal.line.as_str())?,
                at_ms: refusal.at,
            })),
            None => Ok(None),
        }
    }

    /// The name of this server was looked up, by which no machine was known: whether it leads to one. Where memory is refused nothing is
    /// noted.
    pub fn note_found(&mut self, alloc: Global, server: &str, is_found: bool) {
        for at in 0..self.names.len() {
            match self.names.get_mut(at) {
                Some(name) if name.server.as_str() == server => {
                    name.is_unknown = !is_found;
                    return;
                }
                _ => {}
            }
        }
        if !is_found {
            self.add_unknown(alloc, server);
        }
    }

    fn add_unknown(&mut self, alloc: Global, server: &str) {
        if let Ok(server) = String::from_str(alloc, server) {
            let is_unknown = true;
            let _ = self.names.push(Name { server, is_unknown });
        }
    }

    /// Whether the name of this server has led to no machine so far.
    pub fn is_unknown(&self, server: &str) -> bool {
        for name in &self.names {
            if name.server.as_str() == server {
                return name.is_unknown;
            }
        }
        false
    }

    /// This happened at the server of this number at this time. Where memory is refused nothing is noted.
    pub fn note_news(&mut self, server: usize, news: LinkNews, now: u64) {
        let cause = match news {
            LinkNews::Failed(cause, _) => cause.name(),
            LinkNews::Late => "call_late",
            LinkNews::Opened | LinkNews::Back => return,
        };
        for _ in self.failures.len()..=server {
            if self.failures.push(None).is_err() {
                return;
            }
        }
        if let Some(failure) = self.failures.get_mut(server) {
            *failure = Some(LastFailure { cause, at: now });
        }
    }

    /// What went wrong last at the server of this number, if something did.
    pub fn last_failure(&self, server: usize) -> Option<LastFailure> {
        *self.failures.get(server)?
    }

    /// How many clients were turned away since that was told last, of so many in all, if that is to be told now.
    pub fn next_refused(&mut self, refused: u64, now: u64) -> Option<u64> {
        self.refused.next(refused, now)
    }

    /// How often the system refused to accept a connection since that was told last, of so often in all, if that is to be told now.
    pub fn next_unaccepted(&mut self, unaccepted: u64, now: u64) -> Option<u64> {
        self.unaccepted.next(unaccepted, now)
    }
}
