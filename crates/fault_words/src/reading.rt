//! The first fault of the program's words.

use crate::commands::{
    COMMANDS, Command, TOLD, TOP_FLAGS, Takes, is_repeated, takes_of, words_after,
};
use crate::fault::{Cause, WordFault};
use fault_configs::nearest;
use mc_types::Key;
use std::alloc::{AllocError, Global};
use text_words::number::u32_number;
use wire_stream::VersionText;

// The flag of this name among these.
fn flag_named(flags: &'static [&'static str], name: &str) -> Option<&'static str> {
    flags.iter().copied().find(|flag| *flag == name)
}

// Whether a value is one that a flag takes.
fn is_value(flag: &str, text: &str) -> bool {
    match takes_of(flag) {
        Takes::Nothing => false,
        Takes::File | Takes::Address | Takes::Pool => true,
        Takes::Count => !matches!(u32_number(text.as_bytes()), None | Some(0)),
        Takes::Word => words_after(flag).contains(&text),
        Takes::Version => VersionText::read(text.as_bytes()).is_some(),
    }
}

// The name of a flag and the value that stands in the same word, if one does.
fn name_and_value(text: &str) -> (&str, Option<&str>) {
    match text.split_once('=') {
        Some((name, value)) => (name, Some(value)),
        None => (text, None),
    }
}

// Whether a word can be no value after a flag, as it begins like one itself.
fn is_like_flag(word: &str) -> bool {
    word.len() > 1 && word.starts_with("-")
}

fn is_like_number(word: &str) -> bool {
    match word.as_bytes() {
        [b'-', digit, ..] => digit.is_ascii_digit(),
        _ => false,
    }
}

/// What was read of a command's words so far.
#[derive(Drop)]
struct Reader {
    command: Command,
    /// The flags that stood there.
    given: Vec<&'static str>,
    /// The flag whose value comes next.
    waiting: Option<&'static str>,
    /// How many words stood there that are no flags and no values of theirs.
    words: usize,
    /// No flags come any more.
    ended: bool,
}

impl Reader {
    fn new(alloc: Global, command: Command) -> Reader {
        Reader {
            command,
            given: Vec::new(alloc),
            waiting: None,
            words: 0,
            ended: false,
        }
    }

    fn value<'a>(&self, flag: &'static str, text: &'a str) -> Option<Cause<'a>> {
        if is_value(flag, text) {
            None
        } else {
            Some(Cause::BadValue(flag, text))
        }
    }

    // The value of a flag as a word of its own.
    fn next_value<'a>(&mut self, flag: &'static str, word: &'a str) -> Option<Cause<'a>> {
        self.waiting = None;
        if is_like_flag(word) {
            return if takes_of(flag) == Takes::Count && is_like_number(word) {
                Some(Cause::BadValue(flag, word))
            } else {
                Some(Cause::NoValue(flag))
            };
        }
        self.value(flag, word)
    }

    // A flag with the value that stands in its own word, if one does.
    fn flag<'a>(
        &mut self,
        word: &'a str,
        name: &str,
        own: Option<&'a str>,
    ) -> Result<Option<Cause<'a>>, AllocError> {
        let Some(flag) = flag_named(self.command.flags(), name) else {
            return Ok(Some(Cause::NoFlag(word)));
        };
        if self.given.as_slice().contains(&flag) && !is_repeated(self.command, flag) {
            return Ok(Some(Cause::Twice(flag)));
        }
        self.given.push(flag)?;
        Ok(self.after_flag(flag, own))
    }

    // A flag was given, with this value in its own word.
    fn after_flag<'a>(&mut self, flag: &'static str, own: Option<&'a str>) -> Option<Cause<'a>> {
        let is_alone = takes_of(flag) == Takes::Nothing;
        match own {
            Some(_) if is_alone => Some(Cause::OwnValue(flag)),
            Some(text) => self.value(flag, text),
            None => {
                if !is_alone {
                    self.waiting = Some(flag);
                }
                None
            }
        }
    }

    // A word that is no flag.
    fn plain<'a>(&mut self, word: &'a str) -> Option<Cause<'a>> {
        if self.words >= self.command.most_words() {
            return Some(Cause::Extra(word));
        }
        self.words = self.words.saturating_add(1);
        if self.command == Command::Help && Command::of(word).is_none() {
            return Some(Cause::NoCommand(word));
        }
        None
    }

    // A word that begins like a flag.
    fn dashed<'a>(&mut self, word: &'a str) -> Result<Option<Cause<'a>>, AllocError> {
        match word.strip_prefix("--") {
            Some(rest) => {
                let (name, own) = name_and_value(rest);
                self.flag(word, name, own)
            }
            None if word == "-h" => self.flag(word, "help", None),
            None => Ok(Some(Cause::NoFlag(word))),
        }
    }

    // The next word; what is wrong with it, if something is.
    fn take<'a>(&mut self, word: &'a str) -> Result<Option<Cause<'a>>, AllocError> {
        if let Some(flag) = self.waiting {
            return Ok(self.next_value(flag, word));
        }
        if self.ended || !is_like_flag(word) {
            return Ok(self.plain(word));
        }
        if word == "--" {
            self.ended = true;
            return Ok(None);
        }
        self.dashed(word)
    }

    // All words; what is wrong with the first that is wrong, or with the whole.
    fn take_all<'a>(&mut self, words: &'a [String]) -> Result<Option<Cause<'a>>, AllocError> {
        for word in words {
            if let Some(cause) = self.take(word.as_str())? {
                return Ok(Some(cause));
            }
        }
        Ok(self.end())
    }

    fn has(&self, name: &'static str) -> bool {
        self.given.as_slice().contains(&name)
    }

    fn missing(&self) -> Option<&'static str> {
        self.command
            .needed()
            .iter()
            .copied()
            .find(|flag| !self.has(flag))
    }

    // What is wrong with the flags that stand there together.
    fn together<'a>(&self) -> Option<Cause<'a>> {
        for flag in ["with", "reuse-port"] {
            if self.has(flag) && !self.has("fleet") {
                return Some(Cause::Beside(flag, "fleet"));
            }
        }
        for pair in self.command.apart() {
            let [flag, other] = *pair;
            if self.has(flag) && self.has(other) {
                return Some(Cause::Apart(flag, other));
            }
        }
        None
    }

    // What is wrong once there are no more words.
    fn end<'a>(&self) -> Option<Cause<'a>> {
        if let Some(flag) = self.waiting {
            return Some(Cause::NoValue(flag));
        }
        if let Some(cause) = self.together() {
            return Some(cause);
        }
        if let Some(flag) = self.missing() {
            return Some(Cause::Missing(flag));
        }
        if self.words < self.command.least_words() {
            return Some(Cause::NoWord(self.command.word()));
        }
        None
    }
}

// What is wrong with a word that is to be a key.
fn cause_in_key(word: &str) -> Option<Cause<'_>> {
    match Key::read(word.as_bytes()) {
        Ok(_) => None,
        Err(fault) => Some(Cause::NoKey(word, fault)),
    }
}

// What is wrong with a word that is to be a level of lines.
fn cause_in_level(word: &str) -> Option<Cause<'_>> {
    if words_after("log-level").contains(&word) {
        None
    } else {
        Some(Cause::NoLevel(word))
    }
}

// What is wrong with a word that a proxy is told, and what stands after it.
fn cause_in_told<'a>(word: &'a str, more: Option<&'a str>) -> Option<Cause<'a>> {
    match (word, more) {
        ("log", Some(level)) => cause_in_level(level),
        ("log", None) => Some(Cause::NoWord("LEVEL")),
        ("where", Some(key)) => cause_in_key(key),
        ("where", None) => Some(Cause::NoWord("KEY")),
        _ if TOLD.as_slice().contains(&word) => more.map(Cause::Extra),
        _ => Some(Cause::NotTold(word)),
    }
}

// What is wrong with what a proxy is told, by the words after `tell`.
fn cause_after_tell<'a>(words: &'a [String]) -> Option<Cause<'a>> {
    match words {
        [_, word] => cause_in_told(word.as_str(), None),
        [_, word, more] => cause_in_told(word.as_str(), Some(more.as_str())),
        _ => None,
    }
}

// What is wrong with the words after a command.
fn cause_after<'a>(
    alloc: Global,
    command: Command,
    words: &'a [String],
) -> Result<Option<Cause<'a>>, AllocError> {
    let mut reader = Reader::new(alloc, command);
    match reader.take_all(words)? {
        None if command == Command::Tell => Ok(cause_after_tell(words)),
        cause => Ok(cause),
    }
}

// The name that was likely meant, among those of flags.
fn meant_flag(
    alloc: Global,
    flags: &'static [&'static str],
    word: &str,
) -> Result<Option<&'static str>, AllocError> {
    let (name, _) = name_and_value(word.trim_start_matches('-'));
    nearest(alloc, name, flags)
}

// The name that was likely meant after a command.
fn meant_after(
    alloc: Global,
    command: Command,
    cause: Cause<'_>,
) -> Result<Option<&'static str>, AllocError> {
    match cause {
        Cause::NoCommand(word) => nearest(alloc, word, COMMANDS.as_slice()),
        Cause::NoFlag(word) => meant_flag(alloc, command.flags(), word),
        Cause::BadValue(flag, text) => nearest(alloc, text, words_after(flag)),
        Cause::NotTold(word) => nearest(alloc, word, TOLD.as_slice()),
        Cause::NoLevel(text) => nearest(alloc, text, words_after("log-level")),
        _ => Ok(None),
    }
}

// Whether a command has a flag of this name.
fn is_flag_of_commands(name: &str) -> bool {
    COMMANDS
        .iter()
        .filter_map(|command| Command::of(command))
        .any(|command| flag_named(command.flags(), name).is_some())
}

// What is wrong where the words begin with no command.
fn fault_at_top<'a>(alloc: Global, word: &'a str) -> Result<WordFault<'a>, AllocError> {
    if !is_like_flag(word) {
        return Ok(WordFault {
            command: None,
            cause: Cause::NoCommand(word),
            meant: nearest(alloc, word, COMMANDS.as_slice())?,
        });
    }
    if is_flag_of_commands(word.trim_start_matches('-')) {
        return Ok(WordFault {
            command: None,
            cause: Cause::TooEarly(word),
            meant: None,
        });
    }
    Ok(WordFault {
        command: None,
        cause: Cause::NoFlag(word),
        meant: meant_flag(alloc, TOP_FLAGS.as_slice(), word)?,
    })
}

fn is_top_flag(word: &str) -> bool {
    word == "-h" || word == "--help" || word == "--version"
}

// The words behind the program's name and the flags that may stand before a command.
fn after_top_flags(words: &[String]) -> &[String] {
    let mut left = words.get(1..).unwrap_or(&[]);
    for _ in 0..left.len() {
        match left {
            [word, rest @ ..] if is_top_flag(word.as_str()) => left = rest,
            _ => break,
        }
    }
    left
}

// The first fault of the words after a command.
fn fault_after<'a>(
    alloc: Global,
    command: Command,
    words: &'a [String],
) -> Result<Option<WordFault<'a>>, AllocError> {
    let Some(cause) = cause_after(alloc, command, words)? else {
        return Ok(None);
    };
    Ok(Some(WordFault {
        command: Some(command),
        cause,
        meant: meant_after(alloc, command, cause)?,
    }))
}

/// The first fault of the program's words, its name first. `None` where they have none that this crate knows. The only error is running
/// out of memory.
pub fn fault_in_words<'a>(
    alloc: Global,
    words: &'a [String],
) -> Result<Option<WordFault<'a>>, AllocError> {
    let [word, rest @ ..] = after_top_flags(words) else {
        return Ok(None);
    };
    match Command::of(word.as_str()) {
        Some(command) => fault_after(alloc, command, rest),
        None => Ok(Some(fault_at_top(alloc, word.as_str())?)),
    }
}

/// The first of the words after `where` that is no key, the program's name first.
pub fn key_fault_in_words<'a>(words: &'a [String]) -> Option<WordFault<'a>> {
    let mut is_value = false;
    for word in words.get(2..)? {
        let word = word.as_str();
        if is_value || (is_like_flag(word)) {
            is_value = word == "--config";
        } else if let Some(cause) = cause_in_key(word) {
            return Some(WordFault {
                command: Some(Command::Where),
                cause,
                meant: None,
            });
        }
    }
    None
}
