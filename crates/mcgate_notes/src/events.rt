//! What lines tell, for programs that read them: a level, a subject, and keys with values.

use mcgate_ends::logs::Level;
use std::fmt;
use std::fmt::Display;
use std::net::SocketAddr;
use watch_admin::quoted::Quoted;

/// What a line tells of.
#[derive(Clone, Copy, PartialEq, Eq)]
pub enum Subject {
    /// The program itself.
    Process,
    /// The file that says its configuration, and what that says.
    Config,
    /// What came of a new text of that file.
    Reload,
    /// What is remembered from one run to the next.
    History,
    Server,
    Client,
}

/// What stands behind a key.
#[derive(Clone, Copy)]
pub enum Value<'a> {
    Text(&'a str),
    Count(u64),
    Address(SocketAddr),
}

/// A key, and what stands behind it.
#[derive(Clone, Copy)]
pub struct Field<'a> {
    key: &'a str,
    value: Value<'a>,
}

/// What a line tells beside its text.
#[derive(Clone, Copy)]
pub struct LogEvent<'a> {
    level: Level,
    subject: Subject,
    fields: &'a [Field<'a>],
    // Words `key=value` behind these, with a space between two.
    words: &'a str,
    // Whether the text of its line stands behind them, where the line isn't an object in JSON.
    has_text: bool,
}

impl Subject {
    /// Its name.
    pub fn word(self) -> &'static str {
        match self {
            Subject::Process => "process",
            Subject::Config => "config",
            Subject::Reload => "reload",
            Subject::History => "history",
            Subject::Server => "server",
            Subject::Client => "client",
        }
    }
}

impl<'a> Field<'a> {
    /// A text.
    pub fn text(key: &'a str, text: &'a str) -> Field<'a> {
        Field {
            key,
            value: Value::Text(text),
        }
    }

    /// How many of something there are.
    pub fn count(key: &'a str, count: u64) -> Field<'a> {
        Field {
            key,
            value: Value::Count(count),
        }
    }

    /// Where something is.
    pub fn address(key: &'a str, address: SocketAddr) -> Field<'a> {
        Field {
            key,
            value: Value::Address(address),
        }
    }

    /// Of several things that happen to a subject, which it is.
    pub fn event(name: &'a str) -> Field<'a> {
        Field::text("event", name)
    }
}

impl<'a> LogEvent<'a> {
    /// Of this level and subject, with these keys. Where there are none the text of its line stands there.
    pub fn new(level: Level, subject: Subject, fields: &'a [Field<'a>]) -> LogEvent<'a> {
        LogEvent {
            level,
            subject,
            fields,
            words: "",
            has_text: fields.is_empty(),
        }
    }

    /// What ends the program, or loses a promise or data.
    pub fn error(subject: Subject, fields: &'a [Field<'a>]) -> LogEvent<'a> {
        LogEvent::new(Level::Error, subject, fields)
    }

    /// What somebody should see.
    pub fn warn(subject: Subject, fields: &'a [Field<'a>]) -> LogEvent<'a> {
        LogEvent::new(Level::Warn, subject, fields)
    }

    /// What is of interest later.
    pub fn info(subject: Subject, fields: &'a [Field<'a>]) -> LogEvent<'a> {
        LogEvent::new(Level::Info, subject, fields)
    }

    /// What is of interest while a fault is looked for.
    pub fn debug(subject: Subject, fields: &'a [Field<'a>]) -> LogEvent<'a> {
        LogEvent::new(Level::Debug, subject, fields)
    }

    /// This event, with the text of its line behind the keys.
    pub fn with_text(self) -> LogEvent<'a> {
        LogEvent {
            has_text: true,
            ..self
        }
    }

    /// This event, with further keys: words `key=value` with a space between two.
    pub fn with_words(self, words: &'a str) -> LogEvent<'a> {
        LogEvent { words, ..self }
    }

    /// How urgent it is.
    pub fn level(&self) -> Level {
        self.level
    }
}

// Whether a byte may stand in a value as it is.
fn is_plain(byte: u8) -> bool {
    32 < byte && byte < 127 && byte != b'"' && byte != b'='
}

// Whether a text may: it isn't empty, and no byte of it ends it or is taken for another.
fn are_plain(text: &str) -> bool {
    for byte in text.as_bytes() {
        if !is_plain(*byte) {
            return false;
        }
    }
    !text.is_empty()
}

// Writes a text as it is, or within quotation marks where it needs them.
fn write_text<W: fmt::Write>(f: &mut fmt::Formatter<W>, text: &str) -> fmt::Result {
    if are_plain(text) {
        f.write_str(text)
    } else {
        Quoted(text).fmt(f)
    }
}

fn write_value<W: fmt::Write>(f: &mut fmt::Formatter<W>, value: Value<'_>) -> fmt::Result {
    match value {
        Value::Text(text) => write_text(f, text),
        Value::Count(count) => write!(f, "{count}"),
        Value::Address(address) => write!(f, "{address}"),
    }
}

// Writes a value in JSON.
fn write_json_value<W: fmt::Write>(f: &mut fmt::Formatter<W>, value: Value<'_>) -> fmt::Result {
    match value {
        Value::Text(text) => Quoted(text).fmt(f),
        Value::Count(count) => write!(f, "{count}"),
        Value::Address(address) => write!(f, "\"{address}\""),
    }
}

// Writes ` key=value`.
fn write_key<W: fmt::Write>(f: &mut fmt::Formatter<W>, key: &str, value: Value<'_>) -> fmt::Result {
    f.write_str(" ")?;
    f.write_str(key)?;
    f.write_str("=")?;
    write_value(f, value)
}

// Writes `,"key":value`.
fn write_json_key<W: fmt::Write>(
    f: &mut fmt::Formatter<W>,
    key: &str,
    value: Value<'_>,
) -> fmt::Result {
    f.write_str(",")?;
    Quoted(key).fmt(f)?;
    f.write_str(":")?;
    write_json_value(f, value)
}

// The key and the value of a word.
fn key_in(word: &str) -> Option<(&str, Value<'_>)> {
    let (key, text) = word.split_once('=')?;
    match text.parse::<u64>() {
        Ok(count) if key == "generation" => Some((key, Value::Count(count))),
        _ => Some((key, Value::Text(text))),
    }
}

/// What a line has behind its time and level: its subject, and keys with values, ` key=value` each. Where a value is empty, or has a space, a
/// quotation mark, `=` or what isn't printed ASCII, it stands within quotation marks.
#[derive(Drop)]
pub struct InWords<'a> {
    pub event: LogEvent<'a>,
    /// The text of its line.
    pub text: &'a str,
}

impl Display for InWords<'_> {
    fn fmt<W: fmt::Write>(&self, f: &mut fmt::Formatter<W>) -> fmt::Result {
        f.write_str(self.event.subject.word())?;
        for field in self.event.fields {
            write_key(f, field.key, field.value)?;
        }
        for word in self.event.words.split(' ') {
            if let Some((key, value)) = key_in(word) {
                write_key(f, key, value)?;
            }
        }
        if self.event.has_text {
            return write_key(f, "text", Value::Text(self.text));
        }
        Ok(())
    }
}

/// An event within an object in JSON: `,"key":value` for its subject, each key, and the text of its line, as `line`.
#[derive(Drop)]
pub struct InJson<'a> {
    pub event: LogEvent<'a>,
    /// The text of its line.
    pub text: &'a str,
}

impl Display for InJson<'_> {
    fn fmt<W: fmt::Write>(&self, f: &mut fmt::Formatter<W>) -> fmt::Result {
        write_json_key(f, "subject", Value::Text(self.event.subject.word()))?;
        for field in self.event.fields {
            write_json_key(f, field.key, field.value)?;
        }
        for word in self.event.words.split(' ') {
            if let Some((key, value)) = key_in(word) {
                write_json_key(f, key, value)?;
            }
        }
        write_json_key(f, "line", Value::Text(self.text))
    }
}
