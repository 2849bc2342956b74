//! A text, read as JSON token by token: where it first is none, and which names stand twice in an object.

use crate::trouble::PathStep;
use serde_json::Value;
use std::alloc::{AllocError, Global};
use std::collections::BTreeMap;

/// What may stand next.
#[derive(Clone, Copy, PartialEq, Eq)]
pub enum Wanted {
    Value,
    /// A value, or the end of a list that has none so far.
    ValueOrEnd,
    Name,
    /// A name, or the end of an object that has none so far.
    NameOrEnd,
    Colon,
    CommaOrBrace,
    CommaOrBracket,
    End,
}

/// How a text is no JSON.
#[derive(Clone, Copy, PartialEq, Eq)]
pub enum Misstep {
    /// Nothing but white space stands in it.
    Empty,
    /// A byte order mark stands before it.
    Mark,
    /// A comment begins here.
    Comment,
    /// A comma stands before what ends an object (true) or a list.
    TrailingComma(bool),
    /// A word begins here that is no value.
    Word,
    /// Here stands something else than what is wanted.
    Unexpected(Wanted),
    /// A text that begins here isn't closed on its line.
    OpenText,
    /// A control character stands in a text.
    Control,
    /// A backslash in a text begins no escape.
    Escape,
    /// More than 127 values stand in each other.
    TooDeep,
    /// The end comes inside what began at this byte.
    Open(Wanted, usize),
}

/// The first place where a text is no JSON: a byte of it, or its end.
#[derive(Clone, Copy, PartialEq, Eq)]
pub struct Slip {
    pub at: usize,
    pub misstep: Misstep,
}

/// A name that stands in its object a second time, and the byte where that begins. Names are compared as they are written.
#[derive(Clone, Copy)]
pub struct Twice<'a> {
    pub at: usize,
    pub name: &'a str,
}

/// What was found in a text.
#[derive(Drop)]
pub struct Scanned<'a> {
    pub slip: Option<Slip>,
    pub twice: Vec<Twice<'a>>,
}

/// How many values may stand in each other.
const DEEPEST: usize = 127;

/// How many names that stand twice are told.
const MOST_TWICE: usize = 20;

// Why a scan stops before the text's end.
#[derive(Clone, Copy)]
enum Stop {
    Slip(Slip),
    NoMemory,
}

impl From<AllocError> for Stop {
    fn from(_error: AllocError) -> Self {
        Stop::NoMemory
    }
}

#[derive(Clone, Copy)]
enum Escape {
    None,
    /// After a backslash.
    Begun,
    /// So many hexadecimal digits are to come.
    Digits(u8),
}

// An object or a list that isn't closed so far.
#[derive(Drop)]
struct Open<'a> {
    is_object: bool,
    at: usize,
    /// Where its names begin.
    names: BTreeMap<&'a str, usize>,
    /// The name of the value in an object that comes or came last.
    name: &'a str,
    /// The number of the value in a list that comes or came last.
    number: usize,
}

#[derive(Drop)]
struct Scan<'a> {
    alloc: Global,
    text: &'a str,
    wanted: Wanted,
    /// Where a comma stands that nothing followed so far.
    comma: Option<usize>,
    open: Vec<Open<'a>>,
    twice: Vec<Twice<'a>>,
    /// The way to a value that is looked for.
    way: &'a [PathStep<'a>],
    /// Where that value begins, and its name.
    value_at: Option<usize>,
    name_at: Option<usize>,
}

impl Open<'_> {
    // Whether this step leads to the value that comes or came last.
    fn is_at(&self, step: &PathStep<'_>) -> bool {
        match step {
            PathStep::Name(name) => self.is_object && self.name == *name,
            PathStep::Number(number) => !self.is_object && self.number == *number,
        }
    }
}

fn is_blank(byte: u8) -> bool {
    byte == b' ' || byte == b'\t' || byte == b'\n' || byte == b'\r'
}

/// Whether a byte may stand in a word: it is no white space and no mark of JSON.
pub fn is_of_word(byte: u8) -> bool {
    !is_blank(byte)
        && !matches!(
            byte,
            b'{' | b'}' | b'[' | b']' | b',' | b':' | b'"' | b'/' | b'#'
        )
}

// The bytes from this one on.
fn rest_from(bytes: &[u8], at: usize) -> &[u8] {
    bytes.get(at..).unwrap_or(&[])
}

// The first byte from this one on that isn't white space, or the end.
fn blanks_end(bytes: &[u8], at: usize) -> usize {
    let rest = rest_from(bytes, at);
    let count = rest.iter().position(|byte| !is_blank(*byte));
    at.saturating_add(count.unwrap_or(rest.len()))
}

// The end of the word that begins at this byte.
fn word_end(bytes: &[u8], at: usize) -> usize {
    let rest = rest_from(bytes, at);
    let count = rest.iter().position(|byte| !is_of_word(*byte));
    at.saturating_add(count.unwrap_or(rest.len()))
}

fn slip_at<T>(at: usize, misstep: Misstep) -> Result<T, Stop> {
    Err(Stop::Slip(Slip { at, misstep }))
}

// What follows a byte of an escape, if it may stand there.
fn after_escaped(escape: Escape, byte: u8) -> Option<Escape> {
    match escape {
        Escape::Begun => match byte {
            b'"' | b'\\' | b'/' | b'b' | b'f' | b'n' | b'r' | b't' => Some(Escape::None),
            b'u' => Some(Escape::Digits(4)),
            _ => None,
        },
        Escape::Digits(_) if !byte.is_ascii_hexdigit() => None,
        Escape::Digits(left) if left > 1 => Some(Escape::Digits(left - 1)),
        Escape::Digits(_) | Escape::None => Some(Escape::None),
    }
}

// What follows a byte of a text, or what is wrong with it; a quote ends the text.
fn after_byte(escape: Escape, byte: u8) -> Result<Escape, Misstep> {
    match (escape, byte) {
        (Escape::None, b'\\') => Ok(Escape::Begun),
        (Escape::None, b'\n') => Err(Misstep::OpenText),
        (Escape::None, 0..=31) => Err(Misstep::Control),
        (Escape::None, _) => Ok(Escape::None),
        _ => after_escaped(escape, byte).ok_or(Misstep::Escape),
    }
}

// The byte of the quote that ends the text whose first quote is this byte.
fn last_quote(bytes: &[u8], from: usize) -> Result<usize, Stop> {
    let begins = from.saturating_add(1);
    let mut escape = Escape::None;
    for (count, byte) in rest_from(bytes, begins).iter().enumerate() {
        let at = begins.saturating_add(count);
        if let (Escape::None, b'"') = (escape, *byte) {
            return Ok(at);
        }
        escape = match after_byte(escape, *byte) {
            Ok(next) => next,
            Err(Misstep::OpenText) => return slip_at(from, Misstep::OpenText),
            Err(misstep) => return slip_at(at, misstep),
        };
    }
    slip_at(from, Misstep::OpenText)
}

impl<'a> Scan<'a> {
    fn new(alloc: Global, text: &'a str, way: &'a [PathStep<'a>]) -> Scan<'a> {
        Scan {
            alloc,
            text,
            wanted: Wanted::Value,
            comma: None,
            open: Vec::new(alloc),
            twice: Vec::new(alloc),
            way,
            value_at: None,
            name_at: None,
        }
    }

    // Whether the way leads to the value that comes or came last.
    fn is_here(&self) -> bool {
        if self.open.len() != self.way.len() {
            return false;
        }
        for (open, step) in self.open.iter().zip(self.way) {
            if !open.is_at(step) {
                return false;
            }
        }
        true
    }

    fn unexpected<T>(&self, at: usize) -> Result<T, Stop> {
        slip_at(at, Misstep::Unexpected(self.wanted))
    }

    // A value begins here, if one may.
    fn begin_value(&mut self, at: usize) -> Result<(), Stop> {
        if !matches!(self.wanted, Wanted::Value | Wanted::ValueOrEnd) {
            return self.unexpected(at);
        }
        if self.is_here() {
            self.value_at = Some(at);
        }
        Ok(())
    }

    // What may stand after a value.
    fn after_value(&mut self) {
        self.comma = None;
        self.wanted = match self.open.last() {
            None => Wanted::End,
            Some(open) if open.is_object => Wanted::CommaOrBrace,
            Some(_) => Wanted::CommaOrBracket,
        };
    }

    fn open_at(&mut self, at: usize, is_object: bool) -> Result<(), AllocError> {
        self.open.push(Open {
            is_object,
            at,
            names: BTreeMap::new(self.alloc),
            name: "",
            number: 0,
        })?;
        Ok(())
    }

    // An object or a list begins.
    fn begin(&mut self, at: usize, is_object: bool) -> Result<(), Stop> {
        self.begin_value(at)?;
        if self.open.len() >= DEEPEST {
            return slip_at(at, Misstep::TooDeep);
        }
        self.open_at(at, is_object)?;
        self.comma = None;
        self.wanted = if is_object {
            Wanted::NameOrEnd
        } else {
            Wanted::ValueOrEnd
        };
        Ok(())
    }

    // An object (true) or a list ends, if it may.
    fn end(&mut self, at: usize, is_object: bool) -> Result<(), Stop> {
        match (is_object, self.wanted) {
            (true, Wanted::NameOrEnd | Wanted::CommaOrBrace) => {}
            (false, Wanted::ValueOrEnd | Wanted::CommaOrBracket) => {}
            _ => {
                return match self.comma {
                    Some(comma) => slip_at(comma, Misstep::TrailingComma(is_object)),
                    None => self.unexpected(at),
                };
            }
        }
        let _ = self.open.pop();
        self.after_value();
        Ok(())
    }

    fn take_comma(&mut self, at: usize) -> Result<(), Stop> {
        self.wanted = match self.wanted {
            Wanted::CommaOrBrace => Wanted::Name,
            Wanted::CommaOrBracket => Wanted::Value,
            _ => return self.unexpected(at),
        };
        self.comma = Some(at);
        if let Some(open) = self.open.last_mut() {
            open.number = open.number.saturating_add(1);
        }
        Ok(())
    }

    fn take_colon(&mut self, at: usize) -> Result<(), Stop> {
        if self.wanted != Wanted::Colon {
            return self.unexpected(at);
        }
        self.wanted = Wanted::Value;
        Ok(())
    }

    // A name stands between these quotes.
    fn take_name(&mut self, from: usize, to: usize) -> Result<(), AllocError> {
        self.comma = None;
        self.wanted = Wanted::Colon;
        let name = self.text.get(from.saturating_add(1)..to).unwrap_or("");
        let Some(open) = self.open.last_mut() else {
            return Ok(());
        };
        open.name = name;
        let known = open.names.insert(name, from)?;
        if self.is_here() {
            self.name_at = Some(from);
        }
        if known.is_some() && self.twice.len() < MOST_TWICE {
            self.twice.push(Twice { at: from, name })?;
        }
        Ok(())
    }

    // A text begins here. The answer is the byte after it, and so below.
    fn take_text(&mut self, at: usize) -> Result<usize, Stop> {
        let is_name = matches!(self.wanted, Wanted::Name | Wanted::NameOrEnd);
        if !is_name {
            self.begin_value(at)?;
        }
        let to = last_quote(self.text.as_bytes(), at)?;
        if is_name {
            self.take_name(at, to)?;
        } else {
            self.after_value();
        }
        Ok(to.saturating_add(1))
    }

    fn take_word(&mut self, at: usize) -> Result<usize, Stop> {
        self.begin_value(at)?;
        let to = word_end(self.text.as_bytes(), at);
        if !is_json(self.alloc, self.text.get(at..to).unwrap_or(""))? {
            return slip_at(at, Misstep::Word);
        }
        self.after_value();
        Ok(to)
    }

    fn take_mark(&mut self, at: usize, byte: u8) -> Result<usize, Stop> {
        match byte {
            b'{' => self.begin(at, true)?,
            b'[' => self.begin(at, false)?,
            b'}' => self.end(at, true)?,
            b']' => self.end(at, false)?,
            b',' => self.take_comma(at)?,
            _ => self.take_colon(at)?,
        }
        Ok(at.saturating_add(1))
    }

    fn take(&mut self, at: usize, byte: u8) -> Result<usize, Stop> {
        match byte {
            b'/' | b'#' => slip_at(at, Misstep::Comment),
            b'"' => self.take_text(at),
            _ if is_of_word(byte) => self.take_word(at),
            _ => self.take_mark(at, byte),
        }
    }

    // The text ends.
    fn finish(&self) -> Result<(), Stop> {
        match self.open.last() {
            Some(open) => slip_at(self.text.len(), Misstep::Open(self.wanted, open.at)),
            None if self.wanted == Wanted::Value => slip_at(0, Misstep::Empty),
            None => Ok(()),
        }
    }

    fn run(&mut self) -> Result<(), Stop> {
        if self.text.starts_with("\u{feff}") {
            return slip_at(0, Misstep::Mark);
        }
        let bytes = self.text.as_bytes();
        let mut at = 0;
        for _ in 0..bytes.len() {
            at = blanks_end(bytes, at);
            match bytes.get(at) {
                Some(byte) => at = self.take(at, *byte)?,
                None => break,
            }
        }
        self.finish()
    }

    // The first slip, if there is one.
    fn first_slip(&mut self) -> Result<Option<Slip>, AllocError> {
        match self.run() {
            Ok(()) => Ok(None),
            Err(Stop::Slip(slip)) => Ok(Some(slip)),
            Err(Stop::NoMemory) => Err(AllocError),
        }
    }
}

/// Whether a text is JSON. The only error is running out of memory.
pub fn is_json(alloc: Global, text: &str) -> Result<bool, AllocError> {
    match Value::from_str(alloc, text) {
        Ok(_) => Ok(true),
        Err(error) if error.is_memory() => Err(AllocError),
        Err(_) => Ok(false),
    }
}

/// The first place where a text is no JSON, and the names that stand twice before it. The only error is running out of memory.
pub fn scan_text(alloc: Global, text: &str) -> Result<Scanned<'_>, AllocError> {
    let mut scan = Scan::new(alloc, text, &[]);
    let slip = scan.first_slip()?;
    Ok(Scanned {
        slip,
        twice: scan.twice,
    })
}

/// The byte of a text of JSON where the value begins to which the way leads, the last one where there are several, or, with `name`, the
/// byte where its name begins. `None` where none is found: names are compared as they are written. The only error is running out of
/// memory.
pub fn place_of(
    alloc: Global,
    text: &str,
    way: &[PathStep<'_>],
    name: bool,
) -> Result<Option<usize>, AllocError> {
    let mut scan = Scan::new(alloc, text, way);
    scan.first_slip()?;
    if name {
        Ok(scan.name_at)
    } else {
        Ok(scan.value_at)
    }
}
