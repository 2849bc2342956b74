//! How a text is no JSON, in words.

use crate::place::Source;
use crate::scan::{Misstep, Slip, Wanted, is_of_word};
use std::fmt;
use std::fmt::Display;
use text_words::escapes::Escaped;

/// Of a word or a text no more than so many characters are told.
const LONGEST_TOLD: usize = 40;

impl Display for Wanted {
    fn fmt<W: fmt::Write>(&self, f: &mut fmt::Formatter<W>) -> fmt::Result {
        f.write_str(match self {
            Wanted::Value => "a value",
            Wanted::ValueOrEnd => "a value or ]",
            Wanted::Name => "a name in double quotes",
            Wanted::NameOrEnd => "a name in double quotes or }",
            Wanted::Colon => "a colon",
            Wanted::CommaOrBrace => "a comma or }",
            Wanted::CommaOrBracket => "a comma or ]",
            Wanted::End => "the end",
        })
    }
}

// Where a text ends that begins with a quote, or a word, or a single mark.
fn token_end(text: &str) -> usize {
    let mut is_text = false;
    for (count, (at, letter)) in text.char_indices().enumerate() {
        if count == 0 {
            is_text = letter == '"';
            continue;
        }
        if count > LONGEST_TOLD {
            return at;
        }
        if is_text && letter == '"' {
            return at.saturating_add(1);
        }
        let is_word = !letter.is_ascii() || is_of_word(letter as u8);
        let began = text.as_bytes().first().is_some_and(|b| is_of_word(*b));
        if !is_text && !(began && is_word) {
            return at;
        }
    }
    text.len()
}

/// What stands at a byte of a text.
#[derive(Clone, Copy)]
pub struct Found<'a> {
    pub text: &'a str,
    pub at: usize,
}

/// The text, the word or the mark that stands there, or the end.
impl Display for Found<'_> {
    fn fmt<W: fmt::Write>(&self, f: &mut fmt::Formatter<W>) -> fmt::Result {
        let rest = self.text.get(self.at..).unwrap_or("");
        match rest.get(..token_end(rest)) {
            None | Some("") => f.write_str("the end"),
            Some(token) => write!(f, "{}", Escaped(token.as_bytes())),
        }
    }
}

/// A slip in a text of a file.
#[derive(Clone, Copy)]
pub struct SlipIn<'a> {
    pub source: Source<'a>,
    pub slip: Slip,
}

impl SlipIn<'_> {
    fn found(&self) -> Found<'_> {
        Found {
            text: self.source.text,
            at: self.slip.at,
        }
    }

    fn is_quote(&self) -> bool {
        self.source
            .text
            .get(self.slip.at..)
            .unwrap_or("")
            .starts_with("'")
    }

    fn unexpected<W: fmt::Write>(&self, wanted: Wanted, f: &mut fmt::Formatter<W>) -> fmt::Result {
        write!(f, "expected {wanted}, found {}", self.found())?;
        if self.is_quote() {
            f.write_str(": JSON has no single quotes")?;
        }
        Ok(())
    }

    fn word<W: fmt::Write>(&self, f: &mut fmt::Formatter<W>) -> fmt::Result {
        write!(f, "{} is no value: ", self.found())?;
        f.write_str(if self.is_quote() {
            "a text stands in double quotes"
        } else {
            "a text stands in double quotes, and a number has digits"
        })
    }

    fn words<W: fmt::Write>(&self, f: &mut fmt::Formatter<W>) -> fmt::Result {
        match self.slip.misstep {
            Misstep::Empty => { f.write_str("empty: expected an object with pools and route") }
            Misstep::Mark => f.write_str("a byte order mark: JSON begins without one"),
            Misstep::Comment => f.write_str("a comment: JSON has none"),
            Misstep::TrailingComma(true) => {
                f.write_str("a comma before }: JSON has no trailing commas")
            }
            Misstep::TrailingComma(false) => {
                f.write_str("a comma before ]: JSON has no trailing commas")
            }
            Misstep::Word => self.word(f),
            Misstep::Unexpected(wanted) => self.unexpected(wanted, f),
            Misstep::OpenText => {
                f.write_str("a text begins here, and its line has no quote that ends it")
            }
            Misstep::Control => f.write_str("a control character in a text"),
            Misstep::Escape => {
                f.write_str("a backslash in a text begins none of JSON's escapes")
            }
            Misstep::TooDeep => f.write_str("more than 127 values stand in each other"),
            Misstep::Open(wanted, at) => {
                write!(
                    f,
                    "the end, within what begins at {}: expected {wanted}",
                    self.source.place(at)
                )
            }
        }
    }
}

/// `mcgate: FILE:LINE:COLUMN: WORDS`.
impl Display for SlipIn<'_> {
    fn fmt<W: fmt::Write>(&self, f: &mut fmt::Formatter<W>) -> fmt::Result {
        write!(
            f,
            "mcgate: {}:{}: ",
            self.source.file,
            self.source.place(self.slip.at)
        )?;
        self.words(f)
    }
}
