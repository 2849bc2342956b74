//! The words of a line of a script, and their numbers.

ghost use Rattle.std.specs.Prelude.{◌≡◌, ◌^◌, option_map, position, IfSome, ◌<◌};
ghost use Rattle.text_words.specs.Number.{number_below};
ghost use Rattle.text_words.specs.Word.{is_space};
ghost use Rattle.script_events.specs.Lines.{cut};
ghost use Rattle.script_events.specs.Told.{reload_said};
ghost use Rattle.script_events.specs.Seen.{parts_seen, texts_seen};

use text_words::number::number;

/// A word, and what stands after the one space that ends it.
#[derive(Clone, Copy)]
pub struct Parts<'a> {
    pub word: &'a [u8],
    pub rest: &'a [u8],
}

fn first_space(text: &[u8]) -> Option<usize>
    ensures { result ≡ position is_space text.now }
{
    text.iter().position(|b| *b == b' ')
}

/// The text, cut at its first space; `None` where it has none.
pub fn cut(text: &[u8]) -> Option<Parts<'_>>
    ensures { option_map parts_seen result ≡ cut text.now }
{
    match first_space(text) {
        Some(at) => Some(Parts {
            word: &text[..at],
            rest: &text[at + 1..],
        }),
        None => None,
    }
}

// A string, cut at its first space; `None` where it has none.
fn cut_text(text: &str) -> Option<(&str, &str)>
    ensures { option_map texts_seen result ≡ cut text.now }
{
    text.split_once(' ')
}

/// The JSON of a line `reload JSON`.
pub fn reload_json(line: &str) -> Option<&str>
    ensures { option_map (λ json. json.now) result ≡ reload_said line.now }
{
    match cut_text(line) {
        Some((word, json)) if word == "reload" => Some(json),
        _ => None,
    }
}

/// The number of 1 to 20 digits that a word writes, where it is below the limit.
pub fn number_under(limit: u64, word: &[u8]) -> Option<u64>
    ensures { result ≡ number_below limit word.now }
{
    let value = number(word)?;
    if value < limit { Some(value) } else { None }
}
