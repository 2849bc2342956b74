//! The first line of a text, and the rest.

ghost use Rattle.std.specs.Prelude.{◌≡◌, ◌≤◌, ◌+◌, ◌∷◌, length};
ghost use Rattle.script_events.specs.Lines.{lines_of};
ghost use Rattle.script_events.specs.LinesAfter.{lines_after};

/// The first line of a text, and what stands after its line end, where it has one.
#[derive(Clone, Copy)]
pub struct FirstOf<'a> {
    pub line: &'a str,
    pub rest: Option<&'a str>,
}

/// The front of a text. A line ends at `\n`; a carriage return is a byte like any other.
pub fn front_of(text: &str) -> FirstOf<'_>
    ensures lines { lines_of text.now ≡ result.line.now ∷ lines_after result.rest }
    ensures few { length (lines_after result.rest) + length result.line.now ≤ length text.now }
{
    match text.split_once('\n') {
        Some((line, rest)) => FirstOf {
            line,
            rest: Some(rest),
        },
        None => FirstOf {
            line: text,
            rest: None,
        },
    }
}
