//! The line of a text that has a number.

ghost use Rattle.std.specs.Prelude.{◌≡◌, ◌+◌, ◌<◌, ◌^◌, length};
ghost use Rattle.script_events.specs.LinesAfter.{lines_after};
ghost use Rattle.fault_words.specs.Lines.{line_numbered};

use script_events::text::front::front_of;

/// The line of this number among lines after so many others; an empty one where there is none.
pub fn line_numbered(above: usize, further: Option<&str>, number: usize) -> &str
    requires { above + length (lines_after further) < 2 ^ 64 }
    ensures { result.now ≡ line_numbered (above + 1) (lines_after further.entry) number }
{
    let mut rest = further;
    let mut at = above;
    while let Some(text) = rest {
        let front = front_of(text);
        at += 1;
        if at == number {
            return front.line;
        }
        rest = front.rest;
    }
    ""
}
