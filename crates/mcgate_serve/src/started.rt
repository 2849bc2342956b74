//! A text that is to be served, and what is remembered of those before it.

ghost use Rattle.std.specs.Prelude.{◌≡◌, string_bytes};
ghost use Rattle.mcgate_notes.specs.Remembers.{StandsIn};

use mcgate_notes::remembering::Kept;
use serve_proxy::Beginnings;

/// The text of a configuration that is to be served; where a history is kept, it stands in its file.
#[derive(Drop)]
pub struct Started {
    text: String,
    memory: Option<Kept>,
    /// How servers began.
    pub begun: Beginnings,
    ghost stands: { ∥ StandsIn memory (string_bytes text) ∥₁ },
}

/// What came of a text: it may be served, or the exit status of what was printed instead.
#[derive(Drop)]
pub enum Begun {
    Started(Started),
    Printed(u8),
}

impl Started {
    /// The text; where a history is kept, it is the last one of that.
    pub fn new(text: String, memory: Option<Kept>, begun: Beginnings) -> Started
        requires { StandsIn memory (string_bytes text) }
        ensures { result.memory ≡ memory }
    {
        Started {
            text,
            memory,
            begun,
        }
    }

    /// The text, and what is remembered.
    pub fn into_parts(self) -> (String, Option<Kept>)
        ensures text { result.0 ≡ self.text }
        ensures stands { ∥ StandsIn result.1 (string_bytes result.0) ∥₁ }
    {
        let Started {
            text,
            memory,
            begun: _,
        } = self;
        (text, memory)
    }
}
