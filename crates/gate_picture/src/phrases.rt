//! The fixed texts of a picture.

ghost use Rattle.std.specs.Prelude.{◌≡◌};
ghost use Rattle.gate_picture.specs.Phrases.{picture_text};

/// A fixed text of a statement.
#[derive(Clone, Copy)]
pub enum Phrase {
    /// The front of the graph.
    Graph,
    /// That the drawing goes from left to right.
    Direction,
    /// The front of a label.
    Label,
    /// What ends a label and its statement.
    End,
    Boxed,
    Red,
    LabelRed,
    LabelThick,
    NotCleared,
}

/// The text.
#[tactic(auto, unfolding(crate::specs::Phrases::picture_text))]
pub fn text_of(phrase: Phrase) -> &'static str
    ensures { result.now ≡ picture_text phrase }
{
    match phrase {
        Phrase::Graph => "strict digraph mcgate {",
        Phrase::Direction => "  rankdir=LR;",
        Phrase::Label => " [label=\"",
        Phrase::End => "\"];",
        Phrase::Boxed => "\", shape=box];",
        Phrase::Red => " [color=red];",
        Phrase::LabelRed => "\", color=red];",
        Phrase::LabelThick => "\", shape=box, color=red, penwidth=2];",
        Phrase::NotCleared => "\\nnot cleared by ",
    }
}
