//! Laws of lines: each says an event, or has a trouble.

ghost use Rattle.fault_words.specs.Laws.{EachLineIsEither, EachLineGoesWithItsTrouble};

/// Each line says an event, or has a trouble, and never both: so every line that is refused has its words.
pub fn each_line_is_either()
    ensures { EachLineIsEither }
{}

/// Whatever servers are known, a line of a script that can't be read has a trouble, one that says an event has none, and one that loads a
/// configuration has only that of a reload line, which isn't told of it.
pub fn troubles_go_with_lines()
    ensures { EachLineGoesWithItsTrouble }
{}
