//! Laws of reading back: words, lines and numbers.

ghost use Rattle.text_words.specs.ReadBack.{WordsAreReadBack, LinesAreReadBack, NumbersAreReadBack, SignedAreReadBack};
ghost use Rattle.text_words.specs.Stays.{LinesStay, LinesAreDetermined};

/// Words with one space between are read as those words.
pub fn words_are_read_back()
    ensures { WordsAreReadBack }
{}

/// A spelled line is read as that line, whatever follows it.
pub fn lines_are_read_back()
    ensures { LinesAreReadBack }
{}

/// A number that was written in decimal is read as that number, below each limit that it keeps.
pub fn numbers_are_read_back()
    ensures { NumbersAreReadBack }
{}

/// A number of `i64` that was written in decimal, with its sign, is read as that number.
pub fn signed_are_read_back()
    ensures { SignedAreReadBack }
{}

/// The first line stays the first line, whatever bytes follow.
pub fn lines_stay()
    ensures { LinesStay }
{}

/// Bytes begin with one line at most.
pub fn lines_are_determined()
    ensures { LinesAreDetermined }
{}
