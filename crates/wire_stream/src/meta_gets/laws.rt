//! Laws of the meta form: it is read as the get that it is, and its answers say what they told.

ghost use Rattle.wire_stream.specs.MetaLaws.{FormsAreRead, AnswersAreRead, OneMetaAnswer};

/// What is written of a classic get is read as an `mg` of its key, whatever follows: one ask with these flags and no others.
pub fn forms_are_read()
    ensures { FormsAreRead }
{}

/// Each answer that fits the meta form is read, and the classic answer says the same.
pub fn answers_are_read()
    ensures { AnswersAreRead }
{}

/// Bytes begin with one answer to an ask at most.
pub fn one_answer()
    ensures { OneMetaAnswer }
{}
