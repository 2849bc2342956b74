//! Laws of answers: what is written is read back, and nothing else.

ghost use Rattle.wire_answers.specs.Laws.{
  AnswersAreReadBack,
  OneAnswer,
  NoneBeginsAnother,
  SpelledAnswersFit,
  AnswersStay,
};

/// What [`crate::write_answer`] writes for a fitting answer is read as that answer, whatever follows it.
pub fn answers_are_read_back()
    ensures { AnswersAreReadBack }
{}

/// Bytes begin with one answer to an ask at most.
pub fn one_answer()
    ensures { OneAnswer }
{}

/// No spelling of an answer begins the spelling of another one to the same ask.
pub fn none_begins_another()
    ensures { NoneBeginsAnother }
{}

/// What [`crate::read_answer`] reads fits the ask.
pub fn spelled_answers_fit()
    ensures { SpelledAnswersFit }
{}

/// An answer stays the same answer, whatever bytes follow.
pub fn answers_stay()
    ensures { AnswersStay }
{}
