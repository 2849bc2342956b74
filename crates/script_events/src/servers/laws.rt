//! A law of calls of a script's servers: a function without a body, whose contract is the law; proofs cite its lemma.
ghost use Rattle.script_events.specs.Law.{AnswersAreSteps};

/// A call whose result came, with the stamp that its origin gives, is a call by the law of runs, just after the losses that are
/// named for it; what the server drops by itself is what has expired and what the call pushes out.
pub fn answers_are_steps()
    ensures { AnswersAreSteps }
{}
