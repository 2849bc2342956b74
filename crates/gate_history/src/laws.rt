//! Laws of histories. Each is a function without a body, whose contract is the law; proofs cite its lemma.

ghost use Rattle.gate_history.specs.Written.{WrittenIsRead, HistoriesAreDetermined};

/// What is written is read back: a history with one more line is the history of one more generation.
pub fn written_is_read()
    ensures { WrittenIsRead }
{}

/// A text says one history at most.
pub fn histories_are_determined()
    ensures { HistoriesAreDetermined }
{}
