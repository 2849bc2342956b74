//! Laws of what is taken and cleared. Each is a function without a body, whose contract is the law; code uses it by a
//! call.

ghost use Rattle.gate_coverage.specs.Exact.{CoveringIsCovered, ClearedIsExact, TakenIsExact};

/// Where each tree covers itself and the later ones, deletes clear what later commands take.
pub fn covering_is_covered()
    ensures { CoveringIsCovered }
{}

/// What is computed of a delete is what its words say.
pub fn cleared_is_exact()
    ensures { ClearedIsExact }
{}

/// What is computed of a read is what its words say.
pub fn taken_is_exact()
    ensures { TakenIsExact }
{}
